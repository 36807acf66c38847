use base::NoMemory;
use std::alloc::Global;

/// What can be copied where there is memory for it.
pub trait TryClone: Sized {
    ghost use Rattle.std.specs.Prelude.{◌≡◌, IfOk};

    /// What a copy has of the value.
    ghost Seen: { Type 0 };

    ghost seen: { Self → Seen };

    /// A copy in which the same is seen.
    fn try_clone(&self, alloc: Global) -> Result<Self, NoMemory>
        ensures { IfOk result (λ copy. seen copy ≡ seen self.now) };
}
