//! What it is to be free, told of the calls one after the other.

ghost use Rattle.std.specs.Prelude.{◌≡◌, ◌≢◌, ◌<◌, ℕ, Bool, true, false, List, length, slice_index_or, replicate};
ghost use Rattle.base.specs.declared.step.Ask.{Ask};
ghost use Rattle.cores.specs.Cores.{Core, finishing, idle, is_free, issuing, with_core};

/// A core is free at first, isn't once it has issued an ask, and is again once that has finished. What one core does
/// changes no other.
pub fn a_core_is_free_between_its_asks()
    ensures opened { (n core : ℕ) → is_free (replicate n idle) core ≡ true }
    ensures issued { (cores : List Core) (core : ℕ) (ask : Ask) → core < length cores → is_free (with_core cores core (issuing ask)) core ≡ false }
    ensures finished { (cores : List Core) (core : ℕ) → core < length cores → is_free (with_core cores core finishing) core ≡ true }
    ensures others { (cores : List Core) (core other : ℕ) (becomes : Core → Core) → core ≢ other →
        slice_index_or (with_core cores core becomes) other idle ≡ slice_index_or cores other idle }
{}
