/// What tells each message's mark.
pub trait Marker<M> {
    ghost use Rattle.std.specs.Prelude.{◌≡◌, Bool};

    ghost told: { Self → M → Bool };

    /// The mark that a message gets.
    fn mark(&self, message: M) -> bool
        ensures { result ≡ told self.now message };
}
