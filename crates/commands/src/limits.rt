/// What the numbers of some options are at most, as the crates have it that use them.
#[derive(Clone, Copy, Debug)]
pub struct Limits {
    /// The steps of a trial.
    pub steps: u32,
    /// The trials of a batch.
    pub trials: u32,
    /// The workers that share out a batch.
    pub workers: u32,
    /// The seats of a race.
    pub seats: u32,
    /// The caches of a model.
    pub model_caches: u32,
}

/// Which limit an option has.
#[derive(Clone, Copy)]
pub enum Most {
    Steps,
    Trials,
    Workers,
    Seats,
    ModelCaches,
}

impl Limits {
    /// The limit that is meant.
    pub fn of(&self, most: Most) -> u32 {
        match most {
            Most::Steps => self.steps,
            Most::Trials => self.trials,
            Most::Workers => self.workers,
            Most::Seats => self.seats,
            Most::ModelCaches => self.model_caches,
        }
    }
}
