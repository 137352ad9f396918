ghost use Rattle.std.specs.Prelude.{◌≡◌, ◌||◌, ◌==◌};

/// What is counted of a run.
#[derive(Clone, Copy, Debug)]
pub struct Counts {
    /// How many items may still be taken.
    pub steps: u32,
    /// How often the time may still move.
    pub instants: u32,
    /// Whether a fault was raised of which no ancestor was told.
    pub unhandled: bool,
    /// How many events wait in channels, those that go to the environment left out.
    pub queued: u64,
    /// How many events went out to the environment.
    pub out: u64,
}

impl Counts {
    /// Whether the run takes no more items.
    pub fn is_closed(&self) -> bool
        ensures { result ≡ (self.now.unhandled || self.now.steps == 0 || self.now.instants == 0) }
    {
        self.unhandled || self.steps == 0 || self.instants == 0
    }
}
