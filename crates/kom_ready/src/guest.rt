//! What a lot has of the deque of one worker.
ghost use Rattle.std.specs.Prelude.{◌≡◌, ◌+◌, ◌≤◌, [], None, min};
ghost use Rattle.crossbeam_deque.specs.Handles.{view};
ghost use Rattle.kom_ready.specs.Counts.{Rose, last_count};

use crate::rule::Ticket;

/// What a lot has of a deque: its pass, and how often it found the deque empty.
#[derive(Drop)]
pub struct Guest {
    pub(crate) pass: Ticket,
    pub(crate) found: u64,
    ghost rests: { (pass.me.hand ≡ None) × (pass.me.spare ≡ None) },
    ghost part: { (view pass).parts ≡ 1 },
    ghost takes: { ((view pass).pushed ≡ []) × ((view pass).put ≡ []) },
}

impl Guest {
    /// Counts that the deque was found empty.
    pub(crate) fn note(&mut self)
        ensures pass { self.new.pass ≡ self.old.pass }
        ensures found { Rose self.old.found self.new.found × (self.old.found ≤ self.new.found) }
        ensures exact { self.new.found ≡ min (self.old.found + 1) last_count }
    {
        self.found = self.found.saturating_add(1);
    }
}
