//! What a lot is made of.
ghost use Rattle.std.specs.Prelude.{◌≡◌, ℕ, ◌+◌, ◌<◌, length};
ghost use Rattle.std.specs.List.{sum_by};
ghost use Rattle.crossbeam_deque.specs.Handles.{stealer_flavor, worker_flavor, worker_view};
ghost use Rattle.kom_ready.specs.Guests.{taken_by};

use crate::guest::Guest;
use crate::rule::{Own, Thief};
use std::alloc::Global;

/// The deques of all workers, for those who steal.
#[derive(Drop)]
pub struct ReadySet {
    pub(crate) alloc: Global,
    pub(crate) thieves: Vec<Thief>,
    ghost fifo: { sum_by stealer_flavor thieves.items ≡ 0 },
}

/// The lot of one worker: a deque of components to which it alone pushes, and passes to the deques
/// of all workers.
///
/// Contracts see its number, the components that were pushed to it and those that it gave, and for
/// each worker how often it found that worker's deque empty.
#[derive(Drop)]
pub struct Lot {
    pub(crate) number: usize,
    pub(crate) own: Own,
    pub(crate) guests: Vec<Guest>,
    pub(crate) pushes: u32,
    ghost fifo: { worker_flavor own ≡ 0 },
    ghost part: { 0 < (worker_view own).parts },
    ghost counted: { length (worker_view own).pushed ≡ pushes },
    ghost balanced: { (h : ℕ → ℕ) → sum_by h (worker_view own).put ≡ sum_by h (worker_view own).pushed + sum_by (taken_by h) guests.items },
}
