//! The deque of a worker, apart from its lot.
ghost use Rattle.std.specs.Prelude.{◌≡◌, ◌<◌};
ghost use Rattle.crossbeam_deque.specs.Handles.{worker_flavor, worker_view};

use crate::rule::Own;

/// The deque of a worker, apart from its lot.
#[derive(Drop)]
pub struct Store {
    pub(crate) own: Own,
    ghost fifo: { worker_flavor own ≡ 0 },
    ghost part: { 0 < (worker_view own).parts },
}
