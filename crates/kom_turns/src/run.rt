use crate::counts::Counts;
use kom_base::Comp;
use kom_comps::Comps;
use kom_env::Env;
use kom_index::Ordered;
use kom_record::Record;
use kom_state::RunState;
use kom_system::System;
use std::alloc::Global;
use std::sync::Arc;

/// A job in hand: the position of its Took, and its component.
#[derive(Clone, Copy, Debug)]
pub struct Held {
    pub took: u32,
    pub comp: Comp,
}

/// A run as it is kept: its system, its record, and what the record leaves.
#[derive(Drop)]
pub struct Run {
    pub system: Arc<System, Global>,
    pub kept: Record,
    pub state: RunState,
    pub env: Env,
    /// The job that each worker has in hand, by the number of the worker.
    pub jobs: Ordered<u32, Held>,
    /// The components of which a job is in hand.
    pub busy: Comps,
    /// The components that are runnable.
    pub runnable: Comps,
    /// The components that a step has touched; none between calls.
    pub marks: Comps,
    pub counts: Counts,
}
