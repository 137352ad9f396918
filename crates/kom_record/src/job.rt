ghost use Rattle.std.specs.Arc.{arc_value};
ghost use Rattle.kom_record.specs.Reaction.{Reacts};

use crate::entry::Outcome;
use crate::item::Item;
use kom_base::Comp;
use kom_lang::Body;
use kom_system::System;
use std::alloc::Global;
use std::sync::Arc;

/// An item that a worker took for a component, with all that is needed to handle it: the
/// component's body, and the system.
#[derive(Drop)]
pub struct Job {
    pub w: u32,
    pub c: Comp,
    pub item: Item,
    pub body: Body,
    pub system: Arc<System, Global>,
}

/// A job that was handled, with what came of it: the outcome is the reaction of the job's body to
/// its item.
#[derive(Drop)]
pub struct Ran {
    pub job: Job,
    pub outcome: Outcome,
    pub ghost reacted: { ∥ Reacts (arc_value job.system).declarations job.body job.item outcome ∥₁ },
}
