ghost use Rattle.std.specs.Prelude.{◌≡◌, ◌<◌, ◌≤◌, ◌^◌, true, false, length, IfOk, OnErr, OnOk, IsSome, None, Some};
ghost use Rattle.std.specs.Arc.{arc_value};
ghost use Rattle.std.specs.Ordering.{nat_cmp};
ghost use Rattle.kom_index.specs.Entries.{value_of};
ghost use Rattle.kom_index.specs.Stock.{entries, spare};
ghost use Rattle.kom_record.specs.Answers.{AnswersTake, IsFree, IsJobFor};
ghost use Rattle.kom_record.specs.Ready.{is_closed, next, runnable};
ghost use Rattle.kom_state.specs.Parts.{state_of};
ghost use Rattle.kom_state.specs.Readings.{first_item};
ghost use Rattle.kom_turns.specs.Items as items;
ghost use Rattle.kom_turns.specs.Items.{WaitsFirst, IsJobOf};
ghost use Rattle.kom_turns.specs.Runs.{IsRun, IsButForRoom, IsNoted, system_of, history_of};

use crate::items::{arrival, events_in, take_out};
use crate::run::{Held, Run};
use kom_base::{Comp, Copied};
use kom_offered::waiting_is_read;
use kom_record::{Entry, Item, Job, Taken};
use kom_refine::{next_is_first, took_follows};
use kom_times::stays_at_took;
use kom_wakes::{
    busy_goes_on, counts_go_on, queued_is_counted, runnable_by_state, takes_leave, untouched_stay,
};
use std::alloc::{AllocError, Global};
use std::sync::Arc;

impl Run {
    /// Takes the next item of a component for a worker that has no job in hand. `Closed` comes
    /// exactly where the record is closed, and `Nothing` exactly where it is not and the component
    /// is not ready. It costs copies of the item and of the body, and the logarithm of the rest.
    pub fn take(&mut self, alloc: Global, w: u32, c: Comp) -> Taken
        requires run { IsRun self.old }
        requires free { IsFree (history_of self.old) w }
        ensures answer { AnswersTake (arc_value self.old.system) self.old.env.plan (history_of self.old) w c result (history_of self.new) }
        ensures run { IsRun self.new }
        ensures system { arc_value self.new.system ≡ arc_value self.old.system }
        ensures plan { self.new.env.plan ≡ self.old.env.plan }
    {
        if self.counts.is_closed() {
            return Taken::Closed;
        }
        if !self.runnable.contains(c) {
            return Taken::Nothing;
        }
        match self.take_next(alloc, w, c) {
            Ok(job) => Taken::Job(job),
            Err(_) => Taken::Memory,
        }
    }

    /// Takes the next item of a component that is ready.
    fn take_next(&mut self, alloc: Global, w: u32, c: Comp) -> Result<Job, AllocError>
        requires run { IsRun self.old }
        requires free { IsFree (history_of self.old) w }
        requires not_closed { is_closed (system_of self.old) self.old.env.plan (history_of self.old) ≡ false }
        requires runnable { runnable (system_of self.old) (history_of self.old) c ≡ true }
        ensures ok { IfOk result (λ job. IsJobFor (arc_value self.old.system) self.old.env.plan (history_of self.old) w c job (history_of self.new)) }
        ensures err { OnErr result (history_of self.new ≡ history_of self.old) }
        ensures run { IsRun self.new }
        ensures system { arc_value self.new.system ≡ arc_value self.old.system }
        ensures plan { self.new.env.plan ≡ self.old.env.plan }
    {
        took_follows();
        untouched_stay();
        takes_leave();
        busy_goes_on();
        counts_go_on();
        queued_is_counted();
        stays_at_took();
        let item = self.next_item(alloc, c)?;
        let job = self.job_for(alloc, w, c, &item)?;
        self.make_room()?;
        self.note_taken(w, c, item);
        Ok(job)
    }

    /// The item that a runnable component takes next.
    fn next_item(&self, alloc: Global, c: Comp) -> Result<Item, AllocError>
        requires run { IsRun self.now }
        requires runnable { runnable (system_of self.now) (history_of self.now) c ≡ true }
        ensures next { IfOk result (λ item. next (system_of self.now) (history_of self.now) c ≡ Some item) }
        ensures waits { IfOk result (λ item. WaitsFirst (state_of self.now.state) c item) }
    {
        match self.state.first_control(c) {
            Some(control) => Ok(Item::Control(control.copy(alloc)?)),
            None => self.next_arrival(alloc, c),
        }
    }

    /// The event that a runnable component takes next where no control item waits for it.
    fn next_arrival(&self, alloc: Global, c: Comp) -> Result<Item, AllocError>
        requires run { IsRun self.now }
        requires runnable { runnable (system_of self.now) (history_of self.now) c ≡ true }
        requires no_control { first_item (state_of self.now.state) c ≡ None }
        ensures next { IfOk result (λ item. next (system_of self.now) (history_of self.now) c ≡ Some item) }
        ensures waits { IfOk result (λ item. WaitsFirst (state_of self.now.state) c item) }
    {
        next_is_first();
        runnable_by_state();
        waiting_is_read();
        match self.state.first_for(c) {
            Some(front) => arrival(alloc, &self.state, &self.kept, front.0, front.1, front.2),
            None => unreachable!(),
        }
    }

    /// The job of a worker for a living component.
    fn job_for(&self, alloc: Global, w: u32, c: Comp, item: &Item) -> Result<Job, AllocError>
        requires { IsSome ((state_of self.now.state).bodies c) }
        ensures { IfOk result (λ job. IsJobOf self.now w c item.now job) }
    {
        let Some(body) = self.state.body(c) else {
            unreachable!()
        };
        Ok(Job {
            w,
            c,
            item: item.copy(alloc)?,
            body: body.copy(alloc)?,
            system: Arc::try_clone(&self.system)?,
        })
    }

    /// Makes room for one more entry and one more job. On want of memory all is as before but that
    /// there may be more room.
    fn make_room(&mut self) -> Result<(), AllocError>
        ensures same { IsButForRoom self.old self.new }
        ensures kept { OnOk result (1 ≤ self.new.kept.spare) }
        ensures jobs { OnOk result (1 ≤ spare self.new.jobs) }
    {
        self.kept.reserve(1)?;
        self.jobs.reserve(1)
    }

    /// Takes the item out of where it waits, and notes the job of it. It takes no memory.
    fn note_taken(&mut self, w: u32, c: Comp, item: Item)
        requires kept { 1 ≤ self.old.kept.spare }
        requires room { 1 ≤ spare self.old.jobs }
        requires few { length (history_of self.old) < 2 ^ 32 }
        requires free { value_of nat_cmp w (entries self.old.jobs) ≡ None }
        requires waits { WaitsFirst (state_of self.old.state) c item }
        requires busy { c < self.old.busy.bound }
        requires runnable { c < self.old.runnable.bound }
        requires step { 1 ≤ self.old.counts.steps }
        requires queued { items.events_in item ≤ self.old.counts.queued }
        ensures { IsNoted w c item self.old self.new }
    {
        take_out(&mut self.state, c, &item);
        let took = self.kept.len() as u32;
        self.jobs.insert(w, Held { took, comp: c });
        self.busy.set(c, true);
        self.runnable.set(c, false);
        self.counts.steps -= 1;
        self.counts.queued -= events_in(&item);
        self.kept.add(Entry::Took { w, c, item });
    }
}
