//! The steps of a worker.
ghost use Rattle.std.specs.Prelude.{◌≡◌, ℕ, ◌<◌, List, [], ◌∷◌, ◌++◌, MatchOption, length, true, false};
ghost use Rattle.kom_ready.specs.Counts.{Rose};
ghost use Rattle.kom_ready.specs.Lots.{IsSameLot, found_of, given_of, pushed_of};
ghost use Rattle.kom_crew.specs.Parts.{IsPart};
ghost use Rattle.kom_crew.specs.Workers.{IsBusy, IsDone, IsIdle, IsWorker, Stepped};

use crate::crew::Crew;
use crate::step::Step;
use crate::worker::{Left, Worker};
use kom_base::Comp;
use kom_eval::{Reacted, react};
use kom_record::{Committed, Gate, Job, Ran, Rest, Station, Taken, Wakes};
use kom_typed::jobs_are_well_formed;
use std::mem;
use std::sync::Wait;
use std::sync::atomic::Ordering;

impl Worker {
    /// Puts components into the own lot, in order. One that the lot hands back is dropped, since a rest
    /// names it later.
    pub fn push_all(&mut self, wakes: &Wakes)
        ensures lot { IsSameLot self.old.lot self.new.lot }
        ensures rest { (self.new.seat ≡ self.old.seat) × (self.new.left ≡ self.old.left) }
        ensures given { (self.new.given ≡ self.old.given) × (given_of self.new.lot ≡ given_of self.old.lot) }
        ensures pushed { (put : List ℕ) × IsPart put wakes.now × (pushed_of self.new.lot ≡ pushed_of self.old.lot ++ put) }
    {
        for i in 0..wakes.len() {
            let Some(c) = wakes.at(i) else {
                return;
            };
            let _ = self.lot.push(*c);
        }
    }

    /// The next component that the own lot gives; `None` only where each deque was found empty in this
    /// call.
    fn next<R: Wait, T: Station>(&mut self, rt: &R, crew: &Crew<T>) -> Option<Comp>
        requires { IsIdle T.system T.plan T.history crew.now self.old }
        ensures idle { IsIdle T.system T.plan T.history crew.now self.new }
        ensures gave { MatchOption result ((given_of self.new.lot ≡ given_of self.old.lot) × ((j : ℕ) → j < length self.old.lot.guests.items → Rose (found_of self.old.lot j) (found_of self.new.lot j))) (λ c. given_of self.new.lot ≡ given_of self.old.lot ++ c ∷ []) }
        ensures number { self.new.seat.number ≡ self.old.seat.number }
    {
        let found = self.lot.next(rt, &crew.set);
        self.given = self.given.saturating_add(u64::from(found.is_some()));
        found
    }

    /// Ends a job that was handled.
    fn end_job<R: Wait, T: Station>(&mut self, rt: &R, crew: &Crew<T>, ran: Ran) -> Step
        requires { IsBusy T.system T.plan T.history crew.now self.old ran.job }
        ensures stepped { Stepped T.system T.plan T.history crew.now self.new result }
        ensures number { self.new.seat.number ≡ self.old.seat.number }
    {
        match crew.exchange.commit(rt, &mut self.seat, ran) {
            Committed::Wakes(wakes) => {
                self.push_all(&wakes);
                crew.call_for(&wakes);
                Step::Again
            }
            Committed::Memory(ran) => {
                self.left = Left::Ran(ran);
                Step::Memory
            }
        }
    }

    /// Handles a job outside the exchange, and ends it.
    fn handle<R: Wait, T: Station>(&mut self, rt: &R, crew: &Crew<T>, job: Job) -> Step
        requires { IsBusy T.system T.plan T.history crew.now self.old job }
        ensures stepped { Stepped T.system T.plan T.history crew.now self.new result }
        ensures number { self.new.seat.number ≡ self.old.seat.number }
    {
        job.system.well_formed();
        jobs_are_well_formed();
        match react(crew.alloc, job) {
            Reacted::Ran(ran) => self.end_job(rt, crew, ran),
            Reacted::Memory(job) => {
                self.left = Left::Job(job);
                Step::Memory
            }
        }
    }

    /// Takes the next item of a component, passes the gate and handles it.
    fn take<R: Wait, T: Station, G: Gate>(
        &mut self,
        rt: &R,
        crew: &Crew<T>,
        gate: &G,
        c: Comp,
    ) -> Step
        requires { IsIdle T.system T.plan T.history crew.now self.old }
        ensures stepped { Stepped T.system T.plan T.history crew.now self.new result }
        ensures number { self.new.seat.number ≡ self.old.seat.number }
    {
        match crew.exchange.take(rt, &mut self.seat, c) {
            Taken::Job(job) => {
                gate.enter(rt, job.w, job.c);
                self.handle(rt, crew, job)
            }
            Taken::Nothing => Step::Again,
            Taken::Closed => Step::Over,
            Taken::Memory => Step::Memory,
        }
    }

    /// Asks what there is to do where the lot gave nothing, and sleeps where others are at work and
    /// there was no news since `heard`.
    fn rest<R: Wait, T: Station, G: Gate>(
        &mut self,
        rt: &R,
        crew: &Crew<T>,
        gate: &G,
        heard: u32,
    ) -> Step
        requires { IsIdle T.system T.plan T.history crew.now self.old }
        ensures stepped { Stepped T.system T.plan T.history crew.now self.new result }
        ensures number { self.new.seat.number ≡ self.old.seat.number }
    {
        match crew.exchange.rest(rt, &mut self.seat) {
            Rest::Moved(wakes) => {
                self.push_all(&wakes);
                crew.call_for(&wakes);
                Step::Again
            }
            Rest::Ready(c) => self.take(rt, crew, gate, c),
            Rest::Waiting => {
                crew.sleep(rt, heard);
                Step::Again
            }
            Rest::End | Rest::Closed => Step::Over,
            Rest::Memory => Step::Memory,
        }
    }

    /// One step: the next component of the lots, or else what a rest says. It sleeps only where there
    /// was no news since `heard`. What it has in hand is left with it. It may wait.
    pub fn step<R: Wait, T: Station, G: Gate>(
        &mut self,
        rt: &R,
        crew: &Crew<T>,
        gate: &G,
        heard: u32,
    ) -> Step
        requires { IsIdle T.system T.plan T.history crew.now self.old }
        ensures stepped { Stepped T.system T.plan T.history crew.now self.new result }
        ensures number { self.new.seat.number ≡ self.old.seat.number }
    {
        match self.next(rt, crew) {
            Some(c) => self.take(rt, crew, gate, c),
            None => self.rest(rt, crew, gate, heard),
        }
    }

    /// Works until nothing is left to do, or the record is closed, or some worker finds no memory. It
    /// looks at the news before the flag, so that whoever sets the flag and tells of it afterwards
    /// finds no worker that goes to sleep later. What it has in hand is left with it. It may wait.
    pub fn work<R: Wait, T: Station, G: Gate>(&mut self, rt: &R, crew: &Crew<T>, gate: &G)
        requires { IsIdle T.system T.plan T.history crew.now self.old }
        ensures worker { IsWorker T.system T.plan T.history crew.now self.new }
        ensures number { self.new.seat.number ≡ self.old.seat.number }
    {
        for _ in rt.forever() {
            let heard = crew.heard();
            if crew.stop.load(Ordering::SeqCst) {
                return;
            }
            match self.step(rt, crew, gate, heard) {
                Step::Again => {}
                Step::Over => {
                    crew.call_all();
                    return;
                }
                Step::Memory => {
                    crew.stop.store(true, Ordering::SeqCst);
                    crew.call_all();
                    return;
                }
            }
        }
        unreachable!()
    }

    /// Works until nothing is left to do, or the record is closed; `false` is want of memory. What it
    /// has in hand is left with it. It may wait.
    pub fn work_on<R: Wait, T: Station, G: Gate>(
        &mut self,
        rt: &R,
        crew: &Crew<T>,
        gate: &G,
    ) -> bool
        requires { IsIdle T.system T.plan T.history crew.now self.old }
        ensures worker { IsWorker T.system T.plan T.history crew.now self.new }
        ensures done { result ≡ true → IsDone T.system T.plan T.history crew.now self.new }
        ensures number { self.new.seat.number ≡ self.old.seat.number }
    {
        for _ in rt.forever() {
            match self.step(rt, crew, gate, crew.heard()) {
                Step::Again => {}
                Step::Over => return true,
                Step::Memory => return false,
            }
        }
        unreachable!()
    }

    /// Ends the job that is left, where there is one. `Again`: none is left any more. `Memory`: it is
    /// left still. It may wait.
    pub fn end_left<R: Wait, T: Station>(&mut self, rt: &R, crew: &Crew<T>) -> Step
        requires { IsWorker T.system T.plan T.history crew.now self.old }
        ensures stepped { Stepped T.system T.plan T.history crew.now self.new result }
        ensures number { self.new.seat.number ≡ self.old.seat.number }
    {
        match mem::replace(&mut self.left, Left::Nothing) {
            Left::Nothing => Step::Again,
            Left::Job(job) => self.handle(rt, crew, job),
            Left::Ran(ran) => self.end_job(rt, crew, ran),
        }
    }
}
