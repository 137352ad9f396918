//! A call: take the turn and the station, let it answer, tell of its entry, and give both back.
ghost use Rattle.std.specs.Prelude.{◌≡◌, ◌≤◌, ◌<◌, length, [], ◌∷◌, false, None};
ghost use Rattle.kom_record.specs.Legal.{IsLegal};
ghost use Rattle.kom_record.specs.Answers.{AnswersTake, AnswersCommit, AnswersRest, IsFree, IsInHand, job_of};
ghost use Rattle.kom_exchange.specs.Later.{about_of};
ghost use Rattle.kom_exchange.specs.Calls.{IsIdleAt, HasTurn, Enters, Called, IsSame, Grows, count_taken, count_committed, count_rest};
ghost use Rattle.kom_exchange.specs.Rule.{left, told};
ghost use Rattle.kom_exchange.specs.Seats.{view, given_to, IsSeatOf, IsSameSeat, HasJob, HasEnded};

use crate::exchange::{Exchange, Place, Seat, sit};
use crate::plays::{Count, Draw, Look, Pass};
use kom_base::Comp;
use kom_record::{Committed, Ran, Rest, Station, Taken};
use std::alloc::Allocator;
use std::hint;
use std::sync::Wait;

const COUNT: usize = 0;

const TICKET: usize = 1;

const SERVING: usize = 2;

const LOW_HALF: u64 = 0xffff_ffff;

/// How often a thread looks again for its turn before it sleeps.
const LOOKS: u32 = 5000;

fn count_of_taken(answer: &Taken) -> u64
    ensures { result ≡ count_taken answer.now }
{
    match answer {
        Taken::Job(_) => 1,
        _ => 0,
    }
}

fn count_of_committed(answer: &Committed) -> u64
    ensures { result ≡ count_committed answer.now }
{
    match answer {
        Committed::Wakes(_) => 1,
        Committed::Memory(_) => 0,
    }
}

fn count_of_rest(answer: &Rest) -> u64
    ensures { result ≡ count_rest answer.now }
{
    match answer {
        Rest::Moved(_) => 1,
        _ => 0,
    }
}

impl<T: Station, A: Allocator> Exchange<T, A> {
    /// Waits for the turn and takes the station. It may wait for ever; a thread that waits looks a few
    /// times more, since a turn is short, and then sleeps.
    fn enter<R: Wait>(&self, rt: &R, place: &mut Place<T>) -> T
        requires { (place.old.table_id ≡ self.now.table.shared.table_id) × IsIdleAt place.old }
        ensures place { IsSame place.old place.new × (place.new.me.1 ≡ (0, None) ∷ []) }
        ensures took { Enters T.history (about_of T.system T.plan) place.old.me.0 result place.new.me.0 }
    {
        let shared = &self.table.shared;
        let ticket = shared.fetch_add::<Draw>(place, TICKET, 1);
        let mut patience = LOOKS;
        for _ in rt.forever() {
            let serving = shared.load::<Look>(place, SERVING);
            if serving == ticket {
                return match shared.exchange(place, 0, None) {
                    Some(station) => station,
                    None => unreachable!(),
                };
            }
            if patience > 0 {
                patience -= 1;
                hint::spin_loop();
            } else {
                shared.park(rt, SERVING, (serving & LOW_HALF) as u32);
            }
        }
        unreachable!()
    }

    /// Gives the station back with what its record grew by, passes the turn, and wakes those that wait.
    fn leave(&self, place: &mut Place<T>, station: T, added: u64)
        requires place { (place.old.table_id ≡ self.now.table.shared.table_id) × HasTurn place.old × (place.old.me.1 ≡ (0, None) ∷ []) }
        requires station { (about_of T.system T.plan station ≡ place.old.me.0.own.about) × Grows place.old.me.0.own.about place.old.me.0.own.number added place.old.me.0.own.seen (T.history station) }
        ensures { IsSame place.old place.new × (place.new.me ≡ (left (told place.old.me.0 (T.history station)), [])) }
    {
        let shared = &self.table.shared;
        match shared.exchange(place, 0, Some(station)) {
            None => {}
            Some(_) => unreachable!(),
        }
        shared.fetch_add::<Count>(place, COUNT, added);
        shared.fetch_add::<Pass>(place, SERVING, 1);
        shared.wake_all(SERVING);
    }

    /// Takes the next item of a component for a seat that has no job in hand.
    ///
    /// The answer is the station's for the record at the seat's turn: the next item as a job, which is
    /// then in the seat's hand; nothing; that the record is closed; or want of memory, with nothing
    /// taken. With these the hand stays empty. Want of memory aside, `Closed` comes exactly where that
    /// record is closed, and `Nothing` exactly where it is not and the component is not ready. The call
    /// may wait for the seats that asked before.
    pub fn take<R: Wait>(&self, rt: &R, seat: &mut Seat, c: Comp) -> Taken
        requires seat { IsSeatOf (about_of T.system T.plan) self.now seat.old }
        requires free { IsFree (view seat.old).own.seen seat.old.number }
        ensures seat { IsSameSeat seat.old seat.new }
        ensures called { Called (count_taken result) (λ R Q. AnswersTake (T.system (given_to self.now)) (T.plan (given_to self.now)) R seat.old.number c result Q) (view seat.old) (view seat.new) }
        ensures legal { ∥ IsLegal (T.system (given_to self.now)).declarations (T.plan (given_to self.now)) (view seat.new).own.seen ∥₁ }
        ensures job { HasJob (T.system (given_to self.now)) result seat.new }
    {
        let mut place = sit(&mut seat.badge);
        let mut station = self.enter(rt, &mut place);
        let answer = station.take(seat.number, c);
        self.leave(&mut place, station, count_of_taken(&answer));
        seat.badge = place.into_badge();
        answer
    }

    /// Ends the job that the seat has in hand.
    ///
    /// The answer is the station's for the record at the seat's turn: who became ready by the entry, and
    /// the seat's hand is then empty; or want of memory, which gives the job back, still in the seat's
    /// hand, and adds nothing. The Did is Void where the component was destroyed meanwhile. The call may
    /// wait as `take` does.
    pub fn commit<R: Wait>(&self, rt: &R, seat: &mut Seat, ran: Ran) -> Committed
        requires seat { IsSeatOf (about_of T.system T.plan) self.now seat.old }
        requires job { (ran.job.w ≡ seat.old.number) × IsInHand (T.system (given_to self.now)) (view seat.old).own.seen ran.job }
        ensures seat { IsSameSeat seat.old seat.new }
        ensures called { Called (count_committed result) (λ R Q. AnswersCommit (T.system (given_to self.now)) (T.plan (given_to self.now)) R ran result Q) (view seat.old) (view seat.new) }
        ensures legal { ∥ IsLegal (T.system (given_to self.now)).declarations (T.plan (given_to self.now)) (view seat.new).own.seen ∥₁ }
        ensures hand { HasEnded (T.system (given_to self.now)) result seat.new }
    {
        let mut place = sit(&mut seat.badge);
        let mut station = self.enter(rt, &mut place);
        let answer = station.commit(ran);
        self.leave(&mut place, station, count_of_committed(&answer));
        seat.badge = place.into_badge();
        answer
    }

    /// Says what there is to do for a seat that found nothing, and moves the time where there is nothing
    /// else. The answer is the station's for the record at the seat's turn: `Moved` where the time moved,
    /// which adds an entry; `Ready` with the least component that is ready; `Waiting` where none is and a
    /// job is in hand; `End` where nothing is ready, in hand or pending; `Closed`, want of memory aside,
    /// exactly where the record is closed; `Memory` is want of memory, and the time did not move. All but
    /// `Moved` add nothing. What the seat has in hand stays. The call may wait as `take` does.
    pub fn rest<R: Wait>(&self, rt: &R, seat: &mut Seat) -> Rest
        requires seat { IsSeatOf (about_of T.system T.plan) self.now seat.old }
        ensures seat { IsSameSeat seat.old seat.new }
        ensures called { Called (count_rest result) (λ R Q. AnswersRest (T.system (given_to self.now)).declarations (T.plan (given_to self.now)) R seat.old.number result Q) (view seat.old) (view seat.new) }
        ensures legal { ∥ IsLegal (T.system (given_to self.now)).declarations (T.plan (given_to self.now)) (view seat.new).own.seen ∥₁ }
        ensures hand { job_of (view seat.new).own.seen seat.old.number ≡ job_of (view seat.old).own.seen seat.old.number }
    {
        let mut place = sit(&mut seat.badge);
        let mut station = self.enter(rt, &mut place);
        let answer = station.rest(seat.number);
        self.leave(&mut place, station, count_of_rest(&answer));
        seat.badge = place.into_badge();
        answer
    }
}
