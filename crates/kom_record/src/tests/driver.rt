ghost use Rattle.std.specs.Prelude.{◌≡◌};
ghost use Rattle.std.specs.Bool.{OnTrue};
ghost use Rattle.kom_record.specs.Answers.{IsFree, IsHandling};

use crate::{Committed, Job, Ran, Station, Taken};
use kom_base::Comp;

/// What handles jobs.
pub trait Reactor {
    fn react(&self, job: Job) -> Ran
        ensures { result.job ≡ job };
}

/// Takes the next item of a component, handles it and commits what came of it; false where any of
/// that was not possible.
pub fn handle_next<T: Station, R: Reactor>(station: &mut T, reactor: &R, w: u32, c: Comp) -> bool
    requires { IsFree (T.history station.old) w }
    ensures { OnTrue result (IsHandling (T.system station.old).declarations (T.history station.old) w c (T.history station.new)) }
{
    match station.take(w, c) {
        Taken::Job(job) => {
            let ran = reactor.react(job);
            match station.commit(ran) {
                Committed::Wakes(_) => true,
                Committed::Memory(_) => false,
            }
        }
        Taken::Nothing => false,
        Taken::Closed => false,
        Taken::Memory => false,
    }
}
