ghost use Rattle.std.specs.Prelude.{◌≡◌, ◌≤◌, ◌+◌, length};
ghost use Rattle.kom_lang.specs.Declarations.{Declarations};
ghost use Rattle.kom_record.specs.declared.plan.Plan as plans;
ghost use Rattle.kom_times.specs.Following.{Follows};
ghost use Rattle.kom_going.specs.Going.{AreToGo, WillGo};

use kom_entering::Going;
use kom_env::Env;
use kom_record::Record;
use kom_times::{follows_a_did, go_out_in_order, releases_are_few};
use kom_typed::outgoing_are_typed;

/// Gives the environment each event that goes out by the newest entry of a record, in order of
/// number: it stood for the record before that entry, and then stands for the record. It takes no
/// memory, and costs for each event the effects of the entry and the logarithm of what is pending.
pub fn absorb_all(env: &mut Env, kept: &Record, goings: &[Going])
    requires room { length goings.now ≤ env.old.spare }
    requires will { WillGo kept.now.history goings.now env.old }
    ensures follows { (S : Declarations) (Z : plans.Plan) → AreToGo S Z kept.now.history goings.now env.old → Follows S Z kept.now.history env.new }
    ensures plan { env.new.plan ≡ env.old.plan }
    ensures spare { env.old.spare ≤ env.new.spare + length goings.now }
{
    follows_a_did();
    go_out_in_order();
    releases_are_few();
    outgoing_are_typed();
    for going in goings {
        match kept.offer(going.no) {
            Some(event) => env.absorb(going.chan, going.no, event),
            None => unreachable!(),
        }
    }
}
