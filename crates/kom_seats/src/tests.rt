ghost use Rattle.std.specs.Prelude.{vec_capacity};
ghost use Rattle.std.specs.Arc.{arc_value};
ghost use Rattle.kom_seats.specs.Duos.{IsDuo};

mod duo;

use duo::Call::{End, Rest, Take};
use duo::{Call, Duo};
use kom_drives::Said;
use kom_record::Wakes;
use std::alloc::{AllocError, Global};
use std::process::Abort;
use std::sync::Wait;
use std::test::Fail;

/// A word, and the numbers of the components that woke.
fn with_wakes(alloc: Global, word: &str, wakes: &Wakes) -> Result<String, AllocError> {
    let mut text = String::from_str(alloc, word)?;
    for i in 0..wakes.len() {
        if let Some(c) = wakes.at(i) {
            text = format!(in alloc; "{text} {}", c.0)?;
        }
    }
    Ok(text)
}

/// What a call answered, in words.
fn words_of(alloc: Global, said: &Said) -> Result<String, AllocError> {
    match said {
        Said::Job => String::from_str(alloc, "job"),
        Said::Nothing => String::from_str(alloc, "nothing"),
        Said::Closed => String::from_str(alloc, "closed"),
        Said::Ended(wakes) => with_wakes(alloc, "ended", wakes),
        Said::Moved(wakes) => with_wakes(alloc, "moved", wakes),
        Said::Ready(c) => format!(in alloc; "ready {}", c.0),
        Said::Waiting => String::from_str(alloc, "waiting"),
        Said::End => String::from_str(alloc, "end"),
        Said::NoCall => String::from_str(alloc, "no call"),
        Said::Memory => Err(AllocError),
    }
}

/// Makes the calls of a run, each of which answers as the row says.
fn make_all<R: Abort + Wait>(
    rt: &R,
    alloc: Global,
    duo: &mut Duo,
    calls: &[(Call, &str)],
) -> Result<(), AllocError>
    requires { IsDuo duo.old.exchange (arc_value duo.old.system) duo.old.plan duo.old.zero duo.old.one duo.old.seats.items (vec_capacity duo.old.seats) }
    ensures { IsDuo duo.new.exchange (arc_value duo.new.system) duo.new.plan duo.new.zero duo.new.one duo.new.seats.items (vec_capacity duo.new.seats) }
{
    for (call, answer) in calls {
        let said = duo.call(rt, alloc, *call);
        let words = words_of(alloc, &said)?;
        assert_eq!(rt; words.as_str(), *answer, "{call:?}");
    }
    Ok(())
}

/// The text of the record that the calls of a run make.
fn made<R: Abort + Wait>(
    rt: &R,
    alloc: Global,
    system: &str,
    scenario: &str,
    calls: &[(Call, &str)],
) -> Result<Vec<u8>, AllocError> {
    let Some(mut duo) = Duo::open(alloc, system, scenario)? else {
        panic!(rt; "a text is refused");
    };
    let all = make_all(rt, alloc, &mut duo, calls);
    let closed = duo.close();
    all?;
    closed.trace(alloc)
}

const SCENARIO: &str =
    "scenario 1; at 1 raise N(1) at p; at 1 raise Swap() at c; at 1 raise N(2) at p;";

const DESTROYS: &str = "system 1;
event N(n);
event Swap();
port P { plus N; }
port C { minus Swap; }
component Sum {
  requires p : P;
  var got = 0;
  on N at p as h { got = got * 10 + it.n; }
}
component Main {
  requires p : P;
  provides c : C;
  slot a : Sum();
  slot b;
  channel k : P from self.p to a.p;
  on Swap at c as go { hold k; unplug k.minus; destroy a; }
}
root Main();
";

const DESTROYED: &str = "trace 1
0 0 took 0 start
1 0 did 0 done active
2 0 took 1 start
3 0 did 1 done active 0
4 0 moved 1
  release 0 0 N 1
  release 1 1 Swap
  release 0 2 N 2
5 0 took 0 event 0 plus 4.0 p outside N 1
6 0 did 0 done active
7 0 took 1 event 2 plus 6.0 p outside N 1
8 1 took 0 event 1 minus 4.1 c outside Swap
9 1 did 0 done active
  hold k
  unplug k.minus
  destroy a
10 0 did 1 void
11 1 took 0 event 0 plus 4.2 p outside N 2
12 1 did 0 done active
end quiet
took 6 did 6 moved 1 queued 1 out 0
";

/// A component is destroyed while worker 0 has a job of it in hand. The entries of worker 1 are at
/// the positions 8, 9, 11 and 12 of the record, and those of worker 0 at all others: at the close
/// each seat knows exactly the positions of its own entries.
#[test]
fn is_destroyed_meanwhile(rt: HostRuntime) -> Result<(), Fail> {
    let calls = [
        (Take(0, 0), "job"),
        (End(0), "ended 1"),
        (Take(0, 1), "job"),
        (End(0), "ended"),
        (Rest(0), "moved 0"),
        (Take(0, 0), "job"),
        (End(0), "ended 0 1"),
        (Take(0, 1), "job"),
        (Take(1, 1), "nothing"),
        (Rest(1), "ready 0"),
        (Take(1, 0), "job"),
        (Rest(1), "waiting"),
        (End(1), "ended 0"),
        (Take(1, 1), "nothing"),
        (End(0), "ended"),
        (Take(1, 0), "job"),
        (End(1), "ended"),
        (Rest(0), "end"),
    ];
    let alloc = rt.alloc();
    let text = made(&rt, alloc, DESTROYS, SCENARIO, &calls)?;
    let shown = String::from_utf8_lossy(alloc, text.as_slice())?;
    assert_eq!(rt; shown.as_str(), DESTROYED);
    Ok(())
}
