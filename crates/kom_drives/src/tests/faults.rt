//! Faults while another job is in hand.
use super::make;
use super::pair::Call::{End, Rest, Take};
use std::test::Fail;

const FAILS: &str = "system 1;
component Bad { on start as go { fail 7; } }
component Good { var x = 0; on start as go { x = 5; } }
component Main { slot a : Bad(); slot b : Good(); }
root Main();
";

const FAILED: &str = "trace 1
0 0 took 0 start
1 0 did 0 done active
2 0 took 1 start
3 1 took 2 start
4 0 did 1 fault 107 to none
5 1 did 2 done active 5
end fault 107 comp 1
took 3 did 3 moved 0 queued 0 out 0
";

#[test]
fn closes_the_record_but_for_jobs_in_hand(rt: HostRuntime) -> Result<(), Fail> {
    let calls = [
        (Take(0, 0), "job"),
        (End(0), "ended 1 2"),
        (Take(0, 1), "job"),
        (Take(1, 2), "job"),
        (End(0), "ended"),
        (Take(0, 0), "closed"),
        (Take(0, 2), "closed"),
        (Rest(0), "closed"),
        (End(1), "ended"),
        (Rest(1), "closed"),
    ];
    make(&rt, rt.alloc(), FAILS, "scenario 1;", &calls, FAILED)
}

const ESCALATES: &str = "system 2;
component Low { on start as go { fail 7; } }
component Mid { slot low : Low(); on fault(s, n) as f { escalate; } }
component Main {
  slot mid : Mid();
  slot other : Low();
  var last = 0;
  on fault(s, n) as f { last = last * 10000 + n * 10 + s; }
}
root Main();
";

const ESCALATED: &str = "trace 1
0 0 took 0 start
1 0 did 0 done active 0
2 0 took 1 start
3 0 did 1 done active
4 0 took 3 start
5 1 took 2 start
6 0 did 3 fault 107 to 0
7 0 took 0 fault 1 107
8 1 did 2 fault 107 to 1
9 1 took 1 fault 0 107
10 1 did 1 done active
  escalate to 0
11 0 did 0 done active 1071
12 1 took 0 fault 0 107
13 1 did 0 done active 10711070
end quiet
took 7 did 7 moved 0 queued 0 out 0
";

#[test]
fn waits_for_an_ancestor_that_works(rt: HostRuntime) -> Result<(), Fail> {
    let calls = [
        (Take(0, 0), "job"),
        (End(0), "ended 1 3"),
        (Take(0, 1), "job"),
        (End(0), "ended 2"),
        (Take(0, 3), "job"),
        (Take(1, 2), "job"),
        (End(0), "ended 0"),
        (Take(0, 0), "job"),
        (End(1), "ended 1"),
        (Take(1, 1), "job"),
        (End(1), "ended"),
        (Take(1, 0), "nothing"),
        (Rest(1), "waiting"),
        (End(0), "ended 0"),
        (Take(1, 0), "job"),
        (End(1), "ended"),
        (Rest(1), "end"),
    ];
    make(&rt, rt.alloc(), ESCALATES, "scenario 1;", &calls, ESCALATED)
}

const ESCALATES_TO_NONE: &str = "system 2;
component Low { on start as go { fail 7; } }
component Good { var x = 0; on start as go { x = 5; } }
component Mid { slot low : Low(); on fault(s, n) as f { escalate; } }
component Main { slot mid : Mid(); slot good : Good(); }
root Main();
";

const ESCALATED_TO_NONE: &str = "trace 1
0 0 took 0 start
1 0 did 0 done active
2 0 took 1 start
3 0 did 1 done active
4 0 took 2 start
5 0 did 2 fault 107 to 1
6 0 took 1 fault 0 107
7 1 took 3 start
8 0 did 1 done active
  escalate to none
9 1 did 3 done active 5
end fault 107 comp 1
took 5 did 5 moved 0 queued 0 out 0
";

#[test]
fn closes_the_record_when_nobody_is_told_of_an_escalation(rt: HostRuntime) -> Result<(), Fail> {
    let calls = [
        (Take(0, 0), "job"),
        (End(0), "ended 1 3"),
        (Take(0, 1), "job"),
        (End(0), "ended 2"),
        (Take(0, 2), "job"),
        (End(0), "ended 1"),
        (Take(0, 1), "job"),
        (Take(1, 3), "job"),
        (End(0), "ended"),
        (Take(0, 0), "closed"),
        (End(1), "ended"),
        (Rest(0), "closed"),
    ];
    make(
        &rt,
        rt.alloc(),
        ESCALATES_TO_NONE,
        "scenario 1;",
        &calls,
        ESCALATED_TO_NONE,
    )
}

const FAILS_LATE: &str = "system 1;
event N(n);
event Swap();
port P { plus N; }
port C { minus Swap; }
component Kid { requires p : P; on N at p as h { fail 7; } }
component Main {
  requires p : P;
  provides c : C;
  slot a : Kid();
  channel k : P from self.p to a.p;
  on Swap at c as go { hold k; unplug k.minus; destroy a; }
}
root Main();
";

const FAILED_LATE: &str = "trace 1
0 0 took 0 start
1 0 did 0 done active
2 0 took 1 start
3 0 did 1 done active
4 0 moved 0
  release 0 0 N 1
  release 1 1 Swap
5 0 took 0 event 0 plus 4.0 p outside N 1
6 0 did 0 done active
7 1 took 1 event 2 plus 6.0 p outside N 1
8 0 took 0 event 1 minus 4.1 c outside Swap
9 0 did 0 done active
  hold k
  unplug k.minus
  destroy a
10 1 did 1 void
end quiet
took 5 did 5 moved 1 queued 0 out 0
";

#[test]
fn is_none_where_the_component_was_destroyed(rt: HostRuntime) -> Result<(), Fail> {
    let calls = [
        (Take(0, 0), "job"),
        (End(0), "ended 1"),
        (Take(0, 1), "job"),
        (End(0), "ended"),
        (Rest(0), "moved 0"),
        (Take(0, 0), "job"),
        (End(0), "ended 0 1"),
        (Take(1, 1), "job"),
        (Take(0, 0), "job"),
        (End(0), "ended"),
        (End(1), "ended"),
        (Rest(1), "end"),
    ];
    let scenario = "scenario 1; at 0 raise N(1) at p; at 0 raise Swap() at c;";
    make(&rt, rt.alloc(), FAILS_LATE, scenario, &calls, FAILED_LATE)
}
