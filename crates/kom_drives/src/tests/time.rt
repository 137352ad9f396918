//! When the time moves, and where a run ends.
use super::make;
use super::pair::Call::{End, Rest, Take};
use std::test::Fail;

const TIMERS: &str = "system 1;
component Main {
  requires t : Timer;
  var log = 0;
  on start as go {
    trigger SetTimer(1, 0) at t; trigger SetTimer(2, 5) at t; trigger SetTimer(3, 5) at t;
  }
  on Timeout at t as h {
    log = log * 10 + it.id; if it.id == 2 { trigger CancelTimer(1) at t; }
  }
}
root Main();
";

const TIMED: &str = "trace 1
0 0 took 0 start
1 0 did 0 done active 0
  trigger t SetTimer 1 0
  trigger t SetTimer 2 5
  trigger t SetTimer 3 5
2 1 moved 0
  release 0 0 Timeout 1
3 1 took 0 event 0 plus 2.0 t outside Timeout 1
4 1 did 0 done active 1
5 1 moved 5
  release 0 0 Timeout 2
  release 0 1 Timeout 3
6 1 took 0 event 0 plus 5.0 t outside Timeout 2
7 1 did 0 done active 12
  trigger t CancelTimer 1
8 0 took 0 event 0 plus 5.1 t outside Timeout 3
9 0 did 0 done active 123
end quiet
took 4 did 4 moved 2 queued 0 out 4
";

#[test]
fn moves_only_where_no_job_is_in_hand(rt: HostRuntime) -> Result<(), Fail> {
    let calls = [
        (Rest(1), "ready 0"),
        (Take(0, 0), "job"),
        (Rest(1), "waiting"),
        (End(0), "ended"),
        (Rest(1), "moved 0"),
        (Take(1, 0), "job"),
        (Rest(0), "waiting"),
        (End(1), "ended"),
        (Rest(1), "moved 0"),
        (Rest(0), "ready 0"),
        (Take(1, 0), "job"),
        (End(1), "ended 0"),
        (Take(0, 0), "job"),
        (End(0), "ended"),
        (Rest(0), "end"),
        (Take(0, 0), "nothing"),
    ];
    make(&rt, rt.alloc(), TIMERS, "scenario 1;", &calls, TIMED)
}

const THREE: &str = "system 1;
component Good { var x = 0; on start as go { x = 5; } }
component Main { slot a : Good(); slot b : Good(); slot c : Good(); }
root Main();
";

const CUT_OFF: &str = "trace 1
0 0 took 0 start
1 0 did 0 done active
2 0 took 1 start
3 1 took 2 start
4 0 did 1 done active 5
5 1 did 2 done active 5
end budget
took 3 did 3 moved 0 queued 0 out 0
";

#[test]
fn ends_at_the_last_step_but_for_jobs_in_hand(rt: HostRuntime) -> Result<(), Fail> {
    let calls = [
        (Take(0, 0), "job"),
        (End(0), "ended 1 2 3"),
        (Take(0, 1), "job"),
        (Take(1, 2), "job"),
        (Rest(0), "closed"),
        (End(0), "ended"),
        (Take(0, 3), "closed"),
        (End(1), "ended"),
        (Rest(1), "closed"),
    ];
    make(
        &rt,
        rt.alloc(),
        THREE,
        "scenario 1; steps 3;",
        &calls,
        CUT_OFF,
    )
}

const BEGUN: &str = "trace 1
0 0 took 0 start
";

#[test]
fn has_no_end_while_there_is_more(rt: HostRuntime) -> Result<(), Fail> {
    let calls = [
        (End(0), "no call"),
        (Take(2, 0), "no call"),
        (Take(0, 1), "nothing"),
        (Take(0, 9), "nothing"),
        (Take(0, 0), "job"),
        (Take(0, 0), "no call"),
        (Take(1, 0), "nothing"),
        (End(1), "no call"),
    ];
    make(&rt, rt.alloc(), THREE, "scenario 1;", &calls, BEGUN)
}
