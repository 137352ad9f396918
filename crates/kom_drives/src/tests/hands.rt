//! What happens to a component while a job of it is in hand.
use super::make;
use super::pair::Call::{End, Rest, Take};
use std::test::Fail;

const SCENARIO: &str =
    "scenario 1; at 1 raise N(1) at p; at 1 raise Swap() at c; at 1 raise N(2) at p;";

const DESTROYS: &str = "system 1;
event N(n);
event Swap();
port P { plus N; }
port C { minus Swap; }
component Sum {
  requires p : P;
  var got = 0;
  on N at p as h { got = got * 10 + it.n; }
}
component Main {
  requires p : P;
  provides c : C;
  slot a : Sum();
  slot b;
  channel k : P from self.p to a.p;
  on Swap at c as go { hold k; unplug k.minus; destroy a; }
}
root Main();
";

const DESTROYED: &str = "trace 1
0 0 took 0 start
1 0 did 0 done active
2 0 took 1 start
3 0 did 1 done active 0
4 0 moved 1
  release 0 0 N 1
  release 1 1 Swap
  release 0 2 N 2
5 0 took 0 event 0 plus 4.0 p outside N 1
6 0 did 0 done active
7 0 took 1 event 2 plus 6.0 p outside N 1
8 1 took 0 event 1 minus 4.1 c outside Swap
9 1 did 0 done active
  hold k
  unplug k.minus
  destroy a
10 0 did 1 void
11 1 took 0 event 0 plus 4.2 p outside N 2
12 1 did 0 done active
end quiet
took 6 did 6 moved 1 queued 1 out 0
";

#[test]
fn is_destroyed_meanwhile(rt: HostRuntime) -> Result<(), Fail> {
    let calls = [
        (Take(0, 0), "job"),
        (End(0), "ended 1"),
        (Take(0, 1), "job"),
        (End(0), "ended"),
        (Rest(0), "moved 0"),
        (Take(0, 0), "job"),
        (End(0), "ended 0 1"),
        (Take(0, 1), "job"),
        (Take(1, 1), "nothing"),
        (Rest(1), "ready 0"),
        (Take(1, 0), "job"),
        (Rest(1), "waiting"),
        (End(1), "ended 0"),
        (Take(1, 1), "nothing"),
        (End(0), "ended"),
        (Take(1, 0), "job"),
        (End(1), "ended"),
        (Rest(0), "end"),
    ];
    make(&rt, rt.alloc(), DESTROYS, SCENARIO, &calls, DESTROYED)
}

const REPLACES: &str = "system 1;
event N(n);
event Swap();
port P { plus N; }
port C { minus Swap; }
component Sum {
  requires p : P;
  var got = 0;
  on N at p as h { got = got * 10 + it.n; }
}
component Main {
  requires p : P;
  provides c : C;
  slot a : Sum();
  slot b;
  channel k : P from self.p to a.p;
  on Swap at c as go { hold k; stop a; dump a; }
  on dumped(s) as over {
    unplug k.minus; create b : Sum from state; plug k.minus at b.p;
    resume k; start b; destroy a;
  }
}
root Main();
";

const REPLACED: &str = "trace 1
0 0 took 0 start
1 0 did 0 done active
2 0 took 1 start
3 0 did 1 done active 0
4 0 moved 1
  release 0 0 N 1
  release 1 1 Swap
  release 0 2 N 2
5 0 took 0 event 0 plus 4.0 p outside N 1
6 0 did 0 done active
7 0 took 1 event 2 plus 6.0 p outside N 1
8 1 took 0 event 1 minus 4.1 c outside Swap
9 1 did 0 done active
  hold k
  stop a
  dump a
10 1 took 0 event 0 plus 4.2 p outside N 2
11 1 did 0 done active
12 0 did 1 done active 1
13 0 took 1 stop
14 0 did 1 done passive 1
15 0 took 1 dump
16 0 did 1 done passive 1
17 0 took 0 dumped 0 1
18 0 did 0 done active
  unplug k.minus
  create b Sum 2 state 1
  plug k.minus b.p
  resume k
  start b
  destroy a
19 0 took 2 start
20 0 did 2 done active 1
21 0 took 2 event 2 plus 11.0 p outside N 2
22 0 did 2 done active 12
end quiet
took 11 did 11 moved 1 queued 0 out 0
";

#[test]
fn is_replaced_afterwards(rt: HostRuntime) -> Result<(), Fail> {
    let calls = [
        (Take(0, 0), "job"),
        (End(0), "ended 1"),
        (Take(0, 1), "job"),
        (End(0), "ended"),
        (Rest(0), "moved 0"),
        (Take(0, 0), "job"),
        (End(0), "ended 0 1"),
        (Take(0, 1), "job"),
        (Take(1, 0), "job"),
        (End(1), "ended 0"),
        (Take(1, 0), "job"),
        (End(1), "ended"),
        (Take(1, 1), "nothing"),
        (Rest(1), "waiting"),
        (End(0), "ended 1"),
        (Take(0, 1), "job"),
        (End(0), "ended 1"),
        (Take(0, 1), "job"),
        (End(0), "ended 0"),
        (Take(0, 0), "job"),
        (End(0), "ended 2"),
        (Take(0, 2), "job"),
        (End(0), "ended 2"),
        (Take(0, 2), "job"),
        (End(0), "ended"),
        (Rest(0), "end"),
    ];
    make(&rt, rt.alloc(), REPLACES, SCENARIO, &calls, REPLACED)
}

const ASKS: &str = "system 1;
event Ask(n);
event Say(n);
port Q { plus Say; minus Ask; }
component Server { provides q : Q; on Ask at q as h { answer Say(it.n + 1); } }
component Client {
  requires q : Q;
  var got = 0;
  on init(n) as born { got = n; }
  on start as go { trigger Ask(got) at q; }
  on Say at q as h { got = it.n; }
}
component Main {
  slot s : Server();
  slot a : Client(10);
  channel k : Q from s.q to a.q;
  on start as go { dump a; }
  on dumped(z) as cut { hold k; unplug k.plus; }
}
root Main();
";

const UNREACHED: &str = "trace 1
0 0 took 0 start
1 0 did 0 done active
  dump a
2 0 took 2 init 10
3 0 did 2 done passive 10
4 0 took 1 start
5 0 did 1 done active
6 0 took 2 start
7 0 did 2 done active 10
  trigger q Ask 10
8 0 took 1 event 0 minus 7.0 q outside Ask 10
9 1 took 2 dump
10 1 did 2 done active 10
11 1 took 0 dumped 1 10
12 1 did 0 done active
  hold k
  unplug k.plus
13 0 did 1 done active
  answer Say 11
  unreached 1
end quiet
took 7 did 7 moved 0 queued 0 out 0
";

#[test]
fn is_cut_off_before_it_answers(rt: HostRuntime) -> Result<(), Fail> {
    let calls = [
        (Take(0, 0), "job"),
        (End(0), "ended 1"),
        (Take(0, 2), "job"),
        (End(0), "ended 2"),
        (Take(0, 1), "job"),
        (End(0), "ended"),
        (Take(0, 2), "job"),
        (End(0), "ended 1 2"),
        (Take(0, 1), "job"),
        (Take(1, 2), "job"),
        (End(1), "ended 0"),
        (Take(1, 0), "job"),
        (End(1), "ended"),
        (Rest(1), "waiting"),
        (End(0), "ended"),
        (Rest(1), "end"),
    ];
    make(&rt, rt.alloc(), ASKS, "scenario 1;", &calls, UNREACHED)
}

const HOLDS: &str = "system 1;
event N(n);
port P { plus N; }
component Sum {
  requires p : P;
  var got = 0;
  on N at p as h { got = got * 10 + it.n; }
}
component Main {
  requires p : P;
  slot a : Sum();
  channel k : P from self.p to a.p;
  on N at p as h { if it.n == 1 { hold k; } if it.n == 4 { resume k; } }
}
root Main();
";

const HELD: &str = "trace 1
0 0 took 0 start
1 0 did 0 done active
2 0 took 1 start
3 0 did 1 done active 0
4 0 moved 1
  release 0 0 N 2
  release 0 1 N 1
  release 0 2 N 4
5 0 took 0 event 0 plus 4.0 p outside N 2
6 0 did 0 done active
7 1 took 1 event 1 plus 6.0 p outside N 2
8 0 took 0 event 0 plus 4.1 p outside N 1
9 0 did 0 done active
  hold k
10 1 did 1 done active 2
11 0 took 0 event 0 plus 4.2 p outside N 4
12 0 did 0 done active
  resume k
13 1 took 1 event 1 plus 9.0 p outside N 1
14 1 did 1 done active 21
15 0 took 1 event 1 plus 12.0 p outside N 4
16 0 did 1 done active 214
end quiet
took 8 did 8 moved 1 queued 0 out 0
";

#[test]
fn waits_for_its_channel_afterwards(rt: HostRuntime) -> Result<(), Fail> {
    let calls = [
        (Take(0, 0), "job"),
        (End(0), "ended 1"),
        (Take(0, 1), "job"),
        (End(0), "ended"),
        (Rest(0), "moved 0"),
        (Take(0, 0), "job"),
        (End(0), "ended 0 1"),
        (Take(1, 1), "job"),
        (Take(0, 0), "job"),
        (End(0), "ended 0"),
        (End(1), "ended"),
        (Take(1, 1), "nothing"),
        (Rest(1), "ready 0"),
        (Take(0, 0), "job"),
        (Rest(1), "waiting"),
        (End(0), "ended 1"),
        (Take(1, 1), "job"),
        (End(1), "ended 1"),
        (Take(0, 1), "job"),
        (End(0), "ended"),
        (Rest(0), "end"),
    ];
    let scenario = "scenario 1; at 1 raise N(2) at p; at 1 raise N(1) at p; at 1 raise N(4) at p;";
    make(&rt, rt.alloc(), HOLDS, scenario, &calls, HELD)
}
