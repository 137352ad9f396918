mod counting;
mod outside;
mod together;

use counting::given_to_workers;
use kom_make::{make_scenario, make_system};
use kom_record::NoGate;
use outside::{Outside, PLAIN, call, call_with_workers};
use std::test::Fail;
use together::Together;

const SYSTEM: &str = "system 1;\ncomponent Main { }\nroot Main();\n";

const SINGLE: &str =
    "system 1;\nevent N(n);\nport P { plus N; minus N; }\ncomponent Main {\n  provides p : P;\n  var got = 0;\n  on N at p as h { got = it.n; trigger N(got) at p; }\n}\nroot Main();\n";

const SUBTYPES: &str =
    "system 1;\nevent A(n);\nevent B : A (m);\nport P { minus A; }\ncomponent Main {\n  provides p : P;\n  var x = 0;\n  on A at p as ha off { x = x * 10 + 1; }\n  on B at p as hb { x = x * 10 + 2; }\n  on start as go { subscribe ha; }\n}\nroot Main();";

const FAULTY: &str = "system 1;\ncomponent Main { on start as h { fail 7; } }\nroot Main();\n";

const TWO_LEAVES: &str =
    "system 1;\nevent N(n);\nport P { plus N; }\ncomponent Leaf { requires p : P; var got = 0; on N at p as h { got = got + it.n; } }\ncomponent Main {\n  requires p : P;\n  slot a : Leaf();\n  slot b : Leaf();\n  channel k : P from self.p to a.p plus when N.n == 1;\n  channel l : P from self.p to b.p plus when N.n >= 1;\n}\nroot Main();\n";

const TWO_EVENTS: &str = "scenario 1; at 5 raise N(7) at p; at 5 raise N(-8) at p;";

const TWO_HANDLINGS: &str =
    "trace 1\n0 0 took 0 start\n1 0 did 0 done active 0\n2 0 moved 5\n  release 0 0 N 7\n  release 0 1 N -8\n3 0 took 0 event 0 minus 2.0 p outside N 7\n4 0 did 0 done active 7\n  trigger p N 7\n5 0 took 0 event 0 minus 2.1 p outside N -8\n6 0 did 0 done active -8\n  trigger p N -8\nend quiet\ntook 3 did 3 moved 1 queued 0 out 2\n";

const SCENARIO: &str = "scenario 1;";

const TRACE: &str =
    "trace 1\n0 0 took 0 start\n1 0 did 0 done active\nend quiet\ntook 1 did 1 moved 0 queued 0 out 0\n";

const END: &str = "end quiet\ntook 1 did 1 moved 0 queued 0 out 0\n";

const USAGE: &str =
    "usage: kompics check S | sim S Z | run S Z WORKERS | make N system|scenario | drill N | upgrade S\n";

const SIM: [&str; 3] = ["sim", "s", "z"];

#[test]
fn writes_traces_in_pieces_of_any_length(rt: HostRuntime) -> Result<(), Fail> {
    for (system, scenario, trace) in [
        (SYSTEM, SCENARIO, TRACE),
        (SINGLE, TWO_EVENTS, TWO_HANDLINGS),
    ] {
        for (read, write) in [(1, 1), (1, 4096), (4096, 1), (4096, 4096)] {
            let outside = Outside {
                read,
                write,
                ..PLAIN
            };
            let (status, out) = call(
                rt.alloc(),
                &SIM,
                system.as_bytes(),
                scenario.as_bytes(),
                &outside,
            )?;
            assert_eq!(rt; status, 0, "{read} {write}");
            assert_eq!(rt; out.as_slice(), trace.as_bytes(), "{read} {write}");
        }
    }
    Ok(())
}

#[test]
fn tells_how_a_run_ended(rt: HostRuntime) -> Result<(), Fail> {
    for (system, scenario, status, end) in [
        (
            SINGLE,
            TWO_EVENTS,
            0,
            "end quiet\ntook 3 did 3 moved 1 queued 0 out 2\n",
        ),
        (
            FAULTY,
            SCENARIO,
            3,
            "1 0 did 0 fault 107 to none\nend fault 107 comp 0\ntook 1 did 1 moved 0 queued 0 out 0\n",
        ),
        (
            SINGLE,
            "scenario 1; steps 2; at 5 raise N(7) at p; at 5 raise N(-8) at p;",
            4,
            "  trigger p N 7\nend budget\ntook 2 did 2 moved 1 queued 1 out 1\n",
        ),
        (
            SINGLE,
            "scenario 1; instants 1; at 5 raise N(7) at p; at 6 raise N(-8) at p;",
            4,
            "  release 0 0 N 7\nend budget\ntook 1 did 1 moved 1 queued 1 out 0\n",
        ),
        (SYSTEM, "scenario 1; steps 1;", 0, TRACE),
    ] {
        let (got, out) = call(
            rt.alloc(),
            &SIM,
            system.as_bytes(),
            scenario.as_bytes(),
            &PLAIN,
        )?;
        assert_eq!(rt; got, status, "{scenario}");
        assert!(rt; out.as_slice().ends_with(end.as_bytes()), "{scenario}");
    }
    Ok(())
}

#[test]
fn drills_with_the_generated_texts(rt: HostRuntime) -> Result<(), Fail> {
    let (status, out) = call(rt.alloc(), &["drill", "1"], b"", b"", &PLAIN)?;
    let end = "end quiet\ntook 2247 did 2247 moved 100 queued 0 out 0\n";
    assert_eq!(rt; status, 0);
    assert_eq!(rt; out.as_slice(), end.as_bytes());
    let system = make_system(rt.alloc(), 1)?;
    let scenario = make_scenario(rt.alloc(), 1)?;
    let (status, out) = call(
        rt.alloc(),
        &SIM,
        system.as_slice(),
        scenario.as_slice(),
        &PLAIN,
    )?;
    assert_eq!(rt; status, 0);
    assert!(rt; out.as_slice().ends_with(end.as_bytes()));
    Ok(())
}

#[test]
fn names_the_first_broken_rule(rt: HostRuntime) -> Result<(), Fail> {
    for (words, system, scenario, line) in [
        (
            SIM.as_slice(),
            "",
            SCENARIO,
            "refused system rule 4 at 1:1\n",
        ),
        (
            SIM.as_slice(),
            "system 3;",
            "",
            "refused system rule 4 at 1:8\n",
        ),
        (
            ["check", "s"].as_slice(),
            "system 3;",
            SCENARIO,
            "refused system rule 4 at 1:8\n",
        ),
        (
            ["upgrade", "s"].as_slice(),
            "system 1;\nroot",
            SCENARIO,
            "refused system rule 5 at 2:5\n",
        ),
        (
            SIM.as_slice(),
            SINGLE,
            "scenario 01;",
            "refused scenario rule 4 at 1:10\n",
        ),
        (
            SIM.as_slice(),
            SINGLE,
            "scenario 1; at 5 raise N(7) at q;",
            "refused scenario rule 7 at 1:32\n",
        ),
        (
            SIM.as_slice(),
            SINGLE,
            "scenario 1; at 5 raise N() at p;",
            "refused scenario rule 10 at 1:24\n",
        ),
    ] {
        let (status, out) = call(
            rt.alloc(),
            words,
            system.as_bytes(),
            scenario.as_bytes(),
            &PLAIN,
        )?;
        assert_eq!(rt; status, 1, "{line}");
        assert_eq!(rt; out.as_slice(), line.as_bytes());
    }
    Ok(())
}

#[test]
fn refuses_a_file_that_is_cut_off(rt: HostRuntime) -> Result<(), Fail> {
    let text = SUBTYPES.as_bytes();
    let (status, _) = call(rt.alloc(), &["check", "s"], text, b"", &PLAIN)?;
    assert_eq!(rt; status, 0);
    for end in 0..text.len() {
        let (status, out) = call(rt.alloc(), &["check", "s"], &text[..end], b"", &PLAIN)?;
        let line = out.as_slice();
        let named = line.starts_with(b"refused system rule 4 at ")
            || line.starts_with(b"refused system rule 5 at ")
            || line.starts_with(b"refused system rule 12 at ");
        assert_eq!(rt; status, 1, "{end}");
        assert!(rt; named, "{end}");
    }
    Ok(())
}

#[test]
fn refuses_a_file_over_the_limit(rt: HostRuntime) -> Result<(), Fail> {
    for (system, scenario, status, text) in [
        (1048576, 1048576, 0, TRACE),
        (1048577, 1048577, 1, "refused system rule 1 at 1:1\n"),
        (1048576, 1048577, 1, "refused scenario rule 1 at 1:1\n"),
    ] {
        let mut long = SYSTEM.as_bytes().to_vec(rt.alloc())?;
        long.resize(system, b' ')?;
        let mut load = SCENARIO.as_bytes().to_vec(rt.alloc())?;
        load.resize(scenario, b' ')?;
        let (got, out) = call(rt.alloc(), &SIM, long.as_slice(), load.as_slice(), &PLAIN)?;
        assert_eq!(rt; got, status, "{system}");
        assert_eq!(rt; out.as_slice(), text.as_bytes(), "{system}");
    }
    Ok(())
}

#[test]
fn answers_words_that_are_no_command(rt: HostRuntime) -> Result<(), Fail> {
    for words in [
        ["run", "s", "z"].as_slice(),
        ["run", "s", "z", "2"].as_slice(),
        ["sim", "s", "z", "2", "3"].as_slice(),
        ["sim", "s"].as_slice(),
        ["checks", "s"].as_slice(),
        ["drill", "0"].as_slice(),
        ["drill", "31"].as_slice(),
        ["drill", "1", "system"].as_slice(),
        ["make", "01", "system"].as_slice(),
        ["make", "31", "scenario"].as_slice(),
        ["make", "", "system"].as_slice(),
        ["make", "1", "trace"].as_slice(),
        ["Make", "1", "system"].as_slice(),
    ] {
        let (status, out) = call(
            rt.alloc(),
            words,
            SYSTEM.as_bytes(),
            SCENARIO.as_bytes(),
            &PLAIN,
        )?;
        assert_eq!(rt; status, 2);
        assert_eq!(rt; out.as_slice(), USAGE.as_bytes());
    }
    Ok(())
}

#[test]
fn takes_a_number_of_workers_from_1_to_64(rt: HostRuntime) -> Result<(), Fail> {
    for (words, status) in [
        (["run", "s", "z", "1"].as_slice(), 0),
        (["run", "s", "z", "64"].as_slice(), 0),
        (["sim", "s", "z"].as_slice(), 0),
        (["run", "s", "z", "0"].as_slice(), 2),
        (["run", "s", "z", "65"].as_slice(), 2),
        (["run", "s", "z", "02"].as_slice(), 2),
        (["run", "s", "z"].as_slice(), 2),
        (["run", "s", "z", "2", "3"].as_slice(), 2),
        (["runs", "s", "z", "2"].as_slice(), 2),
        (["run", "x", "z", "2"].as_slice(), 5),
        (["run", "z", "s", "2"].as_slice(), 1),
    ] {
        let (got, out) = call_with_workers(
            &rt,
            rt.alloc(),
            words,
            SYSTEM.as_bytes(),
            SCENARIO.as_bytes(),
            &NoGate,
        )?;
        assert_eq!(rt; got, status);
        match status {
            0 => assert!(rt; out.as_slice().ends_with(END.as_bytes())),
            1 => assert_eq!(rt;
                out.as_slice(),
                b"refused system rule 4 at 1:1\n".as_slice()
            ),
            2 => assert_eq!(rt; out.as_slice(), USAGE.as_bytes()),
            _ => assert_eq!(rt; out.len(), 0),
        }
    }
    Ok(())
}

#[test]
fn two_workers_handle_at_once(rt: HostRuntime) -> Result<(), Fail> {
    let gate = Together::new();
    let (status, out) = call_with_workers(
        &rt,
        rt.alloc(),
        &["run", "s", "z", "2"],
        TWO_LEAVES.as_bytes(),
        SCENARIO.as_bytes(),
        &gate,
    )?;
    assert_eq!(rt; status, 0);
    assert!(rt; !gate.gave_up());
    assert!(rt;
        out.as_slice()
            .ends_with(b"took 3 did 3 moved 0 queued 0 out 0\n")
    );
    Ok(())
}

#[test]
fn workers_take_from_their_lots(rt: HostRuntime) -> Result<(), Fail> {
    let gate = Together::new();
    let given = given_to_workers(
        &rt,
        rt.alloc(),
        TWO_LEAVES.as_bytes(),
        SCENARIO.as_bytes(),
        &gate,
    )?;
    assert!(rt; given.unwrap_or(0) >= 1);
    assert!(rt; !gate.gave_up());
    Ok(())
}

#[test]
fn workers_do_all_that_a_simulation_does(rt: HostRuntime) -> Result<(), Fail> {
    let system = make_system(rt.alloc(), 1)?;
    let scenario = make_scenario(rt.alloc(), 1)?;
    let (status, out) = call_with_workers(
        &rt,
        rt.alloc(),
        &["run", "s", "z", "8"],
        system.as_slice(),
        scenario.as_slice(),
        &NoGate,
    )?;
    assert_eq!(rt; status, 0);
    assert!(rt;
        out.as_slice().ends_with(b"end quiet\ntook 2247 did 2247 moved 100 queued 0 out 0\n")
    );
    Ok(())
}

#[test]
fn tells_each_fault_of_the_shelf(rt: HostRuntime) -> Result<(), Fail> {
    for words in [
        ["sim", "s", "x"].as_slice(),
        ["sim", "x", "z"].as_slice(),
        ["check", "x"].as_slice(),
    ] {
        let (status, out) = call(
            rt.alloc(),
            words,
            SYSTEM.as_bytes(),
            SCENARIO.as_bytes(),
            &PLAIN,
        )?;
        assert_eq!(rt; status, 5);
        assert_eq!(rt; out.len(), 0);
    }
    for read_fails in 0..6 {
        let outside = Outside {
            read_fails,
            ..PLAIN
        };
        let (status, out) = call(
            rt.alloc(),
            &SIM,
            SINGLE.as_bytes(),
            TWO_EVENTS.as_bytes(),
            &outside,
        )?;
        assert_eq!(rt; status, 5, "{read_fails}");
        assert_eq!(rt; out.len(), 0, "{read_fails}");
    }
    Ok(())
}

#[test]
fn leaves_a_prefix_where_the_sink_fails(rt: HostRuntime) -> Result<(), Fail> {
    for write_fails in 0..40 {
        let outside = Outside {
            write: 7,
            write_fails,
            ..PLAIN
        };
        let (status, out) = call(
            rt.alloc(),
            &SIM,
            SINGLE.as_bytes(),
            TWO_EVENTS.as_bytes(),
            &outside,
        )?;
        assert_eq!(rt; status, 6, "{write_fails}");
        assert!(rt; out.len() <= 7 * write_fails as usize, "{write_fails}");
        assert!(rt;
            TWO_HANDLINGS.as_bytes().starts_with(out.as_slice()),
            "{write_fails}"
        );
    }
    Ok(())
}

#[test]
fn writes_the_generated_texts(rt: HostRuntime) -> Result<(), Fail> {
    for n in [1, 30] {
        let word = format!(in rt.alloc(); "{n}")?;
        let text = make_system(rt.alloc(), n)?;
        let words = ["make", word.as_str(), "system"];
        let (status, out) = call(rt.alloc(), &words, b"", b"", &PLAIN)?;
        assert_eq!(rt; status, 0);
        assert_eq!(rt; out.as_slice(), text.as_slice());
        let text = make_scenario(rt.alloc(), n)?;
        let words = ["make", word.as_str(), "scenario"];
        let (status, out) = call(rt.alloc(), &words, b"", b"", &PLAIN)?;
        assert_eq!(rt; status, 0);
        assert_eq!(rt; out.as_slice(), text.as_slice());
    }
    Ok(())
}

#[test]
fn writes_the_canonical_text(rt: HostRuntime) -> Result<(), Fail> {
    let canonical = "system 1 ;\ncomponent Main {\n}\nroot Main ( ) ;\n";
    let upgraded = "system 2 ;\ncomponent Main {\n}\nroot Main ( ) ;\n";
    for (words, system, text) in [
        (["check", "s"], SYSTEM, canonical),
        (["check", "s"], canonical, canonical),
        (["upgrade", "s"], SYSTEM, upgraded),
        (["upgrade", "s"], upgraded, upgraded),
    ] {
        let (status, out) = call(rt.alloc(), &words, system.as_bytes(), b"", &PLAIN)?;
        assert_eq!(rt; status, 0, "{system}");
        assert_eq!(rt; out.as_slice(), text.as_bytes(), "{system}");
    }
    Ok(())
}
