use super::*;
use kom_io::MemoryShelf;
use std::alloc::{AllocError, Global};
use std::test::Fail;

const RELAY: &str =
    "system 1;\nevent N(n);\nport P { plus N; }\ncomponent Main { requires p : P; }\nroot Main();\n";

/// A shelf with the files `s` and `z`.
fn shelf_of(alloc: Global, system: &[u8], scenario: &[u8]) -> Result<MemoryShelf, AllocError> {
    let mut files = Vec::new(alloc);
    files.push((String::from_str(alloc, "s")?, system.to_vec(alloc)?))?;
    files.push((String::from_str(alloc, "z")?, scenario.to_vec(alloc)?))?;
    MemoryShelf::make(alloc, files, 4096, Vec::new(alloc))
}

/// What was found of a system: the line that refuses it, or nothing.
fn told_of(alloc: Global, found: Loaded) -> Result<String, AllocError> {
    match found {
        Loaded::System(_) => Ok(String::new(alloc)),
        Loaded::Refused { rule, line, column } => refusal_line(alloc, "system", rule, line, column),
        Loaded::ShelfFault => String::from_str(alloc, "fault"),
        Loaded::Memory => String::from_str(alloc, "memory"),
    }
}

/// What was found of a scenario: the line that refuses it, or how many events its plan has.
fn planned_of(alloc: Global, found: Planned) -> Result<String, AllocError> {
    match found {
        Planned::Plan(plan) => {
            let count = plan.raises.as_slice().len();
            format!(in alloc; "{count}")
        }
        Planned::Refused { rule, line, column } => {
            refusal_line(alloc, "scenario", rule, line, column)
        }
        Planned::ShelfFault => String::from_str(alloc, "fault"),
        Planned::Memory => String::from_str(alloc, "memory"),
    }
}

/// What is found of a scenario for the relay, by name or as a text.
fn for_relay(alloc: Global, name: Option<&str>, text: &[u8]) -> Result<String, AllocError> {
    let mut shelf = shelf_of(alloc, RELAY.as_bytes(), text)?;
    match (load_system(alloc, &mut shelf, "s"), name) {
        (Loaded::System(system), Some(name)) => planned_of(
            alloc,
            load_scenario(alloc, &mut shelf, name, &system),
        ),
        (Loaded::System(system), None) => { planned_of(alloc, plan_of(alloc, text, &system)) }
        (found, _) => told_of(alloc, found),
    }
}

#[test]
fn names_the_first_broken_rule(rt: HostRuntime) -> Result<(), Fail> {
    let alloc = rt.alloc();
    for (name, text, line) in [
        ("s", "system 1;\ncomponent Main { }\nroot Main();\n", ""),
        ("s", "system 3;", "refused system rule 4 at 1:8\n"),
        (
            "s",
            "system 1;\ncomponent Main { }\nroot Other();\n",
            "refused system rule 7 at 3:6\n",
        ),
        (
            "x",
            "system 1;\ncomponent Main { }\nroot Main();\n",
            "fault",
        ),
    ] {
        let mut shelf = shelf_of(alloc, text.as_bytes(), b"")?;
        let found = load_system(alloc, &mut shelf, name);
        assert_eq!(rt; told_of(alloc, found)?.as_str(), line);
    }
    Ok(())
}

#[test]
fn plans_a_scenario_or_names_the_first_broken_rule(rt: HostRuntime) -> Result<(), Fail> {
    let two = "scenario 1; at 5 raise N(7) at p; at 2 raise N(8) at p;";
    let no_port = "scenario 1;\nat 5 raise N(7) at q;";
    for (name, text, found) in [
        (Some("z"), "scenario 1;", "0"),
        (Some("z"), two, "2"),
        (None, two, "2"),
        (
            Some("z"),
            "scenario 2;",
            "refused scenario rule 4 at 1:10\n",
        ),
        (Some("z"), no_port, "refused scenario rule 7 at 2:20\n"),
        (None, no_port, "refused scenario rule 7 at 2:20\n"),
        (
            Some("z"),
            "scenario 1;\nat 5 raise N() at p;",
            "refused scenario rule 10 at 2:12\n",
        ),
        (Some("y"), "scenario 1;", "fault"),
    ] {
        assert_eq!(rt;
            for_relay(rt.alloc(), name, text.as_bytes())?.as_str(),
            found
        );
    }
    Ok(())
}

#[test]
fn refuses_a_text_over_the_limit(rt: HostRuntime) -> Result<(), Fail> {
    let alloc = rt.alloc();
    for (len, system, scenario) in [
        (1048576, "", "0"),
        (
            1048577,
            "refused system rule 1 at 1:1\n",
            "refused scenario rule 1 at 1:1\n",
        ),
    ] {
        let mut text = RELAY.as_bytes().to_vec(alloc)?;
        text.resize(len, b' ')?;
        let found = system_of(alloc, text.as_slice());
        assert_eq!(rt; told_of(alloc, found)?.as_str(), system);
        let mut text = b"scenario 1;".to_vec(alloc)?;
        text.resize(len, b' ')?;
        for name in [Some("z"), None] {
            let found = for_relay(alloc, name, text.as_slice())?;
            assert_eq!(rt; found.as_str(), scenario);
        }
    }
    Ok(())
}
