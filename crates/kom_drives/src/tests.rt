mod faults;
mod hands;
mod pair;
mod time;

use crate::Said;
use kom_record::Wakes;
use pair::{Call, Pair};
use std::alloc::{AllocError, Global};
use std::process::Abort;
use std::test::Fail;

/// A word, and the numbers of the components that woke.
fn with_wakes(alloc: Global, word: &str, wakes: &Wakes) -> Result<String, AllocError> {
    let mut text = String::from_str(alloc, word)?;
    for i in 0..wakes.len() {
        if let Some(c) = wakes.at(i) {
            text = format!(in alloc; "{text} {}", c.0)?;
        }
    }
    Ok(text)
}

/// What a call answered, in words.
fn words_of(alloc: Global, said: &Said) -> Result<String, AllocError> {
    match said {
        Said::Job => String::from_str(alloc, "job"),
        Said::Nothing => String::from_str(alloc, "nothing"),
        Said::Closed => String::from_str(alloc, "closed"),
        Said::Ended(wakes) => with_wakes(alloc, "ended", wakes),
        Said::Moved(wakes) => with_wakes(alloc, "moved", wakes),
        Said::Ready(c) => format!(in alloc; "ready {}", c.0),
        Said::Waiting => String::from_str(alloc, "waiting"),
        Said::End => String::from_str(alloc, "end"),
        Said::NoCall => String::from_str(alloc, "no call"),
        Said::Memory => Err(AllocError),
    }
}

/// Makes the calls of a run, each of which answers as the row says, and gives the text of its
/// record.
fn made(
    rt: &impl Abort,
    alloc: Global,
    system: &str,
    scenario: &str,
    calls: &[(Call, &str)],
) -> Result<Vec<u8>, AllocError> {
    let Some(mut pair) = Pair::open(alloc, system, scenario)? else {
        panic!(rt; "a text is refused");
    };
    for (call, answer) in calls {
        let said = pair.call(alloc, *call);
        let words = words_of(alloc, &said)?;
        assert_eq!(rt; words.as_str(), *answer, "{call:?}");
    }
    pair.trace(alloc)
}

/// The same, where the text is this one.
fn make(
    rt: &impl Abort,
    alloc: Global,
    system: &str,
    scenario: &str,
    calls: &[(Call, &str)],
    trace: &str,
) -> Result<(), Fail> {
    let text = made(rt, alloc, system, scenario, calls)?;
    let shown = String::from_utf8_lossy(alloc, text.as_slice())?;
    assert_eq!(rt; shown.as_str(), trace);
    Ok(())
}
