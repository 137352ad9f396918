//! The program: it reads systems and scenarios, runs them and writes their traces.
#![tactic(auto)]

mod answer;
mod command;
mod running;
#[cfg(test)]
mod tests;
mod top;

use kom_io::{FileShelf, OutSink, Words};
use kom_record::NoGate;
use std::alloc::AllocError;
use std::env;
use std::io::ErrorKind;
use std::process::ExitCode;
use std::rt::Env;
use top::kompics_top;

fn main(rt: HostRuntime) -> ExitCode {
    let Ok(words) = words_of(&rt) else {
        return ExitCode::from(7);
    };
    let Ok(mut shelf) = FileShelf::make(&rt, rt.alloc(), &words) else {
        return ExitCode::from(7);
    };
    let mut out = OutSink::new(&rt);
    let end = kompics_top(&rt, rt.alloc(), &words, &mut shelf, &mut out, &NoGate);
    ExitCode::from(end.status)
}

/// The words after the program's name; none where one of them is no text.
fn words_of<R: Env + AllocGlobal>(rt: &R) -> Result<Words, AllocError> {
    let mut words = Words::new(rt.alloc());
    match env::args(rt) {
        Ok(args) => {
            for arg in args.skip(1) {
                words.push(arg.as_str())?;
            }
            Ok(words)
        }
        Err(error) => match error.kind() {
            ErrorKind::OutOfMemory => Err(AllocError),
            _ => Ok(words),
        },
    }
}
