ghost use Rattle.std.specs.Prelude.{◌≡◌, ◌≤◌, ◌++◌, length, IfOk, OnOk};
ghost use Rattle.kom_make.specs.Texts.{system_line, system_text, scenario_text};
ghost use Rattle.kom_make.specs.Parts.{line_len, IsLine};

use crate::fill::{Place, fill, is_repeated};
use crate::template::{SCENARIO, SYSTEM};
use std::alloc::{AllocError, Global};

/// How many bytes the first line of a text has, its newline included.
fn line_len(text: &[u8]) -> usize
    ensures value { result ≡ line_len text.now }
    ensures within { result ≤ length text.now }
{
    for (i, b) in text.iter().enumerate() {
        if *b == b'\n' {
            return i + 1;
        }
    }
    text.len()
}

fn split_line(text: &[u8]) -> (&[u8], &[u8])
    requires { 1 ≤ length text.now }
    ensures { IsLine text.now result.0.now result.1.now }
{
    text.split_at(line_len(text))
}

fn push_line(out: &mut Vec<u8>, n: u32, line: &[u8]) -> Result<(), AllocError>
    requires { (1 ≤ n) × (n ≤ 30) }
    ensures { OnOk result (out.new.items ≡ out.old.items ++ system_line n line.now) }
{
    if !is_repeated(line) {
        return fill(out, Place::Line { n, i: 0 }, line);
    }
    for i in 0..n {
        fill(out, Place::Line { n, i }, line)?;
    }
    Ok(())
}

/// The text of a system of `n` relays in a ring, one of which is replaced now and then; `n` is
/// from 1 to 30.
pub fn make_system(alloc: Global, n: u32) -> Result<Vec<u8>, AllocError>
    requires { (1 ≤ n) × (n ≤ 30) }
    ensures { IfOk result (λ text. text.items ≡ system_text SYSTEM.now n) }
{
    let mut out = Vec::new(alloc);
    let mut rest = SYSTEM;
    while !rest.is_empty() {
        let (line, after) = split_line(rest);
        push_line(&mut out, n, line)?;
        rest = after;
    }
    Ok(out)
}

/// The text of the scenario that drives it: 100 n events and 10 n - 1 replacements; `n` is from 1
/// to 30.
pub fn make_scenario(alloc: Global, n: u32) -> Result<Vec<u8>, AllocError>
    requires { (1 ≤ n) × (n ≤ 30) }
    ensures { IfOk result (λ text. text.items ≡ scenario_text SCENARIO.now n) }
{
    let mut out = Vec::new(alloc);
    fill(&mut out, Place::Load { n }, SCENARIO)?;
    Ok(out)
}
