ghost use Rattle.std.specs.Prelude.{◌≡◌, ◌<◌, ℕ, ◌∷◌, [], ◌++◌, Some, OnOk, codes, map, length, slice_get};
ghost use Rattle.std.specs.List.{enumerate_from};
ghost use Rattle.std.specs.Fmt.{decimal};
ghost use Rattle.kom_record.specs.declared.entry.Release.{Release};
ghost use Rattle.kom_record.specs.Trace as trace;
ghost use Rattle.kom_record.specs.Trace.{word, number, numbers, status_word, number_or_none, outcome_text, release_line, indented, joined};

use crate::items::add_event;
use crate::names::Names;
use crate::text::Text;
use kom_base::Comp;
use kom_lang::Body;
use kom_record::{Outcome, Places, Release, Releases};
use std::alloc::AllocError;

/// Adds an entry's position and its worker.
pub fn add_head(text: &mut Text, position: u64, w: u32) -> Result<(), AllocError>
    ensures { OnOk result (text.new ≡ text.old ++ (decimal position ++ number w)) }
{
    text.add_decimal(position)?;
    text.add_number(u64::from(w))
}

/// Adds the number of a component, or `none`.
pub fn add_number_or_none(text: &mut Text, c: Option<Comp>) -> Result<(), AllocError>
    ensures { OnOk result (text.new ≡ text.old ++ number_or_none c) }
{
    match c {
        Some(c) => text.add_number(u64::from(c.0)),
        None => text.add_word(b"none"),
    }
}

fn status_word(active: bool) -> &'static [u8]
    ensures { result.now ≡ status_word active }
{
    if active { b"active" } else { b"passive" }
}

fn add_fault(text: &mut Text, number: u16, to: Option<Comp>) -> Result<(), AllocError>
    ensures { OnOk result (text.new ≡ text.old ++ (word (codes "fault") ++ trace.number number ++ word (codes "to") ++ number_or_none to)) }
{
    text.add_word(b"fault")?;
    text.add_number(u64::from(number))?;
    text.add_word(b"to")?;
    add_number_or_none(text, to)
}

fn add_done(text: &mut Text, body: &Body) -> Result<(), AllocError>
    ensures { OnOk result (text.new ≡ text.old ++ (word (codes "done") ++ word (status_word body.now.active) ++ numbers body.now.vars)) }
{
    text.add_word(b"done")?;
    text.add_word(status_word(body.active))?;
    text.add_numbers(&body.vars)
}

/// Adds what came of a handling; `to` is who is told of its fault.
pub fn add_outcome(
    text: &mut Text,
    names: &Names<'_>,
    outcome: &Outcome,
    to: Option<Comp>,
) -> Result<(), AllocError>
    ensures { OnOk result (text.new ≡ text.old ++ outcome_text names.now.event_names names.now.declarations outcome.now to) }
{
    match outcome {
        Outcome::Void => text.add_word(b"void"),
        Outcome::Fault(number) => add_fault(text, *number, to),
        Outcome::Done { body, .. } => add_done(text, body),
    }
}

fn add_release(
    text: &mut Text,
    names: &Names<'_>,
    place: u64,
    release: &Release,
) -> Result<(), AllocError>
    ensures { OnOk result (text.new ≡ text.old ++ (release_line names.now.event_names names.now.declarations (place, release.now) ++ 10 ∷ [])) }
{
    text.add(b"  ")?;
    text.add(b"release")?;
    text.add_number(u64::from(release.chan.0))?;
    text.add_number(place)?;
    add_event(text, names, &release.event)?;
    text.add(b"\n")
}

/// The line of the event at a place.
fn add_release_at(
    text: &mut Text,
    names: &Names<'_>,
    released: &Releases,
    i: usize,
) -> Result<(), AllocError>
    requires { i < length released.now }
    ensures { OnOk result ((r : Release) → slice_get released.now i ≡ Some r → text.new ≡ text.old ++ (release_line names.now.event_names names.now.declarations (i, r) ++ 10 ∷ [])) }
{
    match released.get(i) {
        Some(release) => add_release(text, names, i as u64, release),
        None => unreachable!(),
    }
}

/// Adds a line for each released event, with its place.
pub fn add_releases(
    text: &mut Text,
    names: &Names<'_>,
    released: &Releases,
) -> Result<(), AllocError>
    ensures { OnOk result (text.new ≡ text.old ++ joined (map (release_line names.now.event_names names.now.declarations) (enumerate_from 0 released.now))) }
{
    for i in 0..released.len() {
        add_release_at(text, names, released, i)?;
    }
    Ok(())
}

fn add_unreached_place(text: &mut Text, place: u32) -> Result<(), AllocError>
    ensures { OnOk result (text.new ≡ text.old ++ (indented (codes "unreached" ++ number place) ++ 10 ∷ [])) }
{
    text.add(b"  ")?;
    text.add(b"unreached")?;
    text.add_number(u64::from(place))?;
    text.add(b"\n")?;
    Ok(())
}

fn add_unreached_at(text: &mut Text, places: &Places, i: usize) -> Result<(), AllocError>
    requires { i < length places.now }
    ensures { OnOk result ((q : ℕ) → slice_get places.now i ≡ Some q → text.new ≡ text.old ++ (indented (codes "unreached" ++ number q) ++ 10 ∷ [])) }
{
    match places.get(i) {
        Some(place) => add_unreached_place(text, *place),
        None => unreachable!(),
    }
}

/// Adds a line for each answer that reaches nothing.
pub fn add_unreached(text: &mut Text, places: &Places) -> Result<(), AllocError>
    ensures { OnOk result (text.new ≡ text.old ++ joined (map (λ q. indented (codes "unreached" ++ number q)) places.now)) }
{
    for i in 0..places.len() {
        add_unreached_at(text, places, i)?;
    }
    Ok(())
}
