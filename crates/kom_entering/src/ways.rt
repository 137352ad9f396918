ghost use Rattle.std.specs.Prelude.{◌≡◌, IsSome, is_some, slice_get};
ghost use Rattle.std.specs.Option.{option_copied};
ghost use Rattle.kom_base.specs.declared.numbers.Dir.TheVariants.{Plus, Minus};
ghost use Rattle.kom_base.specs.Numbers as dirs;
ghost use Rattle.kom_lang.specs.Declarations.{kind_of};
ghost use Rattle.kom_offered.specs.Laws.{begins_at};
ghost use Rattle.kom_record.specs.Channels.{declared_selector};
ghost use Rattle.kom_state.specs.Parts.{state_of};
ghost use Rattle.kom_entering.specs.Ways as ways;

use kom_base::{Chan, Dir, Event, Half};
use kom_events::{Selector, matches};
use kom_lang::ChannelDecl;
use kom_state::RunState;
use kom_system::System;

/// The other direction of a channel.
pub fn opposite(d: Dir) -> Dir
    ensures { result ≡ dirs.opposite d }
{
    match d {
        Dir::Plus => Dir::Minus,
        Dir::Minus => Dir::Plus,
    }
}

/// Whether a channel is there and lives.
fn is_there(state: &RunState, x: Chan) -> bool
    ensures { result ≡ is_some ((state_of state.now).links x) }
{
    state.holds_together();
    match state.wire_of(x) {
        Some((c, _)) => state.alive(c),
        None => is_of_port(state, x),
    }
}

/// Whether a number is that of the channel of a port of the root: one of its directions leads out.
fn is_of_port(state: &RunState, x: Chan) -> bool
    ensures { result ≡ ways.is_of_port state.now.numbers x }
{
    state.leads_out(x, Dir::Plus) || state.leads_out(x, Dir::Minus)
}

/// Whether a direction of a living channel begins at a half.
pub fn begins(state: &RunState, x: Chan, d: Dir, half: &Half) -> bool
    ensures { result ≡ begins_at half.now d ((state_of state.now).links x) }
{
    if !is_there(state, x) {
        return false;
    }
    is_at(state.end(x, d), half)
}

fn is_at(place: Option<Half>, half: &Half) -> bool
    ensures { result ≡ ways.is_at half.now place }
{
    match place {
        Some(at) => *half == at,
        None => false,
    }
}

/// The declaration of a channel of a living component; `None` where the channel is of a port of
/// the root, and where there is none.
fn declaration<'a>(system: &'a System, state: &RunState, x: Chan) -> Option<&'a ChannelDecl>
    ensures { option_copied result ≡ ways.decl_by system.now.declarations state.now x }
{
    match state.wire_of(x) {
        Some((c, wire)) => match state.body(c) {
            Some(body) => declared_in(system, body.kind, wire),
            None => None,
        },
        None => None,
    }
}

/// The declaration of a channel of a component type, by its place there.
fn declared_in(system: &System, kind: u16, wire: u32) -> Option<&ChannelDecl>
    ensures { option_copied result ≡ slice_get (kind_of system.now.declarations kind).channels wire }
{
    if kind >= system.kinds() {
        return None;
    }
    system.kind(kind).channels.get(wire as usize)
}

fn selector_of(decl: &ChannelDecl, d: Dir) -> &Selector
    ensures { result.now ≡ declared_selector decl.now d }
{
    match d {
        Dir::Plus => &decl.plus_when,
        Dir::Minus => &decl.minus_when,
    }
}

/// Whether the selector of a direction lets an event pass, by the declaration of the channel; a
/// channel of a port of the root has none.
fn lets_pass(system: &System, decl: Option<&ChannelDecl>, d: Dir, event: &Event) -> bool
    ensures { result ≡ ways.passes_in system.now.declarations d event.now (option_copied decl.entry) }
{
    match decl {
        Some(decl) => matches(system.event_types(), selector_of(decl, d), event),
        None => true,
    }
}

/// Whether a plain event that is offered at a half enters the plus and the minus direction of a
/// living channel. It costs the logarithm of the numbers of instances and channels, and the tests
/// of the selectors.
pub fn entered(
    system: &System,
    state: &RunState,
    half: &Half,
    event: &Event,
    x: Chan,
) -> (bool, bool)
    requires { IsSome ((state_of state.now).links x) }
    ensures plus { result.0 ≡ ways.enters_by system.now.declarations state.now half.now event.now x Plus }
    ensures minus { result.1 ≡ ways.enters_by system.now.declarations state.now half.now event.now x Minus }
{
    let decl = declaration(system, state, x);
    let (plus, minus) = state.ends(x);
    let into_plus = is_at(plus, half) && lets_pass(system, decl, Dir::Plus, event);
    let into_minus = is_at(minus, half) && lets_pass(system, decl, Dir::Minus, event);
    (into_plus, into_minus)
}
