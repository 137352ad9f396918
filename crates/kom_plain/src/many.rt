ghost use Rattle.std.specs.Prelude.{◌≡◌, ◌++◌, [], map, take, drop, filter};
ghost use Rattle.std.specs.List.{flat_map};
ghost use Rattle.kom_rules.specs.Names.{first_place, is_among};
ghost use Rattle.kom_rules.specs.Spaces.{is_init};
ghost use Rattle.kom_rules.specs.Declaring.{no_parents, wrong_parent, wrong_parents, wrong_roots};
ghost use Rattle.kom_rules.specs.Fitting.{more_inits, second_inits, ninth_test, many_tests};

use kom_system::{ChannelPart, ComponentPart, EventPart, HandlerPart, OnPart, Parts, TestPart};
use kom_walks::{Of, at_if, earlier, first_of};

/// How many tests there may be for one direction of a channel.
const MAX_TESTS: usize = 8;

/// Whether the name is that of a built-in event type that has no subtypes.
fn has_no_subtypes(name: &[u8]) -> bool
    ensures { result ≡ is_among no_parents name.now }
{
    name == b"SetTimer".as_slice()
        || name == b"CancelTimer".as_slice()
        || name == b"Timeout".as_slice()
}

#[derive(Drop)]
struct Parents;

impl Of<EventPart> for Parents {
    ghost places = { λ s. wrong_parent };

    fn first(&self, part: &EventPart) -> Option<u32> {
        match &part.parent {
            Some(parent) => at_if(has_no_subtypes(parent.name.bytes()), parent.at),
            None => None,
        }
    }
}

/// The first parent that is a built-in event type other than Message, at the parent's name.
pub fn wrong_parents(parts: &Parts) -> Option<u32>
    ensures { result ≡ first_place (wrong_parents parts.now) }
{
    first_of(&Parents, parts.events.as_slice())
}

/// Where there is no root, the place of the end of the text; else that of the word of a second root.
pub fn wrong_roots(parts: &Parts) -> Option<u32>
    ensures { result ≡ first_place (wrong_roots parts.now) }
{
    if parts.roots.len() == 0 {
        return Some(parts.end);
    }
    match parts.roots.get(1) {
        Some(root) => Some(root.at),
        None => None,
    }
}

/// The event type's name of the ninth test.
fn ninth_test(tests: &[TestPart]) -> Option<u32>
    ensures { result ≡ first_place (ninth_test tests.now) }
{
    match tests.get(MAX_TESTS) {
        Some(test) => Some(test.kind.at),
        None => None,
    }
}

#[derive(Drop)]
struct Tests;

impl Of<ChannelPart> for Tests {
    ghost places = { λ s k. ninth_test k.plus_when ++ ninth_test k.minus_when };

    fn first(&self, part: &ChannelPart) -> Option<u32> {
        let plus = ninth_test(part.plus_when.as_slice());
        earlier(plus, ninth_test(part.minus_when.as_slice()))
    }
}

#[derive(Drop)]
struct TestsIn;

impl Of<ComponentPart> for TestsIn {
    ghost places = { λ s c. flat_map (λ k. ninth_test k.plus_when ++ ninth_test k.minus_when) c.channels };

    fn first(&self, part: &ComponentPart) -> Option<u32> {
        first_of(&Tests, part.channels.as_slice())
    }
}

/// The first direction of a channel that has more than 8 tests, at the event type's name of the
/// ninth.
pub fn many_tests(parts: &Parts) -> Option<u32>
    ensures { result ≡ first_place (many_tests parts.now) }
{
    first_of(&TestsIn, parts.components.as_slice())
}

fn is_init(handler: &HandlerPart) -> bool
    ensures { result ≡ is_init handler.now.on }
{
    matches!(handler.on, OnPart::Init(_))
}

#[derive(Drop)]
struct Inits;

impl Of<ComponentPart> for Inits {
    ghost places = { λ s. more_inits };

    fn first(&self, part: &ComponentPart) -> Option<u32> {
        second_init(part.handlers.as_slice())
    }
}

/// The name of the second init handler.
fn second_init(handlers: &[HandlerPart]) -> Option<u32>
    ensures { result ≡ first_place (map (λ h. h.name.at) (take 1 (drop 1 (filter (λ h. is_init h.on) handlers.now)))) }
{
    let mut seen = false;
    for handler in handlers {
        if is_init(handler) {
            if seen {
                return Some(handler.name.at);
            }
            seen = true;
        }
    }
    None
}

/// The first second init handler of a component type, at its name.
pub fn second_inits(parts: &Parts) -> Option<u32>
    ensures { result ≡ first_place (second_inits parts.now) }
{
    first_of(&Inits, parts.components.as_slice())
}
