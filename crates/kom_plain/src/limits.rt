ghost use Rattle.std.specs.Prelude.{◌≡◌, ◌++◌, map};
ghost use Rattle.kom_rules.specs.Names.{first_place};
ghost use Rattle.kom_rules.specs.Declaring.{over, over_in_component, init_parameters_of, too_many};

use kom_spaces::Declares;
use kom_system::{ComponentPart, HandlerPart, OnPart, Parts, PortTypePart, Spot};
use kom_walks::{Of, earlier, first_of};
use sqlite_items::at;

const MAX_EVENTS: usize = 256;

const MAX_PORT_TYPES: usize = 128;

const MAX_COMPONENTS: usize = 128;

const MAX_LISTED: usize = 64;

const MAX_PORTS: usize = 16;

const MAX_VARS: usize = 64;

const MAX_SLOTS: usize = 32;

const MAX_CHANNELS: usize = 64;

const MAX_HANDLERS: usize = 64;

const MAX_PARAMETERS: usize = 8;

/// The first name over a limit.
fn first_over<T: Declares>(limit: usize, parts: &[T]) -> Option<u32>
    ensures { result ≡ first_place (over limit (map T.named parts.now)) }
{
    match at(parts, limit) {
        Some(part) => Some(part.spot().at),
        None => None,
    }
}

/// The same of names alone.
fn first_spot_over(limit: usize, spots: &[Spot]) -> Option<u32>
    ensures { result ≡ first_place (over limit spots.now) }
{
    match spots.get(limit) {
        Some(spot) => Some(spot.at),
        None => None,
    }
}

/// What says which types listed by a port type are too many.
#[derive(Drop)]
struct Listed;

impl Of<PortTypePart> for Listed {
    ghost places = { λ s t. over 64 t.plus ++ over 64 t.minus };

    fn first(&self, part: &PortTypePart) -> Option<u32> {
        let plus = first_spot_over(MAX_LISTED, part.plus.as_slice());
        earlier(plus, first_spot_over(MAX_LISTED, part.minus.as_slice()))
    }
}

/// What says which parameters of init handlers are too many.
#[derive(Drop)]
struct Parameters;

impl Of<HandlerPart> for Parameters {
    ghost places = { λ s h. over 8 (init_parameters_of h.on) };

    fn first(&self, handler: &HandlerPart) -> Option<u32> {
        match &handler.on {
            OnPart::Init(spots) => first_spot_over(MAX_PARAMETERS, spots.as_slice()),
            _ => None,
        }
    }
}

/// What says which declarations of a component type are too many.
#[derive(Drop)]
struct Items;

impl Of<ComponentPart> for Items {
    ghost places = { λ s. over_in_component };

    fn first(&self, part: &ComponentPart) -> Option<u32> {
        let ports = first_over(MAX_PORTS, part.ports.as_slice());
        let vars = first_over(MAX_VARS, part.vars.as_slice());
        let slots = first_over(MAX_SLOTS, part.slots.as_slice());
        let channels = first_over(MAX_CHANNELS, part.channels.as_slice());
        let handlers = first_over(MAX_HANDLERS, part.handlers.as_slice());
        let parameters = first_of(&Parameters, part.handlers.as_slice());
        let last = earlier(channels, earlier(handlers, parameters));
        earlier(ports, earlier(vars, earlier(slots, last)))
    }
}

/// The first name over a limit, of whatever kind: 256 event types, 128 port types, 128 component
/// types; 64 types in one direction of a port type; 16 ports, 64 variables, 32 slots, 64 channels
/// and 64 handlers of a component type, and 8 parameters of an init handler.
pub fn too_many(parts: &Parts) -> Option<u32>
    ensures { result ≡ first_place (too_many parts.now) }
{
    let events = first_over(MAX_EVENTS, parts.events.as_slice());
    let ports = first_over(MAX_PORT_TYPES, parts.ports.as_slice());
    let components = first_over(MAX_COMPONENTS, parts.components.as_slice());
    let listed = first_of(&Listed, parts.ports.as_slice());
    let items = first_of(&Items, parts.components.as_slice());
    let inside = earlier(listed, items);
    earlier(events, earlier(ports, earlier(components, inside)))
}
