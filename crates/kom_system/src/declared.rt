use kom_events::{EventTypes, PortTypes};
use kom_lang::{Child, Kind, Names};
use sqlite_items::Items;

/// What a system file declares, with names replaced by numbers.
#[derive(Drop)]
pub struct Declared {
    /// The built-in event types first, then those declared, in order.
    pub event_types: EventTypes,
    pub event_names: Names,
    /// For each event type the names of its attributes, inherited ones first.
    pub attr_names: Items<Names>,
    /// The built-in port types first, then those declared, in order.
    pub port_types: PortTypes,
    pub port_names: Names,
    /// The component types, in order of declaration.
    pub kinds: Items<Kind>,
    pub root: Child,
    /// The version of the file, 1 or 2.
    pub version: u8,
}
