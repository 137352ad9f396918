//! Tables of the event types and the port types of a system file by their numbers, and the numbers
//! of component types.
#![tactic(auto)]

mod attributes;
mod event_table;
mod lines;
mod numbers;
mod port_table;
mod type_tables;

pub use attributes::own_attributes;
pub use event_table::EventTable;
pub use lines::parents_of;
pub use numbers::{BUILT_IN_EVENTS, component_number, event_number, port_type_number};
pub use port_table::PortTable;
pub use type_tables::TypeTables;
