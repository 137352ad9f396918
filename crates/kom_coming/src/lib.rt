//! What an entry brings into channels comes in, with room that was made before.
#![tactic(auto)]

mod coming;
mod laws;
mod room;

pub use coming::come_in;
pub use laws::{
    comings_are_there, comings_fit, entering_has_come, out_rises, places_fit, queued_rises,
    receivers_are_made,
};
pub use room::make_room;
