//! The control items that a handling puts to components: what follows from its item, and what its
//! effects put.
#![tactic(auto)]

mod children;
mod effects;
mod follow;
mod laws;
mod ones;
mod told;

pub use effects::{fault_for, put_by_effect, reserve_for_effects};
pub use follow::{dumped_for, put_by_item, reserve_to_follow};
pub use laws::{faults_are_put, same_states_follow};
pub use ones::{put_one, reserve_one};
pub use told::told_of;
