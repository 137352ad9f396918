use kom_base::Comp;
use kom_entering::Entering;
use kom_nursery::Nursery;
use kom_record::Control;

/// All that the end of a handling needs, worked out before anything changes.
#[derive(Drop)]
pub struct Prepared {
    /// Who is told of a fault of the component, with the slot there that contains the component.
    pub told: Option<(Comp, u8)>,
    /// The answer to a Dump, and for whom; `None` where the item is no Dump, and for the root.
    pub dumped: Option<(Comp, Control)>,
    /// What the entry brings into channels, what goes out, and which answers reach nothing.
    pub entering: Entering,
    /// What the effects create.
    pub nursery: Nursery,
    /// An empty list with room for all who may be woken.
    pub woken: Vec<Comp>,
}
