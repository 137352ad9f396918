use kom_base::{Chan, Dir, EntryNo, Event, Side, Values};

/// A control item: what a component is told by its parent, or of its children.
#[derive(Debug, Drop)]
pub enum Control {
    /// Runs the init handler with these values.
    Init(Values),
    Start,
    Stop,
    /// The component in the slot, or one below it, raised the fault with this number.
    Fault { slot: u8, number: u16 },
    /// Asks for the variables.
    Dump,
    /// The variables of the component in the slot, which was told to dump them.
    Dumped { slot: u8, values: Values },
}

/// How an offered event goes on.
#[derive(Clone, Copy, Debug, PartialEq, Eq)]
pub enum Back {
    /// Along each channel that is plugged where it is offered.
    Plain,
    /// It is an answer, and goes back along the channel by which the item of the Took at this
    /// position came.
    To(u32),
    /// It is an answer that is where it belongs, and goes no further.
    Home,
}

/// What a component takes to handle it.
#[derive(Debug, Drop)]
pub enum Item {
    Control(Control),
    /// An event from a direction of a channel: the number of its offer, the half at which it
    /// arrived, and how it goes on.
    Arrival {
        chan: Chan,
        dir: Dir,
        no: EntryNo,
        port: u8,
        side: Side,
        event: Event,
        back: Back,
    },
}
