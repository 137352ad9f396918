use kom_system::{
    ChannelPart, ComponentPart, EventPart, HandlerPart, PortPart, PortTypePart, RootPart, SlotPart,
    VarPart,
};

/// One declaration of a file.
#[derive(Drop)]
pub enum DeclPart {
    Event(EventPart),
    Port(PortTypePart),
    Component(ComponentPart),
    Root(RootPart),
}

/// One declaration of a component type.
#[derive(Drop)]
pub enum ItemPart {
    Port(PortPart),
    Var(VarPart),
    Slot(SlotPart),
    Channel(ChannelPart),
    Handler(HandlerPart),
}
