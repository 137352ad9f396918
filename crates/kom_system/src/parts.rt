use kom_base::{Dir, Values};
use kom_events::Op;
use kom_lang::{Binary, Name};
use sqlite_items::{Boxed, Items};

/// A name with its byte place in the text.
#[derive(Debug, Drop)]
pub struct Spot {
    pub name: Name,
    pub at: u32,
}

pub type Spots = Items<Spot>;

/// An expression as it is written.
#[derive(Debug, Drop)]
pub enum ExprPart {
    Number(i64),
    Name(Spot),
    /// An attribute of the event in hand, with the place of the word `it`.
    It {
        at: u32,
        attr: Spot,
    },
    Neg(Boxed<ExprPart>),
    Not(Boxed<ExprPart>),
    Pair {
        op: Binary,
        left: Boxed<ExprPart>,
        right: Boxed<ExprPart>,
    },
}

pub type ExprParts = Items<ExprPart>;

/// Where `plug` puts a channel's end: at a port of the component itself, or of the child in a
/// slot.
#[derive(Debug, Drop)]
pub enum TargetPart {
    Own(Spot),
    Child { slot: Spot, port: Spot },
}

/// The statements of a block.
pub type StmtParts = Items<StmtPart>;

/// A statement as it is written.
#[derive(Drop)]
pub enum StmtPart {
    Let {
        name: Spot,
        value: ExprPart,
    },
    Set {
        name: Spot,
        value: ExprPart,
    },
    If {
        test: ExprPart,
        block: StmtParts,
        other: Option<StmtParts>,
    },
    While {
        test: ExprPart,
        block: StmtParts,
    },
    Trigger {
        kind: Spot,
        values: ExprParts,
        port: Spot,
    },
    /// `at` is the place of the word `answer`.
    Answer {
        at: u32,
        kind: Spot,
        values: ExprParts,
    },
    Create {
        slot: Spot,
        kind: Spot,
        args: ExprParts,
    },
    /// `at` is the place of the word `state`.
    CreateFromState {
        slot: Spot,
        kind: Spot,
        at: u32,
    },
    Start(Spot),
    Stop(Spot),
    Destroy(Spot),
    Dump(Spot),
    Hold(Spot),
    Resume(Spot),
    Unplug {
        wire: Spot,
        end: Dir,
    },
    Plug {
        wire: Spot,
        end: Dir,
        target: TargetPart,
    },
    Subscribe(Spot),
    Unsubscribe(Spot),
    /// `at` is the place of the number.
    Fail {
        number: i64,
        at: u32,
    },
    /// `at` is the place of the word `escalate`.
    Escalate {
        at: u32,
    },
}

/// What a handler handles, with the names of its parameters.
#[derive(Debug, Drop)]
pub enum OnPart {
    Event { kind: Spot, port: Spot },
    Init(Spots),
    Start,
    Stop,
    Fault { slot: Spot, number: Spot },
    Dumped { slot: Spot },
}

#[derive(Drop)]
pub struct HandlerPart {
    pub name: Spot,
    pub on: OnPart,
    pub off: bool,
    pub block: StmtParts,
}

pub type HandlerParts = Items<HandlerPart>;

/// A component type with arguments.
#[derive(Debug, Drop)]
pub struct ChildPart {
    pub kind: Spot,
    pub args: Values,
}

#[derive(Debug, Drop)]
pub struct PortPart {
    pub name: Spot,
    pub port: Spot,
    pub provided: bool,
}

pub type PortParts = Items<PortPart>;

/// A variable; without a value in the text its first value is 0.
#[derive(Debug, Drop)]
pub struct VarPart {
    pub name: Spot,
    pub first: i64,
}

pub type VarParts = Items<VarPart>;

#[derive(Debug, Drop)]
pub struct SlotPart {
    pub name: Spot,
    pub child: Option<ChildPart>,
}

pub type SlotParts = Items<SlotPart>;

/// An end of a channel as it is declared.
#[derive(Debug, Drop)]
pub enum EndPart {
    Free,
    Own(Spot),
    Child { slot: Spot, port: Spot },
}

/// One test of a selector.
#[derive(Debug, Drop)]
pub struct TestPart {
    pub kind: Spot,
    pub attr: Spot,
    pub op: Op,
    pub number: i64,
}

pub type TestParts = Items<TestPart>;

/// A channel: its plus end is written after `from`, its minus end after `to`. A direction without
/// a selector has no tests.
#[derive(Debug, Drop)]
pub struct ChannelPart {
    pub name: Spot,
    pub port: Spot,
    pub plus: EndPart,
    pub minus: EndPart,
    pub plus_when: TestParts,
    pub minus_when: TestParts,
}

pub type ChannelParts = Items<ChannelPart>;

/// A component type, each kind of declaration in the order of the text.
#[derive(Drop)]
pub struct ComponentPart {
    pub name: Spot,
    pub ports: PortParts,
    pub vars: VarParts,
    pub slots: SlotParts,
    pub channels: ChannelParts,
    pub handlers: HandlerParts,
}

pub type ComponentParts = Items<ComponentPart>;

#[derive(Debug, Drop)]
pub struct EventPart {
    pub name: Spot,
    pub parent: Option<Spot>,
    pub attrs: Spots,
}

pub type EventParts = Items<EventPart>;

#[derive(Debug, Drop)]
pub struct PortTypePart {
    pub name: Spot,
    pub plus: Spots,
    pub minus: Spots,
}

pub type PortTypeParts = Items<PortTypePart>;

/// A root, with the place of the word `root`.
#[derive(Debug, Drop)]
pub struct RootPart {
    pub at: u32,
    pub child: ChildPart,
}

pub type RootParts = Items<RootPart>;

/// The syntax tree of a system file, each kind of declaration in the order of the text. Names
/// have their places, and so have the other tokens at which a rule may be broken.
#[derive(Drop)]
pub struct Parts {
    /// 1 or 2.
    pub version: u8,
    pub events: EventParts,
    pub ports: PortTypeParts,
    pub components: ComponentParts,
    /// All roots that the text has, which may be none.
    pub roots: RootParts,
    /// The place of the end of the text.
    pub end: u32,
}
