use kom_parse::Numeral;
use kom_system::Spot;
use sqlite_items::Items;

/// A setting, with the place of its word.
#[derive(Clone, Copy, Debug)]
pub enum SettingPart {
    Seed {
        at: u32,
        value: Numeral,
    },
    Steps {
        at: u32,
        value: Numeral,
    },
    Instants {
        at: u32,
        value: Numeral,
    },
    Network {
        at: u32,
        low: Numeral,
        high: Numeral,
    },
}

pub type SettingParts = Items<SettingPart>;

/// An argument of a raise as it is written.
#[derive(Clone, Copy, Debug)]
pub enum ArgPart {
    Number(i64),
    /// The number of the event in its process.
    Index,
    /// A number that is drawn anew for each event.
    Draw { low: Numeral, high: Numeral },
}

pub type ArgParts = Items<ArgPart>;

/// What is raised: an event type, the arguments of its events, and a port.
#[derive(Debug, Drop)]
pub struct RaisePart {
    pub kind: Spot,
    pub args: ArgParts,
    pub port: Spot,
}

/// The moment of a process that another one begins after.
#[derive(Clone, Copy, Debug, PartialEq, Eq)]
pub enum Moment {
    /// Its start time.
    Start,
    /// The time of its last event.
    End,
}

/// When a process starts.
#[derive(Debug, Drop)]
pub enum StartPart {
    At(Numeral),
    After {
        moment: Moment,
        process: Spot,
        by: Numeral,
    },
}

/// A process: so many events, with gaps between them.
#[derive(Debug, Drop)]
pub struct ProcessPart {
    pub name: Spot,
    pub start: StartPart,
    pub count: Numeral,
    pub low: Numeral,
    pub high: Numeral,
    pub raise: RaisePart,
}

/// Where events come from: a line with one event, with the place of its word `at`, or a process.
#[derive(Debug, Drop)]
pub enum SourcePart {
    At {
        at: u32,
        time: Numeral,
        raise: RaisePart,
    },
    Process(ProcessPart),
}

pub type SourceParts = Items<SourcePart>;

/// The syntax tree of a scenario file, in the order of the text. Names have their places, and so
/// have the other tokens at which a rule may be broken.
#[derive(Debug, Drop)]
pub struct ScenarioParts {
    pub settings: SettingParts,
    pub sources: SourceParts,
}
