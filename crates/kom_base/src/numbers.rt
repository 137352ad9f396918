use std::marker::Model;

/// The number of an instance of a component, from 0 in the order of creation.
///
/// Contracts see it as that number.
#[derive(Clone, Copy, Debug, PartialEq, Eq, PartialOrd, Ord)]
pub struct Comp(pub u32);

impl Model for Comp {
    ghost use Rattle.std.specs.Prelude.{ℕ};

    ghost Value = { ℕ };

    ghost view = { λ c. c.0 };

    ghost inverse = { λ n. record { 0 = n } };
}

/// The number of a channel, from 0: first the environment channels, then the channels of each
/// instance in the order of creation.
///
/// Contracts see it as that number.
#[derive(Clone, Copy, Debug, PartialEq, Eq, PartialOrd, Ord)]
pub struct Chan(pub u32);

impl Model for Chan {
    ghost use Rattle.std.specs.Prelude.{ℕ};

    ghost Value = { ℕ };

    ghost view = { λ c. c.0 };

    ghost inverse = { λ n. record { 0 = n } };
}

/// A direction of a channel, and the end of it from which that direction goes.
///
/// `Plus` carries indications, from the plus end to the minus end; `Minus` carries requests the
/// other way.
#[derive(Clone, Copy, Debug, PartialEq, Eq, PartialOrd, Ord)]
pub enum Dir {
    Plus,
    Minus,
}

/// The side of a port: `Outside` faces the parent and the siblings, `Inside` the children.
#[derive(Clone, Copy, Debug, PartialEq, Eq, PartialOrd, Ord)]
pub enum Side {
    Outside,
    Inside,
}

/// The number of an offered event: the position of its entry in the record and its place among
/// the offers of that entry, both from 0. Numbers are in the order of the pairs.
#[derive(Clone, Copy, Debug, PartialEq, Eq, PartialOrd, Ord)]
pub struct EntryNo {
    pub position: u32,
    pub place: u32,
}

/// One half of a port of an instance: a channel's end is plugged at a half.
#[derive(Clone, Copy, Debug, PartialEq, Eq, PartialOrd, Ord)]
pub struct Half {
    pub comp: Comp,
    pub port: u8,
    pub side: Side,
}
