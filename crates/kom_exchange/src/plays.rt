//! What each step on the words tells the seat. These types are for the proofs alone.
ghost use Rattle.kom_exchange.specs.Later.{about_of};
ghost use Rattle.kom_exchange.specs.Rule.{drew, looked, counted, passed, numbered, newcomer, joined, spent_view};

use crate::view::View;
use atomic_table::{Join, Play, Split};
use kom_record::Station;

pub struct Draw;

impl<T: Station> Play<Option<T>, View> for Draw {
    ghost then = { λ _ m n m'. drew m n m' };
}

pub struct Look;

impl<T: Station> Play<Option<T>, View> for Look {
    ghost then = { λ _ m n m'. looked T.history (about_of T.system T.plan) m n m' };
}

pub struct Count;

impl<T: Station> Play<Option<T>, View> for Count {
    ghost then = { λ _ m _ m'. counted T.history m m' };
}

pub struct Pass;

impl<T: Station> Play<Option<T>, View> for Pass {
    ghost then = { λ _ m _ m'. passed m m' };
}

pub struct Number;

impl Split<View> for Number {
    ghost left = { numbered };

    ghost right = { newcomer };
}

pub struct TakeOver;

impl Join<View> for TakeOver {
    ghost both = { joined };

    ghost spent = { spent_view };
}
