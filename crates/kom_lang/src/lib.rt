//! The handler language: component types, handlers, bodies, effects and the small steps of a
//! handling.
#![tactic(auto)]

mod body;
mod expr;
mod kind;
mod name;
mod stmt;

pub use body::{Birth, Body, Effect, Effects, Slots, Subs, Wire, Wires};
pub use expr::{Binary, Expr, Exprs};
pub use kind::{
    ChannelDecl, ChannelDecls, Child, Kind, Place, PortDecl, PortDecls, SlotDecl, SlotDecls,
    VarDecl, VarDecls,
};
pub use name::{Name, Names};
pub use stmt::{Block, Handler, Handlers, On, Stmt, Target};

#[cfg(test)]
mod tests;
