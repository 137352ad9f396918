use kom_base::Comp;
use std::sync::Wait;

/// What a worker passes before it handles an item.
///
/// It lets a test see, or hold up, what workers do at one time. It promises nothing, and may wait.
pub trait Gate {
    /// Worker `w` is about to handle an item of component `c`.
    fn enter<R: Wait>(&self, rt: &R, w: u32, c: Comp);
}

/// The gate that is always open.
#[derive(Clone, Copy, Debug, PartialEq, Eq)]
pub struct NoGate;

impl Gate for NoGate {
    fn enter<R: Wait>(&self, _rt: &R, _w: u32, _c: Comp) {}
}
