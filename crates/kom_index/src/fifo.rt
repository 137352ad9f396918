ghost use Rattle.std.specs.Prelude.{◌≡◌, ◌-◌, ◌<◌, max, [], ◌∷◌, ◌++◌, drop, OnOk, OnErr, length, slice_get};
ghost use Rattle.std.specs.Option.{option_copied};
ghost use Rattle.kom_index.specs.Stock.{items, spare};

use std::alloc::{AllocError, Global};
use std::collections::VecDeque;
use std::marker::Model;

/// The most items for which a queue keeps memory that it does not need.
const KEPT: usize = 8;

/// A queue in reserved room: what was added first leaves first. The memory of what left comes back
/// in time.
///
/// Contracts see the list of the items, the first at the front, and for how many more there is
/// room.
#[derive(Drop)]
pub struct Fifo<T> {
    queue: VecDeque<T>,
    spare: usize,
}

impl<T> Model for Fifo<T> {
    ghost use Rattle.std.specs.Prelude.{List, ℕ, ◌+◌, ◌≤◌};
    ghost use Rattle.std.specs.VecDeque.{deque_len, deque_capacity};

    ghost Value = { List T × ℕ };

    ghost view = { λ q. (q.queue.items, q.spare) };

    ghost invariant = { λ q. deque_len q.queue + q.spare ≤ deque_capacity q.queue };
}

impl<T> Fifo<T> {
    /// The empty queue. It takes no memory.
    pub fn new(alloc: Global) -> Fifo<T>
        ensures { result ≡ ([], 0) }
    {
        Fifo {
            queue: VecDeque::new(alloc),
            spare: 0,
        }
    }

    /// How many items there are.
    pub fn len(&self) -> usize
        ensures { result ≡ length (items self.now) }
    {
        self.queue.len()
    }

    /// The item at the front, if there is one.
    pub fn front(&self) -> Option<&T>
        ensures { option_copied result ≡ slice_get (items self.now) 0 }
    {
        self.queue.front()
    }

    /// Makes room for `n` more items. On want of memory there is as much room as before.
    pub fn reserve(&mut self, n: usize) -> Result<(), AllocError>
        ensures same { items self.new ≡ items self.old }
        ensures ok { OnOk result (spare self.new ≡ max (spare self.old) n) }
        ensures err { OnErr result (spare self.new ≡ spare self.old) }
    {
        if self.spare < n {
            self.queue.reserve(n)?;
            self.spare = n;
        }
        Ok(())
    }

    /// Adds an item at the back. It takes no memory.
    pub fn push(&mut self, item: T)
        requires { 0 < spare self.old }
        ensures { self.new ≡ (items self.old ++ item ∷ [], spare self.old - 1) }
    {
        self.queue.push_back_reserved(item);
        self.spare -= 1;
    }

    /// Takes the item at the front, if there is one. The room that was reserved stays; memory that
    /// is not needed for it comes back once it is more than three quarters of all.
    pub fn pop(&mut self) -> Option<T>
        ensures item { result ≡ slice_get (items self.old) 0 }
        ensures rest { self.new ≡ (drop 1 (items self.old), spare self.old) }
    {
        let item = self.queue.pop_front();
        self.give_back();
        item
    }

    /// Frees most of the memory where at most a quarter of it is needed.
    fn give_back(&mut self)
        ensures { self.new ≡ self.old }
    {
        let needed = self.queue.len() + self.spare;
        if self.queue.capacity() > KEPT && needed <= self.queue.capacity() / 4 {
            self.queue.shrink_to(2 * needed);
        }
    }
}

impl<T: Drop> Fifo<T> {
    /// Takes all items away. The room that was reserved stays.
    pub fn clear(&mut self)
        ensures { self.new ≡ ([], spare self.old) }
    {
        self.queue.clear();
        self.give_back();
    }
}

#[cfg(test)]
mod tests {
    use super::*;
    use std::test::Fail;

    #[test]
    fn leaves_in_order(rt: HostRuntime) -> Result<(), Fail> {
        let mut queue: Fifo<u32> = Fifo::new(rt.alloc());
        queue.reserve(2)?;
        queue.push(5);
        queue.push(3);
        assert_eq!(rt; queue.front().copied(), Some(5));
        assert_eq!(rt; queue.len(), 2);
        assert_eq!(rt; queue.pop(), Some(5));
        assert_eq!(rt; queue.pop(), Some(3));
        assert_eq!(rt; queue.pop(), None);
        Ok(())
    }
}
