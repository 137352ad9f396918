use kom_base::Comp;
use kom_record::Gate;
use std::sync::Wait;
use std::sync::atomic::{AtomicBool, Ordering};
use std::thread;

/// How often a worker looks whether the other has come.
const PATIENCE: u32 = 1000000;

/// A gate that lets components 1 and 2 pass only while the other is there too.
#[derive(Drop)]
pub struct Together {
    first: AtomicBool,
    second: AtomicBool,
    gave_up: AtomicBool,
}

impl Together {
    pub fn new() -> Together {
        Together {
            first: AtomicBool::new(false),
            second: AtomicBool::new(false),
            gave_up: AtomicBool::new(false),
        }
    }

    /// Whether a component waited in vain.
    pub fn gave_up(&self) -> bool {
        self.gave_up.load(Ordering::SeqCst)
    }

    fn meet(&self, here: &AtomicBool, there: &AtomicBool) {
        here.store(true, Ordering::SeqCst);
        for _ in 0..PATIENCE {
            if there.load(Ordering::SeqCst) {
                return;
            }
            thread::yield_now();
        }
        self.gave_up.store(true, Ordering::SeqCst);
    }
}

impl Gate for Together {
    fn enter<R: Wait>(&self, _rt: &R, _w: u32, c: Comp) {
        match c.0 {
            1 => self.meet(&self.first, &self.second),
            2 => self.meet(&self.second, &self.first),
            _ => {}
        }
    }
}
