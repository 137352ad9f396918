//! What all workers of a crew share.
use kom_exchange::Exchange;
use kom_ready::ReadySet;
use kom_record::{Station, Wakes};
use std::alloc::Global;
use std::sync::Wait;
use std::sync::atomic::{AtomicBool, AtomicU64, Ordering};

/// What all workers share: the exchange with the station, the deques from which they steal, a flag
/// that one of them sets for all to end, and a count of the news for those that found nothing to do,
/// who sleep until it rises.
pub struct Crew<T: Station> {
    pub alloc: Global,
    pub exchange: Exchange<T>,
    pub set: ReadySet,
    pub stop: AtomicBool,
    pub news: AtomicU64,
}

/// The part of a count on which a thread can sleep.
const LOW_HALF: u64 = 0xffff_ffff;

/// The most workers that a crew has.
const MOST: usize = 64;

impl<T: Station> Crew<T> {
    /// How much news there was so far, for [`Crew::sleep`].
    pub fn heard(&self) -> u32 {
        (self.news.load(Ordering::SeqCst) & LOW_HALF) as u32
    }

    /// Sleeps where there was no news since `heard`, until somebody calls. It may wait for ever, and may
    /// return though nobody called.
    pub fn sleep<R: Wait>(&self, rt: &R, heard: u32) {
        self.news.park(rt, heard);
    }

    /// Calls a sleeping worker for each component that became ready but one, which the worker that
    /// woke them goes on with.
    pub fn call_for(&self, wakes: &Wakes) {
        if wakes.len() < 2 {
            return;
        }
        self.news.fetch_add(1, Ordering::SeqCst);
        if wakes.len() > MOST {
            self.news.wake_all();
            return;
        }
        for _ in 1..wakes.len() {
            self.news.wake_one();
        }
    }

    /// Calls all sleeping workers.
    pub fn call_all(&self) {
        self.news.fetch_add(1, Ordering::SeqCst);
        self.news.wake_all();
    }
}
