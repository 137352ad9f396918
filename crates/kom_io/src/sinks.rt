ghost use Rattle.std.specs.Prelude.{◌≡◌, ◌<◌, ◌≤◌, ℕ, List, Option, length};
ghost use Rattle.kom_io.specs.Faults.{Rose};

/// The answer of [`Sink::write`].
#[derive(Clone, Copy, Debug, PartialEq, Eq)]
pub enum Put {
    /// So many bytes, at least one, were added from the front.
    Bytes(usize),
    /// Nothing was added; the count of faults rose.
    Failed,
}

/// A place that output goes to.
///
/// It means the bytes written so far, where it tells them, and a count of faults, which never
/// falls. A count that stands at the last `u64` is taken as one that rose.
pub trait Sink {
    ghost use Rattle.kom_io.specs.Answers.{IsPut};

    /// The bytes written so far, where they are told.
    ghost written: { Self → Option (List ℕ) };

    /// How many faults there were.
    ghost count: { Self → ℕ };

    /// Adds bytes from the front of `bytes`. A device that takes nothing has failed.
    fn write(&mut self, bytes: &[u8]) -> Put
        requires { 0 < length bytes.now }
        ensures answer { IsPut result bytes.now (written self.old) (written self.new) }
        ensures fault { result ≡ Put.Failed → Rose (count self.old) (count self.new) }
        ensures counts { count self.old ≤ count self.new };

    /// How many faults there were.
    fn faults(&self) -> u64
        ensures { result ≡ count self.now };
}
