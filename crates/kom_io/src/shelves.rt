ghost use Rattle.std.specs.Prelude.{◌≡◌, ◌<◌, ℕ, List, Option, Some, None, IsSome, IfSome, length};
ghost use Rattle.kom_io.specs.Faults.{Rose, RisesOnlyAt};

/// The answer of [`Shelf::open_file`].
#[derive(Clone, Copy, Debug, PartialEq, Eq)]
pub enum Opened {
    /// The file is opened at its first byte.
    Ready,
    /// The file was not opened; its count of faults rose.
    Failed,
}

/// The answer of [`Shelf::read`].
#[derive(Clone, Copy, Debug, PartialEq, Eq)]
pub enum Got {
    /// So many bytes, at least one, stand at the front of the buffer.
    Bytes(usize),
    /// The file was read to its end.
    End,
    /// Nothing was read; the count of faults of the opened file rose.
    Failed,
}

/// A place that files are read from, one at a time.
///
/// It means which name is opened, the bytes of each name and the bytes left of the opened file
/// where it tells them, and a count of faults for each name. No call changes the bytes of a name,
/// and no count falls. A count that stands at the last `u64` is taken as one that rose.
pub trait Shelf {
    ghost use Rattle.kom_io.specs.Answers.{IsRead};

    /// The name that is opened, or none.
    ghost opened: { Self → Option (List ℕ) };

    /// The bytes of each name, where they are told.
    ghost file: { Self → List ℕ → Option (List ℕ) };

    /// What is left of the opened file, where it is told.
    ghost left: { Self → Option (List ℕ) };

    /// How many faults each name has had.
    ghost count: { Self → List ℕ → ℕ };

    /// Opens the file of this name at its first byte, and closes the one before.
    fn open_file(&mut self, name: &str) -> Opened
        ensures ready { result ≡ Opened.Ready → opened self.new ≡ Some name.now }
        ensures start { result ≡ Opened.Ready → left self.new ≡ file self.old name.now }
        ensures failed { result ≡ Opened.Failed → opened self.new ≡ None }
        ensures fault { result ≡ Opened.Failed → Rose (count self.old name.now) (count self.new name.now) }
        ensures counts { RisesOnlyAt name.now (count self.old) (count self.new) }
        ensures files { (n : List ℕ) → file self.new n ≡ file self.old n };

    /// Reads the next bytes of the opened file into the front of the buffer. The same file stays
    /// opened, whatever the answer.
    fn read(&mut self, buf: &mut [u8]) -> Got
        requires file { IsSome (opened self.old) }
        requires room { 0 < length buf.old }
        ensures answer { IsRead result buf.new (left self.old) (left self.new) }
        ensures opened { opened self.new ≡ opened self.old }
        ensures fault { result ≡ Got.Failed → IfSome (opened self.old) (λ name. Rose (count self.old name) (count self.new name)) }
        ensures counts { IfSome (opened self.old) (λ name. RisesOnlyAt name (count self.old) (count self.new)) }
        ensures files { (n : List ℕ) → file self.new n ≡ file self.old n };

    /// How many faults this name has had; the last `u64` where the shelf does not know the name.
    fn faults(&self, name: &str) -> u64
        ensures { result ≡ count self.now name.now };
}
