ghost use Rattle.std.specs.Prelude.{◌≡◌, ◌≤◌, ◌++◌};
ghost use Rattle.std.specs.Option.{option_map};
ghost use Rattle.kom_io.specs.Faults.{Rose};
ghost use Rattle.kom_io.specs.Texts.{AddsPrefix};

use crate::sinks::{Put, Sink};

/// The answer of [`write_all_of`].
#[derive(Clone, Copy, Debug, PartialEq, Eq)]
pub enum Written {
    /// All bytes were added.
    All,
    /// The sink failed, and its count of faults rose; a prefix of the bytes was added.
    WriteFault,
}

/// Writes all the bytes, in as many pieces as the sink needs. It takes no memory.
pub fn write_all_of<K: Sink>(sink: &mut K, bytes: &[u8]) -> Written
    ensures all { result ≡ Written.All → K.written sink.new ≡ option_map (λ w. w ++ bytes.now) (K.written sink.old) }
    ensures part { result ≡ Written.WriteFault → AddsPrefix bytes.now (K.written sink.old) (K.written sink.new) }
    ensures fault { result ≡ Written.WriteFault → Rose (K.count sink.old) (K.count sink.new) }
    ensures counts { K.count sink.old ≤ K.count sink.new }
{
    let mut done = 0;
    while done < bytes.len() {
        match sink.write(&bytes[done..]) {
            Put::Bytes(n) => done += n,
            Put::Failed => return Written::WriteFault,
        }
    }
    Written::All
}
