ghost use Rattle.std.specs.Prelude.{◌≡◌, ◌≤◌, ◌<◌, ◌++◌, [], length, take, drop, OnOk, OnErr, unwrap_or, decimal, bytes_eq};
ghost use Rattle.kom_make.specs.Texts.{is_word_byte, replaced, filled, is_repeated};
ghost use Rattle.kom_make.specs.Parts.{run_len, spelled, IsSmall, IsPart};

use itoa::Buffer;
use std::alloc::AllocError;

/// Where a template's words are replaced: in line `i` of a system of `n` relays, or in the load
/// for it.
#[derive(Clone, Copy, Debug)]
pub enum Place {
    Line { n: u32, i: u32 },
    Load { n: u32 },
}

/// A name with a number, which stands for a word of a template.
#[derive(Clone, Copy, Debug)]
pub struct Numbered {
    pub name: &'static [u8],
    pub number: u32,
}

fn is(a: &[u8], b: &[u8]) -> bool
    ensures { result ≡ bytes_eq a.now b.now }
{
    a == b
}

/// What stands for a word; `None` where it stands for itself.
fn replacement(place: Place, word: &[u8]) -> Option<Numbered>
    requires { IsSmall place }
    ensures { spelled result ≡ replaced place word.now }
{
    match place {
        Place::Line { n, i } => {
            if is(word, b"ri") {
                Some(Numbered {
                    name: b"r",
                    number: i,
                })
            } else if is(word, b"ci") {
                Some(Numbered {
                    name: b"c",
                    number: i,
                })
            } else if is(word, b"rj") {
                Some(Numbered {
                    name: b"r",
                    number: (i + 1) % n,
                })
            } else if is(word, b"cz") {
                Some(Numbered {
                    name: b"c",
                    number: n - 1,
                })
            } else {
                None
            }
        }
        Place::Load { n } => {
            if is(word, b"S") {
                Some(Numbered {
                    name: b"",
                    number: n,
                })
            } else if is(word, b"T") {
                Some(Numbered {
                    name: b"",
                    number: 100 * n,
                })
            } else if is(word, b"U") {
                Some(Numbered {
                    name: b"",
                    number: 10 * n - 1,
                })
            } else {
                None
            }
        }
    }
}

fn push_numbered(out: &mut Vec<u8>, word: Numbered) -> Result<(), AllocError>
    ensures { OnOk result (out.new.items ≡ out.old.items ++ (word.name.now ++ decimal word.number)) }
{
    out.extend_from_slice(word.name)?;
    let mut buffer = Buffer::new();
    out.extend_from_slice(buffer.format(word.number).as_bytes())?;
    Ok(())
}

fn push_word(out: &mut Vec<u8>, place: Place, word: &[u8]) -> Result<(), AllocError>
    requires { IsSmall place }
    ensures { OnOk result (out.new.items ≡ out.old.items ++ unwrap_or (replaced place word.now) word.now) }
{
    match replacement(place, word) {
        Some(name) => push_numbered(out, name),
        None => Ok(out.extend_from_slice(word)?),
    }
}

fn is_word_byte(b: u8) -> bool
    ensures { result ≡ is_word_byte b }
{
    b.is_ascii_alphabetic() || b == b'_' || b.is_ascii_digit()
}

/// How many bytes at the front of a text are of a word.
fn run_len(text: &[u8]) -> usize
    ensures value { result ≡ run_len text.now }
    ensures within { result ≤ length text.now }
{
    for (i, b) in text.iter().enumerate() {
        if !is_word_byte(*b) {
            return i;
        }
    }
    text.len()
}

/// A text in two: its first whole word or other byte, and the rest.
fn split_part(text: &[u8]) -> (&[u8], &[u8])
    requires { 1 ≤ length text.now }
    ensures { IsPart text.now result.0.now result.1.now }
{
    text.split_at(run_len(text).max(1))
}

/// Adds a text in which each whole word is replaced by what stands for it there.
pub fn fill(out: &mut Vec<u8>, place: Place, text: &[u8]) -> Result<(), AllocError>
    requires { IsSmall place }
    ensures { OnOk result (out.new.items ≡ out.old.items ++ filled place text.now) }
{
    let mut rest = text;
    while !rest.is_empty() {
        let (word, after) = split_part(rest);
        push_word(out, place, word)?;
        rest = after;
    }
    Ok(())
}

/// Whether `ri` or `ci` stands in a line as a whole word.
pub fn is_repeated(line: &[u8]) -> bool
    ensures { result ≡ is_repeated line.now }
{
    let mut rest = line;
    while !rest.is_empty() {
        let (word, after) = split_part(rest);
        if is(word, b"ri") || is(word, b"ci") {
            return true;
        }
        rest = after;
    }
    false
}
