/// The value of a number that is written without a sign, with the place of its first byte in the
/// text.
#[derive(Clone, Copy, Debug, PartialEq, Eq)]
pub struct Numeral {
    pub value: i64,
    pub at: u32,
}

/// A word of the text, with the place of its first byte.
#[derive(Clone, Copy, Debug)]
pub struct WordAt<'t> {
    pub bytes: &'t [u8],
    pub at: u32,
}
