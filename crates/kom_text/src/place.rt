ghost use Rattle.std.specs.Prelude.{◌≡◌, ◌≤◌, ◌<◌, ◌^◌, ◌-◌, length};
ghost use Rattle.kom_text.specs.Places.{line_of, column_of};

/// The line and the column of the byte at a place, or of the text's end, both from 1. A newline
/// ends a line; columns count bytes.
pub fn place_of(text: &[u8], at: u32) -> (u32, u32)
    requires len { length text.now < 2 ^ 32 - 1 }
    requires within { at ≤ length text.now }
    ensures line { result.0 ≡ line_of text.now at }
    ensures column { result.1 ≡ column_of text.now at }
{
    let mut line = 1;
    let mut column = 1;
    for b in &text[..at as usize] {
        if *b == b'\n' {
            line += 1;
            column = 1;
        } else {
            column += 1;
        }
    }
    (line, column)
}
