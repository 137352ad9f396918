ghost use Rattle.std.specs.Prelude.{◌≡◌, ◌++◌, OnOk};
ghost use Rattle.kom_sysprint.specs.Canonical.{word, number, integer, command, inside_of, operator, relation};

use kom_events::Op;
use kom_lang::Binary;
use kom_lines::Text;
use std::alloc::AllocError;

/// Adds a token and the space behind it.
pub fn add_word(text: &mut Text, bytes: &[u8]) -> Result<(), AllocError>
    ensures { OnOk result (text.new ≡ text.old ++ word bytes.now) }
{
    text.add(bytes)?;
    text.add(b" ")
}

/// Adds a number and the space behind it.
pub fn add_number(text: &mut Text, n: u64) -> Result<(), AllocError>
    ensures { OnOk result (text.new ≡ text.old ++ number n) }
{
    text.add_decimal(n)?;
    text.add(b" ")
}

/// Adds a signed number: its sign is a token of its own.
pub fn add_integer(text: &mut Text, n: i64) -> Result<(), AllocError>
    ensures { OnOk result (text.new ≡ text.old ++ integer n) }
{
    if n < 0 {
        text.add(b"- ")?;
    }
    add_number(text, n.unsigned_abs())
}

/// Adds a keyword and a name as a line.
pub fn add_command(text: &mut Text, keyword: &[u8], name: &[u8]) -> Result<(), AllocError>
    ensures { OnOk result (text.new ≡ text.old ++ command keyword.now name.now) }
{
    add_word(text, keyword)?;
    add_word(text, name)?;
    text.add(b";\n")
}

/// Adds two names with a dot between them.
pub fn add_inside_of(text: &mut Text, before: &[u8], behind: &[u8]) -> Result<(), AllocError>
    ensures { OnOk result (text.new ≡ text.old ++ inside_of before.now behind.now) }
{
    add_word(text, before)?;
    text.add(b". ")?;
    add_word(text, behind)
}

/// The sign of an operator.
pub fn operator(op: Binary) -> &'static [u8]
    ensures { result.now ≡ operator op }
{
    match op {
        Binary::Or => b"||",
        Binary::And => b"&&",
        Binary::Eq => b"==",
        Binary::Ne => b"!=",
        Binary::Lt => b"<",
        Binary::Le => b"<=",
        Binary::Gt => b">",
        Binary::Ge => b">=",
        Binary::Add => b"+",
        Binary::Sub => b"-",
        Binary::Mul => b"*",
        Binary::Div => b"/",
        Binary::Rem => b"%",
    }
}

/// The sign of a comparison in a selector.
pub fn relation(op: Op) -> &'static [u8]
    ensures { result.now ≡ relation op }
{
    match op {
        Op::Eq => b"==",
        Op::Ne => b"!=",
        Op::Lt => b"<",
        Op::Le => b"<=",
        Op::Gt => b">",
        Op::Ge => b">=",
    }
}
