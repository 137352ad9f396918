ghost use Rattle.std.specs.Prelude.{◌≡◌};
ghost use Rattle.kom_parse.specs.Input.{Reads};
ghost use Rattle.kom_parse.specs.Rules.{name, list, in_parens};
ghost use Rattle.kom_parse.specs.Spelled.{SpellsParens};
ghost use Rattle.kom_parse.specs.Answers.{IsAnswer};
ghost use Rattle.kom_grammar.specs.Words.{is_name, SpellsName};
ghost use Rattle.kom_grammar.specs.Expressions.{SpellsExpr};
ghost use Rattle.kom_exprs.specs.Reading.{expr};

use kom_exprs::{read_expr, read_name};
use kom_parse::{Reader, Stop};
use kom_system::{ExprPart, ExprParts, Spot, Spots};
use kom_text::TokenKind;
use sqlite_items::Items;

/// What a list with commas between its items is made of.
trait Listed: Sized + Drop {
    ghost use Rattle.std.specs.Prelude.{List};
    ghost use Rattle.kom_parse.specs.Lexemes.{Lexeme};
    ghost use Rattle.kom_parse.specs.Input.{Parser};
    ghost use Rattle.kom_parse.proofs.Laws.{IsReader};

    /// How an item is read.
    ghost rule: { Parser Self };

    /// What spells an item.
    ghost spells: { List Lexeme → Self → Type 0 };

    fn read(reader: &mut Reader<'_>) -> Result<Self, Stop>
        ensures { Reads (rule reader.old) result reader.new };

    ghost exact: { IsReader rule spells };
}

impl Listed for Spot {
    ghost use Rattle.kom_grammar.specs.Words.{SpellsName};
    ghost use Rattle.kom_exprs.proofs.NameLaws.{name_reader};

    ghost rule = { name is_name };

    ghost spells = { SpellsName };

    ghost exact = { name_reader };

    fn read(reader: &mut Reader<'_>) -> Result<Spot, Stop> {
        read_name(reader)
    }
}

impl Listed for ExprPart {
    ghost use Rattle.kom_grammar.specs.Expressions.{SpellsExpr};
    ghost use Rattle.kom_exprs.proofs.ExprReads.{expr_reader};

    ghost rule = { expr };

    ghost spells = { SpellsExpr };

    ghost exact = { expr_reader };

    fn read(reader: &mut Reader<'_>) -> Result<ExprPart, Stop> {
        read_expr(reader)
    }
}

/// Items up to a closing parenthesis.
#[tactic(auto, using(kom_parse::proofs::ListSteps::list_empty, kom_parse::proofs::ListSteps::list_refuses, kom_parse::proofs::ListSteps::list_goes, kom_parse::proofs::ListSteps::commas_end, kom_parse::proofs::ListSteps::commas_refuse, kom_parse::proofs::ListSteps::commas_turn, kom_parse::proofs::ListSteps::commas_shorter))]
fn list<T: Listed>(reader: &mut Reader<'_>) -> Result<Items<T>, Stop>
    ensures { Reads (list T.rule reader.old) result reader.new }
{
    let mut items = Items::new(reader.alloc);
    if reader.sees(TokenKind::Sign, b")") {
        return Ok(items);
    }
    items.push(T::read(reader)?)?;
    while reader.eat(TokenKind::Sign, b",") {
        items.push(T::read(reader)?)?;
    }
    Ok(items)
}

#[tactic(auto, unfolding(kom_parse::specs::Rules::in_parens))]
fn in_parens<T: Listed>(reader: &mut Reader<'_>) -> Result<Items<T>, Stop>
    ensures { Reads (in_parens T.rule reader.old) result reader.new }
{
    reader.sign(b"(")?;
    let items = list(reader)?;
    reader.sign(b")")?;
    Ok(items)
}

/// Reads names in parentheses, with commas between them. `Refused` comes at the first token at
/// which no such list goes on so, which is left as the next one.
#[tactic(auto, using(crate::proofs::Exact::names_exact))]
pub fn read_names(reader: &mut Reader<'_>) -> Result<Spots, Stop>
    ensures reads { Reads (in_parens (name is_name) reader.old) result reader.new }
    ensures exact { IsAnswer (SpellsParens SpellsName) reader.old result reader.new }
{
    in_parens(reader)
}

/// Reads expressions in parentheses, with commas between them. `Refused` comes at the first token
/// at which no such list goes on so, which is left as the next one.
#[tactic(auto, using(crate::proofs::Exact::exprs_exact))]
pub fn read_exprs(reader: &mut Reader<'_>) -> Result<ExprParts, Stop>
    ensures reads { Reads (in_parens expr reader.old) result reader.new }
    ensures exact { IsAnswer (SpellsParens SpellsExpr) reader.old result reader.new }
{
    in_parens(reader)
}
