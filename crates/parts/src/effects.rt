// The statement `effect`.
ghost use Rattle.std.specs.Prelude.{◌≡◌};
ghost use Rattle.cursor.specs.Answers.{sheet_of, run, ended, SameErrors, SameLists};
ghost use Rattle.types.specs.Types.{atoms};
ghost use Rattle.parts.specs.Effects.{effect_record, effect_stmt};

use cursor::records::flagged;
use cursor::{Parser, Sheet, Span, Stop, nodes};
use types::items::{Items, NO_KIDS, add_some, close};
use types::lits::ident;
use types::patterns::span_of;
use types::types::{params, returns};

// The record of an effect over its parameters and the type that it returns, and the statement's record over its name and it.
fn effect_record(
    p: &mut Parser<'_>,
    from: u32,
    inside: u32,
    glo: Option<Span>,
    name: u32,
    items: Items,
    link: u32,
) -> Result<u32, Stop>
    ensures ended { ended p.new result ≡ run (effect_record from inside glo name items link) p.old }
    ensures lent { SameLists p.old p.new }
{
    let row = items.kids;
    let kids = add_some(p, row, link);
    let flags = flagged(row.count, 0, items.ended.is_some(), 0 < link);
    let effect = close(p, nodes::EFFECT, inside, 0, 0, flags, kids.first)?;
    let one = p.add(NO_KIDS, name);
    let two = p.add(one, effect);
    let mark = span_of(glo);
    let told = flagged(0, 0, glo.is_some(), false);
    close(
        p,
        nodes::EXPR_EFFECT,
        from,
        mark.start,
        mark.end,
        told,
        two.first,
    )
}

// Rust's parse_effect_stmt, and the statement that it is, perhaps behind `glo`.
pub fn effect_stmt(
    p: &mut Parser<'_>,
    sheet: &Sheet<'_>,
    depth: u32,
    from: u32,
    glo: Option<Span>,
) -> Result<u32, Stop>
    ensures ended { ended p.new result ≡ run (effect_stmt (sheet_of sheet.now) (atoms (sheet_of sheet.now) depth) from glo) p.old }
    ensures lent { SameErrors p.old p.new }
{
    let inside = p.start_range(sheet);
    p.expect(sheet, kinds::EFFECT)?;
    let name = ident(p, sheet)?;
    let items = params(p, sheet, depth, NO_KIDS)?;
    let link = returns(p, sheet, depth)?;
    effect_record(p, from, inside, glo, name, items, link)
}
