// Calls and members behind an atom.
ghost use Rattle.std.specs.Prelude.{◌≡◌};
ghost use Rattle.cursor.specs.Answers.{sheet_of, run, ended, SameLoans};
ghost use Rattle.parts.specs.Answers.{as_turn};
ghost use Rattle.parts.specs.Forms.{opens};
ghost use Rattle.rules.specs.Levels.{levels};
ghost use Rattle.rules.specs.Primary.{postfix_turn, call, access};
ghost use Rattle.rules.specs.Atoms.{primary};
ghost use Rattle.rules.specs.Placed.{member_property};

use crate::atoms::atom;
use crate::exprs::{block, expr};
use crate::suffix::{is_suffix, no_suffix};
use crate::tables::items;
use cursor::{Kids, Parser, Sheet, Stop, nodes};
use parts::forms::{ItemRule, Opening};
use parts::records::{call_record, member_record_of};
use parts::steps::{braced, meta_end_of, no_member, pound, question};
use parts::values::Expr;
use std::ops::ControlFlow;
use types::lits::ident;

// Rust's parse_expr_primary.
#[cycle(exprs)]
pub fn primary(
    p: &mut Parser<'_>,
    sheet: &Sheet<'_>,
    depth: u32,
    lambda: bool,
) -> Result<Expr, Stop>
    ensures ended { ended p.new result ≡ run (primary (levels (sheet_of sheet.now) depth) lambda) p.old }
    ensures lent { SameLoans p.old p.new }
{
    let from = p.start_range(sheet);
    let mut x = atom(p, sheet, depth)?;
    // Most operands have no call and no member behind them: told before the loop.
    if !is_suffix(p.current_kind(sheet)) {
        return no_suffix(p, sheet, x, lambda);
    }
    loop {
        match postfix(p, sheet, depth, from, x, lambda)? {
            ControlFlow::Continue(longer) => x = longer,
            ControlFlow::Break(whole) => return Ok(whole),
        }
    }
}

// One call or member more, where one stands here.
#[cycle(exprs)]
fn postfix(
    p: &mut Parser<'_>,
    sheet: &Sheet<'_>,
    depth: u32,
    from: u32,
    x: Expr,
    lambda: bool,
) -> Result<ControlFlow<Expr, Expr>, Stop>
    ensures ended { ended p.new (as_turn result) ≡ run (postfix_turn (levels (sheet_of sheet.now) depth) from lambda x) p.old }
    ensures lent { SameLoans p.old p.new }
{
    if p.eat(sheet, kinds::OPEN_PAREN)? {
        return call(p, sheet, depth, from, x, lambda);
    }
    if !braced(p, sheet, lambda)? {
        return access(p, sheet, depth, from, x);
    }
    let link = x.link();
    let kids = Kids {
        first: link,
        last: link,
        count: 0,
    };
    let closure = block(p, sheet, depth, nodes::CLOSURE)?;
    call_record(p, from, kids, closure)
}

// A call from behind its opening parenthesis on; the macro trailing_lambda is a block with a Closure over it.
#[cycle(exprs)]
fn call(
    p: &mut Parser<'_>,
    sheet: &Sheet<'_>,
    depth: u32,
    from: u32,
    x: Expr,
    lambda: bool,
) -> Result<ControlFlow<Expr, Expr>, Stop>
    ensures ended { ended p.new (as_turn result) ≡ run (call (levels (sheet_of sheet.now) depth) from lambda x) p.old }
    ensures lent { SameLoans p.old p.new }
{
    let link = x.link();
    let row = Kids {
        first: link,
        last: link,
        count: 0,
    };
    let items = items(p, sheet, depth, ItemRule::Arguments, row)?;
    if !braced(p, sheet, lambda)? {
        return call_record(p, from, items.kids, 0);
    }
    let closure = block(p, sheet, depth, nodes::CLOSURE)?;
    call_record(p, from, items.kids, closure)
}

// A member, where one stands here; a `?` needs one.
#[cycle(exprs)]
fn access(
    p: &mut Parser<'_>,
    sheet: &Sheet<'_>,
    depth: u32,
    from: u32,
    x: Expr,
) -> Result<ControlFlow<Expr, Expr>, Stop>
    ensures ended { ended p.new (as_turn result) ≡ run (access (levels (sheet_of sheet.now) depth) from x) p.old }
    ensures lent { SameLoans p.old p.new }
{
    let safe = question(p, sheet)?;
    let chain = [kinds::OPEN_BRACKET, kinds::DOT, kinds::DOUBLE_COLON];
    let place = p.pick(sheet, &chain)?;
    let Some(opening) = Opening::at(place) else {
        return no_member(p, sheet, x, safe);
    };
    let meta = pound(p, sheet)?;
    let link = member_property(p, sheet, depth, opening, meta)?;
    member_record_of(p, from, x, safe, opening, meta, link)
}

// The property of a member, of the macro member_expr; none where it is a meta member.
#[cycle(exprs)]
fn member_property(
    p: &mut Parser<'_>,
    sheet: &Sheet<'_>,
    depth: u32,
    opening: Opening,
    meta: bool,
) -> Result<u32, Stop>
    ensures ended { ended p.new result ≡ run (member_property (levels (sheet_of sheet.now) depth) (opens opening) meta) p.old }
    ensures lent { SameLoans p.old p.new }
{
    if meta {
        return meta_end_of(p, sheet, opening);
    }
    match opening {
        Opening::Bracket => {
            let link = expr(p, sheet, depth, true)?;
            p.expect(sheet, kinds::CLOSE_BRACKET)?;
            Ok(link)
        }
        Opening::Dot => ident(p, sheet),
        Opening::DoubleColon => ident(p, sheet),
    }
}
