// Assignments.
ghost use Rattle.std.specs.Prelude.{◌≡◌};
ghost use Rattle.cursor.specs.Answers.{sheet_of, run, ended, SameLoans};
ghost use Rattle.rules.specs.Levels.{levels};
ghost use Rattle.rules.specs.Statements.{right, set, lefts, rights, multi, typed_assign, assign};

use crate::exprs::{expr, prec};
use cursor::records::flagged;
use cursor::{Kids, Parser, Sheet, Stop, nodes};
use parts::records::{couple, row_record};
use parts::steps::{alone, operator_of};
use parts::values::Expr;
use types::items::{close, pair};
use types::types::ty;

// An expression, or the assignment that it begins.
#[cycle(exprs)]
pub fn assign(p: &mut Parser<'_>, sheet: &Sheet<'_>, depth: u32, from: u32) -> Result<u32, Stop>
    ensures ended { ended p.new result ≡ run (assign (levels (sheet_of sheet.now) depth) from) p.old }
    ensures lent { SameLoans p.old p.new }
{
    let x = prec(p, sheet, depth, 1, true)?;
    let signs = [
        kinds::COMMA,
        kinds::COLON,
        kinds::ASSIGN,
        kinds::ADD_ASSIGN,
        kinds::SUB_ASSIGN,
        kinds::MUL_ASSIGN,
        kinds::DIV_ASSIGN,
        kinds::REM_ASSIGN,
    ];
    match p.pick(sheet, &signs)? {
        0 => multi(p, sheet, depth, from, x),
        1 => typed_assign(p, sheet, depth, from, x),
        which @ 2..=7 => set(p, sheet, depth, from, signs[which], x),
        _ => Ok(x.link()),
    }
}

// An assignment, with an operator or without, whose sign of this kind stands here.
#[cycle(exprs)]
fn set(
    p: &mut Parser<'_>,
    sheet: &Sheet<'_>,
    depth: u32,
    from: u32,
    sign: u8,
    x: Expr,
) -> Result<u32, Stop>
    ensures ended { ended p.new result ≡ run (set (levels (sheet_of sheet.now) depth) from sign x) p.old }
    ensures lent { SameLoans p.old p.new }
{
    let Some(link) = x.assign_left() else {
        return Err(p.unexpected(sheet));
    };
    p.bump(sheet)?;
    if sign == kinds::ASSIGN {
        return right(p, sheet, depth, from, nodes::ASSIGN, 0, link);
    }
    right(
        p,
        sheet,
        depth,
        from,
        nodes::ASSIGN_OP,
        operator_of(sign),
        link,
    )
}

// The right side of an assignment, behind its sign.
#[cycle(exprs)]
pub fn right(
    p: &mut Parser<'_>,
    sheet: &Sheet<'_>,
    depth: u32,
    from: u32,
    kind: u32,
    op: u32,
    link: u32,
) -> Result<u32, Stop>
    ensures ended { ended p.new result ≡ run (right (levels (sheet_of sheet.now) depth) from kind op link) p.old }
    ensures lent { SameLoans p.old p.new }
{
    let value = expr(p, sheet, depth, true)?;
    couple(p, kind, from, op, link, value)
}

// An assignment to a name with a type: a Colon after anything but a plain name is an error.
#[cycle(exprs)]
fn typed_assign(
    p: &mut Parser<'_>,
    sheet: &Sheet<'_>,
    depth: u32,
    from: u32,
    x: Expr,
) -> Result<u32, Stop>
    ensures ended { ended p.new result ≡ run (typed_assign (levels (sheet_of sheet.now) depth) from x) p.old }
    ensures lent { SameLoans p.old p.new }
{
    let Expr::Name(name) = x else {
        return Err(p.unexpected(sheet));
    };
    p.bump(sheet)?;
    let link = ty(p, sheet, depth)?;
    let to = pair(p, nodes::TYPED_IDENT, from, name, link)?;
    p.expect(sheet, kinds::ASSIGN)?;
    right(p, sheet, depth, from, nodes::ASSIGN, 0, to)
}

// An assignment to several, of one value or of as many.
#[cycle(exprs)]
fn multi(p: &mut Parser<'_>, sheet: &Sheet<'_>, depth: u32, from: u32, x: Expr) -> Result<u32, Stop>
    ensures ended { ended p.new result ≡ run (multi (levels (sheet_of sheet.now) depth) from x) p.old }
    ensures lent { SameLoans p.old p.new }
{
    let Some(one) = x.assign_left() else {
        return Err(p.unexpected(sheet));
    };
    let first = Kids {
        first: one,
        last: one,
        count: 1,
    };
    let kids = lefts(p, sheet, depth, first)?;
    p.expect(sheet, kinds::ASSIGN)?;
    let value = expr(p, sheet, depth, true)?;
    if p.check(sheet, kinds::COMMA)? {
        return rights(p, sheet, depth, from, kids, value);
    }
    row_record(p, nodes::ASSIGN_UNPACK, from, kids, value)
}

// The further left sides, each behind its comma.
#[cycle(exprs)]
fn lefts(p: &mut Parser<'_>, sheet: &Sheet<'_>, depth: u32, first: Kids) -> Result<Kids, Stop>
    ensures ended { ended p.new result ≡ run (lefts (levels (sheet_of sheet.now) depth) first) p.old }
    ensures lent { SameLoans p.old p.new }
{
    let mut kids = first;
    while let Some(comma) = p.eat_range(sheet, kinds::COMMA)? {
        let x = prec(p, sheet, depth, 1, true)?;
        let Some(link) = x.assign_left() else {
            return Err(Stop::Fault(alone(kinds::COMMA, comma)));
        };
        kids = p.add(kids, link);
    }
    Ok(kids)
}

// As many right sides as left ones, each behind its comma but the first.
#[cycle(exprs)]
fn rights(
    p: &mut Parser<'_>,
    sheet: &Sheet<'_>,
    depth: u32,
    from: u32,
    lefts: Kids,
    value: u32,
) -> Result<u32, Stop>
    ensures ended { ended p.new result ≡ run (rights (levels (sheet_of sheet.now) depth) from lefts value) p.old }
    ensures lent { SameLoans p.old p.new }
{
    let mut kids = p.add(Kids { count: 0, ..lefts }, value);
    while kids.count < lefts.count {
        p.expect(sheet, kinds::COMMA)?;
        let link = expr(p, sheet, depth, true)?;
        kids = p.add(kids, link);
    }
    let flags = flagged(lefts.count, kids.count, false, false);
    close(p, nodes::ASSIGN_MULTI, from, 0, 0, flags, kids.first)
}
