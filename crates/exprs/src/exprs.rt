// Statements in a row, blocks, and expressions by the levels of their operators.
ghost use Rattle.std.specs.Prelude.{◌≡◌};
ghost use Rattle.cursor.specs.Answers.{sheet_of, run, ended, SameLoans};
ghost use Rattle.parts.specs.Answers.{as_turn};
ghost use Rattle.rules.specs.Levels.{levels};
ghost use Rattle.rules.specs.Inner.{expr};
ghost use Rattle.rules.specs.Blocks.{block, expr_and_block};
ghost use Rattle.rules.specs.Precedence.{infix_turn, unary, tried, handler};

use crate::primary::primary;
use crate::statements::stmt;
use cursor::{Kids, Parser, Refusal, Sheet, Stop, nodes};
use parts::records::{block_record, couple, handler_record, handlers_flagged};
use parts::recovery::{after_stmt, recovered};
use parts::steps::{alone, type_check};
use parts::values::Expr;
use std::ops::ControlFlow;
use types::items::{NO_KIDS, close};
use types::lits::ident;
use types::patterns::span_of;
use types::types::params;

// Rust's parse_exprs: statements up to a kind that ends them. A level is used up on each entry.
#[cycle(exprs)]
pub fn exprs(p: &mut Parser<'_>, sheet: &Sheet<'_>, depth: u32, end: u8) -> Result<Kids, Stop>
    ensures ended { ended p.new result ≡ run ((levels (sheet_of sheet.now) depth).exprs end) p.old }
    ensures lent { SameLoans p.old p.new }
{
    if depth == 0 {
        return Err(Stop::Refused(Refusal::TooDeep));
    }
    p.eat_eol(sheet)?;
    let mut row = NO_KIDS;
    loop {
        if p.eat(sheet, end)? {
            return Ok(row);
        }
        let mark = p.state;
        let said = stmt(p, sheet, depth - 1);
        let link = recovered(p, sheet, mark, end, said)?;
        match after_stmt(p, sheet, end, row, link)? {
            ControlFlow::Continue(longer) => row = longer,
            ControlFlow::Break(all) => return Ok(all),
        }
    }
}

// Rust's parse_block; with `wrap` another record of that kind and of the same range over it.
#[cycle(exprs)]
pub(crate) fn block(
    p: &mut Parser<'_>,
    sheet: &Sheet<'_>,
    depth: u32,
    wrap: u32,
) -> Result<u32, Stop>
    ensures ended { ended p.new result ≡ run (block (levels (sheet_of sheet.now) depth) wrap) p.old }
    ensures lent { SameLoans p.old p.new }
{
    p.expect(sheet, kinds::OPEN_BRACE)?;
    let from = p.start_range(sheet);
    let row = exprs(p, sheet, depth, kinds::CLOSE_BRACE)?;
    block_record(p, from, wrap, from, row)
}

// Rust's parse_expr and parse_expr_with_option: the link alone. Here and below `lambda` says whether a trailing lambda may follow, which is the Rust's option
// and the rules' flag.
#[cycle(exprs)]
pub(crate) fn expr(
    p: &mut Parser<'_>,
    sheet: &Sheet<'_>,
    depth: u32,
    lambda: bool,
) -> Result<u32, Stop>
    ensures ended { ended p.new result ≡ run (expr (levels (sheet_of sheet.now) depth) lambda) p.old }
    ensures lent { SameLoans p.old p.new }
{
    let x = prec(p, sheet, depth, 1, lambda)?;
    Ok(x.link())
}

// Rust's parse_expr_and_block: both join a row.
#[cycle(exprs)]
pub(crate) fn expr_and_block(
    p: &mut Parser<'_>,
    sheet: &Sheet<'_>,
    depth: u32,
    kids: Kids,
) -> Result<Kids, Stop>
    ensures ended { ended p.new result ≡ run (expr_and_block (levels (sheet_of sheet.now) depth) kids) p.old }
    ensures lent { SameLoans p.old p.new }
{
    let link = expr(p, sheet, depth, false)?;
    let body = block(p, sheet, depth, 0)?;
    let one = p.add(kids, link);
    Ok(p.add(one, body))
}

// Rust's parse_expr_precedence. A level is used up on each entry.
#[cycle(exprs)]
pub fn prec(
    p: &mut Parser<'_>,
    sheet: &Sheet<'_>,
    depth: u32,
    min: u8,
    lambda: bool,
) -> Result<Expr, Stop>
    ensures ended { ended p.new result ≡ run ((levels (sheet_of sheet.now) depth).prec min lambda) p.old }
    ensures lent { SameLoans p.old p.new }
{
    if depth == 0 {
        return Err(Stop::Refused(Refusal::TooDeep));
    }
    let from = p.start_range(sheet);
    let mut x = unary(p, sheet, depth - 1, lambda)?;
    // Most operands have no operator behind them: told before the loop, which carries much.
    if kinds::bin_op(p.current_kind(sheet)).is_none() {
        return Ok(x);
    }
    loop {
        match infix(p, sheet, depth - 1, from, x, min, lambda)? {
            ControlFlow::Continue(longer) => x = longer,
            ControlFlow::Break(whole) => return Ok(whole),
        }
    }
}

// One operator with its right operand; `is` with its type word.
#[cycle(exprs)]
fn infix(
    p: &mut Parser<'_>,
    sheet: &Sheet<'_>,
    depth: u32,
    from: u32,
    x: Expr,
    min: u8,
    lambda: bool,
) -> Result<ControlFlow<Expr, Expr>, Stop>
    ensures ended { ended p.new (as_turn result) ≡ run (infix_turn (levels (sheet_of sheet.now) depth) from min lambda x) p.old }
    ensures lent { SameLoans p.old p.new }
{
    let kind = p.current_kind(sheet);
    let Some(op) = kinds::bin_op(kind) else {
        return Ok(ControlFlow::Break(x));
    };
    let level = kinds::precedence(op);
    if level < min {
        return Ok(ControlFlow::Break(x));
    }
    p.bump(sheet)?;
    if kind == kinds::IS as u32 {
        return type_check(p, sheet, from, x);
    }
    let right = prec(p, sheet, depth, level + 1, lambda)?;
    let link = couple(p, nodes::BINARY, from, kind, x.link(), right.link())?;
    Ok(ControlFlow::Continue(Expr::Other(link)))
}

// Rust's parse_expr_unary.
#[cycle(exprs)]
fn unary(p: &mut Parser<'_>, sheet: &Sheet<'_>, depth: u32, lambda: bool) -> Result<Expr, Stop>
    ensures ended { ended p.new result ≡ run (unary (levels (sheet_of sheet.now) depth) lambda) p.old }
    ensures lent { SameLoans p.old p.new }
{
    let from = p.start_range(sheet);
    match p.pick(sheet, &[kinds::NOT, kinds::SUB, kinds::TRY])? {
        0 | 1 => {
            let kind = p.current_kind(sheet);
            p.bump(sheet)?;
            let x = primary(p, sheet, depth, lambda)?;
            let link = close(p, nodes::UNARY, from, kind, 0, 0, x.link())?;
            Ok(Expr::Other(link))
        }
        2 => tried(p, sheet, depth, lambda),
        _ => primary(p, sheet, depth, lambda),
    }
}

// `try`: a final Call, and its handlers, which join the Call's record.
#[cycle(exprs)]
fn tried(p: &mut Parser<'_>, sheet: &Sheet<'_>, depth: u32, lambda: bool) -> Result<Expr, Stop>
    ensures ended { ended p.new result ≡ run (tried (levels (sheet_of sheet.now) depth) lambda) p.old }
    ensures lent { SameLoans p.old p.new }
{
    let here = p.current_range(sheet);
    p.bump(sheet)?;
    let x = primary(p, sheet, depth, lambda)?;
    let Expr::Call(link, called) = x else {
        return Err(Stop::Fault(alone(kinds::TRY, span_of(here))));
    };
    let mut kids = called.kids;
    loop {
        let one = handler(p, sheet, depth)?;
        kids = p.add(kids, one);
        if !p.check(sheet, kinds::WITH)? {
            handlers_flagged(p, link, called, kids.count);
            return Ok(Expr::Other(link));
        }
    }
}

// A handler of a `try`.
#[cycle(exprs)]
fn handler(p: &mut Parser<'_>, sheet: &Sheet<'_>, depth: u32) -> Result<u32, Stop>
    ensures ended { ended p.new result ≡ run (handler (levels (sheet_of sheet.now) depth)) p.old }
    ensures lent { SameLoans p.old p.new }
{
    let from = p.start_range(sheet);
    p.expect(sheet, kinds::WITH)?;
    let name = ident(p, sheet)?;
    let row = Kids {
        first: name,
        last: name,
        count: 0,
    };
    let items = params(p, sheet, depth, row)?;
    let body = block(p, sheet, depth, 0)?;
    handler_record(p, from, items, body)
}
