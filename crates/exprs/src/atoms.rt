// Atoms, by their forms.
ghost use Rattle.std.specs.Prelude.{◌≡◌};
ghost use Rattle.cursor.specs.Answers.{sheet_of, run, ended, SameLoans};
ghost use Rattle.parts.specs.Forms.{place};
ghost use Rattle.rules.specs.Levels.{levels};
ghost use Rattle.rules.specs.Atoms.{if_expr, match_expr, match_case, atom};
ghost use Rattle.rules.specs.Placed.{group, anon, loops, form};

use crate::exprs::{block, expr, expr_and_block};
use crate::statements::function;
use crate::tables::{brace, items};
use cursor::records::flagged;
use cursor::{Kids, Parser, Sheet, Stop, nodes};
use parts::forms::{Form, ItemRule};
use parts::records::{
    atom_expr_of, if_record, list_record, loop_record, nameless, round_record_of, row_record,
};
use parts::steps::{case_patterns, leaf_of, loop_names_of};
use parts::values::Expr;
use types::items::{NO_KIDS, close};
use types::lits::{ident, lit};

// Rust's parse_expr_atom.
#[cycle(exprs)]
pub fn atom(p: &mut Parser<'_>, sheet: &Sheet<'_>, depth: u32) -> Result<Expr, Stop>
    ensures ended { ended p.new result ≡ run (atom (levels (sheet_of sheet.now) depth)) p.old }
    ensures lent { SameLoans p.old p.new }
{
    let from = p.start_range(sheet);
    let chain = [
        kinds::OPEN_PAREN,
        kinds::IDENT,
        kinds::OPEN_BRACE,
        kinds::OPEN_BRACKET,
        kinds::FN,
        kinds::V_BAR,
        kinds::DO,
        kinds::IF,
        kinds::MATCH,
        kinds::LOOP,
        kinds::WHILE,
        kinds::FOR,
        kinds::BREAK,
        kinds::CONTINUE,
        kinds::RETURN,
    ];
    let place = p.pick(sheet, &chain)?;
    let Some(which) = Form::at(place) else {
        let link = lit(p, sheet)?;
        return Ok(Expr::Other(link));
    };
    let link = form(p, sheet, depth, from, which)?;
    Ok(atom_expr_of(which, link))
}

// An atom of a form; a literal has none.
#[cycle(exprs)]
fn form(
    p: &mut Parser<'_>,
    sheet: &Sheet<'_>,
    depth: u32,
    from: u32,
    which: Form,
) -> Result<u32, Stop>
    ensures ended { ended p.new result ≡ run (form (levels (sheet_of sheet.now) depth) from (place which)) p.old }
    ensures lent { SameLoans p.old p.new }
{
    match which {
        Form::OpenParen | Form::OpenBracket | Form::Return => group(p, sheet, depth, from, which),
        Form::Ident => ident(p, sheet),
        Form::OpenBrace => brace(p, sheet, depth, from),
        Form::Fn | Form::VBar | Form::Do => anon(p, sheet, depth, from, which),
        Form::If => if_expr(p, sheet, depth, from),
        Form::Match => match_expr(p, sheet, depth, from),
        Form::Loop | Form::While | Form::For => loops(p, sheet, depth, from, which),
        Form::Break | Form::Continue => leaf_of(p, sheet, from, which),
    }
}

// An expression in parentheses, a list, and `return` with its argument.
#[cycle(exprs)]
fn group(
    p: &mut Parser<'_>,
    sheet: &Sheet<'_>,
    depth: u32,
    from: u32,
    which: Form,
) -> Result<u32, Stop>
    ensures ended { ended p.new result ≡ run (group (levels (sheet_of sheet.now) depth) from (place which)) p.old }
    ensures lent { SameLoans p.old p.new }
{
    p.bump(sheet)?;
    match which {
        Form::OpenBracket => {
            let listed = items(p, sheet, depth, ItemRule::Elements, NO_KIDS);
            list_record(p, from, nodes::LIST, listed)
        }
        Form::Return => {
            let link = expr(p, sheet, depth, true)?;
            close(p, nodes::RETURN, from, 0, 0, 0, link)
        }
        _ => {
            let link = expr(p, sheet, depth, true)?;
            p.expect(sheet, kinds::CLOSE_PAREN)?;
            close(p, nodes::PAREN, from, 0, 0, 0, link)
        }
    }
}

// A function without a name: `fn`, a closure or `do`.
#[cycle(exprs)]
fn anon(
    p: &mut Parser<'_>,
    sheet: &Sheet<'_>,
    depth: u32,
    from: u32,
    which: Form,
) -> Result<u32, Stop>
    ensures ended { ended p.new result ≡ run (anon (levels (sheet_of sheet.now) depth) from (place which)) p.old }
    ensures lent { SameLoans p.old p.new }
{
    match which {
        Form::VBar => {
            let shut = function(p, sheet, depth, from, true);
            nameless(p, from, shut)
        }
        Form::Fn => {
            p.bump(sheet)?;
            let plain = function(p, sheet, depth, from, false);
            nameless(p, from, plain)
        }
        _ => {
            p.bump(sheet)?;
            let body = block(p, sheet, depth, 0)?;
            let done = close(p, nodes::DO, from, 0, 0, 0, body);
            nameless(p, from, done)
        }
    }
}

// `if` with its test, its block and perhaps `else` with another `if` or a block.
#[cycle(exprs)]
fn if_expr(p: &mut Parser<'_>, sheet: &Sheet<'_>, depth: u32, from: u32) -> Result<u32, Stop>
    ensures ended { ended p.new result ≡ run (if_expr (levels (sheet_of sheet.now) depth) from) p.old }
    ensures lent { SameLoans p.old p.new }
{
    p.bump(sheet)?;
    let kids = expr_and_block(p, sheet, depth, NO_KIDS)?;
    if !p.eat(sheet, kinds::ELSE)? {
        return if_record(p, from, kids, Ok(0));
    }
    if p.check(sheet, kinds::IF)? {
        let next = expr(p, sheet, depth, true);
        return if_record(p, from, kids, next);
    }
    let last = block(p, sheet, depth, nodes::EXPR_BLOCK);
    if_record(p, from, kids, last)
}

// `match` with its value and its cases. An Eol before its closing brace is not taken where there is no case.
#[cycle(exprs)]
fn match_expr(p: &mut Parser<'_>, sheet: &Sheet<'_>, depth: u32, from: u32) -> Result<u32, Stop>
    ensures ended { ended p.new result ≡ run (match_expr (levels (sheet_of sheet.now) depth) from) p.old }
    ensures lent { SameLoans p.old p.new }
{
    p.bump(sheet)?;
    let link = expr(p, sheet, depth, false)?;
    p.expect(sheet, kinds::OPEN_BRACE)?;
    let mut row = Kids {
        first: link,
        last: link,
        count: 0,
    };
    while !p.eat(sheet, kinds::CLOSE_BRACE)? {
        p.eat_eol(sheet)?;
        let one = match_case(p, sheet, depth)?;
        p.eat_eol(sheet)?;
        row = p.add(row, one);
    }
    let flags = flagged(row.count, 0, false, false);
    close(p, nodes::MATCH, from, 0, 0, flags, row.first)
}

// Rust's parse_match_case.
#[cycle(exprs)]
fn match_case(p: &mut Parser<'_>, sheet: &Sheet<'_>, depth: u32) -> Result<u32, Stop>
    ensures ended { ended p.new result ≡ run (match_case (levels (sheet_of sheet.now) depth)) p.old }
    ensures lent { SameLoans p.old p.new }
{
    let from = p.start_range(sheet);
    let row = case_patterns(p, sheet, depth)?;
    p.expect(sheet, kinds::FAT_ARROW)?;
    let link = expr(p, sheet, depth, true)?;
    row_record(p, nodes::MATCH_CASE, from, row, link)
}

// `loop`, `while` and `for`.
#[cycle(exprs)]
fn loops(
    p: &mut Parser<'_>,
    sheet: &Sheet<'_>,
    depth: u32,
    from: u32,
    which: Form,
) -> Result<u32, Stop>
    ensures ended { ended p.new result ≡ run (loops (levels (sheet_of sheet.now) depth) from (place which)) p.old }
    ensures lent { SameLoans p.old p.new }
{
    p.bump(sheet)?;
    match which {
        Form::Loop => {
            let body = block(p, sheet, depth, 0);
            loop_record(p, from, body)
        }
        _ => {
            let names = loop_names_of(p, sheet, which)?;
            let kids = expr_and_block(p, sheet, depth, names)?;
            round_record_of(p, from, which, names.count, kids)
        }
    }
}
