// Statements and functions.
ghost use Rattle.std.specs.Prelude.{◌≡◌};
ghost use Rattle.cursor.specs.Answers.{sheet_of, run, ended, SameLoans};
ghost use Rattle.rules.specs.Levels.{levels};
ghost use Rattle.rules.specs.Functions.{function, named_function};
ghost use Rattle.rules.specs.Statements.{glo, plain, stmt};

use crate::assignments::{assign, right};
use crate::exprs::block;
use cursor::{Parser, Sheet, Span, Stop, nodes};
use parts::effects::effect_stmt;
use parts::imports::import_stmt;
use parts::records::{fn_record, function_record};
use parts::recovery::undone;
use parts::steps::any_params;
use types::lits::ident;
use types::types::{returns, typed_ident};

// Rust's parse_stmt. A statement at `fn` is attempted as a named function, then read as any other.
#[cycle(exprs)]
pub fn stmt(p: &mut Parser<'_>, sheet: &Sheet<'_>, depth: u32) -> Result<u32, Stop>
    ensures ended { ended p.new result ≡ run (stmt (levels (sheet_of sheet.now) depth)) p.old }
    ensures lent { SameLoans p.old p.new }
{
    if p.check(sheet, kinds::FN)? {
        let mark = p.state;
        let from = p.start_range(sheet);
        match named_function(p, sheet, depth, from, None) {
            Ok(link) => return Ok(link),
            Err(stop) => undone(p, mark, stop)?,
        }
    }
    plain(p, sheet, depth)
}

// A statement that is no named function.
#[cycle(exprs)]
fn plain(p: &mut Parser<'_>, sheet: &Sheet<'_>, depth: u32) -> Result<u32, Stop>
    ensures ended { ended p.new result ≡ run (plain (levels (sheet_of sheet.now) depth)) p.old }
    ensures lent { SameLoans p.old p.new }
{
    let from = p.start_range(sheet);
    match p.pick(sheet, &[kinds::IMPORT, kinds::EFFECT, kinds::GLO])? {
        0 => import_stmt(p, sheet, from),
        1 => effect_stmt(p, sheet, depth, from, None),
        2 => glo(p, sheet, depth, from),
        _ => assign(p, sheet, depth, from),
    }
}

// `glo`: a function, an effect, or an assignment to a name.
#[cycle(exprs)]
fn glo(p: &mut Parser<'_>, sheet: &Sheet<'_>, depth: u32, from: u32) -> Result<u32, Stop>
    ensures ended { ended p.new result ≡ run (glo (levels (sheet_of sheet.now) depth) from) p.old }
    ensures lent { SameLoans p.old p.new }
{
    let here = p.current_range(sheet);
    p.bump(sheet)?;
    match p.pick(sheet, &[kinds::FN, kinds::EFFECT])? {
        0 => named_function(p, sheet, depth, from, here),
        1 => effect_stmt(p, sheet, depth, from, here),
        _ => {
            let name = typed_ident(p, sheet, depth, false)?;
            p.expect(sheet, kinds::ASSIGN)?;
            right(p, sheet, depth, from, nodes::GLO_ASSIGN, 0, name)
        }
    }
}

// Rust's parse_function_stmt, also after `glo`.
#[cycle(exprs)]
fn named_function(
    p: &mut Parser<'_>,
    sheet: &Sheet<'_>,
    depth: u32,
    from: u32,
    glo: Option<Span>,
) -> Result<u32, Stop>
    ensures ended { ended p.new result ≡ run (named_function (levels (sheet_of sheet.now) depth) from glo) p.old }
    ensures lent { SameLoans p.old p.new }
{
    p.expect(sheet, kinds::FN)?;
    let name = ident(p, sheet)?;
    let link = function(p, sheet, depth, from, false)?;
    fn_record(p, from, glo, name, link)
}

// Rust's parse_function, and the same of a closure, by a flag as the rule is.
#[cycle(exprs)]
pub fn function(
    p: &mut Parser<'_>,
    sheet: &Sheet<'_>,
    depth: u32,
    from: u32,
    closure: bool,
) -> Result<u32, Stop>
    ensures ended { ended p.new result ≡ run (function (levels (sheet_of sheet.now) depth) from closure) p.old }
    ensures lent { SameLoans p.old p.new }
{
    let items = any_params(p, sheet, depth, closure)?;
    let link = returns(p, sheet, depth)?;
    let body = block(p, sheet, depth, 0)?;
    function_record(p, from, closure, items, link, body)
}
