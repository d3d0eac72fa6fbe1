// Undone attempts, and what follows a statement, good or bad.
ghost use Rattle.std.specs.Prelude.{◌≡◌, OnErr};
ghost use Rattle.cursor.specs.Answers.{sheet_of, run, ended, stop_of, SameBuffers, SameLoans, SameNodes, SameRecords};
ghost use Rattle.parts.specs.Answers.{as_turn};
ghost use Rattle.parts.specs.Recovery.{undone, skip, recovering, line_end, after_stmt};

use cursor::{Kids, Parser, Sheet, State, Stop};
use std::ops::ControlFlow;
use types::items::add_some;

// A failed attempt is undone; a refusal ends the whole reading.
pub fn undone(p: &mut Parser<'_>, mark: State, stop: Stop) -> Result<(), Stop>
    ensures ended { ended p.new result ≡ undone mark (stop_of p.old stop) }
    ensures lent { SameBuffers p.old p.new }
    ensures stays { OnErr result (p.new.state ≡ p.old.state) }
{
    match stop {
        Stop::Fault(_) => {
            p.rewind(mark);
            Ok(())
        }
        Stop::Refused(_) => Err(stop),
    }
}

// Past all tokens up to Eol, Eof or the end of the statements.
fn skip(p: &mut Parser<'_>, sheet: &Sheet<'_>, end: u8) -> Result<(), Stop>
    ensures ended { ended p.new result ≡ run (skip (sheet_of sheet.now) end) p.old }
    ensures lent { SameRecords p.old p.new }
{
    let ends = [kinds::EOL, kinds::EOF, end];
    loop {
        if p.pick(sheet, &ends)? < ends.len() {
            return Ok(());
        }
        p.bump(sheet)?;
    }
}

// A statement as it was read; one that failed is logged, gives its node records back, and what is left of it is skipped.
pub fn recovered(
    p: &mut Parser<'_>,
    sheet: &Sheet<'_>,
    mark: State,
    end: u8,
    said: Result<u32, Stop>,
) -> Result<u32, Stop>
    ensures ended { ended p.new result ≡ recovering (sheet_of sheet.now) end mark (ended p.old said) }
    ensures lent { SameNodes p.old p.new }
{
    match said {
        Ok(_) => said,
        Err(Stop::Refused(_)) => said,
        Err(Stop::Fault(fault)) => {
            p.state.nodes = mark.nodes;
            p.log_error(fault)?;
            skip(p, sheet, end)?;
            Ok(0)
        }
    }
}

// The end of a line; where it is missing that is logged, and nothing is skipped.
fn line_end(p: &mut Parser<'_>, sheet: &Sheet<'_>) -> Result<(), Stop>
    ensures ended { ended p.new result ≡ run (line_end (sheet_of sheet.now)) p.old }
    ensures lent { SameNodes p.old p.new }
{
    let built = p.state.nodes;
    let said = p.expect(sheet, kinds::EOL);
    match said {
        Ok(_) => said,
        Err(Stop::Refused(_)) => said,
        Err(Stop::Fault(fault)) => {
            p.state.nodes = built;
            p.log_error(fault)
        }
    }
}

// After a statement: the end of the statements, the end of input, which is logged, or a line's end. The statement joins its row last, when
// nothing can fail any more; one that failed has no link.
pub fn after_stmt(
    p: &mut Parser<'_>,
    sheet: &Sheet<'_>,
    end: u8,
    kids: Kids,
    link: u32,
) -> Result<ControlFlow<Kids, Kids>, Stop>
    ensures ended { ended p.new (as_turn result) ≡ run (after_stmt (sheet_of sheet.now) end kids link) p.old }
    ensures lent { SameLoans p.old p.new }
{
    if p.eat(sheet, end)? {
        return Ok(ControlFlow::Break(add_some(p, kids, link)));
    }
    if p.check(sheet, kinds::EOF)? {
        let fault = p.unexpected_at(sheet);
        p.log_error(fault)?;
        return Ok(ControlFlow::Break(add_some(p, kids, link)));
    }
    line_end(p, sheet)?;
    p.eat_eol(sheet)?;
    Ok(ControlFlow::Continue(add_some(p, kids, link)))
}
