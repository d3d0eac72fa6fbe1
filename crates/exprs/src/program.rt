// A whole sheet.
ghost use Rattle.std.specs.Prelude.{◌≡◌};
ghost use Rattle.cursor.specs.Answers.{sheet_of, run, ended, SameLoans};
ghost use Rattle.rules.specs.Levels.{levels, program};

use crate::exprs::exprs;
use cursor::records::flagged;
use cursor::{Label, Parser, Sheet, Stop, nodes};

// Rust's parse: the statements up to the end of input, and the record of the program, which is its function and its body too. It ends where the
// last token read does, or at its start where no token was read.
pub fn program(p: &mut Parser<'_>, sheet: &Sheet<'_>, depth: u32) -> Result<u32, Stop>
    ensures ended { ended p.new result ≡ run (program (levels (sheet_of sheet.now) depth)) p.old }
    ensures lent { SameLoans p.old p.new }
{
    let from = p.start_range(sheet);
    let row = exprs(p, sheet, depth, kinds::EOF)?;
    let label = Label {
        kind: nodes::PROGRAM,
        start: from,
        end: from.max(p.state.prev),
        one: 0,
        two: 0,
        flags: flagged(row.count, 0, false, false),
    };
    p.append(label, row.first)
}
