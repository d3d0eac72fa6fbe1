// What may stand behind an operand: a call or a member. Most operands have neither, which is told here at once, before the loop over them begins.
ghost use Rattle.std.specs.Prelude.{◌≡◌};
ghost use Rattle.cursor.specs.Checks.{pick};
ghost use Rattle.cursor.specs.Answers.{sheet_of, run, ended, SameRecords};
ghost use Rattle.exprs.specs.Suffix.{is_suffix, suffixes, no_suffix};

use cursor::checks::is_in;
use cursor::{Parser, Sheet, Stop};
use parts::values::Expr;

// The kinds that they begin with, in the order in which they are looked for.
const SUFFIXES: [u8; 6] = [
    kinds::OPEN_PAREN,
    kinds::OPEN_BRACE,
    kinds::QUESTION,
    kinds::OPEN_BRACKET,
    kinds::DOT,
    kinds::DOUBLE_COLON,
];

// The same where no trailing lambda may stand.
const BRACELESS: [u8; 5] = [
    kinds::OPEN_PAREN,
    kinds::QUESTION,
    kinds::OPEN_BRACKET,
    kinds::DOT,
    kinds::DOUBLE_COLON,
];

// Whether a call or a member may begin with this kind.
pub fn is_suffix(kind: u32) -> bool
    ensures { result ≡ is_suffix kind }
{
    is_in(kind, &SUFFIXES)
}

// Looks for all of them; for a brace only where a trailing lambda may stand, by the rule's flag.
fn pick_suffix(p: &mut Parser<'_>, sheet: &Sheet<'_>, lambda: bool) -> Result<usize, Stop>
    ensures ended { ended p.new result ≡ run (pick (sheet_of sheet.now) (suffixes lambda)) p.old }
    ensures lent { SameRecords p.old p.new }
{
    if lambda {
        p.pick(sheet, &SUFFIXES)
    } else {
        p.pick(sheet, &BRACELESS)
    }
}

// An operand behind which none of them stands.
pub fn no_suffix(p: &mut Parser<'_>, sheet: &Sheet<'_>, x: Expr, lambda: bool) -> Result<Expr, Stop>
    ensures ended { ended p.new result ≡ run (no_suffix (sheet_of sheet.now) lambda x) p.old }
    ensures lent { SameRecords p.old p.new }
{
    pick_suffix(p, sheet, lambda)?;
    Ok(x)
}
