// Literals and names.
ghost use Rattle.std.specs.Prelude.{◌≡◌};
ghost use Rattle.cursor.specs.Answers.{sheet_of, run, ended, SameErrors, SameLists};
ghost use Rattle.types.specs.Lits.{bits_of, leaf_label, int_literal, literal, lit, ident};

use cursor::{Fault, Label, Parser, Sheet, Span, Stop, nodes};
use ints::{Int, Sign};

// What a token is as a literal: the label of its record, a faulty integer, or no literal at all. Three ends, each met otherwise: an Option of a Result is no
// plainer.
#[derive(Clone, Copy)]
pub enum Literal {
    Value(Label),
    Faulty(u8),
    Nothing,
}

// An i64 as 64 bits, two's complement.
fn bits(int: Int) -> u64
    ensures { result ≡ bits_of int.sign int.magnitude }
{
    match int.sign {
        Sign::Absent | Sign::Plus => int.magnitude,
        Sign::Minus => int.magnitude.wrapping_neg(),
    }
}

// A record with no children and nothing but its range, and perhaps a value in its flags.
fn leaf(kind: u32, span: Span, flags: u32) -> Literal
    ensures { result ≡ Literal.Value (leaf_label kind span flags) }
{
    Literal::Value(Label {
        kind,
        start: span.start,
        end: span.end,
        one: 0,
        two: 0,
        flags,
    })
}

fn int(text: &[u8], span: Span) -> Literal
    ensures { result ≡ int_literal text.now span }
{
    match ints::int_value(text, span.start, span.end) {
        Ok(int) => {
            let value = bits(int);
            Literal::Value(Label {
                kind: nodes::INT,
                start: span.start,
                end: span.end,
                one: (value % 0x1_0000_0000) as u32,
                two: (value / 0x1_0000_0000) as u32,
                flags: 0,
            })
        }
        Err(fault) => Literal::Faulty(ints::fault_number(fault)),
    }
}

// The token's literal, by its kind. A row of tests, since a kind is a word of the caller's list and the constants are bytes: a `match` after a
// conversion that can fail is no plainer.
pub fn literal_of(text: &[u8], kind: u32, span: Span) -> Literal
    ensures { result ≡ literal text.now kind span }
{
    if kind == kinds::INT as u32 {
        return int(text, span);
    }
    if kind == kinds::FLOAT as u32 {
        return leaf(nodes::FLOAT, span, 0);
    }
    if kind == kinds::STR as u32 {
        return leaf(nodes::STR, span, 0);
    }
    if kind == kinds::RAW_STR as u32 {
        return leaf(nodes::STR, span, 1);
    }
    if kind == kinds::BYTE_STR as u32 {
        return leaf(nodes::BYTES, span, 0);
    }
    if kind == kinds::NULL as u32 {
        return leaf(nodes::NULL, span, 0);
    }
    if kind == kinds::TRUE as u32 {
        return leaf(nodes::BOOL, span, 1);
    }
    if kind == kinds::FALSE as u32 {
        return leaf(nodes::BOOL, span, 0);
    }
    Literal::Nothing
}

// Rust's parse_lit.
pub fn lit(p: &mut Parser<'_>, sheet: &Sheet<'_>) -> Result<u32, Stop>
    ensures ended { ended p.new result ≡ run (lit (sheet_of sheet.now)) p.old }
    ensures lent { SameLists p.old p.new }
{
    let Some(span) = p.current_range(sheet) else {
        return Err(p.unexpected(sheet));
    };
    let label = match literal_of(sheet.text, p.current_kind(sheet), span) {
        Literal::Value(label) => label,
        Literal::Faulty(number) => {
            return Err(Stop::Fault(Fault {
                class: 1,
                found: number as u32,
                span,
                listed: false,
            }));
        }
        Literal::Nothing => return Err(p.unexpected(sheet)),
    };
    p.bump(sheet)?;
    p.append(label, 0)
}

// Rust's parse_ident.
pub fn ident(p: &mut Parser<'_>, sheet: &Sheet<'_>) -> Result<u32, Stop>
    ensures ended { ended p.new result ≡ run (ident (sheet_of sheet.now)) p.old }
    ensures lent { SameErrors p.old p.new }
{
    let Some(span) = p.current_range(sheet) else {
        return Err(p.unexpected(sheet));
    };
    p.expect(sheet, kinds::IDENT)?;
    let label = Label {
        kind: nodes::IDENT,
        start: span.start,
        end: span.end,
        one: 0,
        two: 0,
        flags: 0,
    };
    p.append(label, 0)
}
