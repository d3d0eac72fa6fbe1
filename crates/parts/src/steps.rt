// Steps of expressions that read no expression themselves: parameters, a table's keys, the names of a `for`, a case's patterns, what stands behind `is`, `?` and `#`, `break` and `continue`.
ghost use Rattle.std.specs.Prelude.{◌≡◌};
ghost use Rattle.kinds.specs.Number as kind;
ghost use Rattle.cursor.specs.Answers.{sheet_of, run, ended, SameErrors, SameLists, SameRecords};
ghost use Rattle.cursor.specs.Checks.{eat_range};
ghost use Rattle.types.specs.Types.{atoms};
ghost use Rattle.types.specs.Patterns.{patterns};
ghost use Rattle.parts.specs.Answers.{as_turn};
ghost use Rattle.parts.specs.Forms.{place, opens, item_rule};
ghost use Rattle.parts.specs.Steps.{alone, any_params, braced, no_member, pound, meta_end, items_end, operator_of, lit_key, paren_key, leaf, names, loop_names, case_patterns, checked_type, type_check};

use crate::forms::{Form, ItemRule, Opening};
use crate::values::Expr;
use cursor::{Fault, Kids, Label, Parser, Sheet, Span, Stop, nodes};
use std::ops::ControlFlow;
use types::items::{Items, NO_KIDS, close};
use types::lits::{ident, lit};
use types::patterns::pattern;
use types::types::{closure_params, params};

// An error that lists no expected kinds.
pub fn alone(kind: u8, span: Span) -> Fault
    ensures { result ≡ alone kind span }
{
    Fault {
        class: 0,
        found: kind as u32,
        span,
        listed: false,
    }
}

// The parameters of a function or of a closure, by a flag as the rule is.
pub fn any_params(
    p: &mut Parser<'_>,
    sheet: &Sheet<'_>,
    depth: u32,
    closure: bool,
) -> Result<Items, Stop>
    ensures ended { ended p.new result ≡ run (any_params (sheet_of sheet.now) (atoms (sheet_of sheet.now) depth) closure) p.old }
    ensures lent { SameErrors p.old p.new }
{
    if closure {
        closure_params(p, sheet, depth, NO_KIDS)
    } else {
        params(p, sheet, depth, NO_KIDS)
    }
}

// Does a trailing lambda stand here? Where none is allowed, by the rule's flag, nothing is asked.
pub fn braced(p: &mut Parser<'_>, sheet: &Sheet<'_>, lambda: bool) -> Result<bool, Stop>
    ensures ended { ended p.new result ≡ run (braced (sheet_of sheet.now) lambda) p.old }
    ensures lent { SameRecords p.old p.new }
{
    if lambda {
        p.check(sheet, kinds::OPEN_BRACE)
    } else {
        Ok(false)
    }
}

// A `?` that may stand before a member, as a range.
pub fn question(p: &mut Parser<'_>, sheet: &Sheet<'_>) -> Result<Option<Span>, Stop>
    ensures ended { ended p.new result ≡ run (eat_range (sheet_of sheet.now) kind.Question) p.old }
    ensures lent { SameRecords p.old p.new }
{
    p.eat_range(sheet, kinds::QUESTION)
}

// No member stands here: an error after `?`, and otherwise the end of the expression.
pub fn no_member(
    p: &Parser<'_>,
    sheet: &Sheet<'_>,
    x: Expr,
    safe: Option<Span>,
) -> Result<ControlFlow<Expr, Expr>, Stop>
    ensures { ended p.now (as_turn result) ≡ run (no_member (sheet_of sheet.now) safe x) p.now }
{
    if safe.is_some() {
        return Err(p.unexpected(sheet));
    }
    Ok(ControlFlow::Break(x))
}

// A member's opening token, and whether a `#` stands behind it.
pub fn pound(p: &mut Parser<'_>, sheet: &Sheet<'_>) -> Result<bool, Stop>
    ensures ended { ended p.new result ≡ run (pound (sheet_of sheet.now)) p.old }
    ensures lent { SameRecords p.old p.new }
{
    p.bump(sheet)?;
    p.eat(sheet, kinds::POUND)
}

// Behind the `#` of a meta member: the bracket's end, where it is one. It has no property.
pub fn meta_end_of(p: &mut Parser<'_>, sheet: &Sheet<'_>, opening: Opening) -> Result<u32, Stop>
    ensures ended { ended p.new result ≡ run (meta_end (sheet_of sheet.now) (opens opening)) p.old }
    ensures lent { SameRecords p.old p.new }
{
    match opening {
        Opening::Bracket => {
            p.expect(sheet, kinds::CLOSE_BRACKET)?;
            Ok(0)
        }
        Opening::Dot => Ok(0),
        Opening::DoubleColon => Ok(0),
    }
}

// The same by the opening token's place in the chain, whatever number it is: past the chain there is no bracket, and so no end of one.
pub fn meta_end(p: &mut Parser<'_>, sheet: &Sheet<'_>, which: usize) -> Result<u32, Stop>
    ensures ended { ended p.new result ≡ run (meta_end (sheet_of sheet.now) which) p.old }
    ensures lent { SameRecords p.old p.new }
{
    match Opening::at(which) {
        Some(opening) => meta_end_of(p, sheet, opening),
        None => meta_end_of(p, sheet, Opening::Dot),
    }
}

// The kind that ends a list.
pub fn items_end_of(rule: ItemRule) -> u8
    ensures { result ≡ items_end (item_rule rule) }
{
    match rule {
        ItemRule::Arguments => kinds::CLOSE_PAREN,
        ItemRule::Elements => kinds::CLOSE_BRACKET,
        ItemRule::Properties => kinds::CLOSE_BRACE,
    }
}

// The same by the item rule's number, whatever it is: past the last one a list ends as a table's does.
pub fn items_end(rule: u32) -> u8
    ensures { result ≡ items_end rule }
{
    match rule {
        0 => items_end_of(ItemRule::Arguments),
        1 => items_end_of(ItemRule::Elements),
        _ => items_end_of(ItemRule::Properties),
    }
}

// The operator of a compound assignment as its record keeps it, by the kind of its sign.
pub fn operator_of(sign: u8) -> u32
    ensures { result ≡ operator_of sign }
{
    match kinds::assign_op(sign as u32) {
        Some(op) => kinds::op_kind(op) as u32,
        None => 0,
    }
}

// A literal as a table's key, and its colon.
pub fn lit_key(p: &mut Parser<'_>, sheet: &Sheet<'_>) -> Result<u32, Stop>
    ensures ended { ended p.new result ≡ run (lit_key (sheet_of sheet.now)) p.old }
    ensures lent { SameErrors p.old p.new }
{
    let link = lit(p, sheet)?;
    p.expect(sheet, kinds::COLON)?;
    Ok(link)
}

// An expression in parentheses as a table's key, from behind the expression on, and its colon: the record ends before the colon and is
// built behind it.
pub fn paren_key(p: &mut Parser<'_>, sheet: &Sheet<'_>, from: u32, link: u32) -> Result<u32, Stop>
    ensures ended { ended p.new result ≡ run (paren_key (sheet_of sheet.now) from link) p.old }
    ensures lent { SameErrors p.old p.new }
{
    p.expect(sheet, kinds::CLOSE_PAREN)?;
    let label = Label {
        kind: nodes::PAREN,
        start: from,
        end: p.state.prev,
        one: 0,
        two: 0,
        flags: 0,
    };
    p.expect(sheet, kinds::COLON)?;
    p.append(label, link)
}

// `break` and `continue`.
pub fn leaf_of(p: &mut Parser<'_>, sheet: &Sheet<'_>, from: u32, form: Form) -> Result<u32, Stop>
    ensures ended { ended p.new result ≡ run (leaf (sheet_of sheet.now) from (place form)) p.old }
    ensures lent { SameLists p.old p.new }
{
    p.bump(sheet)?;
    match form {
        Form::Break => close(p, nodes::BREAK, from, 0, 0, 0, 0),
        _ => close(p, nodes::CONTINUE, from, 0, 0, 0, 0),
    }
}

// The same by the form's place in the chain, whatever number it is: past the chain it is no `break`.
pub fn leaf(p: &mut Parser<'_>, sheet: &Sheet<'_>, from: u32, which: usize) -> Result<u32, Stop>
    ensures ended { ended p.new result ≡ run (leaf (sheet_of sheet.now) from which) p.old }
    ensures lent { SameLists p.old p.new }
{
    match Form::at(which) {
        Some(form) => leaf_of(p, sheet, from, form),
        None => leaf_of(p, sheet, from, Form::Continue),
    }
}

// The names of a `for` and its `in`, by the rule of parse_items; a `while` has none.
pub fn loop_names_of(p: &mut Parser<'_>, sheet: &Sheet<'_>, form: Form) -> Result<Kids, Stop>
    ensures ended { ended p.new result ≡ run (loop_names (sheet_of sheet.now) (place form)) p.old }
    ensures lent { SameErrors p.old p.new }
{
    match form {
        Form::While => Ok(NO_KIDS),
        _ => {
            let kids = names(p, sheet)?;
            p.expect(sheet, kinds::IN)?;
            Ok(kids)
        }
    }
}

// The same by the form's place in the chain, whatever number it is: past the chain it is no `while`, and names are read.
pub fn loop_names(p: &mut Parser<'_>, sheet: &Sheet<'_>, which: usize) -> Result<Kids, Stop>
    ensures ended { ended p.new result ≡ run (loop_names (sheet_of sheet.now) which) p.old }
    ensures lent { SameErrors p.old p.new }
{
    match Form::at(which) {
        Some(form) => loop_names_of(p, sheet, form),
        None => loop_names_of(p, sheet, Form::For),
    }
}

// Rust's parse_items, for names. `case_patterns` is its twin. One loop for both would take the item as a closure, which by a clause of its own
// ends as a rule does, another ghost value, and never goes back: no plainer than the two.
fn names(p: &mut Parser<'_>, sheet: &Sheet<'_>) -> Result<Kids, Stop>
    ensures ended { ended p.new result ≡ run (names (sheet_of sheet.now)) p.old }
    ensures lent { SameErrors p.old p.new }
{
    let mut kids = NO_KIDS;
    loop {
        let link = ident(p, sheet)?;
        kids = p.add(kids, link);
        if !p.eat(sheet, kinds::COMMA)? {
            return Ok(kids);
        }
    }
}

// The patterns of a case, between bars.
pub fn case_patterns(p: &mut Parser<'_>, sheet: &Sheet<'_>, depth: u32) -> Result<Kids, Stop>
    ensures ended { ended p.new result ≡ run (case_patterns (sheet_of sheet.now) (patterns (sheet_of sheet.now) depth)) p.old }
    ensures lent { SameErrors p.old p.new }
{
    let mut kids = NO_KIDS;
    loop {
        let link = pattern(p, sheet, depth)?;
        kids = p.add(kids, link);
        if !p.eat(sheet, kinds::V_BAR)? {
            return Ok(kids);
        }
    }
}

// The type that a token names after `is`: null by its kind, the others by the bytes of their word.
fn checked_type(text: &[u8], kind: u32, span: Span) -> Option<u8>
    ensures { result ≡ checked_type text.now kind span }
{
    if kind == kinds::NULL as u32 {
        return Some(0);
    }
    if kind != kinds::IDENT as u32 {
        return None;
    }
    let word = kinds::type_word(text, span.start, span.end)?;
    Some(kinds::value_type_number(word))
}

// Behind `is`: one token that names a type, and the record over what stands before it.
pub fn type_check(
    p: &mut Parser<'_>,
    sheet: &Sheet<'_>,
    from: u32,
    x: Expr,
) -> Result<ControlFlow<Expr, Expr>, Stop>
    ensures ended { ended p.new (as_turn result) ≡ run (type_check (sheet_of sheet.now) from x) p.old }
    ensures lent { SameLists p.old p.new }
{
    let Some(span) = p.current_range(sheet) else {
        return Err(p.unexpected(sheet));
    };
    let Some(number) = checked_type(sheet.text, p.current_kind(sheet), span) else {
        return Err(p.unexpected(sheet));
    };
    p.bump(sheet)?;
    let link = close(
        p,
        nodes::TYPE_CHECK,
        from,
        number as u32,
        span.start,
        0,
        x.link(),
    )?;
    Ok(ControlFlow::Continue(Expr::Other(link)))
}
