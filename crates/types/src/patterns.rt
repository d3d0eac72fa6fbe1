// Patterns.
ghost use Rattle.std.specs.Prelude.{◌≡◌};
ghost use Rattle.cursor.specs.Answers.{sheet_of, run, ended, SameErrors, SameRecords};
ghost use Rattle.types.specs.ItemRules.{pattern_rule};
ghost use Rattle.types.specs.Patterns.{span_of, pattern_end, pattern_ended, table_pattern_pair, pattern_item, pattern_items, pattern_row, patterns};

use crate::items::{Items, NO_KIDS, after_item, after_last, close, pair};
use crate::lits::{ident, lit};
use cursor::records::flagged;
use cursor::{Kids, Parser, Refusal, Sheet, Span, Stop, nodes};
use std::ops::ControlFlow;

// The item rules of a list: the pairs of a table pattern, the patterns of a list pattern.
#[derive(Clone, Copy)]
pub enum PatternRule {
    Pairs,
    Patterns,
}

// A range, or the empty one at 0 where there is none.
pub fn span_of(range: Option<Span>) -> Span
    ensures { result ≡ span_of range }
{
    range.unwrap_or(Span { start: 0, end: 0 })
}

impl PatternRule {
    // The kind that ends a list.
    fn end(self) -> u8
        ensures { result ≡ pattern_end (pattern_rule self) }
    {
        match self {
            PatternRule::Pairs => kinds::CLOSE_BRACE,
            PatternRule::Patterns => kinds::CLOSE_BRACKET,
        }
    }
}

// The `...` of a pattern, whose range is words of its owner, and the end of the list.
fn pattern_last(
    p: &mut Parser<'_>,
    sheet: &Sheet<'_>,
    rule: PatternRule,
    kids: Kids,
) -> Result<Items, Stop>
    ensures ended { ended p.new result ≡ run (pattern_ended (sheet_of sheet.now) (pattern_rule rule) kids) p.old }
    ensures lent { SameRecords p.old p.new }
{
    let dots = span_of(p.current_range(sheet));
    p.bump(sheet)?;
    let items = Items {
        kids,
        ended: Some(dots),
    };
    after_last(p, sheet, rule.end(), items)
}

// A pair of a table pattern.
#[cycle(patterns)]
fn table_pattern_pair(p: &mut Parser<'_>, sheet: &Sheet<'_>, depth: u32) -> Result<u32, Stop>
    ensures ended { ended p.new result ≡ run (table_pattern_pair (sheet_of sheet.now) (patterns (sheet_of sheet.now) depth)) p.old }
    ensures lent { SameErrors p.old p.new }
{
    let from = p.start_range(sheet);
    let key = lit(p, sheet)?;
    p.expect(sheet, kinds::COLON)?;
    let value = pattern(p, sheet, depth)?;
    pair(p, nodes::TABLE_PATTERN_PAIR, from, key, value)
}

// One item, by its rule.
#[cycle(patterns)]
fn pattern_item(
    p: &mut Parser<'_>,
    sheet: &Sheet<'_>,
    depth: u32,
    rule: PatternRule,
) -> Result<u32, Stop>
    ensures ended { ended p.new result ≡ run (pattern_item (sheet_of sheet.now) (patterns (sheet_of sheet.now) depth) (pattern_rule rule)) p.old }
    ensures lent { SameErrors p.old p.new }
{
    match rule {
        PatternRule::Pairs => table_pattern_pair(p, sheet, depth),
        PatternRule::Patterns => pattern(p, sheet, depth),
    }
}

// Rust's parse_items_until_with_last, for the item rules of patterns. `type_items_of`, parts' `import_items` and exprs' `items` are its
// twins. One loop for the four was tried and is no plainer: by a trait the check makes no proof, since the item's method leads back into
// the cycle of calls, and a closure in a cycle has its clauses written out, so that two of them at each list are longer than the loop.
#[cycle(patterns)]
fn pattern_items(
    p: &mut Parser<'_>,
    sheet: &Sheet<'_>,
    depth: u32,
    rule: PatternRule,
    kids: Kids,
) -> Result<Items, Stop>
    ensures ended { ended p.new result ≡ run (pattern_items (sheet_of sheet.now) (patterns (sheet_of sheet.now) depth) (pattern_rule rule) kids) p.old }
    ensures lent { SameErrors p.old p.new }
{
    let end = rule.end();
    let mut row = kids;
    p.eat_eol(sheet)?;
    loop {
        if p.eat(sheet, end)? {
            return Ok(Items {
                kids: row,
                ended: None,
            });
        }
        if p.check(sheet, kinds::ELLIPSIS)? {
            return pattern_last(p, sheet, rule, row);
        }
        let link = pattern_item(p, sheet, depth, rule)?;
        match after_item(p, sheet, end, row, link)? {
            ControlFlow::Continue(longer) => row = longer,
            ControlFlow::Break(longer) => {
                return Ok(Items {
                    kids: longer,
                    ended: None,
                });
            }
        }
    }
}

// A table or a list pattern.
#[cycle(patterns)]
fn pattern_row(
    p: &mut Parser<'_>,
    sheet: &Sheet<'_>,
    depth: u32,
    from: u32,
    rule: PatternRule,
    kind: u32,
) -> Result<u32, Stop>
    ensures ended { ended p.new result ≡ run (pattern_row (sheet_of sheet.now) (patterns (sheet_of sheet.now) depth) from (pattern_rule rule) kind) p.old }
    ensures lent { SameErrors p.old p.new }
{
    p.bump(sheet)?;
    let items = pattern_items(p, sheet, depth, rule, NO_KIDS)?;
    let dots = span_of(items.ended);
    let flags = flagged(items.kids.count, 0, items.ended.is_some(), false);
    close(p, kind, from, dots.start, dots.end, flags, items.kids.first)
}

// Rust's parse_pattern. A level is used up on each entry.
#[cycle(patterns)]
pub fn pattern(p: &mut Parser<'_>, sheet: &Sheet<'_>, depth: u32) -> Result<u32, Stop>
    ensures ended { ended p.new result ≡ run (patterns (sheet_of sheet.now) depth) p.old }
    ensures lent { SameErrors p.old p.new }
{
    if depth == 0 {
        return Err(Stop::Refused(Refusal::TooDeep));
    }
    let inner = depth - 1;
    let from = p.start_range(sheet);
    let chain = [kinds::IDENT, kinds::OPEN_BRACE, kinds::OPEN_BRACKET];
    match p.pick(sheet, &chain)? {
        0 => ident(p, sheet),
        1 => pattern_row(
            p,
            sheet,
            inner,
            from,
            PatternRule::Pairs,
            nodes::PATTERN_TABLE,
        ),
        2 => pattern_row(
            p,
            sheet,
            inner,
            from,
            PatternRule::Patterns,
            nodes::PATTERN_LIST,
        ),
        _ => lit(p, sheet),
    }
}
