// What `{` opens where an expression may begin, and lists of items by the name of their rule.
ghost use Rattle.std.specs.Prelude.{◌≡◌};
ghost use Rattle.cursor.specs.Answers.{sheet_of, run, ended, SameLoans};
ghost use Rattle.parts.specs.Forms.{item_rule};
ghost use Rattle.rules.specs.Levels.{levels};
ghost use Rattle.rules.specs.Tables.{key, item, items_of, table, brace};

use crate::exprs::{expr, exprs};
use cursor::{Kids, Parser, Sheet, Stop, nodes};
use parts::forms::ItemRule;
use parts::records::{block_record, list_record};
use parts::recovery::undone;
use parts::steps::{items_end_of, lit_key, paren_key};
use std::ops::ControlFlow;
use types::items::{Items, after_item, close, pair};

// `{` where an expression may begin: an empty table, a table whose first key and colon are attempted, or a block.
#[cycle(exprs)]
pub fn brace(p: &mut Parser<'_>, sheet: &Sheet<'_>, depth: u32, from: u32) -> Result<u32, Stop>
    ensures ended { ended p.new result ≡ run (brace (levels (sheet_of sheet.now) depth) from) p.old }
    ensures lent { SameLoans p.old p.new }
{
    p.bump(sheet)?;
    p.eat_eol(sheet)?;
    if p.eat(sheet, kinds::CLOSE_BRACE)? {
        return close(p, nodes::TABLE, from, 0, 0, 0, 0);
    }
    let mark = p.state;
    let inside = p.start_range(sheet);
    match key(p, sheet, depth) {
        Ok(first) => table(p, sheet, depth, from, inside, first),
        Err(stop) => {
            undone(p, mark, stop)?;
            let row = exprs(p, sheet, depth, kinds::CLOSE_BRACE)?;
            block_record(p, inside, nodes::EXPR_BLOCK, from, row)
        }
    }
}

// A table from behind its first key and colon on.
#[cycle(exprs)]
fn table(
    p: &mut Parser<'_>,
    sheet: &Sheet<'_>,
    depth: u32,
    from: u32,
    inside: u32,
    first: u32,
) -> Result<u32, Stop>
    ensures ended { ended p.new result ≡ run (table (levels (sheet_of sheet.now) depth) from inside first) p.old }
    ensures lent { SameLoans p.old p.new }
{
    let value = expr(p, sheet, depth, true)?;
    let link = pair(p, nodes::TABLE_PROPERTY, inside, first, value)?;
    p.eat_eol(sheet)?;
    if p.eat(sheet, kinds::CLOSE_BRACE)? {
        return close(p, nodes::TABLE, from, 0, 0, 1, link);
    }
    p.expect(sheet, kinds::COMMA)?;
    let row = Kids {
        first: link,
        last: link,
        count: 1,
    };
    let listed = items(p, sheet, depth, ItemRule::Properties, row);
    list_record(p, from, nodes::TABLE, listed)
}

// Rust's parse_table_key_and_colon.
#[cycle(exprs)]
fn key(p: &mut Parser<'_>, sheet: &Sheet<'_>, depth: u32) -> Result<u32, Stop>
    ensures ended { ended p.new result ≡ run (key (levels (sheet_of sheet.now) depth)) p.old }
    ensures lent { SameLoans p.old p.new }
{
    let from = p.start_range(sheet);
    if !p.eat(sheet, kinds::OPEN_PAREN)? {
        return lit_key(p, sheet);
    }
    let link = expr(p, sheet, depth, true)?;
    paren_key(p, sheet, from, link)
}

// One item, by its rule; a property is Rust's parse_table_property.
#[cycle(exprs)]
fn item(p: &mut Parser<'_>, sheet: &Sheet<'_>, depth: u32, rule: ItemRule) -> Result<u32, Stop>
    ensures ended { ended p.new result ≡ run (item (levels (sheet_of sheet.now) depth) (item_rule rule)) p.old }
    ensures lent { SameLoans p.old p.new }
{
    match rule {
        ItemRule::Arguments => expr(p, sheet, depth, true),
        ItemRule::Elements => expr(p, sheet, depth, true),
        ItemRule::Properties => {
            let from = p.start_range(sheet);
            let name = key(p, sheet, depth)?;
            let value = expr(p, sheet, depth, true)?;
            pair(p, nodes::TABLE_PROPERTY, from, name, value)
        }
    }
}

// Rust's parse_items_until, for the item rules of expressions. Why it is not one with its twins is said at `pattern_items` of crates/types.
#[cycle(exprs)]
pub fn items(
    p: &mut Parser<'_>,
    sheet: &Sheet<'_>,
    depth: u32,
    rule: ItemRule,
    kids: Kids,
) -> Result<Items, Stop>
    ensures ended { ended p.new result ≡ run (items_of (levels (sheet_of sheet.now) depth) (item_rule rule) kids) p.old }
    ensures lent { SameLoans p.old p.new }
{
    let end = items_end_of(rule);
    p.eat_eol(sheet)?;
    let mut row = kids;
    loop {
        if p.eat(sheet, end)? {
            return Ok(Items {
                kids: row,
                ended: None,
            });
        }
        let link = item(p, sheet, depth, rule)?;
        match after_item(p, sheet, end, row, link)? {
            ControlFlow::Continue(longer) => row = longer,
            ControlFlow::Break(all) => return Ok(Items {
                kids: all,
                ended: None,
            }),
        }
    }
}
