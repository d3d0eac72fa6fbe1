// The statement `import`.
ghost use Rattle.std.specs.Prelude.{◌≡◌, false};
ghost use Rattle.cursor.specs.Answers.{sheet_of, run, ended, SameErrors};
ghost use Rattle.parts.specs.Answers.{on_path, along};
ghost use Rattle.parts.specs.Imports.{imported, import_item, import_items, import_end, import_tail, path_turn, import_stmt};

use cursor::records::flagged;
use cursor::{Kids, Parser, Sheet, Stop, nodes};
use std::ops::ControlFlow;
use types::items::{Items, NO_KIDS, after_item, close};
use types::lits::ident;

// What an import names: the row of its path's names, then the alias or the items; how many names and items there are; and which form it
// has: simple, simple with an alias (one), nested (two) or glob (both), as the record's two flags say it to C.
#[derive(Clone, Copy)]
pub struct Imported {
    pub kids: Kids,
    pub names: u32,
    pub items: u32,
    pub one: bool,
    pub two: bool,
}

// An item of a nested import: a name, perhaps with an alias.
fn import_item(p: &mut Parser<'_>, sheet: &Sheet<'_>) -> Result<u32, Stop>
    ensures ended { ended p.new result ≡ run (import_item (sheet_of sheet.now)) p.old }
    ensures lent { SameErrors p.old p.new }
{
    let from = p.start_range(sheet);
    let name = ident(p, sheet)?;
    if !p.eat(sheet, kinds::AS)? {
        return close(p, nodes::IMPORT_ITEM, from, 0, 0, 0, name);
    }
    let alias = ident(p, sheet)?;
    let one = p.add(NO_KIDS, name);
    let two = p.add(one, alias);
    let flags = flagged(0, 0, true, false);
    close(p, nodes::IMPORT_ITEM, from, 0, 0, flags, two.first)
}

// Rust's parse_items_until, for the items of an import. Why it is not one function with its twins is said at `pattern_items` of crates/types.
fn import_items(p: &mut Parser<'_>, sheet: &Sheet<'_>, kids: Kids) -> Result<Items, Stop>
    ensures ended { ended p.new result ≡ run (import_items (sheet_of sheet.now) kids) p.old }
    ensures lent { SameErrors p.old p.new }
{
    p.eat_eol(sheet)?;
    let mut row = kids;
    loop {
        if p.eat(sheet, kinds::CLOSE_BRACE)? {
            return Ok(Items {
                kids: row,
                ended: None,
            });
        }
        let link = import_item(p, sheet)?;
        match after_item(p, sheet, kinds::CLOSE_BRACE, row, link)? {
            ControlFlow::Continue(longer) => {
                row = longer;
            }
            ControlFlow::Break(all) => {
                return Ok(Items {
                    kids: all,
                    ended: None,
                });
            }
        }
    }
}

// A path that ends in a name: a simple import, which needs Eol or `as` behind it.
fn import_end(
    p: &mut Parser<'_>,
    sheet: &Sheet<'_>,
    kids: Kids,
) -> Result<ControlFlow<Imported, Kids>, Stop>
    ensures ended { ended p.new (along result) ≡ run (import_end (sheet_of sheet.now) kids) p.old }
    ensures lent { SameErrors p.old p.new }
{
    let names = kids.count;
    let chain = [kinds::EOL, kinds::AS];
    match p.pick(sheet, &chain)? {
        0 => Ok(ControlFlow::Break(simple(kids, names, false))),
        1 => {
            p.bump(sheet)?;
            let alias = ident(p, sheet)?;
            let longer = p.add(kids, alias);
            Ok(ControlFlow::Break(simple(longer, names, true)))
        }
        _ => Err(p.unexpected(sheet)),
    }
}

fn simple(kids: Kids, names: u32, alias: bool) -> Imported
    ensures { result ≡ imported kids names 0 alias false }
{
    Imported {
        kids,
        names,
        items: 0,
        one: alias,
        two: false,
    }
}

// A path that ends in `::`: items in braces, or `*`.
fn import_tail(
    p: &mut Parser<'_>,
    sheet: &Sheet<'_>,
    kids: Kids,
) -> Result<ControlFlow<Imported, Kids>, Stop>
    ensures ended { ended p.new (along result) ≡ run (import_tail (sheet_of sheet.now) kids) p.old }
    ensures lent { SameErrors p.old p.new }
{
    let names = kids.count;
    let chain = [kinds::OPEN_BRACE, kinds::MUL];
    match p.pick(sheet, &chain)? {
        0 => {
            p.bump(sheet)?;
            let row = Kids { count: 0, ..kids };
            let items = import_items(p, sheet, row)?;
            Ok(ControlFlow::Break(Imported {
                kids: items.kids,
                names,
                items: items.kids.count,
                one: false,
                two: true,
            }))
        }
        1 => {
            p.bump(sheet)?;
            Ok(ControlFlow::Break(Imported {
                kids,
                names,
                items: 0,
                one: true,
                two: true,
            }))
        }
        _ => Err(p.unexpected(sheet)),
    }
}

// One name of the path, and what follows it.
fn path(
    p: &mut Parser<'_>,
    sheet: &Sheet<'_>,
    kids: Kids,
) -> Result<ControlFlow<Imported, Kids>, Stop>
    ensures ended { ended p.new (along result) ≡ run (path_turn (sheet_of sheet.now) (on_path kids)) p.old }
    ensures lent { SameErrors p.old p.new }
{
    let name = ident(p, sheet)?;
    let longer = p.add(kids, name);
    if !p.eat(sheet, kinds::DOUBLE_COLON)? {
        return import_end(p, sheet, longer);
    }
    if p.check(sheet, kinds::IDENT)? {
        return Ok(ControlFlow::Continue(longer));
    }
    import_tail(p, sheet, longer)
}

// The statement `import`, which stands here.
pub fn import_stmt(p: &mut Parser<'_>, sheet: &Sheet<'_>, from: u32) -> Result<u32, Stop>
    ensures ended { ended p.new result ≡ run (import_stmt (sheet_of sheet.now) from) p.old }
    ensures lent { SameErrors p.old p.new }
{
    p.bump(sheet)?;
    let mut kids = NO_KIDS;
    loop {
        match path(p, sheet, kids)? {
            ControlFlow::Continue(longer) => {
                kids = longer;
            }
            ControlFlow::Break(all) => {
                let flags = flagged(all.names, all.items, all.one, all.two);
                return close(p, nodes::IMPORT, from, 0, 0, flags, all.kids.first);
            }
        }
    }
}
