// What a list of items answers, and the small steps that rules share.
ghost use Rattle.std.specs.Prelude.{◌≡◌, Ok};
ghost use Rattle.cursor.specs.Answers.{sheet_of, run, ended, turned, SameErrors, SameLists, SameRecords};
ghost use Rattle.types.specs.Items.{close, pair, add_some, so, after_item, after_last};

use cursor::{Kids, Label, Parser, Sheet, Span, Stop};
use std::ops::ControlFlow;

// The row of the items, which are counted, with a last item as one more child that is not counted, or as a bare range.
#[derive(Clone, Copy)]
pub struct Items {
    pub kids: Kids,
    pub ended: Option<Span>,
}

// A row with no child yet.
pub const NO_KIDS: Kids = Kids {
    first: 0,
    last: 0,
    count: 0,
};

// The record of a value that ends here.
pub fn close(
    p: &mut Parser<'_>,
    kind: u32,
    from: u32,
    one: u32,
    two: u32,
    flags: u32,
    first: u32,
) -> Result<u32, Stop>
    ensures ended { ended p.new result ≡ run (close kind from one two flags first) p.old }
    ensures lent { SameLists p.old p.new }
{
    let label = Label {
        kind,
        start: from,
        end: p.state.prev,
        one,
        two,
        flags,
    };
    p.append(label, first)
}

// A record over two children.
pub fn pair(p: &mut Parser<'_>, kind: u32, from: u32, a: u32, b: u32) -> Result<u32, Stop>
    ensures ended { ended p.new result ≡ run (pair kind from a b) p.old }
    ensures lent { SameLists p.old p.new }
{
    let one = p.add(NO_KIDS, a);
    let two = p.add(one, b);
    close(p, kind, from, 0, 0, 0, two.first)
}

// One more child, where there is one.
pub fn add_some(p: &mut Parser<'_>, kids: Kids, link: u32) -> Kids
    ensures ended { ended p.new (Ok result) ≡ run (add_some kids link) p.old }
    ensures lent { SameLists p.old p.new }
{
    if link == 0 {
        return kids;
    }
    p.add(kids, link)
}

// After an item: it joins the row; then Eols, and the end or a comma and Eols. Whether the list goes on, and its row.
pub fn after_item(
    p: &mut Parser<'_>,
    sheet: &Sheet<'_>,
    end: u8,
    kids: Kids,
    link: u32,
) -> Result<ControlFlow<Kids, Kids>, Stop>
    ensures ended { ended p.new (turned so so result) ≡ run (after_item (sheet_of sheet.now) end kids link) p.old }
    ensures lent { SameErrors p.old p.new }
{
    let longer = p.add(kids, link);
    p.eat_eol(sheet)?;
    if p.eat(sheet, end)? {
        return Ok(ControlFlow::Break(longer));
    }
    p.expect(sheet, kinds::COMMA)?;
    p.eat_eol(sheet)?;
    Ok(ControlFlow::Continue(longer))
}

// After the last item: Eols and the end.
pub fn after_last(
    p: &mut Parser<'_>,
    sheet: &Sheet<'_>,
    end: u8,
    items: Items,
) -> Result<Items, Stop>
    ensures ended { ended p.new result ≡ run (after_last (sheet_of sheet.now) end items) p.old }
    ensures lent { SameRecords p.old p.new }
{
    p.eat_eol(sheet)?;
    p.expect(sheet, end)?;
    Ok(items)
}
