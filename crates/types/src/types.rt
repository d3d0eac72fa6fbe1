// Types, typed names, parameters and return types.
ghost use Rattle.std.specs.Prelude.{◌≡◌};
ghost use Rattle.cursor.specs.Answers.{sheet_of, run, ended, SameErrors};
ghost use Rattle.types.specs.ItemRules.{type_rule};
ghost use Rattle.types.specs.Types.{union, type, returns, named, typed_ident, table_ty_pair, table_ty_other, type_item, type_last_item, type_last_kind, type_end, type_items, last_of, type_paren, type_table, type_function, type_atom, atoms, params, closure_params};

use crate::items::{Items, NO_KIDS, add_some, after_item, after_last, close, pair};
use crate::lits::{ident, lit};
use cursor::records::flagged;
use cursor::{Kids, Parser, Refusal, Sheet, Span, Stop, nodes};
use std::ops::ControlFlow;

// The item rules of a list: parameters; a closure's, whose types are atoms; the pairs of a table type; the types of a function type's
// parameters.
#[derive(Clone, Copy)]
pub enum TypeRule {
    TypedIdents,
    AtomTypedIdents,
    TableTyPairs,
    Types,
}

impl TypeRule {
    // The kind that starts the last item of a list.
    fn last_kind(self) -> u8
        ensures { result ≡ type_last_kind (type_rule self) }
    {
        match self {
            TypeRule::TableTyPairs => kinds::OPEN_BRACKET,
            _ => kinds::ELLIPSIS,
        }
    }

    // The kind that ends a list.
    fn end(self) -> u8
        ensures { result ≡ type_end (type_rule self) }
    {
        match self {
            TypeRule::AtomTypedIdents => kinds::V_BAR,
            TypeRule::TableTyPairs => kinds::CLOSE_BRACE,
            _ => kinds::CLOSE_PAREN,
        }
    }
}

// A union: one record over its parts.
#[cycle(types)]
fn union_of(
    p: &mut Parser<'_>,
    sheet: &Sheet<'_>,
    depth: u32,
    from: u32,
    first: u32,
) -> Result<u32, Stop>
    ensures ended { ended p.new result ≡ run (union (sheet_of sheet.now) (atoms (sheet_of sheet.now) depth) from first) p.old }
    ensures lent { SameErrors p.old p.new }
{
    let mut kids = p.add(NO_KIDS, first);
    while p.eat(sheet, kinds::V_BAR)? {
        let link = type_atom(p, sheet, depth)?;
        kids = p.add(kids, link);
    }
    let flags = flagged(kids.count, 0, false, false);
    close(p, nodes::UNION, from, 0, 0, flags, kids.first)
}

// Rust's parse_type. A single part is not wrapped.
#[cycle(types)]
pub fn ty(p: &mut Parser<'_>, sheet: &Sheet<'_>, depth: u32) -> Result<u32, Stop>
    ensures ended { ended p.new result ≡ run (type (sheet_of sheet.now) (atoms (sheet_of sheet.now) depth)) p.old }
    ensures lent { SameErrors p.old p.new }
{
    let from = p.start_range(sheet);
    let first = type_atom(p, sheet, depth)?;
    if !p.check(sheet, kinds::V_BAR)? {
        return Ok(first);
    }
    union_of(p, sheet, depth, from, first)
}

// Rust's parse_returns: the link to the type, 0 where there is none, as a record has it.
#[cycle(types)]
pub fn returns(p: &mut Parser<'_>, sheet: &Sheet<'_>, depth: u32) -> Result<u32, Stop>
    ensures ended { ended p.new result ≡ run (returns (sheet_of sheet.now) (atoms (sheet_of sheet.now) depth)) p.old }
    ensures lent { SameErrors p.old p.new }
{
    if !p.eat(sheet, kinds::ARROW)? {
        return Ok(0);
    }
    ty(p, sheet, depth)
}

// The type of a name: an atom, or any type. The flag is the rule's (`named`), which is one for both.
#[cycle(types)]
fn named_type(p: &mut Parser<'_>, sheet: &Sheet<'_>, depth: u32, atom: bool) -> Result<u32, Stop>
    ensures ended { ended p.new result ≡ run (named (sheet_of sheet.now) (atoms (sheet_of sheet.now) depth) atom) p.old }
    ensures lent { SameErrors p.old p.new }
{
    if atom {
        return type_atom(p, sheet, depth);
    }
    ty(p, sheet, depth)
}

// Rust's parse_typed_ident and, for closures, parse_atom_typed_ident, by a flag as the rule is. Without a type it is its name.
#[cycle(types)]
pub fn typed_ident(
    p: &mut Parser<'_>,
    sheet: &Sheet<'_>,
    depth: u32,
    atom: bool,
) -> Result<u32, Stop>
    ensures ended { ended p.new result ≡ run (typed_ident (sheet_of sheet.now) (named (sheet_of sheet.now) (atoms (sheet_of sheet.now) depth) atom)) p.old }
    ensures lent { SameErrors p.old p.new }
{
    let from = p.start_range(sheet);
    let name = ident(p, sheet)?;
    if !p.eat(sheet, kinds::COLON)? {
        return Ok(name);
    }
    let typed = named_type(p, sheet, depth, atom)?;
    pair(p, nodes::TYPED_IDENT, from, name, typed)
}

// A pair of a table type.
#[cycle(types)]
fn table_ty_pair(p: &mut Parser<'_>, sheet: &Sheet<'_>, depth: u32) -> Result<u32, Stop>
    ensures ended { ended p.new result ≡ run (table_ty_pair (sheet_of sheet.now) (atoms (sheet_of sheet.now) depth)) p.old }
    ensures lent { SameErrors p.old p.new }
{
    let from = p.start_range(sheet);
    let key = ident(p, sheet)?;
    p.expect(sheet, kinds::COLON)?;
    let value = ty(p, sheet, depth)?;
    pair(p, nodes::TABLE_TY_PAIR, from, key, value)
}

// The other pairs of a table type.
#[cycle(types)]
fn table_ty_other(p: &mut Parser<'_>, sheet: &Sheet<'_>, depth: u32) -> Result<u32, Stop>
    ensures ended { ended p.new result ≡ run (table_ty_other (sheet_of sheet.now) (atoms (sheet_of sheet.now) depth)) p.old }
    ensures lent { SameErrors p.old p.new }
{
    let from = p.start_range(sheet);
    p.expect(sheet, kinds::OPEN_BRACKET)?;
    let key = ty(p, sheet, depth)?;
    p.expect(sheet, kinds::CLOSE_BRACKET)?;
    p.expect(sheet, kinds::COLON)?;
    let value = ty(p, sheet, depth)?;
    pair(p, nodes::TABLE_TY_OTHER, from, key, value)
}

// One item, by its rule.
#[cycle(types)]
fn type_item(p: &mut Parser<'_>, sheet: &Sheet<'_>, depth: u32, rule: TypeRule) -> Result<u32, Stop>
    ensures ended { ended p.new result ≡ run (type_item (sheet_of sheet.now) (atoms (sheet_of sheet.now) depth) (type_rule rule)) p.old }
    ensures lent { SameErrors p.old p.new }
{
    match rule {
        TypeRule::TypedIdents => typed_ident(p, sheet, depth, false),
        TypeRule::AtomTypedIdents => typed_ident(p, sheet, depth, true),
        TypeRule::TableTyPairs => table_ty_pair(p, sheet, depth),
        TypeRule::Types => ty(p, sheet, depth),
    }
}

// The last item, by the rule of its list.
#[cycle(types)]
fn type_last_item(
    p: &mut Parser<'_>,
    sheet: &Sheet<'_>,
    depth: u32,
    rule: TypeRule,
) -> Result<u32, Stop>
    ensures ended { ended p.new result ≡ run (type_last_item (sheet_of sheet.now) (atoms (sheet_of sheet.now) depth) (type_rule rule)) p.old }
    ensures lent { SameErrors p.old p.new }
{
    match rule {
        TypeRule::TableTyPairs => table_ty_other(p, sheet, depth),
        _ => {
            p.expect(sheet, kinds::ELLIPSIS)?;
            type_item(p, sheet, depth, rule)
        }
    }
}

// The last item as one more child, which is not counted, and the end of the list.
#[cycle(types)]
fn type_last(
    p: &mut Parser<'_>,
    sheet: &Sheet<'_>,
    depth: u32,
    rule: TypeRule,
    kids: Kids,
) -> Result<Items, Stop>
    ensures ended { ended p.new result ≡ run (last_of (sheet_of sheet.now) (atoms (sheet_of sheet.now) depth) (type_rule rule) kids) p.old }
    ensures lent { SameErrors p.old p.new }
{
    let link = type_last_item(p, sheet, depth, rule)?;
    let longer = p.add(kids, link);
    let items = Items {
        kids: Kids {
            count: kids.count,
            ..longer
        },
        ended: Some(Span { start: 0, end: 0 }),
    };
    after_last(p, sheet, rule.end(), items)
}

// Rust's parse_items_until_with_last, for the item rules of types. patterns.rt says why it is not one function with its twins.
#[cycle(types)]
pub fn type_items_of(
    p: &mut Parser<'_>,
    sheet: &Sheet<'_>,
    depth: u32,
    rule: TypeRule,
    kids: Kids,
) -> Result<Items, Stop>
    ensures ended { ended p.new result ≡ run (type_items (sheet_of sheet.now) (atoms (sheet_of sheet.now) depth) (type_rule rule) kids) p.old }
    ensures lent { SameErrors p.old p.new }
{
    let end = rule.end();
    let mut row = kids;
    p.eat_eol(sheet)?;
    loop {
        if p.eat(sheet, end)? {
            return Ok(Items {
                kids: row,
                ended: None,
            });
        }
        if p.check(sheet, rule.last_kind())? {
            return type_last(p, sheet, depth, rule, row);
        }
        let link = type_item(p, sheet, depth, rule)?;
        match after_item(p, sheet, end, row, link)? {
            ControlFlow::Continue(longer) => row = longer,
            ControlFlow::Break(longer) => {
                return Ok(Items {
                    kids: longer,
                    ended: None,
                });
            }
        }
    }
}

// The same by the item rule's number, whatever it is: past the last one a list is one of types.
pub fn type_items(
    p: &mut Parser<'_>,
    sheet: &Sheet<'_>,
    depth: u32,
    rule: u32,
    kids: Kids,
) -> Result<Items, Stop>
    ensures ended { ended p.new result ≡ run (type_items (sheet_of sheet.now) (atoms (sheet_of sheet.now) depth) rule kids) p.old }
    ensures lent { SameErrors p.old p.new }
{
    match rule {
        0 => type_items_of(p, sheet, depth, TypeRule::TypedIdents, kids),
        1 => type_items_of(p, sheet, depth, TypeRule::AtomTypedIdents, kids),
        2 => type_items_of(p, sheet, depth, TypeRule::TableTyPairs, kids),
        _ => type_items_of(p, sheet, depth, TypeRule::Types, kids),
    }
}

// A type in parentheses.
#[cycle(types)]
fn type_paren(p: &mut Parser<'_>, sheet: &Sheet<'_>, depth: u32, from: u32) -> Result<u32, Stop>
    ensures ended { ended p.new result ≡ run (type_paren (sheet_of sheet.now) (atoms (sheet_of sheet.now) depth) from) p.old }
    ensures lent { SameErrors p.old p.new }
{
    p.bump(sheet)?;
    let link = ty(p, sheet, depth)?;
    p.expect(sheet, kinds::CLOSE_PAREN)?;
    let kids = p.add(NO_KIDS, link);
    close(p, nodes::TY_PAREN, from, 0, 0, 0, kids.first)
}

// A table type.
#[cycle(types)]
fn type_table(p: &mut Parser<'_>, sheet: &Sheet<'_>, depth: u32, from: u32) -> Result<u32, Stop>
    ensures ended { ended p.new result ≡ run (type_table (sheet_of sheet.now) (atoms (sheet_of sheet.now) depth) from) p.old }
    ensures lent { SameErrors p.old p.new }
{
    p.bump(sheet)?;
    let items = type_items_of(p, sheet, depth, TypeRule::TableTyPairs, NO_KIDS)?;
    let flags = flagged(items.kids.count, 0, items.ended.is_some(), false);
    close(p, nodes::TY_TABLE, from, 0, 0, flags, items.kids.first)
}

// A function type: it has no opening parenthesis.
#[cycle(types)]
fn type_function(p: &mut Parser<'_>, sheet: &Sheet<'_>, depth: u32, from: u32) -> Result<u32, Stop>
    ensures ended { ended p.new result ≡ run (type_function (sheet_of sheet.now) (atoms (sheet_of sheet.now) depth) from) p.old }
    ensures lent { SameErrors p.old p.new }
{
    p.bump(sheet)?;
    let items = type_items_of(p, sheet, depth, TypeRule::Types, NO_KIDS)?;
    let link = returns(p, sheet, depth)?;
    let kids = add_some(p, items.kids, link);
    let flags = flagged(items.kids.count, 0, items.ended.is_some(), 0 < link);
    close(p, nodes::TY_FUNCTION, from, 0, 0, flags, kids.first)
}

// Rust's parse_type_atom. A level is used up on each entry.
#[cycle(types)]
pub fn type_atom(p: &mut Parser<'_>, sheet: &Sheet<'_>, depth: u32) -> Result<u32, Stop>
    ensures ended { ended p.new result ≡ run (atoms (sheet_of sheet.now) depth) p.old }
    ensures lent { SameErrors p.old p.new }
{
    if depth == 0 {
        return Err(Stop::Refused(Refusal::TooDeep));
    }
    let inner = depth - 1;
    let from = p.start_range(sheet);
    let chain = [
        kinds::OPEN_PAREN,
        kinds::IDENT,
        kinds::OPEN_BRACE,
        kinds::FN,
    ];
    match p.pick(sheet, &chain)? {
        0 => type_paren(p, sheet, inner, from),
        1 => ident(p, sheet),
        2 => type_table(p, sheet, inner, from),
        3 => type_function(p, sheet, inner, from),
        _ => lit(p, sheet),
    }
}

// Rust's parse_params: the names join the row of their owner.
pub fn params(p: &mut Parser<'_>, sheet: &Sheet<'_>, depth: u32, kids: Kids) -> Result<Items, Stop>
    ensures ended { ended p.new result ≡ run (params (sheet_of sheet.now) (atoms (sheet_of sheet.now) depth) kids) p.old }
    ensures lent { SameErrors p.old p.new }
{
    p.expect(sheet, kinds::OPEN_PAREN)?;
    type_items_of(p, sheet, depth, TypeRule::TypedIdents, kids)
}

// Rust's parse_closure_params.
pub fn closure_params(
    p: &mut Parser<'_>,
    sheet: &Sheet<'_>,
    depth: u32,
    kids: Kids,
) -> Result<Items, Stop>
    ensures ended { ended p.new result ≡ run (closure_params (sheet_of sheet.now) (atoms (sheet_of sheet.now) depth) kids) p.old }
    ensures lent { SameErrors p.old p.new }
{
    p.expect(sheet, kinds::V_BAR)?;
    type_items_of(p, sheet, depth, TypeRule::AtomTypedIdents, kids)
}
