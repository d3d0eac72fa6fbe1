// The records of expressions over what was read of them.
ghost use Rattle.std.specs.Prelude.{◌≡◌, None, Ok};
ghost use Rattle.cursor.specs.Rule.{bind};
ghost use Rattle.cursor.specs.Answers.{run, ended, SameLists};
ghost use Rattle.parts.specs.Answers.{as_turn};
ghost use Rattle.parts.specs.Forms.{place, opens};
ghost use Rattle.parts.specs.Members.{member_at};
ghost use Rattle.parts.specs.Values.{atom_expr, member_of};
ghost use Rattle.cursor.specs.Node as node;
ghost use Rattle.types.specs.Items.{close};
ghost use Rattle.parts.specs.Records.{couple, row_record, list_record, block_record, fn_record, function_record, handler_record, handlers_flagged, if_record, round_record, call_record, member_record};

use crate::forms::{Form, Opening};
use crate::values::{Called, Expr};
use cursor::records::flagged;
use cursor::{Kids, Parser, Span, Stop, nodes};
use std::ops::ControlFlow;
use types::items::{Items, NO_KIDS, add_some, close};
use types::patterns::span_of;

// An atom as an expression, by its form: an Ident is a plain name.
pub fn atom_expr_of(form: Form, link: u32) -> Expr
    ensures { result ≡ atom_expr (place form) link }
{
    match form {
        Form::Ident => Expr::Name(link),
        _ => Expr::Other(link),
    }
}

// The same by the form's place in the chain, whatever number it is: past the chain it is no name.
pub fn atom_expr(which: usize, link: u32) -> Expr
    ensures { result ≡ atom_expr which link }
{
    match Form::at(which) {
        Some(form) => atom_expr_of(form, link),
        None => Expr::Other(link),
    }
}

// A record over two children with one word of its own. Beside `pair` of types, which has none: each is a rule's record by its own name.
pub fn couple(
    p: &mut Parser<'_>,
    kind: u32,
    from: u32,
    word: u32,
    a: u32,
    b: u32,
) -> Result<u32, Stop>
    ensures ended { ended p.new result ≡ run (couple kind from word a b) p.old }
    ensures lent { SameLists p.old p.new }
{
    let one = p.add(NO_KIDS, a);
    let two = p.add(one, b);
    close(p, kind, from, word, 0, 0, two.first)
}

// A record over a counted row and one more child.
pub fn row_record(
    p: &mut Parser<'_>,
    kind: u32,
    from: u32,
    kids: Kids,
    link: u32,
) -> Result<u32, Stop>
    ensures ended { ended p.new result ≡ run (row_record kind from kids link) p.old }
    ensures lent { SameLists p.old p.new }
{
    let flags = flagged(kids.count, 0, false, false);
    let all = p.add(kids, link);
    close(p, kind, from, 0, 0, flags, all.first)
}

// A record over the items of a list, once they are read. Like `nameless`, `if_record` and `loop_record` it takes a failed reading too, on which wrong
// answers are ruled out (crates/ruled_out).
pub fn list_record(
    p: &mut Parser<'_>,
    from: u32,
    kind: u32,
    listed: Result<Items, Stop>,
) -> Result<u32, Stop>
    ensures ended { ended p.new result ≡ bind (ended p.old listed) (λ s w i. list_record kind from i s w) }
    ensures lent { SameLists p.old p.new }
{
    let kids = listed?.kids;
    let flags = flagged(kids.count, 0, false, false);
    close(p, kind, from, 0, 0, flags, kids.first)
}

// The record of a block, and perhaps one of another kind over it alone: 0 for none, as the rule `block` has it.
pub fn block_record(
    p: &mut Parser<'_>,
    inside: u32,
    wrap: u32,
    from: u32,
    row: Kids,
) -> Result<u32, Stop>
    ensures ended { ended p.new result ≡ run (block_record inside wrap from row) p.old }
    ensures lent { SameLists p.old p.new }
{
    let flags = flagged(row.count, 0, false, false);
    let link = close(p, nodes::BLOCK, inside, 0, 0, flags, row.first)?;
    if wrap == 0 {
        return Ok(link);
    }
    close(p, wrap, from, 0, 0, 0, link)
}

// The expression Fn over its name, where it has one, and its function; `glo` is words of it.
pub fn fn_record(
    p: &mut Parser<'_>,
    from: u32,
    glo: Option<Span>,
    name: u32,
    link: u32,
) -> Result<u32, Stop>
    ensures ended { ended p.new result ≡ run (fn_record from glo name link) p.old }
    ensures lent { SameLists p.old p.new }
{
    let one = add_some(p, NO_KIDS, name);
    let two = p.add(one, link);
    let mark = span_of(glo);
    let flags = flagged(0, 0, glo.is_some(), 0 < name);
    close(p, nodes::FN, from, mark.start, mark.end, flags, two.first)
}

// The same without a name, once its function is built.
pub fn nameless(p: &mut Parser<'_>, from: u32, read: Result<u32, Stop>) -> Result<u32, Stop>
    ensures ended { ended p.new result ≡ bind (ended p.old read) (λ s w f. fn_record from None 0 f s w) }
    ensures lent { SameLists p.old p.new }
{
    fn_record(p, from, None, 0, read?)
}

// A function or a closure, by a flag as the rule is, over its parameters, the type that it returns and its body.
pub fn function_record(
    p: &mut Parser<'_>,
    from: u32,
    closure: bool,
    items: Items,
    link: u32,
    body: u32,
) -> Result<u32, Stop>
    ensures ended { ended p.new result ≡ run (function_record from closure items link body) p.old }
    ensures lent { SameLists p.old p.new }
{
    let row = items.kids;
    let flags = flagged(row.count, 0, items.ended.is_some(), 0 < link);
    let one = add_some(p, row, link);
    let two = p.add(one, body);
    if closure {
        return close(p, nodes::CLOSURE, from, 0, 0, flags, two.first);
    }
    close(p, nodes::FUNCTION, from, 0, 0, flags, two.first)
}

// A handler over the effect's name, its parameters and its body.
pub fn handler_record(p: &mut Parser<'_>, from: u32, items: Items, body: u32) -> Result<u32, Stop>
    ensures ended { ended p.new result ≡ run (handler_record from items body) p.old }
    ensures lent { SameLists p.old p.new }
{
    let row = items.kids;
    let flags = flagged(row.count, 0, items.ended.is_some(), false);
    let all = p.add(row, body);
    close(p, nodes::EFFECT_HANDLER, from, 0, 0, flags, all.first)
}

// A Call's flags once its handlers are counted; its range does not grow.
pub fn handlers_flagged(p: &mut Parser<'_>, link: u32, called: Called, handlers: u32)
    ensures ended { ended p.new (Ok (tt {0})) ≡ run (handlers_flagged link called handlers) p.old }
    ensures lent { SameLists p.old p.new }
{
    let flags = flagged(called.arguments, handlers, called.lambda, false);
    p.reflag(link, flags);
}

// `if` over its test, its block and what stands behind `else`, where something does.
pub fn if_record(
    p: &mut Parser<'_>,
    from: u32,
    kids: Kids,
    read: Result<u32, Stop>,
) -> Result<u32, Stop>
    ensures ended { ended p.new result ≡ bind (ended p.old read) (λ s w a. if_record from kids a s w) }
    ensures lent { SameLists p.old p.new }
{
    let link = read?;
    let flags = flagged(0, 0, 0 < link, false);
    let all = add_some(p, kids, link);
    close(p, nodes::IF, from, 0, 0, flags, all.first)
}

// `loop` over its block, once that is read.
pub fn loop_record(p: &mut Parser<'_>, from: u32, read: Result<u32, Stop>) -> Result<u32, Stop>
    ensures ended { ended p.new result ≡ bind (ended p.old read) (λ s w b. close node.Loop from 0 0 0 b s w) }
    ensures lent { SameLists p.old p.new }
{
    close(p, nodes::LOOP, from, 0, 0, 0, read?)
}

// `while` or `for` over its names, its expression and its block.
pub fn round_record_of(
    p: &mut Parser<'_>,
    from: u32,
    form: Form,
    names: u32,
    kids: Kids,
) -> Result<u32, Stop>
    ensures ended { ended p.new result ≡ run (round_record from (place form) names kids) p.old }
    ensures lent { SameLists p.old p.new }
{
    match form {
        Form::While => close(p, nodes::WHILE, from, 0, 0, 0, kids.first),
        _ => {
            let flags = flagged(names, 0, false, false);
            close(p, nodes::FOR, from, 0, 0, flags, kids.first)
        }
    }
}

// The same by the form's place in the chain, whatever number it is: past the chain it is no `while`, and the record is a `for`.
pub fn round_record(
    p: &mut Parser<'_>,
    from: u32,
    which: usize,
    names: u32,
    kids: Kids,
) -> Result<u32, Stop>
    ensures ended { ended p.new result ≡ run (round_record from which names kids) p.old }
    ensures lent { SameLists p.old p.new }
{
    match Form::at(which) {
        Some(form) => round_record_of(p, from, form, names, kids),
        None => round_record_of(p, from, Form::For, names, kids),
    }
}

// A Call over its callee, its arguments and its trailing lambda, where it has one.
pub fn call_record(
    p: &mut Parser<'_>,
    from: u32,
    kids: Kids,
    lambda: u32,
) -> Result<ControlFlow<Expr, Expr>, Stop>
    ensures ended { ended p.new (as_turn result) ≡ run (call_record from kids lambda) p.old }
    ensures lent { SameLists p.old p.new }
{
    let trailing = 0 < lambda;
    let arguments = kids.count;
    let flags = flagged(arguments, 0, trailing, false);
    let all = add_some(p, kids, lambda);
    let link = close(p, nodes::CALL, from, 0, 0, flags, all.first)?;
    let called = Called {
        kids: Kids { count: 0, ..all },
        arguments,
        lambda: trailing,
    };
    Ok(ControlFlow::Continue(Expr::Call(link, called)))
}

// A member of an expression, by its opening token and by whether it is a meta member, which has no property. On a plain name and
// without `?` it may be assigned to.
pub fn member_record_of(
    p: &mut Parser<'_>,
    from: u32,
    x: Expr,
    safe: Option<Span>,
    opening: Opening,
    meta: bool,
    link: u32,
) -> Result<ControlFlow<Expr, Expr>, Stop>
    ensures ended { ended p.new (as_turn result) ≡ run (member_record from safe (member_at (opens opening) meta) x link) p.old }
    ensures lent { SameLists p.old p.new }
{
    let one = p.add(NO_KIDS, x.link());
    let all = add_some(p, one, link);
    let mark = span_of(safe);
    let flags = flagged(member_at(opening, meta), 0, safe.is_some(), false);
    let member = close(
        p,
        nodes::MEMBER,
        from,
        mark.start,
        mark.end,
        flags,
        all.first,
    )?;
    Ok(ControlFlow::Continue(member_of(x, safe, member)))
}

// The same by the opening token's place in the chain, whatever number it is: past the chain the member's kind is that of `[x]`, meta or not.
pub fn member_record(
    p: &mut Parser<'_>,
    from: u32,
    x: Expr,
    safe: Option<Span>,
    which: usize,
    meta: bool,
    link: u32,
) -> Result<ControlFlow<Expr, Expr>, Stop>
    ensures ended { ended p.new (as_turn result) ≡ run (member_record from safe (member_at which meta) x link) p.old }
    ensures lent { SameLists p.old p.new }
{
    match Opening::at(which) {
        Some(opening) => member_record_of(p, from, x, safe, opening, meta, link),
        None => member_record_of(p, from, x, safe, Opening::Bracket, false, link),
    }
}

// Rust's MemberKind, as docs/LAYOUT.md numbers it: the three meta ones stand behind the three others.
fn member_at(opening: Opening, meta: bool) -> u32
    ensures { result ≡ member_at (opens opening) meta }
{
    let plain = opening as u32;
    if meta { plain + 3 } else { plain }
}

fn member_of(x: Expr, safe: Option<Span>, link: u32) -> Expr
    ensures { result ≡ member_of x safe link }
{
    match (safe, x) {
        (None, Expr::Name(_)) => Expr::NameMember(link),
        _ => Expr::Other(link),
    }
}
