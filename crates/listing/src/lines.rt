// The lines of a listing.
ghost use Rattle.std.specs.Prelude.{◌≡◌, [], ◌∷◌, ◌++◌, map, get_or, take, drop};
ghost use Rattle.listing.specs.Page.{emits};
ghost use Rattle.listing.specs.Decimal.{decimal};
ghost use Rattle.listing.specs.Names.{name_from};
ghost use Rattle.listing.specs.Lines.{fields, detail, node_line, found, error_line, first_line};

use crate::names::{detail_place, put_name, record_place};
use crate::page::Page;
use cursor::Label;
use cursor::nodes::INT;
use cursor::records::{CLASS, ERROR_END, ERROR_START, ERROR_WORDS, FOUND, KINDS_COUNT, KINDS_FROM};

// The class of an error at an integer's fault.
const FAULTY_INT: u32 = 1;

// One more field of a line: a number.
fn put_field(page: &mut Page, n: u32)
    ensures { page.new ≡ emits (fields (decimal n ∷ [])) page.old }
{
    page.put_byte(b' ');
    page.put_number(u64::from(n));
}

// One more field of a line: a name.
fn put_named(page: &mut Page, place: usize)
    ensures { page.new ≡ emits (fields (name_from place ∷ [])) page.old }
{
    page.put_byte(b' ');
    put_name(page, place);
}

// What a record says besides its kind and range.
fn put_detail(page: &mut Page, l: Label)
    ensures { page.new ≡ emits (fields (detail l)) page.old }
{
    if l.kind == INT {
        page.put_byte(b' ');
        page.put_integer(l.one, l.two);
    } else if let Some(place) = detail_place(l.kind, l.one) {
        put_named(page, place);
    }
}

// A node's line.
pub fn node_line(page: &mut Page, level: u32, l: Label)
    ensures { page.new ≡ emits (node_line level l) page.old }
{
    page.put_number(u64::from(level));
    put_named(page, record_place(l.kind));
    put_field(page, l.start);
    put_field(page, l.end);
    put_detail(page, l);
    page.put_byte(b'\n');
}

// Expected kinds, `count` of them from a place on, as many as the buffer has.
fn put_kinds(expected: &[u8], page: &mut Page, from: u32, count: u32)
    ensures { page.new ≡ emits (fields (map decimal (take count (drop from expected.now)))) page.old }
{
    for &kind in expected.iter().skip(from as usize).take(count as usize) {
        put_field(page, u32::from(kind));
    }
}

// What was found: a token's kind, or an integer's fault.
fn put_found(page: &mut Page, class: u32, what: u32)
    ensures { page.new ≡ emits (fields (found class what)) page.old }
{
    if class == FAULTY_INT {
        page.put_bytes(b" int");
    }
    put_field(page, what);
}

// A word of a buffer, 0 past its end.
pub fn word_at(words: &[u32], at: usize) -> u32
    ensures { result ≡ get_or words.now at 0 }
{
    words.get(at).copied().unwrap_or(0)
}

// The line of error record i.
pub fn error_line(errors: &[u32], expected: &[u8], page: &mut Page, i: u32)
    ensures { page.new ≡ emits (error_line errors.now expected.now i) page.old }
{
    let base = ERROR_WORDS * (i as usize);
    page.put_bytes(b"error");
    put_found(
        page,
        word_at(errors, base + CLASS),
        word_at(errors, base + FOUND),
    );
    put_field(page, word_at(errors, base + ERROR_START));
    put_field(page, word_at(errors, base + ERROR_END));
    put_kinds(
        expected,
        page,
        word_at(errors, base + KINDS_FROM),
        word_at(errors, base + KINDS_COUNT),
    );
    page.put_byte(b'\n');
}

// The first line: answer, readings, node records, errors.
pub fn first_line(page: &mut Page, reads: u32, nodes: u32, errors: u32)
    ensures { page.new ≡ emits (first_line reads nodes errors) page.old }
{
    page.put_bytes(b"read 0 reads");
    put_field(page, reads);
    page.put_bytes(b" nodes");
    put_field(page, nodes);
    page.put_bytes(b" errors");
    put_field(page, errors);
    page.put_byte(b'\n');
}
