// The listing of a reading, and of a refusal.
ghost use Rattle.std.specs.Prelude.{◌≡◌};
ghost use Rattle.listing.specs.Page.{emits};
ghost use Rattle.listing.specs.Listing.{error_lines, listing_of, refusal_of};
ghost use Rattle.listing.specs.Answers.{as_listed, wrote, written};

use crate::lines::{error_line, first_line};
use crate::page::Page;
use crate::walk::{node_lines, within};
use cursor::records::ERROR_WORDS;

// What the lister lends: the words of 1,024 node records and of 16 error records, 1,024 expected kinds, and bytes enough for any
// listing of these.
pub const LENT_NODES: usize = 8192;

pub const LENT_ERRORS: usize = 96;

pub const LENT_EXPECTED: usize = 1024;

pub const LENT_OUT: usize = 262144;

// What a reading reports.
#[derive(Clone, Copy)]
pub struct Counts {
    pub reads: u32,
    pub nodes: u32,
    pub errors: u32,
}

// The lines of so many errors, as many as the buffer has.
fn error_lines(errors: &[u32], expected: &[u8], page: &mut Page, count: u32)
    ensures { page.new ≡ emits (error_lines errors.now expected.now count) page.old }
{
    for i in 0..within(count, errors.len() / ERROR_WORDS) {
        error_line(errors, expected, page, i);
    }
}

fn lines(nodes: &[u32], errors: &[u32], expected: &[u8], page: &mut Page, counts: Counts)
    ensures { page.new ≡ emits (listing_of nodes.now errors.now expected.now counts) page.old }
{
    first_line(page, counts.reads, counts.nodes, counts.errors);
    node_lines(nodes, page, counts.nodes);
    error_lines(errors, expected, page, counts.errors);
}

// The listing of a reading, whose three buffers are those that `parse` has filled (a struct of them would be made for this call alone), written at the start of
// a buffer, and how many bytes it has. It is measured first, so that a buffer too short
// for it is left as it was.
pub fn listing(
    nodes: &[u32],
    errors: &[u32],
    expected: &[u8],
    out: &mut [u8],
    counts: Counts,
) -> Option<usize>
    ensures { as_listed result out.new ≡ written (listing_of nodes.now errors.now expected.now counts) out.old }
{
    let room = out.len() + 1;
    let mut measured = Page {
        out: &mut [],
        at: 0,
        room,
    };
    lines(nodes, errors, expected, &mut measured, counts);
    if out.len() < measured.at {
        return None;
    }
    let mut page = Page { out, at: 0, room };
    lines(nodes, errors, expected, &mut page, counts);
    Some(page.at)
}

// The same in the very buffers that the lister lends, where there is always room.
pub fn lent_listing(
    nodes: &[u32; LENT_NODES],
    errors: &[u32; LENT_ERRORS],
    expected: &[u8; LENT_EXPECTED],
    out: &mut [u8; LENT_OUT],
    counts: Counts,
) -> usize
    ensures { wrote result out.new ≡ written (listing_of nodes.now errors.now expected.now counts) out.old }
{
    listing(nodes, errors, expected, out, counts).unwrap()
}

fn refusal_line(page: &mut Page, number: u8)
    ensures { page.new ≡ emits (refusal_of number) page.old }
{
    page.put_bytes(b"refused ");
    page.put_number(u64::from(number));
    page.put_byte(b'\n');
}

// What is printed for a refusal, and how many bytes it has. The steps are those of `listing`: a function for both would take what is written as a closure
// with clauses of its own, and is no plainer.
pub fn refusal(out: &mut [u8], number: u8) -> Option<usize>
    ensures { as_listed result out.new ≡ written (refusal_of number) out.old }
{
    let room = out.len() + 1;
    let mut measured = Page {
        out: &mut [],
        at: 0,
        room,
    };
    refusal_line(&mut measured, number);
    if out.len() < measured.at {
        return None;
    }
    let mut page = Page { out, at: 0, room };
    refusal_line(&mut page, number);
    Some(page.at)
}
