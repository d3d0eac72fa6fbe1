// The walk over the tree in the node buffer: a parent before its children, in token order.
ghost use Rattle.std.specs.Prelude.{◌≡◌, ◌+◌, ◌-◌, ◌<◌, min, length};
ghost use Rattle.cursor.specs.Tree.{label};
ghost use Rattle.listing.specs.Page.{emits};
ghost use Rattle.listing.specs.Listing.{rows_from, row_lines, node_lines};

use crate::lines::{node_line, word_at};
use crate::page::Page;
use cursor::Label;
use cursor::records::{END, FIRST, FLAGS, KIND, NEXT, NODE_WORDS, ONE, START, TWO};

// What record i says besides its links.
fn label_at(nodes: &[u32], i: u32) -> Label
    ensures { result ≡ label nodes.now i }
{
    let base = NODE_WORDS * (i as usize);
    Label {
        kind: word_at(nodes, base + KIND),
        start: word_at(nodes, base + START),
        end: word_at(nodes, base + END),
        one: word_at(nodes, base + ONE),
        two: word_at(nodes, base + TWO),
        flags: word_at(nodes, base + FLAGS),
    }
}

// The trees from a link on, at most `left` records of them: so it ends whatever the links say. It answers how many may still be printed.
fn walk(nodes: &[u32], page: &mut Page, link: u32, level: u32, left: u32) -> u32
    requires { level + left < 4294967296 }
    ensures lines { page.new ≡ emits (row_lines (rows_from nodes.now link level left)) page.old }
    ensures left { result ≡ left - length (rows_from nodes.now link level left) }
{
    if left == 0 || link == 0 {
        return left;
    }
    let i = link - 1;
    let base = NODE_WORDS * (i as usize);
    node_line(page, level, label_at(nodes, i));
    let below = walk(
        nodes,
        page,
        word_at(nodes, base + FIRST),
        level + 1,
        left - 1,
    );
    walk(nodes, page, word_at(nodes, base + NEXT), level, below)
}

// The smaller of a count and the whole records that fit.
pub fn within(count: u32, room: usize) -> u32
    ensures { result ≡ min count room }
{
    room.min(count as usize) as u32
}

// The tree of a reading of so many records, whose root is the last of them.
pub fn node_lines(nodes: &[u32], page: &mut Page, count: u32)
    ensures { page.new ≡ emits (node_lines nodes.now count) page.old }
{
    let left = within(count, nodes.len() / NODE_WORDS);
    if left == 0 {
        return;
    }
    let root = count - 1;
    node_line(page, 0, label_at(nodes, root));
    walk(
        nodes,
        page,
        word_at(nodes, NODE_WORDS * (root as usize) + FIRST),
        1,
        left - 1,
    );
}
