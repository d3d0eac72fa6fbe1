// Records: node records with their links, and error records with their expected kinds.
ghost use Rattle.std.specs.Prelude.{◌≡◌, ◌+◌, ◌≤◌, length, Ok};
ghost use Rattle.cursor.specs.Buffer.{copy};
ghost use Rattle.cursor.specs.Records.{append, add, reflag, bit, flagged, list_length, log};
ghost use Rattle.cursor.specs.Answers.{run, ended, SameLists, SameNodes};

use crate::{Fault, Kids, LIVE_ROOM, Label, Parser, Refusal, Stop};

// The words of a node record and their places.
pub const NODE_WORDS: usize = 8;

pub const KIND: usize = 0;

pub const START: usize = 1;

pub const END: usize = 2;

pub const FIRST: usize = 3;

pub const NEXT: usize = 4;

pub const ONE: usize = 5;

pub const TWO: usize = 6;

pub const FLAGS: usize = 7;

// The words of an error record and their places.
pub const ERROR_WORDS: usize = 6;

pub const CLASS: usize = 0;

pub const FOUND: usize = 1;

pub const ERROR_START: usize = 2;

pub const ERROR_END: usize = 3;

pub const KINDS_FROM: usize = 4;

pub const KINDS_COUNT: usize = 5;

// The most records of each sort, and the most expected kinds that so many errors can list.
pub const NODE_LIMIT: usize = 8192;

pub const ERROR_LIMIT: usize = 64;

pub const EXPECTED_LIMIT: usize = 65536;

fn bit(b: bool) -> u64
    ensures { result ≡ bit b }
{
    if b { 1 } else { 0 }
}

// A flags word: the lengths of two lists, of 15 bits each, and two flags.
pub fn flagged(n: u32, m: u32, one: bool, two: bool) -> u32
    ensures { result ≡ flagged n m one two }
{
    let lengths = n as u64 + 0x8000 * (m as u64);
    let flags = 0x4000_0000 * bit(one) + 0x8000_0000 * bit(two);
    ((lengths + flags) % 0x1_0000_0000) as u32
}

// The first kinds of the live list, into the expected buffer from a place on.
fn copy_kinds(expected: &mut [u8], from: usize, live: &[u8; LIVE_ROOM], count: usize)
    requires { (from + count ≤ length expected.old) × (count ≤ 1024) }
    ensures { expected.new ≡ copy expected.old from live.now 0 count }
{
    for k in 0..count {
        expected[from + k] = live[k];
    }
}

impl Parser<'_> {
    // One more node record, over the children from a link on. Answers the link to it.
    pub fn append(&mut self, label: Label, first: u32) -> Result<u32, Stop>
        ensures ended { ended self.new result ≡ run (append label first) self.old }
        ensures lent { SameLists self.old self.new }
    {
        let i = self.state.nodes as usize;
        let room = (self.nodes.len() / NODE_WORDS).min(NODE_LIMIT);
        if room <= i {
            return Err(Stop::Refused(Refusal::NoRoom));
        }
        let base = NODE_WORDS * i;
        self.nodes[base + KIND] = label.kind;
        self.nodes[base + START] = label.start;
        self.nodes[base + END] = label.end;
        self.nodes[base + FIRST] = first;
        self.nodes[base + NEXT] = 0;
        self.nodes[base + ONE] = label.one;
        self.nodes[base + TWO] = label.two;
        self.nodes[base + FLAGS] = label.flags;
        self.state.nodes += 1;
        Ok(self.state.nodes)
    }

    // One more child at the end of a row.
    pub fn add(&mut self, kids: Kids, link: u32) -> Kids
        ensures ended { ended self.new (Ok result) ≡ run (add kids link) self.old }
        ensures lent { SameLists self.old self.new }
    {
        let count = kids.count.wrapping_add(1);
        if kids.last == 0 {
            return Kids {
                first: link,
                last: link,
                count,
            };
        }
        let place = NODE_WORDS * ((kids.last - 1) as usize) + NEXT;
        if place < self.nodes.len() {
            self.nodes[place] = link;
        }
        Kids {
            first: kids.first,
            last: link,
            count,
        }
    }

    // Other flags for the record that a link leads to.
    pub fn reflag(&mut self, link: u32, flags: u32)
        ensures ended { ended self.new (Ok (tt {0})) ≡ run (reflag link flags) self.old }
        ensures lent { SameLists self.old self.new }
    {
        if link == 0 {
            return;
        }
        let place = NODE_WORDS * ((link - 1) as usize) + FLAGS;
        if place < self.nodes.len() {
            self.nodes[place] = flags;
        }
    }

    // How many kinds an error lists: the live list's, where it is the error's own.
    fn list_length(&self, fault: Fault) -> usize
        ensures { result ≡ list_length fault self.now.state }
    {
        if fault.listed {
            (self.state.live as usize).min(LIVE_ROOM)
        } else {
            0
        }
    }

    // Logs an error: its record, and the kinds that it lists in the expected buffer.
    pub fn log_error(&mut self, fault: Fault) -> Result<(), Stop>
        ensures ended { ended self.new result ≡ run (log fault) self.old }
        ensures lent { SameNodes self.old self.new }
        ensures live { self.new.live ≡ self.old.live }
    {
        let count = self.list_length(fault);
        let from = self.state.wanted as usize;
        let i = self.state.errors as usize;
        let room = (self.errors.len() / ERROR_WORDS).min(ERROR_LIMIT);
        if room <= i {
            return Err(Stop::Refused(Refusal::ErrorsFull));
        }
        let most = self.expected.len().min(EXPECTED_LIMIT);
        if most < from + count {
            return Err(Stop::Refused(Refusal::ErrorsFull));
        }
        let base = ERROR_WORDS * i;
        self.errors[base + CLASS] = fault.class;
        self.errors[base + FOUND] = fault.found;
        self.errors[base + ERROR_START] = fault.span.start;
        self.errors[base + ERROR_END] = fault.span.end;
        self.errors[base + KINDS_FROM] = self.state.wanted;
        self.errors[base + KINDS_COUNT] = count as u32;
        let expected = &mut *self.expected;
        copy_kinds(expected, from, &self.live, count);
        self.state.errors += 1;
        self.state.wanted = (from + count) as u32;
        Ok(())
    }
}
