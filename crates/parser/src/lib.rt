// The parser: `parse`, the function that a till calls, and the same with the counts apart, which the crate parser_c exports for C.
#![tactic(auto)]

ghost use Rattle.std.specs.Prelude.{◌≡◌, List, ℕ, Ok, Err};
ghost use Rattle.cursor.specs.Rule.{failed};
ghost use Rattle.cursor.specs.Answers.{stop_of, SameLoans};
ghost use Rattle.parser.specs.Blank.{cleared, up_to};
ghost use Rattle.parser.specs.Outcome.{number, told, apart, handed};
ghost use Rattle.parser.specs.Finish.{IsRefusal, trimmed, finished};
ghost use Rattle.parser.specs.Promised.{Promised, Delivered};
ghost use Rattle.parser.specs.declared.Refusal.TheVariants.{Unfit, CutOff};

pub use cursor::records::{ERROR_WORDS, NODE_WORDS};
use cursor::{BEGIN, LIVE_ROOM, Limits, Parser, Sheet, Stop};
use entry::{entry_check, refusal_number};
use exprs::program::program;

// How deep a sheet may nest.
pub const DEPTH: u32 = 64;

// What a reading reports: its readings, and how many node records, error records and expected kinds it left.
#[derive(Clone, Copy)]
pub struct Reading {
    pub reads: u32,
    pub nodes: u32,
    pub errors: u32,
    pub expected: u32,
}

// Why a sheet is not read: it is not fit to be read, or the reading was cut off.
#[derive(Clone, Copy)]
pub enum Refusal {
    Unfit(entry::Refusal),
    CutOff(cursor::Refusal),
}

impl Refusal {
    // The number that the document gives it.
    pub fn number(self) -> u8
        ensures { result ≡ number self }
    {
        match self {
            Refusal::Unfit(refusal) => refusal_number(refusal),
            Refusal::CutOff(cursor::Refusal::NoRoom) => 7,
            Refusal::CutOff(cursor::Refusal::ErrorsFull) => 8,
            Refusal::CutOff(cursor::Refusal::TooDeep) => 9,
            Refusal::CutOff(cursor::Refusal::AllSpent) => 10,
            Refusal::CutOff(cursor::Refusal::ListFull) => 11,
        }
    }
}

impl From<entry::Refusal> for Refusal {
    ghost from_gives = { λ refusal e. e ≡ Unfit refusal };

    fn from(refusal: entry::Refusal) -> Refusal {
        Refusal::Unfit(refusal)
    }
}

// All words from a place on become the blank one.
fn clear<T: Copy>(words: &mut [T], from: usize, blank: T)
    ensures { words.new ≡ cleared blank from words.old }
{
    for i in from..words.len() {
        words[i] = blank;
    }
}

// Clears what lies past the counts.
fn read(p: &mut Parser<'_>) -> Reading
    ensures read { told (Ok result) p.new.nodes.now p.new.errors.now p.new.expected.now ≡ trimmed p.old.state p.old.nodes.now p.old.errors.now p.old.expected.now }
    ensures lent { SameLoans p.old p.new }
{
    let s = p.state;
    clear(p.nodes, NODE_WORDS * s.nodes as usize, 0);
    clear(p.errors, ERROR_WORDS * s.errors as usize, 0);
    clear(p.expected, s.wanted as usize, 0);
    Reading {
        reads: s.reads,
        nodes: s.nodes,
        errors: s.errors,
        expected: s.wanted,
    }
}

// Clears all, and tells the refusal. A program never ends in an error of its own, since its statements log theirs.
#[tactic(auto, unfolding(crate::specs::Finish::finished))]
fn refuse(p: &mut Parser<'_>, stop: Stop) -> cursor::Refusal
    requires { IsRefusal stop }
    ensures refused { told (Err (CutOff result)) p.new.nodes.now p.new.errors.now p.new.expected.now ≡ finished (up_to 0 p.old.nodes.now) (up_to 0 p.old.errors.now) (up_to 0 p.old.expected.now) (failed (stop_of p.old stop)) }
    ensures lent { SameLoans p.old p.new }
{
    clear(p.nodes, 0, 0);
    clear(p.errors, 0, 0);
    clear(p.expected, 0, 0);
    match stop {
        Stop::Fault(_) => unreachable!(),
        Stop::Refused(refusal) => refusal,
    }
}

// Reads a sheet: text, tokens (kind, start, end, three words each) and the allowance of readings, into the buffers of node records, error
// records and expected kinds. The contract (specs/Promised.antt) is the equation that says all of the answer and the buffers, and the three demands.
pub fn parse(
    text: &[u8],
    tokens: &[u32],
    allowance: u32,
    nodes: &mut [u32],
    errors: &mut [u32],
    expected: &mut [u8],
) -> Result<Reading, Refusal>
    ensures { Promised text.now tokens.now allowance nodes.old errors.old expected.old (told result nodes.new errors.new expected.new) }
{
    entry_check(text, tokens)?;
    let sheet = Sheet {
        text,
        tokens,
        limits: Limits { allowance },
    };
    let mut p = Parser {
        nodes,
        errors,
        expected,
        live: [0; LIVE_ROOM],
        state: BEGIN,
    };
    match program(&mut p, &sheet, DEPTH) {
        Ok(_) => Ok(read(&mut p)),
        Err(stop) => Err(Refusal::CutOff(refuse(&mut p, stop))),
    }
}

// An answer's number and counts, apart, as C takes them.
#[derive(Clone, Copy)]
struct Told {
    number: u8,
    reading: Reading,
}

// The document's number of an answer, and its counts: zero for a refusal.
fn number_of(answer: Result<Reading, Refusal>) -> Told
    ensures { (n e x : List ℕ) → apart result n e x ≡ told answer n e x }
{
    match answer {
        Ok(reading) => Told { number: 0, reading },
        Err(refusal) => {
            let reading = Reading {
                reads: 0,
                nodes: 0,
                errors: 0,
                expected: 0,
            };
            Told {
                number: refusal.number(),
                reading,
            }
        }
    }
}

// The same for C and Rust: the answer's number, with the four counts where the caller says (readings, node records, errors, expected kinds). The promises
// are those of `parse`, of what the caller is handed.
pub fn lucia_parse(
    text: &[u8],
    tokens: &[u32],
    allowance: u32,
    nodes: &mut [u32],
    errors: &mut [u32],
    expected: &mut [u8],
    counts: &mut [u32; 4],
) -> u8
    ensures { Delivered text.now tokens.now allowance nodes.old errors.old expected.old (handed result counts.new nodes.new errors.new expected.new) }
{
    let answer = parse(text, tokens, allowance, nodes, errors, expected);
    let told = number_of(answer);
    *counts = [
        told.reading.reads,
        told.reading.nodes,
        told.reading.errors,
        told.reading.expected,
    ];
    told.number
}
