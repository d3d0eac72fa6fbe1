// Reads the types and patterns on standard input and prints what they are read as: the listing, the words of each record that the listing
// does not show, and the place of the next token. A case: its form (1 byte), what is left of the depth (1 byte), and the length of a bundle
// (4 bytes, the lowest first) with that bundle. oracle/types makes the cases and says what is to be printed.
#![tactic(auto)]

ghost use Rattle.std.specs.Prelude.{◌≡◌};
ghost use Rattle.cursor.specs.Answers.{sheet_of, run, number, ended, SameErrors};
ghost use Rattle.type_cases.specs.Forms.{by_form};

use cursor::records::{FLAGS, NODE_WORDS, ONE, TWO};
use cursor::{BEGIN, Fault, LIVE_ROOM, Limits, Parser, Refusal, Sheet, State, Stop};
use listing::{Counts, LENT_NODES};
use pieces::Unfailing;
use std::io;
use std::io::Write;
use types::patterns::pattern;
use types::types::{ty, type_atom};

// The bytes of a case before its bundle.
const HEAD: usize = 6;

// The forms, bytes of a case, of which `by_form` speaks: any other is a pattern.
const TYPE: u8 = 0;

const ATOM: u8 = 1;

fn print_listed(output: &mut impl Write, out: &[u8], listed: Option<usize>) -> io::Result<()> {
    match listed {
        Some(n) => output.write_all(out.get(..n).unwrap_or_default()),
        None => output.write_all(b"no room\n"),
    }
}

fn print_listing(
    output: &mut impl Write,
    nodes: &[u32],
    errors: &[u32],
    expected: &[u8],
    counts: Counts,
) -> io::Result<()> {
    let mut out = [0u8; 16384];
    let listed = listing::listing(nodes, errors, expected, &mut out, counts);
    print_listed(output, &out, listed)
}

// The number that the document gives a refusal. `parser` has it for its own refusals, and would bring the whole parser along.
fn number(refusal: Refusal) -> u8
    ensures { result ≡ number refusal }
{
    match refusal {
        Refusal::NoRoom => 7,
        Refusal::ErrorsFull => 8,
        Refusal::TooDeep => 9,
        Refusal::AllSpent => 10,
        Refusal::ListFull => 11,
    }
}

fn print_refusal(output: &mut impl Write, refusal: Refusal) -> io::Result<()> {
    let mut out = [0u8; 16];
    let listed = listing::refusal(&mut out, number(refusal));
    print_listed(output, &out, listed)
}

fn print_next(output: &mut impl Write, state: State) -> io::Result<()> {
    writeln!(output, "next {}", state.at)
}

// The words of each record that the listing does not show.
fn print_words(output: &mut impl Write, nodes: &[u32], count: u32) -> io::Result<()> {
    let (records, _) = nodes.as_chunks::<NODE_WORDS>();
    for record in records.iter().take(count as usize) {
        writeln!(
            output,
            "words {} {} {}",
            record[ONE], record[TWO], record[FLAGS]
        )?;
    }
    Ok(())
}

// What was read: the record that the link leads to with all below it.
fn print_read(output: &mut impl Write, nodes: &[u32], state: State, link: u32) -> io::Result<()> {
    let counts = Counts {
        reads: state.reads,
        nodes: link,
        errors: 0,
    };
    print_listing(output, nodes, &[], &[], counts)?;
    print_words(output, nodes, state.nodes)?;
    print_next(output, state)
}

// Rust's Err, logged as the only error.
fn print_fault(
    output: &mut impl Write,
    errors: &[u32],
    expected: &[u8],
    state: State,
) -> io::Result<()> {
    let counts = Counts {
        reads: state.reads,
        nodes: 0,
        errors: state.errors,
    };
    print_listing(output, &[], errors, expected, counts)?;
    print_next(output, state)
}

fn print_form(output: &mut impl Write, form: u8) -> io::Result<()> {
    match form {
        TYPE => output.write_all(b"type\n"),
        ATOM => output.write_all(b"atom\n"),
        _ => output.write_all(b"pattern\n"),
    }
}

// Reads what the form says.
fn read(p: &mut Parser<'_>, sheet: &Sheet<'_>, depth: u32, form: u8) -> Result<u32, Stop>
    ensures ended { ended p.new result ≡ run (by_form form (sheet_of sheet.now) depth) p.old }
    ensures lent { SameErrors p.old p.new }
{
    match form {
        TYPE => ty(p, sheet, depth),
        ATOM => type_atom(p, sheet, depth),
        _ => pattern(p, sheet, depth),
    }
}

fn answer(
    output: &mut impl Write,
    text: &[u8],
    tokens: &[u32],
    form: u8,
    depth: u32,
) -> io::Result<()> {
    let mut nodes = [0u32; LENT_NODES];
    let mut errors = [0u32; 6];
    let mut expected = [0u8; LIVE_ROOM];
    let sheet = Sheet {
        text,
        tokens,
        limits: Limits { allowance: 100000 },
    };
    let mut p = Parser {
        nodes: &mut nodes,
        errors: &mut errors,
        expected: &mut expected,
        live: [0; LIVE_ROOM],
        state: BEGIN,
    };
    print_form(output, form)?;
    match read(&mut p, &sheet, depth, form) {
        Ok(link) => {
            let state = p.state;
            print_read(output, &nodes, state, link)
        }
        Err(Stop::Fault(fault)) => {
            let logged = p.log_error(fault);
            let state = p.state;
            match logged {
                Ok(()) => print_fault(output, &errors, &expected, state),
                Err(_) => output.write_all(b"not logged\n"),
            }
        }
        Err(Stop::Refused(refusal)) => print_refusal(output, refusal),
    }
}

// A case without its head.
fn one_case(output: &mut impl Write, bundle: &[u8], form: u8, depth: u32) -> io::Result<()> {
    let mut text = [0u8; 4096];
    let mut tokens = [0u32; 1536];
    match listing::decode(bundle, &mut text, &mut tokens) {
        Some(held) => answer(
            output,
            &text[..held.text],
            &tokens[..3 * held.tokens],
            form,
            depth,
        ),
        None => output.write_all(b"no bundle\n"),
    }
}

// Each case up to the end, or to one that is cut short.
fn all_cases(output: &mut impl Write, input: &[u8]) -> io::Result<()> {
    let mut left = input;
    while let Some((head, rest)) = left.split_first_chunk::<HEAD>() {
        let length = pieces::word(head[2], head[3], head[4], head[5]) as usize;
        if rest.len() < length {
            break;
        }
        one_case(output, &rest[..length], head[0], u32::from(head[1]))?;
        left = &rest[length..];
    }
    Ok(())
}

fn main(rt: HostRuntime) -> io::Result<()> {
    let mut input = [0u8; 65536];
    let n = pieces::fill(&mut rt.reader(), &mut input);
    let mut output = Unfailing {
        output: io::writer(&rt),
    };
    all_cases(&mut output, &input[..n])
}
