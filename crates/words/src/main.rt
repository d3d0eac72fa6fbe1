// Writes whole answers: a stream of pieces from standard input, each behind its length, and to standard output for each one what
// `lucia_parse`, the function that a till links, answers and leaves behind. A piece is what is lent, four numbers of four bytes: the words of
// the node buffer and of the error buffer, the bytes of the expected buffer and the allowance; then a bundle. An answer is the number, the
// four counts and each lent buffer up to its last word that is not zero, behind the count of these words: so it tells every word. The last
// piece says how many they were, so that a stream cut short is seen.
#![tactic(auto)]

ghost use Rattle.std.specs.Prelude.{◌<◌, ◌≤◌, ◌^◌, length, IfSome};

use std::io;
use std::io::{Cursor, Write};

// The number that stands for a piece that is none: no bundle, or more is lent than there is here. `answer` has it too, of which this program needs nothing.
const NO_BUNDLE: u8 = 12;

// The bytes of the four numbers before a bundle.
const HEAD: usize = 16;

// The most that is lent: one node record, one error and one expected kind more than count, and words that make no whole record.
const NODE_ROOM: usize = 65552;

const ERROR_ROOM: usize = 396;

const EXPECTED_ROOM: usize = 65537;

// The longest answer, with all buffers full.
const ANSWER_ROOM: usize = 329358;

// The longest piece, and at most so many pieces.
const ROOM: usize = 102434;

const PIECES: u32 = 65536;

// The words of a buffer go into an answer in blocks: a write for each would cost more than the word does.
const BLOCK: usize = 64;

const BLOCK_BYTES: usize = 256;

// The mark that the lent buffers and the counts are full of before.
const MARK: u8 = 0xa5;

const WORD_MARK: u32 = 0xa5a5_a5a5;

// What a piece lends: words of the node and the error buffer, bytes of the expected buffer, readings.
#[derive(Clone, Copy)]
struct Lent {
    nodes: usize,
    errors: usize,
    expected: usize,
    allowance: u32,
}

// What a piece's head lends, if there is so much here.
fn lent_by(head: &[u8; HEAD]) -> Option<Lent>
    ensures { IfSome result (λ lent. (lent.nodes ≤ 65552) × (lent.errors ≤ 396) × (lent.expected ≤ 65537)) }
{
    let lent = Lent {
        nodes: pieces::word(head[0], head[1], head[2], head[3]) as usize,
        errors: pieces::word(head[4], head[5], head[6], head[7]) as usize,
        expected: pieces::word(head[8], head[9], head[10], head[11]) as usize,
        allowance: pieces::word(head[12], head[13], head[14], head[15]),
    };
    if NODE_ROOM < lent.nodes || ERROR_ROOM < lent.errors || EXPECTED_ROOM < lent.expected {
        return None;
    }
    Some(lent)
}

// A count in four bytes, the lowest first. `known_cases` has the same lines: a crate for them would be no plainer.
fn put_count(answer: &mut impl Write, count: usize) -> io::Result<()> {
    answer.write_all(&u32::try_from(count).unwrap_or(u32::MAX).to_le_bytes())
}

// A buffer up to the last element that is not zero. The bound is that of every slice of elements with a size.
fn used<T: Copy + PartialEq>(buffer: &[T], zero: T) -> &[T]
    requires { length buffer.now < 2 ^ 63 }
{
    let end = buffer
        .iter()
        .rposition(|element| *element != zero)
        .map_or(0, |last| last + 1);
    &buffer[..end]
}

// The words of a block, each in four bytes, the lowest first.
fn bytes_of(block: &[u32; BLOCK]) -> [u8; BLOCK_BYTES] {
    let mut bytes = [0; BLOCK_BYTES];
    let (fours, _) = bytes.as_chunks_mut::<4>();
    for (four, word) in fours.iter_mut().zip(block) {
        *four = word.to_le_bytes();
    }
    bytes
}

fn put_words(answer: &mut impl Write, buffer: &[u32]) -> io::Result<()> {
    let words = used(buffer, 0);
    put_count(answer, words.len())?;
    let (blocks, rest) = words.as_chunks::<BLOCK>();
    for block in blocks {
        answer.write_all(&bytes_of(block))?;
    }
    for word in rest {
        answer.write_all(&word.to_le_bytes())?;
    }
    Ok(())
}

fn put_bytes(answer: &mut impl Write, buffer: &[u8]) -> io::Result<()> {
    let bytes = used(buffer, 0);
    put_count(answer, bytes.len())?;
    answer.write_all(bytes)
}

// Reads a sheet into buffers that are full of marks: what they held must not matter to a reading, and a refusal that leaves them as they
// were must leave the marks. The counts are marks before, which must not stay.
fn read(answer: &mut impl Write, text: &[u8], tokens: &[u32], lent: Lent) -> io::Result<()>
    requires { (lent.nodes ≤ 65552) × (lent.errors ≤ 396) × (lent.expected ≤ 65537) }
{
    let mut nodes = [WORD_MARK; NODE_ROOM];
    let mut errors = [WORD_MARK; ERROR_ROOM];
    let mut expected = [MARK; EXPECTED_ROOM];
    let nodes = &mut nodes[..lent.nodes];
    let errors = &mut errors[..lent.errors];
    let expected = &mut expected[..lent.expected];
    let mut counts = [WORD_MARK; 4];
    let number = parser::lucia_parse(
        text,
        tokens,
        lent.allowance,
        nodes,
        errors,
        expected,
        &mut counts,
    );
    answer.write_all(&[number])?;
    for count in counts {
        answer.write_all(&count.to_le_bytes())?;
    }
    put_words(answer, nodes)?;
    put_words(answer, errors)?;
    put_bytes(answer, expected)
}

// The answer to a piece. There is room for a text and for tokens of one more than may be lent.
fn answer_to(answer: &mut impl Write, piece: &[u8]) -> io::Result<()> {
    let mut text = [0u8; 65536];
    let mut tokens = [0u32; 12291];
    if let Some((head, bundle)) = piece.split_first_chunk::<HEAD>() {
        if let Some(lent) = lent_by(head) {
            if let Some(held) = listing::decode(bundle, &mut text, &mut tokens) {
                return read(answer, &text[..held.text], &tokens[..3 * held.tokens], lent);
            }
        }
    }
    answer.write_all(&[NO_BUNDLE])
}

// The same loop as in `replay`: a function for both would take the answer to a piece as a closure, of whose writing its contract could say
// nothing.
fn main(rt: HostRuntime) -> io::Result<()> {
    let mut input = rt.reader();
    let mut output = io::writer(&rt);
    let mut room = [0u8; ROOM];
    let mut out = [0u8; ANSWER_ROOM];
    let mut count = 0;
    for number in 1..=PIECES {
        let Some(n) = pieces::read(&mut input, &mut room) else {
            break;
        };
        let mut answer = Cursor::new(&mut out[..]);
        answer_to(&mut answer, &room[..n])?;
        let end = answer.position() as usize;
        pieces::write(&mut output, out.get(..end).unwrap_or_default());
        count = number;
    }
    pieces::write_count(&mut output, count);
    Ok(())
}
