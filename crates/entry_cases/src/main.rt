// Puts the cases on standard input to the entry check, and counts those that get another answer than they name.
// A case: the answer (1 byte); a byte and how often it is repeated; a count of bytes and those bytes, which end the text; a kind and
// how many tokens of it, one byte each from 0 on; a count of words and those words, which end the tokens. Counts and words have 4 bytes, the low byte first.
#![tactic(auto)]

ghost use Rattle.std.specs.Prelude.{◌≤◌};

use pieces::Unfailing;
use std::io;
use std::io::Write;

const TEXT: usize = 65600;

const WORDS: usize = 12400;

// A case that was read: where the next one starts, and how much of the buffers it fills.
#[derive(Clone, Copy)]
struct Case {
    next: usize,
    size: usize,
    words: usize,
}

// The word at `at`; 0 where the input ends before it does.
fn word_at(input: &[u8], at: usize) -> u32 {
    let Some(rest) = input.get(at..) else {
        return 0;
    };
    match rest.first_chunk::<4>() {
        Some(word) => u32::from_le_bytes(*word),
        None => 0,
    }
}

fn byte_at(input: &[u8], at: usize) -> u8 {
    input.get(at).copied().unwrap_or(0)
}

fn put(text: &mut [u8], at: usize, b: u8) {
    if let Some(byte) = text.get_mut(at) {
        *byte = b;
    }
}

fn put_word(words: &mut [u32], at: usize, w: u32) {
    if let Some(word) = words.get_mut(at) {
        *word = w;
    }
}

// `count` times the byte `b`, from the start of the text on.
fn fill(text: &mut [u8], b: u8, count: u32) {
    for i in 0..count {
        put(text, i as usize, b);
    }
}

// `count` bytes of the input from `from` on, into the text from `to` on. Byte by byte, since a case may name more than either side has.
fn copy(input: &[u8], text: &mut [u8], from: usize, to: usize, count: u32) {
    if input.len() < from {
        return;
    }
    if text.len() < to {
        return;
    }
    for i in 0..count as usize {
        put(text, to + i, byte_at(input, from + i));
    }
}

// `count` tokens of one kind, one byte each, from the start of the words on.
fn run(words: &mut [u32], kind: u32, count: u32) {
    for i in 0..count {
        let at = i as usize * 3;
        put_word(words, at, kind);
        put_word(words, at + 1, i);
        put_word(words, at + 2, i + 1);
    }
}

// `count` words of the input from `from` on, into the words from `to` on. No further than either side goes, since a case may name more: one whose
// words the input does not have is cut short, and does not count.
fn copy_words(input: &[u8], words: &mut [u32], from: usize, to: usize, count: u32) {
    let Some(rest) = input.get(from..) else {
        return;
    };
    let Some(room) = words.get_mut(to..) else {
        return;
    };
    let (fours, _) = rest.as_chunks::<4>();
    for (word, four) in room.iter_mut().zip(fours).take(count as usize) {
        *word = u32::from_le_bytes(*four);
    }
}

// Reads the case at `at` into the buffers.
fn read_case(input: &[u8], text: &mut [u8], words: &mut [u32], at: usize) -> Case {
    if input.len() <= at {
        return Case {
            next: at,
            size: 0,
            words: 0,
        };
    }
    let times = word_at(input, at + 2);
    let more = word_at(input, at + 6);
    let size = times as usize + more as usize;
    let middle = at + 10 + more as usize;
    let kind = word_at(input, middle);
    let tokens = word_at(input, middle + 4);
    let extra = word_at(input, middle + 8);
    let count = tokens as usize * 3 + extra as usize;
    let next = middle + 12 + extra as usize * 4;
    fill(text, byte_at(input, at + 1), times);
    copy(input, text, at + 10, times as usize, more);
    run(words, kind, tokens);
    copy_words(input, words, middle + 12, tokens as usize * 3, extra);
    Case {
        next,
        size,
        words: count,
    }
}

// The number of the answer to a case in the buffers; 255 where it does not fit them.
fn answer(text: &[u8], words: &[u32], case: Case) -> u8 {
    let size = case.size;
    let count = case.words;
    if text.len() < size {
        return 255;
    }
    if words.len() < count {
        return 255;
    }
    match entry::entry_check(&text[..size], &words[..count]) {
        Ok(()) => 0,
        Err(refusal) => entry::refusal_number(refusal),
    }
}

// 1 where a case in the buffers gets another answer than `want`, else 0.
fn missed(text: &[u8], words: &[u32], case: Case, want: u8) -> u64
    ensures { result ≤ 1 }
{
    u64::from(answer(text, words, case) != want)
}

#[derive(Clone, Copy)]
struct Tally {
    cases: u64,
    wrong: u64,
}

fn judge(input: &[u8], text: &mut [u8], words: &mut [u32]) -> Tally {
    // Over a place: each case says where the next one starts.
    let mut at: usize = 0;
    let mut cases: u64 = 0;
    let mut wrong: u64 = 0;
    while at < input.len() {
        let case = read_case(input, text, words, at);
        let next = case.next;
        // a case that is cut short does not count
        if next <= at || input.len() < next {
            return Tally { cases, wrong };
        }
        wrong += missed(text, words, case, input[at]);
        cases += 1;
        at = next;
    }
    Tally { cases, wrong }
}

fn main(rt: HostRuntime) -> io::Result<()> {
    let mut input = [0u8; 65536];
    let size = pieces::fill(&mut rt.reader(), &mut input);
    let mut text = [0u8; TEXT];
    let mut words = [0u32; WORDS];
    let tally = judge(&input[..size], &mut text, &mut words);
    let Tally { cases, wrong } = tally;
    let mut output = Unfailing {
        output: io::writer(&rt),
    };
    writeln!(output, "{cases} cases, {wrong} wrong")
}
