// Lists hand-made buffers, sound, damaged and cyclic ones. cases.py says what a case is, makes them, and lists them by itself.
#![tactic(auto)]

use listing::Counts;
use pieces::Unfailing;
use std::io;
use std::io::Write;

// The words of a case: eight that say what is reported and lent, 96 of nodes, 24 of errors.
const CASE: usize = 128;

const CASE_BYTES: usize = 512;

// The most bytes that are read, and the most cases that are listed.
const INPUT: usize = 16384;

const CASES: usize = 31;

// The expected kinds of every case.
const EXPECTED: [u8; 16] = [70, 29, 21, 31, 20, 24, 65, 27, 50, 4, 52, 54, 0, 255, 78, 9];

// The words of a case, each in four bytes, the lowest first.
fn words_of(case: &[u8; CASE_BYTES]) -> [u32; CASE] {
    let mut words = [0; CASE];
    let (fours, _) = case.as_chunks::<4>();
    for (word, four) in words.iter_mut().zip(fours) {
        *word = u32::from_le_bytes(*four);
    }
    words
}

// Lists a case, from its nodes, its errors and what is lent of the expected kinds and of a buffer.
fn list(output: &mut impl Write, case: &[u32; CASE]) -> io::Result<()> {
    let nodes = &case[8..8 + (case[3] as usize).min(96)];
    let errors = &case[104..104 + (case[4] as usize).min(24)];
    let expected = &EXPECTED[..(case[5] as usize).min(16)];
    let counts = Counts {
        reads: case[0],
        nodes: case[1],
        errors: case[2],
    };
    let mut space = [0u8; 4096];
    let out = &mut space[..(case[6] as usize).min(4096)];
    match listing::listing(nodes, errors, expected, out, counts) {
        Some(n) => output.write_all(out.get(..n).unwrap_or_default()),
        None => output.write_all(b"no room\n"),
    }
}

fn main(rt: HostRuntime) -> io::Result<()> {
    let mut input = [0u8; INPUT];
    let n = pieces::fill(&mut rt.reader(), &mut input);
    let mut output = Unfailing {
        output: io::writer(&rt),
    };
    let (cases, _) = input[..n].as_chunks::<CASE_BYTES>();
    for case in cases.iter().take(CASES) {
        list(&mut output, &words_of(case))?;
    }
    Ok(())
}
