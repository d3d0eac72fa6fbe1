// Reads integer spellings with Rust's answers from standard input, asks `ints::int_value` for each, and writes how many there are
// and how many differ, after the number of each one that does. oracle/ints/README.md says what a case is.
#![tactic(auto)]

ghost use Rattle.std.specs.Prelude.{◌≤◌};

use ints::{Int, IntFault, Sign};
use pieces::Unfailing;
use std::io;
use std::io::Write;

// What a case holds besides its spelling: a byte for its length, one for the answer, eight for the magnitude.
const FRAME: usize = 10;

// The answer's byte: a fault's number, or 4, 5 or 6 for a value, by its sign.
fn answer_byte(answer: Result<Int, IntFault>) -> u8 {
    match answer {
        Ok(int) => match int.sign {
            Sign::Absent => 4,
            Sign::Plus => 5,
            Sign::Minus => 6,
        },
        Err(fault) => ints::fault_number(fault),
    }
}

fn magnitude_of(answer: Result<Int, IntFault>) -> u64 {
    answer.map_or(0, |int| int.magnitude)
}

// How many bytes the case takes that starts with this one.
fn size_of(first: u8) -> usize
    ensures { (10 ≤ result) × (result ≤ 265) }
{
    first as usize + FRAME
}

// Whether the case at the start of s is whole, and answered as it says.
fn is_right(s: &[u8]) -> bool {
    let Some(&first) = s.first() else {
        return false;
    };
    let Some(case) = s.get(..size_of(first)) else {
        return false;
    };
    let end = case.len() - 9;
    let answer = ints::int_value(case, 1, end as u32);
    answer_byte(answer) == case[end] && case.ends_with(&magnitude_of(answer).to_le_bytes())
}

// Writes the number of each case that differs, and how many there are of both.
fn run(output: &mut impl Write, s: &[u8]) -> io::Result<()> {
    let mut rest = s;
    let mut cases: u64 = 0;
    let mut wrong: u64 = 0;
    while let Some(&first) = rest.first() {
        cases += 1;
        if !is_right(rest) {
            writeln!(output, "case {cases} differs")?;
            wrong += 1;
        }
        rest = rest.get(size_of(first)..).unwrap_or_default();
    }
    writeln!(output, "{cases} cases, {wrong} wrong")
}

fn main(rt: HostRuntime) -> io::Result<()> {
    let mut input = [0u8; 65536];
    let n = pieces::fill(&mut rt.reader(), &mut input);
    let mut output = Unfailing {
        output: io::writer(&rt),
    };
    run(&mut output, &input[..n])
}
