// Replays stored bundles: a stream of them from standard input, each piece behind its length, and the stream of their listings to
// standard output, which the gate holds to the stored answers. The last piece says how many they were, so that a stream cut short is seen.
#![tactic(auto)]

use answer::answer;
use listing::LENT_OUT;
use std::io;
use std::io::Write;

// One byte more than the largest bundle that has an answer of its own, so that a larger one is seen to be.
const ROOM: usize = 29893;

// At most so many pieces.
const PIECES: u32 = 65536;

// Writes the listing of a bundle.
fn list(output: &mut impl Write, bundle: &[u8]) {
    let mut out = [0u8; LENT_OUT];
    let end = answer(bundle, &mut out);
    pieces::write(output, out.get(..end).unwrap_or_default());
}

// The same loop as in `words`: a function for both would take the answer to a piece as a closure, of whose writing its contract could say
// nothing.
fn main(rt: HostRuntime) {
    let mut input = rt.reader();
    let mut output = io::writer(&rt);
    let mut room = [0u8; ROOM];
    let mut count = 0;
    for number in 1..=PIECES {
        let Some(n) = pieces::read(&mut input, &mut room) else {
            break;
        };
        list(&mut output, &room[..n]);
        count = number;
    }
    pieces::write_count(&mut output, count);
}
