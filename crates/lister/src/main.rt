// The lister: a bundle from standard input, its listing to standard output.
#![tactic(auto)]

use answer::answer;
use listing::LENT_OUT;
use pieces::Unfailing;
use std::io;
use std::io::Write;

// One byte more than the largest bundle that has an answer of its own, so that a larger one is seen to be. `replay` has the same room.
const ROOM: usize = 29893;

fn main(rt: HostRuntime) -> io::Result<()> {
    let mut bundle = [0u8; ROOM];
    let n = pieces::fill(&mut rt.reader(), &mut bundle);
    let mut out = [0u8; LENT_OUT];
    let end = answer(&bundle[..n], &mut out);
    let mut output = Unfailing {
        output: io::writer(&rt),
    };
    output.write_all(out.get(..end).unwrap_or_default())
}
