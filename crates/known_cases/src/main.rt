// Lists the sheets whose outcomes the document tells. stdout has the original's answers; where it has none, at `fn f () {+}` and at the
// string that is refused, those of the document's rules.
#![tactic(auto)]

use answer::answer;
use listing::LENT_OUT;
use pieces::Unfailing;
use std::io;
use std::io::{Cursor, Write};

// A token's kind, and the bytes that it takes: the tokens of a sheet lie side by side.
type Token = (u8, u8);

// The room for a bundle: the longest here has 109 bytes.
const ROOM: usize = 512;

const SHEETS: [(&[u8], &[Token]); 20] = [
    // These are also in the proved table.
    (b"", &[]),
    (
        b"a is int * b",
        &[
            (4, 1),
            (2, 1),
            (23, 2),
            (2, 1),
            (4, 3),
            (2, 1),
            (66, 1),
            (2, 1),
            (4, 1),
        ],
    ),
    (b"{\n}", &[(52, 1), (69, 1), (53, 1)]),
    (b"{1}", &[(52, 1), (5, 1), (53, 1)]),
    (b"{(x)}", &[(52, 1), (50, 1), (4, 1), (51, 1), (53, 1)]),
    (
        b"{(x): 1}",
        &[
            (52, 1),
            (50, 1),
            (4, 1),
            (51, 1),
            (59, 1),
            (2, 1),
            (5, 1),
            (53, 1),
        ],
    ),
    (
        b"{({(x)})}",
        &[
            (52, 1),
            (50, 1),
            (52, 1),
            (50, 1),
            (4, 1),
            (51, 1),
            (53, 1),
            (51, 1),
            (53, 1),
        ],
    ),
    (
        b"fn () {}",
        &[(29, 2), (2, 1), (50, 1), (51, 1), (2, 1), (52, 1), (53, 1)],
    ),
    (b")", &[(51, 1)]),
    (b"import a", &[(21, 6), (2, 1), (4, 1)]),
    (
        b"fn f () {+}",
        &[
            (29, 2),
            (2, 1),
            (4, 1),
            (2, 1),
            (50, 1),
            (51, 1),
            (2, 1),
            (52, 1),
            (64, 1),
            (53, 1),
        ],
    ),
    // And others.
    (b"not not a", &[(24, 3), (2, 1), (24, 3), (2, 1), (4, 1)]),
    (
        b"{a: 1}",
        &[(52, 1), (4, 1), (59, 1), (2, 1), (5, 1), (53, 1)],
    ),
    (b"9223372036854775807", &[(5, 19)]),
    (b"9223372036854775808", &[(5, 19)]),
    (b"-9223372036854775808", &[(65, 1), (5, 19)]),
    (b"\"", &[(7, 1)]),
    (
        b"{1: 2}",
        &[(52, 1), (5, 1), (59, 1), (2, 1), (5, 1), (53, 1)],
    ),
    (
        b"match x {}",
        &[(12, 5), (2, 1), (4, 1), (2, 1), (52, 1), (53, 1)],
    ),
    (
        b"match x {\n}",
        &[(12, 5), (2, 1), (4, 1), (2, 1), (52, 1), (69, 1), (53, 1)],
    ),
];

// A count in four bytes, the lowest first. `words` has the same lines: a crate for them would be no plainer.
fn put_count(bundle: &mut impl Write, count: usize) -> io::Result<()> {
    bundle.write_all(&u32::try_from(count).unwrap_or(u32::MAX).to_le_bytes())
}

// The bundle of a sheet.
fn put_bundle(bundle: &mut impl Write, text: &[u8], tokens: &[Token]) -> io::Result<()> {
    put_count(bundle, text.len())?;
    bundle.write_all(text)?;
    put_count(bundle, tokens.len())?;
    let mut start = 0u32;
    for &(kind, length) in tokens {
        let end = start.wrapping_add(u32::from(length));
        bundle.write_all(&[kind])?;
        bundle.write_all(&start.to_le_bytes())?;
        bundle.write_all(&end.to_le_bytes())?;
        start = end;
    }
    Ok(())
}

// A bundle's listing. A function of its own: behind other writes the compiler clears the buffer twice.
fn list_bundle(output: &mut impl Write, bundle: &[u8]) -> io::Result<()> {
    let mut out = [0u8; LENT_OUT];
    let end = answer(bundle, &mut out);
    output.write_all(out.get(..end).unwrap_or_default())
}

// A sheet's text after a mark, and its listing.
fn list(output: &mut impl Write, text: &[u8], tokens: &[Token]) -> io::Result<()> {
    output.write_all(b"> ")?;
    output.write_all(text)?;
    output.write_all(b"\n")?;
    let mut room = [0u8; ROOM];
    let mut bundle = Cursor::new(&mut room[..]);
    put_bundle(&mut bundle, text, tokens)?;
    let n = bundle.position() as usize;
    list_bundle(output, room.get(..n).unwrap_or_default())
}

fn main(rt: HostRuntime) -> io::Result<()> {
    let mut output = Unfailing {
        output: io::writer(&rt),
    };
    for (text, tokens) in SHEETS {
        list(&mut output, text, tokens)?;
    }
    Ok(())
}
