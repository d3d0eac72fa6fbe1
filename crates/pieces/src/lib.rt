// A stream of pieces, each behind its length in four bytes: reading one, writing one, and the last one, which says how many sheets the
// others were, so that a stream cut short is seen. No contract can say what a file gives or takes. Of a reader and a writer whose bytes
// are known, these say which bytes they take from the one and add to the other.
#![tactic(auto)]

ghost use Rattle.std.specs.Prelude.{◌≡◌, ◌≤◌, ◌++◌, length, take, IfSome, OnOk};
ghost use Rattle.std.specs.Fmt.{decimal};
ghost use Rattle.std.specs.Io.KnownBytes.{Appends, Consumes};
ghost use Rattle.pieces.specs.Pieces.{spelled, four_bytes, count_line, IsPiece, Fits};

mod unfailing;

use std::io;
use std::io::{Read, Write};
pub use unfailing::Unfailing;

// The number that four bytes spell, the lowest first.
pub fn word(a: u8, b: u8, c: u8, d: u8) -> u32
    ensures { result ≡ spelled a b c d }
{
    u32::from_le_bytes([a, b, c, d])
}

// The four bytes that spell a size.
fn head_of(size: usize) -> [u8; 4]
    ensures { result ≡ four_bytes size }
{
    ((size % 0x1_0000_0000) as u32).to_le_bytes()
}

// Fills the room from its front, up to the end of the input or a read that fails, and answers with how many bytes.
pub fn fill<R: Read>(input: &mut R, room: &mut [u8]) -> usize
    ensures bound { result ≤ length room.new }
    ensures bytes { Consumes (R.remaining input.old) (R.remaining input.new) (take result room.new) }
{
    let mut done = 0;
    while done < room.len() {
        match input.read(&mut room[done..]) {
            Ok(0) | Err(_) => break,
            Ok(n) => done += n,
        }
    }
    done
}

// Reads a piece into the room for it: how many bytes of it the room now begins with, fewer than its length where the stream is cut short.
// None is the end of the stream, where nothing more comes or a piece has no room.
pub fn read<R: Read>(input: &mut R, room: &mut [u8]) -> Option<usize>
    ensures room { Fits result (length room.old) }
    ensures bytes { IfSome result (λ n. IsPiece (R.remaining input.old) (R.remaining input.new) (take n room.new)) }
{
    let mut head = [0u8; 4];
    if fill(input, &mut head) < 4 {
        return None;
    }
    let size = u32::from_le_bytes(head) as usize;
    if room.len() < size {
        return None;
    }
    Some(fill(input, &mut room[..size]))
}

// Writes a piece, or hands on what failed.
pub fn try_write<W: Write>(output: &mut W, bytes: &[u8]) -> io::Result<()>
    ensures { OnOk result (Appends (W.contents output.old) (W.contents output.new) (four_bytes (length bytes.now) ++ bytes.now)) }
{
    output.write_all(&head_of(bytes.len()))?;
    output.write_all(bytes)
}

// Writes a piece, and passes over a write that fails: the bytes are tried though their length was not taken. Nothing can be promised of what
// the output then holds.
pub fn write<W: Write>(output: &mut W, bytes: &[u8]) {
    let _ = try_write(&mut Unfailing { output }, bytes);
}

// How many digits a number has.
fn digits_of(number: u32) -> usize
    ensures { result ≡ length (decimal number) }
{
    match number.checked_ilog10() {
        Some(log) => log as usize + 1,
        None => 1,
    }
}

// Writes the last piece, how many sheets the others were, or hands on what failed.
pub fn try_write_count<W: Write>(output: &mut W, number: u32) -> io::Result<()>
    ensures { OnOk result (Appends (W.contents output.old) (W.contents output.new) (four_bytes (length (count_line number)) ++ count_line number)) }
{
    output.write_all(&head_of(digits_of(number) + b" sheets\n".len()))?;
    write!(output, "{number} sheets\n")
}

// Writes the last piece, and passes over a write that fails, as `write` does.
pub fn write_count<W: Write>(output: &mut W, number: u32) {
    let _ = try_write_count(&mut Unfailing { output }, number);
}

#[cfg(test)]
mod tests {
    use super::{read, try_write, try_write_count, write, write_count};
    use std::io;
    use std::io::Write;

    // Takes nothing of its first write, and all of the others: how many bytes.
    #[derive(Drop)]
    struct Late {
        begun: bool,
        taken: usize,
    }

    impl Write for Late {
        fn write(&mut self, buf: &[u8]) -> io::Result<usize> {
            if !self.begun {
                self.begun = true;
                return Ok(0);
            }
            self.taken = self.taken.wrapping_add(buf.len());
            Ok(buf.len())
        }

        fn flush(&mut self) -> io::Result<()> {
            Ok(())
        }
    }

    const LATE: Late = Late {
        begun: false,
        taken: 0,
    };

    #[test]
    fn the_next_write_is_tried(rt: HostRuntime) {
        let mut output = LATE;
        assert!(rt; try_write(&mut output, b"ab").is_err());
        assert_eq!(rt; output.taken, 0);
        let mut output = LATE;
        write(&mut output, b"ab");
        assert_eq!(rt; output.taken, 2);
        let mut output = LATE;
        write_count(&mut output, 5453);
        assert_eq!(rt; output.taken, 12);
    }

    // That a writer takes what it has room for, no contract says.
    #[test]
    fn a_stream_there_and_back(rt: HostRuntime) -> io::Result<()> {
        let mut stream = Vec::new(rt.alloc());
        try_write(&mut stream, b"ab")?;
        try_write_count(&mut stream, 5453)?;
        assert_eq!(rt;
            stream.as_slice(),
            b"\x02\0\0\0ab\x0c\0\0\05453 sheets\n".as_slice()
        );
        let mut passed_over = Vec::new(rt.alloc());
        write(&mut passed_over, b"ab");
        write_count(&mut passed_over, 5453);
        assert_eq!(rt; passed_over.as_slice(), stream.as_slice());
        let mut rest = stream.as_slice();
        let mut room = [0u8; 12];
        assert_eq!(rt; read(&mut rest, &mut room), Some(2));
        assert_eq!(rt; read(&mut rest, &mut room[..11]), None);
        assert_eq!(rt; read(&mut rest, &mut room), None);
        Ok(())
    }
}
