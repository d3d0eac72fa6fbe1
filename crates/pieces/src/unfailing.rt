// A writer for a program that goes on past a write that fails, and ends as if it had not.
ghost use Rattle.std.specs.Prelude.{IsOk, OnOk};
ghost use Rattle.std.specs.Io.{WritesAtMost};
ghost use Rattle.std.specs.Io.KnownBytes.{Appends, Keeps, WriteAppends};

use std::io;
use std::io::Write;

// Passes on what it is given, and answers that all is written: what the writer below does not take is lost, and the next write is tried.
// So what the writer holds is not known.
#[derive(Drop)]
pub struct Unfailing<W> {
    pub output: W,
}

impl<W: Write> Write for Unfailing<W> {
    fn write(&mut self, buf: &[u8]) -> io::Result<usize>
        ensures bound { WritesAtMost result buf.now }
        ensures bytes { WriteAppends None None result buf.now }
        ensures taken { IsOk result }
    {
        match self.output.write(buf) {
            Ok(n) if n > 0 => Ok(n),
            _ => Ok(buf.len()),
        }
    }

    fn flush(&mut self) -> io::Result<()>
        ensures bytes { Keeps None None }
        ensures taken { IsOk result }
    {
        let _ = self.output.flush();
        Ok(())
    }

    fn write_all(&mut self, buf: &[u8]) -> io::Result<()>
        ensures bytes { OnOk result (Appends None None buf.now) }
        ensures taken { IsOk result }
    {
        let _ = self.output.write_all(buf);
        Ok(())
    }
}
