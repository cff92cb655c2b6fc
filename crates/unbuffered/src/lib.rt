// Output in which each text and each value of a format is written by itself, and one that cannot be written is left out: what
// comes after it is written all the same.
#![tactic(auto)]

ghost use Rattle.std.specs.Prelude.{IsOk};

use std::fmt::{Display, Write};
use std::{fmt, io};

// Prints so by `R`. Nothing that it prints is a failure.
#[derive(Drop)]
pub struct Unbuffered<R>(pub R);

// Writes until nothing is left, or up to the first write that takes nothing or fails, be it for a signal. A write that goes on has
// taken a byte or more.
fn write_piece(rt: &impl Print, piece: &[u8]) {
    let mut rest = piece;
    for _ in 0..piece.len() {
        match rt.write_some(rest) {
            Ok(n) if 0 < n && n < rest.len() => rest = &rest[n..],
            _ => return,
        }
    }
}

#[derive(Drop)]
struct Pieces<'a, R>(&'a R);

impl<'a, R: Print> Write for Pieces<'a, R> {
    fn write_str(&mut self, s: &str) -> fmt::Result {
        write_piece(self.0, s.as_bytes());
        Ok(())
    }
}

impl<R: Print> Print for Unbuffered<R> {
    fn print<D: Display + Drop>(&self, value: D) -> io::Result<()>
        ensures { IsOk result }
    {
        let _ = Pieces(&self.0).write(value);
        Ok(())
    }

    fn println<D: Display + Drop>(&self, value: D) -> io::Result<()>
        ensures { IsOk result }
    {
        print!(self; "{value}\n")
    }

    fn write_all(&self, bytes: &[u8]) -> io::Result<()>
        ensures { IsOk result }
    {
        write_piece(&self.0, bytes);
        Ok(())
    }
}

#[cfg(test)]
mod tests {
    use super::*;
    use std::cell::Cell;

    // Takes pieces of any length but two, and keeps how long each was, a digit each; 0 for one that it did not take.
    #[derive(Drop)]
    struct Lengths {
        seen: Cell<usize>,
    }

    impl Print for Lengths {
        fn print<D: Display + Drop>(&self, _value: D) -> io::Result<()> {
            self.write_all(b"a whole format")
        }

        fn println<D: Display + Drop>(&self, _value: D) -> io::Result<()> {
            self.write_all(b"a whole line")
        }

        fn write_all(&self, bytes: &[u8]) -> io::Result<()> {
            let taken = bytes.len() != 2;
            let length = if taken { bytes.len() } else { 0 };
            self.seen
                .set(self.seen.get().wrapping_mul(10).wrapping_add(length));
            if taken {
                Ok(())
            } else {
                Err(io::Error::from(io::ErrorKind::WriteZero))
            }
        }
    }

    // A piece that is not taken is left out, and those after it are written.
    #[test]
    fn writes_each_piece(rt: HostRuntime) {
        let out = Lengths { seen: Cell::new(0) };
        let number = 12345;
        let format = print!(&Unbuffered(&out); "abc {number}: {number} end\n");
        let line = println!(&Unbuffered(&out); "line {number}");
        let bytes = Unbuffered(&out).write_all(b"no");
        assert!(rt; format.is_ok() && line.is_ok() && bytes.is_ok());
        assert_eq!(rt; out.seen.get(), 45055_551_0);
    }
}
