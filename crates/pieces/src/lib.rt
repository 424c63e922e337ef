// How a program prints a line: piece by piece. What a format hands over at once, a text or the digits of a number, is a write of its own.
#![tactic(auto)]

ghost use Rattle.std.specs.Prelude.{IsOk};

use std::fmt;

// A piece that can't be printed is let go, and the pieces after it are printed all the same: of a line for which a pipe has no room the small ones still get
// through. So is one whose write a signal interrupts: std's `write_all` would try again.
#[derive(Drop)]
pub struct Pieces<R>(pub R);

impl<R: Print> fmt::Write for Pieces<R> {
    fn write_str(&mut self, piece: &str) -> fmt::Result
        ensures { IsOk result }
    {
        let mut rest = piece.as_bytes();
        while !rest.is_empty() { // each write takes a part
            match self.0.write_some(rest) {
                Ok(0) | Err(_) => break,
                Ok(n) => rest = &rest[n..],
            }
        }
        Ok(())
    }
}
