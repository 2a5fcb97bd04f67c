// Standard output, to which a format goes piece by piece: each of its texts and each of its values by itself.
ghost use Rattle.std.specs.Prelude.{IsOk};

use std::fmt;
use std::fmt::Write;

#[derive(Clone, Copy)]
pub struct Pieces<'a, R> {
    pub rt: &'a R,
}

impl<R: Print> Write for Pieces<'_, R> {
    // A piece that is not taken is lost, and those after it go on.
    fn write_str(&mut self, piece: &str) -> fmt::Result
        ensures { IsOk result }
    {
        let _ = self.rt.write_all(piece.as_bytes());
        Ok(())
    }
}
