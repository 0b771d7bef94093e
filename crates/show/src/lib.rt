// What the programs print: octets in hexadecimal digits, and the standard output that they print on.
#![tactic(auto)]

ghost use Rattle.std.specs.Prelude.{Some, IsOk};
ghost use Rattle.show.specs.Digits.{hexadecimal};

use std::{fmt, io};

// Octets in hexadecimal digits.
#[derive(Clone, Copy)]
pub struct Hex<'a>(pub &'a [u8]);

impl fmt::Display for Hex<'_> {
    ghost output = { λ h. Some (hexadecimal h.0.now) };

    fn fmt<W: fmt::Write>(&self, f: &mut fmt::Formatter<W>) -> fmt::Result {
        for &x in self.0 {
            write!(f, "{x:02x}")?;
        }
        Ok(())
    }
}

// The standard output, on which a write that fails is let go: the program goes on, and ends as where none failed.
#[derive(Clone, Copy)]
pub struct Output(pub HostRuntime);

impl Print for Output {
    fn print<D: fmt::Display + Drop>(&self, value: D) -> io::Result<()>
        ensures { IsOk result }
    {
        let _ = self.0.print(value);
        Ok(())
    }

    fn println<D: fmt::Display + Drop>(&self, value: D) -> io::Result<()>
        ensures { IsOk result }
    {
        let _ = self.0.println(value);
        Ok(())
    }

    fn write_all(&self, bytes: &[u8]) -> io::Result<()>
        ensures { IsOk result }
    {
        let _ = self.0.write_all(bytes);
        Ok(())
    }
}
