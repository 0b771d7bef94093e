// Numbers in decimal digits, written.
ghost use Rattle.std.specs.Prelude.{◌≡◌, length};
ghost use Rattle.book.specs.Limits.{most_digits};
ghost use Rattle.book.specs.Decimal.{decimal};
ghost use Rattle.book.specs.Put.{HasRoom, Writes};

use crate::put::Page;

// The digits of a u64 at most.
pub(crate) const MOST_DIGITS: usize = 20;

// How many digits n has. Both loops go over what is left of n: the library has no `ilog10`, and with digits from the crate itoa,
// copied from its buffer, a book of short lines took 1.3 of the time.
fn places(n: u64) -> usize
    ensures { result ≡ length (decimal n) }
{
    let mut count = 1;
    let mut rest = n;
    while 10 <= rest {
        rest = rest / 10;
        count += 1;
    }
    count
}

// Writes n's digits into all of out, the last one first. By a `for` over the places from the last one down, a book of the shortest lines
// took 1.07 of the time.
fn write_decimal(n: u64, out: &mut [u8])
    requires { length out.old ≡ length (decimal n) }
    ensures { out.new ≡ decimal n }
{
    let mut rest = n;
    let mut i = out.len();
    while 10 <= rest {
        i -= 1;
        out[i] = b'0' + (rest % 10) as u8;
        rest = rest / 10;
    }
    out[0] = b'0' + rest as u8;
}

impl Page<'_> {
    // Writes n's digits behind what is written.
    #[tactic(auto, using(crate::proofs::Decimals::length_decimal))]
    pub(crate) fn decimal(&mut self, n: u64)
        requires { HasRoom self.old most_digits }
        ensures { Writes self.old (decimal n) self.new }
    {
        let at = self.end;
        let end = at + places(n);
        write_decimal(n, &mut self.room[at..end]);
        self.end = end;
    }
}
