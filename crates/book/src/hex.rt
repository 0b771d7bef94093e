// Octets in lower-case hexadecimal, read and written.
ghost use Rattle.std.specs.Prelude.{◌≡◌, ◌+◌, ◌*◌, ◌<◌, ◌≤◌, true, not, length};
ghost use Rattle.octets.specs.Options.{contents, is_none};
ghost use Rattle.book.specs.Hex.{letter, digit, hex_of, octets_of};
ghost use Rattle.book.specs.Put.{HasRoom, Writes};
ghost use Rattle.book.specs.Handed.{read_in, count_in, array_in, block, pairs};

use crate::put::Page;

// The number of a digit, and 16 for any other octet, as `digit` of specs/Hex.antt has it. By tests: as a match over ranges it made
// books of long lines take 1.15 of the time, since the loops below are to have no branch on what they read.
pub(crate) fn digit_of(x: u8) -> u8
    ensures { result ≡ digit x }
{
    if b'0' <= x && x <= b'9' {
        return x - b'0';
    }
    if b'a' <= x && x <= b'f' {
        return x - b'a' + 10;
    }
    16
}

// Reads digits that are to fill all of out. Whether all are digits is gathered over the loop, which then has no branch on what
// it reads.
fn read_all(digits: &[u8], out: &mut [u8]) -> bool
    requires { length digits.now ≡ 2 * length out.old }
    ensures value { result ≡ not (is_none (octets_of digits.now)) }
    ensures out_after { result ≡ true → out.new ≡ contents (octets_of digits.now) }
{
    let mut good = true;
    for (i, x) in out.iter_mut().enumerate() {
        let high = digit_of(digits[2 * i]);
        let low = digit_of(digits[2 * i + 1]);
        good = good & (high < 16) & (low < 16);
        *x = 16 * (high % 16) + low % 16;
    }
    good
}

// The octets of digits that are to write N of them.
pub(crate) fn read_array<const N: usize>(digits: &[u8]) -> Option<[u8; N]>
    requires { length digits.now ≡ 2 * N }
    ensures { array_in result ≡ octets_of digits.now }
{
    let mut octets = [0u8; N];
    if read_all(digits, &mut octets) {
        Some(octets)
    } else {
        None
    }
}

// The octets that are read at once.
const BLOCK: usize = 32;

// The digits of a block, each two as one number.
fn pairs_of(digits: &[u8]) -> [u16; BLOCK]
    requires { length digits.now ≡ 2 * block }
    ensures { result ≡ pairs digits.now }
{
    let mut pairs = [0u16; BLOCK];
    for (i, pair) in pairs.iter_mut().enumerate() {
        *pair = u16::from_le_bytes([digits[2 * i], digits[2 * i + 1]]);
    }
    pairs
}

// Reads a block as read_all does, from its pairs: of these many are read at once, which single digits two apart are not.
fn read_block(digits: &[u8], out: &mut [u8]) -> bool
    requires { (length digits.now ≡ 2 * length out.old) × (length out.old ≡ block) }
    ensures value { result ≡ not (is_none (octets_of digits.now)) }
    ensures out_after { result ≡ true → out.new ≡ contents (octets_of digits.now) }
{
    let mut good = true;
    for (i, pair) in pairs_of(digits).iter().enumerate() {
        let [first, second] = pair.to_le_bytes();
        let high = digit_of(first);
        let low = digit_of(second);
        good = good & (high < 16) & (low < 16);
        out[i] = 16 * (high % 16) + low % 16;
    }
    good
}

// Reads the octets that the digits write into the front of out, and says how many: in blocks as far as they go.
pub(crate) fn read_hex(digits: &[u8], out: &mut [u8]) -> Option<usize>
    requires { length digits.now ≤ 2 * length out.old }
    ensures out_after { read_in result out.new ≡ octets_of digits.now }
    ensures result_in_bounds { count_in result ≤ length out.new }
{
    if digits.len() % 2 == 1 {
        return None;
    }
    let n = digits.len() / 2;
    let mut good = true;
    for j in 0..n / BLOCK {
        let at = BLOCK * j;
        let end = at + BLOCK;
        let read = read_block(&digits[2 * at..2 * end], &mut out[at..end]);
        good = good & read;
    }
    let at = n - n % BLOCK;
    let read = read_all(&digits[2 * at..], &mut out[at..n]);
    if good & read { Some(n) } else { None }
}

// The digit of a number below 16.
fn letter_of(n: u8) -> u8
    requires { n < 16 }
    ensures { result ≡ letter n }
{
    if n < 10 { b'0' + n } else { b'a' + (n - 10) }
}

// The octets' digits into all of out. The library writes digits by `write!` alone, an octet at a time, and the crate hex reads `A` to
// `F` too.
fn write_hex(octets: &[u8], out: &mut [u8])
    requires { length out.old ≡ 2 * length octets.now }
    ensures { out.new ≡ hex_of octets.now }
{
    for (i, x) in octets.iter().enumerate() {
        out[2 * i] = letter_of(*x / 16);
        out[2 * i + 1] = letter_of(*x % 16);
    }
}

impl Page<'_> {
    // Writes the octets' digits behind what is written.
    pub(crate) fn hex(&mut self, octets: &[u8])
        requires { HasRoom self.old (2 * length octets.now) }
        ensures { Writes self.old (hex_of octets.now) self.new }
    {
        let at = self.end;
        let end = at + 2 * octets.len();
        write_hex(octets, &mut self.room[at..end]);
        self.end = end;
    }
}
