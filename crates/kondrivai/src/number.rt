// Numbers and strings of octets in a buffer, read and written. A number has its least significant octet first. Buffer and place stay two
// parameters: a place is the constant of a field, and no end of what is written.
ghost use Rattle.std.specs.Prelude.{◌≡◌, [], ◌∷◌, ◌++◌, ◌+◌, ◌≤◌, length, take};
ghost use Rattle.octets.specs.Octets.{word};
ghost use Rattle.rules.specs.Header.{part};
ghost use Rattle.kondrivai.specs.Numbers.{octets_of};

use octets::octets_at;

// The number of six octets from place i on. The library has no integer of that size, so it is read as one of four and one of two, and
// written so below: each is one load, or one store.
pub(crate) fn six_at(b: &[u8], i: usize) -> u64
    requires { i + 6 ≤ length b.now }
    ensures { result ≡ word (part b.now i 6) }
{
    let low = u32::from_le_bytes(octets_at(b, i));
    let high = u16::from_le_bytes(octets_at(b, i + 4));
    u64::from(low) + u64::from(high) * 0x1_0000_0000
}

// Each of these writes its octets from place i on, and promises what then stands before and in them: a record is written from front to end.
pub(crate) fn put_octet(x: u8, b: &mut [u8], i: usize)
    requires { i + 1 ≤ length b.old }
    ensures { take (i + 1) b.new ≡ take i b.old ++ (x ∷ []) }
{
    b[i] = x;
}

pub(crate) fn put_octets(s: &[u8], b: &mut [u8], i: usize)
    requires { i + length s.now ≤ length b.old }
    ensures { take (i + length s.now) b.new ≡ take i b.old ++ s.now }
{
    let e = i + s.len();
    octets::copy(s, &mut b[i..e]);
}

pub(crate) fn put_six(n: u64, b: &mut [u8], i: usize)
    requires { i + 6 ≤ length b.old }
    ensures { take (i + 6) b.new ≡ take i b.old ++ octets_of 6 n }
{
    let low = (n % 0x1_0000_0000) as u32;
    let high = (n / 0x1_0000_0000 % 0x1_0000) as u16;
    put_octets(&low.to_le_bytes(), b, i);
    put_octets(&high.to_le_bytes(), b, i + 4);
}
