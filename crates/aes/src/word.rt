// A word of four bytes, the first in the low octet.
ghost use Rattle.std.specs.Prelude.{◌≡◌, ◌+◌, ◌*◌, ◌≤◌, length};
ghost use Rattle.aes.specs.Cipher.{word_at};
ghost use Rattle.aes.specs.KeyExpansion.{rot_word};
ghost use Rattle.aes.specs.Word.{bytes};

pub(crate) fn pack(b: [u8; 4]) -> u32
    ensures { bytes result ≡ b }
{
    u32::from_le_bytes(b)
}

pub(crate) fn unpack(x: u32) -> [u8; 4]
    ensures { result ≡ bytes x }
{
    x.to_le_bytes()
}

// Word i of a block or a key schedule.
pub(crate) fn word_at(w: &[u8], i: usize) -> u32
    requires { 4 * i + 4 ≤ length w.now }
    ensures { bytes result ≡ word_at w.now i }
{
    pack([w[4 * i], w[4 * i + 1], w[4 * i + 2], w[4 * i + 3]])
}

pub(crate) fn rot_word(x: u32) -> u32
    ensures { bytes result ≡ rot_word (bytes x) }
{
    x.rotate_right(8)
}
