// FIPS 197, section 5.2: the key schedule.
ghost use Rattle.std.specs.Prelude.{◌≡◌, ◌-◌, ◌≤◌, ◌<◌};
ghost use Rattle.aes.specs.Cipher.{word_at};
ghost use Rattle.aes.specs.KeyExpansion.{xor_word, temp, key_expansion};
ghost use Rattle.aes.specs.Word.{bytes, Products};

use crate::column::sub_word;
use crate::word::{rot_word, unpack, word_at};

// The powers of x in Rcon[1] to Rcon[10].
const RCON: [u32; 10] = [0x01, 0x02, 0x04, 0x08, 0x10, 0x20, 0x40, 0x80, 0x1b, 0x36];

// What word i adds to word i - 4, made of word i - 1.
fn temp(t: &[u64; 256], i: usize, last: u32) -> u32
    requires { (4 ≤ i) × (i < 44) }
    ensures { Products t.now → bytes result ≡ temp 4 i (bytes last) }
{
    if i % 4 == 0 {
        sub_word(t, rot_word(last)) ^ RCON[i / 4 - 1]
    } else {
        last
    }
}

// Word i, from the word before it, which is at hand, and the one four before it.
fn next_word(t: &[u64; 256], w: &[u8; 176], i: usize, last: u32) -> u32
    requires { (4 ≤ i) × (i < 44) }
    ensures { Products t.now → bytes result ≡ xor_word (word_at w.now (i - 4)) (temp 4 i (bytes last)) }
{
    word_at(w, i - 4) ^ temp(t, i, last)
}

// KeyExpansion of a key of 16 octets, for ten rounds.
pub fn expand(t: &[u64; 256], key: [u8; 16]) -> [u8; 176]
    ensures { Products t.now → result ≡ key_expansion 4 10 key }
{
    let mut w = [0u8; 176];
    octets::copy(&key, &mut w);
    let mut last = word_at(&w, 3);
    for i in 4..44 {
        last = next_word(t, &w, i, last);
        octets::copy(&unpack(last), &mut w[4 * i..4 * i + 4]);
    }
    w
}
