// RFC 3610, section 2.2: the chain that a code is made of.
ghost use Rattle.std.specs.Prelude.{◌≡◌, ◌+◌, ◌≤◌, length, take};
ghost use Rattle.aes.specs.KeyExpansion.{aes128};
ghost use Rattle.aes.specs.Word.{bytes_of};
ghost use Rattle.ccm.specs.Limits.{most_data, most_message, code_octets};
ghost use Rattle.ccm.specs.Blocks.{blocks};
ghost use Rattle.ccm.specs.Ccm.{B₀, coded, chain};

use crate::blocks::{add, block_at, formatted};
use crate::keyed::{Cipher, Context};
use crate::limits::MOST_DATA;
use aes::State;

impl<'a> Cipher<'a> {
    // X after the blocks of s.
    fn absorb(&self, x: State, s: &[u8]) -> State
        ensures { bytes_of result ≡ chain (aes128 self.now) (bytes_of x) (blocks s.now) }
    {
        let mut y = x;
        for k in 0..s.len().div_ceil(16) {
            y = self.encrypt(add(y, block_at(s, 16 * k)));
        }
        y
    }
}

// The authenticated data after its length, in an array with room for the most: there is no heap.
fn coded(aad: &[u8]) -> [u8; MOST_DATA + 2]
    requires { length aad.now ≤ most_data }
    ensures { take (length aad.now + 2) result ≡ coded aad.now }
{
    let n = aad.len();
    let mut out = [0u8; MOST_DATA + 2];
    let [high, low] = (n as u16).to_be_bytes();
    out[0] = high;
    out[1] = low;
    octets::copy(aad, &mut out[2..n + 2]);
    out
}

impl Context<'_, '_> {
    // X after B_0, for a message of n octets, and the blocks of the authenticated data.
    pub(crate) fn begin(&self, n: usize) -> State
        requires { n ≤ most_message }
        ensures { let E = aes128 self.now.cipher in
            bytes_of result ≡ chain E (E (B₀ code_octets self.now.nonce n)) (blocks (coded self.now.aad.now)) }
    {
        let first = self.cipher.encrypt(formatted(0x59, self.nonce, n));
        let data = coded(self.aad);
        self.cipher.absorb(first, &data[..self.aad.len() + 2])
    }
}
