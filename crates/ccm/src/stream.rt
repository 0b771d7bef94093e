// RFC 3610, section 2.3: the key stream, and the chain of section 2.2 beside it.
ghost use Rattle.std.specs.Prelude.{Bool, true, false, cond, ◌≡◌, ◌+◌, ◌*◌, ◌≤◌, length, take};
ghost use Rattle.octets.specs.Octets.{same};
ghost use Rattle.aes.specs.KeyExpansion.{aes128};
ghost use Rattle.aes.specs.Word.{bytes_of};
ghost use Rattle.ccm.specs.Limits.{most_message, code_octets};
ghost use Rattle.ccm.specs.Blocks.{xors, most_two_octets, padded, blocks};
ghost use Rattle.ccm.specs.Ccm.{B₀, coded, S, masked, chain};
ghost use Rattle.ccm.specs.Room.{counter_at};

use crate::blocks::{add, block_at, clipped, formatted, put_block};
use crate::keyed::Context;
use crate::limits::CODE_OCTETS;
use aes::State;

// Where a pass over a message stands: the next block of the key stream, and X.
#[derive(Clone, Copy)]
pub(crate) struct Place {
    pub(crate) key: State,
    pub(crate) x: State,
}

// Which way a pass goes.
pub(crate) trait Direction {
    ghost opens: { Bool };

    // The block that the chain takes of a message: the text's own, or, of a text that is opened, the n octets of it decrypted.
    fn message_block(block: State, masked: State, n: usize) -> State
        ensures { bytes_of result ≡ cond opens (padded (take n (bytes_of masked))) (bytes_of block) };
}

pub(crate) struct Sealing;

impl Direction for Sealing {
    ghost opens = { false };

    fn message_block(block: State, _masked: State, _n: usize) -> State {
        block
    }
}

pub(crate) struct Opening;

impl Direction for Opening {
    ghost opens = { true };

    fn message_block(_block: State, masked: State, n: usize) -> State {
        clipped(masked, n)
    }
}

// The counter of the key stream's block at a place of n octets: i, or behind the last of them another.
fn counter(n: usize, at: usize, i: usize, after: usize) -> usize
    ensures { result ≡ counter_at n at i after }
{
    if at < n { i } else { after }
}

impl Context<'_, '_> {
    // S_i.
    fn key_block(&self, i: usize) -> State
        requires { i ≤ most_two_octets }
        ensures { bytes_of result ≡ S (aes128 self.now.cipher) self.now.nonce i }
    {
        self.cipher.encrypt(formatted(1, self.nonce, i))
    }

    // Where the pass over a message of n octets starts: the first block of the key stream, S_0 where there is no message, and X after the
    // authenticated data.
    pub(crate) fn start(&self, n: usize) -> Place
        requires { n ≤ most_message }
        ensures key { bytes_of result.key ≡ S (aes128 self.now.cipher) self.now.nonce (counter_at n 0 1 0) }
        ensures x { let E = aes128 self.now.cipher in
            bytes_of result.x ≡ chain E (E (B₀ code_octets self.now.nonce n)) (blocks (coded self.now.aad.now)) }
    {
        let key = self.key_block(counter(n, 0, 1, 0));
        let x = self.begin(n);
        Place { key, x }
    }

    // One pass over s: it is encrypted or decrypted into out, and X goes through the blocks of the message, s or what s decrypts to. A
    // block of the chain goes side by side with the next one of the key stream: that and X are handed over, and handed on. The counter of
    // the first block is i; the one behind the last is 0, that of the code's S_0, unless more of the message comes.
    pub(crate) fn pass<D: Direction>(
        &self,
        i: usize,
        after: usize,
        from: Place,
        s: &[u8],
        out: &mut [u8],
    ) -> Place
        requires { (16 * i + length s.now ≤ most_message + 16) × (after ≤ most_two_octets) × (length out.old ≡ length s.now)
            × (bytes_of from.key ≡ S (aes128 self.now.cipher) self.now.nonce (counter_at (length s.now) 0 i after)) }
        ensures key { bytes_of result.key ≡ S (aes128 self.now.cipher) self.now.nonce after }
        ensures x { let E = aes128 self.now.cipher in
            bytes_of result.x ≡ chain E (bytes_of from.x) (blocks (cond D.opens (masked E self.now.nonce i s.now) s.now)) }
        ensures out_after { out.new ≡ masked (aes128 self.now.cipher) self.now.nonce i s.now }
    {
        let mut key = from.key;
        let mut x = from.x;
        for k in 0..s.len().div_ceil(16) {
            let at = 16 * k;
            let block = block_at(s, at);
            let masked = add(block, key);
            put_block(masked, out, at);
            let message = D::message_block(block, masked, s.len() - at);
            let next = counter(s.len(), at + 16, i + k + 1, after);
            let two = self
                .cipher
                .encrypt_two(formatted(1, self.nonce, next), add(x, message));
            key = two.first;
            x = two.second;
        }
        Place { key, x }
    }
}

impl Place {
    // The code, in the front of a block: the end of the chain with S_0 added.
    pub(crate) fn code(&self) -> [u8; 16]
        ensures { take code_octets result ≡ xors (take code_octets (bytes_of self.now.x)) (bytes_of self.now.key) }
    {
        aes::store(add(self.x, self.key))
    }

    // Whether this is the code. Every octet is compared.
    pub(crate) fn verifies(&self, code: &[u8]) -> bool
        requires { length code.now ≡ code_octets }
        ensures { result ≡ same (xors (take code_octets (bytes_of self.now.x)) (bytes_of self.now.key)) code.now }
    {
        octets::equal(&self.code()[..CODE_OCTETS], code)
    }
}
