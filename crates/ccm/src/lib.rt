// CCM of RFC 3610 with AES-128, a code of 8 octets (M = 8) and lengths of two (L = 2).
#![tactic(auto)]

mod limits; // limits.rt: the limits, and the code's length
mod blocks; // blocks.rt: blocks of 16 octets
mod keyed; // keyed.rt: AES-128 under one key, and the nonce of one message
mod chain; // chain.rt: section 2.2, authentication
mod stream; // stream.rt: section 2.3, encryption, with the chain beside it

ghost use Rattle.std.specs.Prelude.{cond, ◌≡◌, ◌++◌, ◌+◌, ◌-◌, ◌≤◌, ◌<◌, length, drop};
ghost use Rattle.aes.specs.KeyExpansion.{aes128};
ghost use Rattle.aes.specs.Word.{bytes_of};
ghost use Rattle.ccm.specs.Limits.{most_message, code_octets, held};
ghost use Rattle.ccm.specs.Ccm.{masked, U, in_limits, sealed, opened};
ghost use Rattle.ccm.specs.Room.{fitting, outcome, written, message_from, right_from, Openable};

use keyed::{Cipher, Context};
pub use limits::CODE_OCTETS;
use limits::{HELD, LEAST_DATA, MOST_DATA, MOST_MESSAGE};
use stream::{Opening, Place, Sealing};

#[tactic(auto, unfolding(crate::specs::Ccm::in_limits))]
fn in_limits(a: usize, m: usize) -> bool
    ensures { result ≡ in_limits a m }
{
    LEAST_DATA <= a && a <= MOST_DATA && m <= MOST_MESSAGE
}

impl Context<'_, '_> {
    // The encrypted message and its code into the front of out. Apart, so that what it puts on the stack and what filling the table does
    // lie in one place.
    #[inline(never)]
    fn put(&self, body: &[u8], out: &mut [u8])
        requires { (length body.now ≤ most_message) × (length body.now + code_octets ≤ length out.old) }
        ensures { let E = aes128 self.now.cipher in let N = self.now.nonce in
            out.new ≡ (masked E N 1 body.now ++ U E code_octets N self.now.aad.now body.now)
            ++ drop (length body.now + code_octets) out.old }
    {
        let n = body.len();
        let first = self.start(n);
        let last = self.pass::<Sealing>(1, 0, first, body, &mut out[..n]);
        octets::copy(&last.code()[..CODE_OCTETS], &mut out[n..n + CODE_OCTETS]);
    }

    // Opens the last part of a text, whose first block has the counter i, from where the pass stands: says whether the code is right, and
    // writes the message if it is. Until then it waits in an array.
    fn open_last(&self, i: usize, from: Place, text: &[u8], out: &mut [u8]) -> bool
        requires { Openable (aes128 self.now.cipher) self.now.nonce i (bytes_of from.key) text.now out.old
            × (length text.now ≤ held + code_octets) }
        ensures value { result ≡ right_from (aes128 self.now.cipher) self.now.nonce i (bytes_of from.x) text.now }
        ensures out_after { let m = message_from (aes128 self.now.cipher) self.now.nonce i text.now in
            out.new ≡ cond result (m ++ drop (length text.now - code_octets) out.old) out.old }
    {
        let n = text.len() - CODE_OCTETS;
        let mut part = [0u8; HELD];
        let last = self.pass::<Opening>(i, 0, from, &text[..n], &mut part[..n]);
        if !last.verifies(&text[n..]) {
            return false;
        }
        octets::copy(&part[..n], &mut out[..n]);
        true
    }

    // The same of a part that is not the last: it waits until those after it were opened.
    #[cycle(open_first_open_from)]
    fn open_first(&self, i: usize, from: Place, text: &[u8], out: &mut [u8]) -> bool
        requires { Openable (aes128 self.now.cipher) self.now.nonce i (bytes_of from.key) text.now out.old
            × (held + code_octets < length text.now) }
        ensures value { result ≡ right_from (aes128 self.now.cipher) self.now.nonce i (bytes_of from.x) text.now }
        ensures out_after { let m = message_from (aes128 self.now.cipher) self.now.nonce i text.now in
            out.new ≡ cond result (m ++ drop (length text.now - code_octets) out.old) out.old }
    {
        let mut part = [0u8; HELD];
        let after = i + HELD / 16;
        let next = self.pass::<Opening>(i, after, from, &text[..HELD], &mut part);
        if !self.open_from(after, next, &text[HELD..], &mut out[HELD..]) {
            return false;
        }
        octets::copy(&part, &mut out[..HELD]);
        true
    }

    // The same of a text of any length. Three functions, with one contract: each part of the message waits in a frame of the stack of its
    // own, so that a short one takes little, and there is no heap. The parameters make no type: what is asked of them is of the cipher and
    // of out too.
    #[cycle(open_first_open_from)]
    fn open_from(&self, i: usize, from: Place, text: &[u8], out: &mut [u8]) -> bool
        requires { Openable (aes128 self.now.cipher) self.now.nonce i (bytes_of from.key) text.now out.old }
        ensures value { result ≡ right_from (aes128 self.now.cipher) self.now.nonce i (bytes_of from.x) text.now }
        ensures out_after { let m = message_from (aes128 self.now.cipher) self.now.nonce i text.now in
            out.new ≡ cond result (m ++ drop (length text.now - code_octets) out.old) out.old }
    {
        if text.len() <= HELD + CODE_OCTETS {
            return self.open_last(i, from, text, out);
        }
        self.open_first(i, from, text, out)
    }
}

// Seals body with nonce and aad into the front of out, and says how many octets that took; the rest of out is kept. A refusal, None,
// writes nothing.
pub fn seal(
    key: [u8; 16],
    nonce: [u8; 13],
    aad: &[u8],
    body: &[u8],
    out: &mut [u8],
) -> Option<usize>
    ensures value { result ≡ outcome (fitting out.old (sealed (aes128 key) code_octets nonce aad.now body.now)) }
    ensures out_after { out.new ≡ written out.old (fitting out.old (sealed (aes128 key) code_octets nonce aad.now body.now)) }
{
    let n = body.len();
    if !in_limits(aad.len(), n) {
        return None;
    }
    if out.len() < n + CODE_OCTETS {
        return None;
    }
    let mut products = [0u64; 256];
    let mut schedule = [0u8; 176];
    let cipher = Cipher::new(&mut products, &mut schedule, key);
    let context = Context { cipher, nonce, aad };
    context.put(body, out);
    Some(n + CODE_OCTETS)
}

// Opens text with nonce and aad into the front of out, and says how many octets that took; the rest of out is kept. A refusal, None,
// writes nothing, and nothing is written before the code is found right.
pub fn open(
    key: [u8; 16],
    nonce: [u8; 13],
    aad: &[u8],
    text: &[u8],
    out: &mut [u8],
) -> Option<usize>
    ensures value { result ≡ outcome (fitting out.old (opened (aes128 key) code_octets nonce aad.now text.now)) }
    ensures out_after { out.new ≡ written out.old (fitting out.old (opened (aes128 key) code_octets nonce aad.now text.now)) }
{
    if text.len() < CODE_OCTETS {
        return None;
    }
    let n = text.len() - CODE_OCTETS;
    if !in_limits(aad.len(), n) {
        return None;
    }
    if out.len() < n {
        return None;
    }
    let mut products = [0u64; 256];
    let mut schedule = [0u8; 176];
    let cipher = Cipher::new(&mut products, &mut schedule, key);
    let context = Context { cipher, nonce, aad };
    let first = context.start(n);
    if !context.open_from(1, first, text, out) {
        return None;
    }
    Some(n)
}
