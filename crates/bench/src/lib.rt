// What the timings and the comparisons with outside programs call: the library's functions, which bench_c exports to C.
#![tactic(auto)]

ghost use Rattle.std.specs.Prelude.{◌≡◌};
ghost use Rattle.aes.specs.Cipher.{cipher};
ghost use Rattle.aes.specs.KeyExpansion.{key_expansion, aes128};
ghost use Rattle.aes.specs.Word.{Products};
ghost use Rattle.ccm.specs.Ccm.{sealed, opened};
ghost use Rattle.ccm.specs.Room.{fitting, outcome, written};
ghost use Rattle.bench.specs.Numbers.{number};

pub mod buffers; // buffers.rt: sealing and opening on a record in a buffer
pub mod frames; // frames.rt: fresh records, sealing and opening
pub mod pictures; // pictures.rt: splitting and joining
pub mod tables; // tables.rt: sealing and opening through a table

pub fn bench_aes_fill(t: &mut [u64; 256])
    ensures { Products t.new }
{
    aes::fill_products(t);
}

pub fn bench_aes_expand(t: &[u64; 256], key: &[u8; 16], w: &mut [u8; 176])
    ensures { Products t.now → w.new ≡ key_expansion 4 10 key.now }
{
    *w = aes::expand(t, *key);
}

pub fn bench_aes_encrypt(t: &[u64; 256], w: &[u8; 176], block: &mut [u8; 16])
    ensures { Products t.now → block.new ≡ cipher 10 w.now block.old }
{
    let b = *block;
    *block = aes::store(aes::encrypt(t, w, aes::load(b)));
}

// What C is told: a count of octets, and in place of None a number that no count is.
fn numbered(o: Option<usize>) -> u64
    ensures { result ≡ number o }
{
    match o {
        Some(n) => n as u64,
        None => 0xffff_ffff_ffff_ffff,
    }
}

pub fn bench_ccm_seal(
    key: &[u8; 16],
    nonce: &[u8; 13],
    aad: &[u8],
    body: &[u8],
    out: &mut [u8],
) -> u64
    ensures value { result ≡ number (outcome (fitting out.old (sealed (aes128 key.now) 8 nonce.now aad.now body.now))) }
    ensures out_after { out.new ≡ written out.old (fitting out.old (sealed (aes128 key.now) 8 nonce.now aad.now body.now)) }
{
    numbered(ccm::seal(*key, *nonce, aad, body, out))
}

pub fn bench_ccm_open(
    key: &[u8; 16],
    nonce: &[u8; 13],
    aad: &[u8],
    text: &[u8],
    out: &mut [u8],
) -> u64
    ensures value { result ≡ number (outcome (fitting out.old (opened (aes128 key.now) 8 nonce.now aad.now text.now))) }
    ensures out_after { out.new ≡ written out.old (fitting out.old (opened (aes128 key.now) 8 nonce.now aad.now text.now)) }
{
    numbered(ccm::open(*key, *nonce, aad, text, out))
}
