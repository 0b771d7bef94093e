// What the timings and the comparisons with outside programs call: the functions of bench, exported to C.
#![tactic(auto)]

ghost use Rattle.std.specs.Prelude.{◌≡◌};
ghost use Rattle.aes.specs.Cipher.{cipher};
ghost use Rattle.aes.specs.KeyExpansion.{key_expansion, aes128};
ghost use Rattle.aes.specs.Word.{Products};
ghost use Rattle.ccm.specs.Ccm.{sealed, opened};
ghost use Rattle.ccm.specs.Room.{fitting, outcome, written};
ghost use Rattle.bench.specs.Numbers.{number};

mod buffers; // buffers.rt: sealing and opening on a record in a buffer
mod frames; // frames.rt: fresh records, sealing and opening
mod pictures; // pictures.rt: splitting and joining
mod tables; // tables.rt: sealing and opening through a table

#[unsafe(no_mangle)]
pub extern "C" fn bench_aes_fill(t: &mut [u64; 256])
    ensures { Products t.new }
{
    bench::bench_aes_fill(t);
}

#[unsafe(no_mangle)]
pub extern "C" fn bench_aes_expand(t: &[u64; 256], key: &[u8; 16], w: &mut [u8; 176])
    ensures { Products t.now → w.new ≡ key_expansion 4 10 key.now }
{
    bench::bench_aes_expand(t, key, w);
}

#[unsafe(no_mangle)]
pub extern "C" fn bench_aes_encrypt(t: &[u64; 256], w: &[u8; 176], block: &mut [u8; 16])
    ensures { Products t.now → block.new ≡ cipher 10 w.now block.old }
{
    bench::bench_aes_encrypt(t, w, block);
}

#[unsafe(no_mangle)]
pub extern "C" fn bench_ccm_seal(
    key: &[u8; 16],
    nonce: &[u8; 13],
    aad: &[u8],
    body: &[u8],
    out: &mut [u8],
) -> u64
    ensures value { result ≡ number (outcome (fitting out.old (sealed (aes128 key.now) 8 nonce.now aad.now body.now))) }
    ensures out_after { out.new ≡ written out.old (fitting out.old (sealed (aes128 key.now) 8 nonce.now aad.now body.now)) }
{
    bench::bench_ccm_seal(key, nonce, aad, body, out)
}

#[unsafe(no_mangle)]
pub extern "C" fn bench_ccm_open(
    key: &[u8; 16],
    nonce: &[u8; 13],
    aad: &[u8],
    text: &[u8],
    out: &mut [u8],
) -> u64
    ensures value { result ≡ number (outcome (fitting out.old (opened (aes128 key.now) 8 nonce.now aad.now text.now))) }
    ensures out_after { out.new ≡ written out.old (fitting out.old (opened (aes128 key.now) 8 nonce.now aad.now text.now)) }
{
    bench::bench_ccm_open(key, nonce, aad, text, out)
}
