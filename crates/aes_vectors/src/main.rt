// FIPS 197's vectors for AES-128. What this must print, the file stdout, was taken from the standard:
// the key schedule from the last column of appendix A.1, and the ciphertexts from the ends of
// appendices B and C.1.
#![tactic(auto)]

use show::{Hex, Output};
use std::io;

fn print_schedule(rt: Output, w: [u8; 176]) -> io::Result<()> {
    for (i, word) in w.chunks_exact(4).enumerate() {
        println!(rt; "A.1 w[{i}] {}", Hex(word))?;
    }
    Ok(())
}

// The block encrypted by itself, and as the first and the second of two.
fn print_ciphertext(
    rt: Output,
    appendix: &str,
    t: &[u64; 256],
    key: [u8; 16],
    plaintext: [u8; 16],
) -> io::Result<()> {
    let w = aes::expand(t, key);
    let block = aes::load(plaintext);
    let two = aes::encrypt_two(t, &w, block, block);
    let one = aes::store(aes::encrypt(t, &w, block));
    let first = aes::store(two.first);
    let second = aes::store(two.second);
    println!(rt; "{appendix} {} {} {}", Hex(&one), Hex(&first), Hex(&second))
}

fn main(rt: HostRuntime) -> io::Result<()> {
    let rt = Output(rt);
    let mut t = [0u64; 256];
    aes::fill_products(&mut t);

    // Appendices A.1 and B: one key.
    let key: [u8; 16] = [
        0x2b, 0x7e, 0x15, 0x16, 0x28, 0xae, 0xd2, 0xa6, 0xab, 0xf7, 0x15, 0x88, 0x09, 0xcf, 0x4f,
        0x3c,
    ];
    print_schedule(rt, aes::expand(&t, key))?;
    let plaintext: [u8; 16] = [
        0x32, 0x43, 0xf6, 0xa8, 0x88, 0x5a, 0x30, 0x8d, 0x31, 0x31, 0x98, 0xa2, 0xe0, 0x37, 0x07,
        0x34,
    ];
    print_ciphertext(rt, "B", &t, key, plaintext)?;

    // Appendix C.1.
    let counting: [u8; 16] = [
        0x00, 0x01, 0x02, 0x03, 0x04, 0x05, 0x06, 0x07, 0x08, 0x09, 0x0a, 0x0b, 0x0c, 0x0d, 0x0e,
        0x0f,
    ];
    let doubled: [u8; 16] = [
        0x00, 0x11, 0x22, 0x33, 0x44, 0x55, 0x66, 0x77, 0x88, 0x99, 0xaa, 0xbb, 0xcc, 0xdd, 0xee,
        0xff,
    ];
    print_ciphertext(rt, "C.1", &t, counting, doubled)
}
