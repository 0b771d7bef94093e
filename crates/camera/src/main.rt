// A camera seals two frames and its access point opens them; a frame that is sent again is refused. The file stdout has what this prints.
#![tactic(auto)]

use rules::{Refusal, Success};
use show::{Hex, Output};
use std::io;

// What a call answered: the octets that it wrote, or the number of the refusal.
fn print(rt: Output, label: &str, answer: Result<Success, Refusal>, out: &[u8]) -> io::Result<()> {
    match answer {
        Ok(done) => {
            let written = Hex(out.get(..done.octets).unwrap_or(&[]));
            println!(rt; "{label}{written}")
        }
        Err(refusal) => println!(rt; "{label}refused, answer {}", refusal.number()),
    }
}

fn main(rt: HostRuntime) -> io::Result<()> {
    let rt = Output(rt);
    // Both sides hold one key, under the key ID 0, and the camera's address.
    let key = [7u8; 16];
    let camera = *b"\x02cam-1";
    let sender = ccmp::fresh_sender(key, 0, camera).sender;
    let receiver = ccmp::fresh_receiver(key, 0, camera, ccmp::SMALL_WINDOW).receiver;

    // Frame Control, Duration, the addresses of receiver, sender and destination, Sequence Control, and the body.
    let frame: &[u8] = b"\x08\x01\x00\x00router\x02cam-1router\x10\x00picture 1";

    // Sealed it has 16 octets more. Each call hands back the record for the next one.
    let mut air = [0u8; 49];
    let sealed = ccmp::seal(sender, frame, &mut air);
    print(rt, "sealed ", sealed.answer, &air)?;

    let mut plain = [0u8; 33];
    let opened = ccmp::open(receiver, &air, &mut plain);
    print(rt, "opened ", opened.answer, &plain)?;

    // The same frame again is a replay.
    let again = ccmp::open(opened.receiver, &air, &mut plain);
    print(rt, "again: ", again.answer, &plain)?;

    let second: &[u8] = b"\x08\x01\x00\x00router\x02cam-1router\x20\x00picture 2";
    let mut air = [0u8; 49];
    let sealed = ccmp::seal(sealed.sender, second, &mut air);
    print(rt, "sealed ", sealed.answer, &air)?;
    let mut plain = [0u8; 33];
    let opened = ccmp::open(again.receiver, &air, &mut plain);
    print(rt, "opened ", opened.answer, &plain)
}
