// Two cameras send a picture each, in fragments, to one box that joins them; then, with a third camera, a fragment arrives
// twice and another is lost. The file stdout has what this prints.
#![tactic(auto)]

use ccmp::ADDED;
use rules::{Joiner, Receiver, Refusal, Sender, Success};
use show::Output;
use std::io;
use std::ops::Range;

const HEADER: usize = 24;

// The octets of a picture, and those of it that a fragment has: any even number from 16 to 2,296, for at most 16 fragments.
const PICTURE: usize = 2000;

const SIZE: usize = 144;

const FRAME: usize = HEADER + PICTURE;

// Each of the 14 fragments has the header too, and 16 octets more once it is sealed. Only the last is shorter.
const COUNT: usize = 14;

const SEALED: usize = HEADER + SIZE + ADDED;

const AIR: usize = PICTURE + COUNT * (HEADER + ADDED);

// What the box keeps for one camera.
#[derive(Clone, Copy)]
struct Kept {
    receiver: Receiver,
    joiner: Joiner,
}

// A frame with this header and a picture, whose octet i is i * slope modulo 251.
fn taken(header: [u8; HEADER], slope: u8) -> [u8; FRAME] {
    let mut frame = [0u8; FRAME];
    octets::copy(&header, &mut frame);
    for (i, x) in frame[HEADER..FRAME].iter_mut().enumerate() {
        *x = (i * usize::from(slope) % 251) as u8;
    }
    frame
}

// The camera splits the picture of a frame and seals the fragments, one after another, under its next numbers. The call hands
// back the sender for the next one.
fn sends(
    rt: Output,
    name: &str,
    sender: Sender,
    frame: [u8; FRAME],
    air: &mut [u8],
) -> io::Result<Sender> {
    let split = fragments::split(sender, SIZE, &frame, air);
    let last = split.sender.last;
    match split.answer {
        Ok(done) => println!(rt;
            "{name} sends {} octets under the numbers {} to {last}",
            done.octets, done.number
        )?,
        Err(refusal) => println!(rt; "{name}: splitting refuses, answer {}", refusal.number())?,
    }
    Ok(split.sender)
}

// What a call of the box answered, where that is worth telling: a joiner writes nothing before the last fragment.
fn tell(rt: Output, name: &str, call: &str, answer: Result<Success, Refusal>) -> io::Result<()> {
    match answer {
        Ok(done) if done.octets == 0 => Ok(()),
        Ok(done) => println!(rt;
            "{name}: a picture of {} octets is whole with number {}",
            done.octets, done.number
        ),
        Err(refusal) => println!(rt; "{name}: {call} refuses, answer {}", refusal.number()),
    }
}

// The box opens a fragment of a camera and joins what it opened, under the number that opening named. It keeps the records
// that the calls hand back. What opening refuses, it doesn't join.
fn hears(
    rt: Output,
    name: &str,
    kept: Kept,
    sealed: &[u8],
    picture: &mut [u8],
) -> io::Result<Kept> {
    let mut frame = [0u8; HEADER + SIZE];
    let opened = ccmp::open(kept.receiver, sealed, &mut frame);
    let receiver = opened.receiver;
    let mut joiner = kept.joiner;
    match opened.answer {
        Ok(done) => {
            let fragment = frame.get(..done.octets).unwrap_or(&[]);
            let joined = fragments::join(joiner, fragment, done.number, picture);
            joiner = joined.joiner;
            tell(rt, name, "joining", joined.answer)?;
        }
        Err(refusal) => tell(rt, name, "opening", Err(refusal))?,
    }
    Ok(Kept { receiver, joiner })
}

// The box hears these of the fragments in air, in order.
fn hears_some(
    rt: Output,
    name: &str,
    kept: Kept,
    air: &[u8],
    which: Range<usize>,
    picture: &mut [u8],
) -> io::Result<Kept> {
    let mut now = kept;
    for sealed in air.chunks(SEALED).take(which.end).skip(which.start) {
        now = hears(rt, name, now, sealed, picture)?;
    }
    Ok(now)
}

// What the box keeps for a camera with this key and address, of which it has heard nothing.
fn meets(key: [u8; 16], camera: [u8; 6]) -> Kept {
    Kept {
        receiver: ccmp::fresh_receiver(key, 0, camera, ccmp::SMALL_WINDOW).receiver,
        joiner: fragments::new_joiner(),
    }
}

// Whether the picture that the box has is that of the frame.
fn compare(rt: Output, name: &str, picture: [u8; PICTURE], frame: [u8; FRAME]) -> io::Result<()> {
    if picture[..] == frame[HEADER..] {
        return println!(rt; "{name}: it is the picture that was taken");
    }
    println!(rt; "{name}: it is NOT the picture that was taken")
}

// Two cameras, each with a key of its own, send a picture each. The box keeps a receiver and a joiner for each.
fn two_cameras(rt: Output) -> io::Result<()> {
    let sender = ccmp::fresh_sender([7; 16], 0, *b"\x02ridge").sender;
    let ridge_frame = taken(*b"\x08\x01\x00\x00router\x02ridgerouter\x10\x00", 7);
    let mut ridge_air = [0u8; AIR];
    sends(rt, "ridge", sender, ridge_frame, &mut ridge_air)?;

    let sender = ccmp::fresh_sender([8; 16], 0, *b"\x02gully").sender;
    let gully_frame = taken(*b"\x08\x01\x00\x00router\x02gullyrouter\x10\x00", 11);
    let mut gully_air = [0u8; AIR];
    sends(rt, "gully", sender, gully_frame, &mut gully_air)?;

    let ridge = meets([7; 16], *b"\x02ridge");
    let gully = meets([8; 16], *b"\x02gully");
    let mut ridge_picture = [0u8; PICTURE];
    let mut gully_picture = [0u8; PICTURE];
    println!(rt; "the fragments of both arrive mixed")?;
    let ridge = hears_some(rt, "ridge", ridge, &ridge_air, 0..6, &mut ridge_picture)?;
    let gully = hears_some(rt, "gully", gully, &gully_air, 0..10, &mut gully_picture)?;
    hears_some(rt, "ridge", ridge, &ridge_air, 6..COUNT, &mut ridge_picture)?;
    hears_some(
        rt,
        "gully",
        gully,
        &gully_air,
        10..COUNT,
        &mut gully_picture,
    )?;
    compare(rt, "ridge", ridge_picture, ridge_frame)?;
    compare(rt, "gully", gully_picture, gully_frame)?;
    Ok(())
}

// The fragments of one camera arrive over bad air.
fn bad_air(rt: Output) -> io::Result<()> {
    let sender = ccmp::fresh_sender([9; 16], 0, *b"\x02scree").sender;
    let kept = meets([9; 16], *b"\x02scree");
    let mut air = [0u8; AIR];
    let mut picture = [0u8; PICTURE];

    // Fragment 4 arrives twice. The second time its number is a replay, and the joiner doesn't see it.
    let frame = taken(*b"\x08\x01\x00\x00router\x02screerouter\x10\x00", 13);
    let sender = sends(rt, "scree", sender, frame, &mut air)?;
    println!(rt; "fragment 4 arrives twice")?;
    let kept = hears_some(rt, "scree", kept, &air, 0..5, &mut picture)?;
    let kept = hears_some(rt, "scree", kept, &air, 4..COUNT, &mut picture)?;
    compare(rt, "scree", picture, frame)?;

    // Fragment 11 is lost. The next one drops what the joiner held, and no later one can be joined.
    let frame = taken(*b"\x08\x01\x00\x00router\x02screerouter\x20\x00", 17);
    let sender = sends(rt, "scree", sender, frame, &mut air)?;
    println!(rt; "fragment 11 is lost")?;
    let kept = hears_some(rt, "scree", kept, &air, 0..11, &mut picture)?;
    let kept = hears_some(rt, "scree", kept, &air, 12..COUNT, &mut picture)?;

    // Fragment 0 starts anew.
    println!(rt; "the picture is sent again")?;
    sends(rt, "scree", sender, frame, &mut air)?;
    hears_some(rt, "scree", kept, &air, 0..COUNT, &mut picture)?;
    compare(rt, "scree", picture, frame)?;
    Ok(())
}

fn main(rt: HostRuntime) -> io::Result<()> {
    let rt = Output(rt);
    two_cameras(rt)?;
    bad_air(rt)?;
    Ok(())
}
