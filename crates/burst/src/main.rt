// A camera sends four frames in a burst, of which two come late and one twice, to a box with replay windows of 16 and to one with windows
// of 1. The file stdout has what this prints: for each delivery its number, and what each box answers, 0 for done.
#![tactic(auto)]

use ccmp::ADDED;
use rules::{Receiver, Sender};
use show::Output;
use std::io;

const SEALED: usize = 33 + ADDED;

const KEY: [u8; 16] = [7; 16];

const CAMERA: [u8; 6] = *b"\x02cam-1";

// The two boxes' records of the camera.
#[derive(Clone, Copy)]
struct Boxes {
    large: Receiver,
    small: Receiver,
}

fn meets(size: u8) -> Receiver {
    ccmp::fresh_receiver(KEY, 0, CAMERA, size).receiver
}

// A sealed frame, and the camera's record after it.
#[derive(Clone, Copy)]
struct Sent {
    air: [u8; SEALED],
    sender: Sender,
}

// The camera seals its next frame, which has this in Sequence Control.
fn sends(sender: Sender, sequence: u8) -> Sent {
    let mut frame = *b"\x08\x01\x00\x00router\x02cam-1router\x00\x00picture 1";
    frame[22] = sequence;
    let mut air = [0u8; SEALED];
    let sender = ccmp::seal(sender, &frame, &mut air).sender;
    Sent { air, sender }
}

// A box opens the frame: the number that it answers, and its record afterwards. The number is an expression here, and no function of a
// crate that each program would have to use for it.
fn opens(receiver: Receiver, frame: Sent) -> (u8, Receiver) {
    let mut plain = [0u8; SEALED];
    let opened = ccmp::open(receiver, &frame.air, &mut plain);
    let number = opened.answer.map_or_else(|refusal| refusal.number(), |_| 0);
    (number, opened.receiver)
}

// Both boxes hear the frame with number n.
fn hear(rt: Output, boxes: Boxes, n: u64, frame: Sent) -> io::Result<Boxes> {
    let (by_large, large) = opens(boxes.large, frame);
    let (by_small, small) = opens(boxes.small, frame);
    println!(rt; "number {n}: windows of 16 answer {by_large}, windows of 1 answer {by_small}")?;
    Ok(Boxes { large, small })
}

fn main(rt: HostRuntime) -> io::Result<()> {
    let rt = Output(rt);
    let sender = ccmp::fresh_sender(KEY, 0, CAMERA).sender;
    let one = sends(sender, 0x00);
    let two = sends(one.sender, 0x10);
    let three = sends(two.sender, 0x20);
    let four = sends(three.sender, 0x30);

    let large = meets(ccmp::LARGE_WINDOW);
    let small = meets(ccmp::SMALL_WINDOW);
    let boxes = Boxes { large, small };
    let boxes = hear(rt, boxes, 1, one)?;
    let boxes = hear(rt, boxes, 4, four)?;
    // Numbers 2 and 3 come late, and 2 again.
    let boxes = hear(rt, boxes, 2, two)?;
    let boxes = hear(rt, boxes, 3, three)?;
    hear(rt, boxes, 2, two)?;
    Ok(())
}
