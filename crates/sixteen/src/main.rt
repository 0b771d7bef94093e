// A box serves sixteen cameras through one table, with an entry and a key for each; a frame finds its entry by its addresses and
// key ID. One camera gets a new key, and one makes room for a seventeenth. The file stdout has what this prints.
#![tactic(auto)]

use ccmp::ADDED;
use rules::{ENTRIES, Pairing, Receiver, Refusal, Sender, Success, Table, Triple};
use show::Output;
use std::{fmt, io};
use table::Answered;

// A header of 24 octets and a body of 9. Sealed it has 16 octets more.
const FRAME: usize = 33;

const SEALED: usize = FRAME + ADDED;

// What a camera keeps: a sender for its own frames, and a receiver for those of the box.
#[derive(Clone, Copy)]
struct Camera {
    sender: Sender,
    receiver: Receiver,
}

// What the box keeps, and what its cameras keep.
#[derive(Clone, Copy)]
struct Site {
    table: Table,
    cameras: [Camera; ENTRIES],
}

// By what the box finds camera n: its own address, the camera's, and the key ID.
fn triple_of(n: u8) -> Triple {
    Triple {
        own: *b"\x02box-1",
        peer: [2, b'c', b'a', b'm', b'-', n],
        key_id: 0,
    }
}

// What the box adds for camera n, to send to it and to receive from it.
fn pairing(n: u8, key: [u8; 16]) -> Pairing {
    Pairing {
        triple: triple_of(n),
        key,
        size: ccmp::SMALL_WINDOW,
        may_send: true,
        may_receive: true,
    }
}

// Camera n with a key under which it has sealed nothing yet.
fn new_camera(n: u8, key: [u8; 16]) -> Camera {
    let triple = triple_of(n);
    Camera {
        sender: ccmp::fresh_sender(key, 0, triple.peer).sender,
        receiver: ccmp::fresh_receiver(key, 0, triple.own, ccmp::SMALL_WINDOW).receiver,
    }
}

// The number of an answer, 0 for done, and the packet number where it names one, as this program alone prints them.
#[derive(Clone, Copy)]
struct Answer(Result<Success, Refusal>);

impl fmt::Display for Answer {
    fn fmt<W: fmt::Write>(&self, f: &mut fmt::Formatter<W>) -> fmt::Result {
        match self.0 {
            Ok(done) if done.number == 0 => write!(f, "0"),
            Ok(done) => write!(f, "0, number {}", done.number),
            Err(refusal) => write!(f, "{}", refusal.number()),
        }
    }
}

// The table after a call for camera n, whose answer is printed.
fn after(rt: Output, n: u8, call: &str, answered: Answered) -> io::Result<Table> {
    println!(rt; "camera {n} {call}: answer {}", Answer(answered.answer))?;
    Ok(answered.table)
}

// The box adds cameras 1 to 16. A real key is agreed with its camera; no two entries may have the same.
fn adds_sixteen(rt: Output) -> io::Result<Site> {
    let mut table = table::new_table();
    let mut cameras = [new_camera(0, [0; 16]); ENTRIES];
    print!(rt; "cameras 1 to 16 enter: answers")?;
    for (n, camera) in (1..=16).zip(&mut cameras) {
        let key = [n; 16];
        *camera = new_camera(n, key);
        let added = table::add(table, pairing(n, key));
        table = added.table;
        print!(rt; " {}", Answer(added.answer))?;
    }
    println!(rt; "")?;
    Ok(Site { table, cameras })
}

// Camera n seals a picture under its next number. The call hands back the camera for the next one.
fn sends(camera: Camera, n: u8, air: &mut [u8]) -> Camera {
    // Frame Control, Duration, A1, A2, which ends in n, A3, Sequence Control, and the body.
    let mut frame = *b"\x08\x01\x00\x00\x02box-1\x02cam-?\x02box-1\x10\x00a picture";
    frame[15] = n;
    let sender = ccmp::seal(camera.sender, &frame, air).sender;
    Camera { sender, ..camera }
}

// The box opens what it hears. The table finds the entry; n is only for the line that is printed.
fn hears(rt: Output, table: Table, n: u8, call: &str, air: &[u8]) -> io::Result<Table> {
    let mut frame = [0u8; FRAME];
    after(rt, n, call, table::open(table, air, &mut frame))
}

fn each_sends(rt: Output, site: Site) -> io::Result<Site> {
    let Site {
        mut table,
        mut cameras,
    } = site;
    for (n, camera) in (1..=16).zip(&mut cameras) {
        let mut air = [0u8; SEALED];
        *camera = sends(*camera, n, &mut air);
        table = hears(rt, table, n, "sends", &air)?;
    }
    Ok(Site { table, cameras })
}

// A frame of camera 5 arrives twice, and then half of it.
fn bad_air(rt: Output, table: Table, fifth: Camera) -> io::Result<Table> {
    let mut air = [0u8; SEALED];
    sends(fifth, 5, &mut air);
    let table = hears(rt, table, 5, "sends", &air)?;
    let table = hears(rt, table, 5, "sends it again", &air)?;
    hears(rt, table, 5, "sends half of it", &air[0..20])
}

// The box seals a frame for camera 3, which opens it with its own receiver.
fn sends_back(rt: Output, table: Table, third: Camera) -> io::Result<Table> {
    let frame: &[u8] = b"\x08\x02\x00\x00\x02cam-\x03\x02box-1\x02box-1\x10\x00look left";
    let mut air = [0u8; SEALED];
    let sealed = table::seal(table, 0, frame, &mut air);
    let mut plain = [0u8; FRAME];
    let opened = ccmp::open(third.receiver, &air, &mut plain);
    let table = after(rt, 3, "is sent a frame", sealed)?;
    println!(rt; "camera 3 opens it: answer {}", Answer(opened.answer))?;
    Ok(table)
}

// Camera 9 gets a new key, while a frame under the old one is still on its way.
fn changes_key(rt: Output, table: Table, ninth: Camera) -> io::Result<Table> {
    let mut late = [0u8; SEALED];
    sends(ninth, 9, &mut late);
    let key = [109u8; 16];
    let table = after(rt, 9, "changes its key", table::add(table, pairing(9, key)))?;
    let table = hears(rt, table, 9, "sent under the old key", &late)?;
    let ninth = new_camera(9, key);
    let mut air = [0u8; SEALED];
    sends(ninth, 9, &mut air);
    hears(rt, table, 9, "sends under the new key", &air)
}

// Camera 17 finds no room until camera 12 is removed.
fn makes_room(rt: Output, table: Table, twelfth: Camera) -> io::Result<Table> {
    let key = [17u8; 16];
    let table = after(rt, 17, "enters", table::add(table, pairing(17, key)))?;
    let seventeenth = new_camera(17, key);
    let mut air = [0u8; SEALED];
    let seventeenth = sends(seventeenth, 17, &mut air);
    let table = hears(rt, table, 17, "sends", &air)?;

    let table = after(rt, 12, "leaves", table::remove(table, triple_of(12)))?;
    sends(twelfth, 12, &mut air);
    let table = hears(rt, table, 12, "sends", &air)?;

    let table = after(rt, 17, "enters", table::add(table, pairing(17, key)))?;
    sends(seventeenth, 17, &mut air);
    hears(rt, table, 17, "sends", &air)
}

// The table counts what is no frame, before it looks for an entry; an entry counts the rest. That of camera 5 is the fifth.
fn tell_counts(rt: Output, table: Table) -> io::Result<()> {
    let counts = table.entries[4].receiver.counts;
    println!(rt; "the table: format errors {}", table.format_errors)?;
    println!(rt;
        "camera 5: opened {}, replays {}",
        counts.opened, counts.replays
    )
}

fn main(rt: HostRuntime) -> io::Result<()> {
    let rt = Output(rt);
    let site = adds_sixteen(rt)?;
    let site = each_sends(rt, site)?;
    let Site { table, cameras } = each_sends(rt, site)?;
    let table = bad_air(rt, table, cameras[4])?;
    let table = sends_back(rt, table, cameras[2])?;
    let table = changes_key(rt, table, cameras[8])?;
    let table = makes_room(rt, table, cameras[11])?;
    tell_counts(rt, table)
}
