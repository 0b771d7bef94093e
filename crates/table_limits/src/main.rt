// The limit cases of the table of cameras: each answer of its calls, the order of the tests, places, restarts, flags, counts, and
// what makes a table unsound.
// What this must print, the file stdout, was taken from documents 01 and 02; ` | 02: ` is the answer that they give, 0 for done.
#![tactic(auto)]

ghost use Rattle.std.specs.Prelude.{◌<◌};
ghost use Rattle.rules.specs.Limits.{table_entries};

use cases::{GREATEST_COUNTS, front, with};
use ccmp::{ADDED, MOST_BODY, MOST_NUMBER, SMALL_WINDOW};
use line::{
    adds, adds_camera, opens, opens_from, opens_lent, opens_part, print_sum, removes,
    removes_camera, seals, seals_lent, seals_part, seals_to,
};
use made::{
    BOX, SIZE, camera, cameras, damaged, entry, flagged, free, heard, held, pairing, plain, put,
    sized, text_of, triple,
};
use rules::{Entry, Pairing, Table, Triple};
use show::{Hex, Output};
use std::io;

mod made; // made.rt: what the cases are made of
mod line; // line.rt: a case in a line

fn adding(rt: Output) -> io::Result<()> {
    println!(rt; "Adding, to a fresh table")?;
    let t = table::new_table();
    let t = adds_camera(rt, t, 0, 0, 0)?;
    let silent = flagged(camera(1, 1), false, false);
    let t = adds(rt, "camera 1, flags off", t, silent, 0)?;
    let t = adds(rt, "camera 1 with key ID 3", t, pairing(BOX, 65, 3, 2), 0)?;
    let t = adds(rt, "camera 0 for station 2", t, pairing(2, 64, 2, 3), 0)?;
    let t = adds(rt, "the box for camera 0", t, pairing(64, BOX, 2, 4), 0)?;
    let t = adds(rt, "camera 2 with key ID 4", t, pairing(BOX, 66, 4, 5), 1)?;
    let t = adds(
        rt,
        "camera 2 with key ID 255",
        t,
        pairing(BOX, 66, 255, 5),
        1,
    )?;
    let t = adds_camera(rt, t, 2, 1, 17)?;
    let t = adds_camera(rt, t, 0, 0, 17)?;
    let t = adds_camera(rt, t, 0, 1, 17)?;
    let t = adds_camera(rt, t, 0, 5, 0)?;
    adds_camera(rt, t, 2, 0, 0)?;
    Ok(())
}

// Names that differ in one octet are two.
fn one_octet(rt: Output) -> io::Result<()> {
    println!(rt; "Names that differ from those of camera 0 in one octet")?;
    let t = cameras(1);
    let mut x = camera(1, 0);
    x.key[15] = 16;
    let t = adds(rt, "with the last octet of the key", t, x, 0)?;
    let mut x = camera(2, 0);
    x.key[8] = 16;
    let t = adds(rt, "with the ninth octet of the key", t, x, 0)?;
    let mut own = triple(BOX, 64, 2);
    own.own[0] = 6;
    let mut x = camera(0, 3);
    x.triple = own;
    let t = adds(rt, "with the first octet of the own address", t, x, 0)?;
    let mut peer = triple(BOX, 64, 2);
    peer.peer[0] = 6;
    let mut x = camera(0, 4);
    x.triple = peer;
    let t = adds(rt, "with the first octet of the peer address", t, x, 0)?;
    seals(rt, "to this peer", t, with(plain(64, BOX), 4, 6), 0)?;
    Ok(())
}

// The zeros of a free entry are no triple and no key.
fn zeros(rt: Output) -> io::Result<()> {
    println!(rt; "Addresses, key ID and key of zeros, and a fresh table")?;
    let none = Triple {
        own: [0; 6],
        peer: [0; 6],
        key_id: 0,
    };
    let x = Pairing {
        triple: none,
        key: [0; 16],
        size: SMALL_WINDOW,
        may_send: true,
        may_receive: true,
    };
    let frame = with([0; SIZE], 0, 0x08);
    let text = with(with(with(frame, 1, 0x40), 24, 1), 27, 0x20);
    let t = table::new_table();
    let t = removes(rt, "zeros", t, none, 15)?;
    let t = seals_part(rt, "for zeros", t, 0, front(&frame, 26), SIZE, 15)?;
    let t = opens(rt, "for zeros", t, text, 15)?;
    let t = adds(rt, "zeros", t, x, 0)?;
    let t = adds(rt, "zeros again", t, x, 17)?;
    let t = seals_part(rt, "for zeros", t, 0, front(&frame, 26), SIZE, 0)?;
    let t = opens(rt, "for zeros", t, text, 11)?;
    removes(rt, "zeros", t, none, 0)?;
    Ok(())
}

fn removing(rt: Output) -> io::Result<()> {
    println!(rt; "Removing, from cameras 0 to 3, and adding again")?;
    let t = cameras(4);
    let t = removes_camera(rt, t, 4, 15)?;
    let t = removes(rt, "camera 1 with key ID 1", t, triple(BOX, 65, 1), 15)?;
    let t = removes(rt, "camera 1 with key ID 4", t, triple(BOX, 65, 4), 15)?;
    let t = removes(rt, "camera 1 with key ID 6", t, triple(BOX, 65, 6), 15)?;
    let t = removes(rt, "the box for camera 1", t, triple(65, BOX, 2), 15)?;
    let t = removes_camera(rt, t, 3, 0)?;
    let t = removes_camera(rt, t, 1, 0)?;
    let t = removes_camera(rt, t, 1, 15)?;
    let t = seals_to(rt, t, 1, 15)?;
    let t = opens_from(rt, t, 1, 1, 1, 15)?;
    let t = seals_to(rt, t, 2, 0)?;
    let t = adds_camera(rt, t, 4, 4, 0)?;
    let t = adds_camera(rt, t, 1, 1, 0)?;
    let t = adds_camera(rt, t, 5, 5, 0)?;
    let t = removes_camera(rt, t, 0, 0)?;
    adds_camera(rt, t, 6, 6, 0)?;
    Ok(())
}

fn full(rt: Output) -> io::Result<()> {
    println!(rt; "A full table, from cameras 0 to 14")?;
    let t = cameras(15);
    let t = adds_camera(rt, t, 15, 15, 0)?;
    let t = adds_camera(rt, t, 16, 16, 16)?;
    let t = adds_camera(rt, t, 16, 15, 17)?;
    let t = adds(rt, "camera 16 with key ID 4", t, pairing(BOX, 80, 4, 16), 1)?;
    let t = adds_camera(rt, t, 15, 15, 17)?;
    let t = adds_camera(rt, t, 15, 0, 17)?;
    let t = adds_camera(rt, t, 15, 16, 0)?;
    let t = adds_camera(rt, t, 0, 17, 0)?;
    let t = seals_to(rt, t, 15, 0)?;
    let t = opens_from(rt, t, 15, 16, 1, 0)?;
    let t = removes_camera(rt, t, 7, 0)?;
    let t = adds_camera(rt, t, 16, 18, 0)?;
    adds_camera(rt, t, 7, 7, 16)?;
    Ok(())
}

// A sealed frame in full, opened by a table of camera 0, whose own address is the box's peer.
fn both_ways(rt: Output) -> io::Result<()> {
    println!(rt; "From the box to camera 0")?;
    let frame = plain(64, BOX);
    let mut text = [0u8; SIZE];
    table::seal(cameras(1), 2, &frame[0..26], &mut text);
    println!(rt; "sealed {} to {}", Hex(&frame[0..26]), Hex(&text[0..42]))?;
    let t = table::new_table();
    let t = adds(rt, "the box for camera 0", t, pairing(64, BOX, 2, 0), 0)?;
    opens(rt, "this", t, text, 0)?;
    println!(rt; "From the box to itself")?;
    let t = table::new_table();
    let t = adds(rt, "the box for itself", t, pairing(BOX, BOX, 2, 0), 0)?;
    let t = seals(rt, "to the box", t, plain(BOX, BOX), 0)?;
    let text = text_of(plain(BOX, BOX), 26, 0, 2, 1);
    opens(rt, "from the box", t, text, 0)?;
    Ok(())
}

fn seal_answers(rt: Output) -> io::Result<()> {
    println!(rt; "Sealing, with cameras 0 and 1")?;
    let frame = plain(64, BOX);
    let cut = with(with(frame, 0, 0x88), 1, 0x03);
    let t = cameras(2);
    let t = seals_part(rt, "23 octets", t, 2, front(&frame, 23), SIZE, 2)?;
    let t = seals(rt, "version 1", t, with(frame, 0, 0x09), 3)?;
    let t = seals(rt, "type 0", t, with(frame, 0, 0xb0), 3)?;
    let t = seals(rt, "a frame with no data", t, with(frame, 0, 0x48), 3)?;
    let t = seals(rt, "a protected frame", t, with(frame, 1, 0x40), 4)?;
    let t = seals_part(rt, "31 octets of header 32", t, 2, front(&cut, 31), SIZE, 2)?;
    let t = seals_part(rt, "no body", t, 2, front(&frame, 24), SIZE, 5)?;
    let t = seals_part(rt, "to 42 octets, room 41", t, 2, front(&frame, 26), 41, 6)?;
    seal_searches(rt, t, frame)?;
    Ok(())
}

fn seal_searches(rt: Output, t: Table, frame: [u8; SIZE]) -> io::Result<()> {
    let t = seals_part(rt, "with key ID 1", t, 1, front(&frame, 26), SIZE, 15)?;
    let t = seals_part(rt, "with key ID 4", t, 4, front(&frame, 26), SIZE, 15)?;
    let t = seals_part(rt, "with key ID 6", t, 6, front(&frame, 26), SIZE, 15)?;
    let t = seals_to(rt, t, 2, 15)?;
    let t = seals(rt, "from station 2", t, plain(64, 2), 15)?;
    let t = seals(rt, "from camera 0 to the box", t, plain(BOX, 64), 15)?;
    let t = seals(
        rt,
        "with another first octet of A1",
        t,
        with(frame, 4, 6),
        15,
    )?;
    let t = seals(
        rt,
        "with another first octet of A2",
        t,
        with(frame, 10, 6),
        15,
    )?;
    let t = seals_to(rt, t, 0, 0)?;
    let t = seals_part(rt, "to 42 octets, room 42", t, 2, front(&frame, 26), 42, 0)?;
    println!(rt; "Sealing, with 2^48 - 2 as the last number of camera 0")?;
    let t = put(t, 0, entry(camera(0, 0), MOST_NUMBER - 1, 0, 0));
    let t = seals_to(rt, t, 0, 0)?;
    let t = seals_to(rt, t, 0, 12)?;
    seals_to(rt, t, 1, 0)?;
    Ok(())
}

fn open_answers(rt: Output) -> io::Result<()> {
    println!(rt; "Opening, with cameras 0 and 1")?;
    let text = heard(0, 0, 1);
    let cut = with(with(text, 0, 0x88), 1, 0x43);
    let t = cameras(2);
    let t = opens_part(rt, "23 octets", t, front(&text, 23), SIZE, 2)?;
    let t = opens(rt, "version 1", t, with(text, 0, 0x09), 3)?;
    let t = opens(rt, "type 0", t, with(text, 0, 0xb0), 3)?;
    let t = opens(rt, "a frame with no data", t, with(text, 0, 0x48), 3)?;
    let t = opens(rt, "a plain frame", t, with(text, 1, 0), 4)?;
    let t = opens_part(rt, "31 octets of header 32", t, front(&cut, 31), SIZE, 2)?;
    let t = opens_part(rt, "with a body of 0", t, front(&text, 40), SIZE, 5)?;
    let t = opens_part(rt, "to 26 octets, room 25", t, front(&text, 42), 25, 6)?;
    let t = opens(rt, "with ExtIV 0", t, with(text, 27, 0x80), 8)?;
    let t = open_searches(rt, t, text)?;
    let t = open_found(rt, t, text)?;
    print_sum(rt, t, 16)?;
    Ok(())
}

fn open_searches(rt: Output, t: Table, text: [u8; SIZE]) -> io::Result<Table> {
    let t = opens(rt, "with key ID 1", t, with(text, 27, 0x60), 15)?;
    let t = opens_from(rt, t, 2, 2, 1, 15)?;
    let t = opens(rt, "to station 2", t, with(text, 9, 2), 15)?;
    let swapped = text_of(plain(64, BOX), 26, 0, 2, 1);
    let t = opens(rt, "from the box to camera 0", t, swapped, 15)?;
    let t = opens(
        rt,
        "with another first octet of A1",
        t,
        with(text, 4, 6),
        15,
    )?;
    opens(
        rt,
        "with another first octet of A2",
        t,
        with(text, 10, 6),
        15,
    )
}

fn open_found(rt: Output, t: Table, text: [u8; SIZE]) -> io::Result<Table> {
    let t = opens(rt, "number 0", t, with(text, 24, 0), 10)?;
    let t = opens(rt, "under another number", t, with(text, 24, 2), 11)?;
    let t = opens(rt, "with the text damaged", t, damaged(text, 32), 11)?;
    let t = opens(rt, "with the code damaged", t, damaged(text, 41), 11)?;
    let t = opens_part(rt, "to 26 octets, room 26", t, front(&text, 42), 26, 0)?;
    let t = opens_from(rt, t, 0, 0, 1, 10)?;
    let ignored = with(with(heard(0, 0, 2), 26, 0xff), 27, 0xbf);
    let t = opens(rt, "number 2 with all set that is ignored", t, ignored, 0)?;
    opens_from(rt, t, 1, 1, 1, 0)
}

fn print_body(rt: Output, word: &str, n: usize) -> io::Result<()> {
    print!(rt; "{word} {n} octets after the header: ")
}

// Bodies at their limits. Those that pass are then found to have too little room.
fn bodies(rt: Output) -> io::Result<()> {
    let mut frame = [0u8; 24 + MOST_BODY + ADDED + 1];
    frame[0] = 0x08;
    let t = cameras(1);
    println!(rt; "Bodies, with room 48")?;
    print_body(rt, "seal", MOST_BODY)?;
    let t = seals_lent(rt, t, 2, &frame[0..24 + MOST_BODY], SIZE, 6)?;
    print_body(rt, "seal", MOST_BODY + 1)?;
    let t = seals_lent(rt, t, 2, &frame[0..24 + MOST_BODY + 1], SIZE, 5)?;
    frame[1] = 0x40;
    print_body(rt, "open", MOST_BODY + ADDED)?;
    let t = opens_lent(rt, t, &frame[0..24 + MOST_BODY + ADDED], SIZE, 6)?;
    print_body(rt, "open", MOST_BODY + ADDED + 1)?;
    opens_lent(rt, t, &frame, SIZE, 5)?;
    Ok(())
}

// Where two tests apply, the first decides.
fn change_order(rt: Output) -> io::Result<()> {
    println!(rt; "Two tests at once, with 16 cameras")?;
    let t = cameras(16);
    let unsound = put(t, 15, entry(camera(15, 15), MOST_NUMBER + 1, 0, 0));
    adds(
        rt,
        "to a table not sound, key known",
        unsound,
        camera(0, 1),
        1,
    )?;
    adds(rt, "to a table not sound, full", unsound, camera(16, 16), 1)?;
    adds(rt, "with key ID 4, key known", t, pairing(BOX, 80, 4, 1), 1)?;
    adds(rt, "with key ID 4, full", t, pairing(BOX, 80, 4, 16), 1)?;
    adds(rt, "with a known key, full", t, camera(16, 1), 17)?;
    let absent = triple(BOX, 80, 2);
    removes(rt, "from a table not sound, absent", unsound, absent, 1)?;
    Ok(())
}

fn seal_order(rt: Output) -> io::Result<()> {
    println!(rt; "Two tests at once, with cameras 0 and 1")?;
    let frame = plain(64, BOX);
    let empty = with(frame, 0, 0x48);
    let cut = with(with(frame, 0, 0x88), 1, 0x03);
    let marked = with(cut, 1, 0x43);
    let t = cameras(2);
    let unsound = put(t, 1, entry(camera(1, 1), MOST_NUMBER + 1, 0, 0));
    let spent = put(t, 0, entry(camera(0, 0), MOST_NUMBER, 0, 0));
    seals_part(
        rt,
        "23 octets, not sound",
        unsound,
        2,
        front(&frame, 23),
        SIZE,
        1,
    )?;
    seals_part(rt, "23 octets, no data", t, 2, front(&empty, 23), SIZE, 2)?;
    seals(rt, "no data, protected", t, with(empty, 1, 0x40), 3)?;
    seals_part(
        rt,
        "a protected frame, header cut",
        t,
        2,
        front(&marked, 31),
        SIZE,
        4,
    )?;
    seals_part(rt, "a cut header, no room", t, 2, front(&cut, 31), 0, 2)?;
    seals_part(rt, "no body, no room", t, 2, front(&frame, 24), 0, 5)?;
    seals_part(rt, "no body, key ID 4", t, 4, front(&frame, 24), SIZE, 5)?;
    seals_part(rt, "with room 41, key ID 4", t, 4, front(&frame, 26), 41, 6)?;
    seals_part(
        rt,
        "with room 41, no entry",
        t,
        2,
        front(&plain(66, BOX), 26),
        41,
        6,
    )?;
    seals_part(
        rt,
        "with room 41, spent",
        spent,
        2,
        front(&frame, 26),
        41,
        6,
    )?;
    Ok(())
}

fn open_order(rt: Output) -> io::Result<()> {
    let text = heard(0, 0, 1);
    let empty = with(text, 0, 0x48);
    let cut = with(with(text, 0, 0x88), 1, 0x43);
    let unmarked = with(cut, 1, 0x03);
    let t = cameras(2);
    let unsound = put(t, 1, entry(camera(1, 1), MOST_NUMBER + 1, 0, 0));
    opens_part(
        rt,
        "23 octets, not sound",
        unsound,
        front(&text, 23),
        SIZE,
        1,
    )?;
    opens_part(rt, "23 octets, no data", t, front(&empty, 23), SIZE, 2)?;
    opens(rt, "no data, not protected", t, with(empty, 1, 0), 3)?;
    opens_part(
        rt,
        "a plain frame, header cut",
        t,
        front(&unmarked, 31),
        SIZE,
        4,
    )?;
    opens_part(rt, "a cut header, no room", t, front(&cut, 31), 0, 2)?;
    opens_part(rt, "a body of 0, no room", t, front(&text, 40), 0, 5)?;
    open_order_later(rt, t, text)?;
    Ok(())
}

fn open_order_later(rt: Output, t: Table, text: [u8; SIZE]) -> io::Result<()> {
    let other = heard(2, 2, 1);
    let short = with(text, 27, 0x80);
    opens_part(rt, "with room 25, ExtIV 0", t, front(&short, 42), 25, 6)?;
    opens_part(rt, "with room 25, no entry", t, front(&other, 42), 25, 6)?;
    opens(rt, "with ExtIV 0, no entry", t, with(other, 27, 0x80), 8)?;
    opens(rt, "with ExtIV 0, key ID 1", t, with(text, 27, 0x40), 8)?;
    opens(rt, "with ExtIV 0, number 0", t, with(short, 24, 0), 8)?;
    opens(rt, "for no entry, number 0", t, with(other, 24, 0), 15)?;
    let twice = with(damaged(text, 32), 24, 0);
    opens(rt, "number 0, text damaged", t, twice, 10)?;
    Ok(())
}

fn flags(rt: Output) -> io::Result<()> {
    println!(rt; "Flags")?;
    let t = table::new_table();
    let t = adds(rt, "camera 0", t, flagged(camera(0, 0), true, false), 0)?;
    let t = adds(rt, "camera 1", t, flagged(camera(1, 1), false, true), 0)?;
    let t = adds(rt, "camera 2", t, flagged(camera(2, 2), false, false), 0)?;
    let t = seals_to(rt, t, 0, 0)?;
    let t = opens_from(rt, t, 0, 0, 1, 15)?;
    let t = seals_to(rt, t, 1, 15)?;
    let t = opens_from(rt, t, 1, 1, 1, 0)?;
    let t = seals_to(rt, t, 2, 15)?;
    let t = opens_from(rt, t, 2, 2, 1, 15)?;
    flags_order(rt, t)?;
    let t = adds(rt, "camera 0", t, flagged(camera(0, 3), false, true), 0)?;
    let t = seals_to(rt, t, 0, 15)?;
    let t = opens_from(rt, t, 0, 3, 1, 0)?;
    removes_camera(rt, t, 2, 0)?;
    Ok(())
}

// Another test that applies beside a flag that is off.
fn flags_order(rt: Output, t: Table) -> io::Result<()> {
    let text = heard(0, 0, 1);
    let frame = plain(65, BOX);
    let x = flagged(camera(1, 1), false, true);
    let spent = put(t, 1, entry(x, MOST_NUMBER, 0, 0));
    seals(rt, "to camera 1, spent", spent, frame, 15)?;
    seals_part(rt, "to camera 1, room 41", t, 2, front(&frame, 26), 41, 6)?;
    opens(rt, "from camera 0, number 0", t, with(text, 24, 0), 15)?;
    opens(rt, "from camera 0, text damaged", t, damaged(text, 32), 15)?;
    opens(rt, "from camera 0, ExtIV 0", t, with(text, 27, 0x80), 8)?;
    opens_part(rt, "from camera 0, room 25", t, front(&text, 42), 25, 6)?;
    Ok(())
}

// A table of camera 0 with the greatest counts.
fn counted_out() -> Table {
    let mut e = entry(camera(0, 0), 0, 0, 0);
    e.receiver.counts = GREATEST_COUNTS;
    let mut t = put(table::new_table(), 0, e);
    t.format_errors = u32::MAX;
    t
}

fn counts(rt: Output) -> io::Result<()> {
    println!(rt; "Each count 4294967295 before each call")?;
    let text = heard(0, 0, 1);
    let t = counted_out();
    opens_part(rt, "23 octets", t, front(&text, 23), SIZE, 2)?;
    opens(rt, "version 1", t, with(text, 0, 0x09), 3)?;
    opens(rt, "a plain frame", t, with(text, 1, 0), 4)?;
    opens_part(rt, "with a body of 0", t, front(&text, 40), SIZE, 5)?;
    opens_part(rt, "to 26 octets, room 25", t, front(&text, 42), 25, 6)?;
    opens(rt, "with ExtIV 0", t, with(text, 27, 0x80), 8)?;
    opens(rt, "with key ID 1", t, with(text, 27, 0x60), 15)?;
    opens(rt, "number 0", t, with(text, 24, 0), 10)?;
    opens(rt, "with the text damaged", t, damaged(text, 32), 11)?;
    opens_from(rt, t, 0, 0, 1, 0)?;
    adds_camera(rt, t, 0, 1, 0)?;
    removes_camera(rt, t, 0, 0)?;
    Ok(())
}

fn restarts(rt: Output) -> io::Result<()> {
    println!(rt; "Camera 1 restarted between cameras 0 and 2")?;
    let t = cameras(3);
    let t = put(t, 0, entry(camera(0, 0), 4, 6, 3));
    let t = put(t, 1, entry(camera(1, 1), 9, 6, 8));
    let t = opens_from(rt, t, 1, 1, 1, 0)?;
    let t = opens_from(rt, t, 1, 1, 1, 10)?;
    let t = adds_camera(rt, t, 1, 1, 17)?;
    let t = adds_camera(rt, t, 1, 2, 17)?;
    let t = adds_camera(rt, t, 1, 3, 0)?;
    let t = opens_from(rt, t, 1, 1, 2, 11)?;
    let t = opens_from(rt, t, 1, 3, 1, 0)?;
    let t = seals_to(rt, t, 1, 0)?;
    seals_to(rt, t, 0, 0)?;
    Ok(())
}

// Each entry has its own numbers, counters and counts.
fn in_turns(rt: Output) -> io::Result<()> {
    println!(rt; "Cameras 0 and 1 in turns")?;
    let t = cameras(2);
    let t = seals_to(rt, t, 0, 0)?;
    let t = seals_to(rt, t, 1, 0)?;
    let t = seals_to(rt, t, 0, 0)?;
    let t = opens_from(rt, t, 0, 0, 3, 0)?;
    let t = opens_from(rt, t, 1, 1, 1, 0)?;
    let t = opens_from(rt, t, 0, 0, 3, 10)?;
    let t = opens_from(rt, t, 1, 1, 3, 0)?;
    let t = opens_from(rt, t, 0, 0, 2, 10)?;
    let t = opens_from(rt, t, 1, 0, 4, 11)?;
    let qos = with(with(plain(BOX, 64), 0, 0x88), 24, 6);
    let text = text_of(qos, 28, 0, 2, 1);
    let t = opens_part(rt, "priority 6 from camera 0", t, front(&text, 44), SIZE, 0)?;
    let t = opens_from(rt, t, 0, 0, 4, 0)?;
    let t = seals_to(rt, t, 1, 0)?;
    print_sum(rt, t, 8)?;
    Ok(())
}

// Sizes that are no size are refused before a key that is in use, and after the key ID.
fn sizes(rt: Output) -> io::Result<()> {
    println!(rt; "Cameras with windows of another size than 1 and 16, camera 0 there")?;
    let t = cameras(1);
    let t = adds(rt, "with size 0", t, sized(camera(1, 1), 0), 1)?;
    let t = adds(rt, "with size 2", t, sized(camera(1, 1), 2), 1)?;
    let t = adds(rt, "with size 15", t, sized(camera(1, 1), 15), 1)?;
    let t = adds(rt, "with size 17", t, sized(camera(1, 1), 17), 1)?;
    let t = adds(rt, "with size 255", t, sized(camera(1, 1), 255), 1)?;
    let t = adds(
        rt,
        "with size 16 and key ID 4",
        t,
        sized(pairing(BOX, 65, 4, 1), 16),
        1,
    )?;
    let t = adds(
        rt,
        "with size 0 and the key in use",
        t,
        sized(camera(1, 0), 0),
        1,
    )?;
    adds(
        rt,
        "with size 16 and the key in use",
        t,
        sized(camera(1, 0), 16),
        17,
    )?;
    Ok(())
}

// Late frames through an entry with windows of 16, beside one with windows of 1, and after a restart.
fn windows(rt: Output) -> io::Result<()> {
    println!(rt; "Camera 0 with windows of 1, and camera 1 with windows of 16")?;
    let t = cameras(1);
    let t = adds(rt, "camera 1 with size 16", t, sized(camera(1, 1), 16), 0)?;
    let t = opens_from(rt, t, 1, 1, 20, 0)?;
    let t = opens_from(rt, t, 0, 0, 20, 0)?;
    let t = opens_from(rt, t, 1, 1, 5, 0)?;
    let t = opens_from(rt, t, 1, 1, 5, 10)?;
    let t = opens_from(rt, t, 1, 1, 4, 10)?;
    let t = opens_from(rt, t, 1, 2, 19, 11)?;
    let t = opens_from(rt, t, 1, 1, 19, 0)?;
    let t = opens_from(rt, t, 0, 0, 19, 10)?;
    let t = opens_from(rt, t, 1, 1, 36, 0)?;
    let t = opens_from(rt, t, 1, 1, 20, 10)?;
    let t = opens_from(rt, t, 1, 1, 21, 0)?;
    let t = adds(rt, "camera 1 with size 1 and key 3", t, camera(1, 3), 0)?;
    let t = opens_from(rt, t, 1, 3, 2, 0)?;
    opens_from(rt, t, 1, 3, 1, 10)?;
    Ok(())
}

// Entries whose triples differ in one part.
fn alike(rt: Output) -> io::Result<()> {
    println!(rt; "Camera 0 with key IDs 2 and 3, and for station 2")?;
    let frame = plain(64, BOX);
    let t = cameras(1);
    let t = adds(rt, "camera 0 with key ID 3", t, pairing(BOX, 64, 3, 1), 0)?;
    let t = adds(rt, "camera 0 for station 2", t, pairing(2, 64, 2, 2), 0)?;
    let t = seals_part(rt, "with key ID 3", t, 3, front(&frame, 26), SIZE, 0)?;
    let t = seals_part(rt, "with key ID 2", t, 2, front(&frame, 26), SIZE, 0)?;
    let t = seals(rt, "from station 2", t, plain(64, 2), 0)?;
    let text = text_of(plain(BOX, 64), 26, 1, 3, 7);
    let t = opens(rt, "number 7 with key ID 3", t, text, 0)?;
    let t = opens_from(rt, t, 0, 0, 5, 0)?;
    let text = text_of(plain(2, 64), 26, 2, 2, 2);
    let t = opens(rt, "number 2 to station 2", t, text, 0)?;
    let t = removes_camera(rt, t, 0, 0)?;
    let t = seals_part(rt, "with key ID 3", t, 3, front(&frame, 26), SIZE, 0)?;
    seals_to(rt, t, 0, 15)?;
    Ok(())
}

// The four calls for camera 1 on a table of 16 cameras with e at place i. If that is sound, each answers 0.
fn four(rt: Output, what: &str, i: usize, e: Entry, expected: u8) -> io::Result<()>
    requires { i < table_entries }
{
    let t = put(cameras(16), i, e);
    println!(rt; "{what}, at place {i}")?;
    adds_camera(rt, t, 1, 20, expected)?;
    removes_camera(rt, t, 1, expected)?;
    seals_to(rt, t, 1, expected)?;
    opens_from(rt, t, 1, 1, 1, expected)?;
    Ok(())
}

// At the first place and at the last.
fn ends(rt: Output, what: &str, e: Entry, expected: u8) -> io::Result<()> {
    four(rt, what, 0, e, expected)?;
    four(rt, what, 15, e, expected)?;
    Ok(())
}

// Entries at the limits of soundness and past them, or with what another has.
fn in_use(rt: Output) -> io::Result<()> {
    let x = camera(30, 30);
    let most = entry(pairing(BOX, 94, 3, 30), MOST_NUMBER, 15, MOST_NUMBER);
    ends(rt, "In use with key ID 3 and numbers of 2^48 - 1", most, 0)?;
    let wide = entry(pairing(BOX, 94, 4, 30), 0, 0, 0);
    ends(rt, "In use with key ID 4", wide, 1)?;
    let past = entry(x, MOST_NUMBER + 1, 0, 0);
    ends(rt, "In use with the last number 2^48", past, 1)?;
    let first = entry(x, 0, 0, MOST_NUMBER + 1);
    ends(rt, "In use with the first replay counter 2^48", first, 1)?;
    let last = entry(x, 0, 15, MOST_NUMBER + 1);
    ends(rt, "In use with the last replay counter 2^48", last, 1)?;
    let none = entry(sized(x, 0), 0, 0, 0);
    ends(rt, "In use with the size 0", none, 1)?;
    let full = held(sized(x, 16), 15, 16, 65535);
    ends(
        rt,
        "In use with the numbers 1 to 16 in its last window",
        full,
        0,
    )?;
    let low = held(sized(x, 16), 15, 15, 65535);
    ends(
        rt,
        "In use with the numbers 0 to 15 in its last window",
        low,
        1,
    )?;
    let topless = held(sized(x, 16), 0, 16, 65534);
    ends(
        rt,
        "In use with the numbers 1 to 15 in its first window, and 16 as the greatest",
        topless,
        1,
    )?;
    let more = held(x, 15, 2, 3);
    ends(
        rt,
        "In use with two numbers in its last window of size 1",
        more,
        1,
    )?;
    let known = entry(camera(30, 14), 0, 0, 0);
    ends(rt, "In use with the key of camera 14", known, 1)?;
    let present = entry(flagged(camera(1, 30), false, false), 0, 0, 0);
    ends(
        rt,
        "In use with the triple of camera 1, flags off",
        present,
        1,
    )?;
    Ok(())
}

// What a free entry holds plays no part.
fn not_in_use(rt: Output) -> io::Result<()> {
    let x = pairing(BOX, 94, 4, 30);
    let past = free(x, MOST_NUMBER + 1, 15, MOST_NUMBER + 1);
    ends(rt, "Free with key ID 4 and numbers of 2^48", past, 0)?;
    let known = free(camera(30, 14), 0, 0, 0);
    ends(rt, "Free with the key of camera 14", known, 0)?;
    let present = free(camera(1, 30), 0, 0, 0);
    ends(rt, "Free with the triple of camera 1", present, 0)?;
    println!(rt; "Free at place 3 with numbers of 2^48, and at place 15 with camera 30")?;
    let t = put(cameras(16), 3, past);
    let t = put(t, 15, free(camera(30, 30), 5, 0, 5));
    let t = removes_camera(rt, t, 30, 15)?;
    let t = seals_to(rt, t, 30, 15)?;
    let t = opens_from(rt, t, 30, 30, 6, 15)?;
    let t = adds_camera(rt, t, 30, 30, 0)?;
    let t = adds_camera(rt, t, 3, 3, 0)?;
    adds_camera(rt, t, 31, 31, 16)?;
    Ok(())
}

fn main(rt: HostRuntime) -> io::Result<()> {
    let rt = Output(rt);
    adding(rt)?;
    one_octet(rt)?;
    zeros(rt)?;
    removing(rt)?;
    full(rt)?;
    both_ways(rt)?;
    seal_answers(rt)?;
    open_answers(rt)?;
    bodies(rt)?;
    change_order(rt)?;
    seal_order(rt)?;
    open_order(rt)?;
    flags(rt)?;
    counts(rt)?;
    restarts(rt)?;
    in_turns(rt)?;
    sizes(rt)?;
    windows(rt)?;
    alike(rt)?;
    in_use(rt)?;
    not_in_use(rt)?;
    Ok(())
}
