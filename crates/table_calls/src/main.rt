// Calls on a table for a program outside, which compares what they leave: a request on standard input gives a table, a call and what is
// lent to it, and standard output gets the answer, the table and the room afterwards, until the input ends.
//
// A number is written with its low octet first. A table is its entries, each as three flags, own address, key ID, peer, key, last number,
// replay counters, counts, size and the bits of the windows, and then its format count. A request is a table, the call's letter (n, a, r, s
// or o), the pairing's own address, peer, key ID, key, flags and size, the lengths of frame and room, and these two; an answer is four
// numbers, the table and the room.
#![tactic(auto)]

ghost use Rattle.std.specs.Prelude.{◌+◌, ◌≤◌, length};

use ccmp::MOST_BODY;
use octets::octets_at;
use rules::{Counts, ENTRIES, Entry, Pairing, Receiver, Refusal, Success, Table, Triple};
use show::Output;
use std::io::Read;
use std::{array, io};
use table::Answered;

// The octets of an entry and of a table as they are written, and of a request before its frame.
const ENTRY: usize = 217;

const TABLE: usize = ENTRIES * ENTRY + 4;

const REQUEST: usize = TABLE + 41;

// The most octets of a frame or a room.
const SPACE: usize = MOST_BODY + 4096;

fn entry_of(b: &[u8; ENTRY]) -> Entry {
    let counts = Counts {
        format_errors: u32::from_le_bytes(octets_at(b, 168)),
        replays: u32::from_le_bytes(octets_at(b, 172)),
        decrypt_errors: u32::from_le_bytes(octets_at(b, 176)),
        opened: u32::from_le_bytes(octets_at(b, 180)),
    };
    let receiver = Receiver {
        key: octets_at(b, 16),
        key_id: b[9],
        peer: octets_at(b, 10),
        size: b[184],
        replay: array::from_fn(|p| u64::from_le_bytes(octets_at(b, 40 + 8 * p))),
        seen: array::from_fn(|p| u16::from_le_bytes(octets_at(b, 185 + 2 * p))),
        counts,
    };
    Entry {
        used: b[0] != 0,
        may_send: b[1] != 0,
        may_receive: b[2] != 0,
        own: octets_at(b, 3),
        last: u64::from_le_bytes(octets_at(b, 32)),
        receiver,
    }
}

// The table at the front of a request.
fn table_of(b: &[u8; REQUEST]) -> Table {
    let mut t = table::new_table();
    let (entries, _) = b.as_chunks::<ENTRY>();
    for (entry, octets) in t.entries.iter_mut().zip(entries) {
        *entry = entry_of(octets);
    }
    t.format_errors = u32::from_le_bytes(octets_at(b, TABLE - 4));
    t
}

// Writes octets from place i on.
fn put(octets: &[u8], b: &mut [u8; ENTRY], i: usize)
    requires { i + length octets.now ≤ 217 }
{
    b[i..i + octets.len()].copy_from_slice(octets);
}

fn octets_of(e: Entry) -> [u8; ENTRY] {
    let r = e.receiver;
    let mut b = [0u8; ENTRY];
    b[0] = u8::from(e.used);
    b[1] = u8::from(e.may_send);
    b[2] = u8::from(e.may_receive);
    put(&e.own, &mut b, 3);
    b[9] = r.key_id;
    put(&r.peer, &mut b, 10);
    put(&r.key, &mut b, 16);
    put(&e.last.to_le_bytes(), &mut b, 32);
    put(r.replay.map(|n| n.to_le_bytes()).as_flattened(), &mut b, 40);
    put(&r.counts.format_errors.to_le_bytes(), &mut b, 168);
    put(&r.counts.replays.to_le_bytes(), &mut b, 172);
    put(&r.counts.decrypt_errors.to_le_bytes(), &mut b, 176);
    put(&r.counts.opened.to_le_bytes(), &mut b, 180);
    b[184] = r.size;
    put(
        r.seen.map(|bits| bits.to_le_bytes()).as_flattened(),
        &mut b,
        185,
    );
    b
}

fn write_table(out: Output, t: Table) -> io::Result<()> {
    for entry in t.entries {
        out.write_all(&octets_of(entry))?;
    }
    out.write_all(&t.format_errors.to_le_bytes())
}

// The numbers of bench's `parts_of`, written out, since a program that stood on bench would bring all that bench calls.
fn write_answer(out: Output, answer: Result<Success, Refusal>) -> io::Result<()> {
    let numbers = match answer {
        Ok(done) => [0, done.number, u64::from(done.priority), done.octets as u64],
        Err(refusal) => [u64::from(refusal.number()), 0, 0, 0],
    };
    out.write_all(numbers.map(|n| n.to_le_bytes()).as_flattened())
}

// The call of a request, on its table.
fn called(b: &[u8; REQUEST], frame: &[u8], room: &mut [u8]) -> Answered {
    let t = table_of(b);
    let triple = Triple {
        own: octets_at(b, TABLE + 1),
        peer: octets_at(b, TABLE + 7),
        key_id: b[TABLE + 13],
    };
    match b[TABLE] {
        b'a' => table::add(
            t,
            Pairing {
                triple,
                key: octets_at(b, TABLE + 14),
                size: b[TABLE + 32],
                may_send: b[TABLE + 30] != 0,
                may_receive: b[TABLE + 31] != 0,
            },
        ),
        b'r' => table::remove(t, triple),
        b's' => table::seal(t, triple.key_id, frame, room),
        b'o' => table::open(t, frame, room),
        _ => Answered {
            answer: Ok(Success::NO_FRAME),
            table: table::new_table(),
        },
    }
}

// Reads what is lent, makes the call and writes what it leaves.
fn serve(
    rt: HostRuntime,
    request: &[u8; REQUEST],
    frame: &mut [u8],
    room: &mut [u8],
) -> io::Result<()> {
    // Let go, since a request may be cut off here: it is answered on what was read, with zeros for the rest.
    let _ = rt.stdin().read_exact(frame);
    let _ = rt.stdin().read_exact(room);
    let done = called(request, frame, room);
    let out = Output(rt);
    write_answer(out, done.answer)?;
    write_table(out, done.table)?;
    out.write_all(room)
}

// Whether there was a request.
fn turn(rt: HostRuntime) -> io::Result<bool> {
    let mut request = [0u8; REQUEST];
    if rt.stdin().read_exact(&mut request).is_err() {
        return Ok(false);
    }
    let f = u32::from_le_bytes(octets_at(&request, TABLE + 33)) as usize;
    let r = u32::from_le_bytes(octets_at(&request, TABLE + 37)) as usize;
    if SPACE < f || SPACE < r {
        return Ok(false);
    }
    let mut frame = [0u8; SPACE];
    let mut room = [0u8; SPACE];
    serve(rt, &request, &mut frame[0..f], &mut room[0..r])?;
    Ok(true)
}

fn main(rt: HostRuntime) -> io::Result<()> {
    for _ in 0..u64::MAX {
        if !turn(rt)? {
            break;
        }
    }
    Ok(())
}
