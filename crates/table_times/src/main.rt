// What timings run: a frame sealed again and again, or frames opened, through a table with sixteen entries in use or by the
// record's own call. The input is requests of ten octets each, as `tsl000600`: `t` for the table or `r` for the record, or `T`
// or `R` with windows of 16; `s` to seal or `o` to open; `s` for a short body or `l` for a long one; how many calls, in six
// digits; a line feed.
#![tactic(auto)]

ghost use Rattle.std.specs.Prelude.{◌+◌, ◌≤◌, length};

use ccmp::{ADDED, LARGE_WINDOW, SMALL_WINDOW};
use rules::{Pairing, Table, Triple};
use show::{Hex, Output};
use std::io;
use std::io::Read;

const REQUEST: usize = 10;

const HEADER: usize = 24;

const SHORT: usize = HEADER + 64;

const LONG: usize = HEADER + 1500;

// The bodies that frames have.
#[derive(Clone, Copy)]
enum Body {
    Short,
    Long,
}

impl Body {
    // The octets of a frame with this body.
    fn size(self) -> usize
        ensures { (24 ≤ result) × (result ≤ 1524) }
    {
        match self {
            Body::Short => SHORT,
            Body::Long => LONG,
        }
    }
}

// How many octets of the last frame are printed.
const END: usize = 8;

// The octets that sealed frames have room in.
const AIR: usize = 65536;

// The camera of the last entry, and its key.
const LAST: [u8; 6] = *b"\x02cam-\x10";

const KEY: [u8; 16] = [16; 16];

const BOX: [u8; 6] = *b"\x02box-1";

// A table with every entry in use, with windows of this size.
fn full_table(window: u8) -> Table {
    let mut table = table::new_table();
    for n in 1..=16 {
        let triple = Triple {
            own: BOX,
            peer: [2, b'c', b'a', b'm', b'-', n],
            key_id: 0,
        };
        let pairing = Pairing {
            triple,
            key: [n; 16],
            size: window,
            may_send: true,
            may_receive: true,
        };
        table = table::add(table, pairing).table;
    }
    table
}

// A frame with this header and a long body.
fn frame_of(header: [u8; HEADER]) -> [u8; LONG] {
    let mut frame = [0x11u8; LONG];
    octets::copy(&header, &mut frame);
    frame
}

// Makes a call again and again, and gives how often it was done.
#[inline(always)]
fn done_of<F: FnMut() -> bool>(calls: u64, mut call: F) -> u64
    requires { F.IsAlwaysCallable call }
{
    let mut count: u64 = 0;
    for _ in 0..calls {
        count = count.wrapping_add(u64::from(call()));
    }
    count
}

// The last camera seals the frame again and again, until air is full.
fn fill(frame: &[u8], air: &mut [u8])
    requires { length frame.now ≤ 1524 }
{
    let mut sender = ccmp::fresh_sender(KEY, 0, LAST).sender;
    for room in air.chunks_mut(frame.len() + ADDED) {
        sender = ccmp::seal(sender, frame, room).sender;
    }
}

// Where the next frame of this size starts: at the end of air, at its start again.
fn next(at: usize, size: usize, air: usize) -> usize
    requires { (at ≤ air) × (size ≤ air) }
    ensures { result + size ≤ air }
{
    if air - at < size {
        return 0;
    }
    at
}

// Opens the frames of air in order, and gives how often that was done. The call is told where a turn starts at the front of air.
#[inline(always)]
fn opened_of<F: FnMut(&[u8], bool) -> bool>(calls: u64, size: usize, air: &[u8], mut call: F) -> u64
    requires frames { size ≤ length air.now }
    requires callable { F.IsAlwaysCallable call }
{
    let mut count: u64 = 0;
    let mut end = 0;
    for _ in 0..calls {
        let at = next(end, size, air.len());
        end = at + size;
        count = count.wrapping_add(u64::from(call(&air[at..end], at == 0)));
    }
    count
}

// How many calls were done, and the end of the last frame written.
fn tell(rt: Output, count: u64, end: &[u8]) -> io::Result<()> {
    println!(rt; "{count} done, the last ends in {}", Hex(end))
}

// The box seals a frame for its last camera. Which step a turn runs is picked here, as a closure: with a function for each way, that gave
// its closure to a common one, a call through the table took 100 ns more.
fn seals(rt: Output, by_table: bool, body: Body, calls: u64) -> io::Result<()> {
    let size = body.size();
    let frame = frame_of(*b"\x08\x02\x00\x00\x02cam-\x10\x02box-1\x02box-1\x10\x00");
    let frame = &frame[0..size];
    let mut out = [0u8; LONG + ADDED];
    let count = if by_table {
        let mut table = full_table(SMALL_WINDOW);
        done_of(calls, || {
            let sealed = table::seal(table, 0, frame, &mut out);
            table = sealed.table;
            sealed.answer.is_ok()
        })
    } else {
        let mut sender = ccmp::fresh_sender(KEY, 0, BOX).sender;
        done_of(calls, || {
            let sealed = ccmp::seal(sender, frame, &mut out);
            sender = sealed.sender;
            sealed.answer.is_ok()
        })
    };
    let end = size + ADDED;
    tell(rt, count, &out[end - END..end])
}

// The box opens frames from its last camera, each turn from a fresh table or record. The step is picked here, as in seals.
fn opens(rt: Output, by_table: bool, window: u8, body: Body, calls: u64) -> io::Result<()> {
    let size = body.size();
    let frame = frame_of(*b"\x08\x01\x00\x00\x02box-1\x02cam-\x10\x02box-1\x10\x00");
    let mut air = [0u8; AIR];
    fill(&frame[0..size], &mut air);
    let mut out = [0u8; LONG];
    let count = if by_table {
        let fresh = full_table(window);
        let mut table = fresh;
        opened_of(calls, size + ADDED, &air, |frame, anew| {
            if anew {
                table = fresh;
            }
            let opened = table::open(table, frame, &mut out);
            table = opened.table;
            opened.answer.is_ok()
        })
    } else {
        let fresh = ccmp::fresh_receiver(KEY, 0, LAST, window).receiver;
        let mut receiver = fresh;
        opened_of(calls, size + ADDED, &air, |frame, anew| {
            if anew {
                receiver = fresh;
            }
            let opened = ccmp::open(receiver, frame, &mut out);
            receiver = opened.receiver;
            opened.answer.is_ok()
        })
    };
    tell(rt, count, &out[size - END..size])
}

// The size of the windows of a request whose first letter is this.
fn window_of(way: u8) -> u8 {
    if way < b'a' {
        return LARGE_WINDOW;
    }
    SMALL_WINDOW
}

// The body of a request with this letter.
fn body_of(letter: u8) -> Body {
    if letter == b's' {
        return Body::Short;
    }
    Body::Long
}

// What is no digit counts as 0.
fn digit(x: u8) -> u64
    ensures { result ≤ 9 }
{
    match x {
        b'0'..=b'9' => u64::from(x - b'0'),
        _ => 0,
    }
}

fn serve(rt: Output, request: &[u8; REQUEST]) -> io::Result<()> {
    let way = request[0];
    let by_table = way == b't' || way == b'T';
    let body = body_of(request[2]);
    // Six digits never wrap.
    let calls = request[3..9]
        .iter()
        .fold(0u64, |n, x| n.wrapping_mul(10).wrapping_add(digit(*x)));
    if request[1] == b's' {
        return seals(rt, by_table, body, calls);
    }
    opens(rt, by_table, window_of(way), body, calls)
}

// Reads until the room is full, the input ends or a read fails, and gives how many octets were read. It is a `while`, since how far each
// turn goes is what the read gives.
fn read_full(rt: HostRuntime, room: &mut [u8]) -> usize
    ensures { result ≤ length room.new }
{
    let mut input = rt.stdin();
    let mut done = 0;
    while done < room.len() {
        let n = input.read(&mut room[done..]).unwrap_or(0);
        if n == 0 {
            return done;
        }
        done += n;
    }
    done
}

fn main(rt: HostRuntime) -> io::Result<()> {
    let mut text = [0u8; 256];
    let n = read_full(rt, &mut text);
    let (requests, _) = text[0..n].as_chunks::<REQUEST>();
    for request in requests {
        serve(Output(rt), request)?;
    }
    Ok(())
}
