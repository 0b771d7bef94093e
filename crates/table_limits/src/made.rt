// What the cases are made of: stations, keys, tables and frames.
ghost use Rattle.std.specs.Prelude.{◌<◌, ◌≤◌};
ghost use Rattle.rules.specs.Limits.{priorities, table_entries};
ghost use Rattle.table_limits.specs.Size.{size};

use cases::{with, with_counter};
use ccmp::SMALL_WINDOW;
use rules::{Entry, Pairing, Table, Triple};

// The octets of an array, more than a frame has that is sealed here. Room is passed as a number of them, which each contract bounds, since
// the call that is given the room makes the array, and tells what stands past the room too.
pub(crate) const SIZE: usize = 48;

// The station that serves the cameras. Camera i is station 64 + i, for i under 64.
pub(crate) const BOX: u8 = 1;

fn address(station: u8) -> [u8; 6] {
    [2, 0, 0, 0, 0, station]
}

fn key(n: u8) -> [u8; 16] {
    [n, 1, 2, 3, 4, 5, 6, 7, 8, 9, 10, 11, 12, 13, 14, 15]
}

pub(crate) fn triple(own: u8, peer: u8, key_id: u8) -> Triple {
    Triple {
        own: address(own),
        peer: address(peer),
        key_id,
    }
}

// Two stations with key n and windows of size 1, both flags on.
pub(crate) fn pairing(own: u8, peer: u8, key_id: u8, n: u8) -> Pairing {
    Pairing {
        triple: triple(own, peer, key_id),
        key: key(n),
        size: SMALL_WINDOW,
        may_send: true,
        may_receive: true,
    }
}

pub(crate) fn sized(x: Pairing, size: u8) -> Pairing {
    Pairing { size, ..x }
}

pub(crate) fn flagged(x: Pairing, may_send: bool, may_receive: bool) -> Pairing {
    Pairing {
        may_send,
        may_receive,
        ..x
    }
}

// The box and camera i, with key ID 2 and key n.
pub(crate) fn camera(i: u8, n: u8) -> Pairing {
    pairing(BOX, 64 | i, 2, n)
}

// A table with cameras 0 to n - 1, each with the key of its own number.
pub(crate) fn cameras(n: u8) -> Table {
    let mut t = table::new_table();
    for i in 0..n {
        t = table::add(t, camera(i, i)).table;
    }
    t
}

// An entry in use with this last number, and n as the replay counter of priority p. A priority is passed as its place, which each contract
// bounds: a type that holds the bound would have to be made in every case.
pub(crate) fn entry(x: Pairing, last: u64, p: usize, n: u64) -> Entry
    requires { p < priorities }
{
    let Triple { own, peer, key_id } = x.triple;
    let receiver = with_counter(ccmp::new_receiver(x.key, key_id, peer, x.size), p, n);
    Entry {
        used: true,
        may_send: x.may_send,
        may_receive: x.may_receive,
        own,
        last,
        receiver,
    }
}

// The same, free.
pub(crate) fn free(x: Pairing, last: u64, p: usize, n: u64) -> Entry
    requires { p < priorities }
{
    Entry {
        used: false,
        ..entry(x, last, p, n)
    }
}

// An entry in use with these bits in the window of priority p, of which n is the greatest number.
pub(crate) fn held(x: Pairing, p: usize, n: u64, bits: u16) -> Entry
    requires { p < priorities }
{
    let mut e = entry(x, 0, p, n);
    e.receiver.seen[p] = bits;
    e
}

// The table with e at place i.
pub(crate) fn put(t: Table, i: usize, e: Entry) -> Table
    requires { i < table_entries }
{
    let mut u = t;
    u.entries[i] = e;
    u
}

// A plain frame of 26 octets from one station to another, in a longer array. The two are its body too.
pub(crate) fn plain(to: u8, from: u8) -> [u8; SIZE] {
    let mut frame = [0u8; SIZE];
    frame[0] = 0x08;
    frame[4] = 2;
    frame[9] = to;
    frame[10] = 2;
    frame[15] = from;
    frame[24] = to;
    frame[25] = from;
    frame
}

// The frame with one bit of octet i changed.
pub(crate) fn damaged(frame: [u8; SIZE], i: usize) -> [u8; SIZE]
    requires { i < size }
{
    with(frame, i, frame[i] ^ 1)
}

// The first k octets of the frame sealed under this number by the station that it is from, with key n.
pub(crate) fn text_of(frame: [u8; SIZE], k: usize, n: u8, key_id: u8, number: u64) -> [u8; SIZE]
    requires { k ≤ size }
{
    let mut s = ccmp::new_sender(key(n), key_id, address(frame[15]));
    s.last = number.saturating_sub(1);
    let mut out = [0u8; SIZE];
    ccmp::seal(s, &frame[0..k], &mut out);
    out
}

// The 42 octets that camera i seals to the box under this number, with key n.
pub(crate) fn heard(i: u8, n: u8, number: u64) -> [u8; SIZE] {
    text_of(plain(BOX, 64 | i), 26, n, 2, number)
}
