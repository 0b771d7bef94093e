// A receiver's buffer, read and written.
ghost use Rattle.std.specs.Prelude.{◌≡◌, ◌++◌, take};
ghost use Rattle.kondrivai.specs.Layout1.{counts_in, counts_octets, receiver_octets};
ghost use Rattle.kondrivai.specs.Held.{held_receiver};

use crate::front::{Kind, is_of, put_front};
use crate::number::{put_octet, put_octets, put_six, six_at};
use octets::octets_at;
use rules::{Counts, Receiver};
use std::array;

pub(crate) const RECEIVER_OCTETS: usize = 170;

// Where its fields begin.
const KEY_ID: usize = 2;

const SIZE: usize = 3;

const PEER: usize = 4;

const KEY: usize = 10;

const FORMAT_ERRORS: usize = 26;

const REPLAYS: usize = 30;

const DECRYPT_ERRORS: usize = 34;

const OPENED: usize = 38;

const GREATEST: usize = 42;

const SEEN: usize = 138;

// The counts of the receiver that b holds.
fn get_counts(b: &[u8; RECEIVER_OCTETS]) -> Counts
    ensures { result ≡ counts_in b.now }
{
    Counts {
        format_errors: u32::from_le_bytes(octets_at(b, FORMAT_ERRORS)),
        replays: u32::from_le_bytes(octets_at(b, REPLAYS)),
        decrypt_errors: u32::from_le_bytes(octets_at(b, DECRYPT_ERRORS)),
        opened: u32::from_le_bytes(octets_at(b, OPENED)),
    }
}

// The receiver that b holds, if it holds one.
pub(crate) fn get_receiver(b: &[u8; RECEIVER_OCTETS]) -> Option<Receiver>
    ensures { result ≡ held_receiver b.now }
{
    if !is_of(b, Kind::Receiver) || !ccmp::receiver_fits(b[KEY_ID], b[SIZE]) {
        return None;
    }
    let new = ccmp::new_receiver(octets_at(b, KEY), b[KEY_ID], octets_at(b, PEER), b[SIZE]);
    let replay = array::from_fn(|p| six_at(b, GREATEST + 6 * p));
    let seen = array::from_fn(|p| u16::from_le_bytes(octets_at(b, SEEN + 2 * p)));
    let counts = get_counts(b);
    Some(Receiver {
        replay,
        seen,
        counts,
        ..new
    })
}

// Writes the counts in their places.
fn put_counts(c: Counts, b: &mut [u8; RECEIVER_OCTETS])
    ensures { take 42 b.new ≡ take 26 b.old ++ counts_octets c }
{
    put_octets(&c.format_errors.to_le_bytes(), b, FORMAT_ERRORS);
    put_octets(&c.replays.to_le_bytes(), b, REPLAYS);
    put_octets(&c.decrypt_errors.to_le_bytes(), b, DECRYPT_ERRORS);
    put_octets(&c.opened.to_le_bytes(), b, OPENED);
}

// Writes a receiver over the whole of b. Its numbers by loops: by `map` and `as_flattened` the two lists took 75 ns more.
pub(crate) fn put_receiver(r: Receiver, b: &mut [u8; RECEIVER_OCTETS])
    ensures { b.new ≡ receiver_octets r }
{
    put_front(Kind::Receiver, b);
    put_octet(r.key_id, b, KEY_ID);
    put_octet(r.size, b, SIZE);
    put_octets(&r.peer, b, PEER);
    put_octets(&r.key, b, KEY);
    put_counts(r.counts, b);
    for (p, greatest) in r.replay.iter().enumerate() {
        put_six(*greatest, b, GREATEST + 6 * p);
    }
    for (q, seen) in r.seen.iter().enumerate() {
        put_octets(&seen.to_le_bytes(), b, SEEN + 2 * q);
    }
}
