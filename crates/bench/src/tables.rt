// Adding to a fresh table, and sealing and opening through one with one camera, each twice: by these the stack is measured. A call that is
// made at two places is a function of its own in the compiled code.
ghost use Rattle.std.specs.Prelude.{◌≡◌};
ghost use Rattle.bench.specs.Numbers.{camera, one_camera, added_twice, sealed_twice, opened_twice, parts};

use crate::frames::parts_of;
use ccmp::SMALL_WINDOW;
use rules::{Entry, Pairing, Table, Triple};

fn one_camera(own: [u8; 6], peer: [u8; 6], key_id: u8, key: [u8; 16]) -> Table
    ensures { result ≡ one_camera own peer key_id key }
{
    let mut t = table::new_table();
    t.entries[0] = Entry {
        used: true,
        may_send: true,
        may_receive: true,
        own,
        last: 0,
        receiver: ccmp::new_receiver(key, key_id, peer, SMALL_WINDOW),
    };
    t
}

pub fn bench_table_add(
    own: &[u8; 6],
    peer: &[u8; 6],
    key_id: u8,
    key: &[u8; 16],
    answer: &mut [u64; 4],
)
    ensures { answer.new ≡ parts (added_twice (camera own.now peer.now key_id key.now)) }
{
    let x = Pairing {
        triple: Triple {
            own: *own,
            peer: *peer,
            key_id,
        },
        key: *key,
        size: SMALL_WINDOW,
        may_send: true,
        may_receive: true,
    };
    let first = table::add(table::new_table(), x);
    let added = table::add(first.table, x);
    *answer = parts_of(added.answer);
}

pub fn bench_table_seal(
    own: &[u8; 6],
    peer: &[u8; 6],
    key_id: u8,
    key: &[u8; 16],
    answer: &mut [u64; 4],
    frame: &[u8],
    out: &mut [u8],
)
    ensures answer_after { answer.new
        ≡ parts (sealed_twice (one_camera own.now peer.now key_id key.now) key_id frame.now out.old).0 }
    ensures out_after { out.new
        ≡ (sealed_twice (one_camera own.now peer.now key_id key.now) key_id frame.now out.old).1 }
{
    let t = one_camera(*own, *peer, key_id, *key);
    let first = table::seal(t, key_id, frame, out);
    let sealed = table::seal(first.table, key_id, frame, out);
    *answer = parts_of(sealed.answer);
}

pub fn bench_table_open(
    own: &[u8; 6],
    peer: &[u8; 6],
    key_id: u8,
    key: &[u8; 16],
    answer: &mut [u64; 4],
    frame: &[u8],
    out: &mut [u8],
)
    ensures answer_after { answer.new
        ≡ parts (opened_twice (one_camera own.now peer.now key_id key.now) frame.now out.old).0 }
    ensures out_after { out.new
        ≡ (opened_twice (one_camera own.now peer.now key_id key.now) frame.now out.old).1 }
{
    let t = one_camera(*own, *peer, key_id, *key);
    let first = table::open(t, frame, out);
    let opened = table::open(first.table, frame, out);
    *answer = parts_of(opened.answer);
}
