// Fresh records, sealing and opening. C lends a record by its fields, a pointer each, which the functions here pass on together; they hold
// the record handed back afterwards, and `answer` then has the answer's parts.
ghost use Rattle.std.specs.Prelude.{◌≡◌};
ghost use Rattle.rules.specs.Refusals.{answer_of};
ghost use Rattle.rules.specs.Opening.{open_answer, open_next, open_output};
ghost use Rattle.rules.specs.Records.{fresh_answer, fresh_sender, receiver_answer, fresh_receiver};
ghost use Rattle.rules.specs.Sealing.{seal_answer, seal_next, seal_output};
ghost use Rattle.bench.specs.Numbers.{sender, receiver, parts};

use rules::{Counts, Receiver, Refusal, Sender, Success};

// The answer's number, and the packet number, the priority and the octets written, which are 0 after a refusal.
pub(crate) fn parts_of(answer: Result<Success, Refusal>) -> [u64; 4]
    ensures { result ≡ parts (answer_of answer) }
{
    match answer {
        Ok(done) => [0, done.number, u64::from(done.priority), done.octets as u64],
        Err(refusal) => [u64::from(refusal.number()), 0, 0, 0],
    }
}

pub(crate) fn sender_of(key: [u8; 16], key_id: u8, address: [u8; 6], last: u64) -> Sender
    ensures { result ≡ sender key key_id address last }
{
    Sender {
        last,
        ..ccmp::new_sender(key, key_id, address)
    }
}

// A sender's fields as they are lent, written back.
pub(crate) fn put_sender(
    s: &Sender,
    key: &mut [u8; 16],
    key_id: &mut u8,
    address: &mut [u8; 6],
    last: &mut u64,
)
    ensures { sender key.new key_id.new address.new last.new ≡ s.now }
{
    *key = s.key;
    *key_id = s.key_id;
    *address = s.address;
    *last = s.last;
}

fn receiver_of(
    key: [u8; 16],
    key_id: u8,
    peer: [u8; 6],
    size: u8,
    replay: [u64; 16],
    seen: [u16; 16],
    counts: [u32; 4],
) -> Receiver
    ensures { result ≡ receiver key key_id peer size replay seen counts }
{
    let counts = Counts {
        format_errors: counts[0],
        replays: counts[1],
        decrypt_errors: counts[2],
        opened: counts[3],
    };
    Receiver {
        replay,
        seen,
        counts,
        ..ccmp::new_receiver(key, key_id, peer, size)
    }
}

// A receiver's fields as they are lent, written back.
fn put_receiver(
    r: &Receiver,
    key: &mut [u8; 16],
    key_id: &mut u8,
    peer: &mut [u8; 6],
    size: &mut u8,
    replay: &mut [u64; 16],
    seen: &mut [u16; 16],
    counts: &mut [u32; 4],
)
    ensures { receiver key.new key_id.new peer.new size.new replay.new seen.new counts.new ≡ r.now }
{
    *key = r.key;
    *key_id = r.key_id;
    *peer = r.peer;
    *size = r.size;
    *replay = r.replay;
    *seen = r.seen;
    *counts = [
        r.counts.format_errors,
        r.counts.replays,
        r.counts.decrypt_errors,
        r.counts.opened,
    ];
}

pub fn bench_fresh_sender(
    key: &mut [u8; 16],
    key_id: &mut u8,
    address: &mut [u8; 6],
    last: &mut u64,
    answer: &mut [u64; 4],
)
    ensures answer_after { answer.new ≡ parts (fresh_answer key_id.old) }
    ensures last_after { sender key.new key_id.new address.new last.new
        ≡ fresh_sender key.old key_id.old address.old }
{
    let fresh = ccmp::fresh_sender(*key, *key_id, *address);
    *answer = parts_of(fresh.answer);
    put_sender(&fresh.sender, key, key_id, address, last);
}

pub fn bench_ccmp_seal(
    key: &mut [u8; 16],
    key_id: &mut u8,
    address: &mut [u8; 6],
    last: &mut u64,
    answer: &mut [u64; 4],
    frame: &[u8],
    out: &mut [u8],
)
    ensures answer_after { answer.new
        ≡ parts (seal_answer (sender key.old key_id.old address.old last.old) frame.now out.old) }
    ensures last_after { sender key.new key_id.new address.new last.new
        ≡ seal_next (sender key.old key_id.old address.old last.old) frame.now out.old }
    ensures out_after { out.new
        ≡ seal_output (sender key.old key_id.old address.old last.old) frame.now out.old }
{
    let before = sender_of(*key, *key_id, *address, *last);
    let sealed = ccmp::seal(before, frame, out);
    *answer = parts_of(sealed.answer);
    put_sender(&sealed.sender, key, key_id, address, last);
}

pub fn bench_fresh_receiver(
    key: &mut [u8; 16],
    key_id: &mut u8,
    peer: &mut [u8; 6],
    size: &mut u8,
    replay: &mut [u64; 16],
    seen: &mut [u16; 16],
    counts: &mut [u32; 4],
    answer: &mut [u64; 4],
)
    ensures answer_after { answer.new ≡ parts (receiver_answer key_id.old size.old) }
    ensures counts_after { receiver key.new key_id.new peer.new size.new replay.new seen.new counts.new
        ≡ fresh_receiver key.old key_id.old peer.old size.old }
{
    let fresh = ccmp::fresh_receiver(*key, *key_id, *peer, *size);
    *answer = parts_of(fresh.answer);
    put_receiver(
        &fresh.receiver,
        key,
        key_id,
        peer,
        size,
        replay,
        seen,
        counts,
    );
}

pub fn bench_ccmp_open(
    key: &mut [u8; 16],
    key_id: &mut u8,
    peer: &mut [u8; 6],
    size: &mut u8,
    replay: &mut [u64; 16],
    seen: &mut [u16; 16],
    counts: &mut [u32; 4],
    answer: &mut [u64; 4],
    frame: &[u8],
    out: &mut [u8],
)
    ensures answer_after { answer.new
        ≡ parts (open_answer (receiver key.old key_id.old peer.old size.old replay.old seen.old counts.old) frame.now out.old) }
    ensures counts_after { receiver key.new key_id.new peer.new size.new replay.new seen.new counts.new
        ≡ open_next (receiver key.old key_id.old peer.old size.old replay.old seen.old counts.old) frame.now out.old }
    ensures out_after { out.new
        ≡ open_output (receiver key.old key_id.old peer.old size.old replay.old seen.old counts.old) frame.now out.old }
{
    let before = receiver_of(*key, *key_id, *peer, *size, *replay, *seen, *counts);
    let opened = ccmp::open(before, frame, out);
    *answer = parts_of(opened.answer);
    put_receiver(
        &opened.receiver,
        key,
        key_id,
        peer,
        size,
        replay,
        seen,
        counts,
    );
}
