// Splitting and joining. A record is lent by its fields, as for sealing and opening.
ghost use Rattle.std.specs.Prelude.{◌≡◌};
ghost use Rattle.rules.specs.Splitting.{split_answer, split_next, split_output};
ghost use Rattle.rules.specs.Joining.{join_answer, join_next, join_output};
ghost use Rattle.bench.specs.Numbers.{sender, joiner, parts};

use crate::frames::{parts_of, put_sender, sender_of};
use rules::{Fragment, Joiner, MOST_MESSAGE};

pub fn bench_split(
    key: &mut [u8; 16],
    key_id: &mut u8,
    address: &mut [u8; 6],
    last: &mut u64,
    answer: &mut [u64; 4],
    size: usize,
    frame: &[u8],
    out: &mut [u8],
)
    ensures answer_after { answer.new
        ≡ parts (split_answer (sender key.old key_id.old address.old last.old) size frame.now out.old) }
    ensures last_after { sender key.new key_id.new address.new last.new
        ≡ split_next (sender key.old key_id.old address.old last.old) size frame.now out.old }
    ensures out_after { out.new
        ≡ split_output (sender key.old key_id.old address.old last.old) size frame.now out.old }
{
    let before = sender_of(*key, *key_id, *address, *last);
    let sealed = fragments::split(before, size, frame, out);
    *answer = parts_of(sealed.answer);
    put_sender(&sealed.sender, key, key_id, address, last);
}

fn joiner_of(
    held: [u8; MOST_MESSAGE],
    length: usize,
    address: [u8; 6],
    priority: u8,
    sequence: u16,
    fragment: u8,
    number: u64,
) -> Joiner
    ensures { result ≡ joiner held length address priority sequence fragment number }
{
    let last = Fragment {
        address,
        priority,
        sequence,
        fragment,
        number,
    };
    Joiner { held, length, last }
}

pub fn bench_join(
    held: &mut [u8; MOST_MESSAGE],
    length: &mut usize,
    address: &mut [u8; 6],
    priority: &mut u8,
    sequence: &mut u16,
    fragment: &mut u8,
    last: &mut u64,
    answer: &mut [u64; 4],
    frame: &[u8],
    number: u64,
    out: &mut [u8],
)
    ensures answer_after { answer.new
        ≡ parts (join_answer (joiner held.old length.old address.old priority.old sequence.old fragment.old last.old)
        frame.now number out.old) }
    ensures last_after { joiner held.new length.new address.new priority.new sequence.new fragment.new last.new
        ≡ join_next (joiner held.old length.old address.old priority.old sequence.old fragment.old last.old) frame.now number out.old }
    ensures out_after { out.new
        ≡ join_output (joiner held.old length.old address.old priority.old sequence.old fragment.old last.old) frame.now number out.old }
{
    let before = joiner_of(
        *held, *length, *address, *priority, *sequence, *fragment, *last,
    );
    let joined = fragments::join(before, frame, number, out);
    *answer = parts_of(joined.answer);
    let j = &joined.joiner;
    *held = j.held;
    *length = j.length;
    *address = j.last.address;
    *priority = j.last.priority;
    *sequence = j.last.sequence;
    *fragment = j.last.fragment;
    *last = j.last.number;
}
