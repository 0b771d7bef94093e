// Fresh records, sealing and opening. A record is lent by its fields, which hold the record handed back afterwards; `answer` then has the
// answer's parts.
ghost use Rattle.std.specs.Prelude.{◌≡◌};
ghost use Rattle.rules.specs.Opening.{open_answer, open_next, open_output};
ghost use Rattle.rules.specs.Records.{fresh_answer, fresh_sender, receiver_answer, fresh_receiver};
ghost use Rattle.rules.specs.Sealing.{seal_answer, seal_next, seal_output};
ghost use Rattle.bench.specs.Numbers.{sender, receiver, parts};

#[unsafe(no_mangle)]
pub extern "C" fn bench_fresh_sender(
    key: &mut [u8; 16],
    key_id: &mut u8,
    address: &mut [u8; 6],
    last: &mut u64,
    answer: &mut [u64; 4],
)
    ensures answer_after { answer.new ≡ parts (fresh_answer key_id.old) }
    ensures last_after { sender key.new key_id.new address.new last.new
        ≡ fresh_sender key.old key_id.old address.old }
{
    bench::frames::bench_fresh_sender(key, key_id, address, last, answer);
}

#[unsafe(no_mangle)]
pub extern "C" fn bench_ccmp_seal(
    key: &mut [u8; 16],
    key_id: &mut u8,
    address: &mut [u8; 6],
    last: &mut u64,
    answer: &mut [u64; 4],
    frame: &[u8],
    out: &mut [u8],
)
    ensures answer_after { answer.new
        ≡ parts (seal_answer (sender key.old key_id.old address.old last.old) frame.now out.old) }
    ensures last_after { sender key.new key_id.new address.new last.new
        ≡ seal_next (sender key.old key_id.old address.old last.old) frame.now out.old }
    ensures out_after { out.new
        ≡ seal_output (sender key.old key_id.old address.old last.old) frame.now out.old }
{
    bench::frames::bench_ccmp_seal(key, key_id, address, last, answer, frame, out);
}

#[unsafe(no_mangle)]
pub extern "C" fn bench_fresh_receiver(
    key: &mut [u8; 16],
    key_id: &mut u8,
    peer: &mut [u8; 6],
    size: &mut u8,
    replay: &mut [u64; 16],
    seen: &mut [u16; 16],
    counts: &mut [u32; 4],
    answer: &mut [u64; 4],
)
    ensures answer_after { answer.new ≡ parts (receiver_answer key_id.old size.old) }
    ensures counts_after { receiver key.new key_id.new peer.new size.new replay.new seen.new counts.new
        ≡ fresh_receiver key.old key_id.old peer.old size.old }
{
    bench::frames::bench_fresh_receiver(key, key_id, peer, size, replay, seen, counts, answer);
}

#[unsafe(no_mangle)]
pub extern "C" fn bench_ccmp_open(
    key: &mut [u8; 16],
    key_id: &mut u8,
    peer: &mut [u8; 6],
    size: &mut u8,
    replay: &mut [u64; 16],
    seen: &mut [u16; 16],
    counts: &mut [u32; 4],
    answer: &mut [u64; 4],
    frame: &[u8],
    out: &mut [u8],
)
    ensures answer_after { answer.new
        ≡ parts (open_answer (receiver key.old key_id.old peer.old size.old replay.old seen.old counts.old) frame.now out.old) }
    ensures counts_after { receiver key.new key_id.new peer.new size.new replay.new seen.new counts.new
        ≡ open_next (receiver key.old key_id.old peer.old size.old replay.old seen.old counts.old) frame.now out.old }
    ensures out_after { out.new
        ≡ open_output (receiver key.old key_id.old peer.old size.old replay.old seen.old counts.old) frame.now out.old }
{
    bench::frames::bench_ccmp_open(
        key, key_id, peer, size, replay, seen, counts, answer, frame, out,
    );
}
