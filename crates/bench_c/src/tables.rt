// Adding to a fresh table, and sealing and opening through one with one camera, each twice.
ghost use Rattle.std.specs.Prelude.{◌≡◌};
ghost use Rattle.bench.specs.Numbers.{camera, one_camera, added_twice, sealed_twice, opened_twice, parts};

#[unsafe(no_mangle)]
pub extern "C" fn bench_table_add(
    own: &[u8; 6],
    peer: &[u8; 6],
    key_id: u8,
    key: &[u8; 16],
    answer: &mut [u64; 4],
)
    ensures { answer.new ≡ parts (added_twice (camera own.now peer.now key_id key.now)) }
{
    bench::tables::bench_table_add(own, peer, key_id, key, answer);
}

#[unsafe(no_mangle)]
pub extern "C" fn bench_table_seal(
    own: &[u8; 6],
    peer: &[u8; 6],
    key_id: u8,
    key: &[u8; 16],
    answer: &mut [u64; 4],
    frame: &[u8],
    out: &mut [u8],
)
    ensures answer_after { answer.new
        ≡ parts (sealed_twice (one_camera own.now peer.now key_id key.now) key_id frame.now out.old).0 }
    ensures out_after { out.new
        ≡ (sealed_twice (one_camera own.now peer.now key_id key.now) key_id frame.now out.old).1 }
{
    bench::tables::bench_table_seal(own, peer, key_id, key, answer, frame, out);
}

#[unsafe(no_mangle)]
pub extern "C" fn bench_table_open(
    own: &[u8; 6],
    peer: &[u8; 6],
    key_id: u8,
    key: &[u8; 16],
    answer: &mut [u64; 4],
    frame: &[u8],
    out: &mut [u8],
)
    ensures answer_after { answer.new
        ≡ parts (opened_twice (one_camera own.now peer.now key_id key.now) frame.now out.old).0 }
    ensures out_after { out.new
        ≡ (opened_twice (one_camera own.now peer.now key_id key.now) frame.now out.old).1 }
{
    bench::tables::bench_table_open(own, peer, key_id, key, answer, frame, out);
}
