// The calls of a C host, compiled with those beneath them, so that the two can be timed on the same code.
ghost use Rattle.std.specs.Prelude.{◌≡◌};
ghost use Rattle.kondrivai.specs.Exports.{seal_number, seal_buffer, seal_room, open_number, open_buffer, open_room};

pub fn bench_buffer_seal(record: &mut [u8], frame: &[u8], out: &mut [u8]) -> u32
    ensures value { result ≡ seal_number «record».old frame.now out.old }
    ensures record_after { «record».new ≡ seal_buffer «record».old frame.now out.old }
    ensures out_after { out.new ≡ seal_room «record».old frame.now out.old }
{
    kondrivai::kondrivai_seal(record, frame, out)
}

pub fn bench_buffer_open(record: &mut [u8], frame: &[u8], out: &mut [u8]) -> u32
    ensures value { result ≡ open_number «record».old frame.now out.old }
    ensures record_after { «record».new ≡ open_buffer «record».old frame.now out.old }
    ensures out_after { out.new ≡ open_room «record».old frame.now out.old }
{
    kondrivai::kondrivai_open(record, frame, out)
}
