// What a C host links: the calls of the library, under their names in C. docs/LAYOUT.md has the layout of a record's buffer,
// include/kondrivai.h the calls as C sees them. A slice passes as a pointer and a length.
#![tactic(auto)]

ghost use Rattle.std.specs.Prelude.{◌≡◌};
ghost use Rattle.kondrivai.specs.Exports.{seal_number, seal_buffer, seal_room, open_number, open_buffer, open_room, fresh_sender_number, fresh_sender_buffer, fresh_receiver_number, fresh_receiver_buffer};

use rules::ADDRESS_OCTETS;

// Makes a sender that has sealed nothing.
#[unsafe(no_mangle)]
pub extern "C" fn kondrivai_fresh_sender(
    record: &mut [u8],
    key: &[u8],
    key_id: u8,
    address: &[u8; ADDRESS_OCTETS],
) -> u32
    ensures value { result ≡ fresh_sender_number «record».old key.now key_id }
    ensures record_after { «record».new ≡ fresh_sender_buffer «record».old key.now key_id address.now }
{
    kondrivai::kondrivai_fresh_sender(record, key, key_id, address)
}

// Makes a receiver that has opened nothing, with windows of this size.
#[unsafe(no_mangle)]
pub extern "C" fn kondrivai_fresh_receiver(
    record: &mut [u8],
    key: &[u8],
    key_id: u8,
    peer: &[u8; ADDRESS_OCTETS],
    size: u8,
) -> u32
    ensures value { result ≡ fresh_receiver_number «record».old key.now key_id size }
    ensures record_after { «record».new ≡ fresh_receiver_buffer «record».old key.now key_id peer.now size }
{
    kondrivai::kondrivai_fresh_receiver(record, key, key_id, peer, size)
}

// Seals a plain frame into the front of out, by the sender in record.
#[unsafe(no_mangle)]
pub extern "C" fn kondrivai_seal(record: &mut [u8], frame: &[u8], out: &mut [u8]) -> u32
    ensures value { result ≡ seal_number «record».old frame.now out.old }
    ensures record_after { «record».new ≡ seal_buffer «record».old frame.now out.old }
    ensures out_after { out.new ≡ seal_room «record».old frame.now out.old }
{
    kondrivai::kondrivai_seal(record, frame, out)
}

// Opens a sealed frame into the front of out, by the receiver in record.
#[unsafe(no_mangle)]
pub extern "C" fn kondrivai_open(record: &mut [u8], frame: &[u8], out: &mut [u8]) -> u32
    ensures value { result ≡ open_number «record».old frame.now out.old }
    ensures record_after { «record».new ≡ open_buffer «record».old frame.now out.old }
    ensures out_after { out.new ≡ open_room «record».old frame.now out.old }
{
    kondrivai::kondrivai_open(record, frame, out)
}
