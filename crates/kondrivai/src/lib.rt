// Sealing and opening on a record that lies in a buffer, and the making of such records. docs/LAYOUT.md has the layout. A C host links
// these as the crate kondrivai_c exports them.
#![tactic(auto)]

ghost use Rattle.std.specs.Prelude.{◌≡◌};
ghost use Rattle.kondrivai.specs.Exports.{seal_number, seal_buffer, seal_room, open_number, open_buffer, open_room, fresh_sender_number, fresh_sender_buffer, fresh_receiver_number, fresh_receiver_buffer};

use crate::answer::number_of;
use crate::receiver::{get_receiver, put_receiver};
use crate::sender::{get_sender, put_sender};
use rules::{ADDRESS_OCTETS, Refusal};

mod answer; // answer.rt: the number of an answer
mod front; // front.rt: what a buffer is
mod number; // number.rt: numbers and strings in a buffer
mod receiver; // receiver.rt: a receiver's buffer
mod sender; // sender.rt: a sender's buffer

// What is answered where a buffer is no record, or a key has not its length.
const NO_RECORD: u32 = Refusal::Record as u32;

// The calls come in twos, one for each record: kondrivai_c exports each under its own name, with its own clauses of Exports, and
// include/kondrivai.h and docs/ name them so.

// Makes a sender that has sealed nothing.
pub fn kondrivai_fresh_sender(
    record: &mut [u8],
    key: &[u8],
    key_id: u8,
    address: &[u8; ADDRESS_OCTETS],
) -> u32
    ensures value { result ≡ fresh_sender_number «record».old key.now key_id }
    ensures record_after { «record».new ≡ fresh_sender_buffer «record».old key.now key_id address.now }
{
    let Some(record) = record.as_mut_array() else {
        return NO_RECORD;
    };
    let Some(key) = key.as_array() else {
        return NO_RECORD;
    };
    let made = ccmp::fresh_sender(*key, key_id, *address);
    if made.answer.is_ok() {
        put_sender(made.sender, record);
    }
    number_of(made.answer)
}

// Makes a receiver that has opened nothing, with windows of this size.
pub fn kondrivai_fresh_receiver(
    record: &mut [u8],
    key: &[u8],
    key_id: u8,
    peer: &[u8; ADDRESS_OCTETS],
    size: u8,
) -> u32
    ensures value { result ≡ fresh_receiver_number «record».old key.now key_id size }
    ensures record_after { «record».new ≡ fresh_receiver_buffer «record».old key.now key_id peer.now size }
{
    let Some(record) = record.as_mut_array() else {
        return NO_RECORD;
    };
    let Some(key) = key.as_array() else {
        return NO_RECORD;
    };
    let made = ccmp::fresh_receiver(*key, key_id, *peer, size);
    if made.answer.is_ok() {
        put_receiver(made.receiver, record);
    }
    number_of(made.answer)
}

// Seals a plain frame into the front of out, by the sender in record.
pub fn kondrivai_seal(record: &mut [u8], frame: &[u8], out: &mut [u8]) -> u32
    ensures value { result ≡ seal_number «record».old frame.now out.old }
    ensures record_after { «record».new ≡ seal_buffer «record».old frame.now out.old }
    ensures out_after { out.new ≡ seal_room «record».old frame.now out.old }
{
    let Some(record) = record.as_mut_array() else {
        return NO_RECORD;
    };
    let Some(sender) = get_sender(record) else {
        return NO_RECORD;
    };
    let sealed = ccmp::seal(sender, frame, out);
    put_sender(sealed.sender, record);
    number_of(sealed.answer)
}

// Opens a sealed frame into the front of out, by the receiver in record.
pub fn kondrivai_open(record: &mut [u8], frame: &[u8], out: &mut [u8]) -> u32
    ensures value { result ≡ open_number «record».old frame.now out.old }
    ensures record_after { «record».new ≡ open_buffer «record».old frame.now out.old }
    ensures out_after { out.new ≡ open_room «record».old frame.now out.old }
{
    let Some(record) = record.as_mut_array() else {
        return NO_RECORD;
    };
    let Some(receiver) = get_receiver(record) else {
        return NO_RECORD;
    };
    let opened = ccmp::open(receiver, frame, out);
    put_receiver(opened.receiver, record);
    number_of(opened.answer)
}
