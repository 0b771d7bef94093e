// The records and answers of documents 01 and 02 as types. Their rules, and what follows from them over whole lists of calls, are
// in specs/ and proofs/.
#![tactic(auto)]

mod answer; // answer.rt: what a call answers

pub use answer::{Refusal, Success};

// The octets of a temporal key and of an address, and how many priorities there are.
pub const KEY_OCTETS: usize = 16;

pub const ADDRESS_OCTETS: usize = 6;

pub const PRIORITIES: usize = 16;

// How many entries a table has.
pub const ENTRIES: usize = 16;

// The octets of a message at most.
pub const MOST_MESSAGE: usize = 2304;

// What a sealing call takes and hands back.
#[derive(Clone, Copy)]
pub struct Sender {
    pub key: [u8; KEY_OCTETS],
    pub key_id: u8,
    pub address: [u8; ADDRESS_OCTETS],
    // The last packet number used, 0 where there is none. No Option, since the next is one more, also than 0.
    pub last: u64,
}

// What an opening call takes and hands back.
#[derive(Clone, Copy)]
pub struct Receiver {
    pub key: [u8; KEY_OCTETS],
    pub key_id: u8,
    pub peer: [u8; ADDRESS_OCTETS],
    // The size of its windows, 1 or 16. A number and no enum: a record of another size is refused, and `RefusedUnsound` of `SizeOne` speaks
    // of it.
    pub size: u8,
    // The replay counter of each priority: the greatest number opened. It and `seen` are two arrays and not one of windows, since theorems
    // (`SizeOne.OldRule`, `windows_kept` of `Demand1`), the layout of a buffer and the export bench_ccmp_open speak of each by itself.
    pub replay: [u64; PRIORITIES],
    // Which of the 16 numbers up to it were opened: bit i is of the number i below the greatest.
    pub seen: [u16; PRIORITIES],
    pub counts: Counts,
}

// What a receiver has for one priority.
#[derive(Clone, Copy, PartialEq, Eq, Debug)]
pub struct Window {
    pub size: u8,
    pub greatest: u64,
    pub seen: u16,
}

// How many opening calls were answered so, modulo 2^32.
#[derive(Clone, Copy, PartialEq, Eq, Debug)]
pub struct Counts {
    pub format_errors: u32,
    pub replays: u32,
    pub decrypt_errors: u32,
    pub opened: u32,
}

// What each call on a table takes and hands back.
#[derive(Clone, Copy)]
pub struct Table {
    pub entries: [Entry; ENTRIES],
    // How many opening calls were refused for their format before an entry was looked for, modulo 2^32.
    pub format_errors: u32,
}

// A sender and a receiver in one, with one key and one key ID. What it holds while it is not in use plays no part: a flag and no Option,
// since table_limits tries free entries that hold something, and `Tables` speaks of them.
#[derive(Clone, Copy)]
pub struct Entry {
    pub used: bool,
    pub may_send: bool,
    pub may_receive: bool,
    // The sender's address and its last packet number.
    pub own: [u8; ADDRESS_OCTETS],
    pub last: u64,
    pub receiver: Receiver,
}

// By what an entry is found.
#[derive(Clone, Copy, PartialEq, Eq, Debug)]
pub struct Triple {
    pub own: [u8; ADDRESS_OCTETS],
    pub peer: [u8; ADDRESS_OCTETS],
    pub key_id: u8,
}

// What is added to a table.
#[derive(Clone, Copy)]
pub struct Pairing {
    pub triple: Triple,
    pub key: [u8; KEY_OCTETS],
    // The size of its windows.
    pub size: u8,
    pub may_send: bool,
    pub may_receive: bool,
}

// What a joining call takes and hands back, all zeros where no message is held.
#[derive(Clone, Copy, PartialEq, Eq)]
pub struct Joiner {
    // The message so far, in the first `length` octets: no heap here, and joining answers 1 where `length` is over the most
    // (`sound_joiner`).
    pub held: [u8; MOST_MESSAGE],
    pub length: usize,
    // The fragment that came last.
    pub last: Fragment,
}

// By what a fragment is told from others.
#[derive(Clone, Copy, PartialEq, Eq, Debug)]
pub struct Fragment {
    // A2.
    pub address: [u8; ADDRESS_OCTETS],
    pub priority: u8,
    // The sequence number and the fragment number.
    pub sequence: u16,
    pub fragment: u8,
    // The packet number.
    pub number: u64,
}

// What a frame says of its own header.
#[derive(Clone, Copy, PartialEq, Eq, Debug)]
pub struct Header {
    // H.
    pub length: usize,
    // The place of QoS Control, or of what stands there instead.
    pub qos: usize,
    pub priority: u8,
    // The octets of the authenticated data.
    pub data: usize,
}
