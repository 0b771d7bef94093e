// The two records: soundness, fresh records, and the records that answers leave.
ghost use Rattle.std.specs.Prelude.{◌≡◌, ◌+◌, ◌<◌, true, IfOk};
ghost use Rattle.rules.specs.Limits.{priorities};
ghost use Rattle.rules.specs.Windows.{takes};
ghost use Rattle.rules.specs.Answers.{Refused, told};
ghost use Rattle.rules.specs.Refusals.{answer_of};
ghost use Rattle.rules.specs.Records.{window_of, sound_sender, receiver_fits, sound_receiver, new_sender, new_receiver, fresh_answer, fresh_sender, receiver_answer, fresh_receiver, sender_next, count_of, counted, counts_next, receiver_next};

use crate::window::{LARGE_WINDOW, SMALL_WINDOW, next_window, sound_windows, window_of};
use crate::{Opened, Sealed};
use rules::{ADDRESS_OCTETS, Counts, KEY_OCTETS, PRIORITIES, Receiver, Refusal, Sender, Success};

pub const MOST_NUMBER: u64 = 281474976710655;

pub const MOST_KEY_ID: u8 = 3;

// The counts, each by its number in the rules: `count_of` and `counted` are public and promise of every number, which an enum would
// exclude.
const NO_COUNT: u8 = 0;

pub const FORMAT_COUNT: u8 = 1;

const REPLAY_COUNT: u8 = 2;

const DECRYPT_COUNT: u8 = 3;

const OPENED_COUNT: u8 = 4;

#[tactic(auto, unfolding(rules::specs::Records::sound_sender))]
pub fn sound_sender(s: Sender) -> bool
    ensures { result ≡ sound_sender s }
{
    s.key_id <= MOST_KEY_ID && s.last <= MOST_NUMBER
}

// Whether a receiver may have this key ID and this size of its windows.
pub fn receiver_fits(key_id: u8, size: u8) -> bool
    ensures { result ≡ receiver_fits key_id size }
{
    key_id <= MOST_KEY_ID && (size == SMALL_WINDOW || size == LARGE_WINDOW)
}

#[tactic(auto, unfolding(rules::specs::Records::sound_receiver))]
pub fn sound_receiver(r: Receiver) -> bool
    ensures { result ≡ sound_receiver r }
{
    receiver_fits(r.key_id, r.size) && sound_windows(r)
}

// A sender of these fields that has sealed nothing, whatever its key ID is.
pub fn new_sender(key: [u8; KEY_OCTETS], key_id: u8, address: [u8; ADDRESS_OCTETS]) -> Sender
    ensures { result ≡ new_sender key key_id address }
{
    Sender {
        key,
        key_id,
        address,
        last: 0,
    }
}

// A receiver of these fields that has opened nothing, whatever its key ID and its size are.
pub fn new_receiver(
    key: [u8; KEY_OCTETS],
    key_id: u8,
    peer: [u8; ADDRESS_OCTETS],
    size: u8,
) -> Receiver
    ensures { result ≡ new_receiver key key_id peer size }
{
    Receiver {
        key,
        key_id,
        peer,
        size,
        replay: [0; PRIORITIES],
        seen: [0; PRIORITIES],
        counts: Counts {
            format_errors: 0,
            replays: 0,
            decrypt_errors: 0,
            opened: 0,
        },
    }
}

// A sender that has sealed nothing. A key ID over 3 is refused with 1 and gives zeros.
pub fn fresh_sender(key: [u8; KEY_OCTETS], key_id: u8, address: [u8; ADDRESS_OCTETS]) -> Sealed
    ensures answer_value { told (answer_of result.answer) ≡ told (fresh_answer key_id) }
    ensures sender_value { result.sender ≡ fresh_sender key key_id address }
{
    if MOST_KEY_ID < key_id {
        let sender = new_sender([0; KEY_OCTETS], 0, [0; ADDRESS_OCTETS]);
        return Sealed {
            answer: Err(Refusal::Record),
            sender,
        };
    }
    let sender = new_sender(key, key_id, address);
    Sealed {
        answer: Ok(Success::NO_FRAME),
        sender,
    }
}

// A receiver that has opened nothing, with windows of this size. A key ID over 3, or a size other than 1 or 16, is refused
// with 1 and gives zeros, which are no sound receiver.
pub fn fresh_receiver(
    key: [u8; KEY_OCTETS],
    key_id: u8,
    peer: [u8; ADDRESS_OCTETS],
    size: u8,
) -> Opened
    ensures answer_value { told (answer_of result.answer) ≡ told (receiver_answer key_id size) }
    ensures receiver_value { result.receiver ≡ fresh_receiver key key_id peer size }
{
    if !receiver_fits(key_id, size) {
        let receiver = new_receiver([0; KEY_OCTETS], 0, [0; ADDRESS_OCTETS], 0);
        return Opened {
            answer: Err(Refusal::Record),
            receiver,
        };
    }
    let receiver = new_receiver(key, key_id, peer, size);
    Opened {
        answer: Ok(Success::NO_FRAME),
        receiver,
    }
}

// The count c, of value v, where the count m moves.
pub fn counted(c: u8, m: u8, v: u32) -> u32
    ensures { result ≡ counted c m v }
{
    if m == c {
        return v.wrapping_add(1);
    }
    v
}

// The counts where the count m moves.
fn counts_after(m: u8, c: Counts) -> Counts
    ensures { result ≡ counts_next m c }
{
    Counts {
        format_errors: counted(FORMAT_COUNT, m, c.format_errors),
        replays: counted(REPLAY_COUNT, m, c.replays),
        decrypt_errors: counted(DECRYPT_COUNT, m, c.decrypt_errors),
        opened: counted(OPENED_COUNT, m, c.opened),
    }
}

// Which count a refusal moves.
pub fn count_of(refusal: u8) -> u8
    ensures { result ≡ count_of (Refused refusal) }
{
    match refusal {
        2 | 3 | 4 | 5 | 7 | 8 | 9 => FORMAT_COUNT,
        10 => REPLAY_COUNT,
        11 => DECRYPT_COUNT,
        _ => NO_COUNT,
    }
}

// The receiver after an opening call that was answered so: done moves the window of the frame's priority.
pub(crate) fn after_opening(r: Receiver, answer: Result<Success, Refusal>) -> Receiver
    requires { IfOk answer (λ x. (x.priority < priorities) × (sound_receiver r ≡ true)
        × (takes (window_of r x.priority) x.number ≡ true)) }
    ensures { result ≡ receiver_next r (answer_of answer) }
{
    match answer {
        Ok(x) => {
            let at = usize::from(x.priority);
            let w = next_window(window_of(r, x.priority), x.number);
            let counts = counts_after(OPENED_COUNT, r.counts);
            let mut s = Receiver { counts, ..r };
            s.replay[at] = w.greatest;
            s.seen[at] = w.seen;
            s
        }
        Err(refusal) => {
            let counts = counts_after(count_of(refusal.number()), r.counts);
            Receiver { counts, ..r }
        }
    }
}

// The sender after a sealing call that was answered so: the number of a frame that was sealed is its last.
pub(crate) fn after_sealing(s: Sender, answer: Result<Success, Refusal>) -> Sender
    requires { IfOk answer (λ x. x.number ≡ s.last + 1) }
    ensures { result ≡ sender_next s (answer_of answer) }
{
    match answer {
        Ok(x) => Sender {
            last: x.number,
            ..s
        },
        Err(_) => s,
    }
}
