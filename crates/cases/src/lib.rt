// What the programs of the limit cases share: a key and an address, records and frames to begin with, and how a line tells what came of
// a case.
#![tactic(auto)]

ghost use Rattle.std.specs.Prelude.{◌≡◌, ◌==◌, ◌<◌, ◌≤◌, length, take, ◌↔◌, IsTrue, MatchResult, Some, replicate, slice_set};
ghost use Rattle.std.specs.List.{list_all};
ghost use Rattle.rules.specs.Limits.{priorities};
ghost use Rattle.rules.specs.Records.{new_sender, with_last};
ghost use Rattle.cases.specs.Records.{case_key, case_address, with_window, with_counter};
ghost use Rattle.cases.specs.Texts.{answer_text, outcome_text, counts_text, kept, rest_text};

use rules::{Counts, Receiver, Refusal, Sender, Success};
use std::fmt;

pub const KEY: [u8; 16] = [0, 1, 2, 3, 4, 5, 6, 7, 8, 9, 10, 11, 12, 13, 14, 15];

pub const ADDRESS: [u8; 6] = [2, 0, 0, 0, 0, 1];

// The greatest counts, after which each goes back to 0.
pub const GREATEST_COUNTS: Counts = Counts {
    format_errors: u32::MAX,
    replays: u32::MAX,
    decrypt_errors: u32::MAX,
    opened: u32::MAX,
};

// What a call answered that seals, opens, splits or joins.
#[derive(Clone, Copy)]
pub struct Answer(pub Result<Success, Refusal>);

impl Answer {
    // The octets that it says were written.
    pub fn written(self) -> usize
        ensures { MatchResult self.0 (λ done. result ≡ done.octets) (λ _. result ≡ 0) }
    {
        self.0.map_or(0, |done| done.octets)
    }
}

impl fmt::Display for Answer {
    ghost output = { λ a. Some (answer_text a.0) };

    fn fmt<W: fmt::Write>(&self, f: &mut fmt::Formatter<W>) -> fmt::Result {
        match self.0 {
            Ok(done) => write!(f, "done {} {} {}", done.number, done.priority, done.octets),
            Err(refusal) => write!(f, "refused {}", refusal.number()),
        }
    }
}

// What another call answered, to which documents 01 and 02 give no number, no priority and no octets.
#[derive(Clone, Copy)]
pub struct Outcome(pub Result<Success, Refusal>);

impl fmt::Display for Outcome {
    ghost output = { λ o. Some (outcome_text o.0) };

    fn fmt<W: fmt::Write>(&self, f: &mut fmt::Formatter<W>) -> fmt::Result {
        match self.0 {
            Ok(_) => write!(f, "done"),
            Err(refusal) => write!(f, "refused {}", refusal.number()),
        }
    }
}

// The counts of a receiver: format errors, replays, decrypt errors and opened.
#[derive(Clone, Copy)]
pub struct Counted(pub Counts);

impl fmt::Display for Counted {
    ghost output = { λ c. Some (counts_text c.0) };

    fn fmt<W: fmt::Write>(&self, f: &mut fmt::Formatter<W>) -> fmt::Result {
        let Counts {
            format_errors,
            replays,
            decrypt_errors,
            opened,
        } = self.0;
        write!(
            f,
            "counts {format_errors} {replays} {decrypt_errors} {opened}"
        )
    }
}

// It looks at every octet and stops at none, so that the compiler takes many at a time.
fn all_aa(s: &[u8]) -> bool
    ensures { result ≡ list_all (λ x. x == 170) s.now }
{
    s.iter().fold(true, |all, x| all & (*x == 0xaa))
}

// Whether the output, which was aa throughout, is as it was from octet k on.
fn kept(out: &[u8], k: usize) -> bool
    ensures { result ≡ kept out.now k }
{
    k <= out.len() && all_aa(&out[k..])
}

// The same, in the words of a line.
pub fn rest(out: &[u8], k: usize) -> &'static str
    ensures { result.now ≡ rest_text out.now k }
{
    if kept(out, k) {
        "rest kept"
    } else {
        "rest CHANGED"
    }
}

// The front of a frame, n octets. It is a function, since no proof is found that a slice at a number, as `&frame[..25]`, is inside an array
// of thousands.
pub fn front<const N: usize>(frame: &[u8; N], n: usize) -> &[u8]
    requires { n ≤ N }
    ensures octets { result.now ≡ take n frame.now }
    ensures count { length result.now ≡ n }
{
    &frame[..n]
}

// The frame with octet i changed to x.
pub fn with<const N: usize>(frame: [u8; N], i: usize, x: u8) -> [u8; N]
    requires { i < N }
    ensures { result ≡ slice_set frame.entry i x }
{
    let mut changed = frame;
    changed[i] = x;
    changed
}

// A sender with key ID 2 and this last number.
pub fn sender(last: u64) -> Sender
    ensures { result ≡ with_last (new_sender case_key 2 case_address) last }
{
    Sender {
        last,
        ..ccmp::new_sender(KEY, 2, ADDRESS)
    }
}

// The receiver with this window in priority p.
pub fn with_window(r: Receiver, p: usize, greatest: u64, seen: u16) -> Receiver
    requires { p < priorities }
    ensures { result ≡ with_window r p greatest seen }
{
    let mut changed = r;
    changed.replay[p] = greatest;
    changed.seen[p] = seen;
    changed
}

// The receiver with n as the replay counter of priority p, whose window holds no other number.
pub fn with_counter(r: Receiver, p: usize, n: u64) -> Receiver
    requires { p < priorities }
    ensures { result ≡ with_counter r p n }
{
    with_window(r, p, n, u16::from(n != 0))
}

// Whether key, key ID, peer and windows are zeros. Of the rest, size and counts, the cases differ.
pub fn all_zeros(r: Receiver) -> bool
    ensures { IsTrue result ↔ (r.key_id ≡ 0) × (r.key ≡ replicate 16 0) × (r.peer ≡ replicate 6 0)
        × (r.replay ≡ replicate 16 0) × (r.seen ≡ replicate 16 0) }
{
    r.key_id == 0
        && r.key == [0; 16]
        && r.peer == [0; 6]
        && r.replay == [0; 16]
        && r.seen == [0; 16]
}
