// Opening.
ghost use Rattle.std.specs.Prelude.{◌≡◌, ◌-◌, true, not, ◌++◌, length, drop, if◌then◌else◌, IfOk};
ghost use Rattle.octets.specs.Options.{is_none};
ghost use Rattle.rules.specs.Header.{header_of};
ghost use Rattle.rules.specs.Nonce.{number};
ghost use Rattle.rules.specs.Mode.{added};
ghost use Rattle.rules.specs.Records.{sound_receiver};
ghost use Rattle.rules.specs.Answers.{told};
ghost use Rattle.rules.specs.Refusals.{answer_of};
ghost use Rattle.rules.specs.Tests.{header_tests, body_of};
ghost use Rattle.rules.specs.Opening.{opened_frame, earlier_tests, open_answer, open_next, open_output, Openable};
ghost use Rattle.ccmp.specs.Verdict.{Pass, verdict, found};

use crate::Opened;
use crate::frame::Frame;
use crate::mode::{ADDED, put_body};
use crate::number::CCMP_HEADER;
use crate::record::{after_opening, sound_receiver};
use crate::sealing::{LEAST_BODY, MOST_BODY};
use crate::verdict::outside;
use crate::window::{takes, window_of};
use rules::{Receiver, Refusal, Success};

// Tests 5 to 10, after those of the record and of the header.
fn later_tests(r: Receiver, frame: Frame<'_>, room: usize) -> Result<(), Refusal>
    requires { (sound_receiver r ≡ true)
        × (Pass frame.header ≡ verdict (header_tests 0 frame.octets.now) (header_of frame.octets.now)) }
    ensures { found (λ _. frame.entry.header) result
        ≡ verdict (earlier_tests r frame.entry.octets.now room) (header_of frame.entry.octets.now) }
{
    let h = frame.header.length;
    let octets = frame.octets;
    if outside(LEAST_BODY + ADDED, MOST_BODY + ADDED, octets.len() - h) {
        return Err(Refusal::Body);
    }
    if room < octets.len() - ADDED {
        return Err(Refusal::Room);
    }
    if !octets::equal(&octets[10..16], &r.peer) {
        return Err(Refusal::Address);
    }
    let octet = octets[h + 3];
    if octet & 0x20 == 0 {
        return Err(Refusal::ExtIv);
    }
    if octet >> 6 != r.key_id {
        return Err(Refusal::KeyId);
    }
    if !takes(window_of(r, frame.header.priority), frame.number()) {
        return Err(Refusal::Replay);
    }
    Ok(())
}

// The tests of opening before the last.
fn open_tests(r: Receiver, frame: &[u8], room: usize) -> Result<Frame<'_>, Refusal>
    ensures found { found (λ x. x.header) result ≡ verdict (earlier_tests r frame.now room) (header_of frame.now) }
    ensures lent { IfOk result (λ x. x.octets.now ≡ frame.now) }
{
    if !sound_receiver(r) {
        return Err(Refusal::Record);
    }
    let frame = Frame::tested(frame, 0)?;
    later_tests(r, frame, room)?;
    Ok(frame)
}

// The opened frame into the front of out, where the code is right: the body, and then the header with Protected cleared.
fn put_opened(r: Receiver, n: u64, frame: Frame<'_>, out: &mut [u8]) -> bool
    requires { (n ≡ number frame.octets.now) × Openable r frame.octets.now (length out.old) }
    ensures value { result ≡ not (is_none (body_of r.key frame.entry.octets.now)) }
    ensures out_after { out.new
        ≡ (if result then opened_frame r frame.entry.octets.now ++ drop (length frame.entry.octets.now - added) out.old else out.old) }
{
    let nonce = frame.nonce(n);
    let data = frame.authenticated_data();
    let h = frame.header.length;
    let text = h + CCMP_HEADER;
    let octets = frame.octets;
    if !put_body(
        r.key,
        nonce,
        &data[..frame.header.data],
        &octets[text..],
        &mut out[h..],
    ) {
        return false;
    }
    frame.put_header(octets[1] & 0xbf, out);
    true
}

fn open_frame(r: Receiver, frame: &[u8], out: &mut [u8]) -> Result<Success, Refusal>
    ensures value { answer_of result ≡ open_answer r frame.now out.old }
    ensures out_after { out.new ≡ open_output r frame.now out.old }
{
    let frame = open_tests(r, frame, out.len())?;
    let number = frame.number();
    if !put_opened(r, number, frame, out) {
        return Err(Refusal::Integrity);
    }
    Ok(Success {
        number,
        priority: frame.header.priority,
        octets: frame.octets.len() - ADDED,
    })
}

// Opens a sealed frame into the front of out; the rest of out is kept. A refusal writes nothing and moves no replay
// window, and nothing is written before the integrity code is found right.
pub fn open(r: Receiver, frame: &[u8], out: &mut [u8]) -> Opened
    ensures answer_value { told (answer_of result.answer) ≡ told (open_answer r frame.now out.old) }
    ensures receiver_value { result.receiver ≡ open_next r frame.now out.old }
    ensures out_after { out.new ≡ open_output r frame.now out.old }
{
    let answer = open_frame(r, frame, out);
    let receiver = after_opening(r, answer);
    Opened { answer, receiver }
}
