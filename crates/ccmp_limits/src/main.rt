// The limit cases of the frame rules: sizes, room, HT Control, numbers, replays, records, and the order of the tests.
// What this must print, the file stdout, was taken from document 01 as 02 changes it; ` | 01: ` is the answer that it gives, 0 for done.
#![tactic(auto)]

ghost use Rattle.std.specs.Prelude.{◌+◌, ◌≤◌, ◌<◌, length};
ghost use Rattle.rules.specs.Limits.{most_header, most_body, priorities};
ghost use Rattle.rules.specs.Mode.{added};
ghost use Rattle.ccmp_limits.specs.Size.{size};

use cases::{
    ADDRESS, Answer, Counted, GREATEST_COUNTS, KEY, Outcome, all_zeros, front, rest, sender, with,
    with_counter,
};
use ccmp::{ADDED, MOST_BODY, MOST_NUMBER, SMALL_WINDOW};
use rules::{Receiver, Refusal, Sender, Success};
use show::Output;
use std::{array, io};

// The octets of an array, more than a frame or its text can have. Room is passed as a number of them, which each contract bounds, since the
// call that is given the room makes the array, and tells what stands past the room too.
const SIZE: usize = MOST_BODY + 104;

// Whether what was written, k octets, is the original.
fn compared(out: &[u8], k: usize, original: &[u8]) -> &'static str {
    if k == 0 {
        return "";
    }
    match out.get(..k) {
        Some(written) if original.starts_with(written) => ", original",
        _ => ", NOT THE ORIGINAL",
    }
}

// Seals the frame with this room, and prints the rest of the line.
fn seals(rt: Output, s: Sender, frame: &[u8], room: usize, expected: u8) -> io::Result<Sender>
    requires { room ≤ size }
{
    let mut out = [0xaau8; SIZE];
    let sealed = ccmp::seal(s, frame, &mut out[..room]);
    let answer = Answer(sealed.answer);
    let last = sealed.sender.last;
    let rest = rest(&out, answer.written());
    println!(rt; "{answer}, last {last}, {rest} | 01: {expected}")?;
    Ok(sealed.sender)
}

// Seals the frame in two parts, cut at h, and prints the rest of the line.
fn seals_parts(rt: Output, s: Sender, frame: &[u8], h: usize, expected: u8) -> io::Result<()>
    requires { h ≤ length frame.now }
{
    let mut out = [0xaau8; SIZE];
    let (head, body) = frame.split_at(h);
    let sealed = ccmp::seal_parts(s, head, body, &mut out);
    let answer = Answer(sealed.answer);
    let last = sealed.sender.last;
    let rest = rest(&out, answer.written());
    let mut whole = [0xaau8; SIZE];
    ccmp::seal(s, frame, &mut whole);
    let same = if out == whole { ", as the whole" } else { "" };
    println!(rt; "{answer}, last {last}, {rest}{same} | 01: {expected}")
}

// Opens the text with this room, and prints the rest of the line.
fn opens(
    rt: Output,
    r: Receiver,
    text: &[u8],
    room: usize,
    original: &[u8],
    expected: u8,
) -> io::Result<Receiver>
    requires { room ≤ size }
{
    let mut out = [0xaau8; SIZE];
    let opened = ccmp::open(r, text, &mut out[..room]);
    let answer = Answer(opened.answer);
    let counts = Counted(opened.receiver.counts);
    let rest = rest(&out, answer.written());
    let compared = compared(&out, answer.written(), original);
    println!(rt; "{answer}, {counts}, {rest}{compared} | 01: {expected}")?;
    Ok(opened.receiver)
}

// A receiver with key ID 2 and windows of size 1, and n as the replay counter of priority p, which the contract bounds: a type for it would
// have to be made in each case.
fn receiver(p: usize, n: u64) -> Receiver
    requires { p < priorities }
{
    with_counter(ccmp::new_receiver(KEY, 2, ADDRESS, SMALL_WINDOW), p, n)
}

// A plain frame of the sender's with this Frame Control, longer than any that is sealed. Its priority is 6 where QoS
// Control stands at 24, and 9 where it stands at 30.
fn plain(low: u8, high: u8) -> [u8; SIZE] {
    let mut frame: [u8; SIZE] = array::from_fn(|i| (i % 251) as u8);
    frame[0] = low;
    frame[1] = high;
    frame[10..16].copy_from_slice(&ADDRESS);
    frame[24] = 0xf6;
    frame[30] = 0xc9;
    frame
}

// The frame sealed by a sender with this last number.
fn text_of(frame: &[u8], last: u64) -> [u8; SIZE] {
    let mut out = [0u8; SIZE];
    ccmp::seal(sender(last), frame, &mut out);
    out
}

// A body of this many octets sealed, after a header of h.
fn seal_size(rt: Output, frame: &[u8; SIZE], h: usize, body: usize, expected: u8) -> io::Result<()>
    requires { (h ≤ most_header) × (body ≤ most_body + 1) }
{
    print!(rt; "header {h}, seal body {body}: ")?;
    seals(rt, sender(0), front(frame, h + body), SIZE, expected)?;
    Ok(())
}

// A text opened that has this many octets more than its header of h.
fn open_size(
    rt: Output,
    text: &[u8; SIZE],
    h: usize,
    more: usize,
    frame: &[u8; SIZE],
    expected: u8,
) -> io::Result<()>
    requires { (h ≤ most_header) × (more ≤ most_body + added + 1) }
{
    print!(rt; "header {h}, open {more} more: ")?;
    opens(
        rt,
        receiver(0, 0),
        front(text, h + more),
        SIZE,
        frame,
        expected,
    )?;
    Ok(())
}

// The limits of the body, for one length of header.
fn sizes(rt: Output, low: u8, high: u8, h: usize) -> io::Result<()>
    requires { h ≤ most_header }
{
    let frame = plain(low, high);
    let least = text_of(front(&frame, h + 1), 0);
    let most = text_of(front(&frame, h + MOST_BODY), 0);
    seal_size(rt, &frame, h, 0, 5)?;
    seal_size(rt, &frame, h, 1, 0)?;
    seal_size(rt, &frame, h, MOST_BODY, 0)?;
    seal_size(rt, &frame, h, MOST_BODY + 1, 5)?;
    open_size(rt, &least, h, ADDED, &frame, 5)?;
    open_size(rt, &least, h, ADDED + 1, &frame, 0)?;
    open_size(rt, &most, h, MOST_BODY + ADDED, &frame, 0)?;
    open_size(rt, &most, h, MOST_BODY + ADDED + 1, &frame, 5)?;
    Ok(())
}

// The frame sealed with this room.
fn seal_in(rt: Output, frame: &[u8], room: usize, expected: u8) -> io::Result<()>
    requires { (length frame.now ≤ most_header + most_body) × (room ≤ size) }
{
    print!(rt; "seal to {} octets, room {room}: ", frame.len() + ADDED)?;
    seals(rt, sender(0), frame, room, expected)?;
    Ok(())
}

// Room for one octet too few, and for just enough.
fn rooms(rt: Output) -> io::Result<()> {
    let frame = plain(0x08, 0x00);
    let text = text_of(front(&frame, 25), 0);
    let r = receiver(0, 0);
    seal_in(rt, front(&frame, 25), 40, 6)?;
    seal_in(rt, front(&frame, 25), 41, 0)?;
    print!(rt; "open to 25 octets, room 24: ")?;
    opens(rt, r, front(&text, 41), 24, &frame, 6)?;
    print!(rt; "open to 25 octets, room 25: ")?;
    opens(rt, r, front(&text, 41), 25, &frame, 0)?;
    let longest = plain(0x88, 0x83);
    let n = 36 + MOST_BODY;
    seal_in(rt, front(&longest, n), n + ADDED - 1, 6)?;
    seal_in(rt, front(&longest, n), n + ADDED, 0)?;
    Ok(())
}

// Frames with HT Control, which is counted and not authenticated.
fn ht_control(rt: Output) -> io::Result<()> {
    let frame = plain(0x88, 0x80);
    let text = text_of(front(&frame, 31), 0);
    let s = sender(0);
    let r = receiver(0, 0);
    print!(rt; "seal 26 octets of header 30: ")?;
    seals(rt, s, front(&frame, 26), SIZE, 2)?;
    print!(rt; "seal 29 octets of header 30: ")?;
    seals(rt, s, front(&frame, 29), SIZE, 2)?;
    print!(rt; "seal 35 octets of header 36: ")?;
    seals(rt, s, front(&plain(0x88, 0x83), 35), SIZE, 2)?;
    print!(rt; "open 26 octets of header 30: ")?;
    opens(rt, r, front(&text, 26), SIZE, &frame, 2)?;
    print!(rt; "open 29 octets of header 30: ")?;
    opens(rt, r, front(&text, 29), SIZE, &frame, 2)?;
    print!(rt; "open 35 octets of header 36: ")?;
    opens(rt, r, front(&plain(0x88, 0xc3), 35), SIZE, &frame, 2)?;
    print!(rt; "open with HT Control damaged: ")?;
    opens(
        rt,
        r,
        front(&with(text, 26, 0xff), 47),
        SIZE,
        &with(frame, 26, 0xff),
        0,
    )?;
    Ok(())
}

// Order turned over on the way: with QoS Control the CCMP header is then looked for at another place.
fn orders(rt: Output) -> io::Result<()> {
    let r = receiver(0, 0);
    let cleared = with(text_of(front(&plain(0x88, 0x80), 31), 0), 1, 0x40);
    print!(rt; "open with Order cleared: ")?;
    opens(rt, r, front(&cleared, 47), SIZE, &cleared, 8)?;
    print!(rt; "open with Order cleared, HT Control with ExtIV and key ID 0: ")?;
    opens(
        rt,
        r,
        front(&with(cleared, 29, 0x20), 47),
        SIZE,
        &cleared,
        9,
    )?;
    let same = with(cleared, 29, 0xa0);
    print!(rt; "open with Order cleared, HT Control with key ID 2, counter 2^48 - 1: ")?;
    opens(
        rt,
        receiver(6, MOST_NUMBER),
        front(&same, 47),
        SIZE,
        &cleared,
        10,
    )?;
    print!(rt; "open with Order cleared, HT Control with key ID 2: ")?;
    opens(rt, r, front(&same, 47), SIZE, &cleared, 11)?;
    let frame = plain(0x88, 0x00);
    print!(rt; "open with Order set, a body of 1: ")?;
    opens(
        rt,
        r,
        front(&with(text_of(front(&frame, 27), 0), 1, 0xc0), 43),
        SIZE,
        &frame,
        5,
    )?;
    print!(rt; "open with Order set, a body of 5: ")?;
    opens(
        rt,
        r,
        front(&with(text_of(front(&frame, 31), 0), 1, 0xc0), 47),
        SIZE,
        &frame,
        8,
    )?;
    let other = plain(0x08, 0x80);
    print!(rt; "open with Order cleared, no QoS Control: ")?;
    opens(
        rt,
        r,
        front(&with(text_of(front(&other, 25), 0), 1, 0x40), 41),
        SIZE,
        &other,
        11,
    )?;
    Ok(())
}

// A frame of 32 octets of header and 17 of body, lent in two parts that are cut there and elsewhere.
fn parts(rt: Output) -> io::Result<()> {
    let frame = plain(0x88, 0x03);
    let s = sender(0);
    print!(rt; "seal 49 octets, cut after the header of 32: ")?;
    seals_parts(rt, s, front(&frame, 49), 32, 0)?;
    print!(rt; "seal 49 octets, cut at 23: ")?;
    seals_parts(rt, s, front(&frame, 49), 23, 2)?;
    print!(rt; "seal 49 octets, cut at 31: ")?;
    seals_parts(rt, s, front(&frame, 49), 31, 2)?;
    print!(rt; "seal 49 octets, cut at 33: ")?;
    seals_parts(rt, s, front(&frame, 49), 33, 2)?;
    print!(rt; "seal no data, cut at 33: ")?;
    seals_parts(rt, s, front(&with(frame, 0, 0xc8), 49), 33, 3)?;
    print!(rt; "seal a header of 32 alone: ")?;
    seals_parts(rt, s, front(&frame, 32), 32, 5)?;
    print!(rt; "seal another's frame in parts: ")?;
    seals_parts(rt, s, front(&with(frame, 15, 2), 49), 32, 7)?;
    print!(rt; "not sound, cut at 23: ")?;
    seals_parts(rt, sender(MOST_NUMBER + 1), front(&frame, 49), 23, 1)?;
    Ok(())
}

// The last packet number of all.
fn last_number(rt: Output) -> io::Result<()> {
    let frame = plain(0x08, 0x00);
    print!(rt; "seal after 2^48 - 2: ")?;
    let spent = seals(rt, sender(MOST_NUMBER - 1), front(&frame, 25), SIZE, 0)?;
    print!(rt; "seal once more: ")?;
    seals(rt, spent, front(&frame, 25), SIZE, 12)?;
    let text = text_of(front(&frame, 25), MOST_NUMBER - 1);
    print!(rt; "open number 2^48 - 1: ")?;
    let r = opens(rt, receiver(0, 0), front(&text, 41), SIZE, &frame, 0)?;
    print!(rt; "open it again: ")?;
    opens(rt, r, front(&text, 41), SIZE, &frame, 10)?;
    Ok(())
}

fn replays(rt: Output) -> io::Result<()> {
    let frame = plain(0x88, 0x00);
    let other = plain(0x08, 0x00);
    let r = receiver(6, 7);
    print!(rt; "counter 7, open number 7: ")?;
    opens(
        rt,
        r,
        front(&text_of(front(&frame, 27), 6), 43),
        SIZE,
        &frame,
        10,
    )?;
    print!(rt; "counter 7, open number 8: ")?;
    opens(
        rt,
        r,
        front(&text_of(front(&frame, 27), 7), 43),
        SIZE,
        &frame,
        0,
    )?;
    print!(rt; "counter 7 of another priority, open number 1: ")?;
    opens(
        rt,
        r,
        front(&text_of(front(&other, 25), 0), 41),
        SIZE,
        &other,
        0,
    )?;
    let zero = with(text_of(front(&frame, 27), 0), 26, 0);
    print!(rt; "counter 7, open number 0: ")?;
    opens(rt, r, front(&zero, 43), SIZE, &frame, 10)?;
    print!(rt; "counter 0, open number 0: ")?;
    opens(rt, receiver(0, 0), front(&zero, 43), SIZE, &frame, 10)?;
    Ok(())
}

// Each answer of sealing. One sender goes from call to call.
fn seal_answers(rt: Output) -> io::Result<()> {
    let frame = plain(0x08, 0x00);
    let s = ccmp::fresh_sender(KEY, 2, ADDRESS).sender;
    print!(rt; "seal 23 octets: ")?;
    let s = seals(rt, s, front(&frame, 23), SIZE, 2)?;
    print!(rt; "seal version 1: ")?;
    let s = seals(rt, s, front(&plain(0x09, 0x00), 25), SIZE, 3)?;
    print!(rt; "seal type 0: ")?;
    let s = seals(rt, s, front(&plain(0xb0, 0x00), 25), SIZE, 3)?;
    print!(rt; "seal a frame with no data: ")?;
    let s = seals(rt, s, front(&plain(0x48, 0x00), 25), SIZE, 3)?;
    print!(rt; "seal a protected frame: ")?;
    let s = seals(rt, s, front(&plain(0x08, 0x40), 25), SIZE, 4)?;
    print!(rt; "seal 31 octets of header 32: ")?;
    let s = seals(rt, s, front(&plain(0x88, 0x03), 31), SIZE, 2)?;
    print!(rt; "seal no body: ")?;
    let s = seals(rt, s, front(&frame, 24), SIZE, 5)?;
    print!(rt; "seal with no room: ")?;
    let s = seals(rt, s, front(&frame, 25), 0, 6)?;
    print!(rt; "seal another's frame: ")?;
    let s = seals(rt, s, front(&with(frame, 15, 9), 25), SIZE, 7)?;
    seal_answers_later(rt, s, &frame)?;
    Ok(())
}

fn seal_answers_later(rt: Output, s: Sender, frame: &[u8; SIZE]) -> io::Result<()> {
    print!(rt; "seal: ")?;
    let mut s = seals(rt, s, front(frame, 25), SIZE, 0)?;
    print!(rt; "seal again: ")?;
    s = seals(rt, s, front(frame, 25), SIZE, 0)?;
    s.last = MOST_NUMBER;
    print!(rt; "seal, spent: ")?;
    s = seals(rt, s, front(frame, 25), SIZE, 12)?;
    s.key_id = 4;
    print!(rt; "seal, not sound: ")?;
    seals(rt, s, front(frame, 25), SIZE, 1)?;
    Ok(())
}

// Each answer of opening. One receiver goes from call to call.
fn open_answers(rt: Output) -> io::Result<()> {
    let frame = plain(0x08, 0x00);
    let text = text_of(front(&frame, 25), 0);
    let r = ccmp::fresh_receiver(KEY, 2, ADDRESS, SMALL_WINDOW).receiver;
    print!(rt; "open 23 octets: ")?;
    let r = opens(rt, r, front(&text, 23), SIZE, &frame, 2)?;
    print!(rt; "open version 1: ")?;
    let r = opens(rt, r, front(&with(text, 0, 0x09), 41), SIZE, &frame, 3)?;
    print!(rt; "open type 0: ")?;
    let r = opens(rt, r, front(&with(text, 0, 0xb0), 41), SIZE, &frame, 3)?;
    print!(rt; "open a frame with no data: ")?;
    let r = opens(rt, r, front(&with(text, 0, 0x48), 41), SIZE, &frame, 3)?;
    print!(rt; "open a plain frame: ")?;
    let r = opens(rt, r, front(&with(text, 1, 0), 41), SIZE, &frame, 4)?;
    print!(rt; "open 31 octets of header 32: ")?;
    let r = opens(rt, r, front(&plain(0x88, 0x43), 31), SIZE, &frame, 2)?;
    print!(rt; "open with a body of 0: ")?;
    let r = opens(rt, r, front(&text, 40), SIZE, &frame, 5)?;
    print!(rt; "open with no room: ")?;
    let r = opens(rt, r, front(&text, 41), 0, &frame, 6)?;
    print!(rt; "open another's frame: ")?;
    let r = opens(rt, r, front(&with(text, 15, 9), 41), SIZE, &frame, 7)?;
    open_answers_later(rt, r, &frame, &text)?;
    Ok(())
}

fn open_answers_later(
    rt: Output,
    r: Receiver,
    frame: &[u8; SIZE],
    text: &[u8; SIZE],
) -> io::Result<()> {
    print!(rt; "open with ExtIV 0: ")?;
    let r = opens(rt, r, front(&with(*text, 27, 0x80), 41), SIZE, frame, 8)?;
    print!(rt; "open with key ID 1: ")?;
    let r = opens(rt, r, front(&with(*text, 27, 0x60), 41), SIZE, frame, 9)?;
    print!(rt; "open number 0: ")?;
    let r = opens(rt, r, front(&with(*text, 24, 0), 41), SIZE, frame, 10)?;
    print!(rt; "open under another number: ")?;
    let r = opens(rt, r, front(&with(*text, 24, 2), 41), SIZE, frame, 11)?;
    print!(rt; "open with A1 damaged: ")?;
    let r = opens(rt, r, front(&with(*text, 4, 0xff), 41), SIZE, frame, 11)?;
    print!(rt; "open with the text damaged: ")?;
    let r = opens(
        rt,
        r,
        front(&with(*text, 32, text[32] ^ 1), 41),
        SIZE,
        frame,
        11,
    )?;
    print!(rt; "open with the code damaged: ")?;
    let r = opens(
        rt,
        r,
        front(&with(*text, 40, text[40] ^ 1), 41),
        SIZE,
        frame,
        11,
    )?;
    print!(rt; "open: ")?;
    let r = opens(rt, r, front(text, 41), SIZE, frame, 0)?;
    print!(rt; "open it again: ")?;
    let mut r = opens(rt, r, front(text, 41), SIZE, frame, 10)?;
    r.key_id = 4;
    print!(rt; "open, not sound: ")?;
    opens(rt, r, front(text, 41), SIZE, frame, 1)?;
    Ok(())
}

// Records at the limits of soundness and past them.
fn senders(rt: Output) -> io::Result<()> {
    let frame = plain(0x08, 0x00);
    let mut s = sender(0);
    s.key_id = 3;
    print!(rt; "seal, key ID 3: ")?;
    seals(rt, s, front(&frame, 25), SIZE, 0)?;
    s.key_id = 4;
    print!(rt; "seal, key ID 4: ")?;
    seals(rt, s, front(&frame, 25), SIZE, 1)?;
    print!(rt; "seal, last number 2^48: ")?;
    seals(rt, sender(MOST_NUMBER + 1), front(&frame, 25), SIZE, 1)?;
    Ok(())
}

fn receivers(rt: Output) -> io::Result<()> {
    let frame = plain(0x08, 0x00);
    let text = text_of(front(&frame, 25), 0);
    let mut r = receiver(0, 0);
    r.key_id = 4;
    print!(rt; "open, key ID 4: ")?;
    opens(rt, r, front(&text, 41), SIZE, &frame, 1)?;
    print!(rt; "open, a replay counter of 2^48 - 1: ")?;
    opens(
        rt,
        receiver(15, MOST_NUMBER),
        front(&text, 41),
        SIZE,
        &frame,
        0,
    )?;
    print!(rt; "open, a replay counter of 2^48: ")?;
    opens(
        rt,
        receiver(15, MOST_NUMBER + 1),
        front(&text, 41),
        SIZE,
        &frame,
        1,
    )?;
    Ok(())
}

fn zero_sender(s: Sender) -> bool {
    s.key_id == 0 && s.last == 0 && s.key == [0; 16] && s.address == [0; 6]
}

fn zero_receiver(r: Receiver) -> bool {
    r.size == 0 && all_zeros(r)
}

fn print_fresh(
    rt: Output,
    record: &str,
    asked: u8,
    answer: Result<Success, Refusal>,
    zeros: bool,
    key_id: u8,
) -> io::Result<()> {
    print!(rt; "{record}, key ID {asked}: {}", Outcome(answer))?;
    if zeros {
        return print!(rt; ", all zeros");
    }
    print!(rt; ", key ID {key_id}")
}

fn fresh_sender(rt: Output, key_id: u8, expected: u8) -> io::Result<()> {
    let fresh = ccmp::fresh_sender(KEY, key_id, ADDRESS);
    let s = fresh.sender;
    print_fresh(
        rt,
        "fresh sender",
        key_id,
        fresh.answer,
        zero_sender(s),
        s.key_id,
    )?;
    println!(rt; ", last {} | 01: {expected}", s.last)
}

fn fresh_receiver(rt: Output, key_id: u8, expected: u8) -> io::Result<()> {
    let fresh = ccmp::fresh_receiver(KEY, key_id, ADDRESS, SMALL_WINDOW);
    let r = fresh.receiver;
    print_fresh(
        rt,
        "fresh receiver",
        key_id,
        fresh.answer,
        zero_receiver(r),
        r.key_id,
    )?;
    let counts = Counted(r.counts);
    println!(rt; ", {counts} | 01: {expected}")
}

// Where two tests apply, the first decides.
fn seal_order(rt: Output) -> io::Result<()> {
    let frame = plain(0x08, 0x00);
    let s = sender(0);
    let mut unsound = s;
    unsound.key_id = 4;
    print!(rt; "seal, not sound, 23 octets: ")?;
    seals(rt, unsound, front(&frame, 23), SIZE, 1)?;
    print!(rt; "seal, 23 octets, no data: ")?;
    seals(rt, s, front(&plain(0x48, 0x00), 23), SIZE, 2)?;
    print!(rt; "seal, no data, protected: ")?;
    seals(rt, s, front(&plain(0x48, 0x40), 25), SIZE, 3)?;
    print!(rt; "seal, protected, 31 octets of header 32: ")?;
    seals(rt, s, front(&plain(0x88, 0x43), 31), SIZE, 4)?;
    print!(rt; "seal, 31 octets of header 32, no room: ")?;
    seals(rt, s, front(&plain(0x88, 0x03), 31), 0, 2)?;
    print!(rt; "seal, no body, no room: ")?;
    seals(rt, s, front(&frame, 24), 0, 5)?;
    print!(rt; "seal, room 40, another's frame: ")?;
    seals(rt, s, front(&with(frame, 15, 9), 25), 40, 6)?;
    print!(rt; "seal, another's frame, spent: ")?;
    seals(
        rt,
        sender(MOST_NUMBER),
        front(&with(frame, 15, 9), 25),
        41,
        7,
    )?;
    Ok(())
}

fn open_order(rt: Output) -> io::Result<()> {
    let frame = plain(0x08, 0x00);
    let r = receiver(0, 0);
    let mut unsound = r;
    unsound.key_id = 4;
    print!(rt; "open, not sound, 23 octets: ")?;
    opens(rt, unsound, front(&frame, 23), SIZE, &frame, 1)?;
    print!(rt; "open, 23 octets, no data: ")?;
    opens(rt, r, front(&plain(0x48, 0x40), 23), SIZE, &frame, 2)?;
    print!(rt; "open, no data, not protected: ")?;
    opens(rt, r, front(&plain(0x48, 0x00), 41), SIZE, &frame, 3)?;
    print!(rt; "open, not protected, 31 octets of header 32: ")?;
    opens(rt, r, front(&plain(0x88, 0x03), 31), SIZE, &frame, 4)?;
    print!(rt; "open, 31 octets of header 32, no room: ")?;
    opens(rt, r, front(&plain(0x88, 0x43), 31), 0, &frame, 2)?;
    open_order_later(rt, r, &frame)?;
    Ok(())
}

fn open_order_later(rt: Output, r: Receiver, frame: &[u8; SIZE]) -> io::Result<()> {
    let text = text_of(front(frame, 25), 0);
    let other = with(text, 15, 9);
    print!(rt; "open, a body of 0, no room: ")?;
    opens(rt, r, front(&text, 40), 0, frame, 5)?;
    print!(rt; "open, room 24, another's frame: ")?;
    opens(rt, r, front(&other, 41), 24, frame, 6)?;
    print!(rt; "open, another's frame, ExtIV 0: ")?;
    opens(rt, r, front(&with(other, 27, 0x80), 41), 25, frame, 7)?;
    print!(rt; "open, ExtIV 0, key ID 1: ")?;
    opens(rt, r, front(&with(text, 27, 0x40), 41), 25, frame, 8)?;
    print!(rt; "open, key ID 1, number 0: ")?;
    opens(
        rt,
        r,
        front(&with(with(text, 27, 0x60), 24, 0), 41),
        25,
        frame,
        9,
    )?;
    print!(rt; "open, a replay, text damaged: ")?;
    let damaged = with(text, 32, text[32] ^ 1);
    opens(rt, receiver(0, 1), front(&damaged, 41), 25, frame, 10)?;
    Ok(())
}

// Each count goes back to 0.
fn counts(rt: Output) -> io::Result<()> {
    let frame = plain(0x08, 0x00);
    let text = text_of(front(&frame, 25), 0);
    let mut r = receiver(0, 0);
    r.counts = GREATEST_COUNTS;
    print!(rt; "full counts, open with no room: ")?;
    r = opens(rt, r, front(&text, 41), 0, &frame, 6)?;
    print!(rt; "full counts, open 23 octets: ")?;
    r = opens(rt, r, front(&text, 23), SIZE, &frame, 2)?;
    print!(rt; "full counts, open number 0: ")?;
    r = opens(rt, r, front(&with(text, 24, 0), 41), SIZE, &frame, 10)?;
    print!(rt; "full counts, open under another number: ")?;
    r = opens(rt, r, front(&with(text, 24, 2), 41), SIZE, &frame, 11)?;
    print!(rt; "full counts, open: ")?;
    opens(rt, r, front(&text, 41), SIZE, &frame, 0)?;
    Ok(())
}

fn main(rt: HostRuntime) -> io::Result<()> {
    let rt = Output(rt);
    sizes(rt, 0x08, 0x00, 24)?;
    sizes(rt, 0x88, 0x00, 26)?;
    sizes(rt, 0x08, 0x03, 30)?;
    sizes(rt, 0x88, 0x03, 32)?;
    sizes(rt, 0x88, 0x80, 30)?;
    sizes(rt, 0x88, 0x83, 36)?;
    rooms(rt)?;
    ht_control(rt)?;
    orders(rt)?;
    parts(rt)?;
    last_number(rt)?;
    replays(rt)?;
    seal_answers(rt)?;
    open_answers(rt)?;
    senders(rt)?;
    receivers(rt)?;
    fresh_sender(rt, 3, 0)?;
    fresh_sender(rt, 4, 1)?;
    fresh_receiver(rt, 3, 0)?;
    fresh_receiver(rt, 4, 1)?;
    seal_order(rt)?;
    open_order(rt)?;
    counts(rt)?;
    Ok(())
}
