// The limit cases of splitting and joining: sizes, messages, numbers, room, records, the order of the tests, and what drops a message.
// What this must print, the file stdout, was taken from documents 01 and 02; ` | 02: ` is the answer that they give, 0 for done.
#![tactic(auto)]

ghost use Rattle.std.specs.Prelude.{◌+◌, ◌≤◌, ◌<◌};
ghost use Rattle.rules.specs.Limits.{most_header, most_message};
ghost use Rattle.fragments_limits.specs.Space.{space};

use cases::{ADDRESS, Answer, KEY, front, rest, sender, with};
use ccmp::{ADDED, MOST_NUMBER};
use rules::{Fragment, Joiner, MOST_MESSAGE, Receiver, Refusal, Sender, Success};
use show::{Hex, Output};
use std::{array, io};

// The octets of an array, more than a frame or its fragments sealed can have. Room is passed as a number of them, which each contract
// bounds, since the call that is given the room makes the array, and tells what stands past the room too.
const SPACE: usize = MOST_MESSAGE + 896;

// An answer, with the octets written where they are at most so many.
fn print_answer(rt: Output, answer: Answer, out: &[u8], most: usize) -> io::Result<()> {
    print!(rt; "{answer}")?;
    let k = answer.written();
    if k == 0 || most < k {
        return Ok(());
    }
    match out.get(..k) {
        Some(written) => print!(rt; " {}", Hex(written)),
        None => Ok(()),
    }
}

// Ends a line: whether the output is as it was from octet k on, and what is due.
fn print_end(rt: Output, out: &[u8], k: usize, expected: u8) -> io::Result<()> {
    println!(rt; ", {} | 02: {expected}", rest(out, k))
}

// A plain frame of the sender's with this Frame Control, longer than any that is split: sequence number 2581, fragment
// number 15, and the priority 6 where QoS Control stands at 24, and 9 where it stands at 30. It stands apart from the frame of
// ccmp_limits, whose length and Sequence Control are others.
fn plain(low: u8, high: u8) -> [u8; SPACE] {
    let mut frame: [u8; SPACE] = array::from_fn(|i| (i % 251) as u8);
    frame[0] = low;
    frame[1] = high;
    frame[10..16].copy_from_slice(&ADDRESS);
    frame[22] = 0x5f;
    frame[23] = 0xa1;
    frame[24] = 0xf6;
    frame[30] = 0xc9;
    frame
}

// Fragment i of that sequence number, with a header of 24 and this second octet of Frame Control. Its body is octets b0 where i
// is 0, b1 where it is 1, and so on, and so are Duration, A1 and A3.
fn fragment(i: u8, high: u8) -> [u8; SPACE] {
    let mut frame = [i | 0xb0; SPACE];
    frame[0] = 0x08;
    frame[1] = high;
    frame[10..16].copy_from_slice(&ADDRESS);
    frame[22] = i | 0x50;
    frame[23] = 0xa1;
    frame
}

// A joiner that holds nothing, written out.
fn empty() -> Joiner {
    let last = Fragment {
        address: [0; 6],
        priority: 0,
        sequence: 0,
        fragment: 0,
        number: 0,
    };
    Joiner {
        held: [0; MOST_MESSAGE],
        length: 0,
        last,
    }
}

// A joiner that holds two octets b0 and to which fragment i came last, under the number 7, written out.
fn begun(i: u8) -> Joiner {
    let mut held = [0u8; MOST_MESSAGE];
    held[0] = 0xb0;
    held[1] = 0xb0;
    let last = Fragment {
        address: ADDRESS,
        priority: 0,
        sequence: 2581,
        fragment: i,
        number: 7,
    };
    Joiner {
        held,
        length: 2,
        last,
    }
}

// Splits the frame with this room, and prints the rest of the line.
fn splits(
    rt: Output,
    s: Sender,
    size: usize,
    frame: &[u8],
    room: usize,
    expected: u8,
) -> io::Result<Sender>
    requires { room ≤ space }
{
    let mut out = [0xaau8; SPACE];
    let split = fragments::split(s, size, frame, &mut out[0..room]);
    let answer = Answer(split.answer);
    print!(rt; "{answer}, last {}", split.sender.last)?;
    print_end(rt, &out, answer.written(), expected)?;
    Ok(split.sender)
}

// What became of one sealed fragment: the two records after it, and what joining answered, or opening where that refused it.
#[derive(Clone, Copy)]
struct After {
    receiver: Receiver,
    joiner: Joiner,
    answer: Result<Success, Refusal>,
}

// Opens a sealed fragment, prints octets 1 and 22 of what was opened, and joins it.
fn hop(rt: Output, r: Receiver, j: Joiner, sealed: &[u8], out: &mut [u8]) -> io::Result<After> {
    let mut frame = [0u8; SPACE];
    let opened = ccmp::open(r, sealed, &mut frame);
    let receiver = opened.receiver;
    match opened.answer {
        Ok(done) => {
            print!(rt; " {}", Hex(&[frame[1], frame[22]]))?;
            let fragment = frame.get(..done.octets).unwrap_or(&[]);
            let joined = fragments::join(j, fragment, done.number, out);
            Ok(After {
                receiver,
                joiner: joined.joiner,
                answer: joined.answer,
            })
        }
        Err(refusal) => Ok(After {
            receiver,
            joiner: j,
            answer: Err(refusal),
        }),
    }
}

// Opens and joins the sealed fragments in air, of `step` octets each but for the last, and gives what became of that.
fn carried(rt: Output, air: &[u8], step: usize, out: &mut [u8]) -> io::Result<Option<After>>
    requires { 0 < step }
{
    let mut r = ccmp::new_receiver(KEY, 2, ADDRESS, ccmp::SMALL_WINDOW);
    let mut j = fragments::new_joiner();
    let mut last = None;
    for sealed in air.chunks(step) {
        let after = hop(rt, r, j, sealed, out)?;
        r = after.receiver;
        j = after.joiner;
        last = Some(after);
    }
    Ok(last)
}

// What joining the last fragment gave.
fn print_joined(rt: Output, after: After, out: &[u8], message: &[u8]) -> io::Result<()> {
    let answer = Answer(after.answer);
    print!(rt; ", {answer}")?;
    if let Some(written) = out.get(..answer.written()) {
        if written == message {
            print!(rt; ", the message")?;
        }
    }
    if after.joiner == empty() {
        print!(rt; ", all zero")?;
    }
    Ok(())
}

// Splits a frame that has this message, opens and joins its fragments, of `step` octets each but for the last, and prints the
// rest of the line.
fn crosses(
    rt: Output,
    frame: &[u8],
    message: &[u8],
    size: usize,
    step: usize,
    expected: u8,
) -> io::Result<()>
    requires { 0 < step }
{
    let mut air = [0xaau8; SPACE];
    let mut out = [0u8; SPACE];
    let split = fragments::split(sender(0), size, frame, &mut air);
    let answer = Answer(split.answer);
    print_answer(rt, answer, &air, 128)?;
    print!(rt; ", last {}", split.sender.last)?;
    let k = answer.written();
    if k != 0 {
        print!(rt; ", opened")?;
        let sealed = air.get(..k).unwrap_or(&[]);
        if let Some(after) = carried(rt, sealed, step, &mut out)? {
            print_joined(rt, after, &out, message)?;
        }
    }
    print_end(rt, &air, k, expected)
}

// Splits a message of m octets after a header of h with this Frame Control. Octets 1 and 22 are shown as they are given and,
// of each fragment, as they are opened.
fn travels(
    rt: Output,
    low: u8,
    high: u8,
    h: usize,
    m: usize,
    size: usize,
    expected: u8,
) -> io::Result<()>
    requires { (h ≤ most_header) × (m ≤ most_message + 1) × (size ≤ most_message) }
{
    let frame = plain(low, high);
    let given = [frame[1], frame[22]];
    print!(rt;
        "header {h}, message {m}, size {size}, given {}: ",
        Hex(&given)
    )?;
    crosses(
        rt,
        &frame[0..h + m],
        &frame[h..h + m],
        size,
        h + size + ADDED,
        expected,
    )
}

// Joins the fragment with this room, and prints the rest of the line.
fn joins(
    rt: Output,
    j: Joiner,
    frame: &[u8],
    number: u64,
    room: usize,
    expected: u8,
) -> io::Result<Joiner>
    requires { room ≤ space }
{
    let mut out = [0xaau8; SPACE];
    let joined = fragments::join(j, frame, number, &mut out[0..room]);
    let answer = Answer(joined.answer);
    let next = joined.joiner;
    print_answer(rt, answer, &out, 16)?;
    print!(rt; ", holds {}", next.length)?;
    if next == empty() {
        print!(rt; ", all zero")?;
    }
    if next == j {
        print!(rt; ", joiner kept")?;
    }
    print_end(rt, &out, answer.written(), expected)?;
    Ok(next)
}

// Sizes, messages and headers.
fn sizes(rt: Output) -> io::Result<()> {
    travels(rt, 0x08, 0x00, 24, 17, 14, 13)?;
    travels(rt, 0x08, 0x00, 24, 17, 15, 13)?;
    travels(rt, 0x08, 0x00, 24, 17, 16, 0)?;
    travels(rt, 0x08, 0x00, 24, 17, 17, 13)?;
    travels(rt, 0x08, 0x00, 24, 16, 16, 0)?;
    travels(rt, 0x08, 0x00, 24, 0, 16, 13)?;
    travels(rt, 0x08, 0x00, 24, 1, 16, 0)?;
    travels(rt, 0x08, 0x00, 24, 256, 16, 0)?;
    travels(rt, 0x08, 0x00, 24, 257, 16, 13)?;
    travels(rt, 0x08, 0x00, 24, 2304, 142, 13)?;
    travels(rt, 0x08, 0x00, 24, 2304, 144, 0)?;
    travels(rt, 0x08, 0x00, 24, 2304, 2294, 0)?;
    travels(rt, 0x08, 0x00, 24, 2304, 2296, 0)?;
    travels(rt, 0x08, 0x00, 24, 2305, 2296, 13)?;
    travels(rt, 0x08, 0x00, 24, 2296, 2296, 0)?;
    travels(rt, 0x08, 0x00, 24, 2296, 2298, 13)?;
    travels(rt, 0x08, 0x00, 24, 2305, 146, 13)?;
    travels(rt, 0x08, 0x04, 24, 16, 16, 0)?;
    travels(rt, 0x08, 0x3d, 24, 33, 16, 0)?;
    travels(rt, 0x88, 0x00, 26, 33, 16, 0)?;
    travels(rt, 0x08, 0x07, 30, 33, 16, 0)?;
    travels(rt, 0x88, 0x80, 30, 33, 16, 0)?;
    travels(rt, 0x88, 0x03, 32, 33, 16, 0)?;
    travels(rt, 0x88, 0x87, 36, 17, 16, 0)?;
    travels(rt, 0x88, 0x83, 36, 2304, 144, 0)?;
    Ok(())
}

// Numbers that just suffice or of which one is missing, room likewise, and sizes that no frame has.
fn split_limits(rt: Output) -> io::Result<()> {
    let frame = plain(0x08, 0x00);
    let s = sender(0);
    print!(rt; "split in 3, last number 2^48 - 4: ")?;
    let spent = splits(rt, sender(MOST_NUMBER - 3), 16, front(&frame, 57), SPACE, 0)?;
    print!(rt; "split once more: ")?;
    splits(rt, spent, 16, front(&frame, 57), SPACE, 12)?;
    print!(rt; "split in 3, last number 2^48 - 3: ")?;
    splits(
        rt,
        sender(MOST_NUMBER - 2),
        16,
        front(&frame, 57),
        SPACE,
        12,
    )?;
    print!(rt; "split in 1, last number 2^48 - 2: ")?;
    splits(rt, sender(MOST_NUMBER - 1), 16, front(&frame, 40), SPACE, 0)?;
    print!(rt; "split in 16, last number 2^48 - 17: ")?;
    splits(
        rt,
        sender(MOST_NUMBER - 16),
        144,
        front(&frame, 2328),
        SPACE,
        0,
    )?;
    print!(rt; "split in 16, last number 2^48 - 16: ")?;
    splits(
        rt,
        sender(MOST_NUMBER - 15),
        144,
        front(&frame, 2328),
        SPACE,
        12,
    )?;
    print!(rt; "split to 153 octets, room 152: ")?;
    splits(rt, s, 16, front(&frame, 57), 152, 6)?;
    print!(rt; "split to 153 octets, room 153: ")?;
    splits(rt, s, 16, front(&frame, 57), 153, 0)?;
    let longest = plain(0x88, 0x83);
    print!(rt; "split to 3136 octets, room 3135: ")?;
    splits(rt, s, 144, front(&longest, 2340), 3135, 6)?;
    print!(rt; "split to 3136 octets, room 3136: ")?;
    splits(rt, s, 144, front(&longest, 2340), 3136, 0)?;
    print!(rt; "split at size 0: ")?;
    splits(rt, s, 0, front(&frame, 57), SPACE, 13)?;
    print!(rt; "split at size 2^60: ")?;
    splits(rt, s, 1152921504606846976, front(&frame, 57), SPACE, 13)?;
    print!(rt; "split at size 2^64 - 2: ")?;
    splits(rt, s, 18446744073709551614, front(&frame, 57), SPACE, 13)?;
    Ok(())
}

// Each answer of splitting. One sender goes from call to call.
fn split_answers(rt: Output) -> io::Result<()> {
    let frame = plain(0x08, 0x00);
    print!(rt; "split 23 octets: ")?;
    let s = splits(rt, sender(5), 16, front(&frame, 23), SPACE, 2)?;
    print!(rt; "split version 1: ")?;
    let s = splits(rt, s, 16, front(&plain(0x09, 0x00), 57), SPACE, 3)?;
    print!(rt; "split type 0: ")?;
    let s = splits(rt, s, 16, front(&plain(0xb0, 0x00), 57), SPACE, 3)?;
    print!(rt; "split a frame with no data: ")?;
    let s = splits(rt, s, 16, front(&plain(0x48, 0x00), 57), SPACE, 3)?;
    print!(rt; "split a protected frame: ")?;
    let s = splits(rt, s, 16, front(&plain(0x08, 0x40), 57), SPACE, 4)?;
    print!(rt; "split 31 octets of header 32: ")?;
    let s = splits(rt, s, 16, front(&plain(0x88, 0x03), 31), SPACE, 2)?;
    print!(rt; "split 35 octets of header 36: ")?;
    let s = splits(rt, s, 16, front(&plain(0x88, 0x83), 35), SPACE, 2)?;
    print!(rt; "split no message: ")?;
    let s = splits(rt, s, 16, front(&frame, 24), SPACE, 13)?;
    print!(rt; "split with no room: ")?;
    let s = splits(rt, s, 16, front(&frame, 57), 0, 6)?;
    print!(rt; "split another's frame: ")?;
    let s = splits(rt, s, 16, front(&with(frame, 15, 9), 57), SPACE, 7)?;
    print!(rt; "split: ")?;
    let s = splits(rt, s, 16, front(&frame, 57), SPACE, 0)?;
    print!(rt; "split again: ")?;
    let mut s = splits(rt, s, 16, front(&frame, 57), SPACE, 0)?;
    s.last = MOST_NUMBER;
    print!(rt; "split, spent: ")?;
    splits(rt, s, 16, front(&frame, 57), SPACE, 12)?;
    s.key_id = 4;
    print!(rt; "split, key ID 4: ")?;
    splits(rt, s, 16, front(&frame, 57), SPACE, 1)?;
    print!(rt; "split, last number 2^48: ")?;
    splits(rt, sender(MOST_NUMBER + 1), 16, front(&frame, 57), SPACE, 1)?;
    Ok(())
}

// Where two tests of splitting apply, the first decides.
fn split_order(rt: Output) -> io::Result<()> {
    let frame = plain(0x08, 0x00);
    let s = sender(0);
    let mut unsound = s;
    unsound.key_id = 4;
    print!(rt; "split, not sound, 23 octets: ")?;
    splits(rt, unsound, 16, front(&frame, 23), SPACE, 1)?;
    print!(rt; "split, 23 octets, no data: ")?;
    splits(rt, s, 16, front(&plain(0x48, 0x00), 23), SPACE, 2)?;
    print!(rt; "split, no data, protected: ")?;
    splits(rt, s, 16, front(&plain(0x48, 0x40), 57), SPACE, 3)?;
    print!(rt; "split, protected, 31 octets of header 32: ")?;
    splits(rt, s, 16, front(&plain(0x88, 0x43), 31), SPACE, 4)?;
    print!(rt; "split, 31 octets of header 32, size 14: ")?;
    splits(rt, s, 14, front(&plain(0x88, 0x03), 31), SPACE, 2)?;
    print!(rt; "split, size 15, no room: ")?;
    splits(rt, s, 15, front(&frame, 57), 0, 13)?;
    print!(rt; "split, 17 fragments, room 16: ")?;
    splits(rt, s, 16, front(&frame, 281), 16, 13)?;
    print!(rt; "split, no message, another's frame: ")?;
    splits(rt, s, 16, front(&with(frame, 15, 9), 24), SPACE, 13)?;
    print!(rt; "split, room 152, another's frame: ")?;
    splits(rt, s, 16, front(&with(frame, 15, 9), 57), 152, 6)?;
    print!(rt; "split, room 152, spent: ")?;
    splits(rt, sender(MOST_NUMBER), 16, front(&frame, 57), 152, 6)?;
    print!(rt; "split, another's frame, spent: ")?;
    splits(
        rt,
        sender(MOST_NUMBER),
        16,
        front(&with(frame, 10, 3), 57),
        153,
        7,
    )?;
    Ok(())
}

// Each answer of joining. One joiner goes from call to call, and holds octets at each refusal but 14.
fn join_answers(rt: Output) -> io::Result<()> {
    let first = fragment(0, 0x04);
    let last = fragment(2, 0x00);
    print!(rt; "join fragment 0: ")?;
    let j = joins(rt, fragments::new_joiner(), front(&first, 26), 7, 0, 0)?;
    print!(rt; "join 23 octets: ")?;
    let j = joins(rt, j, front(&first, 23), 8, SPACE, 2)?;
    print!(rt; "join version 1: ")?;
    let j = joins(rt, j, front(&with(first, 0, 0x09), 26), 8, SPACE, 3)?;
    print!(rt; "join type 0: ")?;
    let j = joins(rt, j, front(&with(first, 0, 0xb0), 26), 8, SPACE, 3)?;
    print!(rt; "join a frame with no data: ")?;
    let j = joins(rt, j, front(&with(first, 0, 0x48), 26), 8, SPACE, 3)?;
    print!(rt; "join a protected frame: ")?;
    let j = joins(rt, j, front(&with(first, 1, 0x44), 26), 8, SPACE, 4)?;
    print!(rt; "join 31 octets of header 32: ")?;
    let j = joins(rt, j, front(&plain(0x88, 0x03), 31), 8, SPACE, 2)?;
    print!(rt; "join 35 octets of header 36: ")?;
    let j = joins(rt, j, front(&plain(0x88, 0x83), 35), 8, SPACE, 2)?;
    print!(rt; "join no body: ")?;
    let j = joins(rt, j, front(&first, 24), 8, SPACE, 5)?;
    print!(rt; "join a body of 2297: ")?;
    let j = joins(rt, j, front(&first, 2321), 8, SPACE, 5)?;
    print!(rt; "join under the number 2^48: ")?;
    let j = joins(rt, j, front(&first, 26), MOST_NUMBER + 1, SPACE, 1)?;
    print!(rt; "join fragment 1: ")?;
    let j = joins(rt, j, front(&fragment(1, 0x04), 27), 8, 0, 0)?;
    print!(rt; "join fragment 2, the last, room 5: ")?;
    let j = joins(rt, j, front(&last, 25), 9, 5, 6)?;
    print!(rt; "join fragment 2, the last, room 6: ")?;
    let j = joins(rt, j, front(&last, 25), 9, 6, 0)?;
    print!(rt; "join fragment 2, the last, again: ")?;
    let j = joins(rt, j, front(&last, 25), 9, 6, 14)?;
    print!(rt; "join a lone fragment 0, number 2^48 - 1: ")?;
    joins(rt, j, front(&fragment(0, 0x00), 26), MOST_NUMBER, 2, 0)?;
    Ok(())
}

// Gives fragment 0, which starts anew, to the joiner with these fields of its last fragment.
fn joins_after(
    rt: Output,
    j: Joiner,
    priority: u8,
    sequence: u16,
    fragment_number: u8,
    number: u64,
    expected: u8,
) -> io::Result<()> {
    let last = Fragment {
        priority,
        sequence,
        fragment: fragment_number,
        number,
        ..j.last
    };
    joins(
        rt,
        Joiner { last, ..j },
        front(&fragment(0, 0x04), 26),
        8,
        0,
        expected,
    )?;
    Ok(())
}

// Joiners at the limits of soundness and past them, that hold octets, then nothing.
fn joiners(rt: Output) -> io::Result<()> {
    let j = begun(0);
    let mut long = j;
    long.length = 2304;
    print!(rt; "2304 octets held: ")?;
    joins(rt, long, front(&fragment(0, 0x04), 26), 8, 0, 0)?;
    long.length = 2305;
    print!(rt; "2305 octets held: ")?;
    joins(rt, long, front(&fragment(0, 0x04), 26), 8, 0, 1)?;
    print!(rt; "every field at its most: ")?;
    joins_after(rt, j, 15, 4095, 15, MOST_NUMBER, 0)?;
    print!(rt; "priority 16: ")?;
    joins_after(rt, j, 16, 0, 0, 0, 1)?;
    print!(rt; "sequence number 4096: ")?;
    joins_after(rt, j, 0, 4096, 0, 0, 1)?;
    print!(rt; "fragment number 16: ")?;
    joins_after(rt, j, 0, 0, 16, 0, 1)?;
    print!(rt; "number 2^48: ")?;
    joins_after(rt, j, 0, 0, 0, MOST_NUMBER + 1, 1)?;
    let j = empty();
    print!(rt; "nothing held, every field at its most: ")?;
    joins_after(rt, j, 15, 4095, 15, MOST_NUMBER, 0)?;
    print!(rt; "nothing held, priority 16: ")?;
    joins_after(rt, j, 16, 0, 0, 0, 1)?;
    print!(rt; "nothing held, sequence number 4096: ")?;
    joins_after(rt, j, 0, 4096, 0, 0, 1)?;
    print!(rt; "nothing held, fragment number 16: ")?;
    joins_after(rt, j, 0, 0, 16, 0, 1)?;
    print!(rt; "nothing held, number 2^48: ")?;
    joins_after(rt, j, 0, 0, 0, MOST_NUMBER + 1, 1)?;
    Ok(())
}

// Fragments that don't continue what is held, two octets of fragment 0 under the number 7, and some that do.
fn astray(rt: Output) -> io::Result<()> {
    let j = begun(0);
    let next = fragment(1, 0x00);
    print!(rt; "fragment 2 under 9: ")?;
    joins(rt, j, front(&fragment(2, 0x04), 26), 9, SPACE, 14)?;
    print!(rt; "fragment 2 under 8: ")?;
    joins(rt, j, front(&fragment(2, 0x04), 26), 8, SPACE, 14)?;
    print!(rt; "fragment 1 under 9: ")?;
    let dropped = joins(rt, j, front(&next, 26), 9, SPACE, 14)?;
    print!(rt; "fragment 1 under 8 after that: ")?;
    joins(rt, dropped, front(&next, 26), 8, SPACE, 14)?;
    print!(rt; "fragment 1 under 7: ")?;
    joins(rt, j, front(&next, 26), 7, SPACE, 14)?;
    print!(rt; "fragment 1 of sequence number 2580: ")?;
    joins(rt, j, front(&with(next, 22, 0x41), 26), 8, SPACE, 14)?;
    print!(rt; "fragment 1 of sequence number 2565: ")?;
    joins(rt, j, front(&with(next, 23, 0xa0), 26), 8, SPACE, 14)?;
    print!(rt; "fragment 1 of sequence number 2580 under 20: ")?;
    joins(rt, j, front(&with(next, 22, 0x41), 26), 20, SPACE, 14)?;
    print!(rt; "fragment 1 with another A2: ")?;
    joins(rt, j, front(&with(next, 15, 9), 26), 8, SPACE, 14)?;
    print!(rt; "fragment 1 with another A2, its first octet: ")?;
    joins(rt, j, front(&with(next, 10, 3), 26), 8, SPACE, 14)?;
    let qos = with(next, 0, 0x88);
    print!(rt; "fragment 1 of priority 6: ")?;
    joins(rt, j, front(&with(qos, 24, 0xf6), 28), 8, SPACE, 14)?;
    print!(rt; "fragment 1 of priority 0 with QoS Control: ")?;
    joins(rt, j, front(&with(qos, 24, 0xf0), 28), 8, SPACE, 0)?;
    print!(rt; "fragment 1 under 8: ")?;
    joins(rt, j, front(&next, 26), 8, SPACE, 0)?;
    let mut nothing = j;
    nothing.length = 0;
    print!(rt; "fragment 1 under 8, no octet held: ")?;
    joins(rt, nothing, front(&next, 26), 8, SPACE, 14)?;
    let zeros = with(with(with(with(next, 10, 0), 15, 0), 22, 0x01), 23, 0);
    print!(rt; "fragment 1 under 1 to the joiner of zeros, with A2 and sequence number zero: ")?;
    joins(rt, empty(), front(&zeros, 26), 1, SPACE, 14)?;
    Ok(())
}

// Fragment 0 starts anew, and after fragment 15 nothing else goes on.
fn anew(rt: Output) -> io::Result<()> {
    let first = fragment(0, 0x04);
    let next = fragment(1, 0x04);
    print!(rt; "fragment 0 of 300 octets: ")?;
    let j = joins(rt, empty(), front(&first, 324), 6, 0, 0)?;
    print!(rt; "fragment 0 of 2 octets: ")?;
    let j = joins(rt, j, front(&first, 26), 7, 0, 0)?;
    if j == begun(0) {
        println!(rt; "no octet is left of the 300")?;
    }
    print!(rt; "fragment 1: ")?;
    let j = joins(rt, j, front(&next, 26), 8, 0, 0)?;
    print!(rt; "fragment 1 again: ")?;
    joins(rt, j, front(&next, 26), 8, 0, 14)?;
    print!(rt; "a lone fragment 0: ")?;
    joins(rt, j, front(&fragment(0, 0x00), 26), 9, 2, 0)?;
    print!(rt; "fragment 15 with MoreFrag: ")?;
    let j = joins(rt, begun(14), front(&fragment(15, 0x04), 26), 8, 0, 0)?;
    print!(rt; "fragment 15 again under the next number: ")?;
    joins(rt, j, front(&fragment(15, 0x00), 26), 9, SPACE, 14)?;
    print!(rt; "fragment 1 after fragment 15: ")?;
    joins(rt, j, front(&next, 26), 9, 0, 14)?;
    print!(rt; "fragment 0 of priority 6 after fragment 15: ")?;
    let qos = joins(
        rt,
        j,
        front(&with(with(first, 0, 0x88), 24, 0xf6), 28),
        9,
        0,
        0,
    )?;
    print!(rt; "fragment 1 of priority 0 after that: ")?;
    joins(rt, qos, front(&next, 26), 10, 0, 14)?;
    print!(rt; "fragment 15, the last: ")?;
    joins(rt, begun(14), front(&fragment(15, 0x00), 26), 8, 4, 0)?;
    Ok(())
}

// The longest message, one that is too long, and finished messages without room.
fn totals(rt: Output) -> io::Result<()> {
    let last = fragment(1, 0x00);
    print!(rt; "fragment 0 of 2296 octets: ")?;
    let j = joins(rt, empty(), front(&fragment(0, 0x04), 2320), 7, 0, 0)?;
    print!(rt; "fragment 0 of 2296 octets anew: ")?;
    joins(rt, j, front(&fragment(0, 0x04), 2320), 8, 0, 0)?;
    print!(rt; "8 octets more: ")?;
    let full = joins(rt, j, front(&fragment(1, 0x04), 32), 8, 0, 0)?;
    print!(rt; "1 octet more: ")?;
    joins(rt, full, front(&fragment(2, 0x00), 25), 9, SPACE, 14)?;
    print!(rt; "9 octets more: ")?;
    joins(rt, j, front(&fragment(1, 0x04), 33), 8, 0, 14)?;
    print!(rt; "9 octets more, the last: ")?;
    joins(rt, j, front(&last, 33), 8, SPACE, 14)?;
    print!(rt; "8 octets more, the last, room 2303: ")?;
    let j = joins(rt, j, front(&last, 32), 8, 2303, 6)?;
    print!(rt; "8 octets more, the last, room 2304: ")?;
    joins(rt, j, front(&last, 32), 8, 2304, 0)?;
    print!(rt; "a lone fragment 0 of 2 octets, room 1: ")?;
    let j = joins(rt, begun(0), front(&fragment(0, 0x00), 26), 8, 1, 6)?;
    print!(rt; "fragment 1, the last, room 3: ")?;
    let j = joins(rt, j, front(&last, 26), 8, 3, 6)?;
    print!(rt; "fragment 1, the last, room 4: ")?;
    joins(rt, j, front(&last, 26), 8, 4, 0)?;
    print!(rt; "a lone fragment 0 of 2 octets, room 2: ")?;
    joins(rt, begun(0), front(&fragment(0, 0x00), 26), 8, 2, 0)?;
    Ok(())
}

// Where two tests of joining apply, the first decides.
fn join_order(rt: Output) -> io::Result<()> {
    let first = fragment(0, 0x04);
    let j = begun(0);
    let mut long = j;
    long.length = 2305;
    print!(rt; "join, not sound, 23 octets: ")?;
    joins(rt, long, front(&first, 23), 8, 0, 1)?;
    print!(rt; "join, number 2^48, 23 octets: ")?;
    joins(rt, j, front(&first, 23), MOST_NUMBER + 1, 0, 1)?;
    print!(rt; "join, 23 octets, no data: ")?;
    joins(rt, j, front(&with(first, 0, 0x48), 23), 8, 0, 2)?;
    print!(rt; "join, no data, protected: ")?;
    joins(
        rt,
        j,
        front(&with(plain(0x48, 0x40), 22, 0x50), 26),
        8,
        0,
        3,
    )?;
    print!(rt; "join, protected, 31 octets of header 32: ")?;
    joins(rt, j, front(&plain(0x88, 0x43), 31), 8, 0, 4)?;
    print!(rt; "join, no body, fragment 3: ")?;
    joins(rt, j, front(&fragment(3, 0x00), 24), 8, 0, 5)?;
    print!(rt; "join, a body of 2297, fragment 3: ")?;
    joins(rt, j, front(&fragment(3, 0x00), 2321), 8, 0, 5)?;
    print!(rt; "join, fragment 3, no room: ")?;
    joins(rt, j, front(&fragment(3, 0x00), 26), 8, 0, 14)?;
    long.length = 2304;
    print!(rt; "join, a total of 2305, no room: ")?;
    joins(rt, long, front(&fragment(1, 0x00), 25), 8, 0, 14)?;
    Ok(())
}

fn main(rt: HostRuntime) -> io::Result<()> {
    let rt = Output(rt);
    sizes(rt)?;
    split_limits(rt)?;
    split_answers(rt)?;
    split_order(rt)?;
    join_answers(rt)?;
    joiners(rt)?;
    astray(rt)?;
    anew(rt)?;
    totals(rt)?;
    join_order(rt)?;
    Ok(())
}
