// The limit cases of the replay windows: late numbers, jumps, number 0, replays, forged frames, the other priorities, windows that are
// not sound, and sizes. A window is printed as its greatest number and sixteen marks, for that number and the fifteen below it, 1 where
// it holds the number; counts are format errors, replays, decrypt errors and opened.
// What this must print, the file stdout, was taken from documents 01 and 02; ` | 02: ` is the answer that they give, 0 for done.
#![tactic(auto)]

ghost use Rattle.std.specs.Prelude.{◌<◌};
ghost use Rattle.rules.specs.Limits.{priorities};

use cases::{ADDRESS, Counted, KEY, all_zeros, with_window};
use ccmp::MOST_NUMBER;
use rules::{Receiver, Refusal, Success};
use show::Output;
use std::{fmt, io};

// What a call answered, printed without its octets, of which there are 27 wherever it is done.
#[derive(Clone, Copy)]
struct Answer(Result<Success, Refusal>);

impl Answer {
    // An expression, and no function of a crate that each program would have to use for it.
    fn number(self) -> u8 {
        self.0.map_or_else(|refusal| refusal.number(), |_| 0)
    }
}

impl fmt::Display for Answer {
    fn fmt<W: fmt::Write>(&self, f: &mut fmt::Formatter<W>) -> fmt::Result {
        match self.0 {
            Ok(done) => write!(f, "done {} {}", done.number, done.priority),
            Err(refusal) => write!(f, "refused {}", refusal.number()),
        }
    }
}

// The greatest number of a window, and which it holds.
#[derive(Clone, Copy)]
struct Held {
    greatest: u64,
    seen: u16,
}

impl fmt::Display for Held {
    fn fmt<W: fmt::Write>(&self, f: &mut fmt::Formatter<W>) -> fmt::Result {
        write!(f, "at {} {:016b}", self.greatest, self.seen.reverse_bits())
    }
}

// A priority is passed as its place, which each contract bounds: a type that holds the bound would have to be made in every case.
fn window_of(r: Receiver, p: usize) -> Held
    requires { p < priorities }
{
    Held {
        greatest: r.replay[p],
        seen: r.seen[p],
    }
}

// No derived equality: a receiver holds a key, and so derives none, and its counts may differ here.
fn same_windows(a: Receiver, b: Receiver) -> bool {
    a.replay == b.replay && a.seen == b.seen
}

// Whether two records have the same windows but for priority p, which no derived equality leaves out.
fn same_others(a: Receiver, b: Receiver, p: usize) -> bool
    requires { p < priorities }
{
    same_windows(with_window(a, p, b.replay[p], b.seen[p]), b)
}

// A receiver with key ID 3 and this window in priority p, the others empty.
fn record(size: u8, p: usize, greatest: u64, seen: u16) -> Receiver
    requires { p < priorities }
{
    with_window(ccmp::new_receiver(KEY, 3, ADDRESS, size), p, greatest, seen)
}

// A frame of priority p, with a header of 26 and a body of 1, sealed under number n. No call seals under 0: it is written over 1.
fn text_of(p: usize, n: u64) -> [u8; 43]
    requires { p < priorities }
{
    let mut frame = [0u8; 27];
    frame[0] = 0x88;
    frame[10] = 2;
    frame[15] = 1;
    frame[24] = p as u8;
    let mut s = ccmp::new_sender(KEY, 3, ADDRESS);
    s.last = n.saturating_sub(1);
    let mut text = [0u8; 43];
    ccmp::seal(s, &frame, &mut text);
    if n == 0 {
        text[26] = 0;
    }
    text
}

// Opens the text, of priority p and number n: a case in a line.
fn opens_text(
    rt: Output,
    r: Receiver,
    p: usize,
    n: u64,
    text: [u8; 43],
    expected: u8,
) -> io::Result<Receiver>
    requires { p < priorities }
{
    print!(rt;
        "size {}, priority {p} {}, open {n}: ",
        r.size,
        window_of(r, p)
    )?;
    let mut out = [0u8; 27];
    let opened = ccmp::open(r, &text, &mut out);
    let answer = Answer(opened.answer);
    let next = opened.receiver;
    let window = window_of(next, p);
    let others = if same_others(r, next, p) {
        "kept"
    } else {
        "MOVED"
    };
    let counts = Counted(next.counts);
    println!(rt; "{answer}, then {window}, others {others}, {counts} | 02: {expected}")?;
    Ok(next)
}

fn opens(rt: Output, r: Receiver, p: usize, n: u64, expected: u8) -> io::Result<Receiver>
    requires { p < priorities }
{
    opens_text(rt, r, p, n, text_of(p, n), expected)
}

// The same in priority 6 with the text damaged.
fn forged(rt: Output, r: Receiver, n: u64, expected: u8) -> io::Result<Receiver> {
    let mut text = text_of(6, n);
    text[34] ^= 1;
    print!(rt; "forged; ")?;
    opens_text(rt, r, 6, n, text, expected)
}

// Number n opened in priority 6 by a record with this window there: marks 1 hold the greatest alone, 0xffff sixteen numbers.
fn at(rt: Output, size: u8, greatest: u64, seen: u16, n: u64, expected: u8) -> io::Result<()> {
    opens(rt, record(size, 6, greatest, seen), 6, n, expected)?;
    Ok(())
}

// Late numbers and jumps, with 100 the greatest in a window that holds all from 99 to 85 or none of them.
fn from_100(rt: Output, size: u8, seen: u16, within: u8) -> io::Result<()> {
    at(rt, size, 100, seen, 100, 10)?;
    at(rt, size, 100, seen, 99, within)?;
    at(rt, size, 100, seen, 86, within)?;
    at(rt, size, 100, seen, 85, within)?;
    at(rt, size, 100, seen, 84, 10)?;
    at(rt, size, 100, seen, 101, 0)?;
    at(rt, size, 100, seen, 115, 0)?;
    at(rt, size, 100, seen, 116, 0)?;
    at(rt, size, 100, seen, 117, 0)?;
    at(rt, size, 100, seen, MOST_NUMBER, 0)?;
    Ok(())
}

fn opens_zero(rt: Output, r: Receiver) -> io::Result<()> {
    let mut out = [0u8; 27];
    let opened = ccmp::open(r, &text_of(6, 0), &mut out);
    print!(rt; " {}", Answer(opened.answer).number())?;
    if !same_windows(r, opened.receiver) {
        print!(rt; " MOVED")?;
    }
    Ok(())
}

// Number 0 at a greatest from 0 to 15.
fn zeros(rt: Output, size: u8) -> io::Result<()> {
    at(rt, size, 0, 0, 0, 10)?;
    print!(rt; "size {size}, at 1 to 15 alone, open 0:")?;
    for greatest in 1..16 {
        opens_zero(rt, record(size, 6, greatest, 1))?;
    }
    println!(rt; " | 02: 10")
}

fn twice(rt: Output) -> io::Result<()> {
    let r = opens(rt, record(16, 6, 0, 0), 6, 20, 0)?;
    let r = opens(rt, r, 6, 20, 10)?;
    let r = opens(rt, r, 6, 18, 0)?;
    let r = opens(rt, r, 6, 18, 10)?;
    let r = opens(rt, r, 6, 5, 0)?;
    let r = opens(rt, r, 6, 21, 0)?;
    let r = opens(rt, r, 6, 5, 10)?;
    let r = opens(rt, r, 6, 37, 0)?;
    let r = opens(rt, r, 6, 21, 10)?;
    opens(rt, r, 6, 22, 0)?;
    let r = opens(rt, record(1, 6, 0, 0), 6, 20, 0)?;
    let r = opens(rt, r, 6, 20, 10)?;
    let r = opens(rt, r, 6, 21, 0)?;
    opens(rt, r, 6, 20, 10)?;
    Ok(())
}

fn forgeries(rt: Output) -> io::Result<()> {
    let r = forged(rt, record(16, 6, 100, 1), 99, 11)?;
    let r = forged(rt, r, 101, 11)?;
    let r = forged(rt, r, MOST_NUMBER, 11)?;
    let r = forged(rt, r, 100, 10)?;
    let r = opens(rt, r, 6, 99, 0)?;
    opens(rt, r, 6, 101, 0)?;
    let r = forged(rt, record(1, 6, 100, 1), 99, 10)?;
    let r = forged(rt, r, 101, 11)?;
    opens(rt, r, 6, 101, 0)?;
    Ok(())
}

fn priorities(rt: Output) -> io::Result<()> {
    let r = opens(rt, record(16, 6, 100, 0xffff), 7, 100, 0)?;
    let r = opens(rt, r, 7, 85, 0)?;
    let r = opens(rt, r, 6, 85, 10)?;
    opens(rt, r, 0, 1, 0)?;
    let r = opens(rt, record(1, 6, 100, 1), 7, 1, 0)?;
    let r = opens(rt, r, 6, 100, 10)?;
    opens(rt, r, 6, 101, 0)?;
    Ok(())
}

// Number n opened with this window in its priority, and number 1 with the window in priority 15.
fn stands(
    rt: Output,
    size: u8,
    greatest: u64,
    seen: u16,
    n: u64,
    own: u8,
    last: u8,
) -> io::Result<()> {
    at(rt, size, greatest, seen, n, own)?;
    print!(rt; "priority 15 {}; ", Held { greatest, seen })?;
    opens(rt, record(size, 15, greatest, seen), 6, 1, last)?;
    Ok(())
}

fn windows(rt: Output) -> io::Result<()> {
    stands(rt, 16, 5, 0x0011, 6, 0, 0)?;
    stands(rt, 16, 5, 0x0021, 6, 1, 1)?;
    stands(rt, 16, 5, 0x0041, 6, 1, 1)?;
    stands(rt, 16, 15, 0xffff, 16, 1, 1)?;
    stands(rt, 16, 0, 0x0001, 1, 1, 1)?;
    stands(rt, 16, 0, 0x8000, 1, 1, 1)?;
    stands(rt, 16, 100, 0x0000, 101, 1, 1)?;
    stands(rt, 16, 100, 0xfffe, 101, 1, 1)?;
    stands(rt, 16, 100, 0x0003, 101, 0, 0)?;
    stands(rt, 16, MOST_NUMBER, 0x0001, MOST_NUMBER - 1, 0, 0)?;
    stands(rt, 16, MOST_NUMBER + 1, 0x0001, MOST_NUMBER, 1, 1)?;
    stands(rt, 1, 0, 0x0001, 1, 1, 1)?;
    stands(rt, 1, 100, 0x0000, 101, 1, 1)?;
    stands(rt, 1, 100, 0x0003, 101, 1, 1)?;
    stands(rt, 1, 100, 0x8001, 101, 1, 1)?;
    stands(rt, 1, MOST_NUMBER, 0x0001, MOST_NUMBER, 10, 0)?;
    stands(rt, 1, MOST_NUMBER + 1, 0x0001, MOST_NUMBER, 1, 1)?;
    Ok(())
}

fn sizes(rt: Output) -> io::Result<()> {
    at(rt, 0, 100, 1, 101, 1)?;
    at(rt, 2, 100, 1, 101, 1)?;
    at(rt, 15, 100, 1, 101, 1)?;
    at(rt, 17, 100, 1, 101, 1)?;
    at(rt, 255, 100, 1, 101, 1)?;
    Ok(())
}

// A fresh receiver asked for, and number 1 opened with the record handed back.
fn fresh(rt: Output, key_id: u8, size: u8, expected: u8) -> io::Result<()> {
    let fresh = ccmp::fresh_receiver(KEY, key_id, ADDRESS, size);
    let r = fresh.receiver;
    print!(rt;
        "key ID {key_id}, size {size}: {}",
        Answer(fresh.answer).number()
    )?;
    if all_zeros(r) {
        print!(rt; ", zeros")?;
    }
    print!(rt; "; ")?;
    opens(rt, r, 6, 1, expected)?;
    Ok(())
}

fn fresh_receivers(rt: Output) -> io::Result<()> {
    fresh(rt, 3, 0, 1)?;
    fresh(rt, 3, 1, 0)?;
    fresh(rt, 3, 2, 1)?;
    fresh(rt, 3, 15, 1)?;
    fresh(rt, 3, 16, 0)?;
    fresh(rt, 3, 17, 1)?;
    fresh(rt, 3, 255, 1)?;
    fresh(rt, 4, 1, 1)?;
    fresh(rt, 4, 2, 1)?;
    fresh(rt, 4, 16, 1)?;
    Ok(())
}

fn main(rt: HostRuntime) -> io::Result<()> {
    let rt = Output(rt);
    println!(rt; "Late numbers and jumps, where the greatest is held alone and where sixteen are")?;
    from_100(rt, 1, 1, 10)?;
    from_100(rt, 16, 1, 0)?;
    from_100(rt, 16, 0xffff, 10)?;
    println!(rt; "The same by 2^32 + 1")?;
    at(rt, 16, 4294967397, 1, 100, 10)?;
    at(rt, 16, 100, 0xffff, 4294967397, 0)?;
    println!(rt; "Number 0")?;
    zeros(rt, 1)?;
    zeros(rt, 16)?;
    println!(rt; "Numbers that come twice, each line from the record before")?;
    twice(rt)?;
    println!(rt; "Forged frames, each line from the record before")?;
    forgeries(rt)?;
    println!(rt; "Other priorities beside 6, each line from the record before")?;
    priorities(rt)?;
    println!(rt; "Windows sound or not, in the frame's priority and in the last")?;
    windows(rt)?;
    println!(rt; "Other sizes in a record")?;
    sizes(rt)?;
    println!(rt; "Fresh receivers asked for, and opened with")?;
    fresh_receivers(rt)?;
    Ok(())
}
