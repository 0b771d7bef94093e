// A case in a line: the call, what it answered, all that it changed in the table, and what is due.
ghost use Rattle.std.specs.Prelude.{◌≤◌};
ghost use Rattle.table_limits.specs.Size.{size};

use crate::made::{BOX, SIZE, camera, heard, plain, triple};
use cases::{Answer, Counted, Outcome, front, rest};
use ccmp::SMALL_WINDOW;
use rules::{Entry, Pairing, Receiver, Table, Triple};
use show::{Hex, Output};
use std::io;
use table::Answered;

// Whether two entries are the same in what adding and removing set: no derived equality, which entries lack since they hold keys.
fn same_pairing(a: Entry, b: Entry) -> bool {
    let r = a.receiver;
    let s = b.receiver;
    a.used == b.used
        && a.may_send == b.may_send
        && a.may_receive == b.may_receive
        && r.key_id == s.key_id
        && r.size == s.size
        && a.own == b.own
        && r.peer == s.peer
        && r.key == s.key
}

// Whether two entries are the same in what sealing and opening move, for the same reason.
fn same_numbers(a: Entry, b: Entry) -> bool {
    let r = a.receiver;
    let s = b.receiver;
    a.last == b.last && r.counts == s.counts && r.replay == s.replay && r.seen == s.seen
}

fn print_pairing(rt: Output, e: Entry) -> io::Result<()> {
    let r = e.receiver;
    print!(rt; " own {} peer {}", Hex(&e.own), Hex(&r.peer))?;
    print!(rt; " key ID {} key {}", r.key_id, Hex(&r.key))?;
    if r.size != SMALL_WINDOW {
        print!(rt; " size {}", r.size)?;
    }
    if e.may_send {
        print!(rt; " may send")?;
    }
    if e.may_receive {
        print!(rt; " may receive")?;
    }
    Ok(())
}

// The numbers below the greatest that a window holds.
fn print_window(rt: Output, greatest: u64, bits: u16) -> io::Result<()> {
    for i in 1..16u16 {
        if (bits >> i) % 2 == 1 && u64::from(i) <= greatest {
            print!(rt; " and {}", greatest - u64::from(i))?;
        }
    }
    Ok(())
}

// The replay counters that are not 0, each with what its window holds more.
fn print_counters(rt: Output, r: Receiver) -> io::Result<()> {
    for (p, (greatest, bits)) in r.replay.iter().zip(&r.seen).enumerate() {
        if *greatest != 0 {
            print!(rt; " counter {p} at {greatest}")?;
            print_window(rt, *greatest, *bits)?;
        }
    }
    Ok(())
}

fn print_numbers(rt: Output, e: Entry) -> io::Result<()> {
    print!(rt; " last {}", e.last)?;
    print_counters(rt, e.receiver)?;
    print!(rt; " {}", Counted(e.receiver.counts))
}

// What stands now at place i, if it differs; whether it does.
fn print_entry(rt: Output, i: usize, before: Entry, after: Entry) -> io::Result<bool> {
    let paired = same_pairing(before, after);
    if paired && same_numbers(before, after) {
        return Ok(false);
    }
    print!(rt; ", place {i}")?;
    if !after.used {
        print!(rt; " free")?;
        return Ok(true);
    }
    if !paired {
        print_pairing(rt, after)?;
    }
    print_numbers(rt, after)?;
    Ok(true)
}

// All that differs in two tables.
fn print_changes(rt: Output, before: Table, after: Table) -> io::Result<()> {
    let mut kept = before.format_errors == after.format_errors;
    for (i, (a, b)) in before.entries.iter().zip(&after.entries).enumerate() {
        if print_entry(rt, i, *a, *b)? {
            kept = false;
        }
    }
    if before.format_errors != after.format_errors {
        print!(rt; ", format errors {}", after.format_errors)?;
    }
    if kept {
        print!(rt; ", table kept")?;
    }
    Ok(())
}

// What an opened frame has after its first 24 octets.
fn print_opened(rt: Output, out: &[u8], k: usize) -> io::Result<()> {
    match out.get(24..k) {
        Some(body) => print!(rt; " {}", Hex(body)),
        None => Ok(()),
    }
}

// The rest of a line on adding or removing.
fn print_changed(rt: Output, t: Table, r: Answered, expected: u8) -> io::Result<Table> {
    print!(rt; "{}", Outcome(r.answer))?;
    print_changes(rt, t, r.table)?;
    println!(rt; " | 02: {expected}")?;
    Ok(r.table)
}

pub(crate) fn adds(
    rt: Output,
    what: &str,
    t: Table,
    x: Pairing,
    expected: u8,
) -> io::Result<Table> {
    print!(rt; "add {what}: ")?;
    print_changed(rt, t, table::add(t, x), expected)
}

pub(crate) fn removes(
    rt: Output,
    what: &str,
    t: Table,
    x: Triple,
    expected: u8,
) -> io::Result<Table> {
    print!(rt; "remove {what}: ")?;
    print_changed(rt, t, table::remove(t, x), expected)
}

// Adds camera i with key n.
pub(crate) fn adds_camera(rt: Output, t: Table, i: u8, n: u8, expected: u8) -> io::Result<Table> {
    print!(rt; "add camera {i} with key {n}: ")?;
    print_changed(rt, t, table::add(t, camera(i, n)), expected)
}

pub(crate) fn removes_camera(rt: Output, t: Table, i: u8, expected: u8) -> io::Result<Table> {
    print!(rt; "remove camera {i}: ")?;
    print_changed(rt, t, table::remove(t, triple(BOX, 64 | i, 2)), expected)
}

// Seals a frame with this room. The line has begun.
pub(crate) fn seals_lent(
    rt: Output,
    t: Table,
    key_id: u8,
    frame: &[u8],
    room: usize,
    expected: u8,
) -> io::Result<Table>
    requires { room ≤ size }
{
    let mut out = [0xaau8; SIZE];
    let sealed = table::seal(t, key_id, frame, &mut out[0..room]);
    let answer = Answer(sealed.answer);
    print!(rt; "{answer}")?;
    print_changes(rt, t, sealed.table)?;
    println!(rt; ", {} | 02: {expected}", rest(&out, answer.written()))?;
    Ok(sealed.table)
}

// The same, with what begins the line.
pub(crate) fn seals_part(
    rt: Output,
    what: &str,
    t: Table,
    key_id: u8,
    frame: &[u8],
    room: usize,
    expected: u8,
) -> io::Result<Table>
    requires { room ≤ size }
{
    print!(rt; "seal {what}: ")?;
    seals_lent(rt, t, key_id, frame, room, expected)
}

// Seals a frame of 26 octets with key ID 2 and more room than it needs.
pub(crate) fn seals(
    rt: Output,
    what: &str,
    t: Table,
    frame: [u8; SIZE],
    expected: u8,
) -> io::Result<Table> {
    seals_part(rt, what, t, 2, front(&frame, 26), SIZE, expected)
}

// Seals the frame to camera i.
pub(crate) fn seals_to(rt: Output, t: Table, i: u8, expected: u8) -> io::Result<Table> {
    let frame = plain(64 | i, BOX);
    print!(rt; "seal to camera {i}: ")?;
    seals_lent(rt, t, 2, &frame[0..26], SIZE, expected)
}

// Opens a text with this room. The line has begun. Apart from seals_lent, since it makes another call and prints the body too.
pub(crate) fn opens_lent(
    rt: Output,
    t: Table,
    text: &[u8],
    room: usize,
    expected: u8,
) -> io::Result<Table>
    requires { room ≤ size }
{
    let mut out = [0xaau8; SIZE];
    let opened = table::open(t, text, &mut out[0..room]);
    let answer = Answer(opened.answer);
    print!(rt; "{answer}")?;
    print_opened(rt, &out, answer.written())?;
    print_changes(rt, t, opened.table)?;
    println!(rt; ", {} | 02: {expected}", rest(&out, answer.written()))?;
    Ok(opened.table)
}

// The same, with what begins the line.
pub(crate) fn opens_part(
    rt: Output,
    what: &str,
    t: Table,
    text: &[u8],
    room: usize,
    expected: u8,
) -> io::Result<Table>
    requires { room ≤ size }
{
    print!(rt; "open {what}: ")?;
    opens_lent(rt, t, text, room, expected)
}

// Opens a text of 42 octets with more room than it needs.
pub(crate) fn opens(
    rt: Output,
    what: &str,
    t: Table,
    text: [u8; SIZE],
    expected: u8,
) -> io::Result<Table> {
    opens_part(rt, what, t, front(&text, 42), SIZE, expected)
}

// Opens what camera i seals under this number, with key n.
pub(crate) fn opens_from(
    rt: Output,
    t: Table,
    i: u8,
    n: u8,
    number: u64,
    expected: u8,
) -> io::Result<Table> {
    let text = heard(i, n, number);
    print!(rt; "open number {number} from camera {i} with key {n}: ")?;
    opens_lent(rt, t, &text[0..42], SIZE, expected)
}

// All counts of a table together, modulo 2^32.
fn sum(t: Table) -> u32 {
    let mut total = t.format_errors;
    for entry in &t.entries {
        let c = entry.receiver.counts;
        total = total
            .wrapping_add(c.format_errors)
            .wrapping_add(c.replays)
            .wrapping_add(c.decrypt_errors)
            .wrapping_add(c.opened);
    }
    total
}

// The sum of the counts, beside the number of openings that were answered neither 1, 6 nor 15.
pub(crate) fn print_sum(rt: Output, t: Table, expected: u8) -> io::Result<()> {
    println!(rt; "counts together: {} | 02: {expected}", sum(t))
}
