// Frames sealed and opened through the entry that is found.
ghost use Rattle.std.specs.Prelude.{◌≡◌, ◌<◌, IfOk};
ghost use Rattle.rules.specs.Limits.{table_entries};
ghost use Rattle.rules.specs.Header.{header_of};
ghost use Rattle.rules.specs.Answers.{told};
ghost use Rattle.rules.specs.Refusals.{answer_of};
ghost use Rattle.rules.specs.Serving.{seal_place, open_place, table_seal_tests, table_seal_answer, table_seal_next, table_seal_output, table_open_tests, table_open_answer, table_open_next, table_open_output};
ghost use Rattle.ccmp.specs.Verdict.{verdict, verdict_of};
ghost use Rattle.table.specs.Forms.{form_tests, seal_forms, open_forms};
ghost use Rattle.table.specs.Places.{place_after, place_result};

use crate::Answered;
use crate::entry::sender_of;
use crate::search::place_of;
use crate::sound::sound_table;
use ccmp::{ADDED, FORMAT_COUNT, LEAST_BODY, MOST_BODY, count_of, counted, header_tests, outside};
use octets::octets_at;
use rules::{Header, Refusal, Success, Table, Triple};

// Tests 1 to 5: of the table, of the header and of the octets after it. `wrong` is what Protected must not be.
fn form_tests(
    t: &Table,
    frame: &[u8],
    wrong: u8,
    least: usize,
    most: usize,
) -> Result<Header, Refusal>
    ensures { verdict_of result ≡ verdict (form_tests t.now wrong least most frame.now) (header_of frame.now) }
{
    if !sound_table(t) {
        return Err(Refusal::Record);
    }
    let header = header_tests(frame, wrong)?;
    if outside(least, most, frame.len() - header.length) {
        return Err(Refusal::Body);
    }
    Ok(header)
}

// Tests 1 to 6 of sealing, in a room of so many octets.
fn seal_tests(t: &Table, frame: &[u8], room: usize) -> Result<Header, Refusal>
    ensures { verdict_of result ≡ verdict (seal_forms t.now frame.now room) (header_of frame.now) }
{
    let header = form_tests(t, frame, 1, LEAST_BODY, MOST_BODY)?;
    if room < frame.len() + ADDED {
        return Err(Refusal::Room);
    }
    Ok(header)
}

// Tests 1 to 8 of opening, in a room of so many octets.
fn open_tests(t: &Table, frame: &[u8], room: usize) -> Result<Header, Refusal>
    ensures { verdict_of result ≡ verdict (open_forms t.now frame.now room) (header_of frame.now) }
{
    let header = form_tests(t, frame, 0, LEAST_BODY + ADDED, MOST_BODY + ADDED)?;
    if room < frame.len() - ADDED {
        return Err(Refusal::Room);
    }
    if frame[header.length + 3] & 0x20 == 0 {
        return Err(Refusal::ExtIv);
    }
    Ok(header)
}

// The place of the entry that seals a frame: of its A2, its A1 and this key ID.
fn seal_place(t: &Table, key_id: u8, frame: &[u8], room: usize) -> Result<usize, Refusal>
    ensures value { place_result result ≡ place_after (table_seal_tests t.now key_id frame.now room) (seal_place t.now key_id frame.now) }
    ensures bound { IfOk result (λ i. i < table_entries) }
{
    seal_tests(t, frame, room)?;
    let own = octets_at(frame, 10);
    let peer = octets_at(frame, 4);
    match place_of(t, &Triple { own, peer, key_id }) {
        Some(i) if t.entries[i].may_send => Ok(i),
        _ => Err(Refusal::Entry),
    }
}

// The place of the entry that opens a frame: of its A1, its A2 and its key ID.
fn open_place(t: &Table, frame: &[u8], room: usize) -> Result<usize, Refusal>
    ensures { place_result result ≡ place_after (table_open_tests t.now frame.now room) (open_place t.now frame.now) }
{
    let header = open_tests(t, frame, room)?;
    let own = octets_at(frame, 4);
    let peer = octets_at(frame, 10);
    let key_id = frame[header.length + 3] >> 6;
    match place_of(t, &Triple { own, peer, key_id }) {
        Some(i) if t.entries[i].may_receive => Ok(i),
        _ => Err(Refusal::Entry),
    }
}

// What `seal` does, on a table where it lies. `open` has no such function: it counts a refusal before it hands it on.
fn seal_through(t: &mut Table, key_id: u8, frame: &[u8], out: &mut [u8]) -> Result<Success, Refusal>
    ensures answer_value { told (answer_of result) ≡ told (table_seal_answer t.old key_id frame.now out.old) }
    ensures table_value { t.new ≡ table_seal_next t.old key_id frame.now out.old }
    ensures out_after { out.new ≡ table_seal_output t.old key_id frame.now out.old }
{
    let i = seal_place(t, key_id, frame, out.len())?;
    let sealed = ccmp::seal(sender_of(&t.entries[i]), frame, out);
    t.entries[i].last = sealed.sender.last;
    sealed.answer
}

// Seals a plain frame into the front of out through the entry of its A2, its A1 and this key ID, under the entry's next
// number; the rest of out is kept. A refusal writes nothing and leaves the table as it was.
pub fn seal(mut t: Table, key_id: u8, frame: &[u8], out: &mut [u8]) -> Answered
    ensures answer_value { told (answer_of result.answer) ≡ told (table_seal_answer t key_id frame.now out.old) }
    ensures table_value { result.table ≡ table_seal_next t key_id frame.now out.old }
    ensures out_after { out.new ≡ table_seal_output t key_id frame.now out.old }
{
    let answer = seal_through(&mut t, key_id, frame, out);
    Answered { answer, table: t }
}

// Opens a sealed frame into the front of out through the entry of its A1, its A2 and its key ID; the rest of out is kept. A
// refusal writes nothing, and of the table it moves one count at most.
pub fn open(mut t: Table, frame: &[u8], out: &mut [u8]) -> Answered
    ensures answer_value { told (answer_of result.answer) ≡ told (table_open_answer t frame.now out.old) }
    ensures table_value { result.table ≡ table_open_next t frame.now out.old }
    ensures out_after { out.new ≡ table_open_output t frame.now out.old }
{
    let answer = match open_place(&t, frame, out.len()) {
        Ok(i) => {
            let opened = ccmp::open(t.entries[i].receiver, frame, out);
            t.entries[i].receiver = opened.receiver;
            opened.answer
        }
        Err(refusal) => {
            t.format_errors = counted(FORMAT_COUNT, count_of(refusal.number()), t.format_errors);
            Err(refusal)
        }
    };
    Answered { answer, table: t }
}
