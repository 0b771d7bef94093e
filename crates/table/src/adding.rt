// Entries added and removed.
ghost use Rattle.std.specs.Prelude.{◌≡◌};
ghost use Rattle.rules.specs.Answers.{told};
ghost use Rattle.rules.specs.Refusals.{answer_of};
ghost use Rattle.rules.specs.Table.{fresh_table};
ghost use Rattle.rules.specs.Adding.{add_place, add_answer, add_next, remove_answer, remove_next};
ghost use Rattle.table.specs.Places.{found};

use crate::Answered;
use crate::entry::{free_entry, new_entry};
use crate::search::{free_place, key_place, place_of};
use crate::sound::sound_table;
use ccmp::receiver_fits;
use rules::{ENTRIES, Pairing, Refusal, Success, Table, Triple};

// A table with no entry in use.
pub fn new_table() -> Table
    ensures { result ≡ fresh_table }
{
    Table {
        entries: [free_entry(); ENTRIES],
        format_errors: 0,
    }
}

// The place that adding takes: that of a present triple, or else the first free one.
fn add_place(t: &Table, x: &Triple) -> Option<usize>
    ensures { result ≡ found t.now (add_place t.now x.now) }
{
    place_of(t, x).or_else(|| free_place(t))
}

// Adds an entry with nothing sealed and nothing opened yet, or restarts the one of a present triple with a new key. A
// refusal leaves the table as it was.
pub fn add(mut t: Table, x: Pairing) -> Answered
    ensures answer_value { told (answer_of result.answer) ≡ told (add_answer t x) }
    ensures table_value { result.table ≡ add_next t x }
{
    let answer = if !sound_table(&t) {
        Err(Refusal::Record)
    } else if !receiver_fits(x.triple.key_id, x.size) {
        Err(Refusal::Record)
    } else if key_place(&t, &x.key).is_some() {
        Err(Refusal::KnownKey)
    } else if let Some(i) = add_place(&t, &x.triple) {
        t.entries[i] = new_entry(&x);
        Ok(Success::NO_FRAME)
    } else {
        Err(Refusal::Full)
    };
    Answered { answer, table: t }
}

// Removes the entry of a triple. A refusal leaves the table as it was.
pub fn remove(mut t: Table, x: Triple) -> Answered
    ensures answer_value { told (answer_of result.answer) ≡ told (remove_answer t x) }
    ensures table_value { result.table ≡ remove_next t x }
{
    let answer = if !sound_table(&t) {
        Err(Refusal::Record)
    } else if let Some(i) = place_of(&t, &x) {
        t.entries[i] = free_entry();
        Ok(Success::NO_FRAME)
    } else {
        Err(Refusal::Entry)
    };
    Answered { answer, table: t }
}
