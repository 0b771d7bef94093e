// Entries looked for.
ghost use Rattle.std.specs.Prelude.{◌≡◌, ◌<◌, IfSome};
ghost use Rattle.rules.specs.Limits.{table_entries};
ghost use Rattle.rules.specs.Table.{place_of};
ghost use Rattle.rules.specs.Adding.{key_place, free_place};
ghost use Rattle.table.specs.Places.{found};

use crate::entry::{has_key, is_for};
use rules::{KEY_OCTETS, Table, Triple};

// The place of the entry of a triple.
pub(crate) fn place_of(t: &Table, x: &Triple) -> Option<usize>
    ensures value { result ≡ found t.now (place_of t.now x.now) }
    ensures bound { IfSome result (λ i. i < table_entries) }
{
    t.entries.iter().position(|e| is_for(x, e))
}

// The first place of an entry with a key.
pub(crate) fn key_place(t: &Table, key: &[u8; KEY_OCTETS]) -> Option<usize>
    ensures { result ≡ found t.now (key_place t.now key.now) }
{
    t.entries.iter().position(|e| has_key(key, e))
}

// The first place that is free.
pub(crate) fn free_place(t: &Table) -> Option<usize>
    ensures { result ≡ found t.now (free_place t.now) }
{
    t.entries.iter().position(|e| !e.used)
}
