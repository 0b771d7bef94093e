// One entry of a table.
ghost use Rattle.std.specs.Prelude.{◌≡◌};
ghost use Rattle.octets.specs.Octets.{same};
ghost use Rattle.rules.specs.Table.{sender_of, triple_of, new_entry, free_entry, is_for, has_key, clash, sound_entry};

use rules::{ADDRESS_OCTETS, Entry, KEY_OCTETS, Pairing, Sender, Triple};

pub(crate) fn sender_of(e: &Entry) -> Sender
    ensures { result ≡ sender_of e.now }
{
    Sender {
        key: e.receiver.key,
        key_id: e.receiver.key_id,
        address: e.own,
        last: e.last,
    }
}

fn triple_of(e: &Entry) -> Triple
    ensures { result ≡ triple_of e.now }
{
    Triple {
        own: e.own,
        peer: e.receiver.peer,
        key_id: e.receiver.key_id,
    }
}

// An entry with nothing sealed and nothing opened yet.
pub(crate) fn new_entry(x: &Pairing) -> Entry
    ensures { result ≡ new_entry x.now }
{
    Entry {
        used: true,
        may_send: x.may_send,
        may_receive: x.may_receive,
        own: x.triple.own,
        last: 0,
        receiver: ccmp::new_receiver(x.key, x.triple.key_id, x.triple.peer, x.size),
    }
}

pub(crate) fn free_entry() -> Entry
    ensures { result ≡ free_entry }
{
    Entry {
        used: false,
        may_send: false,
        may_receive: false,
        own: [0; ADDRESS_OCTETS],
        last: 0,
        receiver: ccmp::new_receiver([0; KEY_OCTETS], 0, [0; ADDRESS_OCTETS], 0),
    }
}

// Whether it is in use for this triple.
#[tactic(auto, unfolding(rules::specs::Table::is_for))]
pub(crate) fn is_for(x: &Triple, e: &Entry) -> bool
    ensures { result ≡ is_for x.now e.now }
{
    e.used && *x == triple_of(e)
}

// Keys are compared as one number each: `==` of arrays would branch on their octets.
fn same_key(a: &[u8; KEY_OCTETS], b: &[u8; KEY_OCTETS]) -> bool
    ensures { result ≡ same a.now b.now }
{
    u128::from_le_bytes(*a) == u128::from_le_bytes(*b)
}

// Whether it is in use with this key.
#[tactic(auto, unfolding(rules::specs::Table::has_key))]
pub(crate) fn has_key(key: &[u8; KEY_OCTETS], e: &Entry) -> bool
    ensures { result ≡ has_key key.now e.now }
{
    e.used && same_key(key, &e.receiver.key)
}

// Whether both are in use, with one triple or one key.
#[tactic(auto, unfolding(rules::specs::Table::clash))]
pub(crate) fn clashes(a: &Entry, b: &Entry) -> bool
    ensures { result ≡ clash a.now b.now }
{
    a.used && (is_for(&triple_of(a), b) || has_key(&a.receiver.key, b))
}

#[tactic(auto, unfolding(rules::specs::Table::sound_entry))]
pub(crate) fn sound_entry(e: &Entry) -> bool
    ensures { result ≡ sound_entry e.now }
{
    !e.used || ccmp::sound_sender(sender_of(e)) && ccmp::sound_receiver(e.receiver)
}
