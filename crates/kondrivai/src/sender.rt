// A sender's buffer, read and written.
ghost use Rattle.std.specs.Prelude.{◌≡◌};
ghost use Rattle.kondrivai.specs.Layout1.{sender_octets};
ghost use Rattle.kondrivai.specs.Held.{held_sender};

use crate::front::{Kind, is_of, put_front};
use crate::number::{put_octet, put_octets, put_six, six_at};
use ccmp::MOST_KEY_ID;
use octets::octets_at;
use rules::Sender;

pub(crate) const SENDER_OCTETS: usize = 31;

// Where its fields begin.
const KEY_ID: usize = 2;

const ADDRESS: usize = 3;

const KEY: usize = 9;

const LAST: usize = 25;

// The sender that b holds, if it holds one.
pub(crate) fn get_sender(b: &[u8; SENDER_OCTETS]) -> Option<Sender>
    ensures { result ≡ held_sender b.now }
{
    if !is_of(b, Kind::Sender) || MOST_KEY_ID < b[KEY_ID] {
        return None;
    }
    let new = ccmp::new_sender(octets_at(b, KEY), b[KEY_ID], octets_at(b, ADDRESS));
    let last = six_at(b, LAST);
    Some(Sender { last, ..new })
}

// Writes a sender over the whole of b.
pub(crate) fn put_sender(s: Sender, b: &mut [u8; SENDER_OCTETS])
    ensures { b.new ≡ sender_octets s }
{
    put_front(Kind::Sender, b);
    put_octet(s.key_id, b, KEY_ID);
    put_octets(&s.address, b, ADDRESS);
    put_octets(&s.key, b, KEY);
    put_six(s.last, b, LAST);
}
