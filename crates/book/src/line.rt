// The forms of a line.
ghost use Rattle.std.specs.Prelude.{◌≡◌, ◌≤◌, true, is_some, IfSome};
ghost use Rattle.book.specs.Limits.{most_frame};
ghost use Rattle.book.specs.Line.{fields, is_key_line, asked};
ghost use Rattle.book.specs.Handed.{request_in, frame_in, KeyTabs, Given};

use crate::answer::MOST_FRAME;
use crate::hex::{digit_of, read_array, read_hex};
use ccmp::MOST_KEY_ID;
use rules::{ADDRESS_OCTETS, KEY_OCTETS};

const TAB: u8 = 9;

// The octets of a line without its line feed.
pub(crate) const MOST_LINE: usize = 16000;

// The fields of a good line 1, each after a tab: `key`, key, key ID, own address, peer address.
const WORD_END: usize = 3;

const KEY_AT: usize = WORD_END + 1;

const KEY_END: usize = KEY_AT + 2 * KEY_OCTETS;

const KEY_ID_AT: usize = KEY_END + 1;

const KEY_ID_END: usize = KEY_ID_AT + 1;

const OWN_AT: usize = KEY_ID_END + 1;

const OWN_END: usize = OWN_AT + 2 * ADDRESS_OCTETS;

const PEER_AT: usize = OWN_END + 1;

const PEER_END: usize = PEER_AT + 2 * ADDRESS_OCTETS;

// Where the digits of a later line begin, after `seal` or `open` and a tab.
const DIGITS_AT: usize = 5;

// What a later line asks, its frame being so many octets.
#[derive(Clone, Copy)]
pub(crate) enum Request {
    Seal(usize),
    Open(usize),
}

// What a good line 1 gives.
#[derive(Clone, Copy)]
pub(crate) struct Keys {
    pub(crate) key: [u8; KEY_OCTETS],
    pub(crate) key_id: u8,
    pub(crate) own: [u8; ADDRESS_OCTETS],
    pub(crate) peer: [u8; ADDRESS_OCTETS],
}

// What a line after the first asks, where it asks something. Its frame goes into the front of `frame`.
pub(crate) fn request_of(line: &[u8], frame: &mut [u8; MOST_FRAME]) -> Option<Request>
    ensures frame_after { request_in result frame.new ≡ asked (fields line.now) }
    ensures result_bound { frame_in result ≤ most_frame }
{
    if MOST_LINE < line.len() {
        return None;
    }
    let (word, digits) = line.split_at_checked(DIGITS_AT)?;
    if octets::equal(word, b"seal\t") {
        return Some(Request::Seal(read_hex(digits, frame)?));
    }
    if octets::equal(word, b"open\t") {
        return Some(Request::Open(read_hex(digits, frame)?));
    }
    None
}

// Whether the tabs stand as in a good line 1.
fn is_parted(line: &[u8]) -> bool
    ensures key_tabs { result ≡ true → KeyTabs line.now }
    ensures value { is_key_line (fields line.now) ≡ true → result ≡ true }
{
    line.len() == PEER_END
        && octets::find(line, TAB) == Some(WORD_END)
        && octets::find(&line[KEY_AT..], TAB) == Some(KEY_END - KEY_AT)
        && octets::find(&line[KEY_ID_AT..], TAB) == Some(KEY_ID_END - KEY_ID_AT)
        && octets::find(&line[OWN_AT..], TAB) == Some(OWN_END - OWN_AT)
}

// What line 1 gives, where it is good.
pub(crate) fn keys_of(line: &[u8]) -> Option<Keys>
    ensures good_value { is_some result ≡ is_key_line (fields line.now) }
    ensures given { IfSome result (Given (fields line.now)) }
{
    if !is_parted(line) || !octets::equal(&line[..WORD_END], b"key") {
        return None;
    }
    let key = read_array(&line[KEY_AT..KEY_END])?;
    let key_id = digit_of(line[KEY_ID_AT]);
    if MOST_KEY_ID < key_id {
        return None;
    }
    let own = read_array(&line[OWN_AT..OWN_END])?;
    let peer = read_array(&line[PEER_AT..PEER_END])?;
    Some(Keys {
        key,
        key_id,
        own,
        peer,
    })
}
