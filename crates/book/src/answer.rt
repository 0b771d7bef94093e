// A book's answer to a line.
ghost use Rattle.std.specs.Prelude.{◌≡◌, ◌≤◌, length};
ghost use Rattle.rules.specs.Sealing.{seal_next};
ghost use Rattle.rules.specs.Opening.{open_next};
ghost use Rattle.book.specs.Limits.{most_answer, most_frame, word_octets};
ghost use Rattle.book.specs.Put.{HasRoom, Writes};
ghost use Rattle.book.specs.Line.{fields};
ghost use Rattle.book.specs.Book.{room_for, bad_line, seal_line, open_line, begun, says_at};
ghost use Rattle.book.specs.Handed.{as_answer, answer_text, octets_written};

use crate::decimal::MOST_DIGITS;
use crate::line::{MOST_LINE, keys_of};
use crate::put::Page;
use crate::{Book, Stage};
use ccmp::{ADDED, SMALL_WINDOW};
use rules::{Receiver, Refusal, Sender};

// The octets of a line's frame at most, of its result, to which sealing adds some, and of the answer: two numbers, a word
// between tabs, a tab, the result's digits and a line feed.
pub(crate) const MOST_FRAME: usize = MOST_LINE / 2;

pub(crate) const MOST_RESULT: usize = MOST_FRAME + ADDED;

const WORD_OCTETS: usize = 6;

pub const MOST_ANSWER: usize = MOST_DIGITS + WORD_OCTETS + MOST_DIGITS + 1 + 2 * MOST_RESULT + 1;

// The answer to a bad line.
#[tactic(auto, using(crate::proofs::Decimals::length_decimal))]
pub(crate) fn put_bad(n: u64, page: &mut Page)
    requires { HasRoom page.old most_answer }
    ensures { Writes page.old (bad_line n) page.new }
{
    page.decimal(n);
    page.text(b"\tbad\n");
}

// A line number, a word between tabs, an answer's number, and the frame, so many octets of the result, or `-`.
#[tactic(auto, using(crate::proofs::Decimals::length_decimal))]
fn put_answer(
    n: u64,
    word: &[u8],
    a: Result<usize, Refusal>,
    res: &[u8; MOST_RESULT],
    page: &mut Page,
)
    requires most_answer_in_bounds { HasRoom page.old most_answer × (length word.now ≡ word_octets) }
    requires a_in_bounds { octets_written (as_answer a) ≤ length res.now }
    ensures { Writes page.old (answer_text n word.now (as_answer a) res.now) page.new }
{
    page.decimal(n);
    page.text(word);
    match a {
        Ok(k) => {
            page.text(b"0\t");
            page.hex(&res[..k]);
            page.text(b"\n");
        }
        Err(refusal) => {
            page.decimal(u64::from(refusal.number()));
            page.text(b"\t-\n");
        }
    }
}

// The answer to a line that asks to seal a frame, and the sender after it. The result is lent for the work. This and the next are
// three lines each, which differ in the call, the word and the definitions of their clauses: one function over both would be longer.
pub(crate) fn seal_line(
    n: u64,
    s: Sender,
    frame: &[u8],
    res: &mut [u8; MOST_RESULT],
    page: &mut Page,
) -> Sender
    requires { HasRoom page.old most_answer × (length frame.now ≤ most_frame) }
    ensures sender_value { result ≡ seal_next s frame.now (room_for frame.now) }
    ensures page_after { Writes page.old (seal_line n s frame.now) page.new }
{
    let sealed = ccmp::seal(s, frame, res);
    put_answer(
        n,
        b"\tseal\t",
        sealed.answer.map(|done| done.octets),
        res,
        page,
    );
    sealed.sender
}

// The same for a line that asks to open a frame.
pub(crate) fn open_line(
    n: u64,
    r: Receiver,
    frame: &[u8],
    res: &mut [u8; MOST_RESULT],
    page: &mut Page,
) -> Receiver
    requires { HasRoom page.old most_answer × (length frame.now ≤ most_frame) }
    ensures receiver_value { result ≡ open_next r frame.now (room_for frame.now) }
    ensures page_after { Writes page.old (open_line n r frame.now) page.new }
{
    let opened = ccmp::open(r, frame, res);
    put_answer(
        n,
        b"\topen\t",
        opened.answer.map(|done| done.octets),
        res,
        page,
    );
    opened.receiver
}

// The book after line 1.
pub(crate) fn first_line(b: Book, line: &[u8], page: &mut Page) -> Book
    requires { HasRoom page.old most_answer }
    ensures book_value { result ≡ begun b (fields line.now) }
    ensures page_after { Writes page.old (says_at Stage.First b (fields line.now)) page.new }
{
    let lines = b.lines.wrapping_add(1);
    let Some(k) = keys_of(line) else {
        put_bad(lines, page);
        return Book {
            lines,
            stage: Stage::Ended,
            ..b
        };
    };
    Book {
        lines,
        stage: Stage::Going,
        sender: ccmp::fresh_sender(k.key, k.key_id, k.own).sender,
        receiver: ccmp::fresh_receiver(k.key, k.key_id, k.peer, SMALL_WINDOW).receiver,
    }
}
