// A text in pieces.
ghost use Rattle.std.specs.Prelude.{◌≡◌, ◌≤◌, [], ◌++◌, length, take};
ghost use Rattle.book.specs.Limits.{most_kept};
ghost use Rattle.book.specs.Put.{put};
ghost use Rattle.book.specs.Text.{unended};
ghost use Rattle.book.specs.Book.{new_book};
ghost use Rattle.book.specs.Pieces.{says, cut, held, Gave, Enough};

use crate::answer::{
    MOST_ANSWER, MOST_FRAME, MOST_RESULT, first_line, open_line, put_bad, seal_line,
};
use crate::line::{MOST_LINE, Request, request_of};
use crate::put::Page;
use crate::scan::find;
use crate::{Book, Reader, Stage};
use rules::{ADDRESS_OCTETS, KEY_OCTETS};

const LINE_FEED: u8 = 10;

// What is kept of a line that has not ended: one octet more than a line may have, so that one that is too long shows.
pub(crate) const MOST_KEPT: usize = MOST_LINE + 1;

// What a piece of text gave: the reader after it, how much of the piece was taken, and how much was written.
#[derive(Clone, Copy)]
pub struct Fed {
    pub reader: Reader,
    pub taken: usize,
    pub written: usize,
}

// A reader before line 1.
pub fn new_reader() -> Reader
    ensures book_value { result.book ≡ new_book }
    ensures result_value { held result ≡ [] }
{
    let sender = ccmp::new_sender([0; KEY_OCTETS], 0, [0; ADDRESS_OCTETS]);
    let receiver = ccmp::new_receiver([0; KEY_OCTETS], 0, [0; ADDRESS_OCTETS], 0);
    Reader {
        book: Book {
            lines: 0,
            stage: Stage::First,
            sender,
            receiver,
        },
        line: [0; MOST_KEPT],
        length: 0,
    }
}

// Keeps text behind what is kept of the line, as far as there is room, and gives the length of what is kept.
fn keep(line: &mut [u8; MOST_KEPT], kept: usize, text: &[u8]) -> usize
    requires { kept ≤ most_kept }
    ensures upper_bound { result ≤ most_kept }
    ensures line_after { take result line.new ≡ cut (take kept line.old ++ text.now) }
{
    let n = text.len().min(MOST_KEPT - kept);
    let mut page = Page {
        room: line,
        end: kept,
    };
    page.text(&text[..n]);
    page.end
}

// Takes a piece of text, or as much of it as there is room to answer, and writes the answers to the lines that end in it
// into the front of out. Room for MOST_ANSWER octets is enough to go on. A turn of the loop takes a line, so that it counts no index.
pub fn feed(r: Reader, piece: &[u8], out: &mut [u8]) -> Fed
    ensures gave { Gave r.book (held r) (take result.taken piece.now) out.old
        result.reader.book (held result.reader) out.new result.written }
    ensures enough { Enough (length piece.now) result.taken (length out.old) result.written }
{
    let mut frame = [0u8; MOST_FRAME];
    let mut res = [0u8; MOST_RESULT];
    let mut book = r.book;
    let mut line = r.line;
    let mut kept = r.length.min(MOST_KEPT);
    let mut taken = 0;
    let mut page = Page { room: out, end: 0 };
    while taken < piece.len() && MOST_ANSWER <= page.room.len() - page.end {
        let rest = &piece[taken..];
        let Some(n) = find(rest, LINE_FEED) else {
            kept = keep(&mut line, kept, rest);
            taken = piece.len();
            break;
        };
        let end = keep(&mut line, kept, &rest[..n]);
        kept = 0;
        taken += n + 1;
        match book.stage {
            Stage::First => {
                book = first_line(book, &line[..end], &mut page);
            }
            Stage::Going => {
                book.lines = book.lines.wrapping_add(1);
                match request_of(&line[..end], &mut frame) {
                    None => put_bad(book.lines, &mut page),
                    Some(Request::Seal(k)) => {
                        book.sender = seal_line(
                            book.lines,
                            book.sender,
                            &frame[..k],
                            &mut res,
                            &mut page,
                        );
                    }
                    Some(Request::Open(k)) => {
                        book.receiver = open_line(
                            book.lines,
                            book.receiver,
                            &frame[..k],
                            &mut res,
                            &mut page,
                        );
                    }
                }
            }
            Stage::Ended => {}
        }
    }
    Fed {
        reader: Reader {
            book,
            line,
            length: kept,
        },
        taken,
        written: page.end,
    }
}

// The end of the text: writes the answer to a last line without a line feed into the front of out, and gives its length.
pub fn finish(r: Reader, out: &mut [u8; MOST_ANSWER]) -> usize
    ensures value { result ≡ length (says r.book (unended (held r))) }
    ensures upper_bound { result ≤ length out.new }
    ensures out_after { out.new ≡ put 0 (says r.book (unended (held r))) out.old }
{
    if r.length == 0 {
        return 0;
    }
    feed(r, b"\n", out).written
}
