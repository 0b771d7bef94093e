// Document 01's frame book: a text of lines in, a line of answer for each, however the text comes in pieces.
#![tactic(auto)]

use pieces::MOST_KEPT;
use rules::{Receiver, Sender};

mod put; // put.rt: the page that answers are written on
mod scan; // scan.rt: the search for an octet
mod hex; // hex.rt: hexadecimal
mod decimal; // decimal.rt: a number in decimal digits
mod line; // line.rt: the forms of a line
mod answer; // answer.rt: a book's answer to a line
mod pieces; // pieces.rt: a text in pieces

pub use answer::MOST_ANSWER;
pub use pieces::{Fed, feed, finish, new_reader};

// Before line 1, after a good one, and after a bad one, which ends the run.
#[derive(Clone, Copy, PartialEq, Eq)]
pub enum Stage {
    First,
    Going,
    Ended,
}

// The book between two lines.
#[derive(Clone, Copy)]
pub struct Book {
    // The lines read so far.
    pub lines: u64,
    pub stage: Stage,
    pub sender: Sender,
    pub receiver: Receiver,
}

// A book and the front of the line that has not ended yet, beside its length: `feed` is promised of every reader, also of one whose
// length is beyond its line.
#[derive(Clone, Copy)]
pub struct Reader {
    pub book: Book,
    pub line: [u8; MOST_KEPT],
    pub length: usize,
}
