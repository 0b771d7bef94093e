// The frame book: standard input to standard output, in large pieces.
#![tactic(auto)]

ghost use Rattle.std.specs.Prelude.{◌≡◌, ◌≤◌, length, OnOk};
ghost use Rattle.book.specs.Limits.{most_answer, most_kept};
ghost use Rattle.book.specs.Pieces.{after, cut, held, ended, left};

use book::{MOST_ANSWER, Reader, Stage};
use std::io::{Read, Stdin, Stdout, Write};

const PIECE: usize = 65536;

// What failed.
#[derive(Clone, Copy)]
enum Failure {
    Reading,
    Writing,
}

impl Failure {
    fn message(self) -> &'static [u8] {
        match self {
            Failure::Reading => b"framebook: can't read standard input\n",
            Failure::Writing => b"framebook: can't write standard output\n",
        }
    }
}

// Writes the answers to the lines that a piece ends, as much at a time as there is room for. No part of the piece is lost. A turn takes
// what a call took, so that it counts no index.
fn feed_all(
    reader: &mut Reader,
    piece: &[u8],
    out: &mut [u8],
    stdout: &mut Stdout,
) -> Result<(), Failure>
    requires { (length reader.old.line ≡ most_kept) × (most_answer ≤ length out.old) }
    ensures line_kept { length reader.new.line ≡ most_kept }
    ensures book_value { OnOk result (reader.new.book ≡ after reader.old.book (ended (held reader.old) piece.now)) }
    ensures reader_value { OnOk result (held reader.new ≡ cut (left (held reader.old) piece.now)) }
{
    let mut at = 0;
    while at < piece.len() {
        let f = book::feed(*reader, &piece[at..], out);
        at += f.taken;
        *reader = f.reader;
        stdout
            .write_all(&out[..f.written])
            .map_err(|_| Failure::Writing)?;
    }
    Ok(())
}

// Reads to the end of the input, or to a bad line 1. A read or a write that fails ends the run: then a last line without a line feed is
// not answered, since the end of the text was not seen.
fn run(
    piece: &mut [u8],
    out: &mut [u8],
    stdin: &mut Stdin,
    stdout: &mut Stdout,
) -> Result<(), Failure>
    requires { most_answer ≤ length out.old }
{
    let mut reader = book::new_reader();
    for _ in 0..u64::MAX {
        let n = stdin.read(piece).map_err(|_| Failure::Reading)?;
        feed_all(&mut reader, &piece[..n], out, stdout)?;
        if n == 0 || reader.book.stage == Stage::Ended {
            break;
        }
    }
    let mut last = [0u8; MOST_ANSWER];
    let written = book::finish(reader, &mut last);
    stdout
        .write_all(&last[..written])
        .map_err(|_| Failure::Writing)
}

// A failure is told on standard error.
fn main(rt: HostRuntime) {
    let mut piece = [0u8; PIECE];
    let mut out = [0u8; PIECE];
    let mut stdin = rt.stdin();
    let mut stdout = rt.stdout();
    if let Err(failure) = run(&mut piece, &mut out, &mut stdin, &mut stdout) {
        let _ = rt.stderr().write_all(failure.message());
    }
}
