// Splitting.
ghost use Rattle.std.specs.Prelude.{◌≡◌, true, ◌++◌, ◌+◌, ◌≤◌, ◌<◌, min, length, take, drop, IfOk};
ghost use Rattle.rules.specs.Limits.{least_header, most_header, most_fragments};
ghost use Rattle.rules.specs.Header.{header_of, set_fragment};
ghost use Rattle.rules.specs.Mode.{added};
ghost use Rattle.rules.specs.Records.{sound_sender, with_last};
ghost use Rattle.rules.specs.Answers.{told};
ghost use Rattle.rules.specs.Refusals.{answer_of};
ghost use Rattle.rules.specs.Tests.{header_tests};
ghost use Rattle.rules.specs.Sealing.{sealed_frame};
ghost use Rattle.rules.specs.Splitting.{fragments, sealed_frames, sealed_length, unfit, split_tests, split_answer, split_next, split_output, Splittable};
ghost use Rattle.rules.specs.Counts.{bit};
ghost use Rattle.ccmp.specs.Verdict.{Pass, verdict, found};
ghost use Rattle.fragments.specs.Cutting.{Cut, fragment_with, Puts};

use ccmp::{ADDED, MOST_NUMBER, Sealed, header_tests, outside, sound_sender};
use rules::{Header, MOST_MESSAGE, Refusal, Sender, Success};

pub const MOST_FRAGMENTS: usize = 16;

const LEAST_MESSAGE: usize = 1;

const LEAST_SIZE: usize = 16;

pub(crate) const MOST_SIZE: usize = 2296;

// The octets of the longest header.
const MOST_HEADER: usize = 36;

// Test 13, of a size and a message of n octets.
#[tactic(auto, unfolding(rules::specs::Splitting::unfit))]
fn unfit(size: usize, n: usize) -> bool
    ensures { result ≡ unfit size n }
{
    size % 2 != 0
        || outside(LEAST_SIZE, MOST_SIZE, size)
        || outside(LEAST_MESSAGE, MOST_MESSAGE, n)
        || MOST_FRAGMENTS * size < n
}

// A frame and the size of the pieces of its message, which fits it.
#[derive(Clone, Copy)]
struct Pieces<'a> {
    frame: &'a [u8],
    header: Header,
    size: usize,
    ghost is: { header ≡ header_of frame.now },
    ghost least: { least_header ≤ header.length },
    ghost most: { header.length ≤ most_header },
    ghost whole: { header.length ≤ length frame.now },
    ghost cut: { Cut size frame.now header.length },
}

impl Pieces<'_> {
    // How many fragments they make.
    #[tactic(auto, using(crate::proofs::Counting::divided))]
    fn count(self) -> usize
        ensures { result ≡ length (fragments self.entry.size self.entry.frame.now) }
    {
        (self.frame.len() - self.header.length).div_ceil(self.size)
    }

    // The octets that these have once they are sealed.
    fn sealed_length(self) -> usize
        ensures { result ≡ sealed_length (fragments self.entry.size self.entry.frame.now) }
    {
        let h = self.header.length;
        self.frame.len() - h + self.count() * (h + ADDED)
    }

    // Where the piece ends that begins at `at`.
    fn end_of(self, at: usize) -> usize
        requires { at ≤ length self.frame.now }
        ensures { result ≡ min (at + self.entry.size) (length self.entry.frame.now) }
    {
        at + self.size.min(self.frame.len() - at)
    }

    // The header of fragment i, that of the frame with MoreFrag and the fragment number set, in the front of an array with room for the
    // longest: there is no heap.
    fn head(self, more: bool, i: u8) -> [u8; MOST_HEADER]
        requires { i < most_fragments }
        ensures { let h = self.entry.header.length in take h result ≡ set_fragment (take h self.entry.frame.now) (bit more) i }
    {
        let frame = self.frame;
        let mut head = [0u8; MOST_HEADER];
        octets::copy(&frame[..self.header.length], &mut head);
        head[1] = frame[1] & 0xfb | u8::from(more) << 2;
        head[22] = frame[22] & 0xf0 | i;
        head
    }

    // Fragment i, with the octets of the frame from `at` to `end`, sealed into the front of out.
    fn put(self, s: Sender, i: u8, at: usize, end: usize, out: &mut [u8]) -> Sender
        requires { Puts s self.frame.now self.header.length i at end (length out.old) }
        ensures value { result ≡ with_last s (s.last + 1) }
        ensures out_after { let f = fragment_with self.entry.frame.now self.entry.header.length i at end in
            out.new ≡ sealed_frame s (s.last + 1) f ++ drop (length f + added) out.old }
    {
        let frame = self.frame;
        let head = self.head(end < frame.len(), i);
        ccmp::seal_parts(s, &head[..self.header.length], &frame[at..end], out).sender
    }

    // All fragments sealed, one after another, into the front of out.
    fn put_all(self, s: Sender, out: &mut [u8]) -> Sender
        requires { Splittable s self.size self.frame.now × (sealed_length (fragments self.size self.frame.now) ≤ length out.old) }
        ensures value { result ≡ with_last s (s.last + length (fragments self.entry.size self.entry.frame.now)) }
        ensures out_after { let all = fragments self.entry.size self.entry.frame.now in
            out.new ≡ sealed_frames s (s.last + 1) all ++ drop (sealed_length all) out.old }
    {
        let h = self.header.length;
        let mut sender = s;
        let mut written: usize = 0;
        for i in 0..self.count() {
            let at = h + i * self.size;
            let end = self.end_of(at);
            sender = self.put(sender, i as u8, at, end, &mut out[written..]);
            written += h + (end - at) + ADDED;
        }
        sender
    }
}

// Tests 13, 6, 7 and 12, after those of the record and of the header.
fn later_tests(
    s: Sender,
    size: usize,
    frame: &[u8],
    header: Header,
    room: usize,
) -> Result<Pieces<'_>, Refusal>
    requires { (sound_sender s ≡ true) × (Pass header ≡ verdict (header_tests 1 frame.now) (header_of frame.now)) }
    ensures found { found (λ x. x.header) result ≡ verdict (split_tests s size frame.now room) (header_of frame.now) }
    ensures lent { IfOk result (λ x. (x.frame.now ≡ frame.now) × (x.size ≡ size)) }
{
    if unfit(size, frame.len() - header.length) {
        return Err(Refusal::Split);
    }
    let pieces = Pieces {
        frame,
        header,
        size,
    };
    if room < pieces.sealed_length() {
        return Err(Refusal::Room);
    }
    if !octets::equal(&frame[10..16], &s.address) {
        return Err(Refusal::Address);
    }
    if MOST_NUMBER - s.last < pieces.count() as u64 {
        return Err(Refusal::Spent);
    }
    Ok(pieces)
}

// The tests of splitting.
fn split_tests(s: Sender, size: usize, frame: &[u8], room: usize) -> Result<Pieces<'_>, Refusal>
    ensures found { found (λ x. x.header) result ≡ verdict (split_tests s size frame.now room) (header_of frame.now) }
    ensures lent { IfOk result (λ x. (x.frame.now ≡ frame.now) × (x.size ≡ size)) }
{
    if !sound_sender(s) {
        return Err(Refusal::Record);
    }
    let header = header_tests(frame, 1)?;
    later_tests(s, size, frame, header, room)
}

// Splits the message of a plain frame at a size and seals its fragments into the front of out, under the sender's next
// numbers; the rest of out is kept. Done names the first number and all octets written. A refusal writes nothing and leaves
// the sender as it was.
pub fn split(s: Sender, size: usize, frame: &[u8], out: &mut [u8]) -> Sealed
    ensures answer_value { told (answer_of result.answer) ≡ told (split_answer s size frame.now out.old) }
    ensures sender_value { result.sender ≡ split_next s size frame.now out.old }
    ensures out_after { out.new ≡ split_output s size frame.now out.old }
{
    match split_tests(s, size, frame, out.len()) {
        Err(refusal) => Sealed {
            answer: Err(refusal),
            sender: s,
        },
        Ok(pieces) => {
            let sender = pieces.put_all(s, out);
            let answer = Ok(Success {
                number: s.last + 1,
                priority: pieces.header.priority,
                octets: pieces.sealed_length(),
            });
            Sealed { answer, sender }
        }
    }
}
