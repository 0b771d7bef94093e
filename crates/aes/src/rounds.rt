// FIPS 197, section 5.1: the rounds, on a state of four columns.
ghost use Rattle.std.specs.Prelude.{◌≡◌, [], ◌∷◌, ◌/◌, ◌%◌, ◌≤◌};
ghost use Rattle.aes.specs.Cipher.{sub_bytes, shift_rows, mix_columns, add_round_key, cipher};
ghost use Rattle.aes.specs.Word.{bytes, bytes_of, Products};

use crate::column::{mix_word, sub_word};
use crate::word::{pack, unpack, word_at};

// The four columns.
#[derive(Clone, Copy)]
pub struct State {
    pub a: u32,
    pub b: u32,
    pub c: u32,
    pub d: u32,
}

impl State {
    // What f makes of each column.
    fn map<F: Fn(u32) -> u32>(self, f: F) -> State
        requires { F.IsAlwaysCallable f }
        ensures a { F.post f self.a result.a }
        ensures b { F.post f self.b result.b }
        ensures c { F.post f self.c result.c }
        ensures d { F.post f self.d result.d }
    {
        State {
            a: f(self.a),
            b: f(self.b),
            c: f(self.c),
            d: f(self.d),
        }
    }
}

pub fn load(block: [u8; 16]) -> State
    ensures { bytes_of result ≡ block }
{
    State {
        a: word_at(&block, 0),
        b: word_at(&block, 1),
        c: word_at(&block, 2),
        d: word_at(&block, 3),
    }
}

pub fn store(s: State) -> [u8; 16]
    ensures { result ≡ bytes_of s }
{
    let [a0, a1, a2, a3] = unpack(s.a);
    let [b0, b1, b2, b3] = unpack(s.b);
    let [c0, c1, c2, c3] = unpack(s.c);
    let [d0, d1, d2, d3] = unpack(s.d);
    [
        a0, a1, a2, a3, b0, b1, b2, b3, c0, c1, c2, c3, d0, d1, d2, d3,
    ]
}

// Not by `map`: each column takes a word of its own, and in shift_rows bytes of all four.
fn add_round_key(w: &[u8; 176], n: usize, s: State) -> State
    requires { n ≤ 10 }
    ensures { bytes_of result ≡ add_round_key w.now n (bytes_of s) }
{
    State {
        a: s.a ^ word_at(w, 4 * n + 0),
        b: s.b ^ word_at(w, 4 * n + 1),
        c: s.c ^ word_at(w, 4 * n + 2),
        d: s.d ^ word_at(w, 4 * n + 3),
    }
}

// A column after ShiftRows: row 0 of the first of four columns, row 1 of the second, and so on.
fn shifted(a: u32, b: u32, c: u32, d: u32) -> u32
    ensures { bytes result ≡ a % 256 ∷ b / 256 % 256 ∷ c / 65536 % 256 ∷ d / 16777216 ∷ [] }
{
    pack([unpack(a)[0], unpack(b)[1], unpack(c)[2], unpack(d)[3]])
}

fn shift_rows(s: State) -> State
    ensures { bytes_of result ≡ shift_rows (bytes_of s) }
{
    let State { a, b, c, d } = s;
    State {
        a: shifted(a, b, c, d),
        b: shifted(b, c, d, a),
        c: shifted(c, d, a, b),
        d: shifted(d, a, b, c),
    }
}

fn sub_bytes(t: &[u64; 256], s: State) -> State
    ensures { Products t.now → bytes_of result ≡ sub_bytes (bytes_of s) }
{
    s.map(|x| sub_word(t, x))
}

// SubBytes and MixColumns.
fn mix_columns(t: &[u64; 256], s: State) -> State
    ensures { Products t.now → bytes_of result ≡ mix_columns (sub_bytes (bytes_of s)) }
{
    s.map(|x| mix_word(t, x))
}

// Round n. ShiftRows comes before SubBytes, with which it commutes.
// The table and the schedule stay two parameters: a struct of the two would be made in each public function, and read by two private ones.
fn round(t: &[u64; 256], w: &[u8; 176], n: usize, s: State) -> State
    requires { n ≤ 10 }
    ensures { Products t.now → bytes_of result ≡ add_round_key w.now n (mix_columns (shift_rows (sub_bytes (bytes_of s)))) }
{
    add_round_key(w, n, mix_columns(t, shift_rows(s)))
}

// The tenth mixes no columns.
fn last_round(t: &[u64; 256], w: &[u8; 176], s: State) -> State
    ensures { Products t.now → bytes_of result ≡ add_round_key w.now 10 (shift_rows (sub_bytes (bytes_of s))) }
{
    add_round_key(w, 10, sub_bytes(t, shift_rows(s)))
}

// Cipher, of ten rounds, under the key schedule w. Where t is not the table of products nothing is said of what it gives.
pub fn encrypt(t: &[u64; 256], w: &[u8; 176], block: State) -> State
    ensures { Products t.now → bytes_of result ≡ cipher 10 w.now (bytes_of block) }
{
    let mut s = add_round_key(w, 0, block);
    for n in 1..10 {
        s = round(t, w, n, s);
    }
    last_round(t, w, s)
}

// Two blocks, encrypted side by side. A struct and no array: the contracts of ccm name `first` and `second`.
#[derive(Clone, Copy)]
pub struct Two {
    pub first: State,
    pub second: State,
}

// Cipher of two blocks in one loop of rounds: while one waits for the table the other is worked on.
// Not made of `encrypt`: two calls took 170 ns for 120, and a function over an array of N blocks, as fast, was longer than both.
pub fn encrypt_two(t: &[u64; 256], w: &[u8; 176], first: State, second: State) -> Two
    ensures first_value { Products t.now → bytes_of result.first ≡ cipher 10 w.now (bytes_of first) }
    ensures second_value { Products t.now → bytes_of result.second ≡ cipher 10 w.now (bytes_of second) }
{
    let mut s = add_round_key(w, 0, first);
    let mut u = add_round_key(w, 0, second);
    for i in 1..10 {
        s = round(t, w, i, s);
        u = round(t, w, i, u);
    }
    Two {
        first: last_round(t, w, s),
        second: last_round(t, w, u),
    }
}
