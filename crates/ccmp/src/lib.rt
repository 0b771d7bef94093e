// Document 01's frames sealed and opened, proved equal to the rules.
#![tactic(auto)]

use rules::{Receiver, Refusal, Sender, Success};

mod frame; // frame.rt: a frame and its header
mod number; // number.rt: the CCMP header written
mod window; // window.rt: the replay windows
mod record; // record.rt: the two records
mod mode; // mode.rt: CCM over AES
mod verdict; // verdict.rt: the tests of the header
mod sealing; // sealing.rt: a plain frame sealed
mod opening; // opening.rt: a sealed frame opened

pub use mode::ADDED;
pub use opening::open;
pub use record::{
    FORMAT_COUNT, MOST_KEY_ID, MOST_NUMBER, count_of, counted, fresh_receiver, fresh_sender,
    new_receiver, new_sender, receiver_fits, sound_receiver, sound_sender,
};
pub use sealing::{LEAST_BODY, MOST_BODY, seal, seal_parts};
pub use verdict::{header_tests, outside};
pub use window::{LARGE_WINDOW, SMALL_WINDOW};

// What a call on a sender answers, and the sender afterwards.
#[derive(Clone, Copy)]
pub struct Sealed {
    pub answer: Result<Success, Refusal>,
    pub sender: Sender,
}

// What a call on a receiver answers, and the receiver afterwards.
#[derive(Clone, Copy)]
pub struct Opened {
    pub answer: Result<Success, Refusal>,
    pub receiver: Receiver,
}
