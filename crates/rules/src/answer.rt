// What a call answers: `Result<Success, Refusal>`.
ghost use Rattle.std.specs.Prelude.{◌≡◌};
ghost use Rattle.rules.specs.Refusals.{refusal_number};

// What a call that was done answers.
#[derive(Clone, Copy, PartialEq, Eq, Debug)]
pub struct Success {
    // The packet number.
    pub number: u64,
    pub priority: u8,
    // The octets written.
    pub octets: usize,
}

impl Success {
    // What a call answers that neither seals nor opens.
    pub const NO_FRAME: Success = Success {
        number: 0,
        priority: 0,
        octets: 0,
    };
}

// The tests by which a call is refused, in the order of the numbers that documents 01 and 02 give them. docs/RULES.md says what each tests.
#[derive(Clone, Copy, PartialEq, Eq, Debug)]
pub enum Refusal {
    Record = 1,
    Short = 2,
    Kind = 3,
    Protected = 4,
    Body = 5,
    Room = 6,
    Address = 7,
    ExtIv = 8,
    KeyId = 9,
    Replay = 10,
    Integrity = 11,
    Spent = 12,
    Split = 13,
    Fragment = 14,
    Entry = 15,
    Full = 16,
    KnownKey = 17,
}

impl Refusal {
    pub fn number(self) -> u8
        ensures { result ≡ refusal_number self }
    {
        self as u8
    }
}
