// Why a call is refused.
ghost use Rattle.std.specs.Prelude.{◌≡◌};
ghost use Rattle.word.specs.Refused.{number, number_of};

// Each has the number of the rules. They are looked for in this order, but for Erased: after SpareBitSet, and before NotCodewords.
#[derive(Clone, Copy, Debug, PartialEq, Eq)]
pub enum Refusal {
    BadN = 1,
    BadInputLength = 2,
    BadOutputLength = 3,
    BadAllowance = 4,
    SpareBitSet = 5,
    NotCodewords = 6,
    Erased = 10,
    // The C host looks for it ahead of all others.
    BadBlockLength = 11,
    // The receiver's own.
    PastFrame = 14,
}

// What C gets where nothing is refused.
pub const DONE: u32 = 0;

// No refusals: the numbers that C gets for the two endings of decoding that hand nothing out.
pub const STUCK: u32 = 7;

pub const SPENT: u32 = 8;

impl Refusal {
    pub fn number(self) -> u32
        ensures { result ≡ number self }
    {
        self as u32
    }
}

// The number that C gets.
pub fn number_of(outcome: Result<(), Refusal>) -> u32
    ensures { result ≡ number_of outcome }
{
    match outcome {
        Ok(()) => DONE,
        Err(refusal) => refusal.number(),
    }
}
