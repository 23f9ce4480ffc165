// What a call answers where it does not do what was asked: each number of the sheet has one name, the same as in
// crates/common/specs/Answers.antt.
#![tactic(auto)]

ghost use Rattle.std.specs.Prelude.{◌≡◌};
ghost use Rattle.answers.specs.Numbers.{number, answer_of};

/// Why a step stops, or a state, an image, a word, a source or a text is refused.
#[derive(Clone, Copy, Debug, PartialEq, Eq)]
pub enum Refusal {
    NoPlace = 2,
    NoInstruction = 3,
    NoArrival = 4,
    LoadOutside = 5,
    StoreOutside = 6,
    StoreForbidden = 7,
    BadSet = 8,
    EmptySet = 9,
    NotWithin = 10,
    NotOwned = 11,
    NoReturn = 12,
    NoNumber = 13,
    BadForm = 14,
    BadOwner = 15,
    StrayBit = 16,
    LoadForbidden = 17,
    BadRows = 18,
    NotWhole = 20,
    BadSize = 21,
    ManyRegisters = 22,
    LastZero = 23,
    BadEntryCount = 24,
    BadEntry = 25,
    BytesLeft = 26,
    LengthsDiffer = 27,
    ShortMemory = 28,
    NoWord = 30,
    ShortBuffer = 31,
    NoLine = 50,
    UnknownLabel = 51,
    LabelTwice = 52,
    ValueOutside = 53,
    TooDeep = 54,
    ManyWords = 55,
    BadRecord = 60,
    BadSum = 61,
    OtherType = 62,
    BeyondMemory = 63,
    ByteTwice = 64,
    AfterEnd = 66,
    NoEnd = 65,
    PartWord = 67,
    NoData = 68,
}

/// Why a text is refused, and the line or the record at fault, counted from 1: 0 where it is none of them.
#[derive(Clone, Copy, Debug, PartialEq, Eq)]
pub struct Fault {
    pub refusal: Refusal,
    pub line: u64,
}

impl From<Refusal> for u32 {
    ghost from_gives = { λ refusal n. n ≡ number refusal };

    fn from(refusal: Refusal) -> u32 {
        refusal as u32
    }
}

/// The number that a result answers: 0, or that of its refusal.
pub fn answer_of<T>(told: &Result<T, Refusal>) -> u32
    ensures { result ≡ answer_of told.now }
{
    match told {
        Ok(_) => DONE,
        Err(refusal) => u32::from(*refusal),
    }
}

// The answers of a step and of a run, which are numbers in the run's loop: 0 and 1 end well, the others are the refusals of the same names.
pub const DONE: u32 = 0;

pub const HALT: u32 = 1;

pub const NO_INSTRUCTION: u32 = 3;

pub const NO_ARRIVAL: u32 = 4;

pub const LOAD_OUTSIDE: u32 = 5;

pub const STORE_OUTSIDE: u32 = 6;

pub const STORE_FORBIDDEN: u32 = 7;

pub const BAD_FORM: u32 = 14;

pub const BAD_OWNER: u32 = 15;

pub const STRAY_BIT: u32 = 16;

pub const LOAD_FORBIDDEN: u32 = 17;

pub const BAD_ROWS: u32 = 18;
