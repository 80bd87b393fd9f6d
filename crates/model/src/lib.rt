// The kinds of expression, the numbers and the loader that the definitions and the code share.
#![tactic(auto)]

ghost use Rattle.std.specs.Prelude.{◌≡◌};
ghost use Rattle.model.specs.Refusals.{refusal_number, refusal_in};

// The numbers of 32 bits; those of 16 bits, half of them, and the least signed one.
pub const WIDE: u64 = 4294967296;

pub const WIDE16: u64 = 65536;

pub const HALF16: u16 = 32768;

pub const LEAST16: i32 = -32768;

// The flags, times and variables of a save (01, Save).
pub const FLAGS: usize = 2048;

pub const TIMES: usize = 8;

pub const VARIABLES: usize = 1024;

pub type Variables = [i32; VARIABLES];

// The bytes that the program slots reads, a stage (01, Program slots).
pub const INPUT: usize = 65536;

// Kinds with two operands.
#[derive(Clone, Copy)]
pub enum Op2 {
    Equal,
    NotEqual,
    Less,
    LessEqual,
    Greater,
    GreaterEqual,
    Add,
    Subtract,
    BitAnd,
    BitOr,
}

// Kinds with one operand.
#[derive(Clone, Copy)]
pub enum Op1 {
    Not,
    Flag,
    Variable,
    Item,
    Atc,
    Time,
}

// Every kind, as a node of an expression has it.
#[derive(Clone, Copy)]
pub enum Kind {
    Two(Op2),
    One(Op1),
    Imm16,
    Imm32,
    Other,
}

// Numbers that must not be mixed up: a block number is never taken where an item or atc id is due.
#[derive(Clone, Copy)]
pub struct BlockNo(pub u32);

// A block's next or else as its word in the script has it: 0 for none, k + 1 for block k.
#[derive(Clone, Copy)]
pub struct Link(pub u16);

#[derive(Clone, Copy)]
pub struct ItemId(pub u16);

#[derive(Clone, Copy)]
pub struct AtcId(pub u16);

// What loads a compiled script: each has its limits (02, A.6).
#[derive(Clone, Copy)]
pub enum Loader {
    Disc,
    Demo,
}

// Why a call refuses, each reason with the number that documents 01 and 02 give it.
#[derive(Clone, Copy, Debug, PartialEq, Eq)]
pub enum Refusal {
    BadSheet = 1,
    BadImage = 2,
    OverLimit = 3,
    TooDeep = 4,
    NoSuchLink = 5,
    NotBlock = 6,
    NotCode = 7,
    BadShop = 8,
    NoRoom = 9,
    ParseNotCode = 10,
    ParseTooMany = 11,
    BadSave = 12,
    MetOther = 13,
    NoNext = 14,
    BudgetSpent = 15,
    SliceShort = 16,
    BornLater = 17,
    BadRoots = 18,
    DemoFull = 19,
    NoUser = 20,
    NoRight = 21,
    BadWalk = 22,
    NoFlag = 23,
    BadTariff = 24,
    BadBasket = 25,
    TooManyWishes = 26,
    NoSuchWish = 27,
    BadMoney = 28,
}

impl Refusal {
    // Its number, for callers that take numbers.
    pub fn number(self) -> u8
        ensures { result ≡ refusal_number self }
    {
        self as u8
    }
}

// The number of the refusal of a call that has no other answer, 0 where it accepts.
pub fn refusal_in(answer: Result<(), Refusal>) -> u8
    ensures { result ≡ refusal_in answer }
{
    match answer {
        Ok(()) => 0,
        Err(refusal) => refusal.number(),
    }
}
