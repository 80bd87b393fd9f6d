// Requirement codes: a requirement as one number, its kind times 2^32 plus its number plus 2^31, so that the order of codes is the order of requirements.
#![tactic(auto)]

ghost use Rattle.std.specs.Prelude.{◌≡◌, ◌+◌, ◌/◌, ◌<◌};
ghost use Rattle.model.specs.Limits.{wide};
ghost use Rattle.model.specs.Requirement.{number};
ghost use Rattle.shop_codes.specs.Codes.{InRange, shift, unshift, id_of, requirement_of, is_missing, subject, subject_is};

// So many codes has each kind.
pub const KIND: u64 = 4294967296;

// What 0 is moved up to.
pub const ZERO: u64 = 2147483648;

// .. and as a number that may lie below it.
const HALF: i64 = 2147483648;

// Where the codes of HaveAtc and HaveFlag begin; those of HaveItem begin at 0.
pub const HAVE_ATC: u64 = 8589934592;

pub const HAVE_FLAG: u64 = 17179869184;

// An id that no sheet has: the largest has 512 items.
const ON_NO_SHEET: u32 = 512;

// What a requirement is about, had or missing.
#[derive(Clone, Copy, Debug, PartialEq, Eq)]
pub enum Subject {
    Item(u32),
    Atc(u32),
    Flag(i32),
}

// ---- from a code

pub fn kind_of(code: u64) -> u64
    ensures { result ≡ code / wide }
{
    code / KIND
}

// A number moved up, as an id. One below 0 is on no sheet.
fn id_in(m: u64) -> u32
    requires { m < wide }
    ensures { result ≡ id_of (unshift m) }
{
    m.checked_sub(ZERO).map_or(ON_NO_SHEET, |id| id as u32)
}

// .. and as a flag's number.
fn flag_in(m: u64) -> i32
    requires { m < wide }
    ensures { result ≡ unshift m }
{
    (m as i64 - HALF) as i32
}

// A code of no kind stands for an item that is on no sheet.
pub fn subject_of(code: u64) -> Subject
    ensures { subject_is result ≡ subject (requirement_of code) }
{
    let m = code % KIND;
    match code / KIND {
        0..=1 => Subject::Item(id_in(m)),
        2..=3 => Subject::Atc(id_in(m)),
        4..=5 => Subject::Flag(flag_in(m)),
        _ => Subject::Item(ON_NO_SHEET),
    }
}

// The number of a requirement, an id or a flag's.
pub fn number_of(code: u64) -> i32
    ensures { result ≡ number (requirement_of code) }
{
    match subject_of(code) {
        Subject::Item(id) | Subject::Atc(id) => id as i32,
        Subject::Flag(f) => f,
    }
}

// MissingItem, MissingAtc, MissingFlag.
pub fn is_missing(code: u64) -> bool
    ensures { result ≡ is_missing (requirement_of code) }
{
    matches!(code / KIND, 1 | 3 | 5)
}

// ---- to a code

// A number of 32 bits, moved up by 2^31.
pub fn shifted(x: i32) -> u64
    ensures { (result ≡ shift x) × InRange x }
{
    (i64::from(x) + HALF) as u64
}

// From the code of a Have to that of its Missing.
pub fn missing_of(code: u64) -> u64
    requires { code + wide < 18446744073709551616 }
    ensures { result ≡ code + wide }
{
    code + KIND
}
