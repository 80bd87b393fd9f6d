// The reader of a shop's text, the twenty lines that the program slots prints: any bytes in, the shop or the line and the reason of the refusal out.
#![tactic(auto)]

ghost use Rattle.std.specs.Prelude.{◌≡◌, ◌+◌, ◌≤◌, ◌<◌, drop};
ghost use Rattle.model.specs.Limits.{entry_limit, half16, half32};
ghost use Rattle.shop_codes.specs.Codes.{unshift};
ghost use Rattle.text_model.specs.Text.{read_natural, read_signed, read_number, read_item, blank_behind, read_requirement, read_requirements, read_slot, read_text, no_slot, no_item};
ghost use Rattle.text_read.specs.Faults.{fault_number};
ghost use Rattle.text_read.specs.Told.{ByteFound, Stands, DigitAt, BlankAt, Bound, kind_for, ToldNumber, ToldSigned, ToldStart, ToldItem, ToldRequirement, ToldRequirements, ToldLine};
ghost use Rattle.text_read.specs.Shops.{text_shop, text_of};

use model::{HALF16, ItemId, WIDE16};
use shop::{ENTRIES, Row, SLOTS, Shop, Slot, empty_shop};
use shop_codes::{HAVE_FLAG, KIND, ZERO, number_of};

// A limit lies below it.
const HALF: u64 = HALF16 as u64;

// Why a line is none.
#[derive(Clone, Copy, Debug, PartialEq, Eq)]
pub enum Fault {
    NoSlot = 1,
    NoItem = 2,
    NoLimit = 3,
    NoRequirement = 4,
    ManyRequirements = 5,
    NoEnd = 6,
    MoreText = 7,
}

impl Fault {
    // Its number, for callers that take numbers.
    pub fn number(self) -> u8
        ensures { result ≡ fault_number self }
    {
        self as u8
    }
}

// Of a text that is no shop: why, and its line, counted from 1.
#[derive(Clone, Copy, Debug, PartialEq, Eq)]
pub struct BadLine {
    pub line: u8,
    pub reason: Fault,
}

// In each answer: what was read and the place after it.

#[derive(Clone, Copy)]
struct Requirements {
    row: Row,
    len: u8,
    at: usize,
}

// ---- bytes

// The byte at a place: there is none behind the last.
fn byte_at(s: &[u8], at: usize) -> Option<u8>
    ensures { ByteFound s.now at result }
{
    s.get(at).copied()
}

// Whether a byte stands at a place.
fn stands(s: &[u8], at: usize, c: u8) -> bool
    ensures { Stands s.now at c result }
{
    byte_at(s, at) == Some(c)
}

fn digit_at(s: &[u8], at: usize) -> Option<u64>
    ensures { DigitAt s.now at result }
{
    let c = u64::from(byte_at(s, at)?);
    if c < 48 || 57 < c {
        return None;
    }
    Some(c - 48)
}

// The place behind a blank.
fn behind_blank(s: &[u8], at: usize, e: Fault) -> Result<usize, Fault>
    ensures { BlankAt s.now at e result }
{
    if stands(s, at, 32) {
        Ok(at + 1)
    } else {
        Err(e)
    }
}

// ---- numbers

// A number below a bound, in the form that is printed: a 0 in front stands alone.
fn read_natural(s: &[u8], at: usize, bound: u64, e: Fault) -> Result<(u64, usize), Fault>
    requires { Bound bound }
    ensures { ToldNumber s.now (read_natural (fault_number e) bound (drop at s.now)) bound result }
{
    let Some(first) = digit_at(s, at) else {
        return Err(e);
    };
    if first == 0 {
        return Ok((0, at + 1));
    }
    let mut n = first;
    let mut p = at + 1;
    // No range: it ends where no digit stands.
    while let Some(d) = digit_at(s, p) {
        n = 10 * n + d;
        if bound <= n {
            return Err(e);
        }
        p += 1;
    }
    Ok((n, p))
}

// From minus the bound to below it; the value is moved up by 2^31, as in a code.
fn read_signed(s: &[u8], at: usize, bound: u64, e: Fault) -> Result<(u64, usize), Fault>
    requires { Bound bound × (bound ≤ half32) }
    ensures { ToldSigned s.now (read_signed (fault_number e) bound (drop at s.now)) bound result }
{
    if stands(s, at, 45) {
        let (n, after) = read_natural(s, at + 1, bound + 1, e)?;
        if n == 0 {
            return Err(e);
        }
        return Ok((ZERO - n, after));
    }
    let (n, after) = read_natural(s, at, bound, e)?;
    Ok((ZERO + n, after))
}

// ---- a line

// The number of slot i, and a blank.
fn read_start(s: &[u8], at: usize, i: u64) -> Result<usize, Fault>
    ensures { ToldStart s.now (blank_behind no_slot (read_number i (drop at s.now))) result }
{
    let (n, after) = read_natural(s, at, SLOTS as u64, Fault::NoSlot)?;
    if n != i {
        return Err(Fault::NoSlot);
    }
    behind_blank(s, after, Fault::NoSlot)
}

// An item or - for none, and a blank.
fn read_item(s: &[u8], at: usize) -> Result<(Option<ItemId>, usize), Fault>
    ensures { ToldItem s.now (blank_behind no_item (read_item (drop at s.now))) result }
{
    if stands(s, at, 45) {
        let after = behind_blank(s, at + 1, Fault::NoItem)?;
        return Ok((None, after));
    }
    let (n, end) = read_natural(s, at, WIDE16, Fault::NoItem)?;
    let after = behind_blank(s, end, Fault::NoItem)?;
    Ok((Some(ItemId(n as u16)), after))
}

// A limit that was moved up: the number of a flag's code.
fn limit_of(m: u64) -> i16
    requires { (half32 ≤ m + half16) × (m < half32 + half16) }
    ensures { result ≡ unshift m }
{
    number_of(HAVE_FLAG + m) as i16
}

// The kind of requirement of a letter.
fn kind_for(c: u8) -> Option<u64>
    ensures { result ≡ kind_for c }
{
    match c {
        73 => Some(0),
        105 => Some(1),
        65 => Some(2),
        97 => Some(3),
        70 => Some(4),
        102 => Some(5),
        _ => None,
    }
}

// A requirement by its code.
fn read_requirement(s: &[u8], at: usize) -> Result<(u64, usize), Fault>
    ensures { ToldRequirement s.now (read_requirement (drop at s.now)) result }
{
    let Some(letter) = byte_at(s, at) else {
        return Err(Fault::NoRequirement);
    };
    let Some(kind) = kind_for(letter) else {
        return Err(Fault::NoRequirement);
    };
    if 3 < kind {
        let (z, after) = read_signed(s, at + 1, ZERO, Fault::NoRequirement)?;
        return Ok((kind * KIND + z, after));
    }
    let (n, after) = read_natural(s, at + 1, ZERO, Fault::NoRequirement)?;
    Ok((kind * KIND + (n + ZERO), after))
}

// The requirements, each behind a blank, and the line's end. The loop goes on while a blank stands there: n counts what was read.
fn read_requirements(s: &[u8], at: usize) -> Result<Requirements, Fault>
    ensures { ToldRequirements s.now (read_requirements entry_limit (drop at s.now)) result }
{
    let mut row = [0; ENTRIES];
    let mut n = 0;
    let mut p = at;
    while stands(s, p, 32) {
        if ENTRIES <= n {
            return Err(Fault::ManyRequirements);
        }
        let (code, after) = read_requirement(s, p + 1)?;
        row[n] = code;
        n += 1;
        p = after;
    }
    if !stands(s, p, 10) {
        return Err(Fault::NoEnd);
    }
    Ok(Requirements {
        row: row,
        len: n as u8,
        at: p + 1,
    })
}

// The line of slot i.
fn read_line(s: &[u8], at: usize, i: u64) -> Result<(Slot, usize), Fault>
    ensures { ToldLine s.now (read_slot i (drop at s.now)) result }
{
    let after = read_start(s, at, i)?;
    let (item, after) = read_item(s, after)?;
    let (limit, after) = read_signed(s, after, HALF, Fault::NoLimit)?;
    let r = read_requirements(s, after)?;
    let row = r.row;
    let slot = Slot {
        item: item,
        limit: limit_of(limit),
        requirements: row,
        len: r.len,
    };
    Ok((slot, r.at))
}

// ---- the whole

// The shop of twenty lines and nothing behind them.
pub fn read_text(s: &[u8]) -> Result<Shop, BadLine>
    ensures { text_of result ≡ text_shop (read_text s.now) }
{
    let mut shop = empty_shop();
    let mut p = 0;
    for i in 0..SLOTS {
        match read_line(s, p, i as u64) {
            Ok((slot, after)) => {
                shop.slots[i] = slot;
                p = after;
            }
            Err(reason) => {
                return Err(BadLine {
                    line: i as u8 + 1,
                    reason: reason,
                });
            }
        }
    }
    if p < s.len() {
        return Err(BadLine {
            line: SLOTS as u8 + 1,
            reason: Fault::MoreText,
        });
    }
    Ok(shop)
}
