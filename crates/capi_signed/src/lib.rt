// What is told of a shop before it is signed, for programs in Rust and C: numbers, a slice and references to arrays of numbers go in, a struct of numbers comes out.
#![tactic(auto)]

ghost use Rattle.std.specs.Prelude.{◌≡◌};
ghost use Rattle.shop.specs.Shapes.{sheet_of, slots_of};
ghost use Rattle.shop_arrays.specs.Arrays.{arrays_in, shop_from};
ghost use Rattle.capi_values.specs.Values.{sheet_by};
ghost use Rattle.signed_model.specs.Findings.{check_call};
ghost use Rattle.signed_check.specs.Answer.{checked_of, finding_is};
ghost use Rattle.capi_signed.specs.Answers.{finding_as, checked_as};

use capi_values::sheet_by;
use shop::{Codes, ENTRIES, Row, SLOTS};
use signed_check::check_shop;

// What is told of one slot, as signed_check says it, by numbers.
#[repr(C)]
#[derive(Clone, Copy)]
pub struct Finding {
    pub verdict: u8,
    pub entry: u8,
    pub limit: u8,
    pub doubled: u8,
    pub lost: u8,
    pub listed: u8,
    pub settings: u8,
    pub codes: Row,
}

// The refusal or 0, and what is told of the twenty slots.
#[repr(C)]
#[derive(Clone, Copy)]
pub struct Checked {
    pub refusal: u8,
    pub slots: [Finding; SLOTS],
}

// What a refusal tells of each slot.
const NOTHING: Finding = Finding {
    verdict: 0,
    entry: 0,
    limit: 0,
    doubled: 0,
    lost: 0,
    listed: 0,
    settings: 0,
    codes: [0; ENTRIES],
};

fn finding_by(f: &signed_check::Finding) -> Finding
    ensures { finding_as result ≡ finding_is f.now }
{
    let codes = f.codes;
    Finding {
        verdict: f.verdict.number(),
        entry: f.verdict.entry(),
        limit: f.limit,
        doubled: f.doubled,
        lost: f.lost,
        listed: f.listed.number(),
        settings: f.settings,
        codes: codes,
    }
}

// What is told of each slot; refused, every number is 0.
pub fn lk_check(
    attached: &[u8],
    atcs: u16,
    timer5: u16,
    timer10: u16,
    timer15: u16,
    items: &[i32; SLOTS],
    limits: &[i16; SLOTS],
    codes: &Codes,
    lens: &[u8; SLOTS],
) -> Checked
    ensures { checked_as result ≡ checked_of (check_call (sheet_of attached.now (sheet_by atcs timer5 timer10 timer15)) (slots_of (shop_from (arrays_in items.now limits.now codes.now lens.now)))) }
{
    let sheet = sheet_by(atcs, timer5, timer10, timer15);
    let mut out = Checked {
        refusal: 0,
        slots: [NOTHING; SLOTS],
    };
    match check_shop(attached, sheet, items, limits, codes, lens) {
        Ok(told) => {
            for i in 0..SLOTS {
                out.slots[i] = finding_by(&told[i]);
            }
        }
        Err(e) => out.refusal = e.number(),
    }
    out
}
