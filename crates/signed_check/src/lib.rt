// What is told of a shop before it is signed: for each slot whether what is read back will run the same, if not by which entry and under which save, and what else may surprise.
#![tactic(auto)]

ghost use Rattle.std.specs.Prelude.{◌≡◌, true, not, cond, ◌&&◌, ◌+◌, ◌≤◌, ◌<◌, eqb, length, take, set, replicate};
ghost use Rattle.model.specs.Limits.{entry_limit, slot_count};
ghost use Rattle.model.specs.Requirement.{sorted};
ghost use Rattle.model.specs.Sheet as Model;
ghost use Rattle.model.specs.Sheet.{all, sheet_ok};
ghost use Rattle.model.specs.Shop.{slot_ok};
ghost use Rattle.model.specs.Flags.{req_inside};
ghost use Rattle.shop_codes.specs.Codes.{requirement_of};
ghost use Rattle.shop.specs.Shapes.{sheet_of, slot_of, slots_of};
ghost use Rattle.shop.specs.Sets.{reqs_in, reqs_of, sorted_reqs};
ghost use Rattle.shop_arrays.specs.Arrays.{arrays_in, slot_at, shop_from};
ghost use Rattle.settings_model.specs.Closed.{bit};
ghost use Rattle.signed_model.specs.Findings.{check_call, finding, listed_as};
ghost use Rattle.signed_check.specs.Answer.{accepted_as, answer_in, checked_of, finding_is, finding_of, listed_number, place_is, reason_number, verdict_is, verdict_of};
ghost use Rattle.signed_check.specs.Codes.{concerns_code, left_code, pick, place_code, shown_code, verdict_code};

use model::{ItemId, Refusal};
use settings::{count_settings, lacks, negated, own_code};
use shop::{Codes, ENTRIES, Row, SLOTS, Sheet, Slot, check_sheet, limit_of};
use shop_arrays::{check_arrays, slot_at, sort_row};
use shop_codes::{HAVE_FLAG, is_missing, number_of};

// Faithful, or by which kind of entry not, with the place of the first entry concerned.
#[derive(Clone, Copy, Debug, PartialEq, Eq)]
pub enum Verdict {
    Faithful,
    Pair(u8),
    Own(u8),
    Outside(u8),
}

impl Verdict {
    // Its number, for callers that take numbers.
    pub fn number(self) -> u8
        ensures { result ≡ (verdict_of (verdict_is self)).verdict }
    {
        match self {
            Verdict::Faithful => 0,
            Verdict::Pair(_) => 1,
            Verdict::Own(_) => 2,
            Verdict::Outside(_) => 3,
        }
    }

    // The place of the first entry concerned, 0 where there is none.
    pub fn entry(self) -> u8
        ensures { result ≡ (verdict_of (verdict_is self)).entry }
    {
        match self {
            Verdict::Faithful => 0,
            Verdict::Pair(at) | Verdict::Own(at) | Verdict::Outside(at) => at,
        }
    }
}

// Why a slot is not faithful, as its entries are asked for it. A value and no closure: the search for the first such entry is proved once for the three.
#[derive(Clone, Copy, Debug, PartialEq, Eq)]
enum Reason {
    Pair,
    Own,
    Outside,
}

// Under how many settings a slot is listed.
#[derive(Clone, Copy, Debug, PartialEq, Eq)]
pub enum Listed {
    Sometimes = 0,
    Never = 1,
    Always = 2,
}

impl Listed {
    // Its number, for callers that take numbers.
    pub fn number(self) -> u8
        ensures { result ≡ listed_number self }
    {
        self as u8
    }
}

// What is told of a slot: the verdict, the limit that will be used, how many entries were given before, how many are lost, under how many settings it is listed, and the codes of the save that shows the difference, so many of them.
#[derive(Clone, Copy)]
pub struct Finding {
    pub verdict: Verdict,
    pub limit: u8,
    pub doubled: u8,
    pub lost: u8,
    pub listed: Listed,
    pub settings: u8,
    pub codes: Row,
}

// ---- the verdict

// Its flag, if it is about one, lies outside the save.
fn is_outside(code: u64) -> bool
    ensures { result ≡ not (req_inside (requirement_of code)) }
{
    HAVE_FLAG <= code && !ints::is_flag(number_of(code))
}

// The code c is such a reason.
fn concerns(row: &Row, n: u8, reason: Reason, own: u64, c: u64) -> bool
    requires { n ≤ entry_limit }
    ensures { result ≡ concerns_code (reason_number reason) own (take n row.now) c }
{
    match reason {
        Reason::Outside => is_outside(c),
        Reason::Pair => !lacks(row, n, negated(c)),
        Reason::Own => own == c,
    }
}

// The place of the first such code, if there is one.
fn first_place(row: &Row, n: u8, reason: Reason, own: u64) -> Option<u8>
    requires { n ≤ entry_limit }
    ensures { place_is result ≡ place_code (reason_number reason) own (take n row.now) }
{
    for i in 0..n {
        if concerns(row, n, reason, own, row[usize::from(i)]) {
            return Some(i);
        }
    }
    None
}

// A flag outside first, then a contradicting pair, then at limit 1 the acquired test.
fn verdict_of(row: &Row, n: u8, one: bool, own: u64) -> Verdict
    requires { n ≤ entry_limit }
    ensures { verdict_is result ≡ verdict_code one own (take n row.now) }
{
    if let Some(at) = first_place(row, n, Reason::Outside, own) {
        return Verdict::Outside(at);
    }
    if let Some(at) = first_place(row, n, Reason::Pair, own) {
        return Verdict::Pair(at);
    }
    if one {
        if let Some(at) = first_place(row, n, Reason::Own, own) {
            return Verdict::Own(at);
        }
    }
    Verdict::Faithful
}

// ---- the save that shows it

// The acquired test, at limit 1.
fn is_acquired(one: bool, own: u64, c: u64) -> bool
    ensures { result ≡ one && eqb c own }
{
    one && c == own
}

// c is a Have that the normal form leaves, the codes being its set.
fn is_left(row: &Row, n: u8, one: bool, own: u64, c: u64) -> bool
    requires { n ≤ entry_limit }
    ensures { result ≡ left_code one own (take n row.now) c }
{
    !is_missing(c) && !is_acquired(one, own, c) && lacks(row, n, negated(c))
}

// Such a c after the m codes that are there: how many there are then.
fn add_left(row: &Row, n: u8, one: bool, own: u64, c: u64, out: &mut Row, m: usize) -> usize
    requires { (n ≤ entry_limit) × (m < entry_limit) }
    ensures { (result ≡ m + bit (left_code one own (take n row.now) c)) × (out.new ≡ cond (left_code one own (take n row.now) c) (set out.old m c) out.old) }
{
    if is_left(row, n, one, own, c) {
        out[m] = c;
        return m + 1;
    }
    m
}

// All of them into an array of zeros: not more than 14, which a byte holds.
fn haves_left(row: &Row, n: u8, one: bool, own: u64, out: &mut Row) -> u8
    requires { (n ≤ entry_limit) × (out.old ≡ replicate entry_limit 0) }
    ensures { reqs_in out.new result ≡ reqs_of (pick (left_code one own (take n row.now)) (take n row.now)) }
{
    let mut m = 0;
    for i in 0..usize::from(n) {
        m = add_left(row, n, one, own, row[i], out, m);
    }
    m as u8
}

// Only where what is read and what runs differ.
fn settings_for(verdict: Verdict, row: &Row, n: u8, one: bool, own: u64, out: &mut Row) -> u8
    requires { (n ≤ entry_limit) × (out.old ≡ replicate entry_limit 0) }
    ensures { reqs_in out.new result ≡ reqs_of (shown_code (verdict_of (verdict_is verdict)).verdict (pick (left_code one own (take n row.now)) (take n row.now))) }
{
    match verdict {
        Verdict::Faithful | Verdict::Outside(_) => 0,
        Verdict::Pair(_) | Verdict::Own(_) => haves_left(row, n, one, own, out),
    }
}

// ---- a slot

// By how many settings list it and hide it.
fn listed_as(listed: u32, hidden: u32) -> Listed
    ensures { listed_number result ≡ listed_as listed hidden }
{
    if listed == 0 {
        Listed::Never
    } else if hidden == 0 {
        Listed::Always
    } else {
        Listed::Sometimes
    }
}

// Its requirements are lost, and it is never listed; n of them are different.
fn without_item(slot: Slot, n: u8) -> Finding
    requires { (slot.item ≡ None) × (n ≡ length (sorted (slot_of slot).requirements)) }
    ensures { (h : Model.Sheet) → finding_is result ≡ finding_of (finding h (slot_of slot)) }
{
    Finding {
        verdict: Verdict::Faithful,
        limit: 0,
        doubled: slot.len - n,
        lost: slot.len,
        listed: Listed::Never,
        settings: 0,
        codes: [0; ENTRIES],
    }
}

// Of a slot with item w that passed 1 and 8; row is the set of its n different requirements.
fn with_item(attached: &[u8], sheet: Sheet, slot: Slot, w: ItemId, row: &Row, n: u8) -> Finding
    requires { (sheet_ok (sheet_of attached.now sheet) ≡ true) × (slot_ok (sheet_of attached.now sheet) (slot_of slot) ≡ true) × (slot.item ≡ Some w) × (reqs_in row.now n ≡ sorted_reqs slot) }
    ensures { finding_is result ≡ finding_of (finding (sheet_of attached.now sheet) (slot_of slot)) }
{
    let limit = limit_of(attached, sheet, w, slot.limit);
    let one = limit < 2;
    let own = own_code(attached, w);
    let verdict = verdict_of(&slot.requirements, slot.len, one, own);
    let mut codes = [0; ENTRIES];
    let m = settings_for(verdict, row, n, one, own, &mut codes);
    let counted = count_settings(attached, sheet, slot, w);
    Finding {
        verdict,
        limit,
        doubled: slot.len - n,
        lost: 0,
        listed: listed_as(counted.listed, counted.hidden),
        settings: m,
        codes,
    }
}

// Slot i of a shop that passed.
fn finding_at(
    attached: &[u8],
    sheet: Sheet,
    items: &[i32; SLOTS],
    limits: &[i16; SLOTS],
    codes: &Codes,
    lens: &[u8; SLOTS],
    i: usize,
) -> Finding
    requires { (i < slot_count) × (sheet_ok (sheet_of attached.now sheet) ≡ true) × (slot_ok (sheet_of attached.now sheet) (slot_of (slot_at (arrays_in items.now limits.now codes.now lens.now) i)) ≡ true) }
    ensures { finding_is result ≡ finding_of (finding (sheet_of attached.now sheet) (slot_of (slot_at (arrays_in items.now limits.now codes.now lens.now) i))) }
{
    let slot = slot_at(items, limits, codes, lens, i);
    let mut row = [0; ENTRIES];
    let n = sort_row(codes, lens, i, &mut row);
    match slot.item {
        None => without_item(slot, n),
        Some(w) => with_item(attached, sheet, slot, w, &row, n),
    }
}

// ---- the shop

// All slots of a shop that passed 1 and 8.
fn told_all(
    attached: &[u8],
    sheet: Sheet,
    items: &[i32; SLOTS],
    limits: &[i16; SLOTS],
    codes: &Codes,
    lens: &[u8; SLOTS],
) -> [Finding; SLOTS]
    requires { (sheet_ok (sheet_of attached.now sheet) ≡ true) × (all (slot_ok (sheet_of attached.now sheet)) (slots_of (shop_from (arrays_in items.now limits.now codes.now lens.now))) ≡ true) }
    ensures { accepted_as result ≡ checked_of (check_call (sheet_of attached.now sheet) (slots_of (shop_from (arrays_in items.now limits.now codes.now lens.now)))) }
{
    let none = Finding {
        verdict: Verdict::Faithful,
        limit: 0,
        doubled: 0,
        lost: 0,
        listed: Listed::Sometimes,
        settings: 0,
        codes: [0; ENTRIES],
    };
    let mut out = [none; SLOTS];
    for i in 0..SLOTS {
        out[i] = finding_at(attached, sheet, items, limits, codes, lens, i);
    }
    out
}

// 1, then 8; refused, nothing is told.
pub fn check_shop(
    attached: &[u8],
    sheet: Sheet,
    items: &[i32; SLOTS],
    limits: &[i16; SLOTS],
    codes: &Codes,
    lens: &[u8; SLOTS],
) -> Result<[Finding; SLOTS], Refusal>
    ensures { answer_in result ≡ checked_of (check_call (sheet_of attached.now sheet) (slots_of (shop_from (arrays_in items.now limits.now codes.now lens.now)))) }
{
    if !check_sheet(attached, sheet) {
        return Err(Refusal::BadSheet);
    }
    if !check_arrays(attached, sheet, items, codes, lens) {
        return Err(Refusal::BadShop);
    }
    Ok(told_all(attached, sheet, items, limits, codes, lens))
}
