// How many settings list a slot (02, A.9): its subjects are counted on the codes of its requirements, and the closed form gives what a count over all combinations comes to.
#![tactic(auto)]

ghost use Rattle.std.specs.Prelude.{◌≡◌, true, List, [], ℕ, ◌-◌, ◌^◌, ◌<◌, ◌≤◌, take, OnErr};
ghost use Rattle.model.specs.Limits.{entry_limit};
ghost use Rattle.model.specs.Refusals.{refusal_in};
ghost use Rattle.model.specs.Sheet.{sheet_ok};
ghost use Rattle.model.specs.Shop.{slot_ok};
ghost use Rattle.model.specs.Normal.{acquired_of};
ghost use Rattle.shop_codes.specs.Codes.{code_of};
ghost use Rattle.shop.specs.Shapes.{sheet_of, slot_of};
ghost use Rattle.settings_model.specs.Settings.{settings_call, settings_checks};
ghost use Rattle.settings_model.specs.Closed.{acquired_filled, bit};
ghost use Rattle.settings.specs.Codes.{negated_code, lacks_code, no_pair_code, faithful_code};
ghost use Rattle.settings.specs.Counting.{own_code, new_code, count_codes};
ghost use Rattle.settings.specs.Answer.{accepted_as, answer_in, by_numbers};
ghost use Rattle.shop.specs.declared.Sheet as Lent;

use model::{ItemId, Refusal};
use shop::{Row, Sheet, Slot, atc_for, check_parts, check_sheet, limit_of, rate_of, timer_of};
use shop_codes::{HAVE_ATC, KIND, ZERO};

// How many subjects a slot has, and in how many of the combinations of their answers it is listed and hidden.
#[derive(Clone, Copy)]
pub struct Settings {
    pub subjects: u8,
    pub listed: u32,
    pub hidden: u32,
}

// ---- requirements by their codes

// The code of the negated requirement: kinds go in pairs, and each is the other's negation.
pub fn negated(code: u64) -> u64
    ensures { result ≡ negated_code code }
{
    if code / KIND % 2 == 0 {
        code + KIND
    } else {
        code - KIND
    }
}

// None of the first n codes is x.
pub fn lacks(row: &Row, n: u8, x: u64) -> bool
    requires { n ≤ entry_limit }
    ensures { result ≡ lacks_code x (take n row.now) }
{
    row[..usize::from(n)].iter().all(|code| x != *code)
}

// No requirement stands beside its negation. A loop and no closure: lacks has a bound, which a closure would ask of its caller.
fn no_pair(row: &Row, n: u8) -> bool
    requires { n ≤ entry_limit }
    ensures { result ≡ no_pair_code (take n row.now) }
{
    for code in &row[..usize::from(n)] {
        if !lacks(row, n, negated(*code)) {
            return false;
        }
    }
    true
}

// The code of the acquired test: the atc's if the item has one, else the item's.
pub fn own_code(attached: &[u8], item: ItemId) -> u64
    ensures { (h : Lent.Sheet) → result ≡ code_of (acquired_of (sheet_of attached.now h) item.0) }
{
    match atc_for(attached, item) {
        None => u64::from(item.0) + ZERO,
        Some(atc) => u64::from(atc.0) + HAVE_ATC + ZERO,
    }
}

// One combination of what is not acquired meets all of the requirements; else none does.
fn is_faithful(row: &Row, n: u8, one: bool, own: u64) -> bool
    requires { n ≤ entry_limit }
    ensures { result ≡ faithful_code one own (take n row.now) }
{
    no_pair(row, n) && (!one || lacks(row, n, own))
}

// ---- subjects

// About the acquired subject, at limit 1.
fn is_own(one: bool, own: u64, c: u64) -> bool
    ensures { result ≡ own_code one own c }
{
    one && (c == own || negated(c) == own)
}

// The subject of c is neither that nor one of the first i codes'.
fn is_new(row: &Row, i: u8, one: bool, own: u64, c: u64) -> bool
    requires { i ≤ entry_limit }
    ensures { result ≡ new_code one own (take i row.now) c }
{
    !is_own(one, own, c) && lacks(row, i, c) && lacks(row, i, negated(c))
}

// How many subjects the first len codes bring, beside the acquired one where one is true.
fn count_subjects(row: &Row, len: u8, one: bool, own: u64) -> u8
    requires { len ≤ entry_limit }
    ensures { (result ≡ count_codes one own [] (take len row.now)) × (result ≤ entry_limit) }
{
    let mut n = 0;
    for i in 0..len {
        n += u8::from(is_new(row, i, one, own, row[usize::from(i)]));
    }
    n
}

// The acquired subjects: at limit 1 one, and the rate of a timer.
fn acquired_subjects(sheet: Sheet, item: ItemId, one: bool) -> u8
    ensures { ((ks : List ℕ) → result ≡ acquired_filled (sheet_of ks sheet) item.0 one) × (result ≤ 2) }
{
    if !one {
        return 0;
    }
    if rate_of(timer_of(sheet, item)) == 0 {
        1
    } else {
        2
    }
}

// ---- the call

// So many combinations have n subjects.
fn power(n: u8) -> u32
    requires { n ≤ 16 }
    ensures { result ≡ 2 ^ n }
{
    1 << n
}

// All combinations of f subjects but the one that meets every requirement, if there is one.
fn unmet(f: u8, met: bool) -> u32
    requires { f ≤ entry_limit }
    ensures { result ≡ 2 ^ f - bit met }
{
    power(f) - u32::from(met)
}

// By the closed form: k acquired subjects, f of requirements, and whether one combination of the latter meets them all.
fn by_numbers(k: u8, f: u8, met: bool) -> Settings
    requires { (k ≤ 2) × (f ≤ entry_limit) }
    ensures { result ≡ by_numbers k f (bit met) }
{
    let hidden = unmet(f, met);
    Settings {
        subjects: k + f,
        listed: power(k + f) - hidden,
        hidden,
    }
}

// 1, then 8.
fn check_slot(attached: &[u8], sheet: Sheet, slot: Slot) -> Result<(), Refusal>
    ensures number { refusal_in result ≡ settings_checks (sheet_of attached.now sheet) (slot_of slot) }
    ensures refused { OnErr result (0 < refusal_in result) }
{
    if !check_sheet(attached, sheet) {
        return Err(Refusal::BadSheet);
    }
    if !check_parts(attached, sheet, slot.item, &slot.requirements, slot.len) {
        return Err(Refusal::BadShop);
    }
    Ok(())
}

// Of a slot with item w that passed both.
pub fn count_settings(attached: &[u8], sheet: Sheet, slot: Slot, w: ItemId) -> Settings
    requires { (sheet_ok (sheet_of attached.now sheet) ≡ true) × (slot_ok (sheet_of attached.now sheet) (slot_of slot) ≡ true) × (slot.item ≡ Some w) }
    ensures { accepted_as result ≡ settings_call (sheet_of attached.now sheet) (slot_of slot) }
{
    let row = &slot.requirements;
    let one = limit_of(attached, sheet, w, slot.limit) < 2;
    let own = own_code(attached, w);
    let k = acquired_subjects(sheet, w, one);
    let f = count_subjects(row, slot.len, one, own);
    let met = is_faithful(row, slot.len, one, own);
    by_numbers(k, f, met)
}

// A slot with no item has no subjects and is hidden.
pub fn settings_of(attached: &[u8], sheet: Sheet, slot: Slot) -> Result<Settings, Refusal>
    ensures { answer_in result ≡ settings_call (sheet_of attached.now sheet) (slot_of slot) }
{
    check_slot(attached, sheet, slot)?;
    let Some(w) = slot.item else {
        return Ok(Settings {
            subjects: 0,
            listed: 0,
            hidden: 1,
        });
    };
    Ok(count_settings(attached, sheet, slot, w))
}
