// The preview: what a shop means under a save, slot by slot, without compiling it.
#![tactic(auto)]

ghost use Rattle.std.specs.Prelude.{◌≡◌, not, ℕ, ◌<◌, ℤ, pos, ◌-ℤ◌, List, map, get_or};
ghost use Rattle.std.specs.Int.Signed.{lt_z};
ghost use Rattle.model.specs.Limits.{slot_count};
ghost use Rattle.model.specs.Signed.{eq_z, is_zero, clamp};
ghost use Rattle.model.specs.Sheet.{atc_for};
ghost use Rattle.model.specs.Compile.{rate_of, acquired_req};
ghost use Rattle.model.specs.Save.{nat_at};
ghost use Rattle.model.specs.Meaning.{holds, all_hold, acquired, hidden, listed, no_timer_held, one_of, unique_meaning, limit_meaning, meaning_of, or_old};
ghost use Rattle.model.specs.Flags.{shop_inside};
ghost use Rattle.model.specs.Preview.{preview_call};
ghost use Rattle.shop.specs.declared.Sheet.{Sheet};
ghost use Rattle.shop_codes.specs.Codes.{requirement_of};
ghost use Rattle.shop.specs.Shapes.{entries, sheet_of, timer_is, slot_of, slots_of};
ghost use Rattle.shop_arrays.specs.Arrays.{arrays_in, row_at, slot_at, shop_from};
ghost use Rattle.checks.specs.Calls.{save_of};
ghost use Rattle.preview.specs.Tests.{is_there, rated_at};
ghost use Rattle.preview.specs.Parts.{parts_of};
ghost use Rattle.preview.specs.Shown.{accepted_as, answer_in, meaning_is, meanings_of, blank_of, previewed_of};

use checks::check_save;
use model::{ItemId, Refusal};
use shop::{
    CODES, Codes, SLOTS, Sheet, Shop, Timer, atc_for, check_sheet, limit_of, rate_of, timer_of,
};
use shop_arrays::{arrays_of, check_arrays, item_at, row_in};
use shop_codes::{Subject, is_missing, subject_of};
use shop_flags::{entry_at, flags_inside};

// The pairs of the slots, and variable 0 after them.
#[derive(Clone, Copy)]
pub struct Previewed {
    pub items: [i32; SLOTS],
    pub counts: [i32; SLOTS],
    pub temp: i32,
}

// The pair of a slot, and what it leaves in variable 0: one above limit 1 that is shown its count.
#[derive(Clone, Copy)]
struct Meaning {
    item: i32,
    count: i32,
    temp: Option<i32>,
}

// A slot but for its codes, which are read where they stand.
#[derive(Clone, Copy)]
struct Head {
    item: Option<ItemId>,
    limit: i16,
    len: u8,
}

// ---- the save

// Reads outside the save give 0.
fn short_at(list: &[i16], i: usize) -> i16
    ensures { result ≡ get_or list.now i (pos 0) }
{
    list.get(i).copied().unwrap_or(0)
}

fn equals_at(list: &[i16], i: usize, x: u8) -> bool
    ensures { result ≡ eq_z (get_or list.now i (pos 0)) (pos x) }
{
    short_at(list, i) == i16::from(x)
}

fn bit_at(bits: &[u8], i: usize) -> bool
    ensures { result ≡ not (is_zero (pos (get_or bits.now i 0))) }
{
    bits.get(i).is_some_and(|bit| *bit != 0)
}

fn is_held(items: &[i16], item: ItemId) -> bool
    ensures { result ≡ lt_z (pos 0) (get_or items.now item.0 (pos 0)) }
{
    0 < short_at(items, usize::from(item.0))
}

// ---- requirements

// No flag has a number below 0.
fn flag_at(flags: &[u8], number: i32) -> bool
    ensures { result ≡ not (is_zero (nat_at flags.now number)) }
{
    let Ok(i) = usize::try_from(number) else {
        return false;
    };
    bit_at(flags, i)
}

// Whether the save has what a requirement is about. Its number is a u32, which has no From into usize: hence the casts.
fn is_there(code: u64, items: &[i16], atcs: &[u8], flags: &[u8]) -> bool
    ensures { (t v : List ℤ) → result ≡ is_there (save_of items.now atcs.now flags.now t v) (requirement_of code) }
{
    match subject_of(code) {
        Subject::Item(i) => !equals_at(items, i as usize, 0),
        Subject::Atc(a) => bit_at(atcs, a as usize),
        Subject::Flag(f) => flag_at(flags, f),
    }
}

fn holds(code: u64, items: &[i16], atcs: &[u8], flags: &[u8]) -> bool
    ensures { (t v : List ℤ) → result ≡ holds (save_of items.now atcs.now flags.now t v) (requirement_of code) }
{
    let there = is_there(code, items, atcs, flags);
    if is_missing(code) { !there } else { there }
}

// R: the entries as given, in any order and with repeats.
fn all_hold(row: &[u64], len: u8, items: &[i16], atcs: &[u8], flags: &[u8]) -> bool
    ensures { (t v : List ℤ) → result ≡ all_hold (save_of items.now atcs.now flags.now t v) (map requirement_of (entries len row.now)) }
{
    for i in 0..usize::from(len) {
        if !holds(entry_at(row, i), items, atcs, flags) {
            return false;
        }
    }
    true
}

// ---- acquired

// The atc's test if the item has one, else the item's.
fn is_owned(attached: &[u8], item: ItemId, items: &[i16], atcs: &[u8]) -> bool
    ensures { (h : Sheet) (f : List ℕ) (t v : List ℤ) → result ≡ holds (save_of items.now atcs.now f t v) (acquired_req (atc_for (sheet_of attached.now h) item.0) item.0) }
{
    match atc_for(attached, item) {
        None => !equals_at(items, usize::from(item.0), 0),
        Some(atc) => bit_at(atcs, usize::from(atc.0)),
    }
}

// Whether the time rate is the timer's.
fn is_rated(timer: Timer, times: &[i16]) -> bool
    ensures { result ≡ rated_at (rate_of (timer_is timer)) (get_or times.now 2 (pos 0)) }
{
    let rate = rate_of(timer);
    rate != 0 && equals_at(times, 2, rate)
}

fn is_acquired(
    attached: &[u8],
    sheet: Sheet,
    item: ItemId,
    items: &[i16],
    atcs: &[u8],
    times: &[i16],
) -> bool
    ensures { (f : List ℕ) (v : List ℤ) → result ≡ acquired (sheet_of attached.now sheet) (save_of items.now atcs.now f times.now v) item.0 }
{
    is_owned(attached, item, items, atcs) || is_rated(timer_of(sheet, item), times)
}

// ---- the pair of a slot

// (−1, 0)
fn hidden() -> Meaning
    ensures { meaning_is result ≡ hidden }
{
    Meaning {
        item: -1,
        count: 0,
        temp: None,
    }
}

fn listed(item: ItemId, count: u8) -> Meaning
    ensures { meaning_is result ≡ listed item.0 count }
{
    Meaning {
        item: i32::from(item.0),
        count: i32::from(count),
        temp: None,
    }
}

fn no_timer_held(sheet: Sheet, items: &[i16]) -> bool
    ensures { (ks bs f : List ℕ) (t v : List ℤ) → result ≡ no_timer_held (sheet_of ks sheet) (save_of items.now bs f t v) }
{
    !is_held(items, sheet.timer10) && !is_held(items, sheet.timer15)
}

// 1, but 0 for Timer5 with neither other timer held.
fn one_of(timer: Timer, alone: bool) -> u8
    ensures { result ≡ one_of (timer_is timer) alone }
{
    match timer {
        Timer::Five if alone => 0,
        _ => 1,
    }
}

// Limit 1, r being whether the requirements hold.
fn unique_meaning(
    attached: &[u8],
    sheet: Sheet,
    item: ItemId,
    r: bool,
    items: &[i16],
    atcs: &[u8],
    times: &[i16],
) -> Meaning
    ensures { (f : List ℕ) (v : List ℤ) → meaning_is result ≡ unique_meaning (sheet_of attached.now sheet) (save_of items.now atcs.now f times.now v) item.0 (acquired (sheet_of attached.now sheet) (save_of items.now atcs.now f times.now v) item.0) r }
{
    if is_acquired(attached, sheet, item, items, atcs, times) {
        return listed(item, 0);
    }
    if r {
        let alone = no_timer_held(sheet, items);
        return listed(item, one_of(timer_of(sheet, item), alone));
    }
    hidden()
}

// The larger of 0 and limit − held.
fn remaining(limit: u8, held: i16) -> i32
    ensures { result ≡ clamp (pos limit -ℤ held) }
{
    ints::remaining(i16::from(limit), held)
}

// A limit above 1.
fn limit_meaning(item: ItemId, limit: u8, r: bool, items: &[i16]) -> Meaning
    ensures { (bs f : List ℕ) (t v : List ℤ) → meaning_is result ≡ limit_meaning (save_of items.now bs f t v) item.0 limit r }
{
    if !r {
        return hidden();
    }
    let left = remaining(limit, short_at(items, usize::from(item.0)));
    Meaning {
        item: i32::from(item.0),
        count: left,
        temp: Some(left),
    }
}

fn head_at(sold: &[i32; SLOTS], limits: &[i16; SLOTS], lens: &[u8; SLOTS], i: usize) -> Head
    requires { i < slot_count }
    ensures { (cs : List ℕ) → parts_of result (row_at cs i) ≡ slot_at (arrays_in sold.now limits.now cs lens.now) i }
{
    Head {
        item: item_at(sold, i),
        limit: limits[i],
        len: lens[i],
    }
}

// Slot i of the arrays.
fn meaning_at(
    attached: &[u8],
    sheet: Sheet,
    head: Head,
    codes: &Codes,
    i: usize,
    items: &[i16],
    atcs: &[u8],
    flags: &[u8],
    times: &[i16],
) -> Meaning
    requires { i < slot_count }
    ensures { (v : List ℤ) → meaning_is result ≡ meaning_of (sheet_of attached.now sheet) (save_of items.now atcs.now flags.now times.now v) (slot_of (parts_of head (row_at codes.now i))) }
{
    let Some(item) = head.item else {
        return hidden();
    };
    let r = all_hold(row_in(codes, i), head.len, items, atcs, flags);
    let most = limit_of(attached, sheet, item, head.limit);
    if most <= 1 {
        unique_meaning(attached, sheet, item, r, items, atcs, times)
    } else {
        limit_meaning(item, most, r, items)
    }
}

// ---- the call

// No pair yet: variable 0 is the save's.
fn blank(vars: &[i32]) -> Previewed
    ensures { result ≡ blank_of (get_or vars.now 0 (pos 0)) }
{
    Previewed {
        items: [0; SLOTS],
        counts: [0; SLOTS],
        temp: vars.first().copied().unwrap_or(0),
    }
}

// Variable 0 after a slot.
fn temp_after(m: Meaning, temp: i32) -> i32
    ensures { result ≡ or_old (meaning_is m).temp temp }
{
    m.temp.unwrap_or(temp)
}

// The pairs of a shop and a save that pass 1, 8, 12 and 23. The answer is written where it stands: handed on at each slot, its 41 numbers would be copied each time.
fn meanings(
    attached: &[u8],
    sheet: Sheet,
    sold: &[i32; SLOTS],
    limits: &[i16; SLOTS],
    codes: &Codes,
    lens: &[u8; SLOTS],
    items: &[i16],
    atcs: &[u8],
    flags: &[u8],
    times: &[i16],
    vars: &[i32],
) -> Previewed
    ensures { accepted_as result ≡ previewed_of (meanings_of (sheet_of attached.now sheet) (slots_of (shop_from (arrays_in sold.now limits.now codes.now lens.now))) (save_of items.now atcs.now flags.now times.now vars.now)) }
{
    let mut out = blank(vars);
    for i in 0..SLOTS {
        let head = head_at(sold, limits, lens, i);
        let m = meaning_at(attached, sheet, head, codes, i, items, atcs, flags, times);
        out.items[i] = m.item;
        out.counts[i] = m.count;
        out.temp = temp_after(m, out.temp);
    }
    out
}

// What the shop of the arrays means under the save. Refused by 1, 8, 12 or 23 it means nothing.
pub fn preview_arrays(
    attached: &[u8],
    sheet: Sheet,
    sold: &[i32; SLOTS],
    limits: &[i16; SLOTS],
    codes: &Codes,
    lens: &[u8; SLOTS],
    items: &[i16],
    atcs: &[u8],
    flags: &[u8],
    times: &[i16],
    vars: &[i32],
) -> Result<Previewed, Refusal>
    ensures { answer_in (get_or vars.now 0 (pos 0)) result ≡ previewed_of (preview_call (sheet_of attached.now sheet) (slots_of (shop_from (arrays_in sold.now limits.now codes.now lens.now))) (save_of items.now atcs.now flags.now times.now vars.now)) }
{
    if !check_sheet(attached, sheet) {
        return Err(Refusal::BadSheet);
    }
    if !check_arrays(attached, sheet, sold, codes, lens) {
        return Err(Refusal::BadShop);
    }
    if !check_save(attached, sheet, items, atcs, flags, times, vars) {
        return Err(Refusal::BadSave);
    }
    if !flags_inside(sold, limits, codes, lens) {
        return Err(Refusal::NoFlag);
    }
    Ok(meanings(
        attached, sheet, sold, limits, codes, lens, items, atcs, flags, times, vars,
    ))
}

// The same of a shop as a value.
pub fn preview(
    attached: &[u8],
    sheet: Sheet,
    shop: Shop,
    items: &[i16],
    atcs: &[u8],
    flags: &[u8],
    times: &[i16],
    vars: &[i32],
) -> Result<Previewed, Refusal>
    ensures { answer_in (get_or vars.now 0 (pos 0)) result ≡ previewed_of (preview_call (sheet_of attached.now sheet) (slots_of shop) (save_of items.now atcs.now flags.now times.now vars.now)) }
{
    let mut sold = [-1; SLOTS];
    let mut limits = [0; SLOTS];
    let mut codes = [0; CODES];
    let mut lens = [0; SLOTS];
    arrays_of(shop, &mut sold, &mut limits, &mut codes, &mut lens);
    preview_arrays(
        attached, sheet, &sold, &limits, &codes, &lens, items, atcs, flags, times, vars,
    )
}
