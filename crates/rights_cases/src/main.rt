// Edits of a shop by users with rights, and what a user is shown (02, A.7), through the calls of the library and through those on a shop as a value: runs the cases of its standard input, one to a line, and says of each whether it answered what the line says.
#![tactic(auto)]

use capi_rights::{lk_edit, lk_show};
use capi_values::sheet_by;
use case_lines::{
    Answer, WORDS, Words, bits16, code, kind_in, low8, low16, number_in, run_cases, signed16, wide8,
};
use model::refusal_in;
use rights::{Field, RIGHTS};
use shop::{CODES, Codes, ENTRIES, Row, SLOTS, empty_shop};
use shop_arrays::{arrays_of, clear_arrays, put_entries, shop_from, slot_by};

fn main() {
    let mut input: [u8; 8192] = [0; 8192];
    let mut rights: [u8; RIGHTS] = [0; RIGHTS];
    let mut items: [i32; SLOTS] = [-1; SLOTS];
    let mut limits: [i16; SLOTS] = [0; SLOTS];
    let mut codes: Codes = [0; CODES];
    let mut lens: [u8; SLOTS] = [0; SLOTS];
    start(
        &mut input,
        &mut rights,
        &mut items,
        &mut limits,
        &mut codes,
        &mut lens,
    );
}

// Large arrays are not read where they are made: the proof would go through their elements. Rights and arrays go from line to line.
fn start(
    input: &mut [u8; 8192],
    rights: &mut [u8; RIGHTS],
    items: &mut [i32; SLOTS],
    limits: &mut [i16; SLOTS],
    codes: &mut Codes,
    lens: &mut [u8; SLOTS],
) {
    run_cases(
        input,
        b"ESVW",
        |_| WORDS,
        |op, a, t| {
            step(op, a, rights, items, limits, codes, lens, t);
        },
    );
}

// ---- lines

fn step(
    op: u8,
    a: &Words,
    rights: &mut [u8; RIGHTS],
    items: &mut [i32; SLOTS],
    limits: &mut [i16; SLOTS],
    codes: &mut Codes,
    lens: &mut [u8; SLOTS],
    t: &mut Answer,
) {
    match op {
        b'R' => put_right(a, rights),
        b'X' => clear_arrays(items, limits, codes, lens),
        b'I' => put_words(a, items, limits, codes, lens),
        b'E' => edit(a, rights, items, limits, codes, lens, t),
        b'S' => show(a, rights, items, limits, codes, lens, t),
        b'V' => edit_value(a, rights, items, limits, codes, lens, t),
        b'W' => show_value(a, rights, items, limits, codes, lens, t),
        _ => (),
    }
}

// ---- what goes from line to line

// R: user, slot and the byte of rights.
fn put_right(a: &Words, rights: &mut [u8; RIGHTS]) {
    let i = usize::from(low16(a[1])) * SLOTS + usize::from(low16(a[2]));
    if let Some(right) = rights.get_mut(i) {
        *right = low8(a[3]);
    }
}

// I: a slot and its words, which need be none that a shop as a value has. Of a slot without entries the codes stay.
fn put_words(
    a: &Words,
    items: &mut [i32; SLOTS],
    limits: &mut [i16; SLOTS],
    codes: &mut Codes,
    lens: &mut [u8; SLOTS],
) {
    let i = usize::from(low8(a[1]));
    if SLOTS <= i {
        return;
    }
    items[i] = ints::from_bits(a[2]);
    limits[i] = signed16(a[3]);
    lens[i] = low8(a[4]);
    if a[4] == 0 {
        return;
    }
    let row = row_of(a[5], a[6], a[7], a[8]);
    put_entries(&row, codes, i);
}

// The first code, and one for every further entry.
fn row_of(kind: u32, number: u32, others: u32, other: u32) -> Row {
    let further = code(others, other);
    let mut codes: Row = [further; ENTRIES];
    codes[0] = code(kind, number);
    codes
}

// ---- the library's calls

// E: Timer15, user, slot, field, then the new content.
fn edit(
    a: &Words,
    rights: &[u8; RIGHTS],
    items: &mut [i32; SLOTS],
    limits: &mut [i16; SLOTS],
    codes: &mut Codes,
    lens: &mut [u8; SLOTS],
    t: &mut Answer,
) {
    let attached: [u8; 3] = [0; 3];
    let row = row_of(a[8], a[9], a[10], a[11]);
    let answer = lk_edit(
        &attached,
        0,
        0,
        1,
        low16(a[1]),
        rights,
        items,
        limits,
        codes,
        lens,
        a[2],
        a[3],
        low8(a[4]),
        ints::from_bits(a[5]),
        signed16(a[6]),
        &row,
        low8(a[7]),
    );
    slots(answer, items, limits, codes, lens, t);
}

// S: a user. The arrays become what is shown: the next line is of that.
fn show(
    a: &Words,
    rights: &[u8; RIGHTS],
    items: &mut [i32; SLOTS],
    limits: &mut [i16; SLOTS],
    codes: &mut Codes,
    lens: &mut [u8; SLOTS],
    t: &mut Answer,
) {
    let answer = lk_show(rights, items, limits, codes, lens, a[1]);
    slots(answer, items, limits, codes, lens, t);
}

// ---- the calls on a shop as a value

// V: as E, on the shop that the arrays stand for; they become those of the shop that is answered. Refused, it is the shop that was lent.
fn edit_value(
    a: &Words,
    rights: &[u8; RIGHTS],
    items: &mut [i32; SLOTS],
    limits: &mut [i16; SLOTS],
    codes: &mut Codes,
    lens: &mut [u8; SLOTS],
    t: &mut Answer,
) {
    let attached: [u8; 3] = [0; 3];
    let sheet = sheet_by(0, 0, 1, low16(a[1]));
    let row = row_of(a[8], a[9], a[10], a[11]);
    let content = slot_by(ints::from_bits(a[5]), signed16(a[6]), &row, low8(a[7]));
    let shop = shop_from(items, limits, codes, lens);
    let field = field_of(a[4]);
    let r = rights::edit(&attached, sheet, rights, shop, a[2], a[3], field, content);
    arrays_of(r.unwrap_or(shop), items, limits, codes, lens);
    let refusal = refusal_in(r.map(|_| ()));
    slots(refusal, items, limits, codes, lens, t);
}

fn field_of(x: u32) -> Field {
    match x {
        0 => Field::Item,
        1 => Field::Limit,
        _ => Field::Requirements,
    }
}

// W: a user. The shop stays as it is. A refused call is told as twenty empty slots.
fn show_value(
    a: &Words,
    rights: &[u8; RIGHTS],
    items: &[i32; SLOTS],
    limits: &[i16; SLOTS],
    codes: &Codes,
    lens: &[u8; SLOTS],
    t: &mut Answer,
) {
    let r = rights::show(rights, shop_from(items, limits, codes, lens), a[1]);
    let mut shown_items: [i32; SLOTS] = [-1; SLOTS];
    let mut shown_limits: [i16; SLOTS] = [0; SLOTS];
    let mut shown_codes: Codes = [0; CODES];
    let mut shown_lens: [u8; SLOTS] = [0; SLOTS];
    let shop = r.unwrap_or(empty_shop());
    arrays_of(
        shop,
        &mut shown_items,
        &mut shown_limits,
        &mut shown_codes,
        &mut shown_lens,
    );
    slots(
        refusal_in(r.map(|_| ())),
        &shown_items,
        &shown_limits,
        &shown_codes,
        &shown_lens,
        t,
    );
}

// ---- the answer

// Refusal; item, limit and how many entries of slot 0 and of slot 1; kind and number of slot 0's first three codes.
fn slots(
    refusal: u8,
    items: &[i32; SLOTS],
    limits: &[i16; SLOTS],
    codes: &Codes,
    lens: &[u8; SLOTS],
    t: &mut Answer,
) {
    t[0] = u32::from(refusal);
    t[1] = ints::to_bits(items[0]);
    t[2] = bits16(limits[0]);
    t[3] = wide8(lens[0]);
    t[4] = ints::to_bits(items[1]);
    t[5] = bits16(limits[1]);
    t[6] = wide8(lens[1]);
    t[7] = kind_in(codes[0]);
    t[8] = number_in(codes[0]);
    t[9] = kind_in(codes[1]);
    t[10] = number_in(codes[1]);
    t[11] = kind_in(codes[2]);
    t[12] = number_in(codes[2]);
}
