// What is told of a shop before it is signed, through the exported call: runs the cases of its standard input, one to a line, and says of each whether it answered what the line says.
#![tactic(auto)]

use capi_signed::{Finding, lk_check};
use case_lines::{
    Answer, WORDS, Words, code, kind_in, low8, low16, number_in, run_cases, signed16,
};
use shop::{CODES, ENTRIES, SLOTS};

fn main() {
    let mut input: [u8; 4096] = [0; 4096];
    run_cases(
        &mut input,
        b"S",
        |_| WORDS,
        |op, a, t| {
            if op == b'S' {
                asked(a, t);
            }
        },
    );
}

// Eight items, of which item 6 has atc 1. Slot 0 has item 7, limit 3 and F2, slot 1 what the line says; the others are empty. A requirement that the line does not give is I0.
fn asked(a: &Words, t: &mut Answer) {
    let mut attached: [u8; 8] = [0; 8];
    attached[6] = 2;
    let mut items: [i32; SLOTS] = [-1; SLOTS];
    let mut limits: [i16; SLOTS] = [0; SLOTS];
    let rest = code(0, 0);
    let mut codes: [u64; CODES] = [rest; CODES];
    let mut lens: [u8; SLOTS] = [0; SLOTS];
    items[0] = 7;
    limits[0] = 3;
    codes[0] = code(4, 2);
    lens[0] = 1;
    items[1] = ints::from_bits(a[2]);
    limits[1] = signed16(a[3]);
    codes[ENTRIES] = code(a[5], a[6]);
    codes[ENTRIES + 1] = code(a[7], a[8]);
    codes[ENTRIES + 2] = code(a[9], a[10]);
    lens[1] = low8(a[4]);
    let ten = low16(a[1]);
    let r = lk_check(&attached, 2, 0, ten, 2, &items, &limits, &codes, &lens);
    t[0] = u32::from(r.refusal);
    found(&r.slots[1], t);
}

fn found(f: &Finding, t: &mut Answer) {
    t[1] = u32::from(f.verdict);
    t[2] = u32::from(f.entry);
    t[3] = u32::from(f.limit);
    t[4] = u32::from(f.doubled);
    t[5] = u32::from(f.lost);
    t[6] = u32::from(f.listed);
    t[7] = u32::from(f.settings);
    t[8] = kind_in(f.codes[0]);
    t[9] = number_in(f.codes[0]);
}
