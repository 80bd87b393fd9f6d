// How many settings list a slot (02, A.9), through the exported call: runs the cases of its standard input, one to a line, and says of each whether it answered what the line says.
#![tactic(auto)]

use capi_settings::lk_settings;
use case_lines::{Answer, WORDS, Words, low8, low16, row, run_cases, signed16};

fn main() {
    let mut input: [u8; 4096] = [0; 4096];
    run_cases(
        &mut input,
        b"S",
        |_| WORDS,
        |op, a, t| {
            if op == b'S' {
                asked(a, t);
            }
        },
    );
}

// The first items of eight, of which item 1 has atc 0 and item 6 atc 1.
fn asked(a: &Words, t: &mut Answer) {
    let mut attached: [u8; 8] = [0; 8];
    attached[1] = 1;
    attached[6] = 2;
    let items = usize::from(low8(a[1]));
    if 8 < items {
        return;
    }
    let codes = row(a[6], a[7], a[8], a[9]);
    let item = ints::from_bits(a[3]);
    let limit = signed16(a[4]);
    let sheet: &[u8] = &attached;
    let r = lk_settings(
        &sheet[0..items],
        2,
        0,
        1,
        low16(a[2]),
        item,
        limit,
        &codes,
        low8(a[5]),
    );
    t[0] = u32::from(r.refusal);
    t[1] = u32::from(r.subjects);
    t[2] = r.listed;
    t[3] = r.hidden;
}
