// Every function of `ints`: runs the cases of its standard input, one to a line, and says of each whether it answered what the line says.
#![tactic(auto)]

use case_lines::{WORDS, bit, run_cases, signed16};

fn main() {
    let mut input: [u8; 8192] = [0; 8192];
    run_cases(
        &mut input,
        b"ABCFHNORST",
        |_| WORDS,
        |op, a, t| {
            t[0] = ints::to_bits(answer(op, a[1], a[2]));
            t[1] = bit(op == b'T' && ints::from_bits(a[1]) < 0);
        },
    );
}

fn answer(op: u8, x: u32, y: u32) -> i32 {
    let a = ints::from_bits(x);
    let b = ints::from_bits(y);
    match op {
        b'A' => ints::wrapping_add_i32(a, b),
        b'S' => ints::wrapping_sub_i32(a, b),
        b'T' => a,
        b'N' => ints::and_i32(a, b),
        b'O' => ints::or_i32(a, b),
        b'H' => ints::widen16(signed16(x)),
        b'C' => ints::widen16(ints::cut_i16(a)),
        b'R' => ints::remaining(signed16(x), signed16(y)),
        b'B' => ints::bit(x != 0),
        b'F' => ints::bit(ints::is_flag(a)),
        _ => 0,
    }
}
