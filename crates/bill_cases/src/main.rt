// Bills of four slots (02, A.11 and A.12): runs the cases of its standard input, one to a line, and says of each whether it answered what the line says.
#![tactic(auto)]

ghost use Rattle.std.specs.Prelude.{◌<◌};

use bill::bill;
use case_lines::{Answer, WORDS, Words, low8, low16, run_cases, wide8};
use model::{FLAGS, ItemId, Refusal, TIMES, VARIABLES, Variables, refusal_in};
use shop::{COUNT_FIRST, ITEM_FIRST, SLOTS, Sheet};

// The slots that a case gives, and the lines that are told of its bill.
const TOLD: usize = 4;

const BILLION: u64 = 1000000000;

fn main() {
    let mut input: [u8; 8192] = [0; 8192];
    run_cases(
        &mut input,
        b"BL",
        |_| WORDS,
        |op, a, t| {
            if op == b'B' || op == b'L' {
                asked(op, a, t);
            }
        },
    );
}

// Every other slot has item 7, of which none is taken.
fn asked(kind: u8, a: &Words, t: &mut Answer) {
    let mut vars: Variables = [7; VARIABLES];
    let mut basket: [i32; SLOTS] = [0; SLOTS];
    for i in 0..TOLD {
        put_slot(a, i, &mut vars, &mut basket);
    }
    made(kind, a, &vars, &basket, t);
}

fn put_slot(a: &Words, i: usize, vars: &mut Variables, basket: &mut [i32; SLOTS])
    requires { i < 4 }
{
    let item = ints::from_bits(a[6 + 3 * i]);
    let count = ints::from_bits(a[7 + 3 * i]);
    let number = ints::from_bits(a[8 + 3 * i]);
    vars[ITEM_FIRST + i] = item;
    vars[COUNT_FIRST + i] = count;
    basket[i] = number;
}

// The arrays hold 9 everywhere before: a refused bill leaves them.
fn made(kind: u8, a: &Words, vars: &Variables, basket: &[i32; SLOTS], t: &mut Answer) {
    let n = usize::from(low8(a[3]));
    if 9 < n {
        return;
    }
    let prices: [u16; 9] = [low16(a[4]); 9];
    let mut ids: [i32; SLOTS] = [9; SLOTS];
    let mut slots: [u8; SLOTS] = [9; SLOTS];
    let mut sums: [u64; SLOTS] = [9; SLOTS];
    let r = bill_by(
        a,
        vars,
        &prices[0..n],
        basket,
        &mut ids,
        &mut slots,
        &mut sums,
    );
    if kind == b'L' {
        line_of(r, usize::from(low8(a[18])), &ids, &slots, &sums, t);
        return;
    }
    whole(r, &ids, &slots, &sums, t);
}

// Eight items, of which 0 to 2 are the timers, and one atc that none has.
fn bill_by(
    a: &Words,
    vars: &Variables,
    prices: &[u16],
    basket: &[i32; SLOTS],
    ids: &mut [i32; SLOTS],
    slots: &mut [u8; SLOTS],
    sums: &mut [u64; SLOTS],
) -> Result<u64, Refusal> {
    let attached: [u8; 8] = [0; 8];
    let sheet = Sheet {
        atcs: 1,
        timer5: ItemId(0),
        timer10: ItemId(low16(a[1])),
        timer15: ItemId(2),
    };
    let items: [i16; 8] = [0; 8];
    let atcs: [u8; 1] = [0; 1];
    let flags: [u8; FLAGS] = [low8(a[2]); FLAGS];
    let times: [i16; TIMES] = [0; TIMES];
    bill(
        &attached,
        sheet,
        &items,
        &atcs,
        &flags,
        &times,
        vars,
        prices,
        low16(a[5]),
        basket,
        ids,
        slots,
        sums,
    )
}

// ---- what is told

fn whole(
    r: Result<u64, Refusal>,
    ids: &[i32; SLOTS],
    slots: &[u8; SLOTS],
    sums: &[u64; SLOTS],
    t: &mut Answer,
) {
    t[0] = u32::from(refusal_in(r.map(|_| ())));
    let total = r.unwrap_or(0);
    t[1] = capped(total / BILLION);
    t[2] = capped(total % BILLION);
    for i in 0..TOLD {
        t[3 + 3 * i] = ints::to_bits(ids[i]);
        t[4 + 3 * i] = wide8(slots[i]);
        t[5 + 3 * i] = capped(sums[i]);
    }
}

fn line_of(
    r: Result<u64, Refusal>,
    i: usize,
    ids: &[i32; SLOTS],
    slots: &[u8; SLOTS],
    sums: &[u64; SLOTS],
    t: &mut Answer,
) {
    if SLOTS <= i {
        return;
    }
    t[0] = u32::from(refusal_in(r.map(|_| ())));
    t[1] = ints::to_bits(ids[i]);
    t[2] = wide8(slots[i]);
    t[3] = capped(sums[i] / BILLION);
    t[4] = capped(sums[i] % BILLION);
}

// What is told of a number that 32 bits do not hold is the largest that they do.
fn capped(x: u64) -> u32 {
    u32::try_from(x).unwrap_or(u32::MAX)
}
