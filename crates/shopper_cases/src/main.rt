// Shoppers in a shop of three slots (02, A.13): runs the cases of its standard input, one to a line, and says of each whether it answered what the line says.
#![tactic(auto)]

use case_lines::{Answer, WORDS, Words, bits16, code, low8, low16, run_cases, signed16, wide8};
use model::{FLAGS, ItemId, Refusal, TIMES, VARIABLES, Variables, refusal_in};
use shop::{CODES, ENTRIES, SLOTS, Sheet};
use shopper::{Shopped, WISHES, shopping};

// One wish more than there may be.
const LIST: usize = WISHES + 1;

// The steps that are told.
const TOLD: usize = 4;

fn main() {
    let mut input: [u8; 8192] = [0; 8192];
    run_cases(
        &mut input,
        b"S",
        |_| WORDS,
        |op, a, t| {
            if op == b'S' {
                asked(a, t);
            }
        },
    );
}

// ---- a shopper

// The two arrays hold 9 everywhere before: what no step tells stays.
fn asked(a: &Words, t: &mut Answer) {
    let mut wished: [u8; LIST] = [low8(a[13]); LIST];
    wished[0] = low8(a[10]);
    wished[1] = low8(a[11]);
    wished[2] = low8(a[12]);
    let mut answers: [u8; WISHES] = [9; WISHES];
    let mut coins: [u32; WISHES] = [9; WISHES];
    shopped(a, &wished, &mut answers, &mut coins, t);
}

fn shopped(
    a: &Words,
    wished: &[u8; LIST],
    answers: &mut [u8; WISHES],
    coins: &mut [u32; WISHES],
    t: &mut Answer,
) {
    let n = usize::from(low16(a[9]));
    if LIST < n {
        return;
    }
    let all: &[u8] = wished;
    let mut items: [i16; 8] = [0; 8];
    let mut atcs: [u8; 1] = [0; 1];
    let r = in_shop(a, &all[0..n], &mut items, &mut atcs, answers, coins);
    put_end(r, a[8], &items, &atcs, t);
    for i in 0..TOLD {
        t[3 + 2 * i] = wide8(answers[i]);
        t[4 + 2 * i] = coins[i];
    }
}

// Slot 1 has item 4, slot 2 item 5, whose requirement is that item 7 is held.
fn in_shop(
    a: &Words,
    list: &[u8],
    items: &mut [i16; 8],
    atcs: &mut [u8; 1],
    answers: &mut [u8; WISHES],
    coins: &mut [u32; WISHES],
) -> Result<Shopped, Refusal> {
    let mut wares: [i32; SLOTS] = [-1; SLOTS];
    let ware = ints::from_bits(a[2]);
    wares[0] = ware;
    wares[1] = 4;
    wares[2] = 5;
    let mut codes: [u64; CODES] = [0; CODES];
    codes[0] = code(a[4], a[5]);
    codes[2 * ENTRIES] = code(0, 7);
    let mut lens: [u8; SLOTS] = [0; SLOTS];
    lens[0] = 1;
    lens[2] = 1;
    with_save(a, list, &wares, &codes, &lens, items, atcs, answers, coins)
}

fn with_save(
    a: &Words,
    list: &[u8],
    wares: &[i32; SLOTS],
    codes: &[u64; CODES],
    lens: &[u8; SLOTS],
    items: &mut [i16; 8],
    atcs: &mut [u8; 1],
    answers: &mut [u8; WISHES],
    coins: &mut [u32; WISHES],
) -> Result<Shopped, Refusal> {
    let mut attached: [u8; 8] = [0; 8];
    attached[4] = 1;
    let limits: [i16; SLOTS] = [signed16(a[3]); SLOTS];
    let flags: [u8; FLAGS] = [low8(a[6]); FLAGS];
    let times: [i16; TIMES] = [0; TIMES];
    let mut vars: Variables = [0; VARIABLES];
    let prices: [u16; 8] = [low16(a[7]); 8];
    shopping(
        &attached,
        sheet_by(a),
        wares,
        &limits,
        codes,
        lens,
        items,
        atcs,
        &flags,
        &times,
        &mut vars,
        &prices,
        0,
        a[8],
        list,
        answers,
        coins,
    )
}

fn sheet_by(a: &Words) -> Sheet {
    Sheet {
        atcs: 1,
        timer5: ItemId(0),
        timer10: ItemId(low16(a[1])),
        timer15: ItemId(2),
    }
}

// ---- what is told

// A refused call takes no step, and the money stays.
fn put_end(
    r: Result<Shopped, Refusal>,
    money: u32,
    items: &[i16; 8],
    atcs: &[u8; 1],
    t: &mut Answer,
) {
    t[0] = u32::from(refusal_in(r.map(|_| ())));
    t[1] = r.map_or(0, |end| u32::from(end.steps));
    t[2] = r.map_or(money, |end| end.money);
    t[11] = bits16(items[3]);
    t[12] = bits16(items[4]);
    t[13] = wide8(atcs[0]);
}
