// Walks for many saves (02, A.8 and A.10), through the exported call: runs the cases of its standard input, one to a line, and says of each whether it answered what the line says.
#![tactic(auto)]

ghost use Rattle.std.specs.Prelude.{◌≤◌};

use capi_lanes::{Walked, lk_run_all};
use case_lines::{Answer, WORDS, Words, low16, run_cases, signed16, wide8};
use lanes_expr::LANES;
use memory::{
    BLOCK_WORDS, BlockWords, COMMAND_WORDS, CommandWords, NODE_WORDS, NODES, NodeWords, Values,
};
use model::{FLAGS, VARIABLES};

fn main() {
    let mut input: [u8; 8192] = [0; 8192];
    let mut ws: NodeWords = [0; NODE_WORDS];
    let mut val: Values = [0; NODES];
    let mut cw: CommandWords = [0; COMMAND_WORDS];
    let mut bw: BlockWords = [0; BLOCK_WORDS];
    start(&mut input, &mut ws, &mut val, &mut cw, &mut bw);
}

// Large arrays are not read where they are made: the proof would go through their elements. The script goes from line to line.
fn start(
    input: &mut [u8; 8192],
    ws: &mut NodeWords,
    val: &mut Values,
    cw: &mut CommandWords,
    bw: &mut BlockWords,
) {
    run_cases(
        input,
        b"W",
        |_| WORDS,
        |op, a, t| match op {
            b'n' => node(a, ws, val),
            b'c' => words(cw, 4, a),
            b'b' => words(bw, 5, a),
            b'W' => walked(a, ws, val, cw, bw, t),
            _ => (),
        },
    );
}

// ---- the script

// Node by number: its code, left, value and right.
fn node(a: &Words, ws: &mut NodeWords, val: &mut Values) {
    let i = a[1] as usize;
    if i < NODES {
        ws[3 * i] = low16(a[2]);
        ws[3 * i + 1] = low16(a[3]);
        ws[3 * i + 2] = low16(a[5]);
        val[i] = ints::from_bits(a[4]);
    }
}

// A command or a block by number: its words, so many. One past the array is not written.
fn words(to: &mut [u16], size: usize, a: &Words)
    requires { size ≤ 5 }
{
    let first = a[1] as usize * size;
    for j in 0..size {
        if let Some(word) = to.get_mut(first + j) {
            *word = low16(a[2 + j]);
        }
    }
}

// ---- a walk

// What 65 saves hold is made for each walk, so that none sees what another wrote.
fn walked(
    a: &Words,
    ws: &NodeWords,
    val: &Values,
    cw: &CommandWords,
    bw: &BlockWords,
    t: &mut Answer,
) {
    let mut items: [i16; 520] = [0; 520];
    let flags: [u8; 133120] = [0; 133120];
    let mut vars: [i32; 66560] = [0; 66560];
    shown(a, ws, val, cw, bw, &mut items, &flags, &mut vars, t);
}

// Where nothing is written stand 9, and in variable 1 of the first two saves 5.
fn shown(
    a: &Words,
    ws: &NodeWords,
    val: &Values,
    cw: &CommandWords,
    bw: &BlockWords,
    items: &mut [i16; 520],
    flags: &[u8; 133120],
    vars: &mut [i32; 66560],
    t: &mut Answer,
) {
    held(a, items, vars);
    let mut refusals: [u8; LANES] = [9; LANES];
    let mut entered: [u32; LANES] = [9; LANES];
    let r = walk(
        a,
        a[6],
        ws,
        val,
        cw,
        bw,
        items,
        flags,
        vars,
        &mut refusals,
        &mut entered,
    );
    t[0] = u32::from(r.refusal);
    t[1] = r.read;
    t[2] = wide8(refusals[0]);
    t[3] = entered[0];
    t[4] = ints::to_bits(vars[1]);
    t[5] = wide8(refusals[1]);
    t[6] = entered[1];
    t[7] = ints::to_bits(vars[1025]);
}

fn held(a: &Words, items: &mut [i16; 520], vars: &mut [i32; 66560]) {
    items[7] = signed16(a[7]);
    items[15] = signed16(a[8]);
    items[512] = signed16(a[9]);
    vars[1] = 5;
    vars[1025] = 5;
}

// The saves are the first of 65.
fn walk(
    a: &Words,
    saves: u32,
    ws: &NodeWords,
    val: &Values,
    cw: &CommandWords,
    bw: &BlockWords,
    items: &[i16],
    flags: &[u8],
    vars: &mut [i32],
    refusals: &mut [u8; LANES],
    entered: &mut [u32; LANES],
) -> Walked {
    let times: [i16; 520] = [0; 520];
    let few = 8 * saves as usize;
    let long = FLAGS * saves as usize;
    let many = VARIABLES * saves as usize;
    if items.len() < few || 520 < few {
        return too_many();
    }
    if flags.len() < long || vars.len() < many {
        return too_many();
    }
    run(
        a,
        ws,
        val,
        cw,
        bw,
        &items[0..few],
        &flags[0..long],
        &times[0..few],
        &mut vars[0..many],
        refusals,
        entered,
    )
}

// No call was made: a refusal that none answers.
fn too_many() -> Walked {
    Walked {
        refusal: 255,
        read: 0,
    }
}

// Eight items and no atc, timers 0, the line's Timer10 and 2.
fn run(
    a: &Words,
    ws: &NodeWords,
    val: &Values,
    cw: &CommandWords,
    bw: &BlockWords,
    items: &[i16],
    flags: &[u8],
    times: &[i16],
    vars: &mut [i32],
    refusals: &mut [u8; LANES],
    entered: &mut [u32; LANES],
) -> Walked {
    let attached: [u8; 8] = [0; 8];
    lk_run_all(
        &attached,
        0,
        0,
        low16(a[1]),
        2,
        ws,
        val,
        cw,
        bw,
        low16(a[2]),
        low16(a[3]),
        low16(a[4]),
        a[5],
        a[6],
        items,
        &flags[0..0],
        flags,
        times,
        vars,
        refusals,
        entered,
    )
}
