// Runs the cases of its standard input, one to a line, through the calls, and says of each whether it answered what the line says. The input's first lines say how a case is written.
#![tactic(auto)]

mod calls;
mod changes;
mod reclaims;

use calls::{Kept, asked, compiled, counts, judged, parsed, ran, read, written};
use case_lines::{Answer, WORDS, Words, run_cases};
use changes::{bytes, change, mark};
use memory::{
    BLOCK_WORDS, BLOCKS, Births, BlockWords, COMMAND_WORDS, CommandWords, Counts, NODE_WORDS,
    NODES, NodeWords, Values,
};
use model::INPUT;
use reclaims::reclaimed;

fn main() {
    let mut input: [u8; INPUT] = [0; INPUT];
    let mut image: [u8; 65600] = [0; 65600];
    let mut ws: NodeWords = [0; NODE_WORDS];
    let mut val: Values = [0; NODES];
    let mut cw: CommandWords = [0; COMMAND_WORDS];
    let mut bw: BlockWords = [0; BLOCK_WORDS];
    let mut births: Births = [0; BLOCKS];
    start(
        &mut input,
        &mut image,
        &mut ws,
        &mut val,
        &mut cw,
        &mut bw,
        &mut births,
    );
}

// Large arrays are not read where they are made: the proof would go through their elements. The script, its counts and the length of the image go from line to line.
fn start(
    input: &mut [u8; INPUT],
    image: &mut [u8; 65600],
    ws: &mut NodeWords,
    val: &mut Values,
    cw: &mut CommandWords,
    bw: &mut BlockWords,
    births: &mut Births,
) {
    let mut kept = calls::none();
    let mut len = 0;
    run_cases(input, b"ACIJPRTW", hex_from, |op, a, t| {
        len = bytes(op, a, image, len);
        kept = step(op, a, image, len, ws, val, cw, bw, births, kept, t);
    });
}

// Bytes are hexadecimal.
fn hex_from(op: u8) -> usize {
    match op {
        b'B' | b'I' => 3,
        _ => WORDS,
    }
}

// ---- the calls

// Compile, reclaim and read return at once: where ways meet, each array that one of them changes costs a proof.
fn step(
    op: u8,
    a: &mut Words,
    image: &[u8; 65600],
    len: usize,
    ws: &mut NodeWords,
    val: &mut Values,
    cw: &mut CommandWords,
    bw: &mut BlockWords,
    births: &mut Births,
    k: Kept,
    t: &mut Answer,
) -> Kept {
    if op == b'C' {
        return compiled(a, ws, val, cw, bw, births, k, t);
    }
    if op == b'T' {
        return reclaimed(a, ws, val, cw, bw, births, k, t);
    }
    if op == b'I' {
        return read(image, len, ws, val, cw, bw, births, t);
    }
    change(op, a, ws, val, cw, bw);
    mark(op, a, births);
    shown(op, a, image, len, ws, val, cw, bw, k.counts, t);
    asked(op == b'A', a, births, k.compiles, t);
    kept(op, a, k)
}

fn kept(op: u8, a: &Words, k: Kept) -> Kept {
    match op {
        b'K' => Kept {
            counts: counts(a[1], a[2], a[3]),
            compiles: k.compiles,
        },
        b'N' => Kept {
            counts: k.counts,
            compiles: a[1],
        },
        _ => k,
    }
}

// Those that only read the script.
fn shown(
    op: u8,
    a: &Words,
    image: &[u8; 65600],
    len: usize,
    ws: &NodeWords,
    val: &Values,
    cw: &CommandWords,
    bw: &BlockWords,
    k: Counts,
    t: &mut Answer,
) {
    match op {
        b'P' => parsed(a, ws, val, cw, bw, k, t),
        b'R' => ran(a, ws, val, cw, bw, k, t),
        b'J' => judged(ws, val, cw, bw, k, t),
        b'W' => written(a, image, len, ws, val, cw, bw, k, t),
        _ => (),
    }
}
