// A reclaim with the numbers of a line, and what it answered as numbers.
use crate::calls::{Kept, tell_counts, whole};
use case_lines::{Answer, Words, bit};
use memory::{BLOCKS, Births, BlockWords, CommandWords, NodeWords, Values};
use model::refusal_in;
use reclaim::reclaim;

// More roots than are allowed can be given.
const MOST: usize = 300;

// The array that tells is all 7 before, which no accepted reclaim here tells.
pub fn reclaimed(
    a: &Words,
    ws: &mut NodeWords,
    val: &mut Values,
    cw: &mut CommandWords,
    bw: &mut BlockWords,
    births: &mut Births,
    kept: Kept,
    t: &mut Answer,
) -> Kept {
    let mut roots: [u32; MOST] = [0; MOST];
    let mut moved: [u16; BLOCKS] = [7; BLOCKS];
    let n = fill(a, &mut roots);
    reclaim_some(a, &roots, n, &mut moved, ws, val, cw, bw, births, kept, t)
}

// The first n roots.
fn reclaim_some(
    a: &Words,
    roots: &[u32; MOST],
    n: usize,
    moved: &mut [u16; BLOCKS],
    ws: &mut NodeWords,
    val: &mut Values,
    cw: &mut CommandWords,
    bw: &mut BlockWords,
    births: &mut Births,
    kept: Kept,
    t: &mut Answer,
) -> Kept {
    match roots.get(..n) {
        Some(given) => reclaim_by(a, given, moved, ws, val, cw, bw, births, kept, t),
        None => kept,
    }
}

// How many roots, the first, and what each further one is more.
fn fill(a: &Words, roots: &mut [u32; MOST]) -> usize {
    let n = MOST.min(a[1] as usize);
    let mut root = a[2];
    for place in roots.iter_mut().take(n) {
        *place = root;
        root = root.wrapping_add(a[3]);
    }
    n
}

fn reclaim_by(
    a: &Words,
    roots: &[u32],
    moved: &mut [u16; BLOCKS],
    ws: &mut NodeWords,
    val: &mut Values,
    cw: &mut CommandWords,
    bw: &mut BlockWords,
    births: &mut Births,
    kept: Kept,
    t: &mut Answer,
) -> Kept {
    let held = kept.counts;
    let before = whole(ws, val, cw, bw, births, held, kept.compiles);
    let r = reclaim(ws, val, cw, bw, births, held, roots, moved);
    let k = r.unwrap_or(held);
    let after = whole(ws, val, cw, bw, births, k, kept.compiles);
    tell_counts(t, refusal_in(r.map(|_| ())), k);
    t[4] = moved.get(a[4] as usize).map_or(0, |b| u32::from(*b));
    t[5] = bit(before == after);
    Kept {
        counts: k,
        compiles: kept.compiles,
    }
}
