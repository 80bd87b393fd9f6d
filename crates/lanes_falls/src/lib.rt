// Whether the blocks that a setup block leads to link to lower numbers only (02, A.8): one sweep from the highest block down, over an array of marks.
#![tactic(auto)]

ghost use Rattle.std.specs.Prelude.{◌≡◌, List, [], ◌∷◌, ℕ, ◌+◌, ◌≤◌, ◌<◌, ℤ, replicate, false};
ghost use Rattle.model.specs.Limits.{block_limit, command_limit};
ghost use Rattle.model.specs.Memory.{link_in, script_of};
ghost use Rattle.memory.specs.View.{memory_of};
ghost use Rattle.reclaim_model.specs.Rename.{with_link};
ghost use Rattle.reclaim_reach.specs.Words.{target_at, targets_at, links_at, Safe};
ghost use Rattle.reclaim_reach.specs.Marks.{blocks_of};
ghost use Rattle.lanes_model.specs.Falls.{falls, sweep};
ghost use Rattle.lanes_falls.specs.Marking.{Marking, Fits};
ghost use Rattle.lanes_falls.specs.Sweeps.{FallsFrom};

use memory::{BLOCKS, BlockWords, CommandWords, Counts};
use model::BlockNo;
use reclaim_reach::Marks;

// Marks block k, if its number is below n.
fn mark_below(marks: &mut Marks, k: u16, n: u16) -> bool
    requires { n ≤ block_limit }
    ensures { Marking n (k ∷ []) marks.old result marks.new }
{
    if k >= n {
        return false;
    }
    marks[usize::from(k)] = true;
    true
}

// A word of next or else: 0 is none.
fn link_below(marks: &mut Marks, w: u16, n: u16) -> bool
    requires { n ≤ block_limit }
    ensures { Marking n (with_link (link_in w) []) marks.old result marks.new }
{
    w == 0 || mark_below(marks, w - 1, n)
}

// The target of command i, if it is a Goto, an If or an EndIf.
fn target_below(cw: &CommandWords, i: usize, marks: &mut Marks, n: u16) -> bool
    requires { (n ≤ block_limit) × (i < command_limit) }
    ensures { Marking n (with_link (target_at cw.now i) []) marks.old result marks.new }
{
    let block = cw[4 * i + 3];
    match cw[4 * i] {
        1 | 3 | 4 => mark_below(marks, block, n),
        _ => true,
    }
}

// The targets of so many commands, from the first on.
fn targets_below(cw: &CommandWords, first: u16, held: u16, marks: &mut Marks, n: u16) -> bool
    requires { (n ≤ block_limit) × ((j : ℕ) → j < held → first + j < command_limit) }
    ensures { Marking n (targets_at cw.now held first) marks.old result marks.new }
{
    let first = usize::from(first);
    for i in 0..usize::from(held) {
        if !target_below(cw, first + i, marks, n) {
            return false;
        }
    }
    true
}

// Marks what block b links to, as long as its links are below n: whether all of them are.
fn links_below(cw: &CommandWords, bw: &BlockWords, b: usize, marks: &mut Marks, n: u16) -> bool
    requires { (n ≤ block_limit) × (b < block_limit) × Fits bw.now b }
    ensures { Marking n (links_at cw.now bw.now b) marks.old result marks.new }
{
    if bw[5 * b] != 1 {
        return true;
    }
    if !link_below(marks, bw[5 * b + 3], n) {
        return false;
    }
    if !link_below(marks, bw[5 * b + 4], n) {
        return false;
    }
    targets_below(cw, bw[5 * b + 1], bw[5 * b + 2], marks, n)
}

// ---- the sweep

// A block without a mark costs one look at its mark.
fn sweep_down(cw: &CommandWords, bw: &BlockWords, blocks: u16, marks: &mut Marks) -> bool
    requires { Safe cw.now bw.now blocks }
    ensures { result ≡ sweep (blocks_of cw.now bw.now blocks) blocks marks.old }
{
    for n in (0..blocks).rev() {
        let b = usize::from(n);
        if marks[b] && !links_below(cw, bw, b, marks, n) {
            return false;
        }
    }
    true
}

// What the setup block links to is marked first: every link is to one of the blocks.
fn sweep_from(cw: &CommandWords, bw: &BlockWords, blocks: u16, b: usize, marks: &mut Marks) -> bool
    requires { Safe cw.now bw.now blocks × (b < blocks) × (marks.old ≡ replicate block_limit false) }
    ensures { FallsFrom cw.now bw.now blocks b result }
{
    let _all = links_below(cw, bw, b, marks, blocks);
    sweep_down(cw, bw, blocks, marks)
}

// No block that one or more links lead to from the setup block has a link that does not go to a lower number.
pub fn falls_from(cw: &CommandWords, bw: &BlockWords, counts: Counts, setup: BlockNo) -> bool
    requires { Safe cw.now bw.now counts.blocks × (setup.0 < counts.blocks) }
    ensures { (ws : List ℕ) (val : List ℤ) → result ≡ falls (script_of (memory_of ws val cw.now bw.now counts)).blocks setup.0 }
{
    let mut marks = [false; BLOCKS];
    sweep_from(cw, bw, counts.blocks, setup.0 as usize, &mut marks)
}
