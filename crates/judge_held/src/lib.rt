// Whether a script record holds something at or past its kept counts. Each kept command and each block is looked at once, however blocks overlap.
#![tactic(auto)]

ghost use Rattle.std.specs.Prelude.{◌≡◌, List, ℕ, suc, ◌+◌, ◌*◌, ◌≤◌, ◌<◌, ℤ, length, get_or};
ghost use Rattle.model.specs.Limits.{block_limit, command_limit};
ghost use Rattle.model.specs.Memory.{coded_in};
ghost use Rattle.model.specs.Record.{set_kept, roots_kept, block_kept, held_kept};
ghost use Rattle.memory.specs.View.{memory_of};
ghost use Rattle.judge_held.specs.Runs.{Run, Runs};

use memory::{BlockWords, CommandWords, Counts};

// The roots of a Set: its value, and its target where that is a Variable.
fn set_kept(cw: &CommandWords, nodes: u16, i: usize) -> bool
    requires { i < command_limit }
    ensures { (ws : List ℕ) (vs : List ℤ) (c : ℕ) → result ≡ set_kept (coded_in ws vs cw.now nodes c) i (get_or cw.now (4 * i + 3) 0) }
{
    if cw[4 * i + 3] == 0 {
        cw[4 * i + 1] < nodes && cw[4 * i + 2] < nodes
    } else {
        cw[4 * i + 2] < nodes
    }
}

// Whether the roots of command i are below the kept count of nodes.
fn roots_kept(cw: &CommandWords, nodes: u16, i: usize) -> bool
    requires { i < command_limit }
    ensures { (ws : List ℕ) (vs : List ℤ) (c : ℕ) → result ≡ roots_kept (coded_in ws vs cw.now nodes c) i (get_or cw.now (4 * i) 0) }
{
    match cw[4 * i] {
        2 => set_kept(cw, nodes, i),
        3 => cw[4 * i + 1] < nodes,
        _ => true,
    }
}

// The run of command i, where that of the next one is known: none if a root of its own is past the count.
fn run_from(cw: &CommandWords, counts: Counts, i: usize, after: u16) -> u16
    requires { (i < counts.commands) × (counts.commands ≤ command_limit) × Run cw.now counts (suc i) after }
    ensures { Run cw.now counts i result }
{
    if roots_kept(cw, counts.nodes, i) {
        after + 1
    } else {
        0
    }
}

// The runs of all kept commands, from the last on.
fn note_runs(cw: &CommandWords, runs: &mut [u16], counts: Counts)
    requires { (counts.commands ≤ command_limit) × (counts.commands ≤ length runs.old) }
    ensures { Runs cw.now counts runs.new 0 }
{
    let mut run = 0;
    for i in (0..usize::from(counts.commands)).rev() {
        run = run_from(cw, counts, i, run);
        runs[i] = run;
    }
}

// Block i: where it is code, its commands are no more than the run of the first.
fn block_kept(bw: &BlockWords, runs: &[u16], counts: Counts, i: usize) -> bool
    requires { (i < block_limit) × (counts.commands ≤ length runs.now) }
    ensures { (ws : List ℕ) (vs : List ℤ) (cw : List ℕ) → Runs cw counts runs.now 0 → result ≡ block_kept (memory_of ws vs cw bw.now counts) i (get_or bw.now (5 * i) 0) }
{
    if bw[5 * i] != 1 {
        return true;
    }
    let held = bw[5 * i + 2];
    let first = bw[5 * i + 1];
    if first < counts.commands {
        held <= runs[usize::from(first)]
    } else {
        held == 0
    }
}

// All blocks, by the runs of all commands.
fn blocks_kept(bw: &BlockWords, runs: &[u16], counts: Counts) -> bool
    requires { (counts.blocks ≤ block_limit) × (counts.commands ≤ length runs.now) }
    ensures { (ws : List ℕ) (vs : List ℤ) (cw : List ℕ) → Runs cw counts runs.now 0 → result ≡ held_kept (memory_of ws vs cw bw.now counts) }
{
    (0..usize::from(counts.blocks)).all(|i| block_kept(bw, runs, counts, i))
}

// False where a block holds a command, or such a command the root of an expression, at or past its kept count. What the table held before means nothing.
pub fn held_kept(cw: &CommandWords, bw: &BlockWords, runs: &mut [u16], counts: Counts) -> bool
    requires { (counts.blocks ≤ block_limit) × (counts.commands ≤ command_limit) × (counts.commands ≤ length runs.old) }
    ensures { (ws : List ℕ) (vs : List ℤ) → result ≡ held_kept (memory_of ws vs cw.now bw.now counts) }
{
    note_runs(cw, runs, counts);
    blocks_kept(bw, runs, counts)
}
