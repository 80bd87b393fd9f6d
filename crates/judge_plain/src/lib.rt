// Whether a script record is plainly fine: one pass over its commands that sums the nodes of their expressions out of a table, one over its blocks.
// A command that is not plainly fine counts more nodes than a script may have. Levels are asked of large commands alone: fewer than 64 nodes have no 65 levels.
#![tactic(auto)]

ghost use Rattle.std.specs.Prelude.{◌≡◌, true, IfSome, List, ◌*◌, ◌≤◌, ◌<◌, ℤ, length, get_or};
ghost use Rattle.model.specs.Limits.{node_limit, command_limit};
ghost use Rattle.memory.specs.View.{memory_of};
ghost use Rattle.judge_trees.specs.Trees.{Trees};
ghost use Rattle.judge_record.specs.Stages.{KeptBy};
ghost use Rattle.judge_plain.specs.Counted.{Ready, TermCount, Named, TailCount, CommandCount, SumCount, Levels, LowCommand, LowCommands, Follows, Apart, Plain};

use judge_trees::{is_shallow, measure_trees};
use memory::{
    BLOCK_LIMIT, BlockWords, COMMAND_LIMIT, CommandWords, Counts, NODE_LIMIT, NODES, NodeWords,
    Values,
};

// More nodes, and more commands, than a script may have: a command that is not plainly fine counts so many, the commands of such a block end there.
// It is no Option: sums of nodes carry it along with no test of their own, in the pass over all commands.
const TOO_MANY: usize = 40000;

// The nodes of the expression i of a command, or too many.
fn term_nodes(sizes: &[u16], nodes: u16, i: u16) -> usize
    requires { (nodes ≤ node_limit) × (nodes ≤ length sizes.now) }
    ensures { TermCount sizes.now nodes i result }
{
    if i < nodes {
        usize::from(sizes[usize::from(i)])
    } else {
        TOO_MANY
    }
}

// Nothing where block k is there, or too many.
fn named_block(k: u16, blocks: u16) -> usize
    ensures { Named k blocks result }
{
    if k < blocks { 0 } else { TOO_MANY }
}

// What follows the code of a Set: target and value.
fn set_nodes(sizes: &[u16], cw: &CommandWords, counts: Counts, i: usize) -> usize
    requires { (i < counts.commands) × Ready counts sizes.now }
    ensures { TailCount sizes.now cw.now counts i 2 result }
{
    match cw[4 * i + 3] {
        0 => {
            let target = term_nodes(sizes, counts.nodes, cw[4 * i + 1]);
            let value = term_nodes(sizes, counts.nodes, cw[4 * i + 2]);
            target + value
        }
        1 => term_nodes(sizes, counts.nodes, cw[4 * i + 2]),
        _ => TOO_MANY,
    }
}

// What follows the code of an If: condition and else block.
fn if_nodes(sizes: &[u16], cw: &CommandWords, counts: Counts, i: usize) -> usize
    requires { (i < counts.commands) × Ready counts sizes.now }
    ensures { TailCount sizes.now cw.now counts i 3 result }
{
    term_nodes(sizes, counts.nodes, cw[4 * i + 1]) + named_block(cw[4 * i + 3], counts.blocks)
}

// Command i.
fn command_nodes(sizes: &[u16], cw: &CommandWords, counts: Counts, i: usize) -> usize
    requires { (i < counts.commands) × Ready counts sizes.now }
    ensures { CommandCount sizes.now cw.now counts i result }
{
    match cw[4 * i] {
        0 | 5 => 0,
        1 | 4 => named_block(cw[4 * i + 3], counts.blocks),
        2 => set_nodes(sizes, cw, counts, i),
        3 => if_nodes(sizes, cw, counts, i),
        _ => TOO_MANY,
    }
}

// The nodes of all commands, and a number that is at least those of each command.
#[derive(Clone, Copy)]
struct Sum {
    nodes: usize,
    most: usize,
}

// The nodes of all commands that are kept, whether a block holds them or not; none where one is not plainly fine.
fn commands_nodes(sizes: &[u16], cw: &CommandWords, counts: Counts) -> Option<Sum>
    requires { Ready counts sizes.now }
    ensures { IfSome result (λ sum. SumCount sizes.now cw.now counts counts.commands sum.nodes sum.most) }
{
    let mut nodes = 0;
    let mut most = 0;
    for i in 0..usize::from(counts.commands) {
        let own = command_nodes(sizes, cw, counts, i);
        if own >= TOO_MANY {
            return None;
        }
        nodes += own;
        most |= own;
    }
    Some(Sum { nodes, most })
}

// Target and value of a Set have at most 64 levels.
fn set_shallow(ws: &NodeWords, cw: &CommandWords, i: usize) -> bool
    requires { i < command_limit }
    ensures { result ≡ true → Levels ws.now cw.now i 2 }
{
    is_shallow(ws, usize::from(cw[4 * i + 2]), 64)
        && (cw[4 * i + 3] != 0 || is_shallow(ws, usize::from(cw[4 * i + 1]), 64))
}

// Whether the expressions of command i have at most 64 levels each.
fn command_shallow(
    ws: &NodeWords,
    sizes: &[u16],
    cw: &CommandWords,
    counts: Counts,
    i: usize,
) -> bool
    requires { (i < counts.commands) × Ready counts sizes.now }
    ensures { result ≡ true → LowCommand ws.now sizes.now cw.now counts i }
{
    if command_nodes(sizes, cw, counts, i) < 64 {
        return true;
    }
    match cw[4 * i] {
        2 => set_shallow(ws, cw, i),
        3 => is_shallow(ws, usize::from(cw[4 * i + 1]), 64),
        _ => true,
    }
}

// The same of all commands, where one of them may have more levels: at most so many nodes has each.
fn commands_shallow(
    ws: &NodeWords,
    sizes: &[u16],
    cw: &CommandWords,
    counts: Counts,
    most: usize,
) -> bool
    requires { Ready counts sizes.now }
    ensures { result ≡ true → 64 ≤ most → LowCommands ws.now sizes.now cw.now counts counts.commands }
{
    most < 64
        || (0..usize::from(counts.commands)).all(|i| command_shallow(ws, sizes, cw, counts, i))
}

// Where the commands of block i end, which is code: they begin where those of the blocks before it end, or later, and its links are there.
fn code_end(bw: &BlockWords, counts: Counts, i: usize, end: usize) -> usize
    requires { (i < counts.blocks) × (get_or bw.now (5 * i) 0 ≡ 1) × KeptBy counts }
    ensures { result ≤ counts.commands → Follows bw.now counts i end result }
{
    if counts.blocks < bw[5 * i + 3] {
        return TOO_MANY;
    }
    if counts.blocks < bw[5 * i + 4] {
        return TOO_MANY;
    }
    let held = usize::from(bw[5 * i + 2]);
    if held == 0 {
        return end;
    }
    let first = usize::from(bw[5 * i + 1]);
    if first < end {
        return TOO_MANY;
    }
    first + held
}

// The same of any block: where it is not code it holds no commands.
fn block_end(bw: &BlockWords, counts: Counts, i: usize, end: usize) -> usize
    requires { (i < counts.blocks) × KeptBy counts }
    ensures { result ≤ counts.commands → Follows bw.now counts i end result }
{
    match bw[5 * i] {
        0 | 2 => end,
        1 => code_end(bw, counts, i, end),
        _ => TOO_MANY,
    }
}

// Whether no command is held twice and every block is fine but for its commands.
fn blocks_apart(bw: &BlockWords, counts: Counts) -> bool
    requires { KeptBy counts }
    ensures { result ≡ true → Apart bw.now counts }
{
    let mut end = 0;
    for i in 0..usize::from(counts.blocks) {
        end = block_end(bw, counts, i, end);
        if end > usize::from(counts.commands) {
            return false;
        }
    }
    true
}

// All commands and blocks, by a table of the trees.
fn plain_by(
    ws: &NodeWords,
    sizes: &[u16],
    cw: &CommandWords,
    bw: &BlockWords,
    counts: Counts,
) -> bool
    requires { Ready counts sizes.now }
    ensures { result ≡ true → (vs : List ℤ) → Trees ws.now vs sizes.now counts.nodes → Plain (memory_of ws.now vs cw.now bw.now counts) }
{
    let Some(sum) = commands_nodes(sizes, cw, counts) else {
        return false;
    };
    sum.nodes <= usize::from(counts.nodes)
        && commands_shallow(ws, sizes, cw, counts, sum.most)
        && blocks_apart(bw, counts)
}

// The same with a table that is still to be filled, with room for every node that a script may keep.
fn plain_with(
    ws: &NodeWords,
    val: &Values,
    cw: &CommandWords,
    bw: &BlockWords,
    sizes: &mut [u16],
    counts: Counts,
) -> bool
    requires { counts.nodes ≤ node_limit → counts.nodes ≤ length sizes.old }
    ensures { result ≡ true → Plain (memory_of ws.now val.now cw.now bw.now counts) }
{
    counts.blocks <= BLOCK_LIMIT
        && counts.commands <= COMMAND_LIMIT
        && counts.nodes <= NODE_LIMIT
        && measure_trees(ws, val, sizes, usize::from(counts.nodes))
        && plain_by(ws, sizes, cw, bw, counts)
}

// With a table for so many nodes: to clear a large one takes longer than to go over a small script.
fn plain_up_to<const MOST: usize>(
    ws: &NodeWords,
    val: &Values,
    cw: &CommandWords,
    bw: &BlockWords,
    counts: Counts,
) -> bool
    requires { (MOST ≤ node_limit) × (counts.nodes ≤ node_limit → counts.nodes ≤ MOST) }
    ensures { result ≡ true → Plain (memory_of ws.now val.now cw.now bw.now counts) }
{
    let mut sizes = [0u16; MOST];
    plain_with(ws, val, cw, bw, &mut sizes, counts)
}

// True says that the record is judged fine, false says nothing. There is no way out before a table: the kept counts are held against
// their limits behind it (docs/DECISIONS.md, "Large arrays").
pub fn is_plain(
    ws: &NodeWords,
    val: &Values,
    cw: &CommandWords,
    bw: &BlockWords,
    counts: Counts,
) -> bool
    ensures { result ≡ true → Plain (memory_of ws.now val.now cw.now bw.now counts) }
{
    if counts.nodes > 1024 {
        plain_up_to::<NODES>(ws, val, cw, bw, counts)
    } else if counts.nodes > 64 {
        plain_up_to::<1024>(ws, val, cw, bw, counts)
    } else {
        plain_up_to::<64>(ws, val, cw, bw, counts)
    }
}
