// The judgement of a script record: block by block as its image would be read, whatever its arrays hold.
// Each piece of a block that is fine answers with the nodes counted and the bytes passed after it, a block with the commands counted too.
#![tactic(auto)]

ghost use Rattle.std.specs.Prelude.{◌++◌, ◌*◌, ◌≤◌, ◌<◌, length};
ghost use Rattle.model.specs.Limits.{command_limit};
ghost use Rattle.model.specs.Reading.{word};
ghost use Rattle.model.specs.Script.{command_nodes, commands_nodes};
ghost use Rattle.model.specs.Image.{read_block_no, read_link, command_of, read_command, read_commands, set_of, block_of, read_block};
ghost use Rattle.model.specs.Record.{root_image, command_tail, command_image_in, commands_image_in, block_tail};
ghost use Rattle.memory.specs.View.{nodes_of, coded_of, memory_of};
ghost use Rattle.judge_terms.specs.Told.{Told, limits_by, ReadyBy};
ghost use Rattle.judge_record.specs.Stages.{KeptBy, uncounted, read_links, StandingBy, Staged, block_image_in, Within, JudgedAs, WalkedAs};

use image_numbers::short_length;
use judge_held::held_kept;
use judge_terms::judge_term;
use memory::{
    BLOCK_LIMIT, BlockWords, COMMAND_LIMIT, COMMANDS, CommandWords, Counts, NODE_LIMIT, NodeWords,
    Values,
};
use model::Refusal;

// A block that a command names: it has to be there.
fn judge_block_no(k: u16, blocks: u16, n: u16, at: usize) -> Result<(u16, usize), Refusal>
    requires { at ≤ 1000000 }
    ensures { Told (read_block_no blocks) uncounted (word k) n 3 n at result }
{
    let len = short_length(k);
    if k < blocks {
        Ok((n, at + len))
    } else {
        Err(Refusal::NoSuchLink)
    }
}

// A block's next or else: 0 for none, or one more than a block that is there.
fn judge_link(k: u16, blocks: u16, n: u16, at: usize) -> Result<(u16, usize), Refusal>
    requires { at ≤ 1000000 }
    ensures { Told (read_link blocks) uncounted (word k) n 3 n at result }
{
    let len = short_length(k);
    if k <= blocks {
        Ok((n, at + len))
    } else {
        Err(Refusal::NoSuchLink)
    }
}

// The target and the value of a Set whose target is a Variable.
fn judge_pair(
    ws: &NodeWords,
    val: &Values,
    counts: Counts,
    i: u16,
    j: u16,
    n: u16,
    at: usize,
) -> Result<(u16, usize), Refusal>
    requires { ReadyBy counts n at 200000 }
    ensures { Told (set_of (limits_by counts) n 0) command_nodes (root_image (nodes_of ws.now val.now counts) i ++ root_image (nodes_of ws.now val.now counts) j) counts.nodes 0 n at result }
{
    let (m, p) = judge_term(ws, val, counts, i, n, at)?;
    judge_term(ws, val, counts, j, m, p)
}

// What follows the code of a Set: target and value.
fn judge_set(
    ws: &NodeWords,
    val: &Values,
    cw: &CommandWords,
    counts: Counts,
    i: usize,
    n: u16,
    at: usize,
) -> Result<(u16, usize), Refusal>
    requires { (i < counts.commands) × ReadyBy counts n at 199000 }
    ensures { Told (command_of (limits_by counts) n 2) command_nodes (command_tail (coded_of ws.now val.now cw.now counts) i 2) counts.nodes 3 n at result }
{
    let target = cw[4 * i + 3];
    if target == 0 {
        return judge_pair(ws, val, counts, cw[4 * i + 1], cw[4 * i + 2], n, at + 1);
    }
    if target == 1 {
        return judge_term(ws, val, counts, cw[4 * i + 2], n, at + 1);
    }
    Err(Refusal::BadImage)
}

// What follows the code of an If: condition and else block.
fn judge_if(
    ws: &NodeWords,
    val: &Values,
    cw: &CommandWords,
    counts: Counts,
    i: usize,
    n: u16,
    at: usize,
) -> Result<(u16, usize), Refusal>
    requires { (i < counts.commands) × ReadyBy counts n at 199000 }
    ensures { Told (command_of (limits_by counts) n 3) command_nodes (command_tail (coded_of ws.now val.now cw.now counts) i 3) counts.nodes 3 n at result }
{
    let (m, p) = judge_term(ws, val, counts, cw[4 * i + 1], n, at)?;
    judge_block_no(cw[4 * i + 3], counts.blocks, m, p)
}

// What follows the code k of a command.
fn judge_tail(
    ws: &NodeWords,
    val: &Values,
    cw: &CommandWords,
    counts: Counts,
    i: usize,
    k: u16,
    n: u16,
    at: usize,
) -> Result<(u16, usize), Refusal>
    requires { (i < counts.commands) × ReadyBy counts n at 199000 }
    ensures { Told (command_of (limits_by counts) n k) command_nodes (command_tail (coded_of ws.now val.now cw.now counts) i k) counts.nodes 3 n at result }
{
    match k {
        0 => Ok((n, at)),
        1 => judge_block_no(cw[4 * i + 3], counts.blocks, n, at),
        2 => judge_set(ws, val, cw, counts, i, n, at),
        3 => judge_if(ws, val, cw, counts, i, n, at),
        4 => judge_block_no(cw[4 * i + 3], counts.blocks, n, at),
        _ => Ok((n, at)),
    }
}

// Command i, which has to be below the kept count.
fn judge_command(
    ws: &NodeWords,
    val: &Values,
    cw: &CommandWords,
    counts: Counts,
    i: usize,
    n: u16,
    at: usize,
) -> Result<(u16, usize), Refusal>
    requires { ReadyBy counts n at 198000 }
    ensures { Told (read_command (limits_by counts) n) command_nodes (command_image_in (coded_of ws.now val.now cw.now counts) i) counts.nodes 4 n at result }
{
    if i >= usize::from(counts.commands) {
        return Err(Refusal::BadImage);
    }
    let k = cw[4 * i];
    if k >= 6 {
        return Err(Refusal::BadImage);
    }
    judge_tail(ws, val, cw, counts, i, k, n, at + 1)
}

// So many commands, from the first on; they may run past the arrays.
fn judge_commands(
    ws: &NodeWords,
    val: &Values,
    cw: &CommandWords,
    counts: Counts,
    first: u16,
    held: u16,
    n: u16,
    at: usize,
) -> Result<(u16, usize), Refusal>
    requires { (held ≤ command_limit) × ReadyBy counts n at 110000 }
    ensures { Told (read_commands (limits_by counts) held n) commands_nodes (commands_image_in (coded_of ws.now val.now cw.now counts) held first) counts.nodes (4 * held) n at result }
{
    let first = usize::from(first);
    let mut k = n;
    let mut p = at;
    for i in 0..usize::from(held) {
        (k, p) = judge_command(ws, val, cw, counts, first + i, k, p)?;
    }
    Ok((k, p))
}

// Next and else of a code block.
fn judge_links(x: u16, y: u16, blocks: u16, n: u16, at: usize) -> Result<(u16, usize), Refusal>
    requires { at ≤ 900000 }
    ensures { Told (read_links blocks) uncounted (word x ++ word y) n 6 n at result }
{
    let (m, p) = judge_link(x, blocks, n, at)?;
    judge_link(y, blocks, m, p)
}

// What follows the kind of a code block. Its commands count when their number is read, whether they are there or not.
fn judge_code(
    ws: &NodeWords,
    val: &Values,
    cw: &CommandWords,
    bw: &BlockWords,
    counts: Counts,
    i: usize,
    n: u16,
    m: u16,
    at: usize,
) -> Result<(u16, u16, usize), Refusal>
    requires { StandingBy counts i n m at 109000 }
    ensures { Staged (block_of (limits_by counts) m n 1) (block_tail (memory_of ws.now val.now cw.now bw.now counts) i 1) counts.nodes counts.commands 9 n m at result }
{
    let held = bw[5 * i + 2];
    let room = counts.commands - m;
    let len = short_length(held);
    if held > room {
        return Err(Refusal::OverLimit);
    }
    let (k, p) = judge_commands(ws, val, cw, counts, bw[5 * i + 1], held, n, at + len)?;
    let (k, p) = judge_links(bw[5 * i + 3], bw[5 * i + 4], counts.blocks, k, p)?;
    Ok((k, m + held, p))
}

// Block i.
fn judge_block(
    ws: &NodeWords,
    val: &Values,
    cw: &CommandWords,
    bw: &BlockWords,
    counts: Counts,
    i: usize,
    n: u16,
    m: u16,
    at: usize,
) -> Result<(u16, u16, usize), Refusal>
    requires { StandingBy counts i n m at 108000 }
    ensures { Staged (read_block (limits_by counts) m n) (block_image_in (memory_of ws.now val.now cw.now bw.now counts) i) counts.nodes counts.commands 10 n m at result }
{
    let kind = bw[5 * i];
    match kind {
        0 => Ok((n, m, at + 1)),
        1 => judge_code(ws, val, cw, bw, counts, i, n, m, at + 1),
        2 => Ok((n, m, at + 1)),
        _ => Err(Refusal::BadImage),
    }
}

// All blocks, where the kept counts are within their limits.
fn judge_blocks(
    ws: &NodeWords,
    val: &Values,
    cw: &CommandWords,
    bw: &BlockWords,
    counts: Counts,
) -> Result<usize, Refusal>
    requires { KeptBy counts }
    ensures { WalkedAs (memory_of ws.now val.now cw.now bw.now counts) result }
{
    let mut n = 0;
    let mut m = 0;
    let mut p = short_length(counts.blocks);
    for i in 0..usize::from(counts.blocks) {
        (n, m, p) = judge_block(ws, val, cw, bw, counts, i, n, m, p)?;
    }
    Ok(p)
}

// Whether the kept counts are within their limits.
fn within_limits(counts: Counts) -> bool
    ensures { Within counts result }
{
    counts.blocks <= BLOCK_LIMIT && counts.commands <= COMMAND_LIMIT && counts.nodes <= NODE_LIMIT
}

// The kept counts, then block by block. What the walk accepts holds nothing past its kept counts, so that only what it refuses is asked for that.
fn judge_by(
    ws: &NodeWords,
    val: &Values,
    runs: &mut [u16],
    cw: &CommandWords,
    bw: &BlockWords,
    counts: Counts,
) -> Result<usize, Refusal>
    requires { command_limit ≤ length runs.old }
    ensures { JudgedAs (memory_of ws.now val.now cw.now bw.now counts) result }
{
    if !within_limits(counts) {
        return Err(Refusal::OverLimit);
    }
    match judge_blocks(ws, val, cw, bw, counts) {
        Ok(len) => Ok(len),
        Err(refusal) if held_kept(cw, bw, runs, counts) => Err(refusal),
        Err(_) => Err(Refusal::OverLimit),
    }
}

// The judgement of a script record, in the place of refusals 2 to 5: the kept counts first, then block by block as its image would be read.
// The table is made before anything is looked at: a way out before a large array is what the back end may get wrong.
pub fn judge_record(
    ws: &NodeWords,
    val: &Values,
    cw: &CommandWords,
    bw: &BlockWords,
    counts: Counts,
) -> Result<usize, Refusal>
    ensures { JudgedAs (memory_of ws.now val.now cw.now bw.now counts) result }
{
    let mut runs = [0u16; COMMANDS];
    judge_by(ws, val, &mut runs, cw, bw, counts)
}
