// The reader of an image: expressions, commands and blocks, and the whole script into lent arrays.
#![tactic(auto)]

ghost use Rattle.std.specs.Prelude.{◌≡◌, IfOk, ◌+◌, ◌-◌, ◌≤◌, ◌<◌, length, drop};
ghost use Rattle.model.specs.Limits.{block_limit, command_limit, node_limit, depth_limit, wide, wide16};
ghost use Rattle.model.specs.Reading.{number};
ghost use Rattle.model.specs.Image.{read_block_no, command_of, read_command, read_commands, read_link, block_of, read_block, read_blocks, read_image};
ghost use Rattle.model.specs.Memory.{nodes_in, coded_in};
ghost use Rattle.memory.specs.View.{empty_in, memory_of};
ghost use Rattle.image_read.specs.Told.{ToldNumber, ToldImm, ToldHead, read_at, ToldExpr};
ghost use Rattle.image_read.specs.Told.{limits_of, ToldNo, ToldJump, ToldCommand, ToldSet, ToldCommands};
ghost use Rattle.image_read.specs.Told.{ToldLink, ToldLinks, ToldCount, ToldBlock, ToldBlocks};
ghost use Rattle.image_read.specs.Outcome.{outcome, read_into};
ghost use Rattle.image_read.specs.Whole.{ToldImage};

use image_numbers::{read_number, signed};
use memory::{
    BLOCK_WORDS, BLOCKS, BlockWords, COMMAND_WORDS, COMMANDS, CommandWords, Counts, NODE_LIMIT,
    NODE_WORDS, NODES, NodeWords, Values, kind_of, push_block, push_command, push_node,
};
use model::{Kind, Refusal, WIDE, WIDE16};

// The limits as a number of the image is compared with them.
const MOST_BLOCKS: u64 = BLOCKS as u64;

const MOST_COMMANDS: u64 = COMMANDS as u64;

// ---- numbers

// A number below the limit and the place after it; where none stands, the image is bad.
fn number_below(s: &[u8], at: usize, limit: u64) -> Result<(u64, usize), Refusal>
    ensures told { ToldNumber s.now (number limit (drop at s.now)) result }
    ensures low { IfOk result (λ x. x.0 < limit) }
{
    read_number(s, at, limit).ok_or(Refusal::BadImage)
}

// ---- expressions

// A signed number below the limit, as a node of this code.
fn read_imm(
    s: &[u8],
    at: usize,
    ws: &mut NodeWords,
    val: &mut Values,
    n: u16,
    code: u16,
    limit: u64,
) -> Result<(u16, usize), Refusal>
    requires { (n < node_limit) × (limit ≤ wide) }
    ensures told { ToldImm s.now (nodes_in ws.old val.old n) code (number limit (drop at s.now)) result ws.new val.new }
    ensures grown { IfOk result (λ x. x.0 ≡ n + 1) }
{
    let (z, p) = number_below(s, at, limit)?;
    Ok((push_node(ws, val, n, code, 0, 0, signed(z)), p))
}

// The code of a node: unknown first, then a node too many, then a level too deep.
fn read_head(s: &[u8], at: usize, n: u16, depth: u16) -> Result<(u16, usize), Refusal>
    requires { (n + depth ≤ node_limit) × (depth ≤ depth_limit) }
    ensures told { ToldHead s.now at n depth result }
    ensures room { IfOk result (λ x. (n + depth < node_limit) × (depth < depth_limit)) }
{
    let (c, p) = number_below(s, at, 19)?;
    if n + depth >= NODE_LIMIT {
        return Err(Refusal::OverLimit);
    }
    if depth >= 64 {
        return Err(Refusal::TooDeep);
    }
    Ok((c as u16, p))
}

// An expression whose parents, as many as it is deep, are still to be pushed.
fn read_expr(
    s: &[u8],
    at: usize,
    ws: &mut NodeWords,
    val: &mut Values,
    n: u16,
    depth: u16,
) -> Result<(u16, usize), Refusal>
    requires { (n + depth ≤ node_limit) × (depth ≤ depth_limit) }
    ensures told { ToldExpr s.now (nodes_in ws.old val.old n) (read_at s.now at n depth) result ws.new val.new }
    ensures grown { IfOk result (λ x. (n < x.0) × (x.0 + depth ≤ node_limit)) }
{
    let (c, p) = read_head(s, at, n, depth)?;
    match kind_of(c) {
        Kind::Two(_) => {
            let (left, p) = read_expr(s, p, ws, val, n, depth + 1)?;
            let (right, p) = read_expr(s, p, ws, val, left, depth + 1)?;
            Ok((push_node(ws, val, right, c, left - 1, right - 1, 0), p))
        }
        Kind::One(_) => {
            let (operand, p) = read_expr(s, p, ws, val, n, depth + 1)?;
            Ok((push_node(ws, val, operand, c, operand - 1, 0, 0), p))
        }
        Kind::Imm16 => read_imm(s, p, ws, val, n, 11, WIDE16),
        Kind::Imm32 => read_imm(s, p, ws, val, n, 12, WIDE),
        Kind::Other => Ok((push_node(ws, val, n, 18, 0, 0, 0), p)),
    }
}

// ---- commands

// The number of a block that is there.
fn read_block_no(s: &[u8], at: usize, blocks: u16) -> Result<(u16, usize), Refusal>
    requires { blocks ≤ block_limit }
    ensures { ToldNo s.now (read_block_no blocks (drop at s.now)) result }
{
    let (k, p) = number_below(s, at, WIDE)?;
    if k >= u64::from(blocks) {
        return Err(Refusal::NoSuchLink);
    }
    Ok((k as u16, p))
}

// Command m of this code, Goto or EndIf: only a block.
fn read_jump(
    s: &[u8],
    at: usize,
    cw: &mut CommandWords,
    n: u16,
    m: u16,
    code: u16,
    blocks: u16,
) -> Result<(u16, usize), Refusal>
    requires { (m < command_limit) × (blocks ≤ block_limit) }
    ensures { ToldJump s.now (read_block_no blocks (drop at s.now)) cw.old n m code result cw.new }
{
    let (k, p) = read_block_no(s, at, blocks)?;
    push_command(cw, m, code, 0, 0, k);
    Ok((n, p))
}

// Command m, a Set: a variable's expression and a value, or a value alone.
fn read_set(
    s: &[u8],
    at: usize,
    ws: &mut NodeWords,
    val: &mut Values,
    cw: &mut CommandWords,
    n: u16,
    m: u16,
) -> Result<(u16, usize), Refusal>
    requires { (n ≤ node_limit) × (m < command_limit) }
    ensures { ToldSet s.now (coded_in ws.old val.old cw.old n m) n at result ws.new val.new cw.new (m + 1) }
{
    let (other, p) = number_below(s, at, 2)?;
    let (a, p) = read_expr(s, p, ws, val, n, 0)?;
    if other != 0 {
        push_command(cw, m, 2, 0, a - 1, 1);
        return Ok((a, p));
    }
    let (b, p) = read_expr(s, p, ws, val, a, 0)?;
    push_command(cw, m, 2, a - 1, b - 1, 0);
    Ok((b, p))
}

// Command m, an If: its condition, then the block of its else.
fn read_if(
    s: &[u8],
    at: usize,
    ws: &mut NodeWords,
    val: &mut Values,
    cw: &mut CommandWords,
    n: u16,
    m: u16,
    blocks: u16,
) -> Result<(u16, usize), Refusal>
    requires { (n ≤ node_limit) × (m < command_limit) × (blocks ≤ block_limit) }
    ensures { ToldCommand s.now (coded_in ws.old val.old cw.old n m) (command_of (limits_of blocks) n 3 (drop at s.now)) result ws.new val.new cw.new (m + 1) }
{
    let (a, p) = read_expr(s, at, ws, val, n, 0)?;
    let (k, p) = read_block_no(s, p, blocks)?;
    push_command(cw, m, 3, a - 1, 0, k);
    Ok((a, p))
}

// Command m, where so many nodes were read before.
fn read_command(
    s: &[u8],
    at: usize,
    ws: &mut NodeWords,
    val: &mut Values,
    cw: &mut CommandWords,
    n: u16,
    m: u16,
    blocks: u16,
) -> Result<(u16, usize), Refusal>
    requires { (n ≤ node_limit) × (m < command_limit) × (blocks ≤ block_limit) }
    ensures { ToldCommand s.now (coded_in ws.old val.old cw.old n m) (read_command (limits_of blocks) n (drop at s.now)) result ws.new val.new cw.new (m + 1) }
{
    let (c, p) = number_below(s, at, 6)?;
    match c {
        0 => {
            push_command(cw, m, 0, 0, 0, 0);
            Ok((n, p))
        }
        1 => read_jump(s, p, cw, n, m, 1, blocks),
        2 => read_set(s, p, ws, val, cw, n, m),
        3 => read_if(s, p, ws, val, cw, n, m, blocks),
        4 => read_jump(s, p, cw, n, m, 4, blocks),
        _ => {
            push_command(cw, m, 5, 0, 0, 0);
            Ok((n, p))
        }
    }
}

// So many commands, from command m on. A loop: recursion would be 16,384 deep.
fn read_commands(
    s: &[u8],
    at: usize,
    ws: &mut NodeWords,
    val: &mut Values,
    cw: &mut CommandWords,
    n: u16,
    m: u16,
    count: u16,
    blocks: u16,
) -> Result<(u16, usize), Refusal>
    requires { (n ≤ node_limit) × (m + count ≤ command_limit) × (blocks ≤ block_limit) × (at ≤ length s.now) }
    ensures { ToldCommands s.now (coded_in ws.old val.old cw.old n m) (read_commands (limits_of blocks) count n (drop at s.now)) result ws.new val.new cw.new (m + count) }
{
    let mut p = at;
    let mut nodes = n;
    for i in 0..count {
        (nodes, p) = read_command(s, p, ws, val, cw, nodes, m + i, blocks)?;
    }
    Ok((nodes, p))
}

// ---- blocks

// A block's next or else: 0 for none, one more than the block's number.
fn read_link(s: &[u8], at: usize, blocks: u16) -> Result<(u16, usize), Refusal>
    requires { blocks ≤ block_limit }
    ensures { ToldLink s.now (read_link blocks (drop at s.now)) result }
{
    let (k, p) = number_below(s, at, WIDE)?;
    if k > u64::from(blocks) {
        return Err(Refusal::NoSuchLink);
    }
    Ok((k as u16, p))
}

// Next, then else.
fn read_links(s: &[u8], at: usize, blocks: u16) -> Result<(u16, u16, usize), Refusal>
    requires { blocks ≤ block_limit }
    ensures { ToldLinks s.now blocks at result }
{
    let (next, p) = read_link(s, at, blocks)?;
    let (other, p) = read_link(s, p, blocks)?;
    Ok((next, other, p))
}

// The commands that a block declares, m of them being counted before.
fn read_count(s: &[u8], at: usize, m: u16) -> Result<(u16, usize), Refusal>
    requires { m ≤ command_limit }
    ensures { ToldCount s.now m at result }
{
    let (c, p) = number_below(s, at, WIDE)?;
    if u64::from(m) + c > MOST_COMMANDS {
        return Err(Refusal::OverLimit);
    }
    Ok((c as u16, p))
}

// A code block after so many: declared commands, the commands, next and else.
fn read_code(
    s: &[u8],
    at: usize,
    ws: &mut NodeWords,
    val: &mut Values,
    cw: &mut CommandWords,
    bw: &mut BlockWords,
    k: Counts,
    blocks: u16,
) -> Result<(u16, u16, usize), Refusal>
    requires { (k.nodes ≤ node_limit) × (k.commands ≤ command_limit) × (k.blocks < block_limit) × (blocks ≤ block_limit) }
    ensures { ToldBlock s.now (memory_of ws.old val.old cw.old bw.old k) (block_of (limits_of blocks) k.commands k.nodes 1 (drop at s.now)) result ws.new val.new cw.new bw.new (k.blocks + 1) }
{
    let (held, p) = read_count(s, at, k.commands)?;
    let (nodes, p) = read_commands(s, p, ws, val, cw, k.nodes, k.commands, held, blocks)?;
    let (next, other, p) = read_links(s, p, blocks)?;
    push_block(bw, k.blocks, 1, k.commands, held, next, other);
    Ok((nodes, k.commands + held, p))
}

// The block after so many, with the nodes and commands that were read before.
fn read_block(
    s: &[u8],
    at: usize,
    ws: &mut NodeWords,
    val: &mut Values,
    cw: &mut CommandWords,
    bw: &mut BlockWords,
    k: Counts,
    blocks: u16,
) -> Result<(u16, u16, usize), Refusal>
    requires { (k.nodes ≤ node_limit) × (k.commands ≤ command_limit) × (k.blocks < block_limit) × (blocks ≤ block_limit) }
    ensures { ToldBlock s.now (memory_of ws.old val.old cw.old bw.old k) (read_block (limits_of blocks) k.commands k.nodes (drop at s.now)) result ws.new val.new cw.new bw.new (k.blocks + 1) }
{
    let (kind, p) = number_below(s, at, 3)?;
    match kind {
        0 => {
            push_block(bw, k.blocks, 0, 0, 0, 0, 0);
            Ok((k.nodes, k.commands, p))
        }
        1 => read_code(s, p, ws, val, cw, bw, k, blocks),
        _ => {
            push_block(bw, k.blocks, 2, 0, 0, 0, 0);
            Ok((k.nodes, k.commands, p))
        }
    }
}

// All blocks, so many.
fn read_blocks(
    s: &[u8],
    at: usize,
    ws: &mut NodeWords,
    val: &mut Values,
    cw: &mut CommandWords,
    bw: &mut BlockWords,
    count: u16,
) -> Result<(u16, u16, usize), Refusal>
    requires { (count ≤ block_limit) × (at ≤ length s.now) }
    ensures { ToldBlocks s.now (empty_in ws.old val.old cw.old bw.old) (read_blocks (limits_of count) count 0 0 (drop at s.now)) result ws.new val.new cw.new bw.new count }
{
    let mut p = at;
    let mut nodes = 0;
    let mut commands = 0;
    for i in 0..count {
        let k = Counts {
            nodes,
            commands,
            blocks: i,
        };
        (nodes, commands, p) = read_block(s, p, ws, val, cw, bw, k, count)?;
    }
    Ok((nodes, commands, p))
}

// ---- the whole image

// The image that stands at a place and takes all that is left. Of a refusal nothing is said of the arrays.
fn read_all(
    s: &[u8],
    at: usize,
    ws: &mut NodeWords,
    val: &mut Values,
    cw: &mut CommandWords,
    bw: &mut BlockWords,
) -> Result<Counts, Refusal>
    ensures { ToldImage (empty_in ws.old val.old cw.old bw.old) (read_image (drop at s.now)) result ws.new val.new cw.new bw.new }
{
    let (c, p) = number_below(s, at, WIDE)?;
    if c > MOST_BLOCKS {
        return Err(Refusal::OverLimit);
    }
    let blocks = c as u16;
    let (nodes, commands, end) = read_blocks(s, p, ws, val, cw, bw, blocks)?;
    if end < s.len() {
        return Err(Refusal::BadImage);
    }
    Ok(Counts {
        nodes,
        commands,
        blocks,
    })
}

// The image from a place of the bytes to their end. A refused read hands out nothing: the arrays are zero then.
pub fn read_script(
    bytes: &[u8],
    at: usize,
    ws: &mut NodeWords,
    val: &mut Values,
    cw: &mut CommandWords,
    bw: &mut BlockWords,
) -> Result<Counts, Refusal>
    ensures { outcome result ws.new val.new cw.new bw.new ≡ read_into (empty_in ws.old val.old cw.old bw.old) (read_image (drop at bytes.now)) }
{
    let read = read_all(bytes, at, ws, val, cw, bw);
    if read.is_err() {
        *ws = [0; NODE_WORDS];
        *val = [0; NODES];
        *cw = [0; COMMAND_WORDS];
        *bw = [0; BLOCK_WORDS];
    }
    read
}
