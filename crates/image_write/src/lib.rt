// Writing a script record as its image: judged first, then measured against the slice, then written piece by piece.
#![tactic(auto)]

ghost use Rattle.std.specs.Prelude.{◌≡◌, IfOk, suc, ◌+◌, ◌≤◌, ◌<◌};
ghost use Rattle.model.specs.Limits.{node_limit};
ghost use Rattle.model.specs.Memory.{nodes_in};
ghost use Rattle.model.specs.Record.{node_image, root_image, command_tail, command_image_in, commands_image_in, block_tail, blocks_image_in, record_image};
ghost use Rattle.model.specs.RecordCalls.{write_in};
ghost use Rattle.model.specs.Refusals.{refusal_in};
ghost use Rattle.memory.specs.View.{nodes_of, coded_of, memory_of};
ghost use Rattle.image_numbers.specs.Stored.{Stored, Room};
ghost use Rattle.judge_record.specs.Stages.{KeptBy, block_image_in};
ghost use Rattle.image_write.specs.Call.{wrote, length_in};
ghost use Rattle.image_write.specs.Lengths.{most_bytes};

use image_numbers::{write_short, write_value};
use judge_plain::is_plain;
use judge_record::judge_record;
use memory::{BlockWords, CommandWords, Counts, NodeWords, Values, kind_of};
use model::{Kind, Refusal};

// ---- expressions

// Node i. Calls go as deep as the expression, which the judgement keeps to 64 levels.
#[cycle(write_expr_write_operand)]
fn write_expr(ws: &NodeWords, val: &Values, i: u16, out: &mut [u8], at: usize) -> usize
    requires { (i < node_limit) × Room out.old at (node_image (nodes_in ws.now val.now 0) (suc i) i) }
    ensures { Stored out.old at (node_image (nodes_in ws.now val.now 0) (suc i) i) out.new result }
{
    // The cast and the two arms of Imm stay: the proof knows a node by i itself, and the image of each kind by its own law.
    let j = i as usize;
    let c = ws[3 * j];
    let p = write_short(out, at, c);
    match kind_of(c) {
        Kind::Two(_) => {
            let q = write_operand(ws, val, i, ws[3 * j + 1], out, p);
            write_operand(ws, val, i, ws[3 * j + 2], out, q)
        }
        Kind::One(_) => write_operand(ws, val, i, ws[3 * j + 1], out, p),
        Kind::Imm16 => write_value(out, p, val[j]),
        Kind::Imm32 => write_value(out, p, val[j]),
        Kind::Other => p,
    }
}

// Node i, which has to be below b: what is not is written as 19, which no image may have. An Imm16, as most operands are, takes no call.
#[cycle(write_expr_write_operand)]
fn write_operand(ws: &NodeWords, val: &Values, b: u16, i: u16, out: &mut [u8], at: usize) -> usize
    requires { (b ≤ node_limit) × Room out.old at (node_image (nodes_in ws.now val.now 0) b i) }
    ensures { Stored out.old at (node_image (nodes_in ws.now val.now 0) b i) out.new result }
{
    if i >= b {
        return write_short(out, at, 19);
    }
    let j = i as usize;
    if ws[3 * j] == 11 {
        let p = write_short(out, at, 11);
        return write_value(out, p, val[j]);
    }
    write_expr(ws, val, i, out, at)
}

// An expression of a command: its root has to be below the kept count of nodes.
fn write_term(
    ws: &NodeWords,
    val: &Values,
    counts: Counts,
    i: u16,
    out: &mut [u8],
    at: usize,
) -> usize
    requires { KeptBy counts × Room out.old at (root_image (nodes_of ws.now val.now counts) i) }
    ensures { Stored out.old at (root_image (nodes_of ws.now val.now counts) i) out.new result }
{
    write_operand(ws, val, counts.nodes, i, out, at)
}

// ---- commands

// What follows the code of a Set: the target's code, the target where it is a Variable, the value.
fn write_set(
    ws: &NodeWords,
    val: &Values,
    cw: &CommandWords,
    counts: Counts,
    i: usize,
    out: &mut [u8],
    at: usize,
) -> usize
    requires { (i < counts.commands) × KeptBy counts × Room out.old at (command_tail (coded_of ws.now val.now cw.now counts) i 2) }
    ensures { Stored out.old at (command_tail (coded_of ws.now val.now cw.now counts) i 2) out.new result }
{
    let target = cw[4 * i + 3];
    let p = write_short(out, at, target);
    if target == 0 {
        let q = write_term(ws, val, counts, cw[4 * i + 1], out, p);
        return write_term(ws, val, counts, cw[4 * i + 2], out, q);
    }
    write_term(ws, val, counts, cw[4 * i + 2], out, p)
}

// What follows the code of an If: condition and else block.
fn write_if(
    ws: &NodeWords,
    val: &Values,
    cw: &CommandWords,
    counts: Counts,
    i: usize,
    out: &mut [u8],
    at: usize,
) -> usize
    requires { (i < counts.commands) × KeptBy counts × Room out.old at (command_tail (coded_of ws.now val.now cw.now counts) i 3) }
    ensures { Stored out.old at (command_tail (coded_of ws.now val.now cw.now counts) i 3) out.new result }
{
    let p = write_term(ws, val, counts, cw[4 * i + 1], out, at);
    write_short(out, p, cw[4 * i + 3])
}

// What follows the code k of a command.
fn write_tail(
    ws: &NodeWords,
    val: &Values,
    cw: &CommandWords,
    counts: Counts,
    i: usize,
    k: u16,
    out: &mut [u8],
    at: usize,
) -> usize
    requires { (i < counts.commands) × KeptBy counts × Room out.old at (command_tail (coded_of ws.now val.now cw.now counts) i k) }
    ensures { Stored out.old at (command_tail (coded_of ws.now val.now cw.now counts) i k) out.new result }
{
    // An arm each for Goto and EndIf: each code has its own law.
    match k {
        1 => write_short(out, at, cw[4 * i + 3]),
        2 => write_set(ws, val, cw, counts, i, out, at),
        3 => write_if(ws, val, cw, counts, i, out, at),
        4 => write_short(out, at, cw[4 * i + 3]),
        _ => at,
    }
}

// Command i: one that is not there is written as 6, which no image may have.
fn write_command(
    ws: &NodeWords,
    val: &Values,
    cw: &CommandWords,
    counts: Counts,
    i: usize,
    out: &mut [u8],
    at: usize,
) -> usize
    requires { KeptBy counts × Room out.old at (command_image_in (coded_of ws.now val.now cw.now counts) i) }
    ensures { Stored out.old at (command_image_in (coded_of ws.now val.now cw.now counts) i) out.new result }
{
    if i >= usize::from(counts.commands) {
        return write_short(out, at, 6);
    }
    let k = cw[4 * i];
    let p = write_short(out, at, k);
    write_tail(ws, val, cw, counts, i, k, out, p)
}

// So many commands, from the first on.
fn write_commands(
    ws: &NodeWords,
    val: &Values,
    cw: &CommandWords,
    counts: Counts,
    first: u16,
    held: u16,
    out: &mut [u8],
    at: usize,
) -> usize
    requires { KeptBy counts × Room out.old at (commands_image_in (coded_of ws.now val.now cw.now counts) held first) }
    ensures { Stored out.old at (commands_image_in (coded_of ws.now val.now cw.now counts) held first) out.new result }
{
    let mut p = at;
    for i in 0..usize::from(held) {
        p = write_command(ws, val, cw, counts, usize::from(first) + i, out, p);
    }
    p
}

// ---- blocks

// What follows the kind of a code block: how many commands, the commands, next, else.
fn write_code(
    ws: &NodeWords,
    val: &Values,
    cw: &CommandWords,
    bw: &BlockWords,
    counts: Counts,
    i: usize,
    out: &mut [u8],
    at: usize,
) -> usize
    requires { (i < counts.blocks) × KeptBy counts × Room out.old at (block_tail (memory_of ws.now val.now cw.now bw.now counts) i 1) }
    ensures { Stored out.old at (block_tail (memory_of ws.now val.now cw.now bw.now counts) i 1) out.new result }
{
    let held = bw[5 * i + 2];
    let p = write_short(out, at, held);
    let q = write_commands(ws, val, cw, counts, bw[5 * i + 1], held, out, p);
    let s = write_short(out, q, bw[5 * i + 3]);
    write_short(out, s, bw[5 * i + 4])
}

// Block i: its kind, and what follows it.
fn write_block(
    ws: &NodeWords,
    val: &Values,
    cw: &CommandWords,
    bw: &BlockWords,
    counts: Counts,
    i: usize,
    out: &mut [u8],
    at: usize,
) -> usize
    requires { (i < counts.blocks) × KeptBy counts × Room out.old at (block_image_in (memory_of ws.now val.now cw.now bw.now counts) i) }
    ensures { Stored out.old at (block_image_in (memory_of ws.now val.now cw.now bw.now counts) i) out.new result }
{
    let kind = bw[5 * i];
    let p = write_short(out, at, kind);
    if kind == 1 {
        return write_code(ws, val, cw, bw, counts, i, out, p);
    }
    p
}

// All blocks.
fn write_blocks(
    ws: &NodeWords,
    val: &Values,
    cw: &CommandWords,
    bw: &BlockWords,
    counts: Counts,
    out: &mut [u8],
    at: usize,
) -> usize
    requires { KeptBy counts × Room out.old at (blocks_image_in (memory_of ws.now val.now cw.now bw.now counts) counts.blocks 0) }
    ensures { Stored out.old at (blocks_image_in (memory_of ws.now val.now cw.now bw.now counts) counts.blocks 0) out.new result }
{
    let mut p = at;
    for i in 0..usize::from(counts.blocks) {
        p = write_block(ws, val, cw, bw, counts, i, out, p);
    }
    p
}

// ---- the whole record

// The image from the slice's first byte on; the bytes past it stay as they are.
fn write_record(
    ws: &NodeWords,
    val: &Values,
    cw: &CommandWords,
    bw: &BlockWords,
    counts: Counts,
    out: &mut [u8],
) -> usize
    requires { KeptBy counts × Room out.old 0 (record_image (memory_of ws.now val.now cw.now bw.now counts)) }
    ensures { Stored out.old 0 (record_image (memory_of ws.now val.now cw.now bw.now counts)) out.new result }
{
    let p = write_short(out, 0, counts.blocks);
    write_blocks(ws, val, cw, bw, counts, out, p)
}

// Judged first, in the place of refusals 2 to 5; then 16 where the slice is shorter than the image; then written. Refused, the slice stays as it was.
fn write_judged(
    ws: &NodeWords,
    val: &Values,
    cw: &CommandWords,
    bw: &BlockWords,
    counts: Counts,
    out: &mut [u8],
) -> Result<usize, Refusal>
    ensures { (wrote (refusal_in result) out.new ≡ write_in (memory_of ws.now val.now cw.now bw.now counts) out.old) × IfOk result (λ n. n ≡ length_in (memory_of ws.now val.now cw.now bw.now counts) out.old) }
{
    let len = judge_record(ws, val, cw, bw, counts)?;
    if len > out.len() {
        return Err(Refusal::SliceShort);
    }
    Ok(write_record(ws, val, cw, bw, counts, out))
}

// So many bytes hold the image of any accepted record with these counts.
fn most_bytes(counts: Counts) -> usize
    ensures { result ≡ most_bytes counts.blocks counts.commands counts.nodes }
{
    let blocks = usize::from(counts.blocks);
    let commands = usize::from(counts.commands);
    let nodes = usize::from(counts.nodes);
    5 + 16 * blocks + 6 * commands + 6 * nodes
}

// A record that is plainly fine needs no judgement where the slice holds any such record; the others are judged step by step, which also tells the length.
pub fn write_script(
    ws: &NodeWords,
    val: &Values,
    cw: &CommandWords,
    bw: &BlockWords,
    counts: Counts,
    out: &mut [u8],
) -> Result<usize, Refusal>
    ensures { (wrote (refusal_in result) out.new ≡ write_in (memory_of ws.now val.now cw.now bw.now counts) out.old) × IfOk result (λ n. n ≡ length_in (memory_of ws.now val.now cw.now bw.now counts) out.old) }
{
    if most_bytes(counts) <= out.len() && is_plain(ws, val, cw, bw, counts) {
        return Ok(write_record(ws, val, cw, bw, counts, out));
    }
    write_judged(ws, val, cw, bw, counts, out)
}
