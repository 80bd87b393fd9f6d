// Commands and blocks appended to a script in lent arrays, each as the compiler's definitions have them.
// The sizes that `unfolding` opens are those of the room that a block needs.
#![tactic(auto, using(crate::specs::BlockLaws::slot_room, expr_build::specs::Laws::size_imm, memory::specs::PutNodes::size_pos, expr_build::specs::AcquiredLaws::size_both), unfolding(model::specs::Expr::size, model::specs::Script::block_commands, model::specs::Script::block_nodes, model::specs::Script::commands_nodes, model::specs::Script::command_nodes))]

ghost use Rattle.std.specs.Prelude.{[], ◌∷◌, ◌+◌, ◌-◌, ◌≤◌, ◌<◌, ◌≡◌};
ghost use Rattle.model.specs.Limits.{block_limit, command_limit, entry_limit, half16, node_limit, slot_count};
ghost use Rattle.model.specs.Expr.{imm};
ghost use Rattle.model.specs.Compile.{emit_set, temp_var, remaining_expr, return_block, reset_block, remaining_block, if_block};
ghost use Rattle.memory.specs.View.{memory_of};
ghost use Rattle.memory.specs.Pushed.{PushedCommand, PutCommand};
ghost use Rattle.memory.specs.Sound.{Room};
ghost use Rattle.expr_build.specs.Tests.{join_codes, acquired_of, missing_and, both_missing};
ghost use Rattle.compile_emit.specs.Put.{PutBlocks};
ghost use Rattle.compile_emit.specs.Values.{held_in, slot_block, with_end, PushedEnd, PushedIf};

use expr_build::{
    Acquired, push_acquired, push_below, push_imm, push_imm16, push_left, push_missing_and,
    push_no_timer, push_temp, push_tests,
};
use memory::{BlockWords, CommandWords, Counts, NodeWords, Values, push_block, push_command};
use model::{BlockNo, ItemId};
use shop::{COUNT_FIRST, ITEM_FIRST, Row};

// The codes of commands, and the kind of a block that holds some.
const RETURN: u16 = 0;

const SET: u16 = 2;

const IF: u16 = 3;

const END_IF: u16 = 4;

const CODE: u16 = 1;

// The variables of item and count of slot 0, as words: a const calls no `from`.
const ITEM_WORD: u16 = ITEM_FIRST as u16;

const COUNT_WORD: u16 = COUNT_FIRST as u16;

// The counts of nodes and commands while a block is built.
#[derive(Clone, Copy)]
pub struct Held {
    pub nodes: u16,
    pub commands: u16,
}

// The counts before a block is built.
fn held_before(k: Counts) -> Held
    ensures { (result.nodes ≡ k.nodes) × (result.commands ≡ k.commands) }
{
    Held {
        nodes: k.nodes,
        commands: k.commands,
    }
}

// The Set itself: the nodes of its variable end at target, those of its value behind them at nodes.
fn push_set(cw: &mut CommandWords, commands: u16, target: u16, nodes: u16) -> Held
    requires { (0 < target) × (0 < nodes) × (commands < command_limit) }
    ensures { PushedCommand cw.old commands 2 (target - 1) (nodes - 1) 0 cw.new result.commands × (result.nodes ≡ nodes) }
{
    Held {
        nodes,
        commands: push_command(cw, commands, SET, target - 1, nodes - 1, 0),
    }
}

// emit_set of a number: -1, 0, 1 or an item's id.
// emit_temp and emit_left differ in the push of the value alone, and stay: an enum of the values cost a jump by table at
// every Set, and a closure would need clauses over both arrays, longer than the one line that differs.
pub fn emit_number(
    ws: &mut NodeWords,
    val: &mut Values,
    cw: &mut CommandWords,
    h: Held,
    var: u16,
    z: i32,
) -> Held
    requires { (h.nodes + 2 ≤ node_limit) × (h.commands < command_limit) × (var < half16) }
    ensures { PutCommand (held_in ws.old val.old cw.old h) (emit_set var (imm z)) (held_in ws.new val.new cw.new result) }
{
    let target = push_imm16(ws, val, h.nodes, var);
    let nodes = push_imm(ws, val, target, z);
    push_set(cw, h.commands, target, nodes)
}

// emit_set of var[0].
pub fn emit_temp(
    ws: &mut NodeWords,
    val: &mut Values,
    cw: &mut CommandWords,
    h: Held,
    var: u16,
) -> Held
    requires { (h.nodes + 3 ≤ node_limit) × (h.commands < command_limit) × (var < half16) }
    ensures { PutCommand (held_in ws.old val.old cw.old h) (emit_set var temp_var) (held_in ws.new val.new cw.new result) }
{
    let target = push_imm16(ws, val, h.nodes, var);
    let nodes = push_temp(ws, val, target);
    push_set(cw, h.commands, target, nodes)
}

// emit_set of what is left of a limit, to var[0].
pub fn emit_left(
    ws: &mut NodeWords,
    val: &mut Values,
    cw: &mut CommandWords,
    h: Held,
    limit: u8,
    item: ItemId,
) -> Held
    requires { (h.nodes + 5 ≤ node_limit) × (h.commands < command_limit) }
    ensures { PutCommand (held_in ws.old val.old cw.old h) (emit_set 0 (remaining_expr limit item.0)) (held_in ws.new val.new cw.new result) }
{
    let target = push_imm16(ws, val, h.nodes, 0);
    let nodes = push_left(ws, val, target, limit, item);
    push_set(cw, h.commands, target, nodes)
}

// What ends H, D, N and S, whose commands begin at k and reach to h: on to end, by EndIf or as the block last pushed.
pub fn end_slot(
    cw: &mut CommandWords,
    bw: &mut BlockWords,
    k: Counts,
    h: Held,
    end: BlockNo,
    endif: bool,
) -> Counts
    requires { (with_end endif h.commands ≤ command_limit) × (k.blocks < block_limit) × (end.0 < block_limit) }
    ensures { PushedEnd cw.old bw.old k h end.0 endif cw.new bw.new result }
{
    // Numbers of blocks are below block_limit, here and in the functions below: `try_from` would be a test more.
    let to = end.0 as u16;
    let (commands, len) = if endif {
        (push_command(cw, h.commands, END_IF, 0, 0, to), 3)
    } else {
        (h.commands, 2)
    };
    Counts {
        nodes: h.nodes,
        commands,
        blocks: push_block(bw, k.blocks, CODE, k.commands, len, to + 1, 0),
    }
}

// H, D and N: writes two numbers, the item and the count of a slot, then goes to end.
// push_stock differs in the second Set alone, and stays for the same reason as emit_temp.
pub fn push_slot(
    ws: &mut NodeWords,
    val: &mut Values,
    cw: &mut CommandWords,
    bw: &mut BlockWords,
    k: Counts,
    index: u16,
    item: i32,
    count: i32,
    end: BlockNo,
    endif: bool,
) -> Counts
    requires room { Room (memory_of ws.old val.old cw.old bw.old k) (slot_block endif end.0 index (imm item) (imm count) ∷ []) }
    requires index_lt_slot_count { (index < slot_count) × (end.0 < block_limit) }
    ensures { PutBlocks (memory_of ws.old val.old cw.old bw.old k) (slot_block endif end.0 index (imm item) (imm count) ∷ []) (memory_of ws.new val.new cw.new bw.new result) }
{
    let named = emit_number(ws, val, cw, held_before(k), ITEM_WORD + index, item);
    let counted = emit_number(ws, val, cw, named, COUNT_WORD + index, count);
    end_slot(cw, bw, k, counted, end, endif)
}

// S: writes the item of a slot and var[0] as its count, then goes to end.
pub fn push_stock(
    ws: &mut NodeWords,
    val: &mut Values,
    cw: &mut CommandWords,
    bw: &mut BlockWords,
    k: Counts,
    index: u16,
    item: i32,
    end: BlockNo,
    endif: bool,
) -> Counts
    requires room { Room (memory_of ws.old val.old cw.old bw.old k) (slot_block endif end.0 index (imm item) temp_var ∷ []) }
    requires index_lt_slot_count { (index < slot_count) × (end.0 < block_limit) }
    ensures { PutBlocks (memory_of ws.old val.old cw.old bw.old k) (slot_block endif end.0 index (imm item) temp_var ∷ []) (memory_of ws.new val.new cw.new bw.new result) }
{
    let named = emit_number(ws, val, cw, held_before(k), ITEM_WORD + index, item);
    let counted = emit_temp(ws, val, cw, named, COUNT_WORD + index);
    end_slot(cw, bw, k, counted, end, endif)
}

// The Return block, which ends every path.
pub fn push_return(
    ws: &mut NodeWords,
    val: &mut Values,
    cw: &mut CommandWords,
    bw: &mut BlockWords,
    k: Counts,
) -> Counts
    requires { Room (memory_of ws.old val.old cw.old bw.old k) (return_block ∷ []) }
    ensures { PutBlocks (memory_of ws.old val.old cw.old bw.old k) (return_block ∷ []) (memory_of ws.new val.new cw.new bw.new result) }
{
    Counts {
        nodes: k.nodes,
        commands: push_command(cw, k.commands, RETURN, 0, 0, 0),
        blocks: push_block(bw, k.blocks, CODE, k.commands, 1, 0, 0),
    }
}

// Z: var[0] = 0, then on to S.
pub fn push_reset(
    ws: &mut NodeWords,
    val: &mut Values,
    cw: &mut CommandWords,
    bw: &mut BlockWords,
    k: Counts,
    set: BlockNo,
) -> Counts
    requires room { Room (memory_of ws.old val.old cw.old bw.old k) (reset_block set.0 ∷ []) }
    requires set_lt_block_limit { set.0 < block_limit }
    ensures { PutBlocks (memory_of ws.old val.old cw.old bw.old k) (reset_block set.0 ∷ []) (memory_of ws.new val.new cw.new bw.new result) }
{
    let to = set.0 as u16;
    let cleared = emit_number(ws, val, cw, held_before(k), 0, 0);
    Counts {
        nodes: cleared.nodes,
        commands: cleared.commands,
        blocks: push_block(bw, k.blocks, CODE, k.commands, 1, to + 1, 0),
    }
}

// M: var[0] = limit - item[item]; below 0 on to Z, else to S.
pub fn push_remaining(
    ws: &mut NodeWords,
    val: &mut Values,
    cw: &mut CommandWords,
    bw: &mut BlockWords,
    k: Counts,
    limit: u8,
    item: ItemId,
    set: BlockNo,
) -> Counts
    requires room { Room (memory_of ws.old val.old cw.old bw.old k) (remaining_block limit item.0 set.0 ∷ []) }
    requires set_lt_block_limit { set.0 < block_limit }
    ensures { PutBlocks (memory_of ws.old val.old cw.old bw.old k) (remaining_block limit item.0 set.0 ∷ []) (memory_of ws.new val.new cw.new bw.new result) }
{
    let to = set.0 as u16;
    let left = emit_left(ws, val, cw, held_before(k), limit, item);
    let nodes = push_below(ws, val, left.nodes);
    Counts {
        nodes,
        commands: push_command(cw, left.commands, IF, nodes - 1, 0, to),
        blocks: push_block(bw, k.blocks, CODE, k.commands, 2, to + 2, to + 1),
    }
}

// emit_if_else, in a block of its own: the condition's nodes are there and end at n.
// The four below push a condition each, and are this for the rest.
pub fn push_if(
    cw: &mut CommandWords,
    bw: &mut BlockWords,
    k: Counts,
    n: u16,
    next: BlockNo,
    other: BlockNo,
) -> Counts
    requires { (0 < n) × (k.commands < command_limit) × (k.blocks < block_limit) × (next.0 < block_limit) × (other.0 < block_limit) }
    ensures { PushedIf cw.old bw.old k n next.0 other.0 cw.new bw.new result }
{
    let to = next.0 as u16;
    let or_to = other.0 as u16;
    Counts {
        nodes: n,
        commands: push_command(cw, k.commands, IF, n - 1, 0, or_to),
        blocks: push_block(bw, k.blocks, CODE, k.commands, 1, to + 1, or_to + 1),
    }
}

// E: If acquired.
pub fn push_if_acquired(
    ws: &mut NodeWords,
    val: &mut Values,
    cw: &mut CommandWords,
    bw: &mut BlockWords,
    k: Counts,
    a: Acquired,
    next: BlockNo,
    other: BlockNo,
) -> Counts
    requires room { Room (memory_of ws.old val.old cw.old bw.old k) (if_block next.0 (acquired_of a) other.0 ∷ []) }
    requires rate_lt_half16 { (a.rate < half16) × (next.0 < block_limit) × (other.0 < block_limit) }
    ensures { PutBlocks (memory_of ws.old val.old cw.old bw.old k) (if_block next.0 (acquired_of a) other.0 ∷ []) (memory_of ws.new val.new cw.new bw.new result) }
{
    let n = push_acquired(ws, val, k.nodes, a);
    push_if(cw, bw, k, n, next, other)
}

// T: If Timer10 and Timer15 are missing.
pub fn push_if_no_timer(
    ws: &mut NodeWords,
    val: &mut Values,
    cw: &mut CommandWords,
    bw: &mut BlockWords,
    k: Counts,
    ten: ItemId,
    fifteen: ItemId,
    next: BlockNo,
    other: BlockNo,
) -> Counts
    requires room { Room (memory_of ws.old val.old cw.old bw.old k) (if_block next.0 (both_missing ten.0 fifteen.0) other.0 ∷ []) }
    requires next_lt_block_limit { (next.0 < block_limit) × (other.0 < block_limit) }
    ensures { PutBlocks (memory_of ws.old val.old cw.old bw.old k) (if_block next.0 (both_missing ten.0 fifteen.0) other.0 ∷ []) (memory_of ws.new val.new cw.new bw.new result) }
{
    let n = push_no_timer(ws, val, k.nodes, ten, fifteen);
    push_if(cw, bw, k, n, next, other)
}

// V: If not acquired, and R where there are requirements.
pub fn push_if_missing(
    ws: &mut NodeWords,
    val: &mut Values,
    cw: &mut CommandWords,
    bw: &mut BlockWords,
    k: Counts,
    a: Acquired,
    codes: &Row,
    len: u8,
    next: BlockNo,
    other: BlockNo,
) -> Counts
    requires room { Room (memory_of ws.old val.old cw.old bw.old k) (if_block next.0 (missing_and a codes.now len) other.0 ∷ []) }
    requires rate_lt_half16 { (a.rate < half16) × (len ≤ entry_limit) × (next.0 < block_limit) × (other.0 < block_limit) }
    ensures { PutBlocks (memory_of ws.old val.old cw.old bw.old k) (if_block next.0 (missing_and a codes.now len) other.0 ∷ []) (memory_of ws.new val.new cw.new bw.new result) }
{
    let n = push_missing_and(ws, val, k.nodes, a, codes, len);
    push_if(cw, bw, k, n, next, other)
}

// If R.
pub fn push_if_visible(
    ws: &mut NodeWords,
    val: &mut Values,
    cw: &mut CommandWords,
    bw: &mut BlockWords,
    k: Counts,
    codes: &Row,
    len: u8,
    next: BlockNo,
    other: BlockNo,
) -> Counts
    requires room { Room (memory_of ws.old val.old cw.old bw.old k) (if_block next.0 (join_codes codes.now len) other.0 ∷ []) }
    requires len_nonzero { (0 < len) × (len ≤ entry_limit) × (next.0 < block_limit) × (other.0 < block_limit) }
    ensures { PutBlocks (memory_of ws.old val.old cw.old bw.old k) (if_block next.0 (join_codes codes.now len) other.0 ∷ []) (memory_of ws.new val.new cw.new bw.new result) }
{
    let n = push_tests(ws, val, k.nodes, codes, len);
    push_if(cw, bw, k, n, next, other)
}
