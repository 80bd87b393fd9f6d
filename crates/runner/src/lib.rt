// The runner: commands, blocks and a budget, over a script in lent arrays and a save in lent slices.
#![tactic(auto)]

ghost use Rattle.std.specs.Prelude.{◌≡◌, List, ℕ, ◌<◌, ℤ, length};
ghost use Rattle.std.proofs.Math.Option.{Option};
ghost use Rattle.model.specs.Limits.{node_limit, variable_count};
ghost use Rattle.model.specs.Script.{set_variable, if_else};
ghost use Rattle.model.specs.Run.{execute, follow, step, store, run};
ghost use Rattle.model.specs.Memory.{nodes_in, coded_in, tree, command_in, commands_in, link_in, script_of};
ghost use Rattle.expr.specs.Value.{reads};
ghost use Rattle.shop.specs.Shapes.{sheet_of};
ghost use Rattle.runner.specs.Steps.{outcome_of, Flows, Readable, Readables, Ready};
ghost use Rattle.model.specs.RecordCalls.{run_in};
ghost use Rattle.memory.specs.View.{memory_of};
ghost use Rattle.checks.specs.Calls.{save_of};
ghost use Rattle.runner.specs.RunIn.{ran_of};

use checks::{check_call, check_save};
use expr::evaluate;
use memory::{BlockWords, CommandWords, Counts, NodeWords, Values};
use model::{BlockNo, Link, Refusal, VARIABLES, Variables};
use shop::Sheet;
use std::ops::ControlFlow;

// Where a block leads: to a block, to Return, or to a refusal.
type Step = Result<Option<BlockNo>, Refusal>;

// Where a command leads: to the command after it, or out of the block.
type Flow = Result<ControlFlow<Option<BlockNo>>, Refusal>;

// How a run ended, and the count of blocks entered.
#[derive(Clone, Copy, Debug, PartialEq, Eq)]
pub struct Ran {
    pub outcome: Result<(), Refusal>,
    pub entered: u32,
}

// ---- commands

// A write outside the save does nothing.
fn store_at(vars: &mut [i32], k: i32, x: i32)
    ensures { vars.new ≡ store vars.old k x }
{
    let Ok(i) = usize::try_from(k) else {
        return;
    };
    if i < vars.len() {
        vars[i] = x;
    }
}

fn follow_link(link: Link) -> Step
    ensures { (v : List ℤ) → follow (link_in link.0) v ≡ outcome_of result v }
{
    if link.0 == 0 {
        return Err(Refusal::NoNext);
    }
    Ok(Some(BlockNo(u32::from(link.0 - 1))))
}

// Set evaluates target, then value, then writes.
fn set_variable(
    ws: &NodeWords,
    val: &Values,
    target: u16,
    value: u16,
    items: &[i16],
    atcs: &[u8],
    flags: &[u8],
    times: &[i16],
    vars: &mut Variables,
) -> Flow
    requires target_lt_node_limit { target < node_limit }
    requires value_lt_node_limit { value < node_limit }
    ensures { (n : ℕ) (nx : Option ℕ) → Flows (reads items.now atcs.now flags.now times.now) nx (set_variable (tree (nodes_in ws.now val.now n) target) (tree (nodes_in ws.now val.now n) value)) vars.old result vars.new }
{
    let k = evaluate(ws, val, target + 1, target, items, atcs, flags, times, vars)?;
    let x = evaluate(ws, val, value + 1, value, items, atcs, flags, times, vars)?;
    store_at(vars, k, x);
    Ok(ControlFlow::Continue(()))
}

// If nonzero takes next, else its else target.
fn if_else(
    ws: &NodeWords,
    val: &Values,
    test: u16,
    other: BlockNo,
    link: Link,
    items: &[i16],
    atcs: &[u8],
    flags: &[u8],
    times: &[i16],
    vars: &Variables,
) -> Flow
    requires { test < node_limit }
    ensures { (n : ℕ) → Flows (reads items.now atcs.now flags.now times.now) (link_in link.0) (if_else (tree (nodes_in ws.now val.now n) test) other.0) vars.now result vars.now }
{
    if evaluate(ws, val, test + 1, test, items, atcs, flags, times, vars)? == 0 {
        return Ok(ControlFlow::Break(Some(other)));
    }
    Ok(ControlFlow::Break(follow_link(link)?))
}

// One command of a block whose next is link.
fn command(
    ws: &NodeWords,
    val: &Values,
    cw: &CommandWords,
    c: u16,
    link: Link,
    items: &[i16],
    atcs: &[u8],
    flags: &[u8],
    times: &[i16],
    vars: &mut Variables,
) -> Flow
    requires { Readable cw.now c }
    ensures { (n m : ℕ) → Flows (reads items.now atcs.now flags.now times.now) (link_in link.0) (command_in (coded_in ws.now val.now cw.now n m) c) vars.old result vars.new }
{
    let at = 4 * usize::from(c);
    let first = cw[at + 1];
    let block = cw[at + 3];
    let to = BlockNo(u32::from(block));
    match cw[at] {
        0 => Ok(ControlFlow::Break(None)),
        1 | 4 => Ok(ControlFlow::Break(Some(to))),
        2 => {
            if block != 0 {
                return Err(Refusal::MetOther);
            }
            set_variable(ws, val, first, cw[at + 2], items, atcs, flags, times, vars)
        }
        3 => if_else(ws, val, first, to, link, items, atcs, flags, times, vars),
        _ => Err(Refusal::MetOther),
    }
}

// ---- blocks

// The commands of one block, many of them from command first on.
fn execute_block(
    ws: &NodeWords,
    val: &Values,
    cw: &CommandWords,
    first: u16,
    many: u16,
    link: Link,
    items: &[i16],
    atcs: &[u8],
    flags: &[u8],
    times: &[i16],
    vars: &mut Variables,
) -> Step
    requires { Readables cw.now first many }
    ensures { (n m : ℕ) → outcome_of result vars.new ≡ execute (reads items.now atcs.now flags.now times.now) (link_in link.0) (commands_in (coded_in ws.now val.now cw.now n m) many first) vars.old }
{
    for c in first..first + many {
        let flow = command(ws, val, cw, c, link, items, atcs, flags, times, vars)?;
        if let ControlFlow::Break(way) = flow {
            return Ok(way);
        }
    }
    follow_link(link)
}

// Where block b leads. A block that is not code is 13, and so is one that is not there.
fn step_block(
    ws: &NodeWords,
    val: &Values,
    cw: &CommandWords,
    bw: &BlockWords,
    counts: Counts,
    b: BlockNo,
    items: &[i16],
    atcs: &[u8],
    flags: &[u8],
    times: &[i16],
    vars: &mut Variables,
) -> Step
    requires { Ready cw.now bw.now counts.blocks }
    ensures { outcome_of result vars.new ≡ step (script_of (memory_of ws.now val.now cw.now bw.now counts)).blocks (reads items.now atcs.now flags.now times.now) b.0 vars.old }
{
    if b.0 >= u32::from(counts.blocks) {
        return Err(Refusal::MetOther);
    }
    let at = 5 * b.0 as usize;
    if bw[at] != 1 {
        return Err(Refusal::MetOther);
    }
    let link = Link(bw[at + 3]);
    execute_block(
        ws,
        val,
        cw,
        bw[at + 1],
        bw[at + 2],
        link,
        items,
        atcs,
        flags,
        times,
        vars,
    )
}

// Block after block. Entering one of any kind costs 1, counts 1 and needs budget left.
fn run_blocks(
    ws: &NodeWords,
    val: &Values,
    cw: &CommandWords,
    bw: &BlockWords,
    counts: Counts,
    start: BlockNo,
    items: &[i16],
    atcs: &[u8],
    flags: &[u8],
    times: &[i16],
    vars: &mut Variables,
    budget: u32,
) -> Ran
    requires { Ready cw.now bw.now counts.blocks }
    ensures { ran_of result vars.new ≡ run (script_of (memory_of ws.now val.now cw.now bw.now counts)).blocks (reads items.now atcs.now flags.now times.now) budget start.0 vars.old }
{
    let mut b = start;
    for before in 0..budget {
        let entered = before + 1;
        match step_block(ws, val, cw, bw, counts, b, items, atcs, flags, times, vars) {
            Ok(Some(next)) => b = next,
            Ok(None) => return Ran {
                outcome: Ok(()),
                entered,
            },
            Err(refusal) => return Ran {
                outcome: Err(refusal),
                entered,
            },
        }
    }
    Ran {
        outcome: Err(Refusal::BudgetSpent),
        entered: budget,
    }
}

// ---- the call

// The blocks from start on, of a record whose checks passed. They work on an array: checked once, its length is in its type
// for every read and write after.
pub fn run_copied(
    ws: &NodeWords,
    val: &Values,
    cw: &CommandWords,
    bw: &BlockWords,
    counts: Counts,
    start: BlockNo,
    items: &[i16],
    atcs: &[u8],
    flags: &[u8],
    times: &[i16],
    vars: &mut [i32],
    budget: u32,
) -> Ran
    requires ready { Ready cw.now bw.now counts.blocks }
    requires vars_len { length vars.old ≡ variable_count }
    ensures { ran_of result vars.new ≡ run (script_of (memory_of ws.now val.now cw.now bw.now counts)).blocks (reads items.now atcs.now flags.now times.now) budget start.0 vars.old }
{
    let mut held = [0; VARIABLES];
    held.copy_from_slice(vars);
    let ran = run_blocks(
        ws, val, cw, bw, counts, start, items, atcs, flags, times, &mut held, budget,
    );
    vars.copy_from_slice(&held);
    ran
}

// Runs the blocks from start on, with the variables in vars. Refused by 1 to 12 it enters no block and writes nothing.
pub fn run(
    attached: &[u8],
    sheet: Sheet,
    ws: &NodeWords,
    val: &Values,
    cw: &CommandWords,
    bw: &BlockWords,
    counts: Counts,
    start: BlockNo,
    items: &[i16],
    atcs: &[u8],
    flags: &[u8],
    times: &[i16],
    vars: &mut [i32],
    budget: u32,
) -> Ran
    ensures { ran_of result vars.new ≡ run_in (sheet_of attached.now sheet) (memory_of ws.now val.now cw.now bw.now counts) start.0 (save_of items.now atcs.now flags.now times.now vars.old) budget }
{
    if let Err(refusal) = check_call(attached, sheet, ws, val, cw, bw, counts, start) {
        return Ran {
            outcome: Err(refusal),
            entered: 0,
        };
    }
    if !check_save(attached, sheet, items, atcs, flags, times, vars) {
        return Ran {
            outcome: Err(Refusal::BadSave),
            entered: 0,
        };
    }
    run_copied(
        ws, val, cw, bw, counts, start, items, atcs, flags, times, vars, budget,
    )
}
