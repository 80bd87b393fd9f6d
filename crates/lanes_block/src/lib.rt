// One block for many lanes (02, A.8): it is decoded once, and each of its commands is applied to all the lanes that stand at it.
#![tactic(auto)]

ghost use Rattle.std.specs.Prelude.{◌≡◌, None, ℕ, ℤ, ◌+◌, ◌*◌, ◌≤◌, ◌<◌, pos, get_or, length};
ghost use Rattle.model.specs.Limits.{node_limit, variable_count, most_saves};
ghost use Rattle.model.specs.Run.{execute, step};
ghost use Rattle.model.specs.Memory.{nodes_in, coded_in, tree, command_in, commands_in, link_in, script_of};
ghost use Rattle.model.specs.Expr.{Expr};
ghost use Rattle.model.specs.Script.{set_variable};
ghost use Rattle.std.proofs.Math.Option.{Option};
ghost use Rattle.memory.specs.View.{memory_of};
ghost use Rattle.expr.specs.Value.{reads};
ghost use Rattle.runner.specs.Steps.{Readable, Readables, Ready};
ghost use Rattle.lanes_model.specs.Flat.{save_in};
ghost use Rattle.lanes_expr.specs.Lanes.{Stand};
ghost use Rattle.lanes_block.specs.Ways.{Rising, Held, Countable, chosen, followed, forked, same_way, stored_in, Always, StoredAll, Does, Leaves, Settled, Visited};

use expr::number_below;
use lanes_expr::{LANES, Widths, evaluate_lanes};
use memory::{BlockWords, CommandWords, Counts, NodeWords, Values};
use model::{Refusal, VARIABLES};

// Where a lane goes: block + 1, or 0 where it ends with that answer. The answer stays a number: both fields are stored lane by
// lane as they are, in arrays of numbers that C reads.
#[derive(Clone, Copy, Debug, PartialEq, Eq)]
pub struct Way {
    pub word: u32,
    pub answer: u8,
}

// The ways out of a block: `then` where the last value is not 0, `otherwise` where it is. Only an If tells the two apart.
#[derive(Clone, Copy, Debug, PartialEq, Eq)]
pub struct Exit {
    pub then: Way,
    pub otherwise: Way,
}

// ---- commands

fn both(word: u32, answer: u8) -> Exit
    ensures { result ≡ same_way word answer }
{
    let way = Way { word, answer };
    Exit {
        then: way,
        otherwise: way,
    }
}

// The way by a block's next: none is 14.
fn follow_link(link: u16) -> Way
    ensures { result ≡ followed link }
{
    if link == 0 {
        Way {
            word: 0,
            answer: Refusal::NoNext.number(),
        }
    } else {
        Way {
            word: u32::from(link),
            answer: 0,
        }
    }
}

// The write of a Set for one lane, unless it has stopped. A write outside the save does nothing.
fn store_lane(vars: &mut [i32], lane: u8, k: i32, x: i32, stop: u8)
    requires { lane * variable_count + variable_count ≤ length vars.old }
    ensures { vars.new ≡ stored_in stop vars.old lane k x }
{
    if stop != 0 {
        return;
    }
    let Ok(i) = usize::try_from(k) else {
        return;
    };
    if i < VARIABLES {
        vars[usize::from(lane) * VARIABLES + i] = x;
    }
}

// The write of a Set for each lane: target and value say where and what, by the lane's place in the list. Where they are one
// number for all lanes, as those of an Imm are, no array is read.
fn store_lanes<K: Fn(usize) -> i32, X: Fn(usize) -> i32>(
    lanes: &[u8; LANES],
    s: usize,
    target: K,
    value: X,
    stops: &[u8; LANES],
    vars: &mut [i32],
)
    requires lanes { Rising lanes.now s × Held lanes.now s vars.old }
    requires target { (j : ℕ) → j < s → K.pre target j }
    requires value { (j : ℕ) → j < s → X.pre value j }
    ensures { (ks xs : ℕ → ℤ) → ((j : ℕ) (z : ℤ) → j < s → K.post target j z → z ≡ ks j) → ((j : ℕ) (z : ℤ) → j < s → X.post value j z → z ≡ xs j) → StoredAll lanes.now ks xs stops.now vars.old s vars.new }
{
    for j in 0..s {
        store_lane(vars, lanes[j], target(j), value(j), stops[j]);
    }
}

// A Set whose target t is no Imm: target and value v are evaluated for each lane.
fn set_each(
    ws: &NodeWords,
    val: &Values,
    t: u16,
    v: u16,
    ls: &[u8; LANES],
    w: Widths,
    items: &[i16],
    atcs: &[u8],
    flags: &[u8],
    times: &[i16],
    vs: &mut [i32],
    xs: &mut [i32; LANES],
    rs: &mut [u8; LANES],
)
    requires { (t < node_limit) × (v < node_limit) × Stand w.items w.atcs (reads items.now atcs.now flags.now times.now) vs.old ls.now w.lanes × Rising ls.now w.lanes }
    ensures { (c : ℕ) (nx : Option ℕ) → Does (save_in w.items w.atcs (reads items.now atcs.now flags.now times.now)) nx (set_variable (tree (nodes_in ws.now val.now c) t) (tree (nodes_in ws.now val.now c) v)) ls.now w.lanes vs.old rs.old None vs.new xs.new rs.new }
{
    let mut targets = [0; LANES];
    let ks = &mut targets;
    let b = t + 1;
    evaluate_lanes(ws, val, b, t, ls, w, items, atcs, flags, times, vs, ks, rs);
    let e = v + 1;
    evaluate_lanes(ws, val, e, v, ls, w, items, atcs, flags, times, vs, xs, rs);
    store_lanes(ls, w.lanes, |j| targets[j], |j| xs[j], rs, vs);
}

// A Set whose target is the Imm k. Where the value v is one too, as most are, nothing is evaluated.
fn set_same(
    ws: &NodeWords,
    val: &Values,
    k: i32,
    v: u16,
    ls: &[u8; LANES],
    w: Widths,
    items: &[i16],
    atcs: &[u8],
    flags: &[u8],
    times: &[i16],
    vs: &mut [i32],
    xs: &mut [i32; LANES],
    rs: &mut [u8; LANES],
)
    requires { (v < node_limit) × Stand w.items w.atcs (reads items.now atcs.now flags.now times.now) vs.old ls.now w.lanes × Rising ls.now w.lanes }
    ensures { (c : ℕ) (nx : Option ℕ) (t : Expr) → Always t k → Does (save_in w.items w.atcs (reads items.now atcs.now flags.now times.now)) nx (set_variable t (tree (nodes_in ws.now val.now c) v)) ls.now w.lanes vs.old rs.old None vs.new xs.new rs.new }
{
    let b = v + 1;
    match number_below(ws, val, b, v) {
        Some(x) => store_lanes(ls, w.lanes, |_| k, |_| x, rs, vs),
        None => {
            evaluate_lanes(ws, val, b, v, ls, w, items, atcs, flags, times, vs, xs, rs);
            store_lanes(ls, w.lanes, |_| k, |j| xs[j], rs, vs);
        }
    }
}

// Set evaluates its target t, then its value v, then writes, each for all lanes. Every target of a compiled shop is an Imm.
fn set_variable(
    ws: &NodeWords,
    val: &Values,
    t: u16,
    v: u16,
    ls: &[u8; LANES],
    w: Widths,
    items: &[i16],
    atcs: &[u8],
    flags: &[u8],
    times: &[i16],
    vs: &mut [i32],
    xs: &mut [i32; LANES],
    rs: &mut [u8; LANES],
)
    requires { (t < node_limit) × (v < node_limit) × Stand w.items w.atcs (reads items.now atcs.now flags.now times.now) vs.old ls.now w.lanes × Rising ls.now w.lanes }
    ensures { (c : ℕ) (nx : Option ℕ) → Does (save_in w.items w.atcs (reads items.now atcs.now flags.now times.now)) nx (set_variable (tree (nodes_in ws.now val.now c) t) (tree (nodes_in ws.now val.now c) v)) ls.now w.lanes vs.old rs.old None vs.new xs.new rs.new }
{
    match number_below(ws, val, t + 1, t) {
        Some(k) => set_same(ws, val, k, v, ls, w, items, atcs, flags, times, vs, xs, rs),
        None => set_each(ws, val, t, v, ls, w, items, atcs, flags, times, vs, xs, rs),
    }
}

// An If's ways: by its block's next, and to the block of that word where the value is 0.
fn fork(link: u16, word: u32) -> Exit
    ensures { result ≡ forked link word }
{
    Exit {
        then: follow_link(link),
        otherwise: Way { word, answer: 0 },
    }
}

// One command of a block whose next is link: the exit by which the lanes that have not stopped leave the block, or none where
// the command after it follows.
fn command(
    ws: &NodeWords,
    val: &Values,
    cw: &CommandWords,
    c: u16,
    link: u16,
    ls: &[u8; LANES],
    w: Widths,
    items: &[i16],
    atcs: &[u8],
    flags: &[u8],
    times: &[i16],
    vs: &mut [i32],
    xs: &mut [i32; LANES],
    rs: &mut [u8; LANES],
) -> Option<Exit>
    requires { Readable cw.now c × Stand w.items w.atcs (reads items.now atcs.now flags.now times.now) vs.old ls.now w.lanes × Rising ls.now w.lanes }
    ensures { (d e : ℕ) → Does (save_in w.items w.atcs (reads items.now atcs.now flags.now times.now)) (link_in link) (command_in (coded_in ws.now val.now cw.now d e) c) ls.now w.lanes vs.old rs.old result vs.new xs.new rs.new }
{
    let at = usize::from(c);
    let t = cw[4 * at + 1];
    let v = cw[4 * at + 2];
    let block = cw[4 * at + 3];
    let target = u32::from(block) + 1;
    match cw[4 * at] {
        0 => Some(both(0, 0)),
        1 | 4 => Some(both(target, 0)),
        2 => {
            if block != 0 {
                return Some(both(0, Refusal::MetOther.number()));
            }
            set_variable(ws, val, t, v, ls, w, items, atcs, flags, times, vs, xs, rs);
            None
        }
        3 => {
            let b = t + 1;
            evaluate_lanes(ws, val, b, t, ls, w, items, atcs, flags, times, vs, xs, rs);
            Some(fork(link, target))
        }
        _ => Some(both(0, Refusal::MetOther.number())),
    }
}

// ---- blocks

// Where a block's commands stand: many of them from command first on; link is the block's next.
#[derive(Clone, Copy)]
struct Code {
    first: u16,
    many: u16,
    link: u16,
}

// The commands of one block, each decoded once for all lanes.
fn execute_block(
    ws: &NodeWords,
    val: &Values,
    cw: &CommandWords,
    c: Code,
    ls: &[u8; LANES],
    w: Widths,
    items: &[i16],
    atcs: &[u8],
    flags: &[u8],
    times: &[i16],
    vs: &mut [i32],
    xs: &mut [i32; LANES],
    rs: &mut [u8; LANES],
) -> Exit
    requires { Readables cw.now c.first c.many × Stand w.items w.atcs (reads items.now atcs.now flags.now times.now) vs.old ls.now w.lanes × Rising ls.now w.lanes }
    ensures { (d e : ℕ) → Leaves (λ t. execute t (link_in c.link) (commands_in (coded_in ws.now val.now cw.now d e) c.many c.first)) (save_in w.items w.atcs (reads items.now atcs.now flags.now times.now)) ls.now w.lanes vs.old rs.old result vs.new xs.new rs.new }
{
    for i in 0..c.many {
        let exit = command(
            ws,
            val,
            cw,
            c.first + i,
            c.link,
            ls,
            w,
            items,
            atcs,
            flags,
            times,
            vs,
            xs,
            rs,
        );
        if let Some(exit) = exit {
            return exit;
        }
    }
    let next = follow_link(c.link);
    Exit {
        then: next,
        otherwise: next,
    }
}

// Where block b leads its lanes. A block that is not code is 13, and so is one that is not there.
fn step_block(
    ws: &NodeWords,
    val: &Values,
    cw: &CommandWords,
    bw: &BlockWords,
    counts: Counts,
    b: u32,
    ls: &[u8; LANES],
    w: Widths,
    items: &[i16],
    atcs: &[u8],
    flags: &[u8],
    times: &[i16],
    vs: &mut [i32],
    xs: &mut [i32; LANES],
    rs: &mut [u8; LANES],
) -> Exit
    requires { Ready cw.now bw.now counts.blocks × Stand w.items w.atcs (reads items.now atcs.now flags.now times.now) vs.old ls.now w.lanes × Rising ls.now w.lanes }
    ensures { Leaves (λ t. step (script_of (memory_of ws.now val.now cw.now bw.now counts)).blocks t b) (save_in w.items w.atcs (reads items.now atcs.now flags.now times.now)) ls.now w.lanes vs.old rs.old result vs.new xs.new rs.new }
{
    if b >= u32::from(counts.blocks) {
        return both(0, Refusal::MetOther.number());
    }
    let at = b as usize;
    if bw[5 * at] != 1 {
        return both(0, Refusal::MetOther.number());
    }
    let c = Code {
        first: bw[5 * at + 1],
        many: bw[5 * at + 2],
        link: bw[5 * at + 3],
    };
    execute_block(ws, val, cw, c, ls, w, items, atcs, flags, times, vs, xs, rs)
}

// ---- lanes

// The way of a lane that the block left with that value, or that stopped in it.
fn choose(exit: Exit, x: i32, stop: u8) -> Way
    ensures { result ≡ chosen exit x stop }
{
    if stop != 0 {
        Way {
            word: 0,
            answer: stop,
        }
    } else if x == 0 {
        exit.otherwise
    } else {
        exit.then
    }
}

// Each lane of the list has entered one block more and goes its way.
fn settle(
    lanes: &[u8; LANES],
    s: usize,
    out: &[i32; LANES],
    stops: &[u8; LANES],
    exit: Exit,
    at: &mut [u32; LANES],
    answers: &mut [u8; LANES],
    entered: &mut [u32; LANES],
)
    requires { Rising lanes.now s × Countable lanes.now s entered.old }
    ensures { Settled lanes.now exit out.now stops.now s at.old answers.old entered.old at.new answers.new entered.new }
{
    for j in 0..s {
        let lane = usize::from(lanes[j]);
        let way = choose(exit, out[j], stops[j]);
        at[lane] = way.word;
        answers[lane] = way.answer;
        entered[lane] += 1;
    }
}

// Block b is read for the lanes that stand at it.
pub fn visit_block(
    ws: &NodeWords,
    val: &Values,
    cw: &CommandWords,
    bw: &BlockWords,
    counts: Counts,
    b: u32,
    ls: &[u8; LANES],
    w: Widths,
    items: &[i16],
    atcs: &[u8],
    flags: &[u8],
    times: &[i16],
    vs: &mut [i32],
    at: &mut [u32; LANES],
    answers: &mut [u8; LANES],
    entered: &mut [u32; LANES],
)
    requires { Ready cw.now bw.now counts.blocks × Stand w.items w.atcs (reads items.now atcs.now flags.now times.now) vs.old ls.now w.lanes × Rising ls.now w.lanes × Countable ls.now w.lanes entered.old }
    ensures { Visited (save_in w.items w.atcs (reads items.now atcs.now flags.now times.now)) (script_of (memory_of ws.now val.now cw.now bw.now counts)).blocks b ls.now w.lanes at.old answers.old entered.old vs.old at.new answers.new entered.new vs.new }
{
    let mut xs = [0; LANES];
    let mut rs = [0; LANES];
    let exit = step_block(
        ws, val, cw, bw, counts, b, ls, w, items, atcs, flags, times, vs, &mut xs, &mut rs,
    );
    settle(ls, w.lanes, &xs, &rs, exit, at, answers, entered);
}
