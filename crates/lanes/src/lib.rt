// One walk for many saves (02, A.8): from the setup block on in falling number, each block where some lane stands is read once for all the lanes that stand there.
#![tactic(auto)]

ghost use Rattle.std.specs.Prelude.{◌≡◌, Ok, List, ℕ, ◌+◌, ◌-◌, ◌*◌, ◌≤◌, ◌<◌, ℤ, get_or, length};
ghost use Rattle.model.specs.Limits.{lane_budget, most_saves, most_items, variable_count, wide, wide16};
ghost use Rattle.model.specs.Refusals.{refusal_in};
ghost use Rattle.model.specs.Run.{run};
ghost use Rattle.model.specs.Memory.{script_of};
ghost use Rattle.memory.specs.View.{memory_of};
ghost use Rattle.expr.specs.Value.{reads};
ghost use Rattle.checks.specs.Calls.{save_of};
ghost use Rattle.runner.specs.Steps.{Ready};
ghost use Rattle.shop.specs.Shapes.{sheet_of};
ghost use Rattle.reclaim_reach.specs.Words.{Safe};
ghost use Rattle.lanes_model.specs.Walk.{walk_ok};
ghost use Rattle.lanes_model.specs.Flat.{save_in, saves_ok, walk_refusal_in, walk_in, left_by};
ghost use Rattle.lanes_expr.specs.Each.{Each};
ghost use Rattle.lanes.specs.Alone.{Alone};
ghost use Rattle.lanes.specs.Calls.{lengths_are, values_ok, left_of};
ghost use Rattle.lanes.specs.Standing.{Gathered, Higher, Highest};
ghost use Rattle.lanes.specs.Walks.{Lying, CountsTo, Stepped, Down, Begun, last_answer, LanesWalked};

use checks::{bits_ok, check_call, counts_ok, numbers_known, shorts_known};
use lanes_block::visit_block;
use lanes_expr::{LANES, Widths};
use lanes_falls::falls_from;
use memory::{BlockWords, CommandWords, Counts, NodeWords, Values};
use model::{BlockNo, FLAGS, Refusal, TIMES, VARIABLES, refusal_in};
use runner::run_copied;
use shop::Sheet;

// ---- the lanes that stand somewhere

// The lanes of the first k that stand at that word, in their order. Every lane is written and only counted where it stands
// there: without a branch the loop waits for no guess.
fn gather(at: &[u32; LANES], k: usize, word: u32, lanes: &mut [u8; LANES]) -> usize
    requires { k ≤ most_saves }
    ensures { Gathered at.now k word lanes.new result }
{
    let mut s = 0;
    for l in 0..k {
        lanes[s] = l as u8;
        s += usize::from(at[l] == word);
    }
    s
}

fn higher(most: u32, word: u32, top: u32) -> u32
    ensures { Higher most word top result }
{
    if word > top { most } else { most.max(word) }
}

// The highest word of the first k lanes that is at most top.
fn highest_below(at: &[u32; LANES], k: usize, top: u32) -> u32
    requires { k ≤ most_saves }
    ensures { Highest at.now top k result }
{
    let mut most = 0;
    for l in 0..k {
        most = higher(most, at[l], top);
    }
    most
}

// The same. Links that fall leave no lane above top, so that the highest word of all is nearly always it: a maximum, which asks less of each lane.
fn highest(at: &[u32; LANES], k: usize, top: u32) -> u32
    requires { k ≤ most_saves }
    ensures { Highest at.now top k result }
{
    let most = highest_below(at, k, u32::MAX);
    if most <= top {
        return most;
    }
    highest_below(at, k, top)
}

// ---- the walk

// The block before that word is read for all the lanes that stand at it.
fn visit_standing(
    ws: &NodeWords,
    val: &Values,
    cw: &CommandWords,
    bw: &BlockWords,
    counts: Counts,
    word: u32,
    w: Widths,
    items: &[i16],
    atcs: &[u8],
    flags: &[u8],
    times: &[i16],
    vars: &mut [i32],
    at: &mut [u32; LANES],
    answers: &mut [u8; LANES],
    entered: &mut [u32; LANES],
)
    requires { Ready cw.now bw.now counts.blocks × Lying w.items w.atcs (reads items.now atcs.now flags.now times.now) vars.old w.lanes × (0 < word) × CountsTo w.lanes 4294967294 entered.old }
    ensures { (v : List ℤ) → Stepped (save_in w.items w.atcs (save_of items.now atcs.now flags.now times.now v)) (script_of (memory_of ws.now val.now cw.now bw.now counts)).blocks (word - 1) w.lanes at.old answers.old entered.old vars.old at.new answers.new entered.new vars.new }
{
    let mut ls = [0; LANES];
    let mut v = w;
    v.lanes = gather(at, w.lanes, word, &mut ls);
    visit_block(
        ws,
        val,
        cw,
        bw,
        counts,
        word - 1,
        &ls,
        v,
        items,
        atcs,
        flags,
        times,
        vars,
        at,
        answers,
        entered,
    );
}

// Block after block in falling number, each where some lane stands. How many were read.
fn walk_down(
    ws: &NodeWords,
    val: &Values,
    cw: &CommandWords,
    bw: &BlockWords,
    counts: Counts,
    w: Widths,
    items: &[i16],
    atcs: &[u8],
    flags: &[u8],
    times: &[i16],
    vars: &mut [i32],
    at: &mut [u32; LANES],
    answers: &mut [u8; LANES],
    entered: &mut [u32; LANES],
) -> u32
    requires { Ready cw.now bw.now counts.blocks × Lying w.items w.atcs (reads items.now atcs.now flags.now times.now) vars.old w.lanes × CountsTo w.lanes 1 entered.old }
    ensures { (v : List ℤ) → Down (save_in w.items w.atcs (save_of items.now atcs.now flags.now times.now v)) (script_of (memory_of ws.now val.now cw.now bw.now counts)).blocks counts.blocks w.lanes at.old answers.old entered.old vars.old result at.new answers.new entered.new vars.new }
{
    let mut read: u32 = 0;
    let mut top = u32::from(counts.blocks);
    let mut word = highest(at, w.lanes, top);
    // No range: the next block is the highest where a lane stands then.
    while word != 0 {
        visit_standing(
            ws, val, cw, bw, counts, word, w, items, atcs, flags, times, vars, at, answers, entered,
        );
        read += 1;
        top = word - 1;
        word = highest(at, w.lanes, top);
    }
    read
}

// The first k lanes stand at that word and have entered nothing.
fn begin(k: usize, word: u32, at: &mut [u32; LANES], entered: &mut [u32; LANES])
    requires { k ≤ most_saves }
    ensures { Begun k word at.old entered.old at.new entered.new }
{
    for l in 0..k {
        at[l] = word;
        entered[l] = 0;
    }
}

// What a lane answers: 15 where it still stands. No lane does after the walk of links that fall.
fn last_answer(word: u32, answer: u8) -> u8
    ensures { result ≡ last_answer word answer }
{
    if word == 0 {
        answer
    } else {
        Refusal::BudgetSpent.number()
    }
}

fn finish(at: &[u32; LANES], k: usize, answers: &mut [u8; LANES])
    requires { k ≤ most_saves }
    ensures { Each 0 (λ l a. last_answer (get_or at.now l 0) a) k answers.old answers.new }
{
    for l in 0..k {
        answers[l] = last_answer(at[l], answers[l]);
    }
}

// All lanes enter the setup block first.
fn walk_all(
    ws: &NodeWords,
    val: &Values,
    cw: &CommandWords,
    bw: &BlockWords,
    counts: Counts,
    start: BlockNo,
    w: Widths,
    items: &[i16],
    atcs: &[u8],
    flags: &[u8],
    times: &[i16],
    vars: &mut [i32],
    answers: &mut [u8; LANES],
    entered: &mut [u32; LANES],
) -> u32
    requires { Ready cw.now bw.now counts.blocks × Lying w.items w.atcs (reads items.now atcs.now flags.now times.now) vars.old w.lanes × (start.0 < counts.blocks) }
    ensures { LanesWalked (script_of (memory_of ws.now val.now cw.now bw.now counts)).blocks start.0 w.items w.atcs (save_of items.now atcs.now flags.now times.now vars.old) w.lanes answers.old entered.old result answers.new entered.new vars.new }
{
    let mut at = [0; LANES];
    let word = start.0 + 1;
    begin(w.lanes, word, &mut at, entered);
    visit_standing(
        ws, val, cw, bw, counts, word, w, items, atcs, flags, times, vars, &mut at, answers,
        entered,
    );
    let read = walk_down(
        ws, val, cw, bw, counts, w, items, atcs, flags, times, vars, &mut at, answers, entered,
    );
    finish(&at, w.lanes, answers);
    read + 1
}

// ---- the call

// Check 12, first half: each slice is as long as k saves have it.
fn lengths_ok(
    k: usize,
    n: usize,
    m: usize,
    items: &[i16],
    atcs: &[u8],
    flags: &[u8],
    times: &[i16],
    vars: &[i32],
) -> bool
    requires { (k < wide) × (n < wide16) × (m < wide16) × (k * n < wide * wide16) × (k * m < wide * wide16) }
    ensures { result ≡ lengths_are k n m (save_of items.now atcs.now flags.now times.now vars.now) }
{
    items.len() == k * n
        && atcs.len() == k * m
        && flags.len() == k * FLAGS
        && times.len() == k * TIMES
        && vars.len() == k * VARIABLES
}

// Check 12, second half: the values of all saves at once.
fn values_ok(items: &[i16], atcs: &[u8], flags: &[u8]) -> bool
    ensures { result ≡ values_ok items.now atcs.now flags.now }
{
    counts_ok(items) && bits_ok(atcs) && bits_ok(flags)
}

// Check 12 of k saves one behind another.
fn check_saves(
    attached: &[u8],
    sheet: Sheet,
    k: u32,
    items: &[i16],
    atcs: &[u8],
    flags: &[u8],
    times: &[i16],
    vars: &[i32],
) -> bool
    requires { length attached.now ≤ most_items }
    ensures { result ≡ saves_ok (sheet_of attached.now sheet) k (save_of items.now atcs.now flags.now times.now vars.now) }
{
    let n = attached.len();
    let m = sheet.atcs as usize;
    if !lengths_ok(k as usize, n, m, items, atcs, flags, times, vars) {
        return false;
    }
    shorts_known(times);
    numbers_known(vars);
    values_ok(items, atcs, flags)
}

// Check 22.
fn check_walk(cw: &CommandWords, bw: &BlockWords, counts: Counts, start: BlockNo, k: u32) -> bool
    requires { Safe cw.now bw.now counts.blocks × (start.0 < counts.blocks) }
    ensures { (ws : List ℕ) (val : List ℤ) → result ≡ walk_ok (script_of (memory_of ws val cw.now bw.now counts)).blocks start.0 k }
{
    (1..=64).contains(&k) && falls_from(cw, bw, counts, start)
}

// Checks 1 to 7, 12 and 22, in this order: the first that refuses answers.
fn check_all(
    attached: &[u8],
    sheet: Sheet,
    ws: &NodeWords,
    val: &Values,
    cw: &CommandWords,
    bw: &BlockWords,
    counts: Counts,
    start: BlockNo,
    k: u32,
    items: &[i16],
    atcs: &[u8],
    flags: &[u8],
    times: &[i16],
    vars: &[i32],
) -> Result<(), Refusal>
    ensures { refusal_in result ≡ walk_refusal_in (sheet_of attached.now sheet) (memory_of ws.now val.now cw.now bw.now counts) start.0 k (save_of items.now atcs.now flags.now times.now vars.now) }
{
    check_call(attached, sheet, ws, val, cw, bw, counts, start)?;
    if !check_saves(attached, sheet, k, items, atcs, flags, times, vars) {
        return Err(Refusal::BadSave);
    }
    if !check_walk(cw, bw, counts, start, k) {
        return Err(Refusal::BadWalk);
    }
    Ok(())
}

// One save: its own run, which finds no other lane at a block and so reads as many blocks as it enters.
fn walk_one(
    ws: &NodeWords,
    val: &Values,
    cw: &CommandWords,
    bw: &BlockWords,
    counts: Counts,
    start: BlockNo,
    items: &[i16],
    atcs: &[u8],
    flags: &[u8],
    times: &[i16],
    vars: &mut [i32],
    answers: &mut [u8; LANES],
    entered: &mut [u32; LANES],
) -> u32
    requires { Ready cw.now bw.now counts.blocks × (length vars.old ≡ variable_count) }
    ensures { Alone (run (script_of (memory_of ws.now val.now cw.now bw.now counts)).blocks (reads items.now atcs.now flags.now times.now) lane_budget start.0 vars.old) answers.old entered.old vars.old result answers.new entered.new vars.new }
{
    let ran = run_copied(
        ws, val, cw, bw, counts, start, items, atcs, flags, times, vars, 4096,
    );
    answers[0] = refusal_in(ran.outcome);
    entered[0] = ran.entered;
    ran.entered
}

// The walk that no check refuses. How many blocks were read.
fn walk_saves(
    attached: &[u8],
    sheet: Sheet,
    ws: &NodeWords,
    val: &Values,
    cw: &CommandWords,
    bw: &BlockWords,
    counts: Counts,
    start: BlockNo,
    k: u32,
    items: &[i16],
    atcs: &[u8],
    flags: &[u8],
    times: &[i16],
    vars: &mut [i32],
    answers: &mut [u8; LANES],
    entered: &mut [u32; LANES],
) -> u32
    requires { walk_refusal_in (sheet_of attached.now sheet) (memory_of ws.now val.now cw.now bw.now counts) start.0 k (save_of items.now atcs.now flags.now times.now vars.old) ≡ 0 }
    ensures { left_of (Ok result) answers.new entered.new vars.new ≡ left_by (walk_in (sheet_of attached.now sheet) (memory_of ws.now val.now cw.now bw.now counts) start.0 k (save_of items.now atcs.now flags.now times.now vars.old)) answers.old entered.old vars.old }
{
    if k == 1 {
        return walk_one(
            ws, val, cw, bw, counts, start, items, atcs, flags, times, vars, answers, entered,
        );
    }
    let w = Widths {
        lanes: k as usize,
        items: attached.len(),
        atcs: sheet.atcs as usize,
    };
    walk_all(
        ws, val, cw, bw, counts, start, w, items, atcs, flags, times, vars, answers, entered,
    )
}

// Walks the blocks from start on for k saves lent one behind another, with a budget of 4,096 each: how many blocks were read.
// Refused, it writes nothing. What each lane answers stays a number in an array, which C reads.
pub fn run_all(
    attached: &[u8],
    sheet: Sheet,
    ws: &NodeWords,
    val: &Values,
    cw: &CommandWords,
    bw: &BlockWords,
    counts: Counts,
    start: BlockNo,
    k: u32,
    items: &[i16],
    atcs: &[u8],
    flags: &[u8],
    times: &[i16],
    vars: &mut [i32],
    answers: &mut [u8; LANES],
    entered: &mut [u32; LANES],
) -> Result<u32, Refusal>
    ensures { left_of result answers.new entered.new vars.new ≡ left_by (walk_in (sheet_of attached.now sheet) (memory_of ws.now val.now cw.now bw.now counts) start.0 k (save_of items.now atcs.now flags.now times.now vars.old)) answers.old entered.old vars.old }
{
    check_all(
        attached, sheet, ws, val, cw, bw, counts, start, k, items, atcs, flags, times, vars,
    )?;
    Ok(walk_saves(
        attached, sheet, ws, val, cw, bw, counts, start, k, items, atcs, flags, times, vars,
        answers, entered,
    ))
}
