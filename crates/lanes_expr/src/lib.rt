// One expression for all the lanes of a walk (02, A.8): one pass over its nodes, and at each node one loop over the lanes.
#![tactic(auto)]

ghost use Rattle.std.specs.Prelude.{◌≡◌, ℕ, ◌+◌, ◌*◌, ◌≤◌, ◌<◌, get_or, length, ℤ, pos};
ghost use Rattle.model.specs.Limits.{node_limit, most_saves};
ghost use Rattle.model.specs.Expr.{apply2};
ghost use Rattle.model.specs.Memory.{nodes_in};
ghost use Rattle.expr.specs.Tree.{tree_below};
ghost use Rattle.expr.specs.Value.{reads};
ghost use Rattle.lanes_expr.specs.Lanes.{place_in, worth_in, Lies, Parts, Stand, apply_in, eval_in, first_of2, reads_flag, flag_stop, read_stop, Valued};
ghost use Rattle.lanes_expr.specs.Each.{Each};

use expr::number_below;
use memory::{NodeWords, Values, kind_of};
use model::{FLAGS, Kind, Op1, Op2, Refusal, TIMES, VARIABLES};

// The most lanes of a walk. What a loop over lanes leaves is dense: place j belongs to the lane whose number stands at place j.
// By the names of the definitions: ls has the lanes' numbers, vs the variables of all saves, xs and rs a value and a refusal, or 0, for each lane of ls.
// Refusals stay numbers there: one byte a lane, which the loops keep or replace without a branch, and which ends as it is in the answers that C reads.
pub const LANES: usize = 64;

// How many lanes a list names, and how many items and ATCs each save has.
#[derive(Clone, Copy)]
pub struct Widths {
    pub lanes: usize,
    pub items: usize,
    pub atcs: usize,
}

// ---- one lane: its part of a list begins at its number times the part's width

// An element of a list of a save, and the number that an expression reads there.
trait Element: Copy {
    ghost worth: { Self → ℤ };

    fn number(self) -> i32
        ensures { result ≡ worth self };
}

impl Element for u8 {
    ghost worth = { pos };

    fn number(self) -> i32 {
        i32::from(self)
    }
}

impl Element for i16 {
    ghost worth = { λ x. x };

    fn number(self) -> i32 {
        i32::from(self)
    }
}

impl Element for i32 {
    ghost worth = { λ x. x };

    fn number(self) -> i32 {
        self
    }
}

// Where element x of part l stands.
fn place_in(width: usize, l: usize, x: i32) -> Option<usize>
    requires { l * width + width < 18446744073709551616 }
    ensures { result ≡ place_in width l x }
{
    match usize::try_from(x) {
        Ok(i) if i < width => Some(l * width + i),
        _ => None,
    }
}

// Element x of part l, and 0 outside it.
fn element_in<T: Element>(list: &[T], width: usize, l: usize, x: i32) -> i32
    requires { l * width + width ≤ length list.now }
    ensures { result ≡ worth_in T.worth width l list.now x }
{
    match place_in(width, l, x) {
        Some(i) => list[i].number(),
        None => 0,
    }
}

// What an operator makes of x by the save and the variables of lane l.
fn apply_in(
    o: Op1,
    w: Widths,
    l: usize,
    items: &[i16],
    atcs: &[u8],
    flags: &[u8],
    times: &[i16],
    vs: &[i32],
    x: i32,
) -> i32
    requires { Lies w.items w.atcs (reads items.now atcs.now flags.now times.now) vs.now l }
    ensures { result ≡ apply_in w.items w.atcs (reads items.now atcs.now flags.now times.now) vs.now o l x }
{
    match o {
        Op1::Not => expr::apply_two(Op2::Equal, x, 0),
        Op1::Flag => element_in(flags, FLAGS, l, x),
        Op1::Variable => element_in(vs, VARIABLES, l, x),
        Op1::Item => element_in(items, w.items, l, x),
        Op1::Atc => element_in(atcs, w.atcs, l, x),
        Op1::Time => element_in(times, TIMES, l, x),
    }
}

// ---- one node: a loop over the lanes

fn fill(z: i32, s: usize, out: &mut [i32; LANES])
    requires { s ≤ most_saves }
    ensures { Each (pos 0) (λ _ _. z) s out.old out.new }
{
    for j in 0..s {
        out[j] = z;
    }
}

// The refusal that stands, else the new one.
fn first_stop(a: u8, r: u8) -> u8
    ensures { result ≡ first_of2 a r }
{
    if a == 0 { r } else { a }
}

// Every lane that has not stopped stops with r.
fn stop_lanes(r: u8, s: usize, stops: &mut [u8; LANES])
    requires { s ≤ most_saves }
    ensures { Each 0 (λ _ a. first_of2 a r) s stops.old stops.new }
{
    for j in 0..s {
        stops[j] = first_stop(stops[j], r);
    }
}

// ---- a flag outside the save stops the lane that reads it (02, A.10)

fn reads_flag(o: Op1) -> bool
    ensures { result ≡ reads_flag o }
{
    matches!(o, Op1::Flag)
}

fn flag_stop(x: i32) -> u8
    ensures { result ≡ flag_stop x }
{
    if ints::is_flag(x) {
        0
    } else {
        Refusal::NoFlag.number()
    }
}

// Each lane reads the flag of its own number.
fn stop_outside(s: usize, at: &[i32; LANES], stops: &mut [u8; LANES])
    requires { s ≤ most_saves }
    ensures { Each 0 (λ j a. first_of2 a (flag_stop (get_or at.now j (pos 0)))) s stops.old stops.new }
{
    for j in 0..s {
        stops[j] = first_stop(stops[j], flag_stop(at[j]));
    }
}

fn stop_each(o: Op1, s: usize, at: &[i32; LANES], stops: &mut [u8; LANES])
    requires { s ≤ most_saves }
    ensures { Each 0 (λ j a. first_of2 a (read_stop o (get_or at.now j (pos 0)))) s stops.old stops.new }
{
    if reads_flag(o) {
        stop_outside(s, at, stops);
    }
}

// All lanes read at x: a flag of the save, as nearly all are, takes no loop.
fn stop_same(o: Op1, x: i32, s: usize, stops: &mut [u8; LANES])
    requires { s ≤ most_saves }
    ensures { Each 0 (λ _ a. first_of2 a (read_stop o x)) s stops.old stops.new }
{
    if reads_flag(o) {
        let r = flag_stop(x);
        if r != 0 {
            stop_lanes(r, s, stops);
        }
    }
}

// ---- operators

fn two_each(o: Op2, s: usize, right: &[i32; LANES], out: &mut [i32; LANES])
    requires { s ≤ most_saves }
    ensures { Each (pos 0) (λ j x. apply2 o x (get_or right.now j (pos 0))) s out.old out.new }
{
    for j in 0..s {
        out[j] = expr::apply_two(o, out[j], right[j]);
    }
}

fn one_each(
    o: Op1,
    ls: &[u8; LANES],
    w: Widths,
    items: &[i16],
    atcs: &[u8],
    flags: &[u8],
    times: &[i16],
    vs: &[i32],
    xs: &mut [i32; LANES],
)
    requires { Stand w.items w.atcs (reads items.now atcs.now flags.now times.now) vs.now ls.now w.lanes }
    ensures { Each (pos 0) (λ j x. apply_in w.items w.atcs (reads items.now atcs.now flags.now times.now) vs.now o (get_or ls.now j 0) x) w.lanes xs.old xs.new }
{
    for j in 0..w.lanes {
        let l = usize::from(ls[j]);
        xs[j] = apply_in(o, w, l, items, atcs, flags, times, vs, xs[j]);
    }
}

// The operator is a constant at each call, so that no turn of the loop asks for it.
fn apply_two_lanes(o: Op2, s: usize, right: &[i32; LANES], out: &mut [i32; LANES])
    requires { s ≤ most_saves }
    ensures { Each (pos 0) (λ j x. apply2 o x (get_or right.now j (pos 0))) s out.old out.new }
{
    match o {
        Op2::Equal => two_each(Op2::Equal, s, right, out),
        Op2::NotEqual => two_each(Op2::NotEqual, s, right, out),
        Op2::Less => two_each(Op2::Less, s, right, out),
        Op2::LessEqual => two_each(Op2::LessEqual, s, right, out),
        Op2::Greater => two_each(Op2::Greater, s, right, out),
        Op2::GreaterEqual => two_each(Op2::GreaterEqual, s, right, out),
        Op2::Add => two_each(Op2::Add, s, right, out),
        Op2::Subtract => two_each(Op2::Subtract, s, right, out),
        Op2::BitAnd => two_each(Op2::BitAnd, s, right, out),
        Op2::BitOr => two_each(Op2::BitOr, s, right, out),
    }
}

// Not is a comparison with 0; the other operators read.
fn apply_one_lanes(
    o: Op1,
    ls: &[u8; LANES],
    w: Widths,
    items: &[i16],
    atcs: &[u8],
    flags: &[u8],
    times: &[i16],
    vs: &[i32],
    xs: &mut [i32; LANES],
)
    requires { Stand w.items w.atcs (reads items.now atcs.now flags.now times.now) vs.now ls.now w.lanes }
    ensures { Each (pos 0) (λ j x. apply_in w.items w.atcs (reads items.now atcs.now flags.now times.now) vs.now o (get_or ls.now j 0) x) w.lanes xs.old xs.new }
{
    match o {
        Op1::Not => two_each(Op2::Equal, w.lanes, &[0; LANES], xs),
        _ => one_each(o, ls, w, items, atcs, flags, times, vs, xs),
    }
}

// ---- one node that reads at the same number for every lane, as nearly all do

fn same_elements<T: Element>(
    list: &[T],
    width: usize,
    lanes: &[u8; LANES],
    s: usize,
    x: i32,
    out: &mut [i32; LANES],
)
    requires { Parts width lanes.now s list.now }
    ensures { Each (pos 0) (λ j _. worth_in T.worth width (get_or lanes.now j 0) list.now x) s out.old out.new }
{
    for j in 0..s {
        out[j] = element_in(list, width, usize::from(lanes[j]), x);
    }
}

fn apply_same_lanes(
    o: Op1,
    x: i32,
    ls: &[u8; LANES],
    w: Widths,
    items: &[i16],
    atcs: &[u8],
    flags: &[u8],
    times: &[i16],
    vs: &[i32],
    xs: &mut [i32; LANES],
)
    requires { Stand w.items w.atcs (reads items.now atcs.now flags.now times.now) vs.now ls.now w.lanes }
    ensures { Each (pos 0) (λ j _. apply_in w.items w.atcs (reads items.now atcs.now flags.now times.now) vs.now o (get_or ls.now j 0) x) w.lanes xs.old xs.new }
{
    match o {
        Op1::Not => fill(expr::apply_two(Op2::Equal, x, 0), w.lanes, xs),
        Op1::Flag => same_elements(flags, FLAGS, ls, w.lanes, x, xs),
        Op1::Variable => same_elements(vs, VARIABLES, ls, w.lanes, x, xs),
        Op1::Item => same_elements(items, w.items, ls, w.lanes, x, xs),
        Op1::Atc => same_elements(atcs, w.atcs, ls, w.lanes, x, xs),
        Op1::Time => same_elements(times, TIMES, ls, w.lanes, x, xs),
    }
}

// ---- an expression

// What node i is worth as an operand of node b, for each of the lanes; a lane that stops keeps its first refusal. Both
// operands are evaluated, left first.
pub fn evaluate_lanes(
    ws: &NodeWords,
    val: &Values,
    b: u16,
    i: u16,
    ls: &[u8; LANES],
    w: Widths,
    items: &[i16],
    atcs: &[u8],
    flags: &[u8],
    times: &[i16],
    vs: &[i32],
    xs: &mut [i32; LANES],
    rs: &mut [u8; LANES],
)
    requires { (b ≤ node_limit) × Stand w.items w.atcs (reads items.now atcs.now flags.now times.now) vs.now ls.now w.lanes }
    ensures { (k : ℕ) → Valued w.lanes (λ j. eval_in w.items w.atcs (reads items.now atcs.now flags.now times.now) vs.now (tree_below (nodes_in ws.now val.now k) b i) (get_or ls.now j 0)) rs.old rs.new xs.new }
{
    if i >= b {
        return stop_lanes(Refusal::MetOther.number(), w.lanes, rs);
    }
    let at = usize::from(i);
    let l = ws[3 * at + 1];
    match kind_of(ws[3 * at]) {
        Kind::Two(o) => {
            evaluate_lanes(ws, val, i, l, ls, w, items, atcs, flags, times, vs, xs, rs);
            let r = ws[3 * at + 2];
            match number_below(ws, val, i, r) {
                Some(z) => apply_two_lanes(o, w.lanes, &[z; LANES], xs),
                None => {
                    let mut right = [0; LANES];
                    let ys = &mut right;
                    evaluate_lanes(ws, val, i, r, ls, w, items, atcs, flags, times, vs, ys, rs);
                    apply_two_lanes(o, w.lanes, &right, xs);
                }
            }
        }
        Kind::One(o) => match number_below(ws, val, i, l) {
            Some(z) => {
                stop_same(o, z, w.lanes, rs);
                apply_same_lanes(o, z, ls, w, items, atcs, flags, times, vs, xs);
            }
            None => {
                evaluate_lanes(ws, val, i, l, ls, w, items, atcs, flags, times, vs, xs, rs);
                stop_each(o, w.lanes, xs, rs);
                apply_one_lanes(o, ls, w, items, atcs, flags, times, vs, xs);
            }
        },
        Kind::Imm16 | Kind::Imm32 => fill(val[at], w.lanes, xs),
        Kind::Other => stop_lanes(Refusal::MetOther.number(), w.lanes, rs),
    }
}
