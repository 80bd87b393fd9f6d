// Expressions in lent arrays: what they are worth, the number of an Imm, and whether an operator joins conditions.
#![tactic(auto)]

ghost use Rattle.std.specs.Prelude.{◌≡◌, ℕ, ◌≤◌, ℤ, pos};
ghost use Rattle.model.specs.Limits.{node_limit};
ghost use Rattle.model.specs.Expr.{apply2, apply1, readable, read1, eval};
ghost use Rattle.model.specs.Memory.{nodes_in};
ghost use Rattle.model.specs.Parse.{value, is_join};
ghost use Rattle.expr.specs.Tree.{tree_below};
ghost use Rattle.expr.specs.Requirement.{number_of};
ghost use Rattle.expr.specs.Value.{value_of, reads, read_in};

use memory::{NodeWords, Values, kind_of};
use model::{Kind, Op1, Op2, Refusal, Variables};

// ---- operators

pub fn apply_two(o: Op2, x: i32, y: i32) -> i32
    ensures { result ≡ apply2 o x y }
{
    match o {
        Op2::Equal => i32::from(x == y),
        Op2::NotEqual => i32::from(x != y),
        Op2::Less => i32::from(x < y),
        Op2::LessEqual => i32::from(x <= y),
        Op2::Greater => i32::from(x > y),
        Op2::GreaterEqual => i32::from(x >= y),
        Op2::Add => x.wrapping_add(y),
        Op2::Subtract => x.wrapping_sub(y),
        Op2::BitAnd => x & y,
        Op2::BitOr => x | y,
    }
}

// What a save's lists hold: bytes, 16-bit and 32-bit numbers.
trait Reading: Copy {
    ghost number: { Self → ℤ };

    // The number that an expression reads there.
    fn number(self) -> i32
        ensures { result ≡ number self };
}

impl Reading for u8 {
    ghost number = { pos };

    fn number(self) -> i32 {
        i32::from(self)
    }
}

impl Reading for i16 {
    ghost number = { λ z. z };

    fn number(self) -> i32 {
        i32::from(self)
    }
}

impl Reading for i32 {
    ghost number = { λ z. z };

    fn number(self) -> i32 {
        self
    }
}

// Element x of a list, and 0 outside it.
fn read_at<T: Reading>(list: &[T], x: i32) -> i32
    ensures { result ≡ read_in T.number list.now x }
{
    let Ok(i) = usize::try_from(x) else {
        return 0;
    };
    match list.get(i) {
        Some(y) => y.number(),
        None => 0,
    }
}

// The save goes in as its parts, since a struct that holds slices is proved only by hand. Its variables are an array: one
// word to pass on, where a slice is two.
pub fn apply_one(
    items: &[i16],
    atcs: &[u8],
    flags: &[u8],
    times: &[i16],
    vars: &Variables,
    o: Op1,
    x: i32,
) -> i32
    ensures { result ≡ apply1 (reads items.now atcs.now flags.now times.now) vars.now o x }
{
    match o {
        Op1::Not => i32::from(x == 0),
        Op1::Flag => read_at(flags, x),
        Op1::Variable => read_at(vars.as_slice(), x),
        Op1::Item => read_at(items, x),
        Op1::Atc => read_at(atcs, x),
        Op1::Time => read_at(times, x),
    }
}

// ---- numbers

// The number of node i as an operand of node b, if it is an Imm.
#[tactic(auto, using(crate::proofs::Below::below), unfolding(model::specs::Memory::node_of))]
pub fn number_below(ws: &NodeWords, val: &Values, b: u16, i: u16) -> Option<i32>
    requires { b ≤ node_limit }
    ensures { (n : ℕ) → number_of result ≡ value (tree_below (nodes_in ws.now val.now n) b i) }
{
    if i >= b {
        return None;
    }
    let at = usize::from(i);
    match kind_of(ws[3 * at]) {
        Kind::Imm16 | Kind::Imm32 => Some(val[at]),
        Kind::Two(_) | Kind::One(_) | Kind::Other => None,
    }
}

// ---- evaluation

// A flag outside the save is not read; every other read outside it gives 0.
fn is_readable(o: Op1, x: i32) -> bool
    ensures { result ≡ readable o x }
{
    match o {
        Op1::Flag => ints::is_flag(x),
        Op1::Not | Op1::Variable | Op1::Item | Op1::Atc | Op1::Time => true,
    }
}

// An operator of one operand on x, or 23: reading goes no further.
fn read_one(
    items: &[i16],
    atcs: &[u8],
    flags: &[u8],
    times: &[i16],
    vars: &Variables,
    o: Op1,
    x: i32,
) -> Result<i32, Refusal>
    ensures { value_of result ≡ read1 (reads items.now atcs.now flags.now times.now) vars.now o x }
{
    if !is_readable(o, x) {
        return Err(Refusal::NoFlag);
    }
    Ok(apply_one(items, atcs, flags, times, vars, o, x))
}

// What node i is worth as an operand of node b, by a save of these parts and the variables of the moment.
#[cycle(evaluate)]
#[tactic(auto, using(crate::proofs::Below::below), unfolding(model::specs::Memory::node_of))]
fn evaluate_below(
    ws: &NodeWords,
    val: &Values,
    b: u16,
    i: u16,
    items: &[i16],
    atcs: &[u8],
    flags: &[u8],
    times: &[i16],
    vars: &Variables,
) -> Result<i32, Refusal>
    requires { b ≤ node_limit }
    ensures { (n : ℕ) → value_of result ≡ eval (reads items.now atcs.now flags.now times.now) vars.now (tree_below (nodes_in ws.now val.now n) b i) }
{
    if i >= b {
        return Err(Refusal::MetOther);
    }
    let at = usize::from(i);
    let left = ws[3 * at + 1];
    let right = ws[3 * at + 2];
    match kind_of(ws[3 * at]) {
        Kind::Two(o) => {
            // Both operands are evaluated before a refusal is looked at; the left one's wins.
            let x = evaluate(ws, val, i, left, items, atcs, flags, times, vars);
            let y = evaluate(ws, val, i, right, items, atcs, flags, times, vars);
            Ok(apply_two(o, x?, y?))
        }
        Kind::One(o) => {
            let x = evaluate(ws, val, i, left, items, atcs, flags, times, vars)?;
            read_one(items, atcs, flags, times, vars, o, x)
        }
        Kind::Imm16 | Kind::Imm32 => Ok(val[at]),
        Kind::Other => Err(Refusal::MetOther),
    }
}

// What node i is worth as an operand of node b; a root is taken as an operand of node i + 1. It goes
// into its callers, so that an Imm takes no call.
#[cycle(evaluate)]
#[tactic(auto, using(crate::proofs::Below::below), unfolding(model::specs::Memory::node_of))]
#[inline(always)]
pub fn evaluate(
    ws: &NodeWords,
    val: &Values,
    b: u16,
    i: u16,
    items: &[i16],
    atcs: &[u8],
    flags: &[u8],
    times: &[i16],
    vars: &Variables,
) -> Result<i32, Refusal>
    requires { b ≤ node_limit }
    ensures { (n : ℕ) → value_of result ≡ eval (reads items.now atcs.now flags.now times.now) vars.now (tree_below (nodes_in ws.now val.now n) b i) }
{
    match number_below(ws, val, b, i) {
        Some(z) => Ok(z),
        None => evaluate_below(ws, val, b, i, items, atcs, flags, times, vars),
    }
}

// ---- conditions

// And and Or join two conditions.
pub fn is_join(o: Op2) -> bool
    ensures { result ≡ is_join o }
{
    matches!(o, Op2::BitAnd | Op2::BitOr)
}
