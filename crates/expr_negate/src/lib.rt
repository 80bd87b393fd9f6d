// Expr::negate over nodes in lent arrays, in place: the nodes that stood for an expression then stand for its negation.
#![tactic(auto)]

ghost use Rattle.std.specs.Prelude.{◌≡◌, ℕ};
ghost use Rattle.model.specs.Expr.{Expr, negate};
ghost use Rattle.model.specs.Memory.{Nodes, nodes_in};
ghost use Rattle.memory.specs.Pushed.{PutExpr};
ghost use Rattle.expr_negate.specs.Turns.{flip_code, is_sum, operator_of, Turns};
ghost use Rattle.expr_negate.specs.InPlace.{Laid, Lies, flip_in, Last};

use memory::{NodeWords, Values, code_one, kind_of, push_node};
use model::{Kind, Op1, Op2};

// The code of the negation: Equal and NotEqual are 0 and 1, the other comparisons 2 to 5, And and Or 9 and 10.
fn flipped(code: u16) -> u16
    ensures { result ≡ flip_code code }
{
    match code {
        0 | 1 => 1 - code,
        2..=5 => 7 - code,
        9 => 10,
        _ => 9,
    }
}

// What has no operator for its negation, as sums and all but comparisons, And and Or: a Not goes on top.
fn gains_not(k: Kind) -> bool
    ensures { result ≡ is_sum (operator_of k) }
{
    match k {
        Kind::Two(o) => matches!(o, Op2::Add | Op2::Subtract),
        Kind::One(_) | Kind::Imm16 | Kind::Imm32 | Kind::Other => true,
    }
}

// Negates node i where it stands: a comparison flips, And and Or swap and both sides are negated.
fn negate_node(ws: &mut NodeWords, i: u16)
    requires { Lies ws.old i }
    ensures { (c : ℕ) (e : Expr) → Laid ws.old c e i → ws.new ≡ flip_in ws.old c e }
{
    let at = usize::from(i);
    let code = ws[3 * at];
    let left = ws[3 * at + 1];
    let right = ws[3 * at + 2];
    ws[3 * at] = flipped(code);
    if code < 6 {
        return;
    }
    negate_node(ws, left);
    negate_node(ws, right);
}

// Negates the expression that was appended last, and returns the new count.
pub fn negate(ws: &mut NodeWords, val: &mut Values, n: u16) -> u16
    requires { Last (nodes_in ws.old val.old n) }
    ensures { (s : Nodes) (e : Expr) → Turns e → PutExpr s e (nodes_in ws.old val.old n) → PutExpr s (negate e) (nodes_in ws.new val.new result) }
{
    let root = n - 1;
    if gains_not(kind_of(ws[3 * usize::from(root)])) {
        return push_node(ws, val, n, code_one(Op1::Not), root, 0, 0);
    }
    negate_node(ws, root);
    n
}
