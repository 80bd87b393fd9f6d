// Expressions in lent arrays, what they are worth and their negations: runs the cases of its standard input, one to a line, and says of each whether it answered what the line says. The nodes go from line to line.
#![tactic(auto)]

ghost use Rattle.std.specs.Prelude.{◌≡◌, ◌+◌, ◌-◌, ◌<◌, ◌≤◌, IfSome};
ghost use Rattle.model.specs.Limits.{node_limit};
ghost use Rattle.model.specs.Memory.{Nodes, nodes_in};
ghost use Rattle.expr_cases.specs.Stands.{Stands, Leaf, turn_of};

use case_lines::{Answer, WORDS, Words, low8, low16, run_cases, signed16};
use expr::evaluate;
use expr_negate::negate;
use memory::{
    NODE_LIMIT, NODE_WORDS, NODES, NodeWords, Values, code_one, code_two, kind_of, push_node,
};
use model::{Kind, Op1, Op2, VARIABLES};

fn main() {
    let mut input: [u8; 4096] = [0; 4096];
    let mut ws: NodeWords = [0; NODE_WORDS];
    let mut val: Values = [0; NODES];
    start(&mut input, &mut ws, &mut val);
}

// Large arrays are not read where they are made: the proof would go through their elements. The nodes go from line to line.
fn start(input: &mut [u8; 4096], ws: &mut NodeWords, val: &mut Values) {
    run_cases(
        input,
        b"EN",
        |_| WORDS,
        |op, a, t| match op {
            b'n' => nodes(a, ws, val),
            b'E' => evaluated(a, ws, val, t),
            b'N' => negated(a, ws, val, t),
            _ => (),
        },
    );
}

// ---- a row of nodes

fn nodes(a: &mut Words, ws: &mut NodeWords, val: &mut Values) {
    for _ in 0..a[2] {
        node(a, ws, val);
    }
}

// The node of a line, which is then the next one of the row.
fn node(a: &mut Words, ws: &mut NodeWords, val: &mut Values) {
    let n = low16(a[1]);
    if NODE_LIMIT <= n {
        return;
    }
    push_node(
        ws,
        val,
        n,
        low16(a[4]),
        low16(a[5]),
        low16(a[6]),
        ints::from_bits(a[7]),
    );
    a[1] = a[1].wrapping_add(a[3]);
    a[5] = a[5].wrapping_add(a[8]);
    a[6] = a[6].wrapping_add(a[9]);
}

// ---- what a node is worth

fn evaluated(a: &Words, ws: &NodeWords, val: &Values, t: &mut Answer) {
    let i = low16(a[1]);
    if NODE_LIMIT <= i {
        return;
    }
    let items = [signed16(a[2]); 1];
    let atcs = [low8(a[3]); 1];
    let flags = [low8(a[4]); 1];
    let times = [signed16(a[5]); 1];
    let vars = [ints::from_bits(a[6]); VARIABLES];
    match evaluate(ws, val, i + 1, i, &items, &atcs, &flags, &times, &vars) {
        Ok(z) => {
            t[0] = 1;
            t[1] = ints::to_bits(z);
        }
        Err(e) => t[1] = u32::from(e.number()),
    }
}

// ---- negation

fn negated(a: &Words, ws: &mut NodeWords, val: &mut Values, t: &mut Answer) {
    let n = low16(a[1]);
    if NODE_LIMIT <= n {
        return;
    }
    let Some(turn) = again(ws, val, low16(a[2]), n) else {
        return;
    };
    if turn != Turn::Otherwise {
        t[0] = u32::from(negate(ws, val, n));
    }
}

// How an expression is negated: by a Not over it, where it stands, or in another way.
#[derive(Clone, Copy, Debug, PartialEq, Eq)]
enum Turn {
    Over,
    Within,
    Otherwise,
}

// Appends the expression of the nodes from c to below n once more, where it stands: then it is what was appended last, as negate asks. Answers how it is negated.
// None: these nodes do not lie as an expression that was appended.
fn again(ws: &mut NodeWords, val: &mut Values, c: u16, n: u16) -> Option<Turn>
    requires { n ≤ node_limit }
    ensures { IfSome result (Stands (nodes_in ws.old val.old c) (nodes_in ws.new val.new n)) }
{
    if n <= c {
        return None;
    }
    let i = n - 1;
    let at = usize::from(i);
    let left = ws[3 * at + 1];
    let right = ws[3 * at + 2];
    let z = val[at];
    let k = kind_of(ws[3 * at]);
    match k {
        Kind::Two(o) => {
            if i <= left || right != i - 1 {
                return None;
            }
            // Both are appended, also where the first is none.
            let x = again(ws, val, c, left + 1);
            let y = again(ws, val, left + 1, i);
            Some(over_two(ws, val, o, left, n, x?, y?))
        }
        Kind::One(o) => {
            if i <= left || left != i - 1 {
                return None;
            }
            let x = again(ws, val, c, i)?;
            Some(over_one(ws, val, o, n, x))
        }
        Kind::Imm16 => leaf(ws, val, c, n, 11, z),
        Kind::Imm32 => leaf(ws, val, c, n, 12, z),
        Kind::Other => leaf(ws, val, c, n, 18, 0),
    }
}

// Node n - 1 over the expressions that end at left and just before it, which are negated by x and by y.
fn over_two(
    ws: &mut NodeWords,
    val: &mut Values,
    o: Op2,
    left: u16,
    n: u16,
    x: Turn,
    y: Turn,
) -> Turn
    requires { (1 < n) × (n ≤ node_limit) }
    ensures { (s t : Nodes) → t.count ≡ left + 1 → Stands s t x → Stands t (nodes_in ws.old val.old (n - 1)) y → Stands s (nodes_in ws.new val.new n) result }
{
    let code = code_two(o);
    push_node(ws, val, n - 1, code, left, n - 1 - 1, 0);
    turned(code, x, y)
}

// How a node of this code is negated whose operands are by x and by y.
fn turned(code: u16, x: Turn, y: Turn) -> Turn
    ensures { result ≡ turn_of code x y }
{
    match code {
        0..=5 => Turn::Within,
        6 => Turn::Otherwise,
        7 | 8 => Turn::Over,
        9 | 10 if matches!((x, y), (Turn::Within, Turn::Within)) => Turn::Within,
        9 | 10 => Turn::Otherwise,
        _ => Turn::Over,
    }
}

// Node n - 1 over the expression just before it, which is negated by x.
fn over_one(ws: &mut NodeWords, val: &mut Values, o: Op1, n: u16, x: Turn) -> Turn
    requires { (1 < n) × (n ≤ node_limit) }
    ensures { (s : Nodes) → Stands s (nodes_in ws.old val.old (n - 1)) x → Stands s (nodes_in ws.new val.new n) result }
{
    let code = code_one(o);
    push_node(ws, val, n - 1, code, n - 1 - 1, 0, 0);
    turned(code, x, x)
}

// Node n - 1, which has this code and number and no operands, as all of the nodes from c on.
fn leaf(ws: &mut NodeWords, val: &mut Values, c: u16, n: u16, code: u16, z: i32) -> Option<Turn>
    requires { (c < n) × (n ≤ node_limit) }
    ensures { IfSome result (Leaf (nodes_in ws.old val.old c) (nodes_in ws.new val.new n) code z) }
{
    if c + 1 != n {
        return None;
    }
    push_node(ws, val, c, code, 0, 0, z);
    Some(Turn::Over)
}
