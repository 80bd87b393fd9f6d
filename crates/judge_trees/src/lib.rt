// The trees of nodes that lie in one piece: how many nodes each has, told by one pass from the lowest node up.
#![tactic(auto)]

ghost use Rattle.std.specs.Prelude.{◌≡◌, true, IfSome, ◌≤◌, ◌<◌, pos, length, get_or};
ghost use Rattle.model.specs.Limits.{wide, node_limit, wide16};
ghost use Rattle.judge_trees.specs.Trees.{Number, Tree, Trees, Shallow};
ghost use Rattle.judge_trees.specs.Codes.{Before, Next, Joined, High};

use memory::{NODES, NodeWords, Values, kind_of};
use model::{Kind, LEAST16};

// The largest signed number of 16 bits.
const MOST16: i32 = 32767;

// The number of an Imm16, which has to have 16 bits.
fn imm16_size(z: i32) -> Option<usize>
    ensures { IfSome result (λ r. Number z wide16 r) }
{
    if z < LEAST16 || MOST16 < z {
        None
    } else {
        Some(1)
    }
}

// The number of an Imm32, of which each is fine.
fn imm32_size(z: i32) -> usize
    ensures { Number z wide result }
{
    1
}

// Node i above node a, which has to be the one before it, of s nodes.
fn above_one(i: usize, s: usize, a: u16) -> Option<usize>
    requires { (i < node_limit) × (s ≤ i) }
    ensures { IfSome result (λ r. Next i s a r) }
{
    if usize::from(a) + 1 == i {
        Some(s + 1)
    } else {
        None
    }
}

// Node i above node b, which has to be the one before it, of s nodes, and node a, which has to be the one before b's tree.
fn above_two(sizes: &[u16], i: usize, s: usize, a: u16, b: u16) -> Option<usize>
    requires { (i < node_limit) × Before sizes.now i s }
    ensures { IfSome result (λ r. Joined sizes.now i s a b r) }
{
    let left = usize::from(a);
    let right = usize::from(b);
    if right + 1 == i && left + s + 1 == i {
        Some(usize::from(sizes[left]) + s + 1)
    } else {
        None
    }
}

// A node whose code is above 11: Imm32, what has one operand, Other, or no code.
fn high_size(val: &Values, i: usize, s: usize, code: u16, a: u16) -> Option<usize>
    requires { (i < node_limit) × ((11 < code) × (s ≤ i)) }
    ensures { IfSome result (λ r. High (get_or val.now i (pos 0)) i s code a r) }
{
    if code > 18 {
        None
    } else if code == 18 {
        Some(1)
    } else if code == 12 {
        Some(imm32_size(val[i]))
    } else {
        above_one(i, s, a)
    }
}

// How many nodes the tree of node i has, s being the size of the node before it; none where the node is not fine, or its tree does not lie in one piece.
// The code 11, which most nodes have, is asked first.
fn size_of(ws: &NodeWords, val: &Values, sizes: &[u16], i: usize, s: usize) -> Option<usize>
    requires { (i < node_limit) × Before sizes.now i s }
    ensures { IfSome result (λ r. Tree ws.now val.now sizes.now i r) }
{
    let code = ws[3 * i];
    if code == 11 {
        imm16_size(val[i])
    } else if code > 11 {
        high_size(val, i, s, code, ws[3 * i + 1])
    } else if code == 6 {
        above_one(i, s, ws[3 * i + 1])
    } else {
        above_two(sizes, i, s, ws[3 * i + 1], ws[3 * i + 2])
    }
}

// The trees of the first n nodes, from the lowest on, since operands lie below; false where one is not fine by itself or not in one piece.
pub fn measure_trees(ws: &NodeWords, val: &Values, sizes: &mut [u16], n: usize) -> bool
    requires { (n ≤ node_limit) × (n ≤ length sizes.old) }
    ensures { result ≡ true → Trees ws.now val.now sizes.new n }
{
    let mut s = 0;
    for i in 0..n {
        let Some(size) = size_of(ws, val, sizes, i, s) else {
            return false;
        };
        sizes[i] = size as u16;
        s = size;
    }
    true
}

// Whether the tree of node i has at most so many levels. It goes over the whole tree: only for those that may be too deep.
pub fn is_shallow(ws: &NodeWords, i: usize, levels: usize) -> bool
    ensures { result ≡ true → Shallow ws.now levels i }
{
    if levels == 0 || i >= NODES {
        return false;
    }
    match kind_of(ws[3 * i]) {
        Kind::Two(_) => {
            is_shallow(ws, usize::from(ws[3 * i + 1]), levels - 1)
                && is_shallow(ws, usize::from(ws[3 * i + 2]), levels - 1)
        }
        Kind::One(_) => is_shallow(ws, usize::from(ws[3 * i + 1]), levels - 1),
        Kind::Imm16 | Kind::Imm32 | Kind::Other => true,
    }
}
