// Expressions appended to the nodes of a script in lent arrays: Expr::imm, tests of requirements and their joins, acquired, and what the compiler counts with.
#![tactic(auto)]

ghost use Rattle.std.specs.Prelude.{◌+◌, ◌≤◌, ◌<◌, pos};
ghost use Rattle.model.specs.Limits.{entry_limit, half16, node_limit};
ghost use Rattle.model.specs.Image.{code2, code1};
ghost use Rattle.model.specs.Expr.{imm, imm16, one, two, size, negate};
ghost use Rattle.model.specs.Compile.{test, temp_var, remaining_expr};
ghost use Rattle.shop_codes.specs.Codes.{requirement_of, subject};
ghost use Rattle.model.specs.declared.Op1.TheVariants.{Flag, Item};
ghost use Rattle.model.specs.declared.Op2.TheVariants.{NotEqual, Less};
ghost use Rattle.model.specs.Memory.{nodes_in};
ghost use Rattle.memory.specs.Pushed.{PushedNode, PutExpr};
ghost use Rattle.expr_build.specs.Put.{PutImm};
ghost use Rattle.expr_build.specs.Tests.{with_zero, join_codes, rate_test, acquired_of, missing_and, both_missing};

use expr_negate::negate;
use memory::{NodeWords, Values, code_one, code_two, push_node};
use model::{ItemId, LEAST16, Op1, Op2};
use shop::Row;
use shop_codes::{Subject, is_missing, subject_of};

// The codes of nodes that hold a number.
const IMM16: u16 = 11;

const IMM32: u16 = 12;

// How an item counts as acquired: of is Item or Atc, id is its id there, rate that of a timer or 0.
#[derive(Clone, Copy)]
pub struct Acquired {
    pub of: Op1,
    pub id: u16,
    pub rate: u16,
}

// A node over two operands.
fn push_two(ws: &mut NodeWords, val: &mut Values, n: u16, o: Op2, a: u16, b: u16) -> u16
    requires { n < node_limit }
    ensures { PushedNode (nodes_in ws.old val.old n) (code2 o) a b (pos 0) (nodes_in ws.new val.new result) }
{
    push_node(ws, val, n, code_two(o), a, b, 0)
}

// A node over one operand.
fn push_one(ws: &mut NodeWords, val: &mut Values, n: u16, o: Op1, a: u16) -> u16
    requires { n < node_limit }
    ensures { PushedNode (nodes_in ws.old val.old n) (code1 o) a 0 (pos 0) (nodes_in ws.new val.new result) }
{
    push_node(ws, val, n, code_one(o), a, 0, 0)
}

// A small number of our own: variables, rates, counts.
pub fn push_imm16(ws: &mut NodeWords, val: &mut Values, n: u16, k: u16) -> u16
    requires { (n < node_limit) × (k < half16) }
    ensures { PutExpr (nodes_in ws.old val.old n) (imm16 (pos k)) (nodes_in ws.new val.new result) }
{
    push_node(ws, val, n, IMM16, 0, 0, i32::from(k))
}

// Expr::imm: Imm16 where the number fits.
pub fn push_imm(ws: &mut NodeWords, val: &mut Values, n: u16, z: i32) -> u16
    requires { n < node_limit }
    ensures { PutImm (nodes_in ws.old val.old n) z (nodes_in ws.new val.new result) }
{
    if z < LEAST16 {
        return push_node(ws, val, n, IMM32, 0, 0, z);
    }
    if z > 32767 {
        return push_node(ws, val, n, IMM32, 0, 0, z);
    }
    push_node(ws, val, n, IMM16, 0, 0, z)
}

// o[z] != 0
fn push_compare(ws: &mut NodeWords, val: &mut Values, n: u16, o: Op1, z: i32) -> u16
    requires { n + 4 ≤ node_limit }
    ensures { PutExpr (nodes_in ws.old val.old n) (with_zero NotEqual o z) (nodes_in ws.new val.new result) }
{
    let n1 = push_imm(ws, val, n, z);
    let n2 = push_one(ws, val, n1, o, n1 - 1);
    let n3 = push_imm16(ws, val, n2, 0);
    push_two(ws, val, n3, Op2::NotEqual, n2 - 1, n3 - 1)
}

// flag[z]
fn push_flag(ws: &mut NodeWords, val: &mut Values, n: u16, z: i32) -> u16
    requires { n + 2 ≤ node_limit }
    ensures { PutExpr (nodes_in ws.old val.old n) (one Flag (imm z)) (nodes_in ws.new val.new result) }
{
    let n1 = push_imm(ws, val, n, z);
    push_one(ws, val, n1, Op1::Flag, n1 - 1)
}

// The test of what a requirement is about, had or missing.
fn push_subject(ws: &mut NodeWords, val: &mut Values, n: u16, code: u64) -> u16
    requires { n + size (test (subject (requirement_of code))) ≤ node_limit }
    ensures { PutExpr (nodes_in ws.old val.old n) (test (subject (requirement_of code))) (nodes_in ws.new val.new result) }
{
    match subject_of(code) {
        Subject::Item(i) => push_compare(ws, val, n, Op1::Item, i as i32),
        Subject::Atc(a) => push_compare(ws, val, n, Op1::Atc, a as i32),
        Subject::Flag(f) => push_flag(ws, val, n, f),
    }
}

// compile_requirement: the test of one requirement; Missing is the negation.
fn push_test(ws: &mut NodeWords, val: &mut Values, n: u16, code: u64) -> u16
    requires { n + size (test (requirement_of code)) ≤ node_limit }
    ensures { PutExpr (nodes_in ws.old val.old n) (test (requirement_of code)) (nodes_in ws.new val.new result) }
{
    let m = push_subject(ws, val, n, code);
    if is_missing(code) {
        return negate(ws, val, m);
    }
    m
}

// compile_requirements: the tests of the first len codes joined, leftmost deepest.
pub fn push_tests(ws: &mut NodeWords, val: &mut Values, n: u16, codes: &Row, len: u8) -> u16
    requires len_nonzero { (0 < len) × (len ≤ entry_limit) }
    requires len_bound { n + size (join_codes codes.now len) ≤ node_limit }
    ensures { PutExpr (nodes_in ws.old val.old n) (join_codes codes.now len) (nodes_in ws.new val.new result) }
{
    let mut at = push_test(ws, val, n, codes[0]);
    for i in 1..usize::from(len) {
        let left_root = at - 1;
        let right_end = push_test(ws, val, at, codes[i]);
        at = push_two(ws, val, right_end, Op2::BitAnd, left_root, right_end - 1);
    }
    at
}

// time[2] == rate
fn push_rate(ws: &mut NodeWords, val: &mut Values, n: u16, rate: u16) -> u16
    requires { (n + 4 ≤ node_limit) × (rate < half16) }
    ensures { PutExpr (nodes_in ws.old val.old n) (rate_test rate) (nodes_in ws.new val.new result) }
{
    let n1 = push_imm16(ws, val, n, 2);
    let n2 = push_one(ws, val, n1, Op1::Time, n1 - 1);
    let n3 = push_imm16(ws, val, n2, rate);
    push_two(ws, val, n3, Op2::Equal, n2 - 1, n3 - 1)
}

// The item's or atc's test, or a timer's rate.
pub fn push_acquired(ws: &mut NodeWords, val: &mut Values, n: u16, a: Acquired) -> u16
    requires { (n + size (acquired_of a) ≤ node_limit) × (a.rate < half16) }
    ensures { PutExpr (nodes_in ws.old val.old n) (acquired_of a) (nodes_in ws.new val.new result) }
{
    let n1 = push_compare(ws, val, n, a.of, i32::from(a.id));
    if a.rate == 0 {
        return n1;
    }
    let n2 = push_rate(ws, val, n1, a.rate);
    push_two(ws, val, n2, Op2::BitOr, n1 - 1, n2 - 1)
}

fn push_missing(ws: &mut NodeWords, val: &mut Values, n: u16, a: Acquired) -> u16
    requires { (n + size (negate (acquired_of a)) ≤ node_limit) × (a.rate < half16) }
    ensures { PutExpr (nodes_in ws.old val.old n) (negate (acquired_of a)) (nodes_in ws.new val.new result) }
{
    let m = push_acquired(ws, val, n, a);
    negate(ws, val, m)
}

// Not acquired, and R where there are requirements.
pub fn push_missing_and(
    ws: &mut NodeWords,
    val: &mut Values,
    n: u16,
    a: Acquired,
    codes: &Row,
    len: u8,
) -> u16
    requires { (n + size (missing_and a codes.now len) ≤ node_limit) × (a.rate < half16) × (len ≤ entry_limit) }
    ensures { PutExpr (nodes_in ws.old val.old n) (missing_and a codes.now len) (nodes_in ws.new val.new result) }
{
    let n1 = push_missing(ws, val, n, a);
    if len == 0 {
        return n1;
    }
    let n2 = push_tests(ws, val, n1, codes, len);
    push_two(ws, val, n2, Op2::BitAnd, n1 - 1, n2 - 1)
}

// MissingItem of one of our own.
fn push_missing_item(ws: &mut NodeWords, val: &mut Values, n: u16, item: ItemId) -> u16
    requires { n + 4 ≤ node_limit }
    ensures { PutExpr (nodes_in ws.old val.old n) (negate (with_zero NotEqual Item (pos item.0))) (nodes_in ws.new val.new result) }
{
    let m = push_compare(ws, val, n, Op1::Item, i32::from(item.0));
    negate(ws, val, m)
}

// Two items missing: Timer10 and Timer15.
pub fn push_no_timer(
    ws: &mut NodeWords,
    val: &mut Values,
    n: u16,
    ten: ItemId,
    fifteen: ItemId,
) -> u16
    requires { n + 9 ≤ node_limit }
    ensures { PutExpr (nodes_in ws.old val.old n) (both_missing ten.0 fifteen.0) (nodes_in ws.new val.new result) }
{
    let n1 = push_missing_item(ws, val, n, ten);
    let n2 = push_missing_item(ws, val, n1, fifteen);
    push_two(ws, val, n2, Op2::BitAnd, n1 - 1, n2 - 1)
}

// limit - item[item]
pub fn push_left(ws: &mut NodeWords, val: &mut Values, n: u16, limit: u8, item: ItemId) -> u16
    requires { n + 4 ≤ node_limit }
    ensures { PutExpr (nodes_in ws.old val.old n) (remaining_expr limit item.0) (nodes_in ws.new val.new result) }
{
    let n1 = push_imm16(ws, val, n, u16::from(limit));
    let n2 = push_imm(ws, val, n1, item.0 as i32);
    let n3 = push_one(ws, val, n2, Op1::Item, n2 - 1);
    push_two(ws, val, n3, Op2::Subtract, n1 - 1, n3 - 1)
}

// var[0]
pub fn push_temp(ws: &mut NodeWords, val: &mut Values, n: u16) -> u16
    requires { n + 2 ≤ node_limit }
    ensures { PutExpr (nodes_in ws.old val.old n) temp_var (nodes_in ws.new val.new result) }
{
    let n1 = push_imm16(ws, val, n, 0);
    push_one(ws, val, n1, Op1::Variable, n1 - 1)
}

// var[0] < 0
pub fn push_below(ws: &mut NodeWords, val: &mut Values, n: u16) -> u16
    requires { n + 4 ≤ node_limit }
    ensures { PutExpr (nodes_in ws.old val.old n) (two Less temp_var (imm16 (pos 0))) (nodes_in ws.new val.new result) }
{
    let n1 = push_temp(ws, val, n);
    let n2 = push_imm16(ws, val, n1, 0);
    push_two(ws, val, n2, Op2::Less, n1 - 1, n2 - 1)
}
