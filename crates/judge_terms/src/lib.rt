// Expressions judged: immediates, and the walk over the nodes of an expression as its image would be read.
// Each piece of the image that is fine answers with the nodes counted and the bytes passed after it.
#![tactic(auto)]

ghost use Rattle.std.specs.Prelude.{◌≡◌, ◌-◌, ◌≤◌, ◌<◌};
ghost use Rattle.model.specs.Reading.{zig};
ghost use Rattle.model.specs.Expr.{size};
ghost use Rattle.model.specs.Image.{read_expr, read_term};
ghost use Rattle.model.specs.Memory.{nodes_in};
ghost use Rattle.model.specs.Record.{node_image, root_image};
ghost use Rattle.memory.specs.View.{nodes_of};
ghost use Rattle.judge_terms.specs.Told.{Told, limits_by, ReadyBy, Walking, imm_judged};

use image_numbers::{folded, word_length};
use memory::{Counts, NodeWords, Values, kind_of};
use model::{Kind, Refusal, WIDE, WIDE16};

// The number of an immediate, which has to be below the limit.
fn judge_imm(z: i32, limit: u64, n: u16, at: u32) -> Result<(u16, u32), Refusal>
    requires { at ≤ 1000000 }
    ensures { result ≡ imm_judged (zig z) limit n at }
{
    let v = folded(z);
    if v < limit {
        Ok((n, at + word_length(v) as u32))
    } else {
        Err(Refusal::BadImage)
    }
}

// Node i, which has to be below b. Each node visited raises the count, so that the walk ends at the limit however nodes are shared.
// The place has 32 bits: each node's answer goes through memory, and is half as long so.
fn judge_expr(
    ws: &NodeWords,
    val: &Values,
    b: u16,
    i: u16,
    n: u16,
    at: u32,
    limit: u16,
    depth: u16,
) -> Result<(u16, u32), Refusal>
    requires { Walking b limit depth n at }
    ensures { Told (read_expr limit (64 - depth) n) size (node_image (nodes_in ws.now val.now limit) b i) limit 0 n at result }
{
    if i >= b {
        return Err(Refusal::BadImage);
    }
    let j = usize::from(i);
    let c = ws[3 * j];
    if c >= 19 {
        return Err(Refusal::BadImage);
    }
    if n >= limit {
        return Err(Refusal::OverLimit);
    }
    if depth >= 64 {
        return Err(Refusal::TooDeep);
    }
    let deeper = depth + 1;
    match kind_of(c) {
        Kind::Two(_) => {
            let (m, p) = judge_expr(ws, val, i, ws[3 * j + 1], n + 1, at + 1, limit, deeper)?;
            judge_expr(ws, val, i, ws[3 * j + 2], m, p, limit, deeper)
        }
        Kind::One(_) => judge_expr(ws, val, i, ws[3 * j + 1], n + 1, at + 1, limit, deeper),
        Kind::Imm16 => judge_imm(val[j], WIDE16, n + 1, at + 1),
        Kind::Imm32 => judge_imm(val[j], WIDE, n + 1, at + 1),
        Kind::Other => Ok((n + 1, at + 1)),
    }
}

// An expression of a command: its root has to be below the kept count of nodes, which is also their limit.
pub fn judge_term(
    ws: &NodeWords,
    val: &Values,
    counts: Counts,
    i: u16,
    n: u16,
    at: usize,
) -> Result<(u16, usize), Refusal>
    requires { ReadyBy counts n at 200000 }
    ensures { Told (read_term (limits_by counts) n) size (root_image (nodes_of ws.now val.now counts) i) counts.nodes 0 n at result }
{
    let (m, p) = judge_expr(ws, val, counts.nodes, i, n, at as u32, counts.nodes, 0)?;
    Ok((m, p as usize))
}
