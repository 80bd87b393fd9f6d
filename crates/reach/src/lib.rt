// A walk of blocks: marks, and a stack of blocks with a number each, next above else.
#![tactic(auto)]

ghost use Rattle.std.specs.Prelude.{◌≡◌, false, ◌+◌, ◌*◌, ◌-◌, ◌≤◌, ◌<◌, length, get_or, take};
ghost use Rattle.model.specs.Limits.{block_limit};
ghost use Rattle.reach.specs.Dfs.{entry, to};
ghost use Rattle.reach.specs.Stacks.{is_code_at, top_of, ways, Pushed};

use memory::{BLOCKS, BlockWords};
use model::{BlockNo, Link};

// The number of a condition, 0 for none: what an entry of the stack holds beside its block.
#[derive(Clone, Copy)]
pub struct Condition(pub u16);

// Whether block b is one of nb blocks and marked.
fn is_marked(marks: &[bool; BLOCKS], nb: u16, b: u16) -> bool
    requires { nb ≤ block_limit }
    ensures { result ≡ get_or (take nb marks.now) b false }
{
    b < nb && marks[usize::from(b)]
}

// The depth of the stack without the marked entries at its top.
pub fn top_unmarked(marks: &[bool; BLOCKS], stack: &[u16], nb: u16, depth: usize) -> usize
    requires { (nb ≤ block_limit) × (2 * depth ≤ length stack.now) }
    ensures { result ≡ top_of (take nb marks.now) stack.now depth }
{
    for d in (0..depth).rev() {
        if !is_marked(marks, nb, stack[2 * d]) {
            return d + 1;
        }
    }
    0
}

// The block that a link names, under a condition.
fn push_one(stack: &mut [u16], depth: usize, link: Link, under: Condition) -> usize
    requires { (2 * depth + 2 ≤ length stack.old) × (0 < link.0) }
    ensures { Pushed stack.old depth (to (entry (link.0 - 1) under.0)) stack.new result }
{
    stack[2 * depth] = link.0 - 1;
    stack[2 * depth + 1] = under.0;
    depth + 1
}

// Next before else, else only where there is a next: next goes above else.
pub fn push(
    stack: &mut [u16],
    depth: usize,
    next: Link,
    then: Condition,
    other: Link,
    otherwise: Condition,
) -> usize
    requires { 2 * depth + 4 ≤ length stack.old }
    ensures { Pushed stack.old depth (ways next.0 then.0 other.0 otherwise.0) stack.new result }
{
    if next.0 == 0 {
        return depth;
    }
    if other.0 == 0 {
        return push_one(stack, depth, next, then);
    }
    let d = push_one(stack, depth, other, otherwise);
    push_one(stack, d, next, then)
}

// Whether block b is one of nb blocks and code.
pub fn is_code(bw: &BlockWords, nb: u16, b: BlockNo) -> bool
    requires { nb ≤ block_limit }
    ensures { result ≡ is_code_at bw.now nb b.0 }
{
    b.0 < u32::from(nb) && bw[5 * b.0 as usize] == 1
}
