// Marks the blocks that the roots of a reclaim reach (02, A.4): a block that gets its mark goes into a queue, and the links of each block there are followed once.
#![tactic(auto)]

ghost use Rattle.std.specs.Prelude.{◌≡◌, false, [], ◌∷◌, ℕ, ◌+◌, ◌≤◌, ◌<◌, length, replicate};
ghost use Rattle.model.specs.Limits.{block_limit, command_limit};
ghost use Rattle.model.specs.Memory.{link_in};
ghost use Rattle.reclaim_model.specs.Rename.{with_link, Every, IsLink};
ghost use Rattle.reclaim_model.specs.Reclaim.{roots_ok};
ghost use Rattle.reclaim_reach.specs.Words.{Low, names_block, target_at, targets_at, links_at, SafeAt, Safe};
ghost use Rattle.reclaim_reach.specs.Queue.{queue_in, Queued};
ghost use Rattle.reclaim_reach.specs.Pieces.{Marking};
ghost use Rattle.reclaim_reach.specs.Marks.{Reaching};

use memory::{BLOCKS, BlockWords, CommandWords};

// How many roots a reclaim may name.
const ROOTS: usize = 256;

// The codes of the commands that name a block (01, Script).
const GOTO: u16 = 1;

const IF: u16 = 3;

const END_IF: u16 = 4;

// A mark for each place of a block.
pub type Marks = [bool; BLOCKS];

// The numbers of blocks, in the order in which they were marked.
pub type Todo = [u16; BLOCKS];

// ---- the check of the roots

// At most so many, each one of the blocks.
pub fn roots_ok(roots: &[u32], blocks: u16) -> bool
    ensures { result ≡ roots_ok blocks roots.now }
{
    roots.len() <= ROOTS && roots.iter().all(|root| *root < u32::from(blocks))
}

// ---- marking

// Marks block k and puts it behind the n of the queue, if it had no mark; how many there are then.
fn mark(live: &mut Marks, todo: &mut Todo, n: usize, k: u16) -> usize
    requires { Queued (queue_in live.old todo.old n) × (k < block_limit) }
    ensures { Marking (queue_in live.old todo.old n) (k ∷ []) (queue_in live.new todo.new result) }
{
    let i = usize::from(k);
    if live[i] {
        return n;
    }
    live[i] = true;
    todo[n] = k;
    n + 1
}

// A word of next or else: 0 is none.
fn mark_link(live: &mut Marks, todo: &mut Todo, n: usize, w: u16) -> usize
    requires { Queued (queue_in live.old todo.old n) × (w ≤ block_limit) }
    ensures { Marking (queue_in live.old todo.old n) (with_link (link_in w) []) (queue_in live.new todo.new result) }
{
    if w == 0 {
        return n;
    }
    mark(live, todo, n, w - 1)
}

// Whether a command of code k has a block as its target.
#[tactic(auto, unfolding(crate::specs::Words::names_block))]
fn names_block(k: u16) -> bool
    ensures { result ≡ names_block k }
{
    matches!(k, GOTO | IF | END_IF)
}

// The target of command i.
fn mark_target(cw: &CommandWords, i: usize, live: &mut Marks, todo: &mut Todo, n: usize) -> usize
    requires { Queued (queue_in live.old todo.old n) × (i < command_limit) × IsLink Low (target_at cw.now i) }
    ensures { Marking (queue_in live.old todo.old n) (with_link (target_at cw.now i) []) (queue_in live.new todo.new result) }
{
    if !names_block(cw[4 * i]) {
        return n;
    }
    mark(live, todo, n, cw[4 * i + 3])
}

// The targets of so many commands, from the first on.
fn mark_targets(
    cw: &CommandWords,
    first: u16,
    held: u16,
    live: &mut Marks,
    todo: &mut Todo,
    n: usize,
) -> usize
    requires { Queued (queue_in live.old todo.old n) × ((j : ℕ) → j < held → first + j < command_limit) × Every Low (targets_at cw.now held first) }
    ensures { Marking (queue_in live.old todo.old n) (targets_at cw.now held first) (queue_in live.new todo.new result) }
{
    let f = usize::from(first);
    let mut end = n;
    for i in 0..usize::from(held) {
        end = mark_target(cw, f + i, live, todo, end);
    }
    end
}

// What block b links to.
fn mark_links(
    cw: &CommandWords,
    bw: &BlockWords,
    b: usize,
    live: &mut Marks,
    todo: &mut Todo,
    n: usize,
) -> usize
    requires { Queued (queue_in live.old todo.old n) × (b < block_limit) × SafeAt cw.now bw.now b }
    ensures { Marking (queue_in live.old todo.old n) (links_at cw.now bw.now b) (queue_in live.new todo.new result) }
{
    if bw[5 * b] != 1 {
        return n;
    }
    let x = mark_link(live, todo, n, bw[5 * b + 3]);
    let y = mark_link(live, todo, x, bw[5 * b + 4]);
    mark_targets(cw, bw[5 * b + 1], bw[5 * b + 2], live, todo, y)
}

// The roots, into a queue that is empty.
fn mark_roots(roots: &[u32], live: &mut Marks, todo: &mut Todo) -> usize
    requires { Queued (queue_in live.old todo.old 0) × Every Low roots.now }
    ensures { Marking (queue_in live.old todo.old 0) roots.now (queue_in live.new todo.new result) }
{
    let mut end = 0;
    for root in roots {
        end = mark(live, todo, end, *root as u16);
    }
    end
}

// Marks what the roots reach by next, else and command targets; `live` holds no mark before. How many blocks there are only the contract asks: no link leads past them.
pub fn reach_roots(
    cw: &CommandWords,
    bw: &BlockWords,
    blocks: u16,
    roots: &[u32],
    live: &mut Marks,
    todo: &mut Todo,
)
    requires { Safe cw.now bw.now blocks × Every (λ r. r < blocks) roots.now × (live.old ≡ replicate block_limit false) }
    ensures { Reaching cw.now bw.now blocks roots.now live.new }
{
    let mut end = mark_roots(roots, live, todo);
    let mut done = 0;
    // No range: the queue grows while it is followed.
    while done < end {
        let b = usize::from(todo[done]);
        end = mark_links(cw, bw, b, live, todo, end);
        done += 1;
    }
}
