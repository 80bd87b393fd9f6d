// New numbers of the survivors of a reclaim, and a script's commands and blocks with their links following them.
#![tactic(auto)]

ghost use Rattle.std.specs.Prelude.{◌≡◌, ℕ, ◌≤◌, ◌<◌};
ghost use Rattle.model.specs.Limits.{block_limit, command_limit};
ghost use Rattle.reclaim_record.specs.Packed.{follow_code, follow_link};
ghost use Rattle.reclaim_pack.specs.Table.{plus_if, rank_to, ranks_to, table_rank, Small, followed_to, packed_at, packed_to};

pub mod answer;

use memory::{BLOCKS, BlockWords, CommandWords, set_block};

fn plus_if(n: u16, b: bool) -> u16
    requires { n < block_limit }
    ensures { result ≡ plus_if n b }
{
    if b { n + 1 } else { n }
}

// The table of new numbers, and how many survive.
pub fn number(live: &[bool; BLOCKS], blocks: u16, table: &mut [u16; BLOCKS]) -> u16
    requires { blocks ≤ block_limit }
    ensures { (table.new ≡ ranks_to live.now blocks table.old) × (result ≡ rank_to live.now blocks) }
{
    let mut n: u16 = 0;
    for b in 0..usize::from(blocks) {
        table[b] = n;
        n = plus_if(n, live[b]);
    }
    n
}

// The new number of block t.
fn rank_of(table: &[u16; BLOCKS], blocks: u16, total: u16, t: u16) -> u16
    requires { blocks ≤ block_limit }
    ensures { result ≡ table_rank table.now blocks total t }
{
    if t < blocks {
        table[usize::from(t)]
    } else {
        total
    }
}

// The fourth word of a command of code k: a block's number at Goto, If and EndIf.
#[tactic(auto, unfolding(reclaim_record::specs::Packed::follow_code))]
fn follow_code(table: &[u16; BLOCKS], blocks: u16, total: u16, k: u16, t: u16) -> u16
    requires { blocks ≤ block_limit }
    ensures { result ≡ follow_code (table_rank table.now blocks total) k t }
{
    match k {
        1 | 3 | 4 => rank_of(table, blocks, total, t),
        _ => t,
    }
}

// Every command's target, once.
pub fn follow(cw: &mut CommandWords, commands: u16, table: &[u16; BLOCKS], blocks: u16, total: u16)
    requires { (commands ≤ command_limit) × (blocks ≤ block_limit) }
    ensures { cw.new ≡ followed_to (table_rank table.now blocks total) commands cw.old }
{
    for i in 0..usize::from(commands) {
        cw[4 * i + 3] = follow_code(table, blocks, total, cw[4 * i], cw[4 * i + 3]);
    }
}

// A word of next or else: 0 is none.
fn follow_link(table: &[u16; BLOCKS], blocks: u16, total: u16, w: u16) -> u16
    requires { (blocks ≤ block_limit) × Small table.now blocks total }
    ensures { result ≡ follow_link (table_rank table.now blocks total) w }
{
    if w == 0 {
        return 0;
    }
    rank_of(table, blocks, total, w - 1) + 1
}

// Block b to its new place, if it survives.
fn pack_block(
    bw: &mut BlockWords,
    live: &[bool; BLOCKS],
    b: u16,
    table: &[u16; BLOCKS],
    blocks: u16,
    total: u16,
)
    requires { (b < blocks) × (blocks ≤ block_limit) × Small table.now blocks total × (table_rank table.now blocks total b < block_limit) }
    ensures { bw.new ≡ packed_at (table_rank table.now blocks total) live.now bw.old b }
{
    let i = usize::from(b);
    if !live[i] {
        return;
    }
    let place = rank_of(table, blocks, total, b);
    let next = follow_link(table, blocks, total, bw[5 * i + 3]);
    let other = follow_link(table, blocks, total, bw[5 * i + 4]);
    let kind = bw[5 * i];
    let first = bw[5 * i + 1];
    let held = bw[5 * i + 2];
    set_block(bw, place, kind, first, held, next, other);
}

// The survivors one after the other.
pub fn pack(
    bw: &mut BlockWords,
    live: &[bool; BLOCKS],
    table: &[u16; BLOCKS],
    blocks: u16,
    total: u16,
)
    requires { (blocks ≤ block_limit) × Small table.now blocks total × ((b : ℕ) → b < blocks → table_rank table.now blocks total b < block_limit) }
    ensures { bw.new ≡ packed_to (table_rank table.now blocks total) live.now blocks bw.old }
{
    for b in 0..blocks {
        pack_block(bw, live, b, table, blocks, total);
    }
}
