// What a reclaim tells of each old block, and the birth marks of the survivors.
ghost use Rattle.std.specs.Prelude.{◌≡◌, cond, ◌≤◌, ◌<◌, get_or, set, take};
ghost use Rattle.std.proofs.Math.Option.{none, some};
ghost use Rattle.std.proofs.lemmas.List.Edits.{sets};
ghost use Rattle.model.specs.Limits.{block_limit};
ghost use Rattle.reclaim_model.specs.Reclaim.{moved_word, moved_words, survivors};
ghost use Rattle.reclaim_pack.specs.Table.{plus_if, Ranks};

use memory::{BLOCKS, Births};

fn moved_word(lives: bool, k: u16) -> u16
    requires { k < block_limit }
    ensures { result ≡ moved_word (cond lives (some k) none) }
{
    if lives { k + 1 } else { 0 }
}

// For each old block its new number and 1, or 0 where it is gone.
pub fn tell_moved(
    live: &[bool; BLOCKS],
    table: &[u16; BLOCKS],
    blocks: u16,
    moved: &mut [u16; BLOCKS],
)
    requires { (blocks ≤ block_limit) × Ranks live.now blocks table.now }
    ensures { moved.new ≡ moved_words (take blocks live.now) }
{
    *moved = [0; BLOCKS];
    for b in 0..usize::from(blocks) {
        moved[b] = moved_word(live[b], table[b]);
    }
}

// The mark of old block b goes to the next new number n, if the block survives.
fn keep_birth(births: &mut Births, lives: bool, b: usize, n: usize) -> usize
    requires { (n ≤ b) × (b < block_limit) }
    ensures { (births.new ≡ cond lives (set births.old n (get_or births.old b 0)) births.old) × (result ≡ plus_if n lives) }
{
    if lives {
        births[n] = births[b];
        return n + 1;
    }
    n
}

// In place: a new number is at most the old one.
pub fn pack_births(births: &mut Births, live: &[bool; BLOCKS], blocks: u16)
    requires { blocks ≤ block_limit }
    ensures { births.new ≡ sets births.old 0 (survivors (take blocks live.now) (take blocks births.old)) }
{
    let mut n = 0;
    for b in 0..usize::from(blocks) {
        n = keep_birth(births, live[b], b, n);
    }
}
