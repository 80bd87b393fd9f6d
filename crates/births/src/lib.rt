// Where each block came from (02, A.2): its birth mark, the marks of the blocks that a compile appends, and the count of accepted compiles.
#![tactic(auto)]

ghost use Rattle.std.specs.Prelude.{◌≡◌, ◌-◌, ◌≤◌, get_or, replicate};
ghost use Rattle.std.proofs.lemmas.List.Edits.{sets};
ghost use Rattle.model.specs.Limits.{block_limit};
ghost use Rattle.model.specs.RecordCalls.{one_compile};

use memory::{BLOCKS, Births};
use model::BlockNo;

// Every block of a script that was read or built at the start.
pub fn start_anew(births: &mut Births)
    ensures { births.new ≡ replicate block_limit 0 }
{
    *births = [0; BLOCKS];
}

// The mark of block b, 0 where there is no place for such a block.
pub fn birth_of(births: &Births, b: BlockNo) -> u32
    ensures { result ≡ get_or births.now b.0 0 }
{
    births.get(b.0 as usize).copied().unwrap_or(0)
}

// The blocks from one number up to another, which is not among them.
pub fn mark_births(births: &mut Births, from: u16, to: u16, mark: u32)
    requires { (from ≤ to) × (to ≤ block_limit) }
    ensures { births.new ≡ sets births.old from (replicate (to - from) mark) }
{
    births[usize::from(from)..usize::from(to)].fill(mark);
}

// One compile more; at the largest count the script stays.
pub fn one_compile(n: u32) -> u32
    ensures { result ≡ one_compile n }
{
    n.saturating_add(1)
}
