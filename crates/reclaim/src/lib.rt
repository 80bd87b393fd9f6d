// The call reclaim: its checks in the order of 02, then the survivors in the place of all blocks, by way of their image.
#![tactic(auto)]

ghost use Rattle.std.specs.Prelude.{◌≡◌, ℕ, ◌≤◌, true, List, [], length};
ghost use Rattle.model.specs.Limits.{block_limit, command_limit, node_limit};
ghost use Rattle.model.specs.Script.{Block};
ghost use Rattle.model.specs.Reading.{got};
ghost use Rattle.model.specs.Image.{read_image};
ghost use Rattle.model.specs.Memory.{script_of, put_blocks};
ghost use Rattle.model.specs.RecordCalls.{record_refusal};
ghost use Rattle.model.specs.Refusals.{refusal_in};
ghost use Rattle.memory.specs.View.{memory_of, born_of, empty_in};
ghost use Rattle.image_write.specs.Lengths.{most_bytes};
ghost use Rattle.reclaim_model.specs.Reclaim.{roots_ok};
ghost use Rattle.reclaim.specs.Answer.{counts_after, ReclaimedAs};
ghost use Rattle.reclaim.specs.Stages.{PackedBy, KeptOnly};

use checks::check_record;
use image_read::read_script;
use image_write::write_script;
use memory::{
    BLOCKS, Births, BlockWords, COMMANDS, CommandWords, Counts, NODES, NodeWords, Values,
};
use model::Refusal;
use reclaim_pack::answer::{pack_births, tell_moved};
use reclaim_pack::{follow, number, pack};
use reclaim_reach::{reach_roots, roots_ok};

// So many bytes hold the image of any accepted script.
const IMAGE: usize = 5 + 16 * BLOCKS + 6 * COMMANDS + 6 * NODES;

// Of marked blocks: their new numbers told, their birth marks, and the words of commands and blocks with the links renamed. How many survive.
fn pack_marked(
    live: &[bool; BLOCKS],
    table: &mut [u16; BLOCKS],
    counts: Counts,
    commands: &mut CommandWords,
    blocks: &mut BlockWords,
    births: &mut Births,
    moved: &mut [u16; BLOCKS],
) -> u16
    requires { (counts.blocks ≤ block_limit) × (counts.commands ≤ command_limit) }
    ensures { PackedBy live.now counts commands.old blocks.old births.old commands.new blocks.new births.new moved.new result }
{
    let total = number(live, counts.blocks, table);
    tell_moved(live, table, counts.blocks, moved);
    pack_births(births, live, counts.blocks);
    follow(commands, counts.commands, table, counts.blocks, total);
    pack(blocks, live, table, counts.blocks, total);
    total
}

// The script of an image that is one, from the start of the arrays on.
fn read_back(
    bytes: &[u8],
    ws: &mut NodeWords,
    val: &mut Values,
    cw: &mut CommandWords,
    bw: &mut BlockWords,
) -> Counts
    ensures { (bs : List Block) → read_image bytes.now ≡ got bs [] → memory_of ws.new val.new cw.new bw.new result ≡ put_blocks (empty_in ws.old val.old cw.old bw.old) bs }
{
    read_script(bytes, 0, ws, val, cw, bw).unwrap_or(Counts {
        nodes: 0,
        commands: 0,
        blocks: 0,
    })
}

// The blocks of a judged record of these commands and blocks into the arrays, from their start on: written as an image and read from it.
fn through_image(
    ws: &mut NodeWords,
    val: &mut Values,
    cw: &mut CommandWords,
    bw: &mut BlockWords,
    commands: &CommandWords,
    blocks: &BlockWords,
    counts: Counts,
    image: &mut [u8],
) -> Counts
    requires { (record_refusal (memory_of ws.old val.old commands.now blocks.now counts) ≡ 0) × (most_bytes block_limit command_limit node_limit ≤ length image.old) }
    ensures { memory_of ws.new val.new cw.new bw.new result ≡ put_blocks (empty_in ws.old val.old cw.old bw.old) (script_of (memory_of ws.old val.old commands.now blocks.now counts)).blocks }
{
    let n = write_script(ws, val, commands, blocks, counts, image).unwrap();
    read_back(&image[..n], ws, val, cw, bw)
}

// Of a judged record and roots that are blocks. The survivors' words are put together in copies of commands and blocks; their image is read
// into the arrays, so that every expression is written out as its tree. Large arrays come first.
fn keep_survivors(
    ws: &mut NodeWords,
    val: &mut Values,
    cw: &mut CommandWords,
    bw: &mut BlockWords,
    births: &mut Births,
    counts: Counts,
    roots: &[u32],
    moved: &mut [u16; BLOCKS],
) -> Counts
    requires { (record_refusal (memory_of ws.old val.old cw.old bw.old counts) ≡ 0) × (roots_ok counts.blocks roots.now ≡ true) }
    ensures { KeptOnly ws.old val.old cw.old bw.old counts births.old roots.now (memory_of ws.new val.new cw.new bw.new result) births.new moved.new }
{
    let mut image = [0u8; IMAGE];
    let mut commands = *cw;
    let mut blocks = *bw;
    let mut live = [false; BLOCKS];
    let mut todo = [0u16; BLOCKS];
    let mut table = [0u16; BLOCKS];
    reach_roots(cw, bw, counts.blocks, roots, &mut live, &mut todo);
    let total = pack_marked(
        &live,
        &mut table,
        counts,
        &mut commands,
        &mut blocks,
        births,
        moved,
    );
    let packed = Counts {
        nodes: counts.nodes,
        commands: counts.commands,
        blocks: total,
    };
    through_image(ws, val, cw, bw, &commands, &blocks, packed, &mut image)
}

// 18 before any other check, then 2 to 5; refused, nothing changes. The count of accepted compiles, n, is kept.
pub fn reclaim(
    ws: &mut NodeWords,
    val: &mut Values,
    cw: &mut CommandWords,
    bw: &mut BlockWords,
    births: &mut Births,
    counts: Counts,
    roots: &[u32],
    moved: &mut [u16; BLOCKS],
) -> Result<Counts, Refusal>
    ensures { (n : ℕ) → ReclaimedAs (born_of ws.old val.old cw.old bw.old counts births.old n) roots.now moved.old (refusal_in result) (born_of ws.new val.new cw.new bw.new (counts_after counts result) births.new n) moved.new }
{
    if !roots_ok(roots, counts.blocks) {
        return Err(Refusal::BadRoots);
    }
    check_record(ws, val, cw, bw, counts)?;
    Ok(keep_survivors(ws, val, cw, bw, births, counts, roots, moved))
}
