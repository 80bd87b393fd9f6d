// The parser's walk: a loop with a stack of blocks and conditions, and one array of marks; small tables first, large ones where there was no room.
#![tactic(auto)]

ghost use Rattle.std.specs.Prelude.{◌≡◌, false, ◌≤◌, ◌<◌, length, get_or, replicate};
ghost use Rattle.model.specs.Limits.{block_limit};
ghost use Rattle.model.specs.Refusals.{refusal_in};
ghost use Rattle.model.specs.Sheet.{Sheet};
ghost use Rattle.memory.specs.View.{memory_of};
ghost use Rattle.expr.specs.Requirement.{Has};
ghost use Rattle.shop.specs.Shapes.{no_shop};
ghost use Rattle.shop_arrays.specs.Arrays.{arrays_in, shop_from};
ghost use Rattle.parse_visit.specs.State.{Accepted, answer_in, stored_in, Holding};
ghost use Rattle.parse_walk.specs.Walks.{start_walk, none_yet, Walked, WalkedIf, Ends};

use memory::{BLOCKS, BlockWords, CommandWords, NodeWords, Values};
use model::{BlockNo, Refusal};
use parse_filter::Marked;
use parse_visit::{Given, Reached, Stop, Walk, visit};
use reach::{Condition, is_code, push, top_unmarked};
use shop::{Codes, SLOTS};
use shop_arrays::clear_arrays;

fn start() -> Walk
    ensures { result ≡ start_walk }
{
    Walk {
        limit: 0,
        cells: 0,
        outcome: Ok(()),
        used: 0,
        keyed: 0,
        marked: Marked { first: 0, alive: 0 },
    }
}

// The walk from the block that is on the stack, under no condition: each block once, next before else, 10 at a block not code. Each turn marks one block more: the measure is the number of unmarked blocks.
// The variables of a block, ids and counts, are lent to each visit, which says by masks which of them it wrote.
fn walk_all(
    ws: &NodeWords,
    val: &Values,
    cw: &CommandWords,
    bw: &BlockWords,
    keys: &mut [u64],
    kids: &mut [u16],
    companions: &mut [u16],
    list: &mut [u16],
    seen: &mut [bool],
    alive: &mut [u16],
    cells: &mut [u16],
    stack: &mut [u16],
    marks: &mut [bool; BLOCKS],
    items: &mut [i32; SLOTS],
    limits: &mut [i16; SLOTS],
    codes: &mut Codes,
    lens: &mut [u8; SLOTS],
    g: Given,
) -> Result<(), Stop>
    requires holding { Holding g.known (stored_in keys.old kids.old companions.old list.old seen.old alive.old cells.old) start_walk none_yet × ((marks.old ≡ replicate block_limit false) × ((2 ≤ length stack.old) × (get_or stack.old 1 0 ≡ 0))) }
    requires accepted { Accepted (memory_of ws.now val.now cw.now bw.now g.counts) × (shop_from (arrays_in items.old limits.old codes.old lens.old) ≡ no_shop) }
    ensures { Ends g.known (memory_of ws.now val.now cw.now bw.now g.counts) (get_or stack.old 0 0) (stored_in keys.old kids.old companions.old list.old seen.old alive.old cells.old) stack.old (shop_from (arrays_in items.new limits.new codes.new lens.new)) (answer_in result) }
{
    let mut ids = [0i16; SLOTS];
    let mut counts = [0i16; SLOTS];
    let mut w = start();
    let mut depth = 1;
    // No range: a visit puts the blocks that are due next on the stack.
    while 0 < depth {
        let top = top_unmarked(marks, stack, g.counts.blocks, depth);
        if top == 0 {
            return Ok(());
        }
        let d = top - 1;
        let block = BlockNo(u32::from(stack[2 * d]));
        if !is_code(bw, g.counts.blocks, block) {
            return Err(Stop::Refused(Refusal::ParseNotCode));
        }
        if stack.len() < 2 * d + 4 {
            return Err(Stop::NoRoom);
        }
        let under = Condition(stack[2 * d + 1]);
        let b = Reached { block, under };
        let v = visit(
            ws,
            val,
            cw,
            bw,
            keys,
            kids,
            companions,
            list,
            seen,
            alive,
            cells,
            marks,
            items,
            limits,
            codes,
            lens,
            &mut ids,
            &mut counts,
            g,
            w,
            b,
        );
        v.walk.outcome?;
        w = v.walk;
        depth = push(stack, d, v.next, v.then, v.other, v.otherwise);
    }
    Ok(())
}

// With tables for what a usual shop reaches, whatever the script's size. This walk and the one in large tables stay two functions: they differ in the sizes of nine tables, and only large ones promise room.
fn walk_few(
    ws: &NodeWords,
    val: &Values,
    cw: &CommandWords,
    bw: &BlockWords,
    items: &mut [i32; SLOTS],
    limits: &mut [i16; SLOTS],
    codes: &mut Codes,
    lens: &mut [u8; SLOTS],
    g: Given,
    setup: BlockNo,
) -> Result<(), Stop>
    requires accepted { Accepted (memory_of ws.now val.now cw.now bw.now g.counts) × (shop_from (arrays_in items.old limits.old codes.old lens.old) ≡ no_shop) }
    requires setup_lt_blocks { setup.0 < g.counts.blocks }
    ensures { WalkedIf g.known (memory_of ws.now val.now cw.now bw.now g.counts) setup.0 (shop_from (arrays_in items.new limits.new codes.new lens.new)) (answer_in result) }
{
    let mut keys = [0u64; 256];
    let mut kids = [0u16; 512];
    let mut companions = [0u16; 512];
    let mut list = [0u16; 512];
    let mut seen = [false; 512];
    let mut alive = [0u16; 512];
    let mut cells = [0u16; 384];
    let mut stack = [0u16; 516];
    let mut marks = [false; BLOCKS];
    stack[0] = setup.0 as u16;
    walk_all(
        ws,
        val,
        cw,
        bw,
        &mut keys,
        &mut kids,
        &mut companions,
        &mut list,
        &mut seen,
        &mut alive,
        &mut cells,
        &mut stack,
        &mut marks,
        items,
        limits,
        codes,
        lens,
        g,
    )
}

// With tables for all that a script can reach.
fn walk_many(
    ws: &NodeWords,
    val: &Values,
    cw: &CommandWords,
    bw: &BlockWords,
    items: &mut [i32; SLOTS],
    limits: &mut [i16; SLOTS],
    codes: &mut Codes,
    lens: &mut [u8; SLOTS],
    g: Given,
    setup: BlockNo,
) -> Result<(), Refusal>
    requires accepted { Accepted (memory_of ws.now val.now cw.now bw.now g.counts) × (shop_from (arrays_in items.old limits.old codes.old lens.old) ≡ no_shop) }
    requires setup_lt_blocks { setup.0 < g.counts.blocks }
    ensures { (h : Sheet) → Has h g.known.items g.known.atcs → Walked h (memory_of ws.now val.now cw.now bw.now g.counts) setup.0 (shop_from (arrays_in items.new limits.new codes.new lens.new)) (refusal_in result) }
{
    let mut keys = [0u64; 12289];
    let mut kids = [0u16; 24578];
    let mut companions = [0u16; 24578];
    let mut list = [0u16; 12288];
    let mut seen = [false; 24578];
    let mut alive = [0u16; 12288];
    let mut cells = [0u16; 12288];
    let mut stack = [0u16; 8194];
    let mut marks = [false; BLOCKS];
    stack[0] = setup.0 as u16;
    let outcome = walk_all(
        ws,
        val,
        cw,
        bw,
        &mut keys,
        &mut kids,
        &mut companions,
        &mut list,
        &mut seen,
        &mut alive,
        &mut cells,
        &mut stack,
        &mut marks,
        items,
        limits,
        codes,
        lens,
        g,
    );
    match outcome {
        Ok(()) => Ok(()),
        Err(Stop::Refused(refusal)) => Err(refusal),
        Err(Stop::NoRoom) => unreachable!(),
    }
}

// The walk of an accepted script from block setup, for every sheet of so many items and atcs. It finds the slots empty and leaves what it read in them.
pub fn walk(
    ws: &NodeWords,
    val: &Values,
    cw: &CommandWords,
    bw: &BlockWords,
    items: &mut [i32; SLOTS],
    limits: &mut [i16; SLOTS],
    codes: &mut Codes,
    lens: &mut [u8; SLOTS],
    g: Given,
    setup: BlockNo,
) -> Result<(), Refusal>
    requires accepted { Accepted (memory_of ws.now val.now cw.now bw.now g.counts) × (shop_from (arrays_in items.old limits.old codes.old lens.old) ≡ no_shop) }
    requires setup_lt_blocks { setup.0 < g.counts.blocks }
    ensures { (h : Sheet) → Has h g.known.items g.known.atcs → Walked h (memory_of ws.now val.now cw.now bw.now g.counts) setup.0 (shop_from (arrays_in items.new limits.new codes.new lens.new)) (refusal_in result) }
{
    match walk_few(ws, val, cw, bw, items, limits, codes, lens, g, setup) {
        Ok(()) => Ok(()),
        Err(Stop::Refused(refusal)) => Err(refusal),
        Err(Stop::NoRoom) => {
            clear_arrays(items, limits, codes, lens);
            walk_many(ws, val, cw, bw, items, limits, codes, lens, g, setup)
        }
    }
}
