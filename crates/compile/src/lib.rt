// The call compile: its checks in the order of 01 and 02, then the shop's blocks appended and the setup block linked to them.
#![tactic(auto)]

ghost use Rattle.model.specs.Refusals.{refusal_in};
ghost use Rattle.memory.specs.View.{born_of};
ghost use Rattle.shop.specs.Shapes.{sheet_of};
ghost use Rattle.shop_arrays.specs.Arrays.{arrays_in, shop_from};
ghost use Rattle.compile.specs.Answer.{call_of, counts_after, compiles_after, CompiledAs};

use births::{birth_of, mark_births, one_compile};
use checks::check_call;
use compile_sizes::check_room;
use compile_slots::compile_shop;
use memory::{Births, BlockWords, CommandWords, Counts, NodeWords, Values, set_block};
use model::{BlockNo, Loader, Refusal};
use shop::{CODES, Codes, SLOTS, Sheet, Shop};
use shop_arrays::{arrays_of, check_arrays};

// The counts of the script after an accepted call, and the count of its accepted compiles.
#[derive(Clone, Copy)]
pub struct Compiled {
    pub counts: Counts,
    pub compiles: u32,
}

// ShopCompiler::compile with replace, of the shop that the arrays stand for: the blocks go to the end, the setup block becomes empty code whose next is the root, the block last pushed. The fresh blocks bear the new count of compiles.
// 1, 2 to 5, 6, 7, 17, 8, 9 and 19 are asked in this order, before anything is written.
pub fn compile_arrays(
    attached: &[u8],
    sheet: Sheet,
    ws: &mut NodeWords,
    val: &mut Values,
    cw: &mut CommandWords,
    bw: &mut BlockWords,
    births: &mut Births,
    counts: Counts,
    compiles: u32,
    loader: Loader,
    setup: BlockNo,
    items: &[i32; SLOTS],
    limits: &[i16; SLOTS],
    codes: &Codes,
    lens: &[u8; SLOTS],
) -> Result<Compiled, Refusal>
    ensures { CompiledAs (sheet_of attached.now sheet) (born_of ws.old val.old cw.old bw.old counts births.old compiles) (call_of loader setup.0 (shop_from (arrays_in items.now limits.now codes.now lens.now))) (refusal_in result) (born_of ws.new val.new cw.new bw.new (counts_after counts result) births.new (compiles_after compiles result)) }
{
    check_call(attached, sheet, ws, val, cw, bw, counts, setup)?;
    if birth_of(births, setup) != 0 {
        return Err(Refusal::BornLater);
    }
    if !check_arrays(attached, sheet, items, codes, lens) {
        return Err(Refusal::BadShop);
    }
    check_room(attached, sheet, counts, loader, items, limits, codes, lens)?;
    let after = compile_shop(
        attached, sheet, ws, val, cw, bw, counts, items, limits, codes, lens,
    );
    set_block(bw, setup.0 as u16, 1, 0, 0, after.blocks, 0);
    let mark = one_compile(compiles);
    mark_births(births, counts.blocks, after.blocks, mark);
    Ok(Compiled {
        counts: after,
        compiles: mark,
    })
}

// The same of a shop as a value.
pub fn compile(
    attached: &[u8],
    sheet: Sheet,
    ws: &mut NodeWords,
    val: &mut Values,
    cw: &mut CommandWords,
    bw: &mut BlockWords,
    births: &mut Births,
    counts: Counts,
    compiles: u32,
    loader: Loader,
    setup: BlockNo,
    shop: Shop,
) -> Result<Compiled, Refusal>
    ensures { CompiledAs (sheet_of attached.now sheet) (born_of ws.old val.old cw.old bw.old counts births.old compiles) (call_of loader setup.0 shop) (refusal_in result) (born_of ws.new val.new cw.new bw.new (counts_after counts result) births.new (compiles_after compiles result)) }
{
    let mut items = [-1; SLOTS];
    let mut limits = [0; SLOTS];
    let mut codes = [0; CODES];
    let mut lens = [0; SLOTS];
    arrays_of(shop, &mut items, &mut limits, &mut codes, &mut lens);
    compile_arrays(
        attached, sheet, ws, val, cw, bw, births, counts, compiles, loader, setup, &items, &limits,
        &codes, &lens,
    )
}
