// The compiler: a shop's slots as blocks appended to a script, the exact count for 9, and the call with its checks.
#![tactic(auto)]

ghost use Rattle.std.specs.Prelude.{◌≡◌, [], ◌∷◌, ◌+◌, ◌-◌, ◌≤◌, ◌<◌};
ghost use Rattle.model.specs.Limits.{slot_count, block_limit};
ghost use Rattle.model.specs.Compile.{hide_block, temp_var, slot_blocks, slots_blocks, shop_blocks};
ghost use Rattle.memory.specs.Sound.{Room};
ghost use Rattle.compile_emit.specs.Put.{PutBlocks};
ghost use Rattle.model.specs.Expr.{imm};
ghost use Rattle.memory.specs.View.{memory_of};
ghost use Rattle.compile_slots.specs.Parts.{item_block, enable_of, before_by, once_of, unique_of, limit_in, sold_of, filled_of, Fitting};
ghost use Rattle.compile_slots.specs.Context.{acquired_by, Context};
ghost use Rattle.shop.specs.Shapes.{atc_at, sheet_of, slot_of, slots_of};
ghost use Rattle.shop.specs.Sets.{Exact, AllExact};
ghost use Rattle.shop_arrays.specs.Arrays.{arrays_in, slot_at, shop_from};

use compile_emit::{
    push_if_acquired, push_if_missing, push_if_no_timer, push_if_visible, push_remaining,
    push_reset, push_return, push_slot, push_stock,
};
use expr_build::Acquired;
use memory::{BlockWords, CommandWords, Counts, NodeWords, Values};
use model::{BlockNo, ItemId, Op1};
use shop::{Codes, ENTRIES, Row, SLOTS, Sheet, Timer, atc_for, limit_of, rate_of, timer_of};
use shop_arrays::{item_at, sort_row};

// What a slot with an item is compiled from: its number, the item, the coerced limit, the block to go to after the slot,
// how the item counts as acquired, the other timers, the number of sorted requirements. Their codes stand beside it in an array.
#[derive(Clone, Copy)]
struct ItemContext {
    index: u16,
    item: ItemId,
    limit: u8,
    end: BlockNo,
    acquired: Acquired,
    five: bool,
    ten: ItemId,
    fifteen: ItemId,
    len: u8,
}

// H: a slot which is hidden.
#[tactic(auto, unfolding(model::specs::Expr::imm))]
fn compile_slot_hidden(
    ws: &mut NodeWords,
    val: &mut Values,
    cw: &mut CommandWords,
    bw: &mut BlockWords,
    k: Counts,
    index: u16,
    end: BlockNo,
) -> Counts
    requires room { Room (memory_of ws.old val.old cw.old bw.old k) (hide_block end.0 index ∷ []) }
    requires index_lt_slot_count { (index < slot_count) × (end.0 < block_limit) }
    ensures { PutBlocks (memory_of ws.old val.old cw.old bw.old k) (hide_block end.0 index ∷ []) (memory_of ws.new val.new cw.new bw.new result) }
{
    push_slot(ws, val, cw, bw, k, index, -1, 0, end, false)
}

// D, N and D2: the item with a count, then on to End; by EndIf where a block stands in between.
fn compile_item(
    ws: &mut NodeWords,
    val: &mut Values,
    cw: &mut CommandWords,
    bw: &mut BlockWords,
    k: Counts,
    x: ItemContext,
    count: i32,
    endif: bool,
) -> Counts
    requires room { Room (memory_of ws.old val.old cw.old bw.old k) (item_block x endif (imm count) ∷ []) }
    requires fitting { Fitting x × (x.end.0 < block_limit) }
    ensures { PutBlocks (memory_of ws.old val.old cw.old bw.old k) (item_block x endif (imm count) ∷ []) (memory_of ws.new val.new cw.new bw.new result) }
{
    let item = i32::from(x.item.0);
    push_slot(ws, val, cw, bw, k, x.index, item, count, x.end, endif)
}

// S: the item with var[0] as its count, likewise.
fn compile_stock(
    ws: &mut NodeWords,
    val: &mut Values,
    cw: &mut CommandWords,
    bw: &mut BlockWords,
    k: Counts,
    x: ItemContext,
    endif: bool,
) -> Counts
    requires room { Room (memory_of ws.old val.old cw.old bw.old k) (item_block x endif temp_var ∷ []) }
    requires fitting { Fitting x × (x.end.0 < block_limit) }
    ensures { PutBlocks (memory_of ws.old val.old cw.old bw.old k) (item_block x endif temp_var ∷ []) (memory_of ws.new val.new cw.new bw.new result) }
{
    let item = i32::from(x.item.0);
    push_stock(ws, val, cw, bw, k, x.index, item, x.end, endif)
}

// Above N: Timer5 is sold out where neither other timer is held (D2, T), then V.
#[tactic(auto, using(compile_emit::specs::BlockLaws::room_first, compile_emit::specs::BlockLaws::room_rest), unfolding(model::specs::Expr::imm))]
fn compile_enable(
    ws: &mut NodeWords,
    val: &mut Values,
    cw: &mut CommandWords,
    bw: &mut BlockWords,
    k: Counts,
    x: ItemContext,
    codes: &Row,
    other: BlockNo,
    enable: BlockNo,
) -> Counts
    requires room { Room (memory_of ws.old val.old cw.old bw.old k) (enable_of x codes.now other.0 enable.0) }
    requires fitting { Fitting x × (x.end.0 < block_limit) × (other.0 < block_limit) × (enable.0 ≤ k.blocks) }
    ensures { PutBlocks (memory_of ws.old val.old cw.old bw.old k) (enable_of x codes.now other.0 enable.0) (memory_of ws.new val.new cw.new bw.new result) }
{
    let a = x.acquired;
    let len = x.len;
    if x.five {
        let disable = BlockNo(enable.0 + 1);
        let no_timer = BlockNo(enable.0 + 2);
        let k1 = compile_item(ws, val, cw, bw, k, x, 0, true);
        let k2 = push_if_no_timer(ws, val, cw, bw, k1, x.ten, x.fifteen, disable, enable);
        return push_if_missing(ws, val, cw, bw, k2, a, codes, len, no_timer, other);
    }
    push_if_missing(ws, val, cw, bw, k, a, codes, len, enable, other)
}

// How many blocks stand between End and N: D, or H, D and E.
fn blocks_before(len: u8) -> u32
    ensures { result ≡ before_by len }
{
    if len == 0 { 1 } else { 3 }
}

// D, [E] and N: the item sold out, and the item for sale. Blocks are counted from End: D is the first, or H is and D the second.
#[tactic(auto, using(compile_emit::specs::BlockLaws::room_first, compile_emit::specs::BlockLaws::room_rest), unfolding(model::specs::Expr::imm))]
fn compile_sold(
    ws: &mut NodeWords,
    val: &mut Values,
    cw: &mut CommandWords,
    bw: &mut BlockWords,
    k: Counts,
    x: ItemContext,
) -> Counts
    requires room { Room (memory_of ws.old val.old cw.old bw.old k) (once_of x) }
    requires fitting { Fitting x × (x.end.0 + 1 ≤ k.blocks) }
    ensures { PutBlocks (memory_of ws.old val.old cw.old bw.old k) (once_of x) (memory_of ws.new val.new cw.new bw.new result) }
{
    if x.len == 0 {
        let k1 = compile_item(ws, val, cw, bw, k, x, 0, false);
        return compile_item(ws, val, cw, bw, k1, x, 1, true);
    }
    let first = BlockNo(x.end.0 + 1);
    let second = BlockNo(x.end.0 + 2);
    let k3 = compile_item(ws, val, cw, bw, k, x, 0, true);
    let k4 = push_if_acquired(ws, val, cw, bw, k3, x.acquired, second, first);
    compile_item(ws, val, cw, bw, k4, x, 1, true)
}

// A slot which holds a "unique" item that can only be in the inventory once: D, [E], N and what is above.
fn compile_slot_unique(
    ws: &mut NodeWords,
    val: &mut Values,
    cw: &mut CommandWords,
    bw: &mut BlockWords,
    k: Counts,
    x: ItemContext,
    codes: &Row,
) -> Counts
    requires room { Room (memory_of ws.old val.old cw.old bw.old k) (unique_of x codes.now) }
    requires fitting { Fitting x × (x.end.0 + 1 ≤ k.blocks) }
    ensures { PutBlocks (memory_of ws.old val.old cw.old bw.old k) (unique_of x codes.now) (memory_of ws.new val.new cw.new bw.new result) }
{
    let before = blocks_before(x.len);
    let k1 = compile_sold(ws, val, cw, bw, k, x);
    let other = BlockNo(x.end.0 + before);
    let enable = BlockNo(x.end.0 + before + 1);
    compile_enable(ws, val, cw, bw, k1, x, codes, other, enable)
}

// A slot which may hold more than one item: S, Z, M, [If R].
fn compile_slot_limit(
    ws: &mut NodeWords,
    val: &mut Values,
    cw: &mut CommandWords,
    bw: &mut BlockWords,
    k: Counts,
    x: ItemContext,
    codes: &Row,
) -> Counts
    requires room { Room (memory_of ws.old val.old cw.old bw.old k) (limit_in x codes.now) }
    requires fitting { Fitting x × (x.end.0 + 1 ≤ k.blocks) }
    ensures { PutBlocks (memory_of ws.old val.old cw.old bw.old k) (limit_in x codes.now) (memory_of ws.new val.new cw.new bw.new result) }
{
    let first = BlockNo(x.end.0 + 1);
    if x.len == 0 {
        let k1 = compile_stock(ws, val, cw, bw, k, x, false);
        let k2 = push_reset(ws, val, cw, bw, k1, first);
        return push_remaining(ws, val, cw, bw, k2, x.limit, x.item, first);
    }
    let second = BlockNo(x.end.0 + 2);
    let fourth = BlockNo(x.end.0 + 4);
    let k3 = compile_stock(ws, val, cw, bw, k, x, true);
    let k4 = push_reset(ws, val, cw, bw, k3, second);
    let k5 = push_remaining(ws, val, cw, bw, k4, x.limit, x.item, second);
    push_if_visible(ws, val, cw, bw, k5, codes, x.len, fourth, first)
}

// After H, if there is one: a limit of 1 needs only 1 or 0 as the count, a higher one what is left of it.
fn compile_slot_item(
    ws: &mut NodeWords,
    val: &mut Values,
    cw: &mut CommandWords,
    bw: &mut BlockWords,
    k: Counts,
    x: ItemContext,
    codes: &Row,
) -> Counts
    requires room { Room (memory_of ws.old val.old cw.old bw.old k) (sold_of x codes.now) }
    requires fitting { Fitting x × (x.end.0 + 1 ≤ k.blocks) }
    ensures { PutBlocks (memory_of ws.old val.old cw.old bw.old k) (sold_of x codes.now) (memory_of ws.new val.new cw.new bw.new result) }
{
    if x.limit <= 1 {
        compile_slot_unique(ws, val, cw, bw, k, x, codes)
    } else {
        compile_slot_limit(ws, val, cw, bw, k, x, codes)
    }
}

// A slot with an item: requirements need a block that hides it.
fn compile_slot_filled(
    ws: &mut NodeWords,
    val: &mut Values,
    cw: &mut CommandWords,
    bw: &mut BlockWords,
    k: Counts,
    x: ItemContext,
    codes: &Row,
) -> Counts
    requires room { Room (memory_of ws.old val.old cw.old bw.old k) (filled_of x codes.now) }
    requires fitting { Fitting x × (x.end.0 + 1 ≤ k.blocks) }
    ensures { PutBlocks (memory_of ws.old val.old cw.old bw.old k) (filled_of x codes.now) (memory_of ws.new val.new cw.new bw.new result) }
{
    if x.len == 0 {
        return compile_slot_item(ws, val, cw, bw, k, x, codes);
    }
    let k1 = compile_slot_hidden(ws, val, cw, bw, k, x.index, x.end);
    compile_slot_item(ws, val, cw, bw, k1, x, codes)
}

// If the item has a corresponding atc, that is the source of truth.
fn acquired_of(attached: &[u8], item: ItemId, rate: u16) -> Acquired
    ensures { result ≡ acquired_by (atc_at attached.now item.0) item.0 rate }
{
    match atc_for(attached, item) {
        None => Acquired {
            of: Op1::Item,
            id: item.0,
            rate,
        },
        Some(atc) => Acquired {
            of: Op1::Atc,
            id: atc.0,
            rate,
        },
    }
}

// ItemContext::new
fn item_context(
    attached: &[u8],
    sheet: Sheet,
    limit: i16,
    item: ItemId,
    index: u16,
    end: BlockNo,
    len: u8,
) -> ItemContext
    ensures { Context result (sheet_of attached.now sheet) limit index end item len }
{
    let timer = timer_of(sheet, item);
    let acquired = acquired_of(attached, item, u16::from(rate_of(timer)));
    let limit = limit_of(attached, sheet, item, limit);
    ItemContext {
        index,
        item,
        limit,
        end,
        acquired,
        five: matches!(timer, Timer::Five),
        ten: sheet.timer10,
        fifteen: sheet.timer15,
        len,
    }
}

// Compiles code for filling in slot i. It ends at the block last pushed before it.
fn compile_slot(
    attached: &[u8],
    sheet: Sheet,
    ws: &mut NodeWords,
    val: &mut Values,
    cw: &mut CommandWords,
    bw: &mut BlockWords,
    k: Counts,
    items: &[i32; SLOTS],
    limits: &[i16; SLOTS],
    codes: &Codes,
    lens: &[u8; SLOTS],
    i: usize,
) -> Counts
    requires room { Room (memory_of ws.old val.old cw.old bw.old k) (slot_blocks (sheet_of attached.now sheet) i (k.blocks - 1) (slot_of (slot_at (arrays_in items.now limits.now codes.now lens.now) i))) }
    requires exact { Exact (slot_at (arrays_in items.now limits.now codes.now lens.now) i) × (i < slot_count) × (0 < k.blocks) }
    ensures { PutBlocks (memory_of ws.old val.old cw.old bw.old k) (slot_blocks (sheet_of attached.now sheet) i (k.blocks - 1) (slot_of (slot_at (arrays_in items.now limits.now codes.now lens.now) i))) (memory_of ws.new val.new cw.new bw.new result) }
{
    let end = BlockNo(u32::from(k.blocks - 1));
    let index = i as u16;
    let Some(w) = item_at(items, i) else {
        return compile_slot_hidden(ws, val, cw, bw, k, index, end);
    };
    let mut set = [0; ENTRIES];
    let len = sort_row(codes, lens, i, &mut set);
    let x = item_context(attached, sheet, limits[i], w, index, end, len);
    compile_slot_filled(ws, val, cw, bw, k, x, &set)
}

// All slots in reverse, so that each ends at the one above it.
fn compile_slots(
    attached: &[u8],
    sheet: Sheet,
    ws: &mut NodeWords,
    val: &mut Values,
    cw: &mut CommandWords,
    bw: &mut BlockWords,
    k: Counts,
    items: &[i32; SLOTS],
    limits: &[i16; SLOTS],
    codes: &Codes,
    lens: &[u8; SLOTS],
) -> Counts
    requires room { Room (memory_of ws.old val.old cw.old bw.old k) (slots_blocks (sheet_of attached.now sheet) (k.blocks - 1) 0 (slots_of (shop_from (arrays_in items.now limits.now codes.now lens.now)))) }
    requires all_exact { AllExact (shop_from (arrays_in items.now limits.now codes.now lens.now)) × (0 < k.blocks) }
    ensures { PutBlocks (memory_of ws.old val.old cw.old bw.old k) (slots_blocks (sheet_of attached.now sheet) (k.blocks - 1) 0 (slots_of (shop_from (arrays_in items.now limits.now codes.now lens.now)))) (memory_of ws.new val.new cw.new bw.new result) }
{
    let mut at = k;
    for i in (0..SLOTS).rev() {
        at = compile_slot(
            attached, sheet, ws, val, cw, bw, at, items, limits, codes, lens, i,
        );
    }
    at
}

// ShopCompiler::compile of the shop that the arrays stand for: the Return block, then the slots; the root is the block last pushed.
pub fn compile_shop(
    attached: &[u8],
    sheet: Sheet,
    ws: &mut NodeWords,
    val: &mut Values,
    cw: &mut CommandWords,
    bw: &mut BlockWords,
    k: Counts,
    items: &[i32; SLOTS],
    limits: &[i16; SLOTS],
    codes: &Codes,
    lens: &[u8; SLOTS],
) -> Counts
    requires room { Room (memory_of ws.old val.old cw.old bw.old k) (shop_blocks (sheet_of attached.now sheet) k.blocks (slots_of (shop_from (arrays_in items.now limits.now codes.now lens.now)))) }
    requires all_exact { AllExact (shop_from (arrays_in items.now limits.now codes.now lens.now)) }
    ensures { PutBlocks (memory_of ws.old val.old cw.old bw.old k) (shop_blocks (sheet_of attached.now sheet) k.blocks (slots_of (shop_from (arrays_in items.now limits.now codes.now lens.now)))) (memory_of ws.new val.new cw.new bw.new result) }
{
    let k1 = push_return(ws, val, cw, bw, k);
    compile_slots(
        attached, sheet, ws, val, cw, bw, k1, items, limits, codes, lens,
    )
}
