// What one block's commands do: the shop variables that they write, the current limit and the last If; and what those variables do to the slots.
#![tactic(auto)]

ghost use Rattle.std.specs.Prelude.{◌≡◌, true, cond, List, ◌+◌, ◌*◌, ◌^◌, ◌≤◌, ◌<◌, ℕ, ltb, ℤ, length, take, get_or};
ghost use Rattle.std.proofs.Math.Option.{none, some};
ghost use Rattle.model.specs.Limits.{slot_count, entry_limit, node_limit};
ghost use Rattle.model.specs.Signed.{cut16};
ghost use Rattle.model.specs.Memory.{nodes_in, tree};
ghost use Rattle.model.specs.Parse.{place, is_subtract, limit_in, item_index, new_limit, written, put_at, fill_item, new_count};
ghost use Rattle.shop.specs.Shapes.{item_of};
ghost use Rattle.shop.specs.Good.{GoodSlot, GoodShop};
ghost use Rattle.shop_arrays.specs.Arrays.{item_from, arrays_in, slot_at, shop_from};
ghost use Rattle.expr.specs.Tree.{tree_below};
ghost use Rattle.expr.specs.Requirement.{number_of};
ghost use Rattle.parse_scan.specs.Table.{table_of, next_touched};
ghost use Rattle.parse_scan.specs.Reads.{short_is, target_is, reads_first, index_by};
ghost use Rattle.parse_scan.specs.Ready.{ReadyValue, ReadySet, ReadyCommand, Ready};
ghost use Rattle.parse_scan.specs.Block.{SetScanned, OneScanned, BlockScanned};
ghost use Rattle.parse_scan.specs.Shown.{hides_by, hides_one};
ghost use Rattle.parse_scan.specs.Rows.{RowHid, PartHid};
ghost use Rattle.parse_scan.specs.InPlace.{HiddenIn, FilledIn, SlotDone};
ghost use Rattle.parse_scan.specs.AllSlots.{SlotsUpdated};

use expr::number_below;
use memory::{CommandWords, NODE_LIMIT, NodeWords, Values, kind_of};
use model::{ItemId, Kind, Op1, Op2};
use shop::{COUNT_END, COUNT_FIRST, Codes, ENTRIES, ITEM_FIRST, Row, SLOTS, insert_row};

// What a block's commands leave: which slots' variables they wrote, the limit, and last_if, 0 or 1 + the root of the last If's condition, a link as those of the script's words.
// The numbers written lie in two lent arrays, and mean something only where the mask has the slot's bit: the arrays are never cleared.
#[derive(Clone, Copy)]
pub struct Scanned {
    pub item_mask: u32,
    pub count_mask: u32,
    pub limit: i16,
    pub last_if: u16,
}

// What a Set writes to: variable 0, nothing of a shop, or a slot's item or count.
#[derive(Clone, Copy)]
enum Target {
    First,
    Unused,
    ItemOf(usize),
    CountOf(usize),
}

// ---- the variables

fn bit(i: usize) -> u32
    requires { i < slot_count }
    ensures { result ≡ 2 ^ i }
{
    1 << i
}

// A number written goes into the array, and its bit into the mask; one that cannot be read leaves what was there.
fn keep(xs: &mut [i16; SLOTS], mask: u32, slot: usize, w: Option<i16>) -> u32
    requires { slot < slot_count }
    ensures { table_of result xs.new ≡ put_at (table_of mask xs.old) slot (short_is w) }
{
    let Some(v) = w else {
        return mask;
    };
    xs[slot] = v;
    mask | bit(slot)
}

// What was written of a slot's variable: a number left over from another block has no bit.
fn value_at(xs: &[i16; SLOTS], mask: u32, slot: usize) -> Option<i16>
    requires { slot < slot_count }
    ensures { short_is result ≡ get_or (table_of mask xs.now) slot none }
{
    if (mask >> slot) % 2 == 1 {
        Some(xs[slot])
    } else {
        None
    }
}

// The first slot from at on whose bit is set in the mask; past the last slot where there is none.
pub fn next_touched(mask: u32, at: usize) -> usize
    requires { at < slot_count }
    ensures { result ≡ next_touched mask at }
{
    at + (u32::trailing_zeros(mask >> at) as usize)
}

// ---- expressions

// Values written and limits are cut to 16 bits, two's complement.
fn cut(x: i32) -> i16
    ensures { result ≡ cut16 x }
{
    ints::cut_i16(x)
}

// Target numbers are not cut.
fn target_of(x: Option<i32>) -> Target
    ensures { target_is result ≡ place (number_of x) }
{
    let Some(z) = x else {
        return Target::Unused;
    };
    if z < 0 {
        return Target::Unused;
    }
    let n = z as usize;
    match n {
        0 => Target::First,
        ITEM_FIRST..COUNT_FIRST => Target::ItemOf(n - ITEM_FIRST),
        COUNT_FIRST..COUNT_END => Target::CountOf(n - COUNT_FIRST),
        _ => Target::Unused,
    }
}

// var[0] reads as the current limit.
fn first_of(o: Op1, x: Option<i32>, limit: i16) -> Option<i16>
    ensures { short_is result ≡ reads_first o (number_of x) limit }
{
    match (o, x) {
        (Op1::Variable, Some(0)) => Some(limit),
        _ => None,
    }
}

// What the Set with value v writes: an Imm, cut to 16 bits, or the current limit.
fn written_by(ws: &NodeWords, val: &Values, v: u16, limit: i16) -> Option<i16>
    requires { ReadyValue ws.now val.now v }
    ensures { (n : ℕ) → short_is result ≡ written (tree (nodes_in ws.now val.now n) v) limit }
{
    let at = usize::from(v);
    match kind_of(ws[3 * at]) {
        Kind::One(o) => first_of(o, number_below(ws, val, v, ws[3 * at + 1]), limit),
        Kind::Imm16 | Kind::Imm32 => Some(cut(val[at])),
        Kind::Two(_) | Kind::Other => None,
    }
}

// Of a subtraction's right side only item[Imm] counts.
fn index_by(o: Op1, x: Option<i32>) -> Option<i32>
    ensures { number_of result ≡ index_by o (number_of x) }
{
    match o {
        Op1::Item => x,
        _ => None,
    }
}

// The Imm in node i, an operand of node b, where that is item[Imm].
fn index_below(ws: &NodeWords, val: &Values, b: u16, i: u16) -> Option<i32>
    requires { b ≤ node_limit }
    ensures { (n : ℕ) → number_of result ≡ item_index (tree_below (nodes_in ws.now val.now n) b i) }
{
    if b <= i {
        return None;
    }
    let at = usize::from(i);
    let Kind::One(o) = kind_of(ws[3 * at]) else {
        return None;
    };
    index_by(o, number_below(ws, val, i, ws[3 * at + 1]))
}

// The limit that a subtraction sets, cut to 16 bits.
fn limit_by(o: Op2, x: Option<i32>, index: Option<i32>, limit: i16) -> i16
    ensures { result ≡ cond (is_subtract o) (limit_in (number_of x) (number_of index) limit) limit }
{
    match (o, index, x) {
        (Op2::Subtract, Some(_), Some(z)) => cut(z),
        _ => limit,
    }
}

// The current limit after variable 0 was set to node v.
fn limit_after(ws: &NodeWords, val: &Values, v: u16, limit: i16) -> i16
    requires { v < node_limit }
    ensures { (n : ℕ) → result ≡ new_limit (tree (nodes_in ws.now val.now n) v) limit }
{
    let at = usize::from(v);
    let Kind::Two(o) = kind_of(ws[3 * at]) else {
        return limit;
    };
    let x = number_below(ws, val, v, ws[3 * at + 1]);
    let index = index_below(ws, val, v, ws[3 * at + 2]);
    limit_by(o, x, index, limit)
}

// ---- commands

// The codes of a Set and an If, as the words of a command have them.
const SET: u16 = 2;

const IF: u16 = 3;

// As evaluate_set: t and v are the roots of target and value.
fn evaluate_set(
    ws: &NodeWords,
    val: &Values,
    ids: &mut [i16; SLOTS],
    counts: &mut [i16; SLOTS],
    t: u16,
    v: u16,
    s: Scanned,
) -> Scanned
    requires { ReadySet ws.now val.now t v }
    ensures { SetScanned ws.now val.now t v s ids.old counts.old result ids.new counts.new }
{
    let target = target_of(number_below(ws, val, NODE_LIMIT, t));
    match target {
        Target::First => Scanned {
            limit: limit_after(ws, val, v, s.limit),
            ..s
        },
        Target::Unused => s,
        Target::ItemOf(i) => Scanned {
            item_mask: keep(ids, s.item_mask, i, written_by(ws, val, v, s.limit)),
            ..s
        },
        Target::CountOf(i) => Scanned {
            count_mask: keep(counts, s.count_mask, i, written_by(ws, val, v, s.limit)),
            ..s
        },
    }
}

// Command c. A later If takes the place of an earlier one.
fn scan_one(
    ws: &NodeWords,
    val: &Values,
    cw: &CommandWords,
    ids: &mut [i16; SLOTS],
    counts: &mut [i16; SLOTS],
    c: u16,
    s: Scanned,
) -> Scanned
    requires { ReadyCommand ws.now val.now cw.now c }
    ensures { OneScanned ws.now val.now cw.now c s ids.old counts.old result ids.new counts.new }
{
    let i = usize::from(c);
    let a = cw[4 * i + 1];
    match cw[4 * i] {
        IF => Scanned {
            last_if: a + 1,
            ..s
        },
        SET if cw[4 * i + 3] == 0 => evaluate_set(ws, val, ids, counts, a, cw[4 * i + 2], s),
        _ => s,
    }
}

// The commands of a block, held of them from first on, under the current limit.
pub fn scan_block(
    ws: &NodeWords,
    val: &Values,
    cw: &CommandWords,
    ids: &mut [i16; SLOTS],
    counts: &mut [i16; SLOTS],
    first: u16,
    held: u16,
    limit: i16,
) -> Scanned
    requires { Ready ws.now val.now cw.now held first }
    ensures { BlockScanned ws.now val.now cw.now first held limit result ids.new counts.new }
{
    let mut s = Scanned {
        item_mask: 0,
        count_mask: 0,
        limit,
        last_if: 0,
    };
    for c in first..first + held {
        s = scan_one(ws, val, cw, ids, counts, c, s);
    }
    s
}

// ---- slots hidden

// Where a count was written: an item below 0 or absent hides the slot.
fn hides_by(item: Option<i16>) -> bool
    ensures { (z : ℤ) → result ≡ hides_by (short_is item) (some z) }
{
    item.is_none_or(|id| id < 0)
}

// Whether the block hides a slot, of those that it wrote a count of. The counts' numbers do not matter. The loop goes from bit to bit (01), and not over all slots.
pub fn hides(s: Scanned, ids: &[i16; SLOTS]) -> bool
    ensures { (cs : List ℤ) → length cs ≡ slot_count → result ≡ hides_one (table_of s.item_mask ids.now) (table_of s.count_mask cs) }
{
    let mut at = 0;
    while at < SLOTS {
        let i = next_touched(s.count_mask, at);
        if SLOTS <= i {
            return false;
        }
        if hides_by(value_at(ids, s.item_mask, i)) {
            return true;
        }
        at = i + 1;
    }
    false
}

// len codes of more join the first n of a row: how many there are then, one more than a row holds where that is too many.
fn hide_row(row: &mut [u64], n: usize, more: &Row, len: usize) -> usize
    requires { (length row.old ≡ entry_limit) × ((n ≤ entry_limit) × (len ≤ entry_limit)) }
    ensures { RowHid row.old n (take len more.now) row.new result }
{
    let mut held = n;
    for code in &more[..len] {
        held = insert_row(row, held, *code);
        if ENTRIES < held {
            return held;
        }
    }
    held
}

// As hide_row, for the row that begins at start.
fn hide_part(codes: &mut [u64], start: usize, n: usize, more: &Row, len: usize) -> usize
    requires { (start + entry_limit ≤ length codes.old) × ((n ≤ entry_limit) × (len ≤ entry_limit)) }
    ensures { PartHid codes.old start n (take len more.now) codes.new result }
{
    let end = start + ENTRIES;
    hide_row(&mut codes[start..end], n, more, len)
}

// len codes of more join slot i's set, in place; false where that is one too many. Where they are too many by themselves, they are too many in a slot.
fn hide_slot(codes: &mut Codes, lens: &mut [u8; SLOTS], i: usize, more: &Row, len: usize) -> bool
    requires { ((i < slot_count) × (get_or lens.old i 0 ≤ entry_limit)) × ((length codes.old ≡ entry_limit * slot_count) × (length lens.old ≡ slot_count)) }
    ensures { HiddenIn codes.old lens.old i more.now len result codes.new lens.new }
{
    if ENTRIES < len {
        return false;
    }
    let n = hide_part(codes, ENTRIES * i, usize::from(lens[i]), more, len);
    if ENTRIES < n {
        return false;
    }
    lens[i] = n as u8;
    true
}

// ---- slots filled

// The item of a slot in its array: -1, no item, gives way to a known one.
fn fill_number(x: i32, known: u16, id: ItemId) -> i32
    ensures { item_of (item_from result) ≡ fill_item (item_of (item_from x)) id.0 (ltb id.0 known) }
{
    if x == -1 && id.0 < known {
        i32::from(id.0)
    } else {
        x
    }
}

// A count above 0 replaces the limit.
fn new_count(count: i16, limit: i16) -> i16
    ensures { result ≡ new_count count limit }
{
    if 0 < count { count } else { limit }
}

// Known item or not, the count has its say; the slot's requirements stay.
fn fill_slot(
    items: &mut [i32; SLOTS],
    limits: &mut [i16; SLOTS],
    known: u16,
    i: usize,
    id: ItemId,
    count: i16,
)
    requires { (i < slot_count) × ((length items.old ≡ slot_count) × (length limits.old ≡ slot_count)) }
    ensures { FilledIn known id.0 count i items.old limits.old items.new limits.new }
{
    items[i] = fill_number(items[i], known, id);
    limits[i] = new_count(count, limits[i]);
}

// ---- all slots

// Slot i by what the block wrote of it: no count, no update; an item below 0 or absent hides it. known is how many items the sheet has.
fn update_slot(
    items: &mut [i32; SLOTS],
    limits: &mut [i16; SLOTS],
    codes: &mut Codes,
    lens: &mut [u8; SLOTS],
    known: u16,
    i: usize,
    item: Option<i16>,
    count: Option<i16>,
    more: &Row,
    n: usize,
) -> bool
    requires { (i < slot_count) × GoodSlot (slot_at (arrays_in items.old limits.old codes.old lens.old) i) }
    ensures { SlotDone (arrays_in items.old limits.old codes.old lens.old) known i (short_is item) (short_is count) more.now n result (arrays_in items.new limits.new codes.new lens.new) }
{
    let Some(z) = count else {
        return true;
    };
    let Some(id) = item else {
        return hide_slot(codes, lens, i, more, n);
    };
    if id < 0 {
        return hide_slot(codes, lens, i, more, n);
    }
    fill_slot(items, limits, known, i, ItemId(id as u16), z);
    true
}

// The slots that the block wrote to, the lowest first; n codes of more are the negated requirements, n being over ENTRIES where they are too many. False where a slot would have one requirement too many. The loop goes from bit to bit (01), and not over all slots.
pub fn update_slots(
    items: &mut [i32; SLOTS],
    limits: &mut [i16; SLOTS],
    codes: &mut Codes,
    lens: &mut [u8; SLOTS],
    known: u16,
    s: Scanned,
    ids: &[i16; SLOTS],
    counts: &[i16; SLOTS],
    more: &Row,
    n: usize,
) -> bool
    requires { GoodShop (shop_from (arrays_in items.old limits.old codes.old lens.old)) }
    ensures { SlotsUpdated (shop_from (arrays_in items.old limits.old codes.old lens.old)) known (table_of s.item_mask ids.now) (table_of s.count_mask counts.now) more.now n result (shop_from (arrays_in items.new limits.new codes.new lens.new)) }
{
    let touched = s.item_mask | s.count_mask;
    let mut at = 0;
    // From bit to bit (01), and not over all slots.
    while at < SLOTS {
        let i = next_touched(touched, at);
        if SLOTS <= i {
            return true;
        }
        let item = value_at(ids, s.item_mask, i);
        let count = value_at(counts, s.count_mask, i);
        if !update_slot(items, limits, codes, lens, known, i, item, count, more, n) {
            return false;
        }
        at = i + 1;
    }
    true
}
