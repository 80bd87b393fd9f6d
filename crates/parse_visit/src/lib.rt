// One block of a parse: its commands read under the condition that leads to it, the slots that it writes, the conditions of the blocks after it.
#![tactic(auto)]

ghost use Rattle.std.specs.Prelude.{◌≡◌, cond, ◌+◌, ◌*◌, ◌-◌, ◌≤◌, ◌<◌, length, get_or};
ghost use Rattle.model.specs.Limits.{block_limit, node_limit};
ghost use Rattle.model.specs.Refusal.{parse_too_many};
ghost use Rattle.model.specs.Refusals.{refusal_in};
ghost use Rattle.memory.specs.View.{memory_of};
ghost use Rattle.shop.specs.Good.{GoodShop};
ghost use Rattle.shop_arrays.specs.Arrays.{arrays_in, shop_from};
ghost use Rattle.parse_conditions.specs.Listing.{Place};
ghost use Rattle.parse_filter.specs.Chains.{Bounds};
ghost use Rattle.parse_filter.specs.Marks.{MarkedAs};
ghost use Rattle.parse_scan.specs.Table.{table_of};
ghost use Rattle.parse_visit.specs.State.{no_room, answer_in, one_cell_more, scanned_walk, stored_in, Held, Open, Visits};
ghost use Rattle.parse_visit.specs.Joins.{with_cell};
ghost use Rattle.parse_visit.specs.Slots.{Slots};
ghost use Rattle.parse_visit.specs.Ways.{place_of, Joined, ReadsOn, GoesOn};

use memory::{BLOCKS, BlockWords, CommandWords, Counts, NodeWords, Values};
use model::{BlockNo, Link, Refusal};
use parse_conditions::{PLACES, read_condition};
use parse_filter::{Marked, parse_requirements};
use parse_keys::Known;
use parse_scan::{Scanned, hides, scan_block, update_slots};
use reach::Condition;
use shop::{Codes, ENTRIES, SLOTS};

// Why a walk stops: it refuses, or there is no room in the tables, and it is made again in larger ones.
#[derive(Clone, Copy, Debug, PartialEq, Eq)]
pub enum Stop {
    Refused(Refusal),
    NoRoom,
}

// What is carried from block to block beside the arrays: the current limit, how many cells of conditions there are, whether the walk goes on, how many entries of Ifs and keys there are, and the condition whose entries are marked.
#[derive(Clone, Copy)]
pub struct Walk {
    pub limit: i16,
    pub cells: u16,
    pub outcome: Result<(), Stop>,
    pub used: u16,
    pub keyed: u16,
    pub marked: Marked,
}

// How many blocks, commands and nodes the script has, and how many ids the sheet.
#[derive(Clone, Copy)]
pub struct Given {
    pub counts: Counts,
    pub known: Known,
}

// A block, and the condition that leads to it.
#[derive(Clone, Copy)]
pub struct Reached {
    pub block: BlockNo,
    pub under: Condition,
}

// What a block leaves, its next and else, and their conditions.
#[derive(Clone, Copy)]
pub struct Visited {
    pub walk: Walk,
    pub next: Link,
    pub then: Condition,
    pub other: Link,
    pub otherwise: Condition,
}

// Whether the slots had room, and the condition whose entries are marked.
#[derive(Clone, Copy)]
struct Slotted {
    outcome: Result<(), Refusal>,
    marked: Marked,
}

// ---- the slots

// The slots had room or not, and what is marked.
fn updated(ok: bool, marked: Marked) -> Slotted
    ensures { (refusal_in result.outcome ≡ cond ok 0 parse_too_many) × (result.marked ≡ marked) }
{
    let outcome = if ok {
        Ok(())
    } else {
        Err(Refusal::ParseTooMany)
    };
    Slotted { outcome, marked }
}

// The slots as the block leaves them. Without a count no slot changes; only a block that hides a slot asks for the codes of the negated requirements of the condition c.
fn slots_after(
    keys: &[u64],
    companions: &[u16],
    list: &[u16],
    seen: &mut [bool],
    alive: &mut [u16],
    cells: &[u16],
    items: &mut [i32; SLOTS],
    limits: &mut [i16; SLOTS],
    codes: &mut Codes,
    lens: &mut [u8; SLOTS],
    ids: &[i16; SLOTS],
    counts: &[i16; SLOTS],
    known: u16,
    s: Scanned,
    old: Marked,
    c: usize,
) -> Slotted
    requires bounds { Bounds keys.now companions.now cells.now list.now (length seen.old) (length alive.old) old.first c × MarkedAs companions.now cells.now list.now seen.old alive.old old }
    requires good_shop { GoodShop (shop_from (arrays_in items.old limits.old codes.old lens.old)) }
    ensures { Slots keys.now companions.now cells.now list.now c known old.first (table_of s.item_mask ids.now) (table_of s.count_mask counts.now) (shop_from (arrays_in items.old limits.old codes.old lens.old)) seen.new alive.new (shop_from (arrays_in items.new limits.new codes.new lens.new)) result }
{
    if s.count_mask == 0 {
        return updated(true, old);
    }
    let mut row = [0u64; ENTRIES];
    if !hides(s, ids) {
        let ok = update_slots(items, limits, codes, lens, known, s, ids, counts, &row, 0);
        return updated(ok, old);
    }
    let f = parse_requirements(cells, list, keys, companions, seen, alive, &mut row, old, c);
    let n = f.len;
    let ok = update_slots(items, limits, codes, lens, known, s, ids, counts, &row, n);
    updated(ok, f.marked)
}

// ---- the conditions after a block

// Cell n holds the condition c and where the entries of the If that it is joined with begin and end.
fn add_cell(cells: &mut [u16], n: usize, c: Condition, from: u16, to: u16)
    requires { 3 * n + 3 ≤ length cells.old }
    ensures { cells.new ≡ with_cell cells.old n c.0 from to }
{
    cells[3 * n] = c.0;
    cells[3 * n + 1] = from;
    cells[3 * n + 2] = to;
}

// How far keys and list have come, as read_condition takes it.
fn place(w: Walk) -> u32
    ensures { result ≡ place_of w }
{
    u32::from(w.keyed) * PLACES + u32::from(w.used)
}

// The tables had no room for an If.
fn out_of_room(w: Walk) -> Walk
    ensures { (answer_in result.outcome ≡ no_room) × (result.limit ≡ w.limit) }
{
    Walk {
        outcome: Err(Stop::NoRoom),
        ..w
    }
}

// After an If was read: one cell more, and so many entries and keys.
fn one_cell_more(w: Walk, used: u16, keyed: u16) -> Walk
    requires { w.cells < block_limit }
    ensures { result ≡ one_cell_more w used keyed }
{
    Walk {
        cells: w.cells + 1,
        used,
        keyed,
        ..w
    }
}

// The last If read and joined to the condition of the block b as a cell more.
fn join(
    ws: &NodeWords,
    val: &Values,
    keys: &mut [u64],
    kids: &mut [u16],
    companions: &mut [u16],
    list: &mut [u16],
    cells: &mut [u16],
    g: Given,
    s: Scanned,
    w: Walk,
    b: Reached,
) -> Walk
    requires { ((g.counts.nodes ≤ node_limit) × ((s.last_if ≡ 0 → ⊥) × (w.cells < block_limit))) × ((answer_in w.outcome ≡ no_room → ⊥) × Place keys.old kids.old companions.old list.old (place_of w)) }
    ensures { Joined ws.now val.now g.known g.counts.nodes (s.last_if - 1) b.under.0 w keys.old list.old cells.old keys.new kids.new companions.new list.new cells.new result }
{
    let at = usize::from(w.cells);
    if cells.len() < 3 * at + 3 {
        return out_of_room(w);
    }
    let known = g.known;
    let n = usize::from(g.counts.nodes);
    let i = usize::from(s.last_if - 1);
    let p = place(w);
    match read_condition(ws, val, keys, kids, companions, list, known, n, i, false, p) {
        None => out_of_room(w),
        Some(r) => {
            let used = (r % PLACES) as u16;
            add_cell(cells, at, b.under, w.used, used);
            one_cell_more(w, used, (r / PLACES) as u16)
        }
    }
}

// Word j of block b.
fn block_word(bw: &BlockWords, b: BlockNo, j: usize) -> u16
    requires { (b.0 < block_limit) × (j < 5) }
    ensures { result ≡ get_or bw.now (5 * b.0 + j) 0 }
{
    let at = b.0 as usize;
    bw[5 * at + j]
}

fn reads_on(outcome: Result<(), Stop>, last: u16, next: Link) -> bool
    ensures { ReadsOn (answer_in outcome) last next.0 result }
{
    outcome.is_ok() && last != 0 && next.0 != 0
}

// Where the walk goes on after block b: its condition joined with its last If, negated for the else. It is read where the block has an If and a next, and nothing was refused.
fn go_on(
    ws: &NodeWords,
    val: &Values,
    bw: &BlockWords,
    keys: &mut [u64],
    kids: &mut [u16],
    companions: &mut [u16],
    list: &mut [u16],
    cells: &mut [u16],
    g: Given,
    s: Scanned,
    w: Walk,
    b: Reached,
) -> Visited
    requires { ((g.counts.nodes ≤ node_limit) × ((w.cells < block_limit) × (b.block.0 < block_limit))) × ((answer_in w.outcome ≡ no_room → ⊥) × Place keys.old kids.old companions.old list.old (place_of w)) }
    ensures { GoesOn ws.now val.now g.counts.nodes g.known keys.old kids.old companions.old list.old cells.old w b.under.0 s.last_if keys.new kids.new companions.new list.new cells.new result × ((result.next.0 ≡ get_or bw.now (5 * b.block.0 + 3) 0) × (result.other.0 ≡ get_or bw.now (5 * b.block.0 + 4) 0)) }
{
    let next = Link(block_word(bw, b.block, 3));
    let other = Link(block_word(bw, b.block, 4));
    if !reads_on(w.outcome, s.last_if, next) {
        return Visited {
            walk: w,
            next,
            then: Condition(0),
            other,
            otherwise: Condition(0),
        };
    }
    let j = join(ws, val, keys, kids, companions, list, cells, g, s, w, b);
    Visited {
        walk: j,
        next,
        then: Condition(2 * w.cells + 1),
        other,
        otherwise: Condition(2 * w.cells + 2),
    }
}

// ---- the visit

// After the block's commands and slots.
fn scanned(w: Walk, s: Scanned, a: Slotted) -> Walk
    ensures { result ≡ scanned_walk w s a }
{
    Walk {
        limit: s.limit,
        outcome: a.outcome.map_err(Stop::Refused),
        marked: a.marked,
        ..w
    }
}

// Block b, which is code and not marked, under its condition.
pub fn visit(
    ws: &NodeWords,
    val: &Values,
    cw: &CommandWords,
    bw: &BlockWords,
    keys: &mut [u64],
    kids: &mut [u16],
    companions: &mut [u16],
    list: &mut [u16],
    seen: &mut [bool],
    alive: &mut [u16],
    cells: &mut [u16],
    marks: &mut [bool; BLOCKS],
    items: &mut [i32; SLOTS],
    limits: &mut [i16; SLOTS],
    codes: &mut Codes,
    lens: &mut [u8; SLOTS],
    ids: &mut [i16; SLOTS],
    counts: &mut [i16; SLOTS],
    g: Given,
    w: Walk,
    b: Reached,
) -> Visited
    requires held { Held g.known (stored_in keys.old kids.old companions.old list.old seen.old alive.old cells.old) w }
    requires fact { Open (memory_of ws.now val.now cw.now bw.now g.counts) (shop_from (arrays_in items.old limits.old codes.old lens.old)) w b.block.0 b.under.0 }
    ensures { Visits (memory_of ws.now val.now cw.now bw.now g.counts) g.known (stored_in keys.old kids.old companions.old list.old seen.old alive.old cells.old) marks.old (shop_from (arrays_in items.old limits.old codes.old lens.old)) w b.block.0 b.under.0 (stored_in keys.new kids.new companions.new list.new seen.new alive.new cells.new) marks.new (shop_from (arrays_in items.new limits.new codes.new lens.new)) result }
{
    let first = block_word(bw, b.block, 1);
    let held = block_word(bw, b.block, 2);
    marks[b.block.0 as usize] = true;
    let s = scan_block(ws, val, cw, ids, counts, first, held, w.limit);
    let a = slots_after(
        keys,
        companions,
        list,
        seen,
        alive,
        cells,
        items,
        limits,
        codes,
        lens,
        ids,
        counts,
        g.known.items,
        s,
        w.marked,
        usize::from(b.under.0),
    );
    let v = scanned(w, s, a);
    go_on(ws, val, bw, keys, kids, companions, list, cells, g, s, v, b)
}
