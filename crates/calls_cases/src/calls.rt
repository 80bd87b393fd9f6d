// Each call with the numbers of a line, and what it answered as numbers: compile, parse, run beside preview, judge, and an image read or written.
use births::start_anew;
use case_lines::{Answer, Words, bit, bits16, kind_in, low8, low16, number_in, row, signed16};
use compile::{Compiled, compile};
use image_read::read_script;
use image_write::write_script;
use judge_record::judge_record;
use memory::{Births, BlockWords, CommandWords, Counts, NodeWords, Values};
use model::{
    BlockNo, FLAGS, ItemId, Loader, Refusal, TIMES, VARIABLES, Variables, WIDE, refusal_in,
};
use parse::parse;
use preview::{Previewed, preview};
use runner::{Ran, run};
use shop::{COUNT_FIRST, ITEM_FIRST, Row, SLOTS, Sheet, Shop, Slot, empty_shop, with_slot};

// ---- counts

// The counts of the script and of its accepted compiles.
#[derive(Clone, Copy)]
pub struct Kept {
    pub counts: Counts,
    pub compiles: u32,
}

pub fn counts(blocks: u32, commands: u32, nodes: u32) -> Counts {
    Counts {
        nodes: low16(nodes),
        commands: low16(commands),
        blocks: low16(blocks),
    }
}

pub fn tell_counts(t: &mut Answer, refusal: u8, k: Counts) {
    t[0] = u32::from(refusal);
    t[1] = u32::from(k.blocks);
    t[2] = u32::from(k.commands);
    t[3] = u32::from(k.nodes);
}

// ---- sheet and shop

// Sixteen items: 0, 1 and 2 are the timers, 3 has atc 0, 7 is plain. Timer10 can be another one.
fn sheet_with(timer10: u16) -> Sheet {
    Sheet {
        atcs: 1,
        timer5: ItemId(0),
        timer10: ItemId(timer10),
        timer15: ItemId(2),
    }
}

fn attached() -> [u8; 16] {
    let mut out: [u8; 16] = [0; 16];
    out[3] = 1;
    out
}

// One slot: item, limit, how many entries, and the first two of them. Each further one has the next number.
fn shop_of(a: &Words) -> Shop {
    let codes = row(a[4], a[5], a[6], a[7]);
    let slot = Slot {
        item: item_of(low16(a[1])),
        limit: signed16(a[2]),
        requirements: codes,
        len: low8(a[3]),
    };
    with_slot(empty_shop(), 0, slot)
}

// Item 999 stands for none.
fn item_of(x: u16) -> Option<ItemId> {
    if x == 999 { None } else { Some(ItemId(x)) }
}

// ---- compile

// Whether the script is as it was is told by a sum over all of it, its birth marks and the count of compiles.
pub fn compiled(
    a: &Words,
    ws: &mut NodeWords,
    val: &mut Values,
    cw: &mut CommandWords,
    bw: &mut BlockWords,
    births: &mut Births,
    kept: Kept,
    t: &mut Answer,
) -> Kept {
    let held = kept.counts;
    let before = whole(ws, val, cw, bw, births, held, kept.compiles);
    let c = compile_by(a, ws, val, cw, bw, births, kept);
    let k = match c {
        Ok(done) => Kept {
            counts: done.counts,
            compiles: done.compiles,
        },
        Err(_) => kept,
    };
    let after = whole(ws, val, cw, bw, births, k.counts, k.compiles);
    tell_counts(t, refusal_in(c.map(|_| ())), k.counts);
    t[4] = root_of(bw, low16(a[8]));
    t[5] = bit(before == after);
    k
}

fn compile_by(
    a: &Words,
    ws: &mut NodeWords,
    val: &mut Values,
    cw: &mut CommandWords,
    bw: &mut BlockWords,
    births: &mut Births,
    kept: Kept,
) -> Result<Compiled, Refusal> {
    let atcs = attached();
    let sheet = sheet_with(low16(a[9]));
    let at = BlockNo(a[8]);
    let k = kept.counts;
    let n = kept.compiles;
    let loader = loader_of(a[10]);
    compile(
        &atcs,
        sheet,
        ws,
        val,
        cw,
        bw,
        births,
        k,
        n,
        loader,
        at,
        shop_of(a),
    )
}

// A line that names none is for the disc.
fn loader_of(x: u32) -> Loader {
    match x {
        0 => Loader::Disc,
        _ => Loader::Demo,
    }
}

// The block that a setup block has as next; 0 where it has none.
fn root_of(bw: &BlockWords, at: u16) -> u32 {
    match bw.get(5 * at as usize + 3) {
        Some(link) => u32::from(link.saturating_sub(1)),
        None => 0,
    }
}

// ---- a sum over the whole script with its marks and the count of compiles, with the place of each word

pub fn whole(
    ws: &NodeWords,
    val: &Values,
    cw: &CommandWords,
    bw: &BlockWords,
    births: &Births,
    k: Counts,
    compiles: u32,
) -> u64 {
    summed(births, mixed(sum(ws, val, cw, bw, k), compiles), |x| x)
}

fn sum(ws: &NodeWords, val: &Values, cw: &CommandWords, bw: &BlockWords, k: Counts) -> u64 {
    let counts = [k.nodes, k.commands, k.blocks];
    let a = summed(&counts, 0, |x| u32::from(x));
    let nodes = summed(ws, a, |x| u32::from(x));
    let values = summed(val, nodes, ints::to_bits);
    let commands = summed(cw, values, |x| u32::from(x));
    summed(bw, commands, |x| u32::from(x))
}

fn summed<T: Copy, F: Fn(T) -> u32>(s: &[T], from: u64, word: F) -> u64
    requires { F.IsAlwaysCallable word }
{
    s.iter().fold(from, |h, x| mixed(h, word(*x)))
}

fn mixed(h: u64, x: u32) -> u64 {
    h % WIDE * 31 + u64::from(x)
}

// ---- birth marks

// The mark of a place of a block, and the count of accepted compiles.
pub fn asked(here: bool, a: &Words, births: &Births, compiles: u32, t: &mut Answer) {
    let mark = births.get(a[1] as usize);
    if let (true, Some(mark)) = (here, mark) {
        t[0] = *mark;
        t[1] = compiles;
    }
}

// ---- parse

pub fn parsed(
    a: &Words,
    ws: &NodeWords,
    val: &Values,
    cw: &CommandWords,
    bw: &BlockWords,
    kept: Counts,
    t: &mut Answer,
) {
    let atcs = attached();
    let at = BlockNo(a[1]);
    let p = parse(&atcs, sheet_with(1), ws, val, cw, bw, kept, at);
    tell_parsed(p, t);
}

// How many slots are empty, and slot 0. A refused parse is told as twenty empty slots.
fn tell_parsed(p: Result<Shop, Refusal>, t: &mut Answer) {
    let shop = p.unwrap_or(empty_shop());
    t[0] = u32::from(refusal_in(p.map(|_| ())));
    t[1] = empties(&shop);
    tell_slot(&shop.slots[0], t);
}

// Item, limit, how many requirements, and kind and number of the first five.
fn tell_slot(slot: &Slot, t: &mut Answer) {
    t[2] = slot.item.map_or(999, |w| u32::from(w.0));
    t[3] = bits16(slot.limit);
    t[4] = u32::from(slot.len);
    requirements(&slot.requirements, usize::from(slot.len), t);
}

fn requirements(codes: &Row, n: usize, t: &mut Answer) {
    for (i, code) in codes.iter().take(n.min(5)).enumerate() {
        t[5 + 2 * i] = kind_in(*code);
        t[6 + 2 * i] = number_in(*code);
    }
}

fn empties(shop: &Shop) -> u32 {
    shop.slots
        .iter()
        .map(|slot| bit(slot.item.is_none() && slot.limit == 0 && slot.len == 0))
        .fold(0, |n, one| n.wrapping_add(one))
}

// ---- run and preview

// The save has so many of item 7 and of Timer10 and a flag set; 2048 is none. So many of its sixteen counts are lent. Every variable is 9 before.
pub fn ran(
    a: &Words,
    ws: &NodeWords,
    val: &Values,
    cw: &CommandWords,
    bw: &BlockWords,
    kept: Counts,
    t: &mut Answer,
) {
    let mut items: [i16; 16] = [0; 16];
    items[7] = signed16(a[9]);
    items[1] = signed16(a[10]);
    let mut flags: [u8; FLAGS] = [0; FLAGS];
    set_flag(&mut flags, a[11]);
    meet(a, ws, val, cw, bw, kept, &items, low8(a[13]), &flags, t);
}

fn set_flag(flags: &mut [u8; FLAGS], flag: u32) {
    if let Some(set) = flags.get_mut(flag as usize) {
        *set = 1;
    }
}

fn meet(
    a: &Words,
    ws: &NodeWords,
    val: &Values,
    cw: &CommandWords,
    bw: &BlockWords,
    kept: Counts,
    items: &[i16],
    count: u8,
    flags: &[u8; FLAGS],
    t: &mut Answer,
) {
    let n = count as usize;
    if items.len() < n {
        return;
    }
    let mut vars: Variables = [9; VARIABLES];
    let p = preview_by(shop_of(a), &items[0..n], flags, &vars);
    let r = run_by(a, ws, val, cw, bw, kept, &items[0..n], flags, &mut vars);
    tell_ran(r, &vars, p, t);
}

fn preview_by(
    shop: Shop,
    items: &[i16],
    flags: &[u8; FLAGS],
    vars: &Variables,
) -> Result<Previewed, Refusal> {
    let entries = attached();
    let atcs: [u8; 1] = [0; 1];
    let times: [i16; TIMES] = [0; TIMES];
    preview(
        &entries,
        sheet_with(1),
        shop,
        items,
        &atcs,
        flags,
        &times,
        vars,
    )
}

fn run_by(
    a: &Words,
    ws: &NodeWords,
    val: &Values,
    cw: &CommandWords,
    bw: &BlockWords,
    kept: Counts,
    items: &[i16],
    flags: &[u8; FLAGS],
    vars: &mut Variables,
) -> Ran {
    let entries = attached();
    let atcs: [u8; 1] = [0; 1];
    let times: [i16; TIMES] = [0; TIMES];
    run(
        &entries,
        sheet_with(1),
        ws,
        val,
        cw,
        bw,
        kept,
        BlockNo(a[8]),
        items,
        &atcs,
        flags,
        &times,
        vars,
        a[12],
    )
}

// Blocks entered, the pair of slot 0, variable 5, and what the preview says.
fn tell_ran(r: Ran, vars: &Variables, p: Result<Previewed, Refusal>, t: &mut Answer) {
    t[0] = u32::from(refusal_in(r.outcome));
    t[1] = r.entered;
    t[2] = ints::to_bits(vars[ITEM_FIRST]);
    t[3] = ints::to_bits(vars[COUNT_FIRST]);
    t[4] = ints::to_bits(vars[5]);
    t[5] = u32::from(refusal_in(p.map(|_| ())));
    t[6] = match p {
        Ok(shown) => bit(agrees(vars, &shown)),
        Err(_) => 0,
    };
}

// All pairs and variable 0.
fn agrees(vars: &Variables, p: &Previewed) -> bool {
    vars[0] == p.temp
        && vars[ITEM_FIRST..ITEM_FIRST + SLOTS] == p.items[..]
        && vars[COUNT_FIRST..COUNT_FIRST + SLOTS] == p.counts[..]
}

// ---- the record and its image

pub fn judged(
    ws: &NodeWords,
    val: &Values,
    cw: &CommandWords,
    bw: &BlockWords,
    kept: Counts,
    t: &mut Answer,
) {
    match judge_record(ws, val, cw, bw, kept) {
        Ok(len) => t[1] = short(len),
        Err(e) => t[0] = u32::from(e.number()),
    }
}

fn short(x: usize) -> u32 {
    (x as u64 % WIDE) as u32
}

// The script of the image; one of no blocks where it is refused. Either way birth marks and the count of compiles start anew, as in the library's read.
pub fn read(
    image: &[u8],
    len: usize,
    ws: &mut NodeWords,
    val: &mut Values,
    cw: &mut CommandWords,
    bw: &mut BlockWords,
    births: &mut Births,
    t: &mut Answer,
) -> Kept {
    start_anew(births);
    match image.get(..len) {
        Some(given) => tell_read(read_script(given, 0, ws, val, cw, bw), t),
        None => none(),
    }
}

pub fn none() -> Kept {
    Kept {
        counts: counts(0, 0, 0),
        compiles: 0,
    }
}

fn tell_read(r: Result<Counts, Refusal>, t: &mut Answer) -> Kept {
    match r {
        Ok(k) => {
            tell_counts(t, 0, k);
            Kept {
                counts: k,
                compiles: 0,
            }
        }
        Err(e) => {
            t[0] = u32::from(e.number());
            none()
        }
    }
}

// Into so many of bytes that are all 7: the length, whether they are then the image last given, and whether all others still are 7.
pub fn written(
    a: &Words,
    image: &[u8; 65600],
    len: usize,
    ws: &NodeWords,
    val: &Values,
    cw: &CommandWords,
    bw: &BlockWords,
    kept: Counts,
    t: &mut Answer,
) {
    let mut out: [u8; 65600] = [7; 65600];
    let w = write_by(a[1], ws, val, cw, bw, kept, &mut out);
    tell_written(w, image, len, &out, t);
}

fn tell_written(
    w: Result<usize, Refusal>,
    image: &[u8; 65600],
    len: usize,
    out: &[u8; 65600],
    t: &mut Answer,
) {
    let n = w.unwrap_or(0);
    t[0] = u32::from(refusal_in(w.map(|_| ())));
    t[1] = short(n);
    t[2] = bit(n == len && n <= 65600 && image[..n] == out[..n]);
    t[3] = bit(out.iter().skip(n).all(|b| *b == 7));
}

fn write_by(
    most: u32,
    ws: &NodeWords,
    val: &Values,
    cw: &CommandWords,
    bw: &BlockWords,
    kept: Counts,
    out: &mut [u8],
) -> Result<usize, Refusal> {
    let room = out.len().min(most as usize);
    write_script(ws, val, cw, bw, kept, &mut out[..room])
}
