// The calls of the engine for programs in Rust and C: numbers, slices and references to arrays of numbers go in, structs of numbers come out.
#![tactic(auto)]

ghost use Rattle.std.specs.Prelude.{◌≡◌, replicate, get_or, pos};
ghost use Rattle.model.specs.Limits.{block_limit};
ghost use Rattle.model.specs.Image.{read_image};
ghost use Rattle.model.specs.RecordCalls.{run_in, write_in};
ghost use Rattle.shop.specs.Shapes.{sheet_of};
ghost use Rattle.image_read.specs.Outcome.{read_into};
ghost use Rattle.image_write.specs.Call.{wrote, length_in};
ghost use Rattle.checks.specs.Calls.{save_of};
ghost use Rattle.model.specs.Preview.{preview_call};
ghost use Rattle.model.specs.RecordCalls.{parse_in};
ghost use Rattle.memory.specs.View.{memory_of, born_of, empty_in};
ghost use Rattle.shop.specs.Shapes.{slots_of};
ghost use Rattle.shop_arrays.specs.Arrays.{arrays_in, shop_from};
ghost use Rattle.compile.specs.Answer.{call_of, CompiledAs};
ghost use Rattle.reclaim.specs.Answer.{ReclaimedAs};
ghost use Rattle.parse.specs.Answer.{ParsedInto};
ghost use Rattle.preview.specs.Shown.{answer_in, previewed_of};
ghost use Rattle.shop_with_slots.specs.Twenty.{twenty};
ghost use Rattle.capi_values.specs.Values.{counts_by, sheet_by};
ghost use Rattle.capi.specs.Answers.{counts_in, loader_by, read_as, ran_as, previewed_as};

use births::start_anew;
use capi_values::{counts_by, sheet_by};
use compile::compile_arrays;
use image_read::read_script;
use image_write::write_script;
use memory::{BLOCKS, Births, BlockWords, CommandWords, Counts, NodeWords, Values};
use model::{BlockNo, Loader, Refusal, refusal_in};
use parse::parse_arrays;
use preview::preview_arrays;
use reclaim::reclaim;
use runner::run;
use shop::{Codes, SLOTS};
use shop_with_slots::with_slots;

// The refusal or 0, the kept counts of the script and the count of its accepted compiles; all counts are 0 where a read is refused.
#[repr(C)]
#[derive(Clone, Copy)]
pub struct Kept {
    pub refusal: u8,
    pub nodes: u16,
    pub commands: u16,
    pub blocks: u16,
    pub compiles: u32,
}

// The refusal or 0, and the length of the image in bytes.
#[repr(C)]
#[derive(Clone, Copy)]
pub struct Written {
    pub refusal: u8,
    pub len: usize,
}

// The refusal or 0, the pair of each slot, and what variable 0 ends as.
#[repr(C)]
#[derive(Clone, Copy)]
pub struct Previewed {
    pub refusal: u8,
    pub items: [i32; SLOTS],
    pub counts: [i32; SLOTS],
    pub temp: i32,
}

// The refusal or 0, and the count of blocks entered.
#[repr(C)]
#[derive(Clone, Copy)]
pub struct Ran {
    pub refusal: u8,
    pub entered: u32,
}

// Every number is a loader: 0 the disc, any other the demo.
fn loader_by(number: u8) -> Loader
    ensures { result ≡ loader_by number }
{
    match number {
        0 => Loader::Disc,
        _ => Loader::Demo,
    }
}

fn kept_by(refusal: u8, counts: Counts, compiles: u32) -> Kept
    ensures { result ≡ record { refusal = refusal; nodes = counts.nodes; commands = counts.commands; blocks = counts.blocks; compiles = compiles } }
{
    Kept {
        refusal: refusal,
        nodes: counts.nodes,
        commands: counts.commands,
        blocks: counts.blocks,
        compiles: compiles,
    }
}

// Refused, each pair is 0 and variable 0 is as the save has it.
fn previewed_by(answer: Result<preview::Previewed, Refusal>, vars: &[i32]) -> Previewed
    ensures { previewed_as result ≡ answer_in (get_or vars.now 0 (pos 0)) answer }
{
    match answer {
        Ok(p) => {
            let (items, counts) = (p.items, p.counts);
            Previewed {
                refusal: 0,
                items: items,
                counts: counts,
                temp: p.temp,
            }
        }
        Err(e) => Previewed {
            refusal: e.number(),
            items: [0; SLOTS],
            counts: [0; SLOTS],
            temp: vars.first().copied().unwrap_or(0),
        },
    }
}

// The script of an image. A refused read hands out nothing: the arrays are zero then. An image carries no birth marks, so these and the count of compiles are 0 either way (02, A.2).
pub fn lk_read(
    bytes: &[u8],
    ws: &mut NodeWords,
    val: &mut Values,
    cw: &mut CommandWords,
    bw: &mut BlockWords,
    births: &mut Births,
) -> Kept
    ensures { (read_as result ws.new val.new cw.new bw.new ≡ read_into (empty_in ws.old val.old cw.old bw.old) (read_image bytes.now)) × (births.new ≡ replicate block_limit 0) × (result.compiles ≡ 0) }
{
    start_anew(births);
    match read_script(bytes, 0, ws, val, cw, bw) {
        Ok(counts) => kept_by(0, counts, 0),
        Err(e) => kept_by(e.number(), counts_by(0, 0, 0), 0),
    }
}

// The image of a script into a slice. Refused, the slice stays as it was.
pub fn lk_write(
    ws: &NodeWords,
    val: &Values,
    cw: &CommandWords,
    bw: &BlockWords,
    nodes: u16,
    commands: u16,
    blocks: u16,
    out: &mut [u8],
) -> Written
    ensures { (wrote result.refusal out.new ≡ write_in (memory_of ws.now val.now cw.now bw.now (counts_by nodes commands blocks)) out.old) × (result.len ≡ length_in (memory_of ws.now val.now cw.now bw.now (counts_by nodes commands blocks)) out.old) }
{
    let counts = counts_by(nodes, commands, blocks);
    match write_script(ws, val, cw, bw, counts, out) {
        Ok(len) => Written {
            refusal: 0,
            len: len,
        },
        Err(e) => Written {
            refusal: e.number(),
            len: 0,
        },
    }
}

// Runs the blocks from start on, with the variables in vars. Refused by 1 to 12 it enters no block and writes nothing.
pub fn lk_run(
    attached: &[u8],
    atcs: u16,
    timer5: u16,
    timer10: u16,
    timer15: u16,
    ws: &NodeWords,
    val: &Values,
    cw: &CommandWords,
    bw: &BlockWords,
    nodes: u16,
    commands: u16,
    blocks: u16,
    start: u32,
    items: &[i16],
    held: &[u8],
    flags: &[u8],
    times: &[i16],
    vars: &mut [i32],
    budget: u32,
) -> Ran
    ensures { ran_as result vars.new ≡ run_in (sheet_of attached.now (sheet_by atcs timer5 timer10 timer15)) (memory_of ws.now val.now cw.now bw.now (counts_by nodes commands blocks)) start (save_of items.now held.now flags.now times.now vars.old) budget }
{
    let sheet = sheet_by(atcs, timer5, timer10, timer15);
    let counts = counts_by(nodes, commands, blocks);
    let r = run(
        attached,
        sheet,
        ws,
        val,
        cw,
        bw,
        counts,
        BlockNo(start),
        items,
        held,
        flags,
        times,
        vars,
        budget,
    );
    Ran {
        refusal: refusal_in(r.outcome),
        entered: r.entered,
    }
}

// Compiles the shop that the arrays stand for and links it at block setup, for the disc where loader is 0, else for the demo. The blocks that it appends bear the new count of compiles. Refused, nothing is written and the counts are those handed in.
pub fn lk_compile(
    attached: &[u8],
    atcs: u16,
    timer5: u16,
    timer10: u16,
    timer15: u16,
    ws: &mut NodeWords,
    val: &mut Values,
    cw: &mut CommandWords,
    bw: &mut BlockWords,
    births: &mut Births,
    nodes: u16,
    commands: u16,
    blocks: u16,
    compiles: u32,
    loader: u8,
    setup: u32,
    items: &[i32; SLOTS],
    limits: &[i16; SLOTS],
    codes: &Codes,
    lens: &[u8; SLOTS],
) -> Kept
    ensures { CompiledAs (sheet_of attached.now (sheet_by atcs timer5 timer10 timer15)) (born_of ws.old val.old cw.old bw.old (counts_by nodes commands blocks) births.old compiles) (call_of (loader_by loader) setup (shop_from (arrays_in items.now limits.now codes.now lens.now))) result.refusal (born_of ws.new val.new cw.new bw.new (counts_in result) births.new result.compiles) }
{
    let sheet = sheet_by(atcs, timer5, timer10, timer15);
    let counts = counts_by(nodes, commands, blocks);
    let r = compile_arrays(
        attached,
        sheet,
        ws,
        val,
        cw,
        bw,
        births,
        counts,
        compiles,
        loader_by(loader),
        BlockNo(setup),
        items,
        limits,
        codes,
        lens,
    );
    match r {
        Ok(c) => kept_by(0, c.counts, c.compiles),
        Err(e) => kept_by(e.number(), counts, compiles),
    }
}

// Takes back the blocks that no root reaches by next, else and command targets: the others keep their order and get the numbers from 0 on,
// links and birth marks follow them, and moved tells for each old block its new number and 1, or 0. The count of compiles is kept. Refused, nothing is written and the counts are those handed in.
pub fn lk_reclaim(
    ws: &mut NodeWords,
    val: &mut Values,
    cw: &mut CommandWords,
    bw: &mut BlockWords,
    births: &mut Births,
    nodes: u16,
    commands: u16,
    blocks: u16,
    compiles: u32,
    roots: &[u32],
    moved: &mut [u16; BLOCKS],
) -> Kept
    ensures { ReclaimedAs (born_of ws.old val.old cw.old bw.old (counts_by nodes commands blocks) births.old compiles) roots.now moved.old result.refusal (born_of ws.new val.new cw.new bw.new (counts_in result) births.new result.compiles) moved.new }
{
    let counts = counts_by(nodes, commands, blocks);
    match reclaim(ws, val, cw, bw, births, counts, roots, moved) {
        Ok(left) => kept_by(0, left, compiles),
        Err(e) => kept_by(e.number(), counts, compiles),
    }
}

// The arrays of a shop from any number of slots, each with a row of codes. As many slots are given as there are items; what another slice
// lacks of them is 0. Slots past the twentieth are dropped unchecked, missing ones are empty.
pub fn lk_with_slots(
    items: &[i32],
    limits: &[i16],
    codes: &[u64],
    lens: &[u8],
    to_items: &mut [i32; SLOTS],
    to_limits: &mut [i16; SLOTS],
    to_codes: &mut Codes,
    to_lens: &mut [u8; SLOTS],
)
    ensures { arrays_in to_items.new to_limits.new to_codes.new to_lens.new ≡ twenty (arrays_in items.now limits.now codes.now lens.now) }
{
    with_slots(
        items, limits, codes, lens, to_items, to_limits, to_codes, to_lens,
    );
}

// The shop that starts at block setup, into the arrays; refused, those of an empty shop.
pub fn lk_parse(
    attached: &[u8],
    atcs: u16,
    timer5: u16,
    timer10: u16,
    timer15: u16,
    ws: &NodeWords,
    val: &Values,
    cw: &CommandWords,
    bw: &BlockWords,
    nodes: u16,
    commands: u16,
    blocks: u16,
    setup: u32,
    items: &mut [i32; SLOTS],
    limits: &mut [i16; SLOTS],
    codes: &mut Codes,
    lens: &mut [u8; SLOTS],
) -> u8
    ensures { ParsedInto (parse_in (sheet_of attached.now (sheet_by atcs timer5 timer10 timer15)) (memory_of ws.now val.now cw.now bw.now (counts_by nodes commands blocks)) setup) result (arrays_in items.new limits.new codes.new lens.new) }
{
    let sheet = sheet_by(atcs, timer5, timer10, timer15);
    let counts = counts_by(nodes, commands, blocks);
    let answer = parse_arrays(
        attached,
        sheet,
        ws,
        val,
        cw,
        bw,
        counts,
        BlockNo(setup),
        items,
        limits,
        codes,
        lens,
    );
    refusal_in(answer)
}

// What the shop that the arrays stand for means under a save.
pub fn lk_preview(
    attached: &[u8],
    atcs: u16,
    timer5: u16,
    timer10: u16,
    timer15: u16,
    items: &[i32; SLOTS],
    limits: &[i16; SLOTS],
    codes: &Codes,
    lens: &[u8; SLOTS],
    counts: &[i16],
    held: &[u8],
    flags: &[u8],
    times: &[i16],
    vars: &[i32],
) -> Previewed
    ensures { previewed_as result ≡ previewed_of (preview_call (sheet_of attached.now (sheet_by atcs timer5 timer10 timer15)) (slots_of (shop_from (arrays_in items.now limits.now codes.now lens.now))) (save_of counts.now held.now flags.now times.now vars.now)) }
{
    let sheet = sheet_by(atcs, timer5, timer10, timer15);
    let r = preview_arrays(
        attached, sheet, items, limits, codes, lens, counts, held, flags, times, vars,
    );
    previewed_by(r, vars)
}
