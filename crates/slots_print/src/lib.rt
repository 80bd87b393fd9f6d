// The program slots from bytes to bytes: it reads the sheet, the setup number and the image, parses, and writes twenty lines or a refusal.
#![tactic(auto)]

ghost use Rattle.std.specs.Prelude.{◌≤◌, length, take};
ghost use Rattle.model.specs.RecordCalls.{parse_in};
ghost use Rattle.model.specs.Printer.{parsed_text};
ghost use Rattle.model.specs.Printer as Printer;
ghost use Rattle.memory.specs.View.{memory_of};
ghost use Rattle.shop.specs.Shapes.{sheet_of};
ghost use Rattle.slots_print.specs.Input.{Headed};
ghost use Rattle.slots_print.specs.Text.{Printed};

use image_read::read_script;
use memory::{
    BLOCK_WORDS, BlockWords, COMMAND_WORDS, CommandWords, Counts, NODE_WORDS, NODES, NodeWords,
    Values,
};
use model::{BlockNo, INPUT, Refusal};
use parse::parse;
use slots_sheet::{Heading, read_heading};
use slots_text::{Text, put_refused, put_slots};

// The text of the shop that a script holds: parsed from the heading's setup block.
fn parsed_text(
    attached: &[u8; 512],
    h: Heading,
    ws: &NodeWords,
    val: &Values,
    cw: &CommandWords,
    bw: &BlockWords,
    counts: Counts,
    out: &mut Text,
) -> usize
    requires { h.items ≤ length attached.now }
    ensures { Printed out.old (parsed_text (parse_in (sheet_of (take h.items attached.now) h.sheet) (memory_of ws.now val.now cw.now bw.now counts) h.setup)) out.new result }
{
    let n = usize::from(h.items);
    match parse(
        &attached[..n],
        h.sheet,
        ws,
        val,
        cw,
        bw,
        counts,
        BlockNo(h.setup),
    ) {
        Ok(shop) => put_slots(out, shop),
        Err(e) => put_refused(out, e.number()),
    }
}

// The image after the heading, read into arrays whose contents do not matter, then its text.
fn image_text(
    input: &[u8],
    attached: &[u8; 512],
    h: Heading,
    ws: &mut NodeWords,
    val: &mut Values,
    cw: &mut CommandWords,
    bw: &mut BlockWords,
    out: &mut Text,
) -> usize
    requires { Headed input.now h attached.now }
    ensures { Printed out.old (Printer.slots input.now) out.new result }
{
    match read_script(input, h.at, ws, val, cw, bw) {
        Ok(counts) => parsed_text(attached, h, ws, val, cw, bw, counts, out),
        Err(e) => put_refused(out, e.number()),
    }
}

// The large arrays are made here and lent.
fn script_text(input: &[u8], attached: &[u8; 512], h: Heading, out: &mut Text) -> usize
    requires { Headed input.now h attached.now }
    ensures { Printed out.old (Printer.slots input.now) out.new result }
{
    let mut ws = [0u16; NODE_WORDS];
    let mut val = [0i32; NODES];
    let mut cw = [0u16; COMMAND_WORDS];
    let mut bw = [0u16; BLOCK_WORDS];
    image_text(input, attached, h, &mut ws, &mut val, &mut cw, &mut bw, out)
}

// What stands before the image is read first; an input past the limit is refused before all else.
fn input_text(input: &[u8], attached: &mut [u8; 512], out: &mut Text) -> usize
    ensures { Printed out.old (Printer.slots input.now) out.new result }
{
    if INPUT < input.len() {
        return put_refused(out, Refusal::OverLimit.number());
    }
    match read_heading(input, attached) {
        Ok(h) => script_text(input, attached, h, out),
        Err(e) => put_refused(out, e.number()),
    }
}

// Writes what the program prints for an input into out, and answers how long that is; the bytes past it stay.
pub fn slots(input: &[u8], out: &mut Text) -> usize
    ensures { Printed out.old (Printer.slots input.now) out.new result }
{
    let mut attached = [0u8; 512];
    input_text(input, &mut attached, out)
}
