// The call parse: its checks in 01's order, then the walk from the setup block and the slots that it read.
#![tactic(auto)]

ghost use Rattle.model.specs.RecordCalls.{parse_in};
ghost use Rattle.model.specs.Refusals.{refusal_in};
ghost use Rattle.memory.specs.View.{memory_of};
ghost use Rattle.shop.specs.Shapes.{sheet_of};
ghost use Rattle.shop_arrays.specs.Arrays.{arrays_in};
ghost use Rattle.parse.specs.Answer.{HandedOut, ParsedInto};

use checks::check_call;
use memory::{BlockWords, CommandWords, Counts, NodeWords, Values};
use model::{BlockNo, Refusal};
use parse_keys::Known;
use parse_visit::Given;
use parse_walk::walk;
use shop::{CODES, Codes, SLOTS, Sheet, Shop};
use shop_arrays::{clear_arrays, shop_from};

// As ShopParser::parse, from the block with the number setup on, into the arrays; refused, they are those of the empty shop.
pub fn parse_arrays(
    attached: &[u8],
    sheet: Sheet,
    ws: &NodeWords,
    val: &Values,
    cw: &CommandWords,
    bw: &BlockWords,
    counts: Counts,
    setup: BlockNo,
    items: &mut [i32; SLOTS],
    limits: &mut [i16; SLOTS],
    codes: &mut Codes,
    lens: &mut [u8; SLOTS],
) -> Result<(), Refusal>
    ensures { ParsedInto (parse_in (sheet_of attached.now sheet) (memory_of ws.now val.now cw.now bw.now counts) setup.0) (refusal_in result) (arrays_in items.new limits.new codes.new lens.new) }
{
    clear_arrays(items, limits, codes, lens);
    check_call(attached, sheet, ws, val, cw, bw, counts, setup)?;
    let known = Known {
        items: attached.len() as u16,
        atcs: sheet.atcs,
    };
    let given = Given { counts, known };
    let outcome = walk(ws, val, cw, bw, items, limits, codes, lens, given, setup);
    if outcome.is_err() {
        clear_arrays(items, limits, codes, lens);
    }
    outcome
}

// The same as a value; refused, it hands out no shop.
pub fn parse(
    attached: &[u8],
    sheet: Sheet,
    ws: &NodeWords,
    val: &Values,
    cw: &CommandWords,
    bw: &BlockWords,
    counts: Counts,
    setup: BlockNo,
) -> Result<Shop, Refusal>
    ensures { HandedOut (parse_in (sheet_of attached.now sheet) (memory_of ws.now val.now cw.now bw.now counts) setup.0) result }
{
    let mut items = [-1; SLOTS];
    let mut limits = [0; SLOTS];
    let mut codes = [0; CODES];
    let mut lens = [0; SLOTS];
    parse_arrays(
        attached,
        sheet,
        ws,
        val,
        cw,
        bw,
        counts,
        setup,
        &mut items,
        &mut limits,
        &mut codes,
        &mut lens,
    )?;
    Ok(shop_from(&items, &limits, &codes, &lens))
}
