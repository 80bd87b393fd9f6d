// The checks that several calls share: 1, 2 to 5, 6 and 7 of a record and a setup block, 12 of a save.
#![tactic(auto)]

ghost use Rattle.std.specs.Prelude.{◌≡◌, true, ◌≤◌};
ghost use Rattle.std.specs.Int.{w16, w32};
ghost use Rattle.model.specs.Limits.{block_limit};
ghost use Rattle.model.specs.Signed.{in_range};
ghost use Rattle.model.specs.Sheet.{all, is_count, is_bit, save_ok};
ghost use Rattle.model.specs.Judge.{setup_refusal};
ghost use Rattle.model.specs.Memory.{Coded, script_of};
ghost use Rattle.shop.specs.Shapes.{sheet_of};
ghost use Rattle.model.specs.RecordCalls.{call_in, record_refusal};
ghost use Rattle.model.specs.Refusals.{refusal_in};
ghost use Rattle.memory.specs.View.{memory_of};
ghost use Rattle.checks.specs.Calls.{save_of, blocks_over};

use judge_plain::is_plain;
use judge_record::judge_record;
use memory::{BlockWords, CommandWords, Counts, NodeWords, Values};
use model::{BlockNo, FLAGS, Refusal, TIMES, VARIABLES};
use shop::{Sheet, check_sheet};

// Each item's count is 0 to 32,767; no number of 16 bits is above that.
pub fn counts_ok(items: &[i16]) -> bool
    ensures { result ≡ all is_count items.now }
{
    items.iter().all(|x| *x >= 0)
}

// Each is 0 or 1. The largest is taken first: without a way out of the loop it goes over many at a time, with a fold a third faster than with `max()`.
pub fn bits_ok(bits: &[u8]) -> bool
    ensures { result ≡ all is_bit bits.now }
{
    bits.iter().fold(0, |most: u8, x| most.max(*x)) <= 1
}

// Reading a number tells that it is one of 16 bits, and so of all of them. Nothing is computed: the compiled loop is empty.
pub fn shorts_known(list: &[i16])
    ensures { all (in_range w16) list.now ≡ true }
{
    for &_x in list {}
}

// The same of 32 bits. The two stay apart: the fact that each is there for names the width.
pub fn numbers_known(list: &[i32])
    ensures { all (in_range w32) list.now ≡ true }
{
    for &_x in list {}
}

// Check 12: lengths and values. Times and variables are numbers of 16 and 32 bits by their types.
pub fn check_save(
    attached: &[u8],
    sheet: Sheet,
    items: &[i16],
    atcs: &[u8],
    flags: &[u8],
    times: &[i16],
    vars: &[i32],
) -> bool
    ensures { result ≡ save_ok (sheet_of attached.now sheet) (save_of items.now atcs.now flags.now times.now vars.now) }
{
    shorts_known(times);
    numbers_known(vars);
    items.len() == attached.len()
        && counts_ok(items)
        && atcs.len() == usize::from(sheet.atcs)
        && bits_ok(atcs)
        && flags.len() == FLAGS
        && bits_ok(flags)
        && times.len() == TIMES
        && vars.len() == VARIABLES
}

// Checks 6 and 7.
fn check_setup(bw: &BlockWords, blocks: u16, start: BlockNo) -> Result<(), Refusal>
    requires { blocks ≤ block_limit }
    ensures { (co : Coded) → refusal_in result ≡ setup_refusal (script_of (blocks_over co bw.now blocks)) start.0 }
{
    let b = start.0;
    if b >= u32::from(blocks) {
        return Err(Refusal::NotBlock);
    }
    if bw[5 * (b as usize)] != 1 {
        return Err(Refusal::NotCode);
    }
    Ok(())
}

// ---- the call

// Checks 2 to 5. Most records are plainly fine; the others are judged.
pub fn check_record(
    ws: &NodeWords,
    val: &Values,
    cw: &CommandWords,
    bw: &BlockWords,
    counts: Counts,
) -> Result<(), Refusal>
    ensures { refusal_in result ≡ record_refusal (memory_of ws.now val.now cw.now bw.now counts) }
{
    if is_plain(ws, val, cw, bw, counts) {
        return Ok(());
    }
    judge_record(ws, val, cw, bw, counts)?;
    Ok(())
}

// Checks 1, 2 to 5, 6 and 7, in this order: the first that refuses says why.
pub fn check_call(
    attached: &[u8],
    sheet: Sheet,
    ws: &NodeWords,
    val: &Values,
    cw: &CommandWords,
    bw: &BlockWords,
    counts: Counts,
    start: BlockNo,
) -> Result<(), Refusal>
    ensures { refusal_in result ≡ call_in (sheet_of attached.now sheet) (memory_of ws.now val.now cw.now bw.now counts) start.0 }
{
    if !check_sheet(attached, sheet) {
        return Err(Refusal::BadSheet);
    }
    check_record(ws, val, cw, bw, counts)?;
    check_setup(bw, counts.blocks, start)
}
