// The writer of what stands before an image in the input of slots: the sheet and the setup number, as slots_sheet reads them.
#![tactic(auto)]

ghost use Rattle.std.specs.Prelude.{◌≡◌, ◌+◌, ◌<◌, length, IfOk};
ghost use Rattle.model.specs.Refusals.{refusal_in};
ghost use Rattle.model.specs.Reading.{word};
ghost use Rattle.image_numbers.specs.Stored.{Stored, Room};
ghost use Rattle.image_write.specs.Call.{wrote};
ghost use Rattle.slots_heading.specs.Bytes.{head_by, head_bytes, write_head, head_length};
ghost use Rattle.slots_heading.specs.Steps.{entries_bytes, counts_bytes, timers_bytes, numbers_length};

use image_numbers::{short_length, signed, word_length, write_short, write_value};
use model::Refusal;
use shop::{Sheet, check_sheet};

// A number of 32 bits. Signed ones are written folded, and each such number is the folding of one.
fn write_wide(out: &mut [u8], at: usize, v: u32) -> usize
    requires { Room out.old at (word v) }
    ensures { Stored out.old at (word v) out.new result }
{
    write_value(out, at, signed(u64::from(v)))
}

// For each item its atc + 1, or 0.
fn write_atcs(attached: &[u8], out: &mut [u8], at: usize) -> usize
    requires { Room out.old at (entries_bytes attached.now (length attached.now) 0) }
    ensures { Stored out.old at (entries_bytes attached.now (length attached.now) 0) out.new result }
{
    let mut p = at;
    for entry in attached {
        p = write_short(out, p, u16::from(*entry));
    }
    p
}

// How many items and atcs there are, and the items' atcs.
fn write_items(attached: &[u8], n: u16, atcs: u16, out: &mut [u8]) -> usize
    requires { Room out.old 0 (counts_bytes n atcs attached.now) }
    ensures { Stored out.old 0 (counts_bytes n atcs attached.now) out.new result }
{
    let p = write_short(out, 0, n);
    let q = write_short(out, p, atcs);
    write_atcs(attached, out, q)
}

// The three timers and the setup number.
fn write_timers(sheet: Sheet, setup: u32, out: &mut [u8], at: usize) -> usize
    requires { Room out.old at (timers_bytes sheet setup) }
    ensures { Stored out.old at (timers_bytes sheet setup) out.new result }
{
    let p = write_short(out, at, sheet.timer5.0);
    let q = write_short(out, p, sheet.timer10.0);
    let s = write_short(out, q, sheet.timer15.0);
    write_wide(out, s, setup)
}

// Every number of the sheet, and the setup number.
fn write_numbers(attached: &[u8], n: u16, sheet: Sheet, setup: u32, out: &mut [u8]) -> usize
    requires { (n ≡ length attached.now) × Room out.old 0 (head_bytes (head_by attached.now sheet setup)) }
    ensures { Stored out.old 0 (head_bytes (head_by attached.now sheet setup)) out.new result }
{
    let p = write_items(attached, n, sheet.atcs, out);
    write_timers(sheet, setup, out, p)
}

// How many bytes these are: an item's number is at most 64, so that each takes one.
fn numbers_length(n: u16, sheet: Sheet, setup: u32) -> usize
    ensures { result ≡ numbers_length n sheet setup }
{
    let counts = short_length(n) + short_length(sheet.atcs) + usize::from(n);
    let timers = short_length(sheet.timer5.0)
        + short_length(sheet.timer10.0)
        + short_length(sheet.timer15.0);
    counts + timers + word_length(u64::from(setup))
}

// The sheet is judged first; then 16 where the slice is too short; then it is written. Refused, the slice stays as it was; so do the bytes past the heading.
pub fn write_heading(
    attached: &[u8],
    sheet: Sheet,
    setup: u32,
    out: &mut [u8],
) -> Result<usize, Refusal>
    ensures { (wrote (refusal_in result) out.new ≡ write_head (head_by attached.now sheet setup) out.old) × IfOk result (λ n. n ≡ head_length (head_by attached.now sheet setup) out.old) }
{
    if !check_sheet(attached, sheet) {
        return Err(Refusal::BadSheet);
    }
    let n = attached.len() as u16;
    if out.len() < numbers_length(n, sheet, setup) {
        return Err(Refusal::SliceShort);
    }
    Ok(write_numbers(attached, n, sheet, setup, out))
}
