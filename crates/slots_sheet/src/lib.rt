// The reader of what stands before an image in the input of slots: the sheet, each number judged as read, and the setup number.
#![tactic(auto)]

ghost use Rattle.std.specs.Prelude.{◌≡◌, ◌≤◌, ◌<◌, length, IfOk};
ghost use Rattle.model.specs.Limits.{most_items, most_atcs, wide16};
ghost use Rattle.slots_sheet.specs.Told.{within, timer, ToldEntry, ToldAtcs, ToldTimers, ToldItems, ToldSetup, ToldHead};
ghost use Rattle.slots_sheet.specs.Outcome.{outcome, read_into, Within};

use image_numbers::read_number;
use model::{ItemId, Refusal, WIDE};
use shop::Sheet;

// In each answer: what was read and the place after it.

#[derive(Clone, Copy)]
struct Timers {
    timer5: u16,
    timer10: u16,
    timer15: u16,
    at: usize,
}

#[derive(Clone, Copy)]
struct Items {
    items: u16,
    atcs: u16,
    at: usize,
}

// Of so many items; their atcs stand in the lent array.
#[derive(Clone, Copy)]
pub struct Heading {
    pub items: u16,
    pub sheet: Sheet,
    pub setup: u32,
    pub at: usize,
}

// ---- numbers

fn read(s: &[u8], at: usize) -> Result<(u64, usize), Refusal>
    ensures { ToldSetup s.now at result }
{
    match read_number(s, at, WIDE) {
        Some(number) => Ok(number),
        None => Err(Refusal::BadImage),
    }
}

// A number from least to most.
fn read_within(s: &[u8], at: usize, least: u64, most: u64) -> Result<(u16, usize), Refusal>
    requires { most < wide16 }
    ensures { ToldEntry s.now at (within least most) result }
{
    let (v, after) = read(s, at)?;
    if v < least || most < v {
        return Err(Refusal::BadSheet);
    }
    Ok((v as u16, after))
}

// An item of n that is neither of two others.
fn read_timer(s: &[u8], at: usize, n: u16, a: u16, b: u16) -> Result<(u16, usize), Refusal>
    ensures { ToldEntry s.now at (timer n a b) result }
{
    let (v, after) = read(s, at)?;
    if u64::from(n) <= v {
        return Err(Refusal::BadSheet);
    }
    let id = v as u16;
    if id == a || id == b {
        return Err(Refusal::BadSheet);
    }
    Ok((id, after))
}

fn read_setup(s: &[u8], at: usize) -> Result<(u32, usize), Refusal>
    ensures { ToldSetup s.now at result }
{
    let (v, after) = read(s, at)?;
    Ok((v as u32, after))
}

// ---- the sheet

// The atc of each of n items: atc + 1, or 0 for none. The place after them.
fn read_atcs(
    s: &[u8],
    at: usize,
    attached: &mut [u8; 512],
    n: u16,
    m: u16,
) -> Result<usize, Refusal>
    requires { (n ≤ most_items) × (m ≤ most_atcs) × (at ≤ length s.now) }
    ensures { ToldAtcs s.now at n m attached.old result attached.new }
{
    let mut place = at;
    for i in 0..usize::from(n) {
        let (entry, after) = read_within(s, place, 0, u64::from(m))?;
        attached[i] = entry as u8;
        place = after;
    }
    Ok(place)
}

// How many items and atcs there are, and the items' atcs.
fn read_items(s: &[u8], attached: &mut [u8; 512]) -> Result<Items, Refusal>
    ensures { ToldItems s.now attached.old result attached.new }
{
    let (items, after) = read_within(s, 0, 3, 512)?;
    let (atcs, after) = read_within(s, after, 0, 64)?;
    let at = read_atcs(s, after, attached, items, atcs)?;
    Ok(Items {
        items: items,
        atcs: atcs,
        at: at,
    })
}

// Three different items of n. The number n stands for no item where nothing is to differ.
fn read_timers(s: &[u8], at: usize, n: u16) -> Result<Timers, Refusal>
    ensures { ToldTimers s.now at n result }
{
    let (five, after) = read_timer(s, at, n, n, n)?;
    let (ten, after) = read_timer(s, after, n, five, n)?;
    let (fifteen, after) = read_timer(s, after, n, five, ten)?;
    Ok(Timers {
        timer5: five,
        timer10: ten,
        timer15: fifteen,
        at: after,
    })
}

// ---- the whole

// Of a refusal nothing is said of the array.
fn read_all(s: &[u8], attached: &mut [u8; 512]) -> Result<Heading, Refusal>
    ensures { ToldHead s.now attached.old result attached.new }
{
    let i = read_items(s, attached)?;
    let t = read_timers(s, i.at, i.items)?;
    let (setup, at) = read_setup(s, t.at)?;
    let sheet = Sheet {
        atcs: i.atcs,
        timer5: ItemId(t.timer5),
        timer10: ItemId(t.timer10),
        timer15: ItemId(t.timer15),
    };
    Ok(Heading {
        items: i.items,
        sheet: sheet,
        setup: setup,
        at: at,
    })
}

// Sheet and setup number. A refused read hands out nothing: the array is zero then.
pub fn read_heading(s: &[u8], attached: &mut [u8; 512]) -> Result<Heading, Refusal>
    ensures read { outcome s.now result attached.new ≡ read_into s.now attached.old }
    ensures within { IfOk result (λ h. Within s.now h attached.new) }
{
    let h = read_all(s, attached);
    if h.is_err() {
        *attached = [0; 512];
    }
    h
}
