// Replays recorded answers of the original through the proved calls, and says how many are as recorded. rust/record/src/format.rs has the file's form.
#![tactic(auto)]

ghost use Rattle.std.specs.Prelude.{◌≡◌, ◌+◌, ◌≤◌, ◌<◌, IfSome};
ghost use Rattle.model.specs.Limits.{wide16};
ghost use Rattle.replay.specs.Tally.{Fair, one};

use births::start_anew;
use compile::compile;
use image_numbers::read_number;
use image_read::read_script;
use image_write::write_script;
use memory::{
    BLOCK_WORDS, BLOCKS, Births, BlockWords, COMMAND_WORDS, CommandWords, Counts, NODE_WORDS,
    NODES, NodeWords, Values,
};
use model::{BlockNo, ItemId, Loader, Refusal, WIDE, WIDE16, refusal_in};
use shop::{ENTRIES, Row, Sheet, Shop, Slot, empty_shop, with_slot};
use slots_sheet::read_heading;

// The standard input.
const STDIN: i32 = 0;

// The standard output.
const STDOUT: i32 = 1;

// The room for the whole input.
const ROOM: usize = 655360;

// A script that was read, with its sheet.
#[derive(Clone, Copy)]
struct Before {
    items: usize,
    sheet: Sheet,
    counts: Counts,
}

// How far a list of compiles is: the counts of the script and of its accepted compiles, and whether all answers so far are as recorded.
#[derive(Clone, Copy)]
struct Listed {
    counts: Counts,
    compiles: u32,
    same: bool,
}

// Whether a case is as recorded, and how many compiles it has.
#[derive(Clone, Copy)]
struct Case {
    same: bool,
    compiles: u64,
}

// Over cases: how many, how many of them as recorded, the first that is not, and all compiles.
#[derive(Clone, Copy)]
struct Tally {
    cases: u64,
    same: u64,
    first: Option<u64>,
    compiles: u64,
}

fn main() {
    let mut room = [0u8; ROOM];
    read_input(&mut room);
}

// An input that fills the room may be longer than it.
fn read_input(room: &mut [u8; ROOM]) {
    let n = io::read_full(STDIN, room);
    if room.len() <= n {
        put(b"malformed\n");
        return;
    }
    match replay(&room[..n]) {
        Some((parses, lists)) => {
            parse_line(parses);
            compile_line(lists);
        }
        None => put(b"malformed\n"),
    }
}

// The tallies of both kinds of cases; none where something is malformed or bytes are left over.
fn replay(s: &[u8]) -> Option<(Tally, Tally)> {
    let (parses, at) = parse_cases(s)?;
    let (lists, at) = compile_lists(s, at)?;
    if at == s.len() {
        Some((parses, lists))
    } else {
        None
    }
}

// ---- numbers and runs

// A number of at most most and the place after it.
fn number_at(s: &[u8], at: usize, most: u64) -> Option<(u64, usize)>
    ensures { IfSome result (λ x. x.0 ≤ most) }
{
    let (value, after) = read_number(s, at, WIDE)?;
    if value <= most {
        Some((value, after))
    } else {
        None
    }
}

// The bytes of a run and the place after it.
fn run_at(s: &[u8], at: usize) -> Option<(&[u8], usize)> {
    let (len, from) = number_at(s, at, ROOM as u64)?;
    let end = from.checked_add(len as usize)?;
    Some((s.get(from..end)?, end))
}

// ---- parse cases

fn parse_cases(s: &[u8]) -> Option<(Tally, usize)> {
    let (n, mut at) = number_at(s, 0, 1000000)?;
    let mut t = no_cases();
    for _ in 0..n {
        let (case, after) = parse_case(s, at)?;
        t = tallied(t, case);
        at = after;
    }
    Some((t, at))
}

// An input of the program slots, and what it prints.
fn parse_case(s: &[u8], at: usize) -> Option<(Case, usize)>
    ensures { IfSome result (λ x. x.0.compiles ≤ 1000) }
{
    let (input, at) = run_at(s, at)?;
    let (text, at) = run_at(s, at)?;
    let case = Case {
        same: prints(input, text),
        compiles: 0,
    };
    Some((case, at))
}

fn prints(input: &[u8], text: &[u8]) -> bool {
    let mut out = [0u8; 16384];
    let m = slots_print::slots(input, &mut out);
    &out[..m] == text
}

// ---- lists of compiles

// The large arrays are made here and lent.
fn compile_lists(s: &[u8], at: usize) -> Option<(Tally, usize)> {
    let mut ws = [0u16; NODE_WORDS];
    let mut val = [0i32; NODES];
    let mut cw = [0u16; COMMAND_WORDS];
    let mut bw = [0u16; BLOCK_WORDS];
    let mut births = [0u32; BLOCKS];
    all_lists(s, at, &mut ws, &mut val, &mut cw, &mut bw, &mut births)
}

fn all_lists(
    s: &[u8],
    at: usize,
    ws: &mut NodeWords,
    val: &mut Values,
    cw: &mut CommandWords,
    bw: &mut BlockWords,
    births: &mut Births,
) -> Option<(Tally, usize)> {
    let (n, mut at) = number_at(s, at, 1000000)?;
    let mut t = no_cases();
    for _ in 0..n {
        let (case, after) = compile_list(s, at, ws, val, cw, bw, births)?;
        t = tallied(t, case);
        at = after;
    }
    Some((t, at))
}

// The script before, the compiles with their answers, the image after. A script that is refused is not as recorded.
fn compile_list(
    s: &[u8],
    at: usize,
    ws: &mut NodeWords,
    val: &mut Values,
    cw: &mut CommandWords,
    bw: &mut BlockWords,
    births: &mut Births,
) -> Option<(Case, usize)>
    ensures { IfSome result (λ x. x.0.compiles ≤ 1000) }
{
    let mut attached = [0u8; 512];
    let (run, at) = run_at(s, at)?;
    let read = before_list(run, &mut attached, ws, val, cw, bw);
    start_anew(births);
    let (n, at) = number_at(s, at, 1000)?;
    let before = read.unwrap_or(nothing());
    let start = Listed {
        counts: before.counts,
        compiles: 0,
        same: read.is_ok(),
    };
    let items = attached.get(..before.items)?;
    let (listed, at) = compiles(
        s,
        at,
        n,
        items,
        before.sheet,
        start,
        ws,
        val,
        cw,
        bw,
        births,
    )?;
    let (after, at) = run_at(s, at)?;
    let case = Case {
        same: listed.same && writes(after, ws, val, cw, bw, listed.counts),
        compiles: n,
    };
    Some((case, at))
}

// Sheet and script from an input of the program slots.
fn before_list(
    run: &[u8],
    attached: &mut [u8; 512],
    ws: &mut NodeWords,
    val: &mut Values,
    cw: &mut CommandWords,
    bw: &mut BlockWords,
) -> Result<Before, Refusal> {
    let heading = read_heading(run, attached)?;
    let counts = read_script(run, heading.at, ws, val, cw, bw)?;
    Ok(Before {
        items: usize::from(heading.items),
        sheet: heading.sheet,
        counts: counts,
    })
}

fn nothing() -> Before {
    Before {
        items: 0,
        sheet: Sheet {
            atcs: 0,
            timer5: ItemId(0),
            timer10: ItemId(0),
            timer15: ItemId(0),
        },
        counts: Counts {
            nodes: 0,
            commands: 0,
            blocks: 0,
        },
    }
}

fn compiles(
    s: &[u8],
    at: usize,
    n: u64,
    attached: &[u8],
    sheet: Sheet,
    start: Listed,
    ws: &mut NodeWords,
    val: &mut Values,
    cw: &mut CommandWords,
    bw: &mut BlockWords,
    births: &mut Births,
) -> Option<(Listed, usize)> {
    let mut t = start;
    let mut place = at;
    for _ in 0..n {
        let (next, after) = one_compile(s, place, attached, sheet, t, ws, val, cw, bw, births)?;
        t = next;
        place = after;
    }
    Some((t, place))
}

// Setup number, shop, answer. Recorded compiles are for the disc.
fn one_compile(
    s: &[u8],
    at: usize,
    attached: &[u8],
    sheet: Sheet,
    t: Listed,
    ws: &mut NodeWords,
    val: &mut Values,
    cw: &mut CommandWords,
    bw: &mut BlockWords,
    births: &mut Births,
) -> Option<(Listed, usize)> {
    let (setup, at) = number_at(s, at, WIDE - 1)?;
    let (shop, at) = shop_at(s, at)?;
    let (answer, at) = number_at(s, at, 255)?;
    let start = BlockNo(setup as u32);
    let done = compile(
        attached,
        sheet,
        ws,
        val,
        cw,
        bw,
        births,
        t.counts,
        t.compiles,
        Loader::Disc,
        start,
        shop,
    );
    let same = t.same && u64::from(refusal_in(done.map(|_| ()))) == answer;
    let listed = match done {
        Ok(c) => Listed {
            counts: c.counts,
            compiles: c.compiles,
            same: same,
        },
        Err(_) => Listed {
            counts: t.counts,
            compiles: t.compiles,
            same: same,
        },
    };
    Some((listed, at))
}

fn writes(
    image: &[u8],
    ws: &NodeWords,
    val: &Values,
    cw: &CommandWords,
    bw: &BlockWords,
    counts: Counts,
) -> bool {
    let mut out = [0u8; 131072];
    match write_script(ws, val, cw, bw, counts, &mut out) {
        Ok(len) => out.get(..len) == Some(image),
        Err(_) => false,
    }
}

// ---- a shop

// A slot past the last is dropped, as the original does.
fn shop_at(s: &[u8], at: usize) -> Option<(Shop, usize)> {
    let (n, mut at) = number_at(s, at, 255)?;
    let mut shop = empty_shop();
    for i in 0..n as usize {
        let (slot, after) = slot_at(s, at)?;
        shop = with_slot(shop, i, slot);
        at = after;
    }
    Some((shop, at))
}

// Item + 1 or 0 for none, limit, how many entries, and those.
fn slot_at(s: &[u8], at: usize) -> Option<(Slot, usize)> {
    let (item, at) = number_at(s, at, WIDE16)?;
    let (limit, at) = number_at(s, at, WIDE16 - 1)?;
    let (n, at) = number_at(s, at, 255)?;
    let (codes, at) = entries_at(s, at, n as usize)?;
    let slot = Slot {
        item: item_of(item),
        limit: limit_of(limit),
        requirements: codes,
        len: n as u8,
    };
    Some((slot, at))
}

fn item_of(x: u64) -> Option<ItemId>
    requires { x ≤ wide16 }
{
    if x == 0 {
        return None;
    }
    Some(ItemId((x - 1) as u16))
}

// A signed number is twice itself, or twice what it is below 0, less one.
fn limit_of(x: u64) -> i16
    requires { x ≤ 65535 }
{
    if x % 2 == 0 {
        return ints::from_bits16((x / 2) as u16);
    }
    ints::from_bits16((65535 - x / 2) as u16)
}

// Entries past the array are read and dropped: their number alone has the shop refused.
fn entries_at(s: &[u8], at: usize, n: usize) -> Option<(Row, usize)> {
    let mut codes: Row = [0; ENTRIES];
    let mut place = at;
    for i in 0..n {
        let (kind, after) = number_at(s, place, 5)?;
        let (x, after) = number_at(s, after, WIDE - 1)?;
        if let Some(code) = codes.get_mut(i) {
            *code = code_of(kind, x);
        }
        place = after;
    }
    Some((codes, place))
}

// Kind * 2^32 + number + 2^31.
fn code_of(kind: u64, x: u64) -> u64
    requires { (kind ≤ 5) × (x ≤ 4294967295) }
{
    if x % 2 == 0 {
        return kind * 4294967296 + 2147483648 + x / 2;
    }
    kind * 4294967296 + 2147483647 - x / 2
}

// ---- tallies

fn no_cases() -> Tally
    ensures { Fair 0 result }
{
    Tally {
        cases: 0,
        same: 0,
        first: None,
        compiles: 0,
    }
}

fn tallied(t: Tally, case: Case) -> Tally
    requires { (t.cases < 1000000) × Fair t.cases t × (case.compiles ≤ 1000) }
    ensures { Fair (t.cases + 1) result × (result.same ≡ t.same + one case.same) }
{
    let cases = t.cases + 1;
    let first = if case.same { None } else { Some(cases) };
    Tally {
        cases: cases,
        same: t.same + u64::from(case.same),
        first: t.first.or(first),
        compiles: t.compiles + case.compiles,
    }
}

// ---- text

fn parse_line(t: Tally) {
    put(b"parse: ");
    counted(t.cases, b" cases, ");
    agreed(t);
}

fn compile_line(t: Tally) {
    put(b"compile: ");
    counted(t.cases, b" lists, ");
    counted(t.compiles, b" compiles, ");
    agreed(t);
}

fn agreed(t: Tally) {
    counted(t.same, b" as recorded");
    if let Some(first) = t.first {
        put(b", the first that differs is ");
        io::print_decimal(STDOUT, first);
    }
    put(b"\n");
}

fn counted(n: u64, what: &[u8]) {
    io::print_decimal(STDOUT, n);
    put(what);
}

fn put(s: &[u8]) {
    io::write_all(STDOUT, s);
}
