// What the blocks of a shop take of a script, counted before anything is written, and checks 9 and 19.
#![tactic(auto)]

ghost use Rattle.std.specs.Prelude.{◌≡◌, ◌+◌, ◌≤◌, ◌<◌, map, length};
ghost use Rattle.model.specs.Limits.{entry_limit, slot_count, wide16};
ghost use Rattle.model.specs.Refusals.{refusal_in};
ghost use Rattle.model.specs.Script.{Script};
ghost use Rattle.model.specs.Compile.{shop_blocks, limits_of, room_refusal};
ghost use Rattle.shop_codes.specs.Codes.{requirement_of};
ghost use Rattle.shop.specs.Shapes.{timer_is, sheet_of, slot_of, slots_of};
ghost use Rattle.shop.specs.Sets.{AllExact, Exact};
ghost use Rattle.shop_arrays.specs.Arrays.{arrays_in, slot_at, shop_from};
ghost use Rattle.compile_sizes.specs.Room.{limits_in, within};
ghost use Rattle.compile_sizes.specs.Sizes.{AtMost, test_nodes, tests_nodes, tests_most, acquired_nodes, sized, plus, sold_size, enable_size, unique_size, limit_size, slot_size, shop_size};

use memory::{BLOCKS, COMMANDS, Counts, NODES};
use model::{Loader, Refusal};
use shop::{Codes, ENTRIES, SLOTS, Sheet, Timer, limit_of, timer_of};
use shop_arrays::{item_at, sort_row};
use shop_codes::{Subject, is_missing, subject_of};

const BLOCK_LIMIT: u32 = BLOCKS as u32;

const COMMAND_LIMIT: u32 = COMMANDS as u32;

const NODE_LIMIT: u32 = NODES as u32;

const DEMO_BLOCKS: u32 = 512;

const DEMO_COMMANDS: u32 = 2048;

// The demo has no limit of nodes: the disc's, which 9 asks, refuses nothing more.
const DEMO_NODES: u32 = NODE_LIMIT;

// What any shop takes at most: the Return block, and for each slot 7 blocks, 14 commands and 43 nodes, with 5 more for each entry (specs/Most).
const MOST_BLOCKS: u32 = 141;

const MOST_COMMANDS: u32 = 281;

const MOST_NODES: u32 = (SLOTS * (43 + 5 * ENTRIES)) as u32;

// What some blocks take, or a loader loads at most: how many they are, and the commands and expression nodes in them.
#[derive(Clone, Copy, Debug, PartialEq, Eq)]
pub struct Size {
    pub blocks: u32,
    pub commands: u32,
    pub nodes: u32,
}

// In this order everywhere: blocks, commands, nodes.
fn sized(blocks: u32, commands: u32, nodes: u32) -> Size
    ensures { result ≡ sized blocks commands nodes }
{
    Size {
        blocks,
        commands,
        nodes,
    }
}

// What two lists of blocks take together.
fn plus(a: Size, b: Size) -> Size
    requires { AtMost a wide16 × AtMost b wide16 }
    ensures { result ≡ plus a b }
{
    Size {
        blocks: a.blocks + b.blocks,
        commands: a.commands + b.commands,
        nodes: a.nodes + b.nodes,
    }
}

// ---- tests

// A requirement's test: flag[f] has two nodes and its negation three; any other compares item[i] or atc[a] with 0.
fn test_nodes(code: u64) -> u32
    ensures { (result ≡ test_nodes (requirement_of code)) × (result ≤ 4) }
{
    match subject_of(code) {
        Subject::Item(_) | Subject::Atc(_) => 4,
        Subject::Flag(_) if is_missing(code) => 3,
        Subject::Flag(_) => 2,
    }
}

// The tests of some codes, each with the node that joins it to what stands before it.
fn tests_nodes(codes: &[u64]) -> u32
    requires { length codes.now ≤ entry_limit }
    ensures { (result ≡ tests_nodes (map requirement_of codes.now)) × (result ≤ tests_most) }
{
    let mut nodes = 0;
    for code in codes {
        nodes += test_nodes(*code) + 1;
    }
    nodes
}

// The acquired test and its negation take the same: a timer's compares its rate too.
fn acquired_nodes(timer: Timer) -> u32
    ensures { (result ≡ acquired_nodes (timer_is timer)) × (result ≤ 9) }
{
    match timer {
        Timer::Plain => 4,
        Timer::Five | Timer::Ten | Timer::Fifteen => 9,
    }
}

// ---- what a slot is compiled to; specs/Sizes has each number as a sum over its blocks

// Limit 1, up to N: D and N, or H, D, E and N. E compares as the acquired test does.
fn sold_size(len: u8, acquired: u32) -> Size
    requires { acquired ≤ 9 }
    ensures { (result ≡ sold_size len acquired) × AtMost result 21 }
{
    if len == 0 {
        sized(2, 5, 8)
    } else {
        sized(4, 9, 12 + acquired)
    }
}

// Above N: D2 and T for Timer5 only, then V, whose condition has so many nodes.
fn enable_size(timer: Timer, condition: u32) -> Size
    requires { condition ≤ 9 + tests_most }
    ensures { (result ≡ enable_size (timer_is timer) condition) × AtMost result (22 + tests_most) }
{
    match timer {
        Timer::Five => sized(3, 5, 13 + condition),
        Timer::Plain | Timer::Ten | Timer::Fifteen => sized(1, 1, condition),
    }
}

// Limit 1: V's condition is the negated acquired test, joined with R.
fn unique_size(timer: Timer, len: u8, tests: u32) -> Size
    requires { tests ≤ tests_most }
    ensures { (result ≡ unique_size (timer_is timer) len tests) × AtMost result 256 }
{
    let acquired = acquired_nodes(timer);
    let sold = sold_size(len, acquired);
    let above = enable_size(timer, acquired + tests);
    plus(sold, above)
}

// Limit above 1: S, Z and M, or H, S, Z, M and If R. The first test of R is joined to nothing.
fn limit_size(len: u8, tests: u32) -> Size
    requires { tests ≤ tests_most }
    ensures { (result ≡ limit_size len tests) × AtMost result 256 }
{
    if len == 0 {
        sized(3, 5, 16)
    } else {
        sized(5, 9, 20 + tests - 1)
    }
}

// The blocks of slot i, whatever the block that it ends at; without an item H alone.
fn slot_size(
    attached: &[u8],
    sheet: Sheet,
    items: &[i32; SLOTS],
    limits: &[i16; SLOTS],
    codes: &Codes,
    lens: &[u8; SLOTS],
    i: usize,
) -> Size
    requires { (i < slot_count) × Exact (slot_at (arrays_in items.now limits.now codes.now lens.now) i) }
    ensures { (result ≡ slot_size (sheet_of attached.now sheet) (slot_of (slot_at (arrays_in items.now limits.now codes.now lens.now) i))) × AtMost result 256 }
{
    let Some(w) = item_at(items, i) else {
        return sized(1, 2, 4);
    };
    let mut set = [0; ENTRIES];
    let len = sort_row(codes, lens, i, &mut set);
    let tests = tests_nodes(&set[..usize::from(len)]);
    if limit_of(attached, sheet, w, limits[i]) <= 1 {
        unique_size(timer_of(sheet, w), len, tests)
    } else {
        limit_size(len, tests)
    }
}

// ---- the shop

// The Return block and all slots.
fn shop_size(
    attached: &[u8],
    sheet: Sheet,
    items: &[i32; SLOTS],
    limits: &[i16; SLOTS],
    codes: &Codes,
    lens: &[u8; SLOTS],
) -> Size
    requires { AllExact (shop_from (arrays_in items.now limits.now codes.now lens.now)) }
    ensures { (result ≡ shop_size (sheet_of attached.now sheet) (slots_of (shop_from (arrays_in items.now limits.now codes.now lens.now)))) × AtMost result wide16 }
{
    let mut total = sized(1, 1, 0);
    for i in (0..SLOTS).rev() {
        let next = slot_size(attached, sheet, items, limits, codes, lens, i);
        total = plus(next, total);
    }
    total
}

// What a loader loads at most.
fn limits_of(loader: Loader) -> Size
    ensures { limits_in result ≡ limits_of loader }
{
    match loader {
        Loader::Disc => Size {
            blocks: BLOCK_LIMIT,
            commands: COMMAND_LIMIT,
            nodes: NODE_LIMIT,
        },
        Loader::Demo => Size {
            blocks: DEMO_BLOCKS,
            commands: DEMO_COMMANDS,
            nodes: DEMO_NODES,
        },
    }
}

// A script with the counts k has room for what takes s, by the limits of a loader.
fn room(most: Size, k: Counts, s: Size) -> bool
    requires { AtMost s wide16 }
    ensures { result ≡ within (limits_in most) k s }
{
    u32::from(k.blocks) + s.blocks <= most.blocks
        && u32::from(k.commands) + s.commands <= most.commands
        && u32::from(k.nodes) + s.nodes <= most.nodes
}

// Checks 9 and 19: the shop's blocks pass no limit of a script with the counts k, first by the disc's limits, then by those of the loader. No loader's limits are above the disc's, so that a shop is counted, once, only where not every shop has room.
pub fn check_room(
    attached: &[u8],
    sheet: Sheet,
    k: Counts,
    loader: Loader,
    items: &[i32; SLOTS],
    limits: &[i16; SLOTS],
    codes: &Codes,
    lens: &[u8; SLOTS],
) -> Result<(), Refusal>
    requires { AllExact (shop_from (arrays_in items.now limits.now codes.now lens.now)) }
    ensures { (sc : Script) → length sc.blocks ≡ k.blocks → sc.commands ≡ k.commands → sc.nodes ≡ k.nodes → refusal_in result ≡ room_refusal loader sc (shop_blocks (sheet_of attached.now sheet) k.blocks (slots_of (shop_from (arrays_in items.now limits.now codes.now lens.now)))) }
{
    let own = limits_of(loader);
    if room(own, k, sized(MOST_BLOCKS, MOST_COMMANDS, MOST_NODES)) {
        return Ok(());
    }
    let s = shop_size(attached, sheet, items, limits, codes, lens);
    let disc = limits_of(Loader::Disc);
    if !room(disc, k, s) {
        return Err(Refusal::NoRoom);
    }
    if !room(own, k, s) {
        return Err(Refusal::DemoFull);
    }
    Ok(())
}
