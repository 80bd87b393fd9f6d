// The numbers of an image: groups of seven bits, the low one first and as few as will do. Reading one, how long one is, writing one; signed ones folded.
#![tactic(auto)]

ghost use Rattle.std.specs.Prelude.{◌≡◌, ◌≤◌, ◌<◌, length, drop};
ghost use Rattle.model.specs.Limits.{wide};
ghost use Rattle.model.specs.Reading.{groups, number, word_to, word, zig, zag, room};
ghost use Rattle.image_numbers.specs.Told.{Told, ShortWord};
ghost use Rattle.image_numbers.specs.Stored.{Stored, Room};

// ---- reading

// A number of at most f groups, and the place after it. A group with the high bit before 0 is not shortest.
fn read_groups(s: &[u8], at: usize, f: u8) -> Option<(u64, usize)>
    requires { f ≤ 5 }
    ensures { Told s.now result (groups f (drop at s.now)) }
{
    if f == 0 || at >= s.len() {
        return None;
    }
    let b = u64::from(s[at]);
    if b < 128 {
        return Some((b, at + 1));
    }
    let (v, p) = read_groups(s, at + 1, f - 1)?;
    if v == 0 {
        return None;
    }
    Some((128 * v + (b - 128), p))
}

// A number below the limit, and the place after it. Five groups hold more than 32 bits: the limit is what makes one too wide.
pub fn read_number(s: &[u8], at: usize, limit: u64) -> Option<(u64, usize)>
    ensures { Told s.now result (number limit (drop at s.now)) }
{
    let (v, p) = read_groups(s, at, 5)?;
    if v < limit { Some((v, p)) } else { None }
}

// ---- signed numbers

// The signed number that v stands for.
pub fn signed(v: u64) -> i32
    requires { v < wide }
    ensures { result ≡ zag v }
{
    let half = (v / 2) as i32;
    if v % 2 == 0 { half } else { -1 - half }
}

// The number that stands for a signed one in an image.
pub fn folded(z: i32) -> u64
    ensures { result ≡ zig z }
{
    if z < 0 {
        2 * (-1 - z) as u64 + 1
    } else {
        2 * z as u64
    }
}

// ---- lengths

// How many groups of seven bits a number takes.
#[tactic(auto, using(crate::specs::Lengths::word_1, crate::specs::Lengths::word_2, crate::specs::Lengths::word_3, crate::specs::Lengths::word_4, crate::specs::Lengths::word_5))]
pub fn word_length(v: u64) -> usize
    requires { v < 34359738368 }
    ensures { result ≡ length (word v) }
{
    if v < 128 {
        return 1;
    }
    if v < 16384 {
        return 2;
    }
    if v < 2097152 {
        return 3;
    }
    if v < 268435456 {
        return 4;
    }
    5
}

// The same for an element of an array: whoever asks learns too that it is short.
pub fn short_length(x: u16) -> usize
    ensures { ShortWord x result }
{
    word_length(u64::from(x))
}

// ---- writing

// The groups of v, low one first, of which there are at most f.
fn write_groups(out: &mut [u8], at: usize, v: u64, f: u8) -> usize
    requires { (v < room f) × (0 < f) × Room out.old at (word_to f v) }
    ensures { Stored out.old at (word_to f v) out.new result }
{
    if v < 128 {
        out[at] = v as u8;
        return at + 1;
    }
    out[at] = (v % 128 + 128) as u8;
    write_groups(out, at + 1, v / 128, f - 1)
}

// Most numbers of an image take one byte, and those take no call.
fn write_word(out: &mut [u8], at: usize, v: u64) -> usize
    requires { (v < 34359738368) × Room out.old at (word v) }
    ensures { Stored out.old at (word v) out.new result }
{
    if v < 128 {
        out[at] = v as u8;
        return at + 1;
    }
    write_groups(out, at, v, 5)
}

// An element of an array: whoever writes it owes no proof that it is short enough.
pub fn write_short(out: &mut [u8], at: usize, x: u16) -> usize
    requires { Room out.old at (word x) }
    ensures { Stored out.old at (word x) out.new result }
{
    write_word(out, at, u64::from(x))
}

// A signed number, folded.
pub fn write_value(out: &mut [u8], at: usize, z: i32) -> usize
    requires { Room out.old at (word (zig z)) }
    ensures { Stored out.old at (word (zig z)) out.new result }
{
    write_word(out, at, folded(z))
}
