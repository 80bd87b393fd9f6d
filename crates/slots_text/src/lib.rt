// The text of the program slots, written into a lent array: decimal numbers, requirements, the line of a slot, twenty lines or a refusal.
#![tactic(auto)]

ghost use Rattle.std.specs.Prelude.{◌≡◌, [], ◌∷◌, ℤ, ◌+◌, ◌<◌, ◌≤◌};
ghost use Rattle.model.specs.Limits.{entry_limit};
ghost use Rattle.model.specs.Printer.{digits_to, decimal, signed_decimal, letter, requirements_text, item_text, slot_line, slot_lines, refused_text};
ghost use Rattle.shop_codes.specs.Codes.{of_kind, requirement_of};
ghost use Rattle.shop.specs.Shapes.{item_of, slot_of, slots_of};
ghost use Rattle.image_numbers.specs.Stored.{Stored};
ghost use Rattle.slots_text.specs.Written.{Space, Wrote, text_limit};
ghost use Rattle.slots_text.specs.Lines.{requirement_text, FewEach};

use model::ItemId;
use shop::{Shop, Slot};
use shop_codes::{kind_of, number_of};

// The printed text of any twenty slots fits into so many bytes.
pub const TEXT: usize = 16384;

pub type Text = [u8; TEXT];

// ---- bytes

fn put_byte(out: &mut Text, at: usize, b: u8) -> usize
    requires { at < text_limit }
    ensures { Stored out.old at (b ∷ []) out.new result }
{
    out[at] = b;
    at + 1
}

fn put_bytes(out: &mut Text, at: usize, s: &[u8]) -> usize
    requires { Space at s.now }
    ensures { Stored out.old at s.now out.new result }
{
    let end = at + s.len();
    out[at..end].copy_from_slice(s);
    end
}

// ---- numbers

fn digit(n: u32) -> u8
    requires { n < 10 }
    ensures { result ≡ 48 + n }
{
    48 + n as u8
}

// At most f digits, the last one last.
fn put_digits(out: &mut Text, at: usize, n: u32, f: u8) -> usize
    requires { Space at (digits_to f n) }
    ensures { Stored out.old at (digits_to f n) out.new result }
{
    if f == 0 {
        return at;
    }
    if n < 10 {
        return put_byte(out, at, digit(n));
    }
    let p = put_digits(out, at, n / 10, f - 1);
    put_byte(out, p, digit(n % 10))
}

fn put_decimal(out: &mut Text, at: usize, n: u32) -> usize
    requires { Space at (decimal n) }
    ensures { Stored out.old at (decimal n) out.new result }
{
    put_digits(out, at, n, 10)
}

fn put_signed(out: &mut Text, at: usize, z: i32) -> usize
    requires { Space at (signed_decimal z) }
    ensures { Stored out.old at (signed_decimal z) out.new result }
{
    let digits = z.unsigned_abs();
    if z < 0 {
        let p = put_byte(out, at, b'-');
        return put_decimal(out, p, digits);
    }
    put_decimal(out, at, digits)
}

// ---- requirements

// Whatever the number is.
fn letter_of(kind: u64) -> u8
    ensures { (z : ℤ) → result ≡ letter (of_kind kind z) }
{
    match kind {
        0 => b'I',
        1 => b'i',
        2 => b'A',
        3 => b'a',
        4 => b'F',
        5 => b'f',
        _ => b'I',
    }
}

fn put_requirement(out: &mut Text, at: usize, code: u64) -> usize
    requires { Space at (requirement_text (requirement_of code)) }
    ensures { Stored out.old at (requirement_text (requirement_of code)) out.new result }
{
    let p = put_byte(out, at, b' ');
    let q = put_byte(out, p, letter_of(kind_of(code)));
    put_signed(out, q, number_of(code))
}

fn put_requirements(out: &mut Text, at: usize, slot: Slot) -> usize
    requires { (slot.len ≤ entry_limit) × Space at (requirements_text (slot_of slot).requirements) }
    ensures { Stored out.old at (requirements_text (slot_of slot).requirements) out.new result }
{
    let mut p = at;
    for code in &slot.requirements[..usize::from(slot.len)] {
        p = put_requirement(out, p, *code);
    }
    p
}

// ---- slots

fn put_item(out: &mut Text, at: usize, item: Option<ItemId>) -> usize
    requires { Space at (item_text (item_of item)) }
    ensures { Stored out.old at (item_text (item_of item)) out.new result }
{
    match item {
        None => put_byte(out, at, b'-'),
        Some(w) => put_decimal(out, at, u32::from(w.0)),
    }
}

// The line of slot i.
fn put_slot(out: &mut Text, at: usize, i: u32, slot: Slot) -> usize
    requires { (slot.len ≤ entry_limit) × Space at (slot_line i (slot_of slot)) }
    ensures { Stored out.old at (slot_line i (slot_of slot)) out.new result }
{
    let p1 = put_decimal(out, at, i);
    let p2 = put_byte(out, p1, b' ');
    let p3 = put_item(out, p2, slot.item);
    let p4 = put_byte(out, p3, b' ');
    let p5 = put_signed(out, p4, i32::from(slot.limit));
    let p6 = put_requirements(out, p5, slot);
    put_byte(out, p6, b'\n')
}

// The answer of slots: twenty lines.
pub fn put_slots(out: &mut Text, shop: Shop) -> usize
    requires { FewEach shop }
    ensures { Wrote out.old (slot_lines 0 (slots_of shop)) out.new result }
{
    let mut p = 0;
    for (i, slot) in shop.slots.iter().enumerate() {
        p = put_slot(out, p, i as u32, *slot);
    }
    p
}

// .. or a refusal's number.
pub fn put_refused(out: &mut Text, n: u8) -> usize
    ensures { Wrote out.old (refused_text n) out.new result }
{
    let p = put_bytes(out, 0, b"refused ");
    let q = put_decimal(out, p, u32::from(n));
    put_byte(out, q, b'\n')
}
