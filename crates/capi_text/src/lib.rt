// A shop's text for programs in Rust and C: any bytes read into the four arrays of a shop, and the arrays of a shop printed.
#![tactic(auto)]

ghost use Rattle.std.specs.Prelude.{◌≡◌, length};
ghost use Rattle.model.specs.Limits.{slot_count};
ghost use Rattle.model.specs.Sheet.{all};
ghost use Rattle.shop_arrays.specs.Arrays.{arrays_in, arrays_of, items_of};
ghost use Rattle.text_model.specs.Text.{read_text};
ghost use Rattle.capi_text.specs.Calls.{read_call, few, print_call};

use shop::{Codes, ENTRIES, SLOTS, Shop};
use shop_arrays::{arrays_of, item_to, shop_from};
use slots_text::{Text, put_slots};
use text_read::read_text;

const MOST_ENTRIES: u8 = ENTRIES as u8;

// Reason 0, or why the text is no shop and its line, counted from 1.
#[repr(C)]
#[derive(Clone, Copy)]
pub struct TextRead {
    pub reason: u8,
    pub line: u8,
}

// ---- the arrays of a shop

fn put_items(shop: Shop, items: &mut [i32; SLOTS])
    ensures { items.new ≡ items_of shop }
{
    for (i, item) in items.iter_mut().enumerate() {
        *item = item_to(shop.slots[i].item);
    }
}

// The arrays that stand for a shop leave open by which number item 65535 stands there: the items are put once more.
fn put_shop(
    shop: Shop,
    items: &mut [i32; SLOTS],
    limits: &mut [i16; SLOTS],
    codes: &mut Codes,
    lens: &mut [u8; SLOTS],
)
    ensures { arrays_in items.new limits.new codes.new lens.new ≡ arrays_of shop }
{
    arrays_of(shop, items, limits, codes, lens);
    put_items(shop, items);
}

// No slot has more entries than may be given.
fn few_each(lens: &[u8]) -> bool
    ensures { result ≡ all few lens.now }
{
    lens.iter().all(|n| *n <= MOST_ENTRIES)
}

// ---- the calls

// The shop of a text into its arrays. Refused, they are as they were.
pub fn lk_read_shop(
    text: &[u8],
    items: &mut [i32; SLOTS],
    limits: &mut [i16; SLOTS],
    codes: &mut Codes,
    lens: &mut [u8; SLOTS],
) -> TextRead
    ensures { record { reason = result.reason; line = result.line; arrays = arrays_in items.new limits.new codes.new lens.new } ≡ read_call (read_text text.now) (arrays_in items.old limits.old codes.old lens.old) }
{
    match read_text(text) {
        Ok(shop) => {
            put_shop(shop, items, limits, codes, lens);
            TextRead { reason: 0, line: 0 }
        }
        Err(bad) => TextRead {
            reason: bad.reason.number(),
            line: bad.line,
        },
    }
}

// The text of a shop from the start of the array on, and how long it is: 0, and nothing written, where a slot has more entries than may be given.
pub fn lk_print_shop(
    items: &[i32; SLOTS],
    limits: &[i16; SLOTS],
    codes: &Codes,
    lens: &[u8; SLOTS],
    out: &mut Text,
) -> u32
    ensures { record { long = result; out = out.new } ≡ print_call (arrays_in items.now limits.now codes.now lens.now) out.old }
{
    if !few_each(lens) {
        return 0;
    }
    let shop = shop_from(items, limits, codes, lens);
    put_slots(out, shop) as u32
}
