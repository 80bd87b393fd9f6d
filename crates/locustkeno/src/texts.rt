// A shop as text and back, as C calls them.
ghost use Rattle.std.specs.Prelude.{◌≡◌, length};
ghost use Rattle.model.specs.Limits.{slot_count};
ghost use Rattle.model.specs.Sheet.{all};
ghost use Rattle.shop_arrays.specs.Arrays.{arrays_in, arrays_of, items_of};
ghost use Rattle.text_model.specs.Text.{read_text};
ghost use Rattle.capi_text.specs.Calls.{read_call, few, print_call};

use capi_text::TextRead;
use shop::{Codes, SLOTS};
use slots_text::Text;

// The shop of a text into its arrays. Refused, they are as they were.
#[unsafe(no_mangle)]
pub extern "C" fn lk_read_shop(
    text: &[u8],
    items: &mut [i32; SLOTS],
    limits: &mut [i16; SLOTS],
    codes: &mut Codes,
    lens: &mut [u8; SLOTS],
) -> TextRead
    ensures { record { reason = result.reason; line = result.line; arrays = arrays_in items.new limits.new codes.new lens.new } ≡ read_call (read_text text.now) (arrays_in items.old limits.old codes.old lens.old) }
{
    capi_text::lk_read_shop(text, items, limits, codes, lens)
}

// The text of a shop from the start of the array on, and how long it is: 0, and nothing written, where a slot has more entries than may be given.
#[unsafe(no_mangle)]
pub extern "C" fn lk_print_shop(
    items: &[i32; SLOTS],
    limits: &[i16; SLOTS],
    codes: &Codes,
    lens: &[u8; SLOTS],
    out: &mut Text,
) -> u32
    ensures { record { long = result; out = out.new } ≡ print_call (arrays_in items.now limits.now codes.now lens.now) out.old }
{
    capi_text::lk_print_shop(items, limits, codes, lens, out)
}
