// What is checked before a shop is signed, as C calls them.
ghost use Rattle.std.specs.Prelude.{◌≡◌};
ghost use Rattle.shop.specs.Shapes.{sheet_of, slots_of};
ghost use Rattle.shop_arrays.specs.Arrays.{arrays_in, shop_from};
ghost use Rattle.capi_values.specs.Values.{sheet_by};
ghost use Rattle.signed_model.specs.Findings.{check_call};
ghost use Rattle.signed_check.specs.Answer.{checked_of};
ghost use Rattle.capi_signed.specs.Answers.{checked_as};

use capi_signed::Checked;
use shop::{Codes, SLOTS};

// What is told of each slot; refused, every number is 0.
#[unsafe(no_mangle)]
pub extern "C" fn lk_check(
    attached: &[u8],
    atcs: u16,
    timer5: u16,
    timer10: u16,
    timer15: u16,
    items: &[i32; SLOTS],
    limits: &[i16; SLOTS],
    codes: &Codes,
    lens: &[u8; SLOTS],
) -> Checked
    ensures { checked_as result ≡ checked_of (check_call (sheet_of attached.now (sheet_by atcs timer5 timer10 timer15)) (slots_of (shop_from (arrays_in items.now limits.now codes.now lens.now)))) }
{
    capi_signed::lk_check(
        attached, atcs, timer5, timer10, timer15, items, limits, codes, lens,
    )
}
