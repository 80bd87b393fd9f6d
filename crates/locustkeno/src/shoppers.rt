// Shoppers, as C calls them.
ghost use Rattle.std.specs.Prelude.{◌≡◌};
ghost use Rattle.shop.specs.Shapes.{sheet_of, slots_of};
ghost use Rattle.shop_arrays.specs.Arrays.{arrays_in, shop_from};
ghost use Rattle.checks.specs.Calls.{save_of};
ghost use Rattle.tariff.specs.Prices.{tariff_of};
ghost use Rattle.shopper_model.specs.Shopper.{left_by, shopping_call};
ghost use Rattle.capi_values.specs.Values.{sheet_by};
ghost use Rattle.capi_shopper.specs.Answers.{left_as};

use capi_shopper::Shopped;
use shop::{Codes, SLOTS};
use shopper::WISHES;

// A step for each wish, in the shop of the four arrays, from this save and this money: of each step 0 bought, 1 sold out, 2 too dear or 23, and the
// coins paid. Refused, the save and both arrays stay as they were.
#[unsafe(no_mangle)]
pub extern "C" fn lk_shopper(
    attached: &[u8],
    atcs: u16,
    timer5: u16,
    timer10: u16,
    timer15: u16,
    wares: &[i32; SLOTS],
    limits: &[i16; SLOTS],
    codes: &Codes,
    lens: &[u8; SLOTS],
    items: &mut [i16],
    held: &mut [u8],
    flags: &[u8],
    times: &[i16],
    vars: &mut [i32],
    prices: &[u16],
    discount: u16,
    money: u32,
    wishes: &[u8],
    answers: &mut [u8; WISHES],
    coins: &mut [u32; WISHES],
) -> Shopped
    ensures { left_as result answers.new coins.new (save_of items.new held.new flags.now times.now vars.new) ≡ left_by (shopping_call (sheet_of attached.now (sheet_by atcs timer5 timer10 timer15)) (slots_of (shop_from (arrays_in wares.now limits.now codes.now lens.now))) (save_of items.old held.old flags.now times.now vars.old) (tariff_of prices.now discount) money wishes.now) answers.old coins.old }
{
    capi_shopper::lk_shopper(
        attached, atcs, timer5, timer10, timer15, wares, limits, codes, lens, items, held, flags,
        times, vars, prices, discount, money, wishes, answers, coins,
    )
}
