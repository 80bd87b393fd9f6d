// The shopper for programs in Rust and C: numbers, slices and references to arrays of numbers go in, a struct of numbers comes out.
#![tactic(auto)]

ghost use Rattle.std.specs.Prelude.{◌≡◌};
ghost use Rattle.shop.specs.Shapes.{sheet_of, slots_of};
ghost use Rattle.shop_arrays.specs.Arrays.{arrays_in, shop_from};
ghost use Rattle.checks.specs.Calls.{save_of};
ghost use Rattle.tariff.specs.Prices.{tariff_of};
ghost use Rattle.shopper_model.specs.Shopper.{left_by, shopping_call};
ghost use Rattle.capi_values.specs.Values.{sheet_by};
ghost use Rattle.capi_shopper.specs.Answers.{left_as};

use capi_values::sheet_by;
use shop::{Codes, SLOTS};
use shopper::{WISHES, shopping};

// The refusal or 0, how many steps were made, and the money left; refused, no step was made and the money is as it was.
#[repr(C)]
#[derive(Clone, Copy)]
pub struct Shopped {
    pub refusal: u8,
    pub steps: u16,
    pub money: u32,
}

// A step for each wish, in the shop of the four arrays, from this save and this money: of each step 0 bought, 1 sold out, 2 too dear or 23, and the
// coins paid. Refused, the save and both arrays stay as they were.
pub fn lk_shopper(
    attached: &[u8],
    atcs: u16,
    timer5: u16,
    timer10: u16,
    timer15: u16,
    wares: &[i32; SLOTS],
    limits: &[i16; SLOTS],
    codes: &Codes,
    lens: &[u8; SLOTS],
    items: &mut [i16],
    held: &mut [u8],
    flags: &[u8],
    times: &[i16],
    vars: &mut [i32],
    prices: &[u16],
    discount: u16,
    money: u32,
    wishes: &[u8],
    answers: &mut [u8; WISHES],
    coins: &mut [u32; WISHES],
) -> Shopped
    ensures { left_as result answers.new coins.new (save_of items.new held.new flags.now times.now vars.new) ≡ left_by (shopping_call (sheet_of attached.now (sheet_by atcs timer5 timer10 timer15)) (slots_of (shop_from (arrays_in wares.now limits.now codes.now lens.now))) (save_of items.old held.old flags.now times.now vars.old) (tariff_of prices.now discount) money wishes.now) answers.old coins.old }
{
    let sheet = sheet_by(atcs, timer5, timer10, timer15);
    let left = shopping(
        attached, sheet, wares, limits, codes, lens, items, held, flags, times, vars, prices,
        discount, money, wishes, answers, coins,
    );
    match left {
        Ok(s) => Shopped {
            refusal: 0,
            steps: s.steps,
            money: s.money,
        },
        Err(e) => Shopped {
            refusal: e.number(),
            steps: 0,
            money: money,
        },
    }
}
