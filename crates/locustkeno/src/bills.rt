// The bill, as C calls them.
ghost use Rattle.shop.specs.Shapes.{sheet_of};
ghost use Rattle.checks.specs.Calls.{save_of};
ghost use Rattle.bill_model.specs.Sorting.{bill_by_item};
ghost use Rattle.tariff.specs.Prices.{tariff_of};
ghost use Rattle.bill.specs.Billed.{BilledAs};
ghost use Rattle.capi_values.specs.Values.{sheet_by};

use capi_bill::Billed;
use shop::SLOTS;

// The bill of the save that a run left: item, slot and coins of its twenty lines, in the order of the items. Refused, the three arrays stay as they were.
#[unsafe(no_mangle)]
pub extern "C" fn lk_bill(
    attached: &[u8],
    atcs: u16,
    timer5: u16,
    timer10: u16,
    timer15: u16,
    items: &[i16],
    held: &[u8],
    flags: &[u8],
    times: &[i16],
    vars: &[i32],
    prices: &[u16],
    discount: u16,
    basket: &[i32; SLOTS],
    to_items: &mut [i32; SLOTS],
    to_slots: &mut [u8; SLOTS],
    to_coins: &mut [u64; SLOTS],
) -> Billed
    ensures { BilledAs (bill_by_item (sheet_of attached.now (sheet_by atcs timer5 timer10 timer15)) (save_of items.now held.now flags.now times.now vars.now) (tariff_of prices.now discount) basket.now) result.refusal result.total to_items.old to_items.new to_slots.old to_slots.new to_coins.old to_coins.new }
{
    capi_bill::lk_bill(
        attached, atcs, timer5, timer10, timer15, items, held, flags, times, vars, prices,
        discount, basket, to_items, to_slots, to_coins,
    )
}
