// How many settings list a slot, as C calls them.
ghost use Rattle.std.specs.Prelude.{◌≡◌};
ghost use Rattle.shop.specs.Shapes.{sheet_of, slot_of};
ghost use Rattle.capi_values.specs.Values.{sheet_by};
ghost use Rattle.settings_model.specs.Settings.{settings_call};
ghost use Rattle.capi_settings.specs.Answers.{settings_as};
ghost use Rattle.shop_arrays.specs.Arrays.{slot_in};

use capi_settings::Settings;
use shop::Row;

// The slot's subjects, and in how many combinations of their answers it is listed and hidden; refused, every number is 0.
#[unsafe(no_mangle)]
pub extern "C" fn lk_settings(
    attached: &[u8],
    atcs: u16,
    timer5: u16,
    timer10: u16,
    timer15: u16,
    item: i32,
    limit: i16,
    codes: &Row,
    len: u8,
) -> Settings
    ensures { settings_as result ≡ settings_call (sheet_of attached.now (sheet_by atcs timer5 timer10 timer15)) (slot_of (slot_in item limit codes.now len)) }
{
    capi_settings::lk_settings(
        attached, atcs, timer5, timer10, timer15, item, limit, codes, len,
    )
}
