// How many settings list a slot (02, A.9), for programs in Rust and C: numbers, a slice and a reference to an array of numbers go in, a struct of numbers comes out.
#![tactic(auto)]

ghost use Rattle.std.specs.Prelude.{◌≡◌};
ghost use Rattle.shop.specs.Shapes.{sheet_of, slot_of};
ghost use Rattle.capi_values.specs.Values.{sheet_by};
ghost use Rattle.settings_model.specs.Settings.{settings_call};
ghost use Rattle.capi_settings.specs.Answers.{settings_as};
ghost use Rattle.shop_arrays.specs.Arrays.{slot_in};

use capi_values::sheet_by;
use settings::settings_of;
use shop::Row;
use shop_arrays::slot_by;

// The refusal or 0, the slot's subjects, and in how many combinations of their answers it is listed and hidden; refused, every number is 0.
#[repr(C)]
#[derive(Clone, Copy)]
pub struct Settings {
    pub refusal: u8,
    pub subjects: u8,
    pub listed: u32,
    pub hidden: u32,
}

// How many settings list the slot that the numbers stand for.
pub fn lk_settings(
    attached: &[u8],
    atcs: u16,
    timer5: u16,
    timer10: u16,
    timer15: u16,
    item: i32,
    limit: i16,
    codes: &Row,
    len: u8,
) -> Settings
    ensures { settings_as result ≡ settings_call (sheet_of attached.now (sheet_by atcs timer5 timer10 timer15)) (slot_of (slot_in item limit codes.now len)) }
{
    let sheet = sheet_by(atcs, timer5, timer10, timer15);
    let slot = slot_by(item, limit, codes, len);
    match settings_of(attached, sheet, slot) {
        Ok(s) => Settings {
            refusal: 0,
            subjects: s.subjects,
            listed: s.listed,
            hidden: s.hidden,
        },
        Err(e) => Settings {
            refusal: e.number(),
            subjects: 0,
            listed: 0,
            hidden: 0,
        },
    }
}
