// The calls of who may edit what (02, A.7) for programs in Rust and C: an edit of a shop in its arrays, and what a user is shown of it.
#![tactic(auto)]

ghost use Rattle.std.specs.Prelude.{◌≡◌};
ghost use Rattle.shop.specs.Shapes.{sheet_of};
ghost use Rattle.shop_arrays.specs.Arrays.{arrays_in};
ghost use Rattle.rights.specs.Values.{table_of};
ghost use Rattle.rights.specs.InArrays.{arrays_edited, arrays_shown, contents};
ghost use Rattle.capi_values.specs.Values.{sheet_by};

use capi_values::sheet_by;
use model::refusal_in;
use rights::{RIGHTS, edit_arrays, show_arrays};
use shop::{Codes, Row, SLOTS};

// An edit by a user of one field of a slot: field 0 is the item, -1 for none, 1 the limit, 2 the requirements, len of them by their codes.
// Of item, limit and requirements the one counts that the field names. Refused, nothing is written; a field above 2 is 21, as a slot above 19.
pub fn lk_edit(
    attached: &[u8],
    atcs: u16,
    timer5: u16,
    timer10: u16,
    timer15: u16,
    rights: &[u8; RIGHTS],
    items: &mut [i32; SLOTS],
    limits: &mut [i16; SLOTS],
    codes: &mut Codes,
    lens: &mut [u8; SLOTS],
    user: u32,
    slot: u32,
    field: u8,
    item: i32,
    limit: i16,
    entries: &Row,
    len: u8,
) -> u8
    ensures { record { refusal = result; arrays = arrays_in items.new limits.new codes.new lens.new } ≡ arrays_edited (table_of rights.now) (sheet_of attached.now (sheet_by atcs timer5 timer10 timer15)) (arrays_in items.old limits.old codes.old lens.old) user slot field (contents item limit entries.now len) }
{
    let sheet = sheet_by(atcs, timer5, timer10, timer15);
    refusal_in(edit_arrays(
        attached, sheet, rights, items, limits, codes, lens, user, slot, field, item, limit,
        entries, len,
    ))
}

// The arrays of a shop become those of the shop as the user sees it: the words of a slot with the right to see stay, those of every other
// slot become an empty one's. Refused (20), all are those of the empty shop.
pub fn lk_show(
    rights: &[u8; RIGHTS],
    items: &mut [i32; SLOTS],
    limits: &mut [i16; SLOTS],
    codes: &mut Codes,
    lens: &mut [u8; SLOTS],
    user: u32,
) -> u8
    ensures { record { refusal = result; arrays = arrays_in items.new limits.new codes.new lens.new } ≡ arrays_shown (table_of rights.now) (arrays_in items.old limits.old codes.old lens.old) user }
{
    refusal_in(show_arrays(rights, items, limits, codes, lens, user))
}
