// Edits of a shop by users with rights, and what a user is shown (02, A.7): of a shop as a value, and on the arrays of a shop where they stand.
#![tactic(auto)]

ghost use Rattle.std.specs.Prelude.{◌≡◌, cond, ◌<◌, ◌+◌, ◌*◌, get_or, OnErr};
ghost use Rattle.model.specs.Limits.{slot_count, user_count};
ghost use Rattle.model.specs.Refusals.{refusal_in};
ghost use Rattle.model.specs.Shop.{item_known};
ghost use Rattle.rights_model.specs.Rights.{content_ok, edit_refusal};
ghost use Rattle.shop.specs.Shapes.{sheet_of, item_of, no_shop, no_slot, placed};
ghost use Rattle.shop_arrays.specs.Arrays.{arrays_in};
ghost use Rattle.rights.specs.Values.{bit_of, content_of, edit_of, field_is, table_of, weight_of};
ghost use Rattle.rights.specs.InShops.{answered_in, changed_slot, shop_edited, shop_shown};
ghost use Rattle.rights.specs.InArrays.{arrays_edited, arrays_shown, arrays_with, contents, emptied, field_from, place_for, shown_at};

use model::{ItemId, Refusal};
use shop::{
    Codes, ENTRIES, Row, SLOTS, Sheet, Shop, Slot, check_parts, check_sheet, empty_slot, with_slot,
};
use shop_arrays::{clear_arrays, put_entries, slot_by};

// Up to so many users work on one shop; a byte of rights for each user and slot, user by user.
pub const USERS: usize = 16;

pub const RIGHTS: usize = USERS * SLOTS;

// Users and slots are numbered by u32, which has no From into usize: where such a number is an index, it is cast.
const USERS_HERE: u32 = USERS as u32;

const SLOTS_HERE: u32 = SLOTS as u32;

// The rights of a byte; its higher bits mean nothing.
pub const SEE: u8 = 1;

pub const CHANGE_ITEM: u8 = 2;

pub const CHANGE_LIMIT: u8 = 4;

pub const CHANGE_REQUIREMENTS: u8 = 8;

// Which field of a slot an edit changes. The new content is that field of a slot that goes with it; the slot's other fields do not count.
#[derive(Clone, Copy, Debug, PartialEq, Eq)]
pub enum Field {
    Item,
    Limit,
    Requirements,
}

// ---- rights

// The right to change a field: a weight of the numbers of rights, which C hands over.
fn right_for(field: Field) -> u8
    ensures { result ≡ weight_of (field_is field) }
{
    match field {
        Field::Item => CHANGE_ITEM,
        Field::Limit => CHANGE_LIMIT,
        Field::Requirements => CHANGE_REQUIREMENTS,
    }
}

// By a division and not a mask: right is any number above 0 here.
fn has_right(rights: &[u8; RIGHTS], user: u32, slot: u32, right: u8) -> bool
    requires { (user < user_count) × (slot < slot_count) × (0 < right) }
    ensures { result ≡ bit_of (get_or rights.now (user * slot_count + slot) 0) right }
{
    let at = (user * SLOTS_HERE + slot) as usize;
    rights[at] / right % 2 == 1
}

// ---- check 8 on the new content

fn item_known(attached: &[u8], sheet: Sheet, item: Option<ItemId>) -> bool
    ensures { result ≡ item_known (sheet_of attached.now sheet) (item_of item) }
{
    check_parts(attached, sheet, item, &[0; ENTRIES], 0)
}

// A limit is 16 bits wide: 8 has nothing to ask of it.
fn content_ok(attached: &[u8], sheet: Sheet, field: Field, content: Slot) -> bool
    ensures { result ≡ content_ok (sheet_of attached.now sheet) (content_of field content) }
{
    match field {
        Field::Item => item_known(attached, sheet, content.item),
        Field::Limit => true,
        Field::Requirements => {
            check_parts(attached, sheet, None, &content.requirements, content.len)
        }
    }
}

// ---- edits of a shop as a value

// 1, 20, 21 and 8 in that order.
fn refusal_of(
    attached: &[u8],
    sheet: Sheet,
    rights: &[u8; RIGHTS],
    user: u32,
    slot: u32,
    field: Field,
    content: Slot,
) -> Result<(), Refusal>
    ensures number { refusal_in result ≡ edit_refusal (table_of rights.now) (sheet_of attached.now sheet) (edit_of user slot field content) }
    ensures refused { OnErr result (0 < refusal_in result) }
{
    if !check_sheet(attached, sheet) {
        return Err(Refusal::BadSheet);
    }
    if USERS_HERE <= user {
        return Err(Refusal::NoUser);
    }
    if SLOTS_HERE <= slot {
        return Err(Refusal::NoRight);
    }
    if !has_right(rights, user, slot, right_for(field)) {
        return Err(Refusal::NoRight);
    }
    if !content_ok(attached, sheet, field, content) {
        return Err(Refusal::BadShop);
    }
    Ok(())
}

// The content in its field, the other fields as they were.
fn changed(old: Slot, field: Field, content: Slot) -> Slot
    ensures { result ≡ changed_slot field content old }
{
    match field {
        Field::Item => Slot {
            item: content.item,
            ..old
        },
        Field::Limit => Slot {
            limit: content.limit,
            ..old
        },
        Field::Requirements => {
            let requirements = content.requirements;
            Slot {
                requirements,
                len: content.len,
                ..old
            }
        }
    }
}

// The shop with the content in its place.
pub fn edit(
    attached: &[u8],
    sheet: Sheet,
    rights: &[u8; RIGHTS],
    shop: Shop,
    user: u32,
    slot: u32,
    field: Field,
    content: Slot,
) -> Result<Shop, Refusal>
    ensures { answered_in shop result ≡ shop_edited (table_of rights.now) (sheet_of attached.now sheet) shop user slot field content }
{
    refusal_of(attached, sheet, rights, user, slot, field, content)?;
    let i = slot as usize;
    let new = changed(shop.slots[i], field, content);
    Ok(with_slot(shop, i, new))
}

// ---- a shop as a value shown

// Slot number slot as the user sees it, the others as they are.
fn show_slot(rights: &[u8; RIGHTS], shop: Shop, user: u32, slot: u32) -> Shop
    requires { (user < user_count) × (slot < slot_count) }
    ensures { result ≡ cond (table_of rights.now user slot).see shop (placed shop slot no_slot) }
{
    if has_right(rights, user, slot, SEE) {
        shop
    } else {
        with_slot(shop, slot as usize, empty_slot())
    }
}

// 20 only.
pub fn show(rights: &[u8; RIGHTS], shop: Shop, user: u32) -> Result<Shop, Refusal>
    ensures { answered_in no_shop result ≡ shop_shown (table_of rights.now) shop user }
{
    if USERS_HERE <= user {
        return Err(Refusal::NoUser);
    }
    let mut out = shop;
    for slot in 0..SLOTS_HERE {
        out = show_slot(rights, out, user, slot);
    }
    Ok(out)
}

// ---- edits on the arrays

// Fields by number, as programs in Rust and C give them.
fn field_from(field: u8) -> Field
    ensures { result ≡ field_from field }
{
    match field {
        0 => Field::Item,
        1 => Field::Limit,
        _ => Field::Requirements,
    }
}

// Nobody may change a field that is not there: it is answered as a slot that is not there.
fn place_for(field: u8, slot: u32) -> u32
    ensures { result ≡ place_for field slot }
{
    if field < 3 { slot } else { SLOTS_HERE }
}

fn put_field(
    items: &mut [i32; SLOTS],
    limits: &mut [i16; SLOTS],
    codes: &mut Codes,
    lens: &mut [u8; SLOTS],
    i: usize,
    field: Field,
    item: i32,
    limit: i16,
    entries: &Row,
    len: u8,
)
    requires { i < slot_count }
    ensures { arrays_in items.new limits.new codes.new lens.new ≡ arrays_with field (contents item limit entries.now len) i (arrays_in items.old limits.old codes.old lens.old) }
{
    match field {
        Field::Item => items[i] = item,
        Field::Limit => limits[i] = limit,
        Field::Requirements => {
            put_entries(entries, codes, i);
            lens[i] = len;
        }
    }
}

// Field 0 is the item, -1 for none, 1 the limit, 2 the requirements: len of them, by their codes. Every other field is 21.
pub fn edit_arrays(
    attached: &[u8],
    sheet: Sheet,
    rights: &[u8; RIGHTS],
    items: &mut [i32; SLOTS],
    limits: &mut [i16; SLOTS],
    codes: &mut Codes,
    lens: &mut [u8; SLOTS],
    user: u32,
    slot: u32,
    field: u8,
    item: i32,
    limit: i16,
    entries: &Row,
    len: u8,
) -> Result<(), Refusal>
    ensures { record { refusal = refusal_in result; arrays = arrays_in items.new limits.new codes.new lens.new } ≡ arrays_edited (table_of rights.now) (sheet_of attached.now sheet) (arrays_in items.old limits.old codes.old lens.old) user slot field (contents item limit entries.now len) }
{
    let place = place_for(field, slot);
    let content = slot_by(item, limit, entries, len);
    let kind = field_from(field);
    refusal_of(attached, sheet, rights, user, place, kind, content)?;
    put_field(
        items,
        limits,
        codes,
        lens,
        place as usize,
        kind,
        item,
        limit,
        entries,
        len,
    );
    Ok(())
}

// ---- arrays shown

// The words of slot i become those of an empty slot.
fn empty_at(
    items: &mut [i32; SLOTS],
    limits: &mut [i16; SLOTS],
    codes: &mut Codes,
    lens: &mut [u8; SLOTS],
    i: usize,
)
    requires { i < slot_count }
    ensures { arrays_in items.new limits.new codes.new lens.new ≡ emptied i (arrays_in items.old limits.old codes.old lens.old) }
{
    items[i] = -1;
    limits[i] = 0;
    put_entries(&[0; ENTRIES], codes, i);
    lens[i] = 0;
}

// Slot number slot made empty where the user may not see it.
fn hide_slot(
    rights: &[u8; RIGHTS],
    items: &mut [i32; SLOTS],
    limits: &mut [i16; SLOTS],
    codes: &mut Codes,
    lens: &mut [u8; SLOTS],
    user: u32,
    slot: u32,
)
    requires { (user < user_count) × (slot < slot_count) }
    ensures { arrays_in items.new limits.new codes.new lens.new ≡ shown_at (table_of rights.now user slot) slot (arrays_in items.old limits.old codes.old lens.old) }
{
    if !has_right(rights, user, slot, SEE) {
        empty_at(items, limits, codes, lens, slot as usize);
    }
}

// The arrays of a shop become those of the shop as the user sees it: the words of a slot that is seen stay, those of another become an
// empty slot's. Refused, all are those of the empty shop.
pub fn show_arrays(
    rights: &[u8; RIGHTS],
    items: &mut [i32; SLOTS],
    limits: &mut [i16; SLOTS],
    codes: &mut Codes,
    lens: &mut [u8; SLOTS],
    user: u32,
) -> Result<(), Refusal>
    ensures { record { refusal = refusal_in result; arrays = arrays_in items.new limits.new codes.new lens.new } ≡ arrays_shown (table_of rights.now) (arrays_in items.old limits.old codes.old lens.old) user }
{
    if USERS_HERE <= user {
        clear_arrays(items, limits, codes, lens);
        return Err(Refusal::NoUser);
    }
    for slot in 0..SLOTS_HERE {
        hide_slot(rights, items, limits, codes, lens, user, slot);
    }
    Ok(())
}
