// Which shops read no flag outside the save (02, A.10), asked of a shop where it stands in its arrays.
#![tactic(auto)]

ghost use Rattle.std.specs.Prelude.{◌≡◌, List, map, ◌<◌, ℤ, get_or};
ghost use Rattle.model.specs.Limits.{slot_count};
ghost use Rattle.model.specs.Sheet.{all};
ghost use Rattle.model.specs.Flags.{req_inside, slot_inside, shop_inside};
ghost use Rattle.shop_codes.specs.Codes.{requirement_of};
ghost use Rattle.shop.specs.Shapes.{entries, slot_of, slots_of};
ghost use Rattle.shop_arrays.specs.Arrays.{arrays_in, slot_at, shop_from};

use shop::{Codes, SLOTS};
use shop_arrays::{item_at, row_in};
use shop_codes::{Subject, subject_of};

// ---- entries

// Past the row every entry is code 0, as in the slot's value.
pub fn entry_at(row: &[u64], i: usize) -> u64
    ensures { result ≡ get_or row.now i 0 }
{
    row.get(i).copied().unwrap_or(0)
}

// Had or missing, a flag is read.
fn is_inside(code: u64) -> bool
    ensures { result ≡ req_inside (requirement_of code) }
{
    match subject_of(code) {
        Subject::Item(_) | Subject::Atc(_) => true,
        Subject::Flag(f) => ints::is_flag(f),
    }
}

// The entries as given: one that another hides from a reader is read all the same.
fn all_inside(row: &[u64], len: u8) -> bool
    ensures { result ≡ all req_inside (map requirement_of (entries len row.now)) }
{
    (0..usize::from(len)).all(|i| is_inside(entry_at(row, i)))
}

// ---- slots

// Slot i, whatever the limits are: without an item it reads nothing.
#[tactic(auto, unfolding(model::specs::Flags::slot_inside, shop::specs::Shapes::slot_of, shop_arrays::specs::Arrays::slot_at))]
fn slot_inside(sold: &[i32; SLOTS], codes: &Codes, lens: &[u8; SLOTS], i: usize) -> bool
    requires { i < slot_count }
    ensures { (ls : List ℤ) → result ≡ slot_inside (slot_of (slot_at (arrays_in sold.now ls codes.now lens.now) i)) }
{
    item_at(sold, i).is_none() || all_inside(row_in(codes, i), lens[i])
}

// Every flag of a slot with an item is in the save: a run of the compiled shop is not answered 23. The limits tell nothing; they only make the
// arrays a shop.
pub fn flags_inside(
    sold: &[i32; SLOTS],
    limits: &[i16; SLOTS],
    codes: &Codes,
    lens: &[u8; SLOTS],
) -> bool
    ensures { result ≡ shop_inside (slots_of (shop_from (arrays_in sold.now limits.now codes.now lens.now))) }
{
    (0..SLOTS).all(|i| slot_inside(sold, codes, lens, i))
}
