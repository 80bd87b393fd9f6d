// A shop from any number of slots, as the source's with_slots: flat slices of slots go in, the four arrays of a shop's twenty come out.
#![tactic(auto)]

ghost use Rattle.std.specs.Prelude.{◌≡◌, length, take};
ghost use Rattle.shop_arrays.specs.Arrays.{arrays_in};
ghost use Rattle.shop_with_slots.specs.Twenty.{filled, twenty};

use shop::{Codes, ENTRIES, SLOTS};

// The first n of from, as many as there are; what is missing is none. Two plain loops: a test at each place took up to seven times as long.
fn put<T: Copy>(from: &[T], n: usize, none: T, to: &mut [T])
    ensures { to.new ≡ filled none (length to.old) (take n from.now) }
{
    for i in 0..to.len() {
        to[i] = none;
    }
    let given = n.min(from.len()).min(to.len());
    for i in 0..given {
        to[i] = from[i];
    }
}

// As many slots are given as there are items; what another slice lacks of them is 0. Slots past the twentieth are dropped unchecked,
// missing ones are empty.
pub fn with_slots(
    items: &[i32],
    limits: &[i16],
    codes: &[u64],
    lens: &[u8],
    to_items: &mut [i32; SLOTS],
    to_limits: &mut [i16; SLOTS],
    to_codes: &mut Codes,
    to_lens: &mut [u8; SLOTS],
)
    ensures { arrays_in to_items.new to_limits.new to_codes.new to_lens.new ≡ twenty (arrays_in items.now limits.now codes.now lens.now) }
{
    let n = items.len().min(SLOTS);
    put(items, n, -1, to_items);
    put(limits, n, 0, to_limits);
    put(codes, ENTRIES * n, 0, to_codes);
    put(lens, n, 0, to_lens);
}
