// The requirements of a condition: marks on its entries, kept between hiding blocks, and the contradiction filter over companions.
#![tactic(auto)]

ghost use Rattle.std.specs.Prelude.{◌≡◌, [], ◌∷◌, ◌+◌, ◌-◌, ◌/◌, ◌<◌, ◌≤◌, eqb, length, get_or, take};
ghost use Rattle.model.specs.Limits.{wide};
ghost use Rattle.parse_keys.specs.Entries.{entry_code};
ghost use Rattle.parse_filter.specs.Chains.{signed_entry, signed_part, entries_above, entries_in, reached, top_of, Falls, Walkable, Bounds};
ghost use Rattle.parse_filter.specs.Filter.{Met, Sifted, companion_codes, Coded, Holds};
ghost use Rattle.parse_filter.specs.Marks.{MarkedAs, Part, Marks, Onward, Unmarks, Served, Parsed};

use shop::{ENTRIES, Row, insert_in};
use shop_codes::missing_of;

// The condition whose entries are marked, and how many of them are still looked at.
#[derive(Clone, Copy)]
pub struct Marked {
    pub first: u16,
    pub alive: u16,
}

// How many negated requirements there are, ENTRIES + 1 where there are more than ENTRIES, and what is marked after.
#[derive(Clone, Copy)]
pub struct Filtered {
    pub len: usize,
    pub marked: Marked,
}

// ---- marks

// An entry, or its companion where it is negated.
fn signed_entry(companions: &[u16], e: u16, neg: bool) -> u16
    requires { e < length companions.now }
    ensures { result ≡ signed_entry companions.now neg e }
{
    if neg { companions[usize::from(e)] } else { e }
}

// Entry e is marked, and looked at from now on where it was not marked before: how many words are alive then.
fn mark_entry(seen: &mut [bool], alive: &mut [u16], e: u16, a: usize) -> usize
    requires { (e < length seen.old) × (a < length alive.old) }
    ensures { Marks seen.old alive.old a (e ∷ []) seen.new alive.new result }
{
    if seen[usize::from(e)] {
        return a;
    }
    seen[usize::from(e)] = true;
    alive[a] = e;
    a + 1
}

// Words from..to of the list under a sign.
fn mark_part(
    list: &[u16],
    companions: &[u16],
    seen: &mut [bool],
    alive: &mut [u16],
    from: usize,
    to: usize,
    neg: bool,
    before: usize,
) -> usize
    requires { Part companions.now list.now (length seen.old) from to × (before + (to - from) ≤ length alive.old) }
    ensures { Marks seen.old alive.old before (signed_part companions.now list.now neg from to) seen.new alive.new result }
{
    let mut a = before;
    for j in from..to {
        a = mark_entry(seen, alive, signed_entry(companions, list[j], neg), a);
    }
    a
}

// Whether the condition first was joined to the condition below, by any number of Ifs, or is that one: conditions fall along a chain, so that going down either meets it or passes it.
fn stands_on(cells: &[u16], first: usize, below: usize) -> bool
    requires { Falls cells.now first }
    ensures { result ≡ eqb (reached cells.now below first) below }
{
    let mut c = first;
    // No range: the chain goes from cell to cell.
    while below < c {
        c = usize::from(cells[3 * ((c - 1) / 2)]);
    }
    c == below
}

// The conditions from first down to the one whose entries are marked: how many words are alive then.
fn mark_chain(
    cells: &[u16],
    list: &[u16],
    companions: &[u16],
    seen: &mut [bool],
    alive: &mut [u16],
    first: usize,
    k: Marked,
) -> usize
    requires { Onward companions.now cells.now list.now (length seen.old) (length alive.old) first k }
    ensures { Marks seen.old alive.old k.alive (entries_above companions.now cells.now list.now k.first first) seen.new alive.new result × (result ≤ top_of cells.now first) }
{
    let below = usize::from(k.first);
    let mut a = usize::from(k.alive);
    let mut c = first;
    // No range: the chain goes from cell to cell.
    while below < c {
        let j = (c - 1) / 2;
        let neg = (c - 1) % 2 == 1;
        a = mark_part(
            list,
            companions,
            seen,
            alive,
            usize::from(cells[3 * j + 1]),
            usize::from(cells[3 * j + 2]),
            neg,
            a,
        );
        c = usize::from(cells[3 * j]);
    }
    a
}

// ---- marks taken away

fn clear_part(
    list: &[u16],
    companions: &[u16],
    seen: &mut [bool],
    from: usize,
    to: usize,
    neg: bool,
)
    requires { Part companions.now list.now (length seen.old) from to }
    ensures { Unmarks seen.old (signed_part companions.now list.now neg from to) seen.new }
{
    for j in from..to {
        seen[usize::from(signed_entry(companions, list[j], neg))] = false;
    }
}

// No mark on the entries of the condition first.
fn clear(cells: &[u16], list: &[u16], companions: &[u16], seen: &mut [bool], first: usize)
    requires { Walkable companions.now cells.now list.now (length seen.old) first }
    ensures { Unmarks seen.old (entries_in companions.now cells.now list.now first) seen.new }
{
    let mut c = first;
    // No range: the chain goes from cell to cell.
    while 0 < c {
        let j = (c - 1) / 2;
        clear_part(
            list,
            companions,
            seen,
            usize::from(cells[3 * j + 1]),
            usize::from(cells[3 * j + 2]),
            (c - 1) % 2 == 1,
        );
        c = usize::from(cells[3 * j]);
    }
}

// The marks that serve the condition first: those that there are where it stands on the condition that is marked, and else none.
fn marks_for(
    cells: &[u16],
    list: &[u16],
    companions: &[u16],
    seen: &mut [bool],
    old: Marked,
    first: usize,
) -> Marked
    requires { Walkable companions.now cells.now list.now (length seen.old) old.first × Falls cells.now first }
    ensures { Served companions.now cells.now list.now seen.old old first seen.new result }
{
    let below = usize::from(old.first);
    if stands_on(cells, first, below) {
        return old;
    }
    clear(cells, list, companions, seen, below);
    Marked { first: 0, alive: 0 }
}

// ---- the contradiction filter

// Of the first n words of alive those whose companion is not marked, in their order: how many they are. It negates nothing, and the companions may be any.
pub fn filter_alive(companions: &[u16], seen: &[bool], alive: &mut [u16], n: usize) -> usize
    requires { Met companions.now alive.old (length seen.now) n }
    ensures { Sifted companions.now seen.now alive.old n alive.new result }
{
    let mut kept = 0;
    for j in 0..n {
        let e = alive[j];
        alive[kept] = e;
        if !seen[usize::from(companions[usize::from(e)])] {
            kept += 1;
        }
    }
    kept
}

fn entry_code(keys: &[u64], k: u16) -> u64
    requires { (k / 2 < length keys.now) × (get_or keys.now (k / 2) 0 + wide < 18446744073709551616) }
    ensures { result ≡ entry_code keys.now k }
{
    let key = keys[usize::from(k / 2)];
    if k % 2 == 0 { key } else { missing_of(key) }
}

// The codes of the companions of n entries, as a set: how many they are, ENTRIES + 1 where there are more than ENTRIES.
fn companion_codes(
    keys: &[u64],
    companions: &[u16],
    alive: &[u16],
    n: usize,
    codes: &mut Row,
) -> usize
    requires { Coded keys.now companions.now alive.now n }
    ensures { Holds (companion_codes keys.now companions.now (take n alive.now)) codes.new result }
{
    let mut len = 0;
    for i in 0..n {
        len = insert_in(
            codes,
            len,
            entry_code(keys, companions[usize::from(alive[i])]),
        );
        if ENTRIES < len {
            return len;
        }
    }
    len
}

// The negations of the requirements of the condition first, as a set: contradicting pairs drop in the whole condition, and not in its parts.
// An entry whose companion is marked is looked at no more: marks only grow until they are taken away.
pub fn parse_requirements(
    cells: &[u16],
    list: &[u16],
    keys: &[u64],
    companions: &[u16],
    seen: &mut [bool],
    alive: &mut [u16],
    codes: &mut Row,
    old: Marked,
    first: usize,
) -> Filtered
    requires { Bounds keys.now companions.now cells.now list.now (length seen.old) (length alive.old) old.first first × MarkedAs companions.now cells.now list.now seen.old alive.old old }
    ensures { Parsed keys.now companions.now cells.now list.now old first seen.new alive.new codes.new result }
{
    if first == 0 {
        return Filtered {
            len: 0,
            marked: old,
        };
    }
    let k = marks_for(cells, list, companions, seen, old, first);
    let all = mark_chain(cells, list, companions, seen, alive, first, k);
    let kept = filter_alive(companions, seen, alive, all);
    let len = companion_codes(keys, companions, alive, kept, codes);
    Filtered {
        len,
        marked: Marked {
            first: first as u16,
            alive: kept as u16,
        },
    }
}
