// The requirements of a condition, read when a block with an If is reached: a list of entries for each If, one after the other.
#![tactic(auto)]

ghost use Rattle.std.specs.Prelude.{◌≡◌, true, List, ℤ, ◌≤◌, ◌<◌};
ghost use Rattle.model.specs.Limits.{node_limit};
ghost use Rattle.parse_conditions.specs.Gathered.{joins, toggles, alone, gathered};
ghost use Rattle.parse_conditions.specs.Listing.{Place, ReadCondition, Under, bare};

use memory::{NodeWords, Values, kind_of};
use model::{Kind, Op1, WIDE16};
use parse_keys::{Known, NO_ROOM, read_entry};

// How far the keys and the list of entries have come is one number, which a call returns in a register: keys * 65536 + entries.
pub const PLACES: u32 = WIDE16 as u32;

fn is_join(k: Kind) -> bool
    ensures { result ≡ joins k }
{
    match k {
        Kind::Two(o) => expr::is_join(o),
        _ => false,
    }
}

fn is_not(k: Kind) -> bool
    ensures { result ≡ toggles k }
{
    matches!(k, Kind::One(Op1::Not))
}

// Node i, below b, that neither joins nor toggles: its entry joins the list, where it has one. None where there is no room.
fn read_leaf(
    ws: &NodeWords,
    val: &Values,
    keys: &mut [u64],
    kids: &mut [u16],
    companions: &mut [u16],
    list: &mut [u16],
    known: Known,
    b: usize,
    i: usize,
    neg: bool,
    r: u32,
) -> Option<u32>
    requires { (b ≤ node_limit) × Place keys.old kids.old companions.old list.old r }
    ensures { ReadCondition ws.now val.now known b i (λ h e. alone h e neg) r keys.old list.old keys.new kids.new companions.new list.new result }
{
    let at = (r % PLACES) as usize;
    let count = (r / PLACES) as u16;
    let w = read_entry(ws, val, keys, kids, companions, known, count, b, i, neg);
    if w.word == 0 {
        return Some(r);
    }
    if w.word == NO_ROOM {
        return None;
    }
    if list.len() <= at {
        return None;
    }
    list[at] = w.word;
    Some(u32::from(w.count) * PLACES + (at as u32) + 1)
}

// Node i as an operand of node b, taken with a sign.
#[derive(Clone, Copy)]
struct Operand {
    b: usize,
    i: usize,
    neg: bool,
}

// What stands under the Nots of node i, below b, with the sign that they leave it. A loop: a chain of them takes no calls.
fn under_nots(ws: &NodeWords, b: usize, i: usize, neg: bool) -> Operand
    requires { b ≤ node_limit }
    ensures low { result.b ≤ b }
    ensures same { (vs : List ℤ) → Under ws.now vs b i neg result.b result.i result.neg }
    ensures stripped { result.i < result.b → bare ws.now result.i ≡ true }
{
    let mut o = Operand { b, i, neg };
    while o.i < o.b && is_not(kind_of(ws[3 * o.i])) {
        o = Operand {
            b: o.i,
            i: usize::from(ws[3 * o.i + 1]),
            neg: !o.neg,
        };
    }
    o
}

// The entries of node i, below b, joined to the list: And and Or both join, Not toggles. None where there is no room.
pub fn read_condition(
    ws: &NodeWords,
    val: &Values,
    keys: &mut [u64],
    kids: &mut [u16],
    companions: &mut [u16],
    list: &mut [u16],
    known: Known,
    b: usize,
    i: usize,
    neg: bool,
    r: u32,
) -> Option<u32>
    requires { (b ≤ node_limit) × Place keys.old kids.old companions.old list.old r }
    ensures { ReadCondition ws.now val.now known b i (λ h e. gathered h e neg) r keys.old list.old keys.new kids.new companions.new list.new result }
{
    let o = under_nots(ws, b, i, neg);
    if o.b <= o.i {
        return Some(r);
    }
    if is_join(kind_of(ws[3 * o.i])) {
        let l = usize::from(ws[3 * o.i + 1]);
        let mid = read_condition(
            ws, val, keys, kids, companions, list, known, o.i, l, o.neg, r,
        )?;
        let q = usize::from(ws[3 * o.i + 2]);
        return read_condition(
            ws, val, keys, kids, companions, list, known, o.i, q, o.neg, mid,
        );
    }
    read_leaf(
        ws, val, keys, kids, companions, list, known, o.b, o.i, o.neg, r,
    )
}
