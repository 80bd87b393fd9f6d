// The keys of the requirements that conditions speak of: each subject that was met has a key, and each key two entries, Have and Missing.
#![tactic(auto)]

ghost use Rattle.std.specs.Prelude.{◌≡◌, ℕ, ◌+◌, ◌*◌, ◌/◌, ◌%◌, ◌<◌, ◌≤◌, length};
ghost use Rattle.model.specs.Memory.{nodes_in, right_at};
ghost use Rattle.model.specs.Parse.{value, map_req, signed, parse_requirement};
ghost use Rattle.model.specs.Limits.{wide, node_limit};
ghost use Rattle.expr.specs.Tree.{tree_below};
ghost use Rattle.parse_keys.specs.Entries.{Subject};
ghost use Rattle.parse_keys.specs.Search.{Table, Search};
ghost use Rattle.parse_keys.specs.Reads.{Numbered, id_code, flag_code, turn_of, sign_of, zero_sign, signed_code, ReadCode, Reading};
ghost use Rattle.parse_keys.specs.Tables.{Tables, OfNode, Entered, ReadEntry};

use expr::number_below;
use memory::{NodeWords, Values, kind_of};
use model::{Kind, Op1, Op2};
use shop_codes::{HAVE_ATC, HAVE_FLAG, KIND, ZERO, shifted};

// How many ids the sheet has.
#[derive(Clone, Copy)]
pub struct Known {
    pub items: u16,
    pub atcs: u16,
}

// A node's word, 0 or its entry, and how many keys there are.
#[derive(Clone, Copy)]
pub struct Word {
    pub word: u16,
    pub count: u16,
}

// The word where there is no room for another key: a number as 0 is, since the list of a condition holds words.
pub const NO_ROOM: u16 = 65535;

// ---- keys

// The key of a code, or the free link where it belongs. The search goes by the bits of the code, lowest first: codes are below 2^35, so that it takes at most 36 steps whatever the script.
fn find(keys: &[u64], kids: &[u16], m: usize, code: u64) -> Result<usize, usize>
    requires { ((m < node_limit) × (2 * m + 2 ≤ length kids.now)) × Table keys.now kids.now m }
    ensures { Search keys.now kids.now m code result }
{
    let mut at = 0;
    let mut bits = code;
    loop {
        let link = 2 * at + (bits % 2) as usize;
        let c = usize::from(kids[link]);
        if c == 0 {
            return Err(link);
        }
        if keys[c] == code {
            return Ok(c);
        }
        at = c;
        bits /= 2;
    }
}

// ---- codes of nodes: numbers, 0 for no code, and no Options, as the laws of codes and signs are over numbers

// Above every number of 32 bits, moved up: for a node that has none.
const NO_NUMBER: u64 = KIND;

// The number of node i, which has to be an Imm below b, moved up by 2^31; 2^32 where there is none.
fn shifted_below(ws: &NodeWords, val: &Values, b: u16, i: u16) -> u64
    requires { b ≤ node_limit }
    ensures { (n : ℕ) → Numbered result (value (tree_below (nodes_in ws.now val.now n) b i)) }
{
    match number_below(ws, val, b, i) {
        Some(x) => shifted(x),
        None => NO_NUMBER,
    }
}

// The code of an id below n, the first id's code being base.
fn id_code(s: u64, n: u16, base: u64) -> u64
    requires { base ≤ 2 * wide }
    ensures { result ≡ id_code base n s }
{
    if s < ZERO {
        return 0;
    }
    if s - ZERO < u64::from(n) {
        return base + s;
    }
    0
}

// The code of a flag.
fn flag_code(s: u64) -> u64
    ensures { result ≡ flag_code s }
{
    if s < KIND {
        return HAVE_FLAG + s;
    }
    0
}

// The code of what an operator reads, s being its operand's number; 0 for nothing.
fn read_code(o: Op1, s: u64, items: u16, atcs: u16) -> u64
    ensures { ReadCode items atcs o s result }
{
    match o {
        Op1::Flag => flag_code(s),
        Op1::Item => id_code(s, items, 0),
        Op1::Atc => id_code(s, atcs, HAVE_ATC),
        Op1::Not | Op1::Variable | Op1::Time => 0,
    }
}

// Whether a comparison with 0 gives what it compares the other sign; none where it tells nothing.
fn sign_of(o: Op2) -> Option<bool>
    ensures { turn_of result ≡ sign_of o }
{
    match o {
        Op2::Equal | Op2::LessEqual => Some(true),
        Op2::NotEqual | Op2::Greater => Some(false),
        _ => None,
    }
}

// .. and which one the comparison o at node i gives: only 0 on the right counts.
fn zero_sign(ws: &NodeWords, val: &Values, i: usize, o: Op2) -> Option<bool>
    requires { i < node_limit }
    ensures { (n : ℕ) → turn_of result ≡ zero_sign o (value (tree_below (nodes_in ws.now val.now n) i (right_at (nodes_in ws.now val.now n) i))) }
{
    let s = shifted_below(ws, val, i as u16, ws[3 * i + 2]);
    if s != ZERO {
        return None;
    }
    sign_of(o)
}

// Twice a subject's code, and one more where it is negated; 0 for no code.
fn signed_code(c: u64, neg: bool) -> u64
    requires { c < 8 * wide }
    ensures { result ≡ signed_code c neg }
{
    if c == 0 {
        return 0;
    }
    if neg {
        return 2 * c + 1;
    }
    2 * c
}

// The code of the requirement that node i is, below b and under a sign: comparisons with 0 are gone down through.
fn code_below(ws: &NodeWords, val: &Values, known: Known, b: usize, i: usize, neg: bool) -> u64
    requires { b ≤ node_limit }
    ensures { OfNode ws.now val.now known b i (λ h e. Reading result (map_req (signed neg) (parse_requirement h e))) }
{
    if b <= i {
        return 0;
    }
    match kind_of(ws[3 * i]) {
        Kind::Two(o) => {
            let Some(turned) = zero_sign(ws, val, i, o) else {
                return 0;
            };
            let left = usize::from(ws[3 * i + 1]);
            if turned {
                code_below(ws, val, known, i, left, !neg)
            } else {
                code_below(ws, val, known, i, left, neg)
            }
        }
        Kind::One(o) => {
            let s = shifted_below(ws, val, i as u16, ws[3 * i + 1]);
            signed_code(read_code(o, s, known.items, known.atcs), neg)
        }
        Kind::Imm16 | Kind::Imm32 | Kind::Other => 0,
    }
}

// ---- entries

// The entry of a signed code; its subject gets a key where it has none.
fn entry_of(keys: &mut [u64], kids: &mut [u16], companions: &mut [u16], m: u16, code: u64) -> Word
    requires { Tables keys.old kids.old companions.old m × Subject (code / 2) }
    ensures { Entered code m keys.old keys.new kids.new companions.new result }
{
    let sign = (code % 2) as u16;
    let at = match find(keys, kids, usize::from(m), code / 2) {
        Ok(key) => {
            return Word {
                word: 2 * (key as u16) + sign,
                count: m,
            };
        }
        Err(link) => link,
    };
    let n = usize::from(m) + 1;
    if keys.len() <= n {
        return Word {
            word: NO_ROOM,
            count: m,
        };
    }
    keys[n] = code / 2;
    kids[at] = m + 1;
    companions[2 * n] = 2 * m + 3;
    companions[2 * n + 1] = 2 * m + 2;
    Word {
        word: 2 * m + 2 + sign,
        count: m + 1,
    }
}

// The entry of node i, which lies below b and neither joins nor toggles, under a sign: 0 where it is no requirement.
pub fn read_entry(
    ws: &NodeWords,
    val: &Values,
    keys: &mut [u64],
    kids: &mut [u16],
    companions: &mut [u16],
    known: Known,
    m: u16,
    b: usize,
    i: usize,
    neg: bool,
) -> Word
    requires { (b ≤ node_limit) × Tables keys.old kids.old companions.old m }
    ensures { ReadEntry ws.now val.now known b i neg m keys.old keys.new kids.new companions.new result }
{
    let code = code_below(ws, val, known, b, i, neg);
    if code == 0 {
        return Word { word: 0, count: m };
    }
    entry_of(keys, kids, companions, m, code)
}
