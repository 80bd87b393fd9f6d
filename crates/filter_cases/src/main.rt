// The contradiction filter on sets of the entries 0 to 3 by companions 0 to 4, of which 4 is in no set (02, A.3): runs the cases of its standard input, one to a line, and says of each whether it answered what the line says.
#![tactic(auto)]

ghost use Rattle.filter_cases.specs.Four.{Fits};

use case_lines::{Answer, WORDS, Words, low16, run_cases};
use parse_filter::filter_alive;

// The first n of four words.
#[derive(Clone, Copy)]
pub struct Entries {
    pub a: u16,
    pub b: u16,
    pub c: u16,
    pub d: u16,
    pub n: u16,
}

// The companions of 0 to 3.
#[derive(Clone, Copy)]
pub struct Others {
    pub p: u16,
    pub q: u16,
    pub r: u16,
    pub s: u16,
}

fn main() {
    let mut input: [u8; 4096] = [0; 4096];
    run_cases(
        &mut input,
        b"AF",
        |_| WORDS,
        |op, a, t| {
            match op {
                b'F' => told(kept(a), t),
                b'A' => t[0] = u32::from(first_wrong()),
                _ => (),
            }
        },
    );
}

// What the filter keeps of the words of a line, reduced to what it asks for.
fn kept(a: &Words) -> Entries {
    filtered(
        Entries {
            a: low16(a[1]) % 4,
            b: low16(a[2]) % 4,
            c: low16(a[3]) % 4,
            d: low16(a[4]) % 4,
            n: low16(a[5]) % 5,
        },
        Others {
            p: low16(a[6]) % 5,
            q: low16(a[7]) % 5,
            r: low16(a[8]) % 5,
            s: low16(a[9]) % 5,
        },
    )
}

fn told(k: Entries, t: &mut Answer) {
    t[0] = u32::from(k.n);
    t[1] = held(k, 0);
    t[2] = held(k, 1);
    t[3] = held(k, 2);
    t[4] = held(k, 3);
}

// Word i of those that are kept; past them, 0.
fn held(k: Entries, i: u16) -> u32 {
    if i < k.n {
        return u32::from(word(k, i));
    }
    0
}

// ---- entry by entry

fn has(x: Entries, e: u16) -> bool {
    (0 < x.n && x.a == e) || (1 < x.n && x.b == e) || (2 < x.n && x.c == e) || (3 < x.n && x.d == e)
}

fn other(t: Others, e: u16) -> u16 {
    match e {
        0 => t.p,
        1 => t.q,
        2 => t.r,
        _ => t.s,
    }
}

fn word(x: Entries, i: u16) -> u16 {
    match i {
        0 => x.a,
        1 => x.b,
        2 => x.c,
        _ => x.d,
    }
}

// How many of the words k were met once word i of x was looked for where it has to be; 5 where one was not there.
fn after(x: Entries, t: Others, k: Entries, met: u16, i: u16) -> u16 {
    if x.n <= i {
        return met;
    }
    if has(x, other(t, word(x, i))) {
        return met;
    }
    if 3 < met {
        return 5;
    }
    if word(k, met) == word(x, i) {
        return met + 1;
    }
    5
}

// ---- the filter

fn filtered(x: Entries, t: Others) -> Entries
    requires { Fits x t }
{
    let companions = [t.p, t.q, t.r, t.s];
    let seen = [has(x, 0), has(x, 1), has(x, 2), has(x, 3), has(x, 4)];
    let mut words = [x.a, x.b, x.c, x.d];
    let n = filter_alive(&companions, &seen, &mut words, usize::from(x.n));
    Entries {
        a: words[0],
        b: words[1],
        c: words[2],
        d: words[3],
        n: n as u16,
    }
}

// Whether the filter keeps what asking entry by entry keeps.
fn agrees(x: Entries, t: Others) -> bool
    requires { Fits x t }
{
    let k = filtered(x, t);
    let first = after(x, t, k, 0, 0);
    let second = after(x, t, k, first, 1);
    let third = after(x, t, k, second, 2);
    after(x, t, k, third, 3) == k.n
}

// The number of the first table that the set x is filtered wrongly by; 625 where there is none.
fn first_table(x: Entries) -> u16
    requires { Fits x (record { p = 0; q = 0; r = 0; s = 0 }) }
{
    for i in 0..625 {
        let companions = Others {
            p: i % 5,
            q: i / 5 % 5,
            r: i / 25 % 5,
            s: i / 125 % 5,
        };
        if !agrees(x, companions) {
            return i;
        }
    }
    625
}

// The number of the first set that is filtered wrongly; 1,280 where there is none.
fn first_wrong() -> u16 {
    for i in 0..1280 {
        let set = Entries {
            a: i % 4,
            b: i / 4 % 4,
            c: i / 16 % 4,
            d: i / 64 % 4,
            n: i / 256,
        };
        if first_table(set) < 625 {
            return i;
        }
    }
    1280
}
