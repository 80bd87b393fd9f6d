// The lines of a test program's input: the numbers of a case, and what is said of its answer.
//
// A case is a letter, numbers, what must be answered, a colon and its name: `C 7 3 = 0 26:name`. A line without `=` is no case.
#![tactic(auto)]

ghost use Rattle.std.specs.Prelude.{◌<◌, ◌≤◌, length};

use model::{WIDE, WIDE16};
use shop::{ENTRIES, Row};
use shop_codes::{KIND, ZERO};

// The standard input.
const STDIN: i32 = 0;

// The standard output.
const STDOUT: i32 = 1;

// How many numbers an answer has, and the words of a line: its numbers stand from 1 on, those of its answer from SAID + 1 on; at 0 is how many
// stand before the answer, and at SAID is 1 where there is one.
pub const ANSWER: usize = 16;

pub const SAID: usize = 200;

pub const WORDS: usize = 224;

pub type Answer = [u32; ANSWER];

pub type Words = [u32; WORDS];

// How many cases there were, and how many answered as said.
#[derive(Clone, Copy)]
pub struct Tally {
    pub cases: u32,
    pub good: u32,
}

// The number that a byte belongs to, and whether it is below 0.
#[derive(Clone, Copy)]
pub struct Place {
    pub n: usize,
    pub minus: bool,
}

// ---- reading

// The newline of the line that begins at at; in a text that has none more, its last byte.
pub fn line_end(text: &[u8], at: usize) -> usize
    requires { at < length text.now }
    ensures { (at ≤ result) × (result < length text.now) }
{
    let last = text.len() - 1;
    text[at..last]
        .iter()
        .position(|b| *b == b'\n')
        .map_or(last, |passed| at + passed)
}

// The numbers of a line, decimal and, from number hex on, hexadecimal. Answers where the colon is.
pub fn numbers(line: &[u8], hex: usize, a: &mut Words) -> usize {
    let mut p = Place { n: 0, minus: false };
    for (i, b) in line.iter().enumerate().skip(1) {
        if *b == b':' {
            return i;
        }
        p = next(a, hex, p, *b);
    }
    line.len().max(1)
}

// A digit belongs to the number at hand, a sign before it too; anything else begins the next.
fn next(a: &mut Words, hex: usize, p: Place, b: u8) -> Place {
    if b == b'=' {
        a[SAID] = 1;
        return Place {
            n: SAID,
            minus: false,
        };
    }
    if WORDS - 1 <= p.n {
        return p;
    }
    if b == b'-' {
        return Place {
            n: p.n,
            minus: true,
        };
    }
    let Some(v) = value(b) else {
        return Place {
            n: p.n + 1,
            minus: false,
        };
    };
    a[p.n] = longer(a[p.n], hex <= p.n && p.n < SAID, p.minus, v);
    if p.n < SAID {
        a[0] = p.n as u32;
    }
    p
}

// What a digit stands for.
fn value(b: u8) -> Option<u8> {
    match b {
        b'0'..=b'9' => Some(b % 16),
        b'A'..=b'F' => Some(b % 16 + 9),
        _ => None,
    }
}

// The number with one more digit, by its 32 bits.
fn longer(x: u32, hex: bool, minus: bool, v: u8) -> u32 {
    if hex {
        return ((u64::from(x) * 16 + u64::from(v)) % WIDE) as u32;
    }
    if minus {
        return ((u64::from(x) * 10 + (WIDE - u64::from(v))) % WIDE) as u32;
    }
    ((u64::from(x) * 10 + u64::from(v)) % WIDE) as u32
}

// The letter of a line; an empty line has none.
pub fn letter(line: &[u8]) -> u8 {
    line.first().copied().unwrap_or(0)
}

// ---- what numbers stand for

pub fn low8(x: u32) -> u8 {
    (x % 256) as u8
}

pub fn low16(x: u32) -> u16 {
    (u64::from(x) % WIDE16) as u16
}

pub fn signed16(x: u32) -> i16 {
    ints::from_bits16(low16(x))
}

// A requirement's code: its kind times 2^32, plus 2^31, plus its number, which can be below 0.
pub fn code(kind: u32, number: u32) -> u64 {
    u64::from(kind) * KIND + (ZERO + u64::from(number)) % KIND
}

// The requirements of a slot by kind and number of the first two; each further one has the next number.
pub fn row(kind: u32, number: u32, second: u32, from: u32) -> Row {
    let mut codes: Row = [0; ENTRIES];
    codes[0] = code(kind, number);
    for i in 1..ENTRIES {
        codes[i] = code(second, from.wrapping_add((i - 1) as u32));
    }
    codes
}

// Kind and number of a requirement by its code; where there is no code, both are 0.
pub fn kind_in(code: u64) -> u32 {
    (code / KIND % WIDE) as u32
}

pub fn number_in(code: u64) -> u32 {
    if code == 0 {
        return 0;
    }
    ((code % KIND + ZERO) % WIDE) as u32
}

pub fn bits16(x: i16) -> u32 {
    ints::to_bits(ints::widen16(x))
}

pub fn wide8(x: u8) -> u32 {
    u32::from(x)
}

pub fn bit(b: bool) -> u32 {
    u32::from(b)
}

// ---- a program

// The cases of the standard input, one to a line: answer fills in what the numbers of a line answer, by its letter, and whether that is what the line says is told. The numbers are hexadecimal from the one on that hex names for the letter.
pub fn run_cases<const N: usize, H: Fn(u8) -> usize, F: FnMut(u8, &mut Words, &mut Answer)>(
    input: &mut [u8; N],
    letters: &[u8],
    hex: H,
    mut answer: F,
)
    requires hex { H.IsAlwaysCallable hex }
    requires answer { F.IsAlwaysCallable answer }
{
    let n = io::read_full(STDIN, input);
    let mut tally = none();
    let mut rest = &input[..n];
    // No split at newlines: the last byte of the text ends a line, a newline or not.
    while !rest.is_empty() {
        let (line, newline) = rest.split_at(line_end(rest, 0));
        let mut a: Words = [0; WORDS];
        let mut t: Answer = [0; ANSWER];
        let colon = numbers(line, hex(letter(line)), &mut a);
        answer(letter(line), &mut a, &mut t);
        tally = tell(letters, line, colon, &a, &t, tally);
        rest = &newline[1..];
    }
    total(tally);
}

// ---- what is said of the answer

pub fn none() -> Tally {
    Tally { cases: 0, good: 0 }
}

// Says of a case whether t is the answer that its line has; of a letter that is none of those it is not. A line that says no answer is no case.
pub fn tell(of: &[u8], line: &[u8], colon: usize, a: &Words, t: &Answer, tally: Tally) -> Tally {
    if a[SAID] == 0 {
        return tally;
    }
    if line.len() <= colon {
        return tally;
    }
    let good = as_said(a, t) && of.contains(&letter(line));
    put(&line[colon + 1..]);
    verdict(t, good);
    Tally {
        cases: tally.cases.wrapping_add(1),
        good: tally.good.wrapping_add(bit(good)),
    }
}

// Whether the answer is the one that the line says; what it does not say is 0.
fn as_said(a: &Words, t: &Answer) -> bool {
    a[SAID + 1..].iter().zip(t).all(|(said, told)| said == told)
}

fn verdict(t: &Answer, good: bool) {
    if good {
        put(b": as said\n");
        return;
    }
    put(b": answered");
    all(t);
    put(b"\n");
}

fn all(t: &Answer) {
    for x in t {
        put(b" ");
        decimal(*x);
    }
}

pub fn total(tally: Tally) {
    decimal(tally.cases);
    put(b" cases, ");
    decimal(tally.good);
    put(b" as said\n");
}

fn decimal(x: u32) {
    io::print_decimal(STDOUT, u64::from(x));
}

fn put(s: &[u8]) {
    io::write_all(STDOUT, s);
}
