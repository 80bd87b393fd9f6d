// What a line writes by itself: words of the script's arrays, birth marks, and bytes of the image.
use case_lines::{SAID, Words, low8, low16};
use memory::{Births, BlockWords, CommandWords, NodeWords, Values};

// A node, a command, a block: the first, how many, the words of one, and what each word is more in each further one. A value: of which node, and its bits.
pub fn change(
    op: u8,
    a: &mut Words,
    ws: &mut NodeWords,
    val: &mut Values,
    cw: &mut CommandWords,
    bw: &mut BlockWords,
) {
    match op {
        b'n' => rows(ws, u32::from(low16(a[1])) * 3, 3, a),
        b'c' => rows(cw, u32::from(low16(a[1])) * 4, 4, a),
        b'b' => rows(bw, u32::from(low16(a[1])) * 5, 5, a),
        b'v' => set_value(val, a[1], a[2]),
        _ => (),
    }
}

fn set_value(val: &mut Values, node: u32, bits: u32) {
    if let Some(value) = val.get_mut(node as usize) {
        *value = ints::from_bits(bits);
    }
}

fn rows(words: &mut [u16], from: u32, size: u32, a: &mut Words) {
    let mut at = from;
    for _ in 0..a[2] {
        row(words, at, size, a);
        at = at.wrapping_add(size);
    }
}

fn row(words: &mut [u16], at: u32, size: u32, a: &mut Words) {
    for i in 0..size {
        word(words, at, size, a, i);
    }
}

// Word i of a row, which is then what it is in the next.
fn word(words: &mut [u16], at: u32, size: u32, a: &mut Words, i: u32) {
    if 20 < i || 20 < size {
        return;
    }
    let j = 3 + i as usize;
    if let Some(word) = words.get_mut(at as usize + i as usize) {
        *word = low16(a[j]);
    }
    a[j] = a[j].wrapping_add(a[j + size as usize]);
}

// M: the mark of a place of a block.
pub fn mark(op: u8, a: &Words, births: &mut Births) {
    if op != b'M' {
        return;
    }
    if let Some(mark) = births.get_mut(a[1] as usize) {
        *mark = a[2];
    }
}

// B and I: from where on, how often, the bytes. Answers the length of the image.
pub fn bytes(op: u8, a: &Words, image: &mut [u8; 65600], len: usize) -> usize {
    match op {
        b'B' | b'I' => repeated(a, image),
        _ => len,
    }
}

fn repeated(a: &Words, image: &mut [u8; 65600]) -> usize {
    let mut at = a[1] as usize;
    for _ in 0..a[2] {
        at = once(a, image, at);
    }
    at
}

fn once(a: &Words, image: &mut [u8; 65600], from: usize) -> usize {
    let end = (a[0] as usize + 1).min(SAID);
    let mut at = from;
    for x in a.iter().take(end).skip(3) {
        let Some(byte) = image.get_mut(at) else {
            return at;
        };
        *byte = low8(*x);
        at += 1;
    }
    at
}
