// The program slots: standard input to its twenty lines, or to a refusal. One byte past the limit is read, so that a longer input shows.
#![tactic(auto)]

use slots_text::TEXT;

// The standard input.
const STDIN: i32 = 0;

// The standard output.
const STDOUT: i32 = 1;

fn main() {
    let mut input = [0u8; 65537];
    let mut out = [0u8; TEXT];
    let n = io::read_full(STDIN, &mut input);
    let m = slots_print::slots(&input[..n], &mut out);
    io::write_all(STDOUT, &out[..m]);
}
