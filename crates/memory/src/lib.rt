// The script in lent arrays: one node, command or block more, a block emptied and linked, and the codes of kinds.
#![tactic(auto)]

ghost use Rattle.std.specs.Prelude.{◌≡◌, ◌+◌, ◌<◌};
ghost use Rattle.model.specs.Limits.{block_limit, command_limit, node_limit};
ghost use Rattle.model.specs.Image.{kind_of, code2, code1};
ghost use Rattle.model.specs.Memory.{nodes_in, block_words};
ghost use Rattle.memory.specs.Pushed.{PushedNode, PushedCommand, PushedBlock};

use model::{Kind, Op1, Op2};

// The limits of a script: blocks, commands, expression nodes (01, Script).
pub const BLOCKS: usize = 4096;

pub const COMMANDS: usize = 16384;

pub const NODES: usize = 32768;

// The same as words.
pub const BLOCK_LIMIT: u16 = BLOCKS as u16;

pub const COMMAND_LIMIT: u16 = COMMANDS as u16;

pub const NODE_LIMIT: u16 = NODES as u16;

// The words of its arrays: five a block, four a command, three a node beside its value.
pub const BLOCK_WORDS: usize = 5 * BLOCKS;

pub const COMMAND_WORDS: usize = 4 * COMMANDS;

pub const NODE_WORDS: usize = 3 * NODES;

pub type BlockWords = [u16; BLOCK_WORDS];

pub type CommandWords = [u16; COMMAND_WORDS];

pub type NodeWords = [u16; NODE_WORDS];

pub type Values = [i32; NODES];

// The birth mark of each place of a block (02, A.2); run, parse and write do not take it.
pub type Births = [u32; BLOCKS];

// The kept counts of a script.
#[derive(Clone, Copy)]
pub struct Counts {
    pub nodes: u16,
    pub commands: u16,
    pub blocks: u16,
}

// An element behind a call: whoever uses it as an index owes no proof that it fits.
pub fn index_of(x: u16) -> usize
    ensures { result ≡ x }
{
    usize::from(x)
}

#[tactic(auto, unfolding(model::specs::Image::kind_of, model::specs::Image::kinds))]
pub fn kind_of(code: u16) -> Kind
    ensures { result ≡ kind_of code }
{
    match code {
        0 => Kind::Two(Op2::Equal),
        1 => Kind::Two(Op2::NotEqual),
        2 => Kind::Two(Op2::Less),
        3 => Kind::Two(Op2::LessEqual),
        4 => Kind::Two(Op2::Greater),
        5 => Kind::Two(Op2::GreaterEqual),
        6 => Kind::One(Op1::Not),
        7 => Kind::Two(Op2::Add),
        8 => Kind::Two(Op2::Subtract),
        9 => Kind::Two(Op2::BitAnd),
        10 => Kind::Two(Op2::BitOr),
        11 => Kind::Imm16,
        12 => Kind::Imm32,
        13 => Kind::One(Op1::Flag),
        14 => Kind::One(Op1::Variable),
        15 => Kind::One(Op1::Item),
        16 => Kind::One(Op1::Atc),
        17 => Kind::One(Op1::Time),
        _ => Kind::Other,
    }
}

pub fn code_two(o: Op2) -> u16
    ensures { result ≡ code2 o }
{
    match o {
        Op2::Equal => 0,
        Op2::NotEqual => 1,
        Op2::Less => 2,
        Op2::LessEqual => 3,
        Op2::Greater => 4,
        Op2::GreaterEqual => 5,
        Op2::Add => 7,
        Op2::Subtract => 8,
        Op2::BitAnd => 9,
        Op2::BitOr => 10,
    }
}

pub fn code_one(o: Op1) -> u16
    ensures { result ≡ code1 o }
{
    match o {
        Op1::Not => 6,
        Op1::Flag => 13,
        Op1::Variable => 14,
        Op1::Item => 15,
        Op1::Atc => 16,
        Op1::Time => 17,
    }
}

pub fn push_node(
    ws: &mut NodeWords,
    val: &mut Values,
    n: u16,
    code: u16,
    left: u16,
    right: u16,
    value: i32,
) -> u16
    requires { n < node_limit }
    ensures { PushedNode (nodes_in ws.old val.old n) code left right value (nodes_in ws.new val.new result) }
{
    let i = usize::from(n);
    ws[3 * i] = code;
    ws[3 * i + 1] = left;
    ws[3 * i + 2] = right;
    val[i] = value;
    n + 1
}

pub fn push_command(cw: &mut CommandWords, n: u16, code: u16, a: u16, b: u16, block: u16) -> u16
    requires { n < command_limit }
    ensures { PushedCommand cw.old n code a b block cw.new result }
{
    let i = usize::from(n);
    cw[4 * i] = code;
    cw[4 * i + 1] = a;
    cw[4 * i + 2] = b;
    cw[4 * i + 3] = block;
    n + 1
}

// Writes block b whole.
pub fn set_block(
    bw: &mut BlockWords,
    b: u16,
    kind: u16,
    first: u16,
    held: u16,
    next: u16,
    other: u16,
)
    requires { b < block_limit }
    ensures { bw.new ≡ block_words bw.old b kind first held next other }
{
    let i = usize::from(b);
    bw[5 * i] = kind;
    bw[5 * i + 1] = first;
    bw[5 * i + 2] = held;
    bw[5 * i + 3] = next;
    bw[5 * i + 4] = other;
}

pub fn push_block(
    bw: &mut BlockWords,
    n: u16,
    kind: u16,
    first: u16,
    held: u16,
    next: u16,
    other: u16,
) -> u16
    requires { n < block_limit }
    ensures { PushedBlock bw.old n kind first held next other bw.new result }
{
    set_block(bw, n, kind, first, held, next, other);
    n + 1
}
