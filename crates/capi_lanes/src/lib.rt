// The exported call of the walk for many saves (02, A.8), over plain numbers and slices.
#![tactic(auto)]

ghost use Rattle.std.specs.Prelude.{◌≡◌};
ghost use Rattle.memory.specs.View.{memory_of};
ghost use Rattle.shop.specs.Shapes.{sheet_of};
ghost use Rattle.checks.specs.Calls.{save_of};
ghost use Rattle.lanes_model.specs.Flat.{walk_in, left_by};
ghost use Rattle.capi_values.specs.Values.{sheet_by, counts_by};
ghost use Rattle.capi_lanes.specs.Answers.{left_as};

use capi_values::{counts_by, sheet_by};
use lanes::run_all;
use lanes_expr::LANES;
use memory::{BlockWords, CommandWords, NodeWords, Values};
use model::BlockNo;

// The refusal or 0, and how many blocks were read.
#[repr(C)]
#[derive(Clone, Copy)]
pub struct Walked {
    pub refusal: u8,
    pub read: u32,
}

// Runs the blocks from setup on for that many saves, whose parts lie one behind another, with a budget of 4,096 each. Every save's refusal and count go to its place in two arrays, whose places past the last save are left alone. Refused, nothing is written.
pub fn lk_run_all(
    attached: &[u8],
    atcs: u16,
    timer5: u16,
    timer10: u16,
    timer15: u16,
    ws: &NodeWords,
    val: &Values,
    cw: &CommandWords,
    bw: &BlockWords,
    nodes: u16,
    commands: u16,
    blocks: u16,
    setup: u32,
    saves: u32,
    items: &[i16],
    held: &[u8],
    flags: &[u8],
    times: &[i16],
    vars: &mut [i32],
    refusals: &mut [u8; LANES],
    entered: &mut [u32; LANES],
) -> Walked
    ensures { left_as result refusals.new entered.new vars.new ≡ left_by (walk_in (sheet_of attached.now (sheet_by atcs timer5 timer10 timer15)) (memory_of ws.now val.now cw.now bw.now (counts_by nodes commands blocks)) setup saves (save_of items.now held.now flags.now times.now vars.old)) refusals.old entered.old vars.old }
{
    let sheet = sheet_by(atcs, timer5, timer10, timer15);
    let counts = counts_by(nodes, commands, blocks);
    let r = run_all(
        attached,
        sheet,
        ws,
        val,
        cw,
        bw,
        counts,
        BlockNo(setup),
        saves,
        items,
        held,
        flags,
        times,
        vars,
        refusals,
        entered,
    );
    match r {
        Ok(read) => Walked {
            refusal: 0,
            read: read,
        },
        Err(e) => Walked {
            refusal: e.number(),
            read: 0,
        },
    }
}
