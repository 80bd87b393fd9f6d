// What the numbers that exported calls take stand for: the sheet of an id sheet's four numbers, and a script's counts of three.
#![tactic(auto)]

ghost use Rattle.std.specs.Prelude.{◌≡◌};
ghost use Rattle.capi_values.specs.Values.{counts_by, sheet_by};

use memory::Counts;
use model::ItemId;
use shop::Sheet;

pub fn sheet_by(atcs: u16, timer5: u16, timer10: u16, timer15: u16) -> Sheet
    ensures { result ≡ sheet_by atcs timer5 timer10 timer15 }
{
    Sheet {
        atcs: atcs,
        timer5: ItemId(timer5),
        timer10: ItemId(timer10),
        timer15: ItemId(timer15),
    }
}

pub fn counts_by(nodes: u16, commands: u16, blocks: u16) -> Counts
    ensures { result ≡ counts_by nodes commands blocks }
{
    Counts {
        nodes: nodes,
        commands: commands,
        blocks: blocks,
    }
}
