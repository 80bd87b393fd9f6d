// The file of a stage: its heading, as C calls them.
ghost use Rattle.std.specs.Prelude.{◌≡◌};
ghost use Rattle.image_write.specs.Call.{wrote};
ghost use Rattle.slots_heading.specs.Bytes.{head_by, write_head, head_length};
ghost use Rattle.capi_values.specs.Values.{sheet_by};
ghost use Rattle.capi_stage.specs.Answers.{told, no_head, head_told};
ghost use Rattle.capi_stage.specs.Told.{headed_of};

use capi_stage::{Headed, Written};

// Sheet and setup number of a stage, its items' atcs + 1 or 0 into the array, whose places past the items stay. A refused read hands out nothing: the array is zero then.
#[unsafe(no_mangle)]
pub extern "C" fn lk_read_heading(bytes: &[u8], attached: &mut [u8; 512]) -> Headed
    ensures { told result attached.new ≡ head_told bytes.now attached.old }
{
    capi_stage::lk_read_heading(bytes, attached)
}

// Sheet and setup number into a slice, as lk_read_heading reads them. Refused, the slice stays as it was; so do the bytes past the heading.
#[unsafe(no_mangle)]
pub extern "C" fn lk_write_heading(
    attached: &[u8],
    atcs: u16,
    timer5: u16,
    timer10: u16,
    timer15: u16,
    setup: u32,
    out: &mut [u8],
) -> Written
    ensures { (wrote result.refusal out.new ≡ write_head (head_by attached.now (sheet_by atcs timer5 timer10 timer15) setup) out.old) × (result.len ≡ head_length (head_by attached.now (sheet_by atcs timer5 timer10 timer15) setup) out.old) }
{
    capi_stage::lk_write_heading(attached, atcs, timer5, timer10, timer15, setup, out)
}
