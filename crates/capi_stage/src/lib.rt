// The calls for the file of a stage, which is the input of slots: its sheet and setup number are read and written here, its image by the calls of capi.
#![tactic(auto)]

ghost use Rattle.std.specs.Prelude.{◌≡◌};
ghost use Rattle.model.specs.Refusals.{refusal_number};
ghost use Rattle.image_write.specs.Call.{wrote};
ghost use Rattle.slots_heading.specs.Bytes.{head_by, write_head, head_length};
ghost use Rattle.capi_values.specs.Values.{sheet_by};
ghost use Rattle.capi_stage.specs.Answers.{told, no_head, head_told};
ghost use Rattle.capi_stage.specs.Told.{headed_of};

use capi_values::sheet_by;
use model::{INPUT, Refusal};
use slots_heading::write_heading;
use slots_sheet::{Heading, read_heading};

// The refusal or 0, how many items and atcs there are, the three timers' items, the setup number, and where the image begins; all else is 0 on a refusal.
#[repr(C)]
#[derive(Clone, Copy)]
pub struct Headed {
    pub refusal: u8,
    pub items: u16,
    pub atcs: u16,
    pub timer5: u16,
    pub timer10: u16,
    pub timer15: u16,
    pub setup: u32,
    pub at: usize,
}

// The refusal or 0, and the length of the heading in bytes.
#[repr(C)]
#[derive(Clone, Copy)]
pub struct Written {
    pub refusal: u8,
    pub len: usize,
}

fn no_head(refusal: Refusal) -> Headed
    ensures { result ≡ no_head (refusal_number refusal) }
{
    Headed {
        refusal: refusal.number(),
        items: 0,
        atcs: 0,
        timer5: 0,
        timer10: 0,
        timer15: 0,
        setup: 0,
        at: 0,
    }
}

fn headed_of(h: Heading) -> Headed
    ensures { result ≡ headed_of h }
{
    let sheet = h.sheet;
    Headed {
        refusal: 0,
        items: h.items,
        atcs: sheet.atcs,
        timer5: sheet.timer5.0,
        timer10: sheet.timer10.0,
        timer15: sheet.timer15.0,
        setup: h.setup,
        at: h.at,
    }
}

// Sheet and setup number of a stage, its items' atcs + 1 or 0 into the array, whose places past the items stay. A refused read hands out nothing: the array is zero then.
pub fn lk_read_heading(bytes: &[u8], attached: &mut [u8; 512]) -> Headed
    ensures { told result attached.new ≡ head_told bytes.now attached.old }
{
    if INPUT < bytes.len() {
        *attached = [0; 512];
        return no_head(Refusal::OverLimit);
    }
    match read_heading(bytes, attached) {
        Ok(h) => headed_of(h),
        Err(e) => no_head(e),
    }
}

// Sheet and setup number into a slice, as lk_read_heading reads them. Refused, the slice stays as it was; so do the bytes past the heading.
pub fn lk_write_heading(
    attached: &[u8],
    atcs: u16,
    timer5: u16,
    timer10: u16,
    timer15: u16,
    setup: u32,
    out: &mut [u8],
) -> Written
    ensures { (wrote result.refusal out.new ≡ write_head (head_by attached.now (sheet_by atcs timer5 timer10 timer15) setup) out.old) × (result.len ≡ head_length (head_by attached.now (sheet_by atcs timer5 timer10 timer15) setup) out.old) }
{
    let sheet = sheet_by(atcs, timer5, timer10, timer15);
    match write_heading(attached, sheet, setup, out) {
        Ok(len) => Written {
            refusal: 0,
            len: len,
        },
        Err(e) => Written {
            refusal: e.number(),
            len: 0,
        },
    }
}
