// What a total means, and the way in for a signed figure.
ghost use Rattle.std.specs.Prelude.{◌≡◌};
ghost use Rattle.plan.specs.Plan.{plan_of, code_plan};
ghost use Rattle.capi.specs.Meaning.{total_read, residue_given};

use capi::meaning::{CutawhenoReading, CutawhenoResidue};

#[unsafe(no_mangle)]
pub extern "C" fn cutawheno_read_total(total: u32, is_signed: u32) -> CutawhenoReading
    ensures { result ≡ total_read is_signed total }
{
    capi::meaning::cutawheno_read_total(total, is_signed)
}

#[unsafe(no_mangle)]
pub extern "C" fn cutawheno_residue(
    value: i32,
    users: u32,
    threshold: u32,
    collusion: u32,
    blocks: u32,
) -> CutawhenoResidue
    ensures { result ≡ residue_given (plan_of (code_plan users threshold collusion blocks)) value }
{
    capi::meaning::cutawheno_residue(value, users, threshold, collusion, blocks)
}
