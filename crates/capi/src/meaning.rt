// What a total means, and the way in for a signed figure, for callers in C and Rust: include/cutawheno.h declares these functions.
//   cutawheno_read_total, CutawhenoReading    the whole number that a total stands for
//   cutawheno_residue, CutawhenoResidue       the element that stands for a signed figure
// A refused call hands back its number, and 0.
ghost use Rattle.std.specs.Prelude.{◌≡◌};
ghost use Rattle.plan.specs.Plan.{plan_of, code_plan};
ghost use Rattle.capi.specs.Meaning.{total_read, residue_given};

use super::plan_from;
use plan::Use;

#[repr(C)]
#[derive(Clone, Copy)]
pub struct CutawhenoReading {
    pub number: u32,
    pub value: i32,
}

#[repr(C)]
#[derive(Clone, Copy)]
pub struct CutawhenoResidue {
    pub number: u32,
    pub element: u16,
}

// 3. 0 counts, anything else signed.
#[tactic(auto, using(crate::proofs::Laws::read_back), unfolding(crate::specs::Meaning::as_reading))]
#[unsafe(no_mangle)]
pub extern "C" fn cutawheno_read_total(total: u32, is_signed: u32) -> CutawhenoReading
    ensures { result ≡ total_read is_signed total }
{
    match reading::read_total(Use::from(is_signed), total) {
        Ok(value) => CutawhenoReading { number: 0, value },
        Err(refusal) => CutawhenoReading {
            number: u32::from(refusal),
            value: 0,
        },
    }
}

// 1, then 32.
#[tactic(auto, using(crate::proofs::Laws::read_back), unfolding(crate::specs::Meaning::as_residue))]
#[unsafe(no_mangle)]
pub extern "C" fn cutawheno_residue(
    value: i32,
    users: u32,
    threshold: u32,
    collusion: u32,
    blocks: u32,
) -> CutawhenoResidue
    ensures { result ≡ residue_given (plan_of (code_plan users threshold collusion blocks)) value }
{
    let plan = plan_from(users, threshold, collusion, blocks);
    match reading::residue_of(plan, value) {
        Ok(element) => CutawhenoResidue { number: 0, element },
        Err(refusal) => CutawhenoResidue {
            number: u32::from(refusal),
            element: 0,
        },
    }
}
