// What elements mean in whole numbers: the reader of totals, and the way in for a signed figure.
//   read_total      a total as counts, or as signed figures: 3
//   residue_of      the element that stands for a signed figure of a plan: 1, 32
//   Q               the modulus
#![tactic(auto)]

ghost use Rattle.std.specs.Prelude.{◌≡◌};
ghost use Rattle.scheme.specs.Scheme.{sixteen};
ghost use Rattle.plan.specs.Plan.{plan_of, use_of};
ghost use Rattle.reading.specs.Reading.{reading_by, reading, residue_given_by, residue_answer};

use plan::{Plan, Refusal, Use};

const Q: i32 = element::Q as i32;

// "The reader refuses a total above 65520 by 3"; of signed figures, "a total above 32760 is read as itself less q".
#[tactic(auto, using(crate::proofs::Laws::read))]
pub fn read_total(usage: Use, total: u32) -> Result<i32, Refusal>
    ensures { reading_by result ≡ reading sixteen (use_of usage) total }
{
    if element::Q <= total {
        return Err(Refusal::BadElement);
    }
    let value = total as i32;
    if total <= plan::reach_of(usage) {
        return Ok(value);
    }
    Ok(value - Q)
}

// "It is lent and travels as its residue modulo q": 1, then 32 beyond the plan's bound.
#[tactic(auto, using(crate::proofs::Laws::answered))]
pub fn residue_of(plan: Plan, value: i32) -> Result<u16, Refusal>
    ensures { residue_given_by result ≡ residue_answer sixteen (plan_of plan) value }
{
    if !plan::is_good(plan) {
        return Err(Refusal::BadPlan);
    }
    let bound = plan::bound_of(plan, Use::Signed) as u32;
    if value < 0 {
        // how far below -1, and so below the last element
        let less = (-1 - value) as u32;
        if bound <= less {
            return Err(Refusal::FigureBeyond);
        }
        return Ok((element::Q - 1 - less) as u16);
    }
    let more = value as u32;
    if bound < more {
        return Err(Refusal::FigureBeyond);
    }
    Ok(more as u16)
}
