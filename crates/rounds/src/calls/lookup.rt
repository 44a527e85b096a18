// The line of a lookup.
//   check_found    w
// The line is the call, and every number of its answer compared.
ghost use Rattle.std.specs.Prelude.{◌≡◌};
ghost use Rattle.rounds.specs.Judged.{shown, lookup_shown};

use super::{Case, Verdict, judge_second, number_of};
use crate::lists::number_at;

// w user set number start: where the shares for the set start in the user's key. Behind a refusal the start is 0.
pub fn check_found(case: &Case, line: &[u16]) -> Verdict
    ensures { shown case.now result ≡ lookup_shown case.now line.now }
{
    let found = plan::find_reply(case.plan, number_at(line, 0), number_at(line, 1));
    judge_second(
        number_of(&found),
        number_at(line, 2),
        found.unwrap_or(0) == number_at(line, 3) as usize,
        Verdict::Start,
    )
}
