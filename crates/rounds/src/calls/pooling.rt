// The lines of the service.
//   check_plan, check_open            p, o
//   all_answered                      elements to the service, one place or block after the other
//   check_elements, check_answers     e, a
//   check_close                       c
//   total_count, check_finish         how many totals a finish hands back; t
// Each line is the call, and every number of its answer compared.
ghost use Rattle.std.specs.Prelude.{◌≡◌};
ghost use Rattle.scheme.specs.Scheme.{after};
ghost use Rattle.rounds.specs.Judged.{shown, opened, closed};

use super::{Case, Verdict, agree, judge, judge_second, number_of};
use crate::lists::{holds_just, number_at, rest};
use plan::{Plan, Refusal};

// p K U T M number: a new case, whose service takes the plan.
pub fn check_plan(case: &mut Case, line: &[u16]) -> Verdict {
    let plan = Plan {
        users: number_at(line, 0),
        threshold: number_at(line, 1),
        collusion: number_at(line, 2),
        blocks: number_at(line, 3),
    };
    case.begin(plan);
    let planned = case.service.plan(plan);
    agree(number_of(&planned), number_at(line, 4))
}

// o round number: the service opens a round.
pub fn check_open(case: &mut Case, line: &[u16]) -> Verdict
    ensures { shown case.new result ≡ opened case.old line.now }
{
    let opened = case.service.open(number_at(line, 0));
    agree(number_of(&opened), number_at(line, 1))
}

// Gives elements to the service, from a place or a block on, and answers whether each of them is answered by the number.
fn all_answered<F: FnMut(u32, u16) -> Result<(), Refusal>>(
    from: u32,
    elements: &[u16],
    number: u32,
    mut give: F,
) -> bool
    requires { F.IsAlwaysCallable give }
{
    // counted by hand, since a place past the last number wraps, where a range would end
    let mut at = from;
    for element in elements {
        if number_of(&give(at, *element)) != number {
            return false;
        }
        at = at.wrapping_add(1);
    }
    true
}

fn handed(all: bool) -> Verdict {
    agree(u32::from(all), 1)
}

// e user place number elements..: first elements from a place on, each answered by the number.
pub fn check_elements(case: &mut Case, line: &[u16]) -> Verdict {
    let user = number_at(line, 0);
    let service = &mut case.service;
    handed(all_answered(
        number_at(line, 1),
        rest(line, 3),
        number_at(line, 2),
        |place, element| service.first_element(user, place, element),
    ))
}

// a user block number elements..: reply elements from a block on, each answered by the number.
pub fn check_answers(case: &mut Case, line: &[u16]) -> Verdict {
    let user = number_at(line, 0);
    let service = &mut case.service;
    handed(all_answered(
        number_at(line, 1),
        rest(line, 3),
        number_at(line, 2),
        |block, element| service.reply_element(user, block, element),
    ))
}

// c number set: the close, and the survivors.
pub fn check_close(case: &mut Case, line: &[u16]) -> Verdict
    ensures { shown case.new result ≡ closed case.old line.now }
{
    let closed = case.service.close();
    judge_second(
        number_of(&closed),
        number_at(line, 0),
        closed.unwrap_or(0) == number_at(line, 1),
        Verdict::Set,
    )
}

// How many totals a finish hands back: L, or none where it is refused.
fn total_count(number: u32, places: u32) -> usize
    ensures { result ≡ after number places 0 }
{
    if number != 0 {
        return 0;
    }
    places as usize
}

// t number aside totals..: the finish, the airfield set aside, and the totals.
pub fn check_finish(case: &mut Case, line: &[u16]) -> Verdict {
    let number = number_at(line, 0);
    let aside = number_at(line, 1);
    let wanted = rest(line, 2);
    if wanted.len() != total_count(number, case.service.head.places) {
        return Verdict::Damaged;
    }
    match finish::finish(&mut case.service) {
        Ok(total) if number == 0 && total.aside.unwrap_or(0) != aside => Verdict::Aside,
        Ok(total) => judge(0, number, true, holds_just(&total.totals, wanted, 0)),
        Err(refusal) => judge_second(u32::from(refusal), number, aside == 0, Verdict::Aside),
    }
}
