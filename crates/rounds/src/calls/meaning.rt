// The lines of the reader of totals, and of the way in for a signed figure. No number of a line lies below zero, so a value takes two:
// 0, or 1 if it lies below zero, and how far from zero it lies.
//   value_of                 the value that two numbers stand for
//   check_total              v
//   check_residue            x
// Each line is the call, and every number of its answer compared.
ghost use Rattle.std.specs.Prelude.{◌≡◌, ◌≤◌};
ghost use Rattle.rounds.specs.Judged.{value_of, shown, total_shown, residue_shown};

use super::{Case, Verdict, judge, judge_second, number_of};
use crate::lists::number_at;
use plan::Use;

fn value_of(below: u32, size: u32) -> i32
    requires { size ≤ 65535 }
    ensures { result ≡ value_of below size }
{
    let value = size as i32;
    if below == 0 {
        return value;
    }
    -value
}

// v use total number below size: a total of a use, read. Behind a refusal the value is 0.
pub fn check_total(case: &Case, line: &[u16]) -> Verdict
    ensures { shown case.now result ≡ total_shown case.now line.now }
{
    let usage = Use::from(number_at(line, 0));
    let read = reading::read_total(usage, number_at(line, 1));
    let expected = value_of(number_at(line, 3), number_at(line, 4));
    judge_second(
        number_of(&read),
        number_at(line, 2),
        read.unwrap_or(0) == expected,
        Verdict::Value,
    )
}

// x below size number element: a value as a signed figure of the plan. Behind a refusal the element is 0.
pub fn check_residue(case: &Case, line: &[u16]) -> Verdict
    ensures { shown case.now result ≡ residue_shown case.now line.now }
{
    let value = value_of(number_at(line, 0), number_at(line, 1));
    let residue = reading::residue_of(case.plan, value);
    judge(
        number_of(&residue),
        number_at(line, 2),
        true,
        u32::from(residue.unwrap_or(0)) == number_at(line, 3),
    )
}
