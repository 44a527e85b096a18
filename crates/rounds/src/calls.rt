// A line of the input is a call with what it must answer; its letter names the call, its numbers follow. The second implementation
// writes such lines (reference/src/material/vectors.rs sets them out).
//   maker, ends, pooling       the lines of the key office, of an airfield end, and of the service
//   meaning                    the lines of the reader of totals, and of the way in for a signed figure
//   lookup                     the line of a lookup
//   input, line                the input, line by line; one line
//   Verdict, Case              whether a call answered as the line says, or what differs; what the lines of a case have made so far
//   end_under                  the end of a case before a line starts one
//   number_of, number_in_part  the number of an answer
//   judge, agree, judge_second what differs first
//   check                      the call of one line
// Every answer is compared whole: number, stage, set, airfield set aside, start, value, and the lent buffer to its end.
ghost use Rattle.std.specs.Prelude.{◌≡◌, [], true, false, MatchResult};
ghost use Rattle.plan.specs.Numbers.{numbered};
ghost use Rattle.rounds.specs.Judged.{agreed, judged, judged_second};
ghost use Rattle.rounds.specs.Lists.{list_of, key_of};

pub mod ends;
pub mod input;
pub mod line;
pub mod lookup;
pub mod maker;
pub mod meaning;
pub mod pooling;

use crate::lists::Lent;
use client::{Client, Stage};
use plan::{Plan, Refusal, Use};
use service::Service;
use std::fmt;

// What a line may want of a larger buffer than there is; no call answers it. A line has numbers alone, so this is one too.
const NO_ROOM: u32 = 99;

// No Result, since what is judged of a line is told in either case by the same definitions.
#[derive(Clone, Copy, Debug, PartialEq, Eq)]
pub enum Verdict {
    Agrees,
    Damaged,
    Number,
    Stage,
    Set,
    Aside,
    Start,
    Value,
    Elements,
}

impl Verdict {
    #[tactic(auto, unfolding(crate::specs::Judged::agreed))]
    fn agrees(self) -> bool
        ensures { result ≡ agreed self }
    {
        matches!(self, Verdict::Agrees)
    }

    // Nothing where the line agrees; else what differs, which ends the run.
    fn ending(self) -> Result<(), Verdict>
        ensures { MatchResult result (λ _. agreed self ≡ true) (λ why. (why ≡ self) × (agreed self ≡ false)) }
    {
        if self.agrees() { Ok(()) } else { Err(self) }
    }
}

impl fmt::Display for Verdict {
    fn fmt<W: fmt::Write>(&self, f: &mut fmt::Formatter<W>) -> fmt::Result {
        f.write_str(match self {
            Verdict::Agrees => "agrees",
            Verdict::Damaged => "no line of a case",
            Verdict::Number => "another number is answered",
            Verdict::Stage => "the end is at another stage",
            Verdict::Set => "another set is handed back",
            Verdict::Aside => "another airfield is set aside",
            Verdict::Start => "another start is told",
            Verdict::Value => "another value is read",
            Verdict::Elements => "other elements are handed back",
        })
    }
}

// The plan; what is lent; the airfield end, and the service.
#[derive(Drop)]
pub struct Case {
    pub plan: Plan,
    pub lent: Lent,
    pub end: Client,
    pub service: Service,
}

impl Case {
    // A case of a plan, with a service that has nothing yet.
    fn new(plan: Plan) -> Case {
        Case {
            plan,
            lent: Lent::new(),
            end: end_under(plan),
            service: Service::new(),
        }
    }

    // The same in the place of another case. What was lent there stays where it lies and is lent no more: each line `p` would else write all of
    // that room.
    fn begin(&mut self, plan: Plan)
        ensures { (list_of self.new.lent ≡ []) × (key_of self.new.lent ≡ []) }
    {
        self.plan = plan;
        self.lent.clear();
        self.end = end_under(plan);
        self.service = Service::new();
    }
}

// The end of a case before a line starts one.
fn end_under(plan: Plan) -> Client {
    Client {
        plan,
        user: 0,
        usage: Use::Counts,
        round: 0,
        stage: Stage::Fresh,
    }
}

// The number of an answer: 0, or the refusal's.
fn number_of<T>(answer: &Result<T, Refusal>) -> u32
    ensures { result ≡ numbered answer.now }
{
    match answer {
        Ok(_) => 0,
        Err(refusal) => u32::from(*refusal),
    }
}

// The same of a call for whose answer a part of a buffer is lent, where the buffer has such a part.
fn number_in_part<T>(answer: &Option<Result<T, Refusal>>) -> u32 {
    match answer {
        Some(answer) => number_of(answer),
        None => NO_ROOM,
    }
}

// Number, stage and elements of an answer, the first that differs.
#[tactic(auto, unfolding(crate::specs::Judged::judged))]
fn judge(got: u32, wanted: u32, stage: bool, elements: bool) -> Verdict
    ensures { result ≡ judged got wanted stage elements }
{
    if got != wanted {
        return Verdict::Number;
    }
    if !stage {
        return Verdict::Stage;
    }
    if !elements {
        return Verdict::Elements;
    }
    Verdict::Agrees
}

fn agree(got: u32, wanted: u32) -> Verdict
    ensures { result ≡ judged got wanted true true }
{
    judge(got, wanted, true, true)
}

// Number of an answer, and whether what comes with it is the same; `otherwise` is the verdict where that differs.
#[tactic(auto, unfolding(crate::specs::Judged::judged_second))]
fn judge_second(number: u32, wanted: u32, same: bool, otherwise: Verdict) -> Verdict
    ensures { result ≡ judged_second number wanted same otherwise }
{
    if number != wanted {
        return Verdict::Number;
    }
    if !same {
        return otherwise;
    }
    Verdict::Agrees
}

// Makes the call of a line and compares. A line with this letter has so many numbers.
fn check(case: &mut Case, letter: u8, line: &[u16]) -> Verdict {
    match (letter, line.len()) {
        (b'l', _) => maker::lend_list(case, line),
        (b'y', _) => maker::lend_key(case, line),
        (b'd', 3..) => maker::check_list(case, line),
        (b'k', 3..) => maker::check_key(case, line),
        (b's', 5) => ends::check_start(case, line),
        (b'f', 4..) => ends::check_first(case, line),
        (b'r', 5..) => ends::check_reply(case, line),
        (b'p', 5) => pooling::check_plan(case, line),
        (b'o', 2) => pooling::check_open(case, line),
        (b'e', 3..) => pooling::check_elements(case, line),
        (b'c', 2) => pooling::check_close(case, line),
        (b'a', 3..) => pooling::check_answers(case, line),
        (b't', 2..) => pooling::check_finish(case, line),
        (b'w', 4) => lookup::check_found(case, line),
        (b'v', 5) => meaning::check_total(case, line),
        (b'x', 4) => meaning::check_residue(case, line),
        _ => Verdict::Damaged,
    }
}
