// The lines of an airfield end.
//   check_start            s
//   stage_is               whether a stage has a number
//   check_first            f: a first message, into a part of a buffer
//   check_reply            r
// Each line is the call, and every number of its answer compared.
ghost use Rattle.std.specs.Prelude.{◌≡◌, ◌==◌};
ghost use Rattle.client.specs.Client.{stage_of, stage_number};
ghost use Rattle.rounds.specs.Judged.{shown, started};
ghost use Rattle.rounds.specs.Replied.{answered};

use super::{Case, Verdict, agree, judge, number_in_part, number_of};
use crate::lists::{ROOM, marked, marked_behind, number_at, rest, round_at};
use client::{Client, Stage};
use plan::Use;

// s user use low high number: a fresh end for a round; the use is 0 for counts, anything else for signed figures.
pub fn check_start(case: &mut Case, line: &[u16]) -> Verdict
    ensures { shown case.new result ≡ started case.old line.now }
{
    let usage = Use::from(number_at(line, 1));
    let wanted = number_at(line, 4);
    match Client::start(case.plan, number_at(line, 0), usage, round_at(line, 2)) {
        Ok(end) => {
            case.end = end;
            agree(0, wanted)
        }
        Err(refusal) => agree(u32::from(refusal), wanted),
    }
}

// Stages as numbers: 0 fresh, 1 sent, 2 + v has answered the set v.
#[tactic(auto, unfolding(client::specs::Client::stage_of, client::specs::Client::stage_number))]
fn stage_is(stage: Stage, number: u32) -> bool
    ensures { result ≡ (number == stage_number (stage_of stage)) }
{
    match stage {
        Stage::Fresh => number == 0,
        Stage::Sent => number == 1,
        Stage::Answered(set) => u64::from(number) == u64::from(set) + 2,
    }
}

// f room number stage n figures.. message..: the end's first message for n figures, into a buffer of that room.
pub fn check_first(case: &mut Case, line: &[u16]) -> Verdict {
    let Some((figures, wanted)) = rest(line, 4).split_at_checked(number_at(line, 3) as usize) else {
        return Verdict::Damaged;
    };
    let mut message: [u16; ROOM] = marked();
    let sent = message.get_mut(..number_at(line, 0) as usize).map(|part| {
        case.end.first_message(case.lent.key(), figures, part)
    });
    if let Some(Ok(end)) = sent {
        case.end = end;
    }
    judge(
        number_in_part(&sent),
        number_at(line, 1),
        stage_is(case.end.stage, number_at(line, 2)),
        marked_behind(&message, wanted),
    )
}

// r set low high number stage part..: the end's reply to a set, announced for a round, and the part of the key.
pub fn check_reply(case: &mut Case, line: &[u16]) -> Verdict
    ensures { shown case.new result ≡ answered case.old line.now }
{
    let wanted = rest(line, 5);
    let key = case.lent.key();
    let replied = case.end.reply(key, number_at(line, 0), round_at(line, 1));
    let number = number_at(line, 3);
    let stage = number_at(line, 4);
    match replied {
        Ok(replied) => {
            case.end = replied.client;
            judge(
                0,
                number,
                stage_is(case.end.stage, stage),
                replied.part == wanted,
            )
        }
        Err(refusal) => judge(
            u32::from(refusal),
            number,
            stage_is(case.end.stage, stage),
            wanted.is_empty(),
        ),
    }
}
