// The lines of the key office: what is lent to its calls, the random list from bytes, and the key maker.
//   lent_right                 a list that is lent must fit
//   lend_list, lend_key        l, y: a random list or a key is lent from now on
//   make_into, check_key       the key maker, into a part of a buffer; k
//   draw_into, check_list      a random list from bytes, into a part of a buffer; d
//   as_bytes                   the bytes of a line
// Each line is the call, and every number of its answer compared.
ghost use Rattle.std.specs.Prelude.{◌≡◌};
ghost use Rattle.rounds.specs.Judged.{lent_right};

use super::{Case, Verdict, judge, number_in_part};
use crate::lists::{
    KEY_AT, ROOM, SPACE, all_bytes, copy_bytes, marked, marked_behind, number_at, rest,
};
use plan::{Plan, Refusal};

#[tactic(auto, unfolding(crate::specs::Judged::lent_right))]
fn lent_right(fits: bool) -> Verdict
    ensures { result ≡ lent_right fits }
{
    if fits {
        Verdict::Agrees
    } else {
        Verdict::Damaged
    }
}

// l list..: the random list lent from now on.
pub fn lend_list(case: &mut Case, line: &[u16]) -> Verdict {
    lent_right(case.lent.lend_list(line))
}

// y key..: the key lent from now on.
pub fn lend_key(case: &mut Case, line: &[u16]) -> Verdict {
    lent_right(case.lent.lend_key(line))
}

// The key maker, into a part of a buffer, where there is one.
pub fn make_into(
    plan: Plan,
    user: u32,
    list: &[u16],
    out: &mut [u16],
    room: usize,
) -> Option<Result<(), Refusal>> {
    let part = out.get_mut(..room)?;
    Some(keys::make_key(plan, user, list, part))
}

// k user room number key..: the key maker, into a buffer of that room; the key is lent from now on.
pub fn check_key(case: &mut Case, line: &[u16]) -> Verdict {
    let wanted = rest(line, 3);
    let mut key: [u16; ROOM] = marked();
    let made = make_into(
        case.plan,
        number_at(line, 0),
        case.lent.list(),
        &mut key,
        number_at(line, 1) as usize,
    );
    case.lent.lend_key(wanted);
    judge(
        number_in_part(&made),
        number_at(line, 2),
        true,
        marked_behind(&key, wanted),
    )
}

// A random list from bytes, into a part of a buffer, where there is one.
fn draw_into(
    plan: Plan,
    bytes: &[u8],
    out: &mut [u16],
    room: usize,
) -> Option<Result<(), Refusal>> {
    let part = out.get_mut(..room)?;
    Some(keys::list_from_bytes(plan, bytes, part))
}

// The numbers of a line as bytes, in the buffer, if they are such and fit.
fn as_bytes<'a>(numbers: &[u16], out: &'a mut [u8]) -> Option<&'a [u8]> {
    if all_bytes(numbers) && copy_bytes(numbers, out) {
        Some(&out[..numbers.len()])
    } else {
        None
    }
}

// d room number n bytes.. list..: a random list from n bytes, into a buffer of that room; a list that is taken is lent from now on.
pub fn check_list(case: &mut Case, line: &[u16]) -> Verdict {
    let Some((numbers, wanted)) = rest(line, 3).split_at_checked(number_at(line, 2) as usize) else {
        return Verdict::Damaged;
    };
    let mut buffer = [0u8; SPACE];
    let Some(bytes) = as_bytes(numbers, &mut buffer) else {
        return Verdict::Damaged;
    };
    let mut list: [u16; KEY_AT] = marked();
    let drawn = draw_into(case.plan, bytes, &mut list, number_at(line, 0) as usize);
    if drawn == Some(Ok(())) {
        case.lent.lend_list(wanted);
    }
    judge(
        number_in_part(&drawn),
        number_at(line, 1),
        true,
        marked_behind(&list, wanted),
    )
}
