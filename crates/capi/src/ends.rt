// The airfield end for callers in C and Rust, over an array that the caller lends: include/cutawheno.h declares these functions.
//   cutawheno_end_start                 a fresh end
//   cutawheno_end_first_message         figures plus masks
//   cutawheno_end_reply, CutawhenoPart  where in the key the shares for a set lie
//   END, end_at                         the length of `end`, and what its numbers stand for
// `end` has users, threshold, collusion, blocks, user, stage (0 fresh, 1 sent, 2 + v has answered the set v), use (0 counts, anything
// else signed) and the round that its key belongs to. The calls move the stage themselves. Any numbers are an end, so 1 and 4 are tested
// at each call, ahead of the others. A refused call hands back its number and leaves the array and every buffer as they came.
// Lists come first: they are pointer and length in registers, as C passes them.
ghost use Rattle.std.specs.Prelude.{◌≡◌, ◌+◌, ◌≤◌, length};
ghost use Rattle.scheme.specs.Scheme.{sixteen};
ghost use Rattle.client.specs.Client.{begun, first_answer, message_left, reply_answer};
ghost use Rattle.plan.specs.Plan.{code_plan, code_use};
ghost use Rattle.capi.specs.Ends.{end_at, start_left, kept, part_answer};

use super::plan_from;
use client::{Client, Stage};
use plan::Use;

// The length of `end`.
pub const END: usize = 8;

#[repr(C)]
#[derive(Clone, Copy)]
pub struct CutawhenoPart {
    pub number: u32,
    pub start: u32,
    pub count: u32,
}

// What the numbers stand for.
#[tactic(auto, using(crate::proofs::Laws::stage_back), unfolding(crate::specs::Ends::end_at))]
fn end_at(end: &[u32; END]) -> Client
    ensures { result ≡ end_at end.now }
{
    let [
        users,
        threshold,
        collusion,
        blocks,
        user,
        stage,
        usage,
        round,
    ] = *end;
    Client {
        plan: plan_from(users, threshold, collusion, blocks),
        user,
        usage: Use::from(usage),
        round,
        stage: Stage::from(stage),
    }
}

// "Start of an end: 1, 4."
#[tactic(auto, using(crate::proofs::Laws::answered), unfolding(crate::specs::Ends::start_left))]
#[unsafe(no_mangle)]
pub extern "C" fn cutawheno_end_start(
    end: &mut [u32; END],
    users: u32,
    threshold: u32,
    collusion: u32,
    blocks: u32,
    user: u32,
    is_signed: u32,
    round: u32,
) -> u32
    ensures number { result ≡ (begun (code_plan users threshold collusion blocks) user (code_use is_signed) round).number }
    ensures left { end.new ≡ start_left (code_plan users threshold collusion blocks) user is_signed round end.old }
{
    let plan = plan_from(users, threshold, collusion, blocks);
    match plan::check_start(plan, user) {
        Ok(()) => {
            *end = [
                users, threshold, collusion, blocks, user, 0, is_signed, round,
            ];
            0
        }
        Err(refusal) => u32::from(refusal),
    }
}

// "First message: 18, 2, 3", and then 32. A taken one leaves the end at the stage sent.
#[tactic(auto, using(crate::proofs::Laws::answered), unfolding(client::specs::Client::stage_number, client::specs::Client::stage_of))]
#[unsafe(no_mangle)]
pub extern "C" fn cutawheno_end_first_message(
    key: &[u16],
    figures: &[u16],
    message: &mut [u16],
    end: &mut [u32; END],
) -> u32
    ensures number { result
        ≡ (first_answer sixteen (end_at end.old) key.now figures.now (length message.old)).number }
    ensures message { message.new
        ≡ message_left sixteen (end_at end.old) key.now figures.now message.old }
    ensures left { end.new
        ≡ kept (first_answer sixteen (end_at end.old) key.now figures.now (length message.old))
        end.old }
{
    let client = end_at(end);
    match client.first_message(key, figures, message) {
        Ok(_) => {
            end[5] = 1;
            0
        }
        Err(refusal) => u32::from(refusal),
    }
}

// "Reply: 18, 2, 3, 5, 6, 19", and 33 between the last two. The part of the key is given by its place, which lies inside the key.
#[tactic(auto, using(crate::proofs::Laws::answered), unfolding(client::specs::Client::stage_number, client::specs::Client::stage_of))]
#[unsafe(no_mangle)]
pub extern "C" fn cutawheno_end_reply(
    key: &[u16],
    end: &mut [u32; END],
    set: u32,
    round: u32,
) -> CutawhenoPart
    ensures part { result ≡ part_answer (end_at end.old) key.now set round }
    ensures inside { result.start + result.count ≤ length key.now }
    ensures left { end.new ≡ kept (reply_answer sixteen (end_at end.old) key.now set round) end.old }
{
    let client = end_at(end);
    match client.check_reply(key, set, round) {
        Ok(()) => {
            let start = plan::reply_start(client.plan, client.user, set) as u32;
            end[5] = set + 2;
            CutawhenoPart {
                number: 0,
                start,
                count: client.plan.blocks,
            }
        }
        Err(refusal) => CutawhenoPart {
            number: u32::from(refusal),
            start: 0,
            count: 0,
        },
    }
}
