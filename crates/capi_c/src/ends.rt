// The airfield end.
ghost use Rattle.std.specs.Prelude.{◌≡◌, ◌+◌, ◌≤◌, length};
ghost use Rattle.scheme.specs.Scheme.{sixteen};
ghost use Rattle.client.specs.Client.{begun, first_answer, message_left, reply_answer};
ghost use Rattle.plan.specs.Plan.{code_plan, code_use};
ghost use Rattle.capi.specs.Ends.{end_at, start_left, kept, part_answer};

use capi::ends::{CutawhenoPart, END};

#[unsafe(no_mangle)]
pub extern "C" fn cutawheno_end_start(
    end: &mut [u32; END],
    users: u32,
    threshold: u32,
    collusion: u32,
    blocks: u32,
    user: u32,
    is_signed: u32,
    round: u32,
) -> u32
    ensures number { result ≡ (begun (code_plan users threshold collusion blocks) user (code_use is_signed) round).number }
    ensures left { end.new ≡ start_left (code_plan users threshold collusion blocks) user is_signed round end.old }
{
    capi::ends::cutawheno_end_start(
        end, users, threshold, collusion, blocks, user, is_signed, round,
    )
}

#[unsafe(no_mangle)]
pub extern "C" fn cutawheno_end_first_message(
    key: &[u16],
    figures: &[u16],
    message: &mut [u16],
    end: &mut [u32; END],
) -> u32
    ensures number { result
        ≡ (first_answer sixteen (end_at end.old) key.now figures.now (length message.old)).number }
    ensures message { message.new
        ≡ message_left sixteen (end_at end.old) key.now figures.now message.old }
    ensures left { end.new
        ≡ kept (first_answer sixteen (end_at end.old) key.now figures.now (length message.old))
        end.old }
{
    capi::ends::cutawheno_end_first_message(key, figures, message, end)
}

#[unsafe(no_mangle)]
pub extern "C" fn cutawheno_end_reply(
    key: &[u16],
    end: &mut [u32; END],
    set: u32,
    round: u32,
) -> CutawhenoPart
    ensures part { result ≡ part_answer (end_at end.old) key.now set round }
    ensures inside { result.start + result.count ≤ length key.now }
    ensures left { end.new ≡ kept (reply_answer sixteen (end_at end.old) key.now set round) end.old }
{
    capi::ends::cutawheno_end_reply(key, end, set, round)
}
