// The pooling service.
ghost use Rattle.std.specs.Prelude.{◌≡◌};
ghost use Rattle.scheme.specs.Scheme.{sixteen};
ghost use Rattle.solve.specs.Solve.{laws16};
ghost use Rattle.service.specs.Calls.{plan_step, open_step, first_refusal, first_left, close_step, reply_refusal, reply_left};
ghost use Rattle.finish.specs.Finish.{finish_step};
ghost use Rattle.plan.specs.Plan.{code_plan};
ghost use Rattle.capi.specs.Lent.{arrays, state, head_at, plan_left, open_left, closed_answer, close_left, finished_answer, finish_left, finish_totals};

use capi::pooling::{CutawhenoClosed, CutawhenoFinished, NUMBERS};
use plan::{CELLS, FIRSTS, MOST_PLACES};

#[unsafe(no_mangle)]
pub extern "C" fn cutawheno_service_plan(
    head: &mut [u32; NUMBERS],
    first: &mut [u16; FIRSTS],
    reply: &mut [u16; CELLS],
    users: u32,
    threshold: u32,
    collusion: u32,
    blocks: u32,
) -> u32
    ensures number { result
        ≡ (plan_step (state (arrays head.old first.old reply.old)) (code_plan users threshold collusion blocks)).number }
    ensures left { arrays head.new first.new reply.new
        ≡ plan_left (arrays head.old first.old reply.old) (code_plan users threshold collusion blocks) }
{
    capi::pooling::cutawheno_service_plan(head, first, reply, users, threshold, collusion, blocks)
}

#[unsafe(no_mangle)]
pub extern "C" fn cutawheno_service_open(
    head: &mut [u32; NUMBERS],
    first: &mut [u16; FIRSTS],
    reply: &mut [u16; CELLS],
    round: u32,
) -> u32
    ensures number { result ≡ (open_step (state (arrays head.old first.old reply.old)) round).number }
    ensures left { arrays head.new first.new reply.new
        ≡ open_left (arrays head.old first.old reply.old) round }
{
    capi::pooling::cutawheno_service_open(head, first, reply, round)
}

#[unsafe(no_mangle)]
pub extern "C" fn cutawheno_service_first_element(
    head: &[u32; NUMBERS],
    first: &mut [u16; FIRSTS],
    user: u32,
    place: u32,
    element: u32,
) -> u32
    ensures number { result ≡ first_refusal sixteen (head_at head.now) first.old user place element }
    ensures left { first.new ≡ first_left sixteen (head_at head.now) first.old user place element }
{
    capi::pooling::cutawheno_service_first_element(head, first, user, place, element)
}

#[unsafe(no_mangle)]
pub extern "C" fn cutawheno_service_close(
    head: &mut [u32; NUMBERS],
    first: &[u16; FIRSTS],
    reply: &mut [u16; CELLS],
) -> CutawhenoClosed
    ensures answer { result ≡ closed_answer (close_step (state (arrays head.old first.now reply.old))) }
    ensures left { arrays head.new first.now reply.new
        ≡ close_left (arrays head.old first.now reply.old) }
{
    capi::pooling::cutawheno_service_close(head, first, reply)
}

#[unsafe(no_mangle)]
pub extern "C" fn cutawheno_service_reply_element(
    head: &[u32; NUMBERS],
    reply: &mut [u16; CELLS],
    user: u32,
    block: u32,
    element: u32,
) -> u32
    ensures number { result ≡ reply_refusal sixteen (head_at head.now) reply.old user block element }
    ensures left { reply.new ≡ reply_left sixteen (head_at head.now) reply.old user block element }
{
    capi::pooling::cutawheno_service_reply_element(head, reply, user, block, element)
}

#[unsafe(no_mangle)]
pub extern "C" fn cutawheno_service_finish(
    head: &mut [u32; NUMBERS],
    first: &mut [u16; FIRSTS],
    reply: &mut [u16; CELLS],
    totals: &mut [u16; MOST_PLACES],
) -> CutawhenoFinished
    ensures answer { result
        ≡ finished_answer (finish_step sixteen laws16 (state (arrays head.old first.old reply.old))) }
    ensures left { arrays head.new first.new reply.new
        ≡ finish_left (arrays head.old first.old reply.old) }
    ensures totals { totals.new ≡ finish_totals (arrays head.old first.old reply.old) totals.old }
{
    capi::pooling::cutawheno_service_finish(head, first, reply, totals)
}
