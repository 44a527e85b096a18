// The pooling service for callers in C and Rust, over state that the caller lends: include/cutawheno.h declares these functions.
//   cutawheno_service_plan, cutawheno_service_open       begin
//   cutawheno_service_first_element, cutawheno_service_reply_element     hold an element: the hot path
//   cutawheno_service_close, cutawheno_service_finish    the survivors' set, and the total; CutawhenoClosed: a close's number, and the set;
//                                                        CutawhenoFinished: a finish's number, and the user set aside
//   NUMBERS                                              the length of `head`
// The state is three arrays, all zero for a new service: `head` has the phase (0 unplanned, 1 idle, 2 gathering, 3 replying), users,
// threshold, collusion, blocks, places, round and survivors; `first` and `reply` hold the elements as crate service does. A refused
// call hands back its number and leaves every array as it came. No call copies a state.
ghost use Rattle.std.specs.Prelude.{◌≡◌};
ghost use Rattle.scheme.specs.Scheme.{sixteen};
ghost use Rattle.solve.specs.Solve.{laws16};
ghost use Rattle.service.specs.Calls.{plan_step, open_step, first_refusal, first_left, close_step, reply_refusal, reply_left};
ghost use Rattle.finish.specs.Finish.{finish_step};
ghost use Rattle.plan.specs.Plan.{code_plan};
ghost use Rattle.capi.specs.Lent.{arrays, state, phase_at, head_at, numbers, plan_left, open_left, closed_answer, close_left, finished_answer, finish_left, finish_totals};

use super::{numbered, plan_from};
use plan::{CELLS, FIRSTS, MOST_PLACES};
use service::{Head, Phase};

// The length of `head`.
pub const NUMBERS: usize = 8;

#[repr(C)]
#[derive(Clone, Copy)]
pub struct CutawhenoClosed {
    pub number: u32,
    pub set: u32,
}

#[repr(C)]
#[derive(Clone, Copy)]
pub struct CutawhenoFinished {
    pub number: u32,
    pub aside: u32,
}

// A number above 3, which no call leaves, is read as replying. Number and phase belong to other crates, so that this is no `From`.
#[tactic(auto, unfolding(crate::specs::Lent::phase_at), using(crate::proofs::Lent::phase_replying))]
fn phase_at(number: u32) -> Phase
    ensures { result ≡ phase_at number }
{
    match number {
        0 => Phase::Unplanned,
        1 => Phase::Idle,
        2 => Phase::Gathering,
        _ => Phase::Replying,
    }
}

// What the head's numbers stand for, and back.
#[tactic(auto, unfolding(crate::specs::Lent::head_at))]
fn head_at(head: &[u32; NUMBERS]) -> Head
    ensures { result ≡ head_at head.now }
{
    let [
        phase,
        users,
        threshold,
        collusion,
        blocks,
        places,
        round,
        survivors,
    ] = *head;
    Head {
        phase: phase_at(phase),
        plan: plan_from(users, threshold, collusion, blocks),
        places,
        round,
        survivors,
    }
}

#[tactic(auto, unfolding(crate::specs::Lent::numbers, crate::specs::Lent::phase_number))]
fn numbers(head: Head) -> [u32; NUMBERS]
    ensures { result ≡ numbers head }
{
    [
        head.phase as u32,
        head.plan.users,
        head.plan.threshold,
        head.plan.collusion,
        head.plan.blocks,
        head.places,
        head.round,
        head.survivors,
    ]
}

// 11, 1.
#[tactic(auto, using(crate::proofs::Lent::answered), unfolding(crate::specs::Lent::plan_left, service::specs::Calls::plan_step))]
#[unsafe(no_mangle)]
pub extern "C" fn cutawheno_service_plan(
    head: &mut [u32; NUMBERS],
    first: &mut [u16; FIRSTS],
    reply: &mut [u16; CELLS],
    users: u32,
    threshold: u32,
    collusion: u32,
    blocks: u32,
) -> u32
    ensures number { result
        ≡ (plan_step (state (arrays head.old first.old reply.old)) (code_plan users threshold collusion blocks)).number }
    ensures left { arrays head.new first.new reply.new
        ≡ plan_left (arrays head.old first.old reply.old) (code_plan users threshold collusion blocks) }
{
    let plan = plan_from(users, threshold, collusion, blocks);
    let mut held = head_at(head);
    match service::plan_lent(&mut held, first, reply, plan) {
        Ok(()) => {
            *head = numbers(held);
            0
        }
        Err(refusal) => u32::from(refusal),
    }
}

// 11, 17.
#[tactic(auto, using(crate::proofs::Lent::answered), unfolding(crate::specs::Lent::open_left, service::specs::Calls::open_step))]
#[unsafe(no_mangle)]
pub extern "C" fn cutawheno_service_open(
    head: &mut [u32; NUMBERS],
    first: &mut [u16; FIRSTS],
    reply: &mut [u16; CELLS],
    round: u32,
) -> u32
    ensures number { result ≡ (open_step (state (arrays head.old first.old reply.old)) round).number }
    ensures left { arrays head.new first.new reply.new
        ≡ open_left (arrays head.old first.old reply.old) round }
{
    let mut held = head_at(head);
    match service::open_lent(&mut held, first, reply, round) {
        Ok(()) => {
            *head = numbers(held);
            0
        }
        Err(refusal) => u32::from(refusal),
    }
}

// 11, 12, 4, 8, 3, 13. The element that is held is taken again, and changes nothing.
#[unsafe(no_mangle)]
pub extern "C" fn cutawheno_service_first_element(
    head: &[u32; NUMBERS],
    first: &mut [u16; FIRSTS],
    user: u32,
    place: u32,
    element: u32,
) -> u32
    ensures number { result ≡ first_refusal sixteen (head_at head.now) first.old user place element }
    ensures left { first.new ≡ first_left sixteen (head_at head.now) first.old user place element }
{
    numbered(service::put_first(head_at(head), first, user, place, element))
}

// 11, 12, 15.
#[tactic(auto, using(crate::proofs::Lent::answered), unfolding(crate::specs::Lent::close_left))]
#[unsafe(no_mangle)]
pub extern "C" fn cutawheno_service_close(
    head: &mut [u32; NUMBERS],
    first: &[u16; FIRSTS],
    reply: &mut [u16; CELLS],
) -> CutawhenoClosed
    ensures answer { result ≡ closed_answer (close_step (state (arrays head.old first.now reply.old))) }
    ensures left { arrays head.new first.now reply.new
        ≡ close_left (arrays head.old first.now reply.old) }
{
    let mut held = head_at(head);
    match service::close_lent(&mut held, first, reply) {
        Ok(set) => {
            *head = numbers(held);
            CutawhenoClosed { number: 0, set }
        }
        Err(refusal) => CutawhenoClosed {
            number: u32::from(refusal),
            set: 0,
        },
    }
}

// 11, 12, 4, 8, 3, 14, 13. The element that is held is taken again, and changes nothing.
#[unsafe(no_mangle)]
pub extern "C" fn cutawheno_service_reply_element(
    head: &[u32; NUMBERS],
    reply: &mut [u16; CELLS],
    user: u32,
    block: u32,
    element: u32,
) -> u32
    ensures number { result ≡ reply_refusal sixteen (head_at head.now) reply.old user block element }
    ensures left { reply.new ≡ reply_left sixteen (head_at head.now) reply.old user block element }
{
    numbered(service::put_reply(head_at(head), reply, user, block, element))
}

// 11, 12, 15, 16. The totals come in the first L places, with 0 behind them. The user set aside is 0 if there is none.
#[tactic(auto, using(crate::proofs::Lent::answered), unfolding(crate::specs::Lent::finish_left, crate::specs::Lent::finish_totals))]
#[unsafe(no_mangle)]
pub extern "C" fn cutawheno_service_finish(
    head: &mut [u32; NUMBERS],
    first: &mut [u16; FIRSTS],
    reply: &mut [u16; CELLS],
    totals: &mut [u16; MOST_PLACES],
) -> CutawhenoFinished
    ensures answer { result
        ≡ finished_answer (finish_step sixteen laws16 (state (arrays head.old first.old reply.old))) }
    ensures left { arrays head.new first.new reply.new
        ≡ finish_left (arrays head.old first.old reply.old) }
    ensures totals { totals.new ≡ finish_totals (arrays head.old first.old reply.old) totals.old }
{
    let mut held = head_at(head);
    match finish::finish_lent(&mut held, first, reply) {
        Ok(total) => {
            let sums = total.totals;
            *head = numbers(held);
            *totals = sums;
            CutawhenoFinished {
                number: 0,
                aside: total.aside.unwrap_or(0),
            }
        }
        Err(refusal) => CutawhenoFinished {
            number: u32::from(refusal),
            aside: 0,
        },
    }
}
