// Random list from bytes, key maker, lookup, airfield end, pooling service and reader for callers in C and Rust, which include/cutawheno.h
// declares.
//   plan_from, numbered     a plan from its four numbers; an answer as the number that callers are told
//   cutawheno_row_len, cutawheno_list_len, cutawheno_key_len    the lengths that a plan fixes, 0 for a plan that test 1 refuses
//   cutawheno_figure_bound, cutawheno_signed_bound    the largest count, and how far from zero a signed figure may lie, 0 for such a plan
//   cutawheno_reply_start, CutawhenoStart    where in a user's key the shares for a set start
//   cutawheno_list_from_bytes, cutawheno_make_key    the random list from raw bytes; a user's key from the random list
//   ends                    the airfield end
//   meaning                 what a total means, and the way in for a signed figure
//   pooling                 the pooling service
// A refused call hands back its number, and leaves every buffer as it came.
// Lists come first: they are pointer and length in registers, as C passes them.
#![tactic(auto)]

ghost use Rattle.std.specs.Prelude.{◌≡◌, length};
ghost use Rattle.scheme.specs.Scheme.{sixteen, counts, signed, key_refusal, key_left};
ghost use Rattle.scheme.specs.Drawn.{list_refusal, list_left};
ghost use Rattle.plan.specs.Plan.{plan_of, code_plan};
ghost use Rattle.plan.specs.Numbers.{numbered};
ghost use Rattle.plan.specs.Lengths.{row_len, list_len, key_len, largest_figure};
ghost use Rattle.capi.specs.Found.{start_found};

pub mod ends;
pub mod meaning;
pub mod pooling;

use plan::{Plan, Refusal, Use};

// The plan of four numbers.
fn plan_from(users: u32, threshold: u32, collusion: u32, blocks: u32) -> Plan
    ensures { result ≡ code_plan users threshold collusion blocks }
{
    Plan {
        users,
        threshold,
        collusion,
        blocks,
    }
}

// 0 where a call is taken, and else document 01's number.
fn numbered(answer: Result<(), Refusal>) -> u32
    ensures { result ≡ numbered answer }
{
    match answer {
        Ok(()) => 0,
        Err(refusal) => u32::from(refusal),
    }
}

// How long a row of figures of a plan is, and a first message.
#[unsafe(no_mangle)]
pub extern "C" fn cutawheno_row_len(users: u32, threshold: u32, collusion: u32, blocks: u32) -> u32
    ensures { result ≡ row_len (plan_of (code_plan users threshold collusion blocks)) }
{
    let plan = plan_from(users, threshold, collusion, blocks);
    plan::row_length(plan) as u32
}

// How long the random list of a plan is.
#[unsafe(no_mangle)]
pub extern "C" fn cutawheno_list_len(users: u32, threshold: u32, collusion: u32, blocks: u32) -> u32
    ensures { result ≡ list_len (plan_of (code_plan users threshold collusion blocks)) }
{
    let plan = plan_from(users, threshold, collusion, blocks);
    plan::list_length(plan) as u32
}

// How long each key of a plan is: user 1's, since the keys of all users are of one length.
#[unsafe(no_mangle)]
pub extern "C" fn cutawheno_key_len(users: u32, threshold: u32, collusion: u32, blocks: u32) -> u32
    ensures { result ≡ key_len (plan_of (code_plan users threshold collusion blocks)) 1 }
{
    let plan = plan_from(users, threshold, collusion, blocks);
    plan::key_length(plan, 1) as u32
}

// The largest count of a plan.
#[unsafe(no_mangle)]
pub extern "C" fn cutawheno_figure_bound(
    users: u32,
    threshold: u32,
    collusion: u32,
    blocks: u32,
) -> u32
    ensures { result ≡ largest_figure sixteen counts (plan_of (code_plan users threshold collusion blocks)) }
{
    let plan = plan_from(users, threshold, collusion, blocks);
    plan::figure_bound(plan, Use::Counts)
}

// How far from zero a signed figure of a plan may lie.
#[unsafe(no_mangle)]
pub extern "C" fn cutawheno_signed_bound(
    users: u32,
    threshold: u32,
    collusion: u32,
    blocks: u32,
) -> u32
    ensures { result ≡ largest_figure sixteen signed (plan_of (code_plan users threshold collusion blocks)) }
{
    let plan = plan_from(users, threshold, collusion, blocks);
    plan::figure_bound(plan, Use::Signed)
}

#[repr(C)]
#[derive(Clone, Copy)]
pub struct CutawhenoStart {
    pub number: u32,
    pub start: u32,
}

// 1, 4, 5, 6. It hands out no share.
#[unsafe(no_mangle)]
pub extern "C" fn cutawheno_reply_start(
    users: u32,
    threshold: u32,
    collusion: u32,
    blocks: u32,
    user: u32,
    set: u32,
) -> CutawhenoStart
    ensures { result ≡ start_found (plan_of (code_plan users threshold collusion blocks)) user set }
{
    let plan = plan_from(users, threshold, collusion, blocks);
    match plan::find_reply(plan, user, set) {
        Ok(start) => CutawhenoStart {
            number: 0,
            start: start as u32,
        },
        Err(refusal) => CutawhenoStart {
            number: u32::from(refusal),
            start: 0,
        },
    }
}

// 1, 2, 31.
#[unsafe(no_mangle)]
pub extern "C" fn cutawheno_list_from_bytes(
    bytes: &[u8],
    list: &mut [u16],
    users: u32,
    threshold: u32,
    collusion: u32,
    blocks: u32,
) -> u32
    ensures number { result
        ≡ list_refusal sixteen (plan_of (code_plan users threshold collusion blocks)) bytes.now (length list.old) }
    ensures left { list.new
        ≡ list_left sixteen (plan_of (code_plan users threshold collusion blocks)) bytes.now list.old }
{
    let plan = plan_from(users, threshold, collusion, blocks);
    numbered(keys::list_from_bytes(plan, bytes, list))
}

// "Key maker: 1, 4, 2, 3."
#[unsafe(no_mangle)]
pub extern "C" fn cutawheno_make_key(
    list: &[u16],
    out: &mut [u16],
    users: u32,
    threshold: u32,
    collusion: u32,
    blocks: u32,
    user: u32,
) -> u32
    ensures number { result
        ≡ key_refusal sixteen (plan_of (code_plan users threshold collusion blocks)) user list.now (length out.old) }
    ensures left { out.new
        ≡ key_left sixteen (plan_of (code_plan users threshold collusion blocks)) user list.now out.old }
{
    let plan = plan_from(users, threshold, collusion, blocks);
    numbered(keys::make_key(plan, user, list, out))
}
