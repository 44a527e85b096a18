// The archive for callers in C and Rust: each function of crate capi under its own name, with the same clauses. A crate is a library or an
// archive, not both; so the functions stand in capi, where crates above can call them, and are exported here.
//   lengths, bounds, where shares start, random list and key     lib, as in capi
//   ends, meaning, pooling                                       as the modules of capi of these names
// Lists are pointer and length in registers, as C passes them. include/cutawheno.h declares all.
#![tactic(auto)]

ghost use Rattle.std.specs.Prelude.{◌≡◌, length};
ghost use Rattle.scheme.specs.Scheme.{sixteen, counts, signed, key_refusal, key_left};
ghost use Rattle.scheme.specs.Drawn.{list_refusal, list_left};
ghost use Rattle.plan.specs.Plan.{plan_of, code_plan};
ghost use Rattle.plan.specs.Lengths.{row_len, list_len, key_len, largest_figure};
ghost use Rattle.capi.specs.Found.{start_found};

pub mod ends;
pub mod meaning;
pub mod pooling;

use capi::CutawhenoStart;

#[unsafe(no_mangle)]
pub extern "C" fn cutawheno_row_len(users: u32, threshold: u32, collusion: u32, blocks: u32) -> u32
    ensures { result ≡ row_len (plan_of (code_plan users threshold collusion blocks)) }
{
    capi::cutawheno_row_len(users, threshold, collusion, blocks)
}

#[unsafe(no_mangle)]
pub extern "C" fn cutawheno_list_len(users: u32, threshold: u32, collusion: u32, blocks: u32) -> u32
    ensures { result ≡ list_len (plan_of (code_plan users threshold collusion blocks)) }
{
    capi::cutawheno_list_len(users, threshold, collusion, blocks)
}

#[unsafe(no_mangle)]
pub extern "C" fn cutawheno_key_len(users: u32, threshold: u32, collusion: u32, blocks: u32) -> u32
    ensures { result ≡ key_len (plan_of (code_plan users threshold collusion blocks)) 1 }
{
    capi::cutawheno_key_len(users, threshold, collusion, blocks)
}

#[unsafe(no_mangle)]
pub extern "C" fn cutawheno_figure_bound(
    users: u32,
    threshold: u32,
    collusion: u32,
    blocks: u32,
) -> u32
    ensures { result ≡ largest_figure sixteen counts (plan_of (code_plan users threshold collusion blocks)) }
{
    capi::cutawheno_figure_bound(users, threshold, collusion, blocks)
}

#[unsafe(no_mangle)]
pub extern "C" fn cutawheno_signed_bound(
    users: u32,
    threshold: u32,
    collusion: u32,
    blocks: u32,
) -> u32
    ensures { result ≡ largest_figure sixteen signed (plan_of (code_plan users threshold collusion blocks)) }
{
    capi::cutawheno_signed_bound(users, threshold, collusion, blocks)
}

#[unsafe(no_mangle)]
pub extern "C" fn cutawheno_reply_start(
    users: u32,
    threshold: u32,
    collusion: u32,
    blocks: u32,
    user: u32,
    set: u32,
) -> CutawhenoStart
    ensures { result ≡ start_found (plan_of (code_plan users threshold collusion blocks)) user set }
{
    capi::cutawheno_reply_start(users, threshold, collusion, blocks, user, set)
}

#[unsafe(no_mangle)]
pub extern "C" fn cutawheno_list_from_bytes(
    bytes: &[u8],
    list: &mut [u16],
    users: u32,
    threshold: u32,
    collusion: u32,
    blocks: u32,
) -> u32
    ensures number { result
        ≡ list_refusal sixteen (plan_of (code_plan users threshold collusion blocks)) bytes.now (length list.old) }
    ensures left { list.new
        ≡ list_left sixteen (plan_of (code_plan users threshold collusion blocks)) bytes.now list.old }
{
    capi::cutawheno_list_from_bytes(bytes, list, users, threshold, collusion, blocks)
}

#[unsafe(no_mangle)]
pub extern "C" fn cutawheno_make_key(
    list: &[u16],
    out: &mut [u16],
    users: u32,
    threshold: u32,
    collusion: u32,
    blocks: u32,
    user: u32,
) -> u32
    ensures number { result
        ≡ key_refusal sixteen (plan_of (code_plan users threshold collusion blocks)) user list.now (length out.old) }
    ensures left { out.new
        ≡ key_left sixteen (plan_of (code_plan users threshold collusion blocks)) user list.now out.old }
{
    capi::cutawheno_make_key(list, out, users, threshold, collusion, blocks, user)
}
