// The finish call of document 01's service: the survivors' total from the first messages and the complete replies.
//   Users, users_of                           the users of a set, in a place each
//   COLUMNS                                   the points of the columns
//   put_held, gather                          the replies of all blocks, in the order of the rows
//   Misfits, needed, solve_rows               a turn of the search: U rows solved, and the further ones compared
//   row_before, turned                        the rows of the next turn
//   explain                                   the user set aside, and the sums and noise that explain the replies
//   add_first, run_sums                       the sum of the first elements of each place of a run
//   first_sums                                the same of all places, run by run
//   place_total, put_item_totals, put_all_totals    the totals: of a place, of an item in all blocks, of all items
//   put_explained_totals, put_state_totals    the user set aside and the totals: of a set, or 16; of a state, or 11, 12, 15 too
//   Total, finish_lent                        what is handed back; the call on lent arrays
//   finish                                    the call with the state
// The totals are written once, into the array that is handed back. The call is no method of the service: it is the only one that
// needs the solver.
#![tactic(auto)]

ghost use Rattle.std.specs.Prelude.{◌≡◌, map, ℕ, ◌+◌, ◌*◌, ◌-◌, ◌≤◌, ◌<◌, length, get_or, replicate, IfSome, IfOk};
ghost use Rattle.std.proofs.lemmas.List.Edits.{sets};
ghost use Rattle.scheme.specs.Limits.{most_users, most_blocks, most_items, most_places, firsts, cells};
ghost use Rattle.scheme.specs.Lists.{span, filled};
ghost use Rattle.scheme.specs.Scheme.{q, sixteen, ones};
ghost use Rattle.scheme.specs.Good.{Good};
ghost use Rattle.scheme.specs.Solve.{Points};
ghost use Rattle.element.specs.Word.{most_word};
ghost use Rattle.plan.specs.Plan.{plan_of};
ghost use Rattle.service.specs.Calls.{lent};
ghost use Rattle.solve.specs.Solve.{laws16};
ghost use Rattle.finish.specs.Finish.{finishing, finish_step};
ghost use Rattle.finish.specs.Parts.{Listed, reply_grid, row_before, Needed, RowsSolved, ExplainedRight, most_sum, AtMost, raised, FirstSums, place_total, some_totals, Totalled, Answered};

use plan::{BLOCKS, CELLS, FIRSTS, MOST_PLACES, Plan, Refusal, USERS};
use service::{Head, Phase, Service};

// The users of a set in rising number, in the first `count` places.
#[derive(Clone, Copy)]
struct Users {
    list: [u32; USERS],
    count: usize,
}

fn users_of(plan: Plan, set: u32) -> Users
    requires { plan.users ≤ most_users }
    ensures { Listed (plan_of plan) set result }
{
    let mut list = [0u32; USERS];
    let mut count = 0;
    for user in 1..=plan.users {
        if plan::holds(set, user) {
            list[count] = user;
            count += 1;
        }
    }
    Users { list, count }
}

// The points of the columns.
const COLUMNS: [u32; USERS] = [1, 2, 3, 4, 5, 6, 7, 0];

// The replies of a user, which stand from `from` on, are put from `at` on.
fn put_held(out: &mut [u16; CELLS], at: usize, reply: &[u16; CELLS], from: usize, blocks: usize)
    requires { (blocks ≤ most_blocks) × (at + blocks ≤ cells) × (from + blocks ≤ cells) × (length out.old ≡ cells) }
    ensures { out.new ≡ sets out.old at (map (λ b. get_or reply.now (from + b) 0 - 1) (span blocks 0)) }
{
    for b in 0..blocks {
        out[at + b] = service::element_of(reply[from + b]);
    }
}

// The replies in the order of the rows, and 0 where there is no block.
fn gather(
    reply: &[u16; CELLS],
    rows: &[u32; USERS],
    count: usize,
    blocks: usize,
    out: &mut [u16; CELLS],
)
    requires { (count ≤ most_users) × (blocks ≤ most_blocks) × Points most_users count rows.now }
    ensures { out.new ≡ reply_grid reply.now rows.now count blocks }
{
    *out = [0; CELLS];
    for i in 0..count {
        let from = service::row_start(rows[i], BLOCKS);
        put_held(out, i * BLOCKS, reply, from, blocks);
    }
}

// The first two of the further rows that do not fit.
#[derive(Clone, Copy)]
struct Misfits {
    first: Option<usize>,
    second: Option<usize>,
}

// How many unknowns a turn needs: all where it has further rows, and else those of the totals.
fn needed(plan: Plan, count: usize) -> usize
    requires { plan.collusion ≤ plan.threshold }
    ensures { Needed (plan_of plan) count result }
{
    let n = plan.threshold as usize;
    if n < count {
        return n;
    }
    (plan.threshold - plan.collusion) as usize
}

// The unknowns of the first U rows that are needed, and which further rows do not fit.
fn solve_rows(
    plan: Plan,
    rows: &[u32; USERS],
    values: &[u16; CELLS],
    count: usize,
    unknowns: &mut [u16; CELLS],
) -> Misfits
    requires { Good (plan_of plan) × (plan.threshold ≤ count) × (count ≤ most_users) × Points most_users count rows.now }
    ensures { RowsSolved sixteen laws16 (plan_of plan) rows.now values.now count result unknowns.new }
{
    let n = plan.threshold as usize;
    let blocks = plan.blocks as usize;
    solve::solve(rows, &COLUMNS, values, n, needed(plan, count), unknowns);
    let first = solve::misfit(rows, &COLUMNS, values, unknowns, n, n, count, blocks);
    let Some(odd) = first else {
        return Misfits {
            first,
            second: None,
        };
    };
    let second = solve::misfit(rows, &COLUMNS, values, unknowns, n, odd + 1, count, blocks);
    Misfits { first, second }
}

// Where a row of the next turn stood: the last n rows come first and are solved, and the others go behind them and are compared, so that the
// turns go round all rows.
fn row_before(at: usize, n: usize, count: usize) -> usize
    requires { (at < count) × (n ≤ count) × (count ≤ most_users) }
    ensures { (result ≡ row_before n count at) × (result < count) }
{
    if at < n {
        return at + (count - n);
    }
    at - n
}

// Turned by hand: `rotate_right` of the rows moves them through a buffer, and a turn then takes measurably longer.
fn turned(rows: &[u32; USERS], n: usize, count: usize) -> [u32; USERS]
    requires { (n ≤ count) × (count ≤ most_users) }
    ensures { result ≡ filled most_users count (λ i. get_or rows.now (row_before n count i) 0) }
{
    let mut out = [0u32; USERS];
    for i in 0..count {
        out[i] = rows[row_before(i, n, count)];
    }
    out
}

// The user set aside, if one is, and the sums and noise of each block that explain the replies of a set, or those of all of its users but that
// one. A further row that alone does not fit is set aside; where two do not, none of the further rows is the one, and the next turn has others.
// Nothing explains a reply that is no element; no state that calls make has one. A turn clears as many rows as it compares: as a range's step
// that could be 0.
fn explain(
    plan: Plan,
    set: u32,
    reply: &[u16; CELLS],
    unknowns: &mut [u16; CELLS],
) -> Result<Option<u32>, Refusal>
    requires { Good (plan_of plan) × (plan.threshold ≤ ones plan.users set) }
    ensures explained { ExplainedRight sixteen laws16 (plan_of plan) set reply.now result unknowns.new }
    ensures named { IfOk result (λ aside. IfSome aside (λ k. 1 ≤ k)) }
{
    let users = users_of(plan, set);
    let count = users.count;
    let n = plan.threshold as usize;
    let blocks = plan.blocks as usize;
    let mut rows = users.list;
    let mut values = [0u16; CELLS];
    gather(reply, &rows, count, blocks, &mut values);
    if !element::all_elements(&values) {
        return Err(Refusal::Unexplained);
    }
    let mut cleared = 0;
    while cleared < count {
        let misfits = solve_rows(plan, &rows, &values, count, unknowns);
        let Some(odd) = misfits.first else {
            return Ok(None);
        };
        if count - n < 2 {
            return Err(Refusal::Unexplained);
        }
        if misfits.second.is_none() {
            return Ok(Some(rows[odd]));
        }
        rows = turned(&rows, n, count);
        gather(reply, &rows, count, blocks, &mut values);
        cleared += count - n;
    }
    Err(Refusal::Unexplained)
}

// Adds a user's first elements of a run of places, which stand from `from` on.
fn add_first(sums: &mut [u32; BLOCKS], first: &[u16; FIRSTS], from: usize)
    requires { (from + most_blocks ≤ firsts) × (length sums.old ≡ most_blocks) × AtMost most_sum most_blocks sums.old }
    ensures added { sums.new ≡ sets sums.old 0
        (map (raised sums.old first.now from) (span most_blocks 0)) }
    ensures small { (i : ℕ) → i < most_blocks → get_or first.now (from + i) 0 - 1 ≤ most_word }
{
    for i in 0..BLOCKS {
        sums[i] += service::element_of(first[from + i]) as u32;
    }
}

// The sum of the first elements of each place of a run, not reduced.
fn run_sums(first: &[u16; FIRSTS], rows: &[u32; USERS], count: usize, at: usize) -> [u32; BLOCKS]
    requires { (count ≤ most_users) × (at + most_blocks ≤ most_places) × Points most_users count rows.now }
    ensures { FirstSums q first.now rows.now count at most_blocks result }
{
    let mut sums = [0u32; BLOCKS];
    for i in 0..count {
        let from = service::row_start(rows[i], MOST_PLACES);
        add_first(&mut sums, first, from + at);
    }
    sums
}

// The sum of the first elements of each place, by runs whose sums stay in registers.
fn first_sums(
    first: &[u16; FIRSTS],
    rows: &[u32; USERS],
    count: usize,
    places: usize,
) -> [u32; MOST_PLACES]
    requires { (count ≤ most_users) × (places ≤ most_places) × Points most_users count rows.now }
    ensures { FirstSums q first.now rows.now count 0 places result }
{
    let mut sums = [0u32; MOST_PLACES];
    for turn in 0..places.div_ceil(BLOCKS) {
        let at = turn * BLOCKS;
        let run = run_sums(first, rows, count, at);
        sums[at..at + BLOCKS].copy_from_slice(&run);
    }
    sums
}

// Twice Q is above every number of 16 bits, so that nothing falls below zero.
fn place_total(sum: u32, unknown: u16) -> u16
    requires { sum ≤ most_sum }
    ensures { result ≡ sixteen.subtract sum unknown }
{
    element::reduce(sum + (2 * element::Q - unknown as u32))
}

// The totals of an item, one in each block. They stand `items` places apart, as the unknowns of all blocks stand in one row.
fn put_item_totals(
    sums: &[u32; MOST_PLACES],
    unknowns: &[u16; CELLS],
    item: usize,
    items: usize,
    blocks: usize,
    out: &mut [u16; MOST_PLACES],
)
    requires item_lt { (item < items) × (items ≤ most_items) × (blocks ≤ most_blocks) × (blocks * items ≤ most_places)
        × AtMost most_sum (blocks * items) sums.now }
    requires out_value { out.old ≡ some_totals sixteen sums.now unknowns.now items blocks (item * blocks) }
    ensures { out.new ≡ some_totals sixteen sums.now unknowns.now items blocks (item * blocks + blocks) }
{
    for b in 0..blocks {
        let at = b * items + item;
        out[at] = place_total(sums[at], unknowns[item * BLOCKS + b]);
    }
}

// The totals of all items: the sums of the first elements less those of the masks.
fn put_all_totals(
    sums: &[u32; MOST_PLACES],
    unknowns: &[u16; CELLS],
    items: usize,
    blocks: usize,
    out: &mut [u16; MOST_PLACES],
)
    requires le_most_items { (items ≤ most_items) × (blocks ≤ most_blocks) × (blocks * items ≤ most_places) × AtMost most_sum (blocks * items) sums.now }
    requires out_value { out.old ≡ replicate most_places 0 }
    ensures { out.new
        ≡ filled most_places (blocks * items) (place_total sixteen sums.now unknowns.now items) }
{
    for item in 0..items {
        put_item_totals(sums, unknowns, item, items, blocks, out);
    }
}

// From a set of at least U complete replies: the user set aside, if one is, and the totals, or 16.
fn put_explained_totals<'a>(
    plan: Plan,
    set: u32,
    survivors: u32,
    first: &'a [u16; FIRSTS],
    reply: &'a [u16; CELLS],
    out: &mut [u16; MOST_PLACES],
) -> Result<Option<u32>, Refusal>
    requires { Good (plan_of plan) × (plan.threshold ≤ ones plan.users set) × (out.old ≡ replicate most_places 0) }
    ensures totalled { Totalled sixteen laws16 (plan_of plan) set survivors first.now reply.now result out.new }
    ensures named { IfOk result (λ aside. IfSome aside (λ k. 1 ≤ k)) }
{
    let mut unknowns = [0u16; CELLS];
    let aside = explain(plan, set, reply, &mut unknowns)?;
    let users = users_of(plan, survivors);
    let sums = first_sums(first, &users.list, users.count, plan::places_of(plan));
    let items = (plan.threshold - plan.collusion) as usize;
    put_all_totals(&sums, &unknowns, items, plan.blocks as usize, out);
    Ok(aside)
}

// What finish answers of a state whose arrays are lent. The plan's test never acts on a state that calls make.
fn put_state_totals<'a>(
    head: Head,
    first: &'a [u16; FIRSTS],
    reply: &'a [u16; CELLS],
    out: &mut [u16; MOST_PLACES],
) -> Result<Option<u32>, Refusal>
    requires { out.old ≡ replicate most_places 0 }
    ensures answered { Answered sixteen laws16 (lent head first.now reply.now) result out.new }
    ensures named { IfOk result (λ aside. IfSome aside (λ k. 1 ≤ k)) }
{
    service::check_replying(head.phase)?;
    let plan = head.plan;
    if !plan::is_good(plan) {
        return Err(Refusal::TooFew);
    }
    let set = service::complete_set(reply, BLOCKS, plan, plan.blocks as usize);
    if set.count_ones() < plan.threshold {
        return Err(Refusal::TooFew);
    }
    put_explained_totals(plan, set, head.survivors, first, reply, out)
}

// What a finish gives: the user set aside, if one is, and the totals.
#[derive(Clone, Copy)]
pub struct Total {
    pub aside: Option<u32>,
    pub totals: [u16; MOST_PLACES],
}

// "Finish uses every survivor with all M blocks held, ignores partial replies, gives the total and returns to idle." After a refusal
// the state is as before. On lent arrays.
pub fn finish_lent(
    head: &mut Head,
    first: &mut [u16; FIRSTS],
    reply: &mut [u16; CELLS],
) -> Result<Total, Refusal>
    ensures step { finishing result (lent head.new first.new reply.new)
        ≡ finish_step sixteen laws16 (lent head.old first.old reply.old) }
    ensures named { IfOk result (λ t. IfSome t.aside (λ k. 1 ≤ k)) }
{
    let mut totals = [0u16; MOST_PLACES];
    let aside = put_state_totals(*head, first, reply, &mut totals)?;
    service::clear(first, reply);
    head.phase = Phase::Idle;
    head.survivors = 0;
    Ok(Total { aside, totals })
}

pub fn finish(service: &mut Service) -> Result<Total, Refusal>
    ensures step { finishing result service.new ≡ finish_step sixteen laws16 service.old }
    ensures named { IfOk result (λ t. IfSome t.aside (λ k. 1 ≤ k)) }
{
    finish_lent(&mut service.head, &mut service.first, &mut service.reply)
}
