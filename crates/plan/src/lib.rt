// Plans and sets of document 01: their tests, and where things lie in the lists that a plan fixes.
//   Plan                                              K, U, T and M, as they come
//   MOST_USERS .., USERS ..                           their limits; the lengths of arrays
//   Limits, document_limits                           all of them, which the contract holds to those of document 01
//   Refusal                                           why a call is refused, with document 01's number
//   is_good, check_start                              tests 1 and 4
//   holds, is_usable, has_enough, is_usable_with      sets of users
//   row_length, list_length, key_length               how long lent lists are: 0 for what tests 1 and 4 refuse
//   places_of, list_of, key_of                        the same of what those tests have let pass
//   Use                                               whether figures are counts or signed; from the number that a use is kept as
//   reach_of                                          how far from zero a total can be told
//   figure_bound, bound_of                            how far from zero a figure may lie: 0 for what test 1 refuses; of what it has let pass
//   count_sets, reply_start                           how many sets; where a reply lies in the key
//   find_reply                                        where a reply lies, of any plan, user and set, or why not: tests 1, 4, 5 and 6
// Document 01's airfield is a user here. What has a `requires` is for plans that passed test 1.
#![tactic(auto)]

ghost use Rattle.std.specs.Prelude.{◌≡◌, ◌+◌, ◌*◌, ◌^◌, ◌≤◌, ◌<◌, length, IfOk};
ghost use Rattle.scheme.specs.Limits.{most_users, most_places, most_sets, most_list, most_key};
ghost use Rattle.scheme.specs.Lists.{rank};
ghost use Rattle.scheme.specs.Scheme.{q, sixteen, plan_good, reach, figure_bound, start_refusal, in_set, usable, usable_with, usable_sets, sets_with, places, list_length, key_length, reply_start, lookup_refusal};
ghost use Rattle.scheme.specs.Good.{Good};
ghost use Rattle.plan.specs.Plan.{plan_of, use_of, code_use};
ghost use Rattle.plan.specs.Limits.{document_limits};
ghost use Rattle.plan.specs.Counts.{fewest, counts, sets_of, sets_rule};
ghost use Rattle.plan.specs.Lengths.{row_len, list_len, key_len, largest_figure};
ghost use Rattle.plan.specs.Numbers.{numbered};
ghost use Rattle.plan.specs.Found.{found_by, found};

mod refusal;

pub use refusal::Refusal;

// "K airfields, 3 to 8 .. T at least 1 .. M blocks, 1 to 16"
pub const LEAST_USERS: u32 = 3;

pub const MOST_USERS: u32 = 8;

pub const LEAST_COLLUSION: u32 = 1;

pub const LEAST_BLOCKS: u32 = 1;

pub const MOST_BLOCKS: u32 = 16;

// The same as lengths: a number for each user, for each block.
pub const USERS: usize = MOST_USERS as usize;

pub const BLOCKS: usize = MOST_BLOCKS as usize;

// "T < U ≤ K − 1": of U, and of U - T.
pub const MOST_THRESHOLD: u32 = MOST_USERS - 1;

pub const MOST_ITEMS: usize = MOST_THRESHOLD as usize - 1;

// "L is at most 96".
pub const MOST_PLACES: usize = BLOCKS * MOST_ITEMS;

pub const MOST_SETS: usize = 1 << USERS;

// "At most 768 first elements are held": a number for each user and place.
pub const FIRSTS: usize = USERS * MOST_PLACES;

// A number for each user and block: the replies that are held, and the grids of key maker and solver.
pub const CELLS: usize = USERS * BLOCKS;

#[derive(Clone, Copy)]
pub struct Limits {
    pub least_users: u32,
    pub most_users: u32,
    pub least_collusion: u32,
    pub least_blocks: u32,
    pub most_blocks: u32,
    pub users: usize,
    pub blocks: usize,
    pub most_threshold: u32,
    pub most_items: usize,
    pub most_places: usize,
    pub most_sets: usize,
    pub firsts: usize,
    pub cells: usize,
}

// Every limit, so that a contract speaks of each constant.
pub fn document_limits() -> Limits
    ensures { result ≡ document_limits }
{
    Limits {
        least_users: LEAST_USERS,
        most_users: MOST_USERS,
        least_collusion: LEAST_COLLUSION,
        least_blocks: LEAST_BLOCKS,
        most_blocks: MOST_BLOCKS,
        users: USERS,
        blocks: BLOCKS,
        most_threshold: MOST_THRESHOLD,
        most_items: MOST_ITEMS,
        most_places: MOST_PLACES,
        most_sets: MOST_SETS,
        firsts: FIRSTS,
        cells: CELLS,
    }
}

// Any four numbers are a plan. That test 1 lets them pass is a clause of what needs it, and no type: these functions are for everybody, and of
// their callers a type would ask more than the clause.
#[derive(Clone, Copy)]
pub struct Plan {
    pub users: u32,
    pub threshold: u32,
    pub collusion: u32,
    pub blocks: u32,
}

// What an airfield reports.
#[derive(Clone, Copy)]
pub enum Use {
    Counts,
    Signed,
}

// 0 is counts, anything else is signed.
impl From<u32> for Use {
    ghost from_gives = { λ number usage. usage ≡ code_use number };

    fn from(number: u32) -> Use {
        match number {
            0 => Use::Counts,
            _ => Use::Signed,
        }
    }
}

// Test 1.
pub fn is_good(p: Plan) -> bool
    ensures { result ≡ plan_good (plan_of p) }
{
    if p.users < LEAST_USERS {
        return false;
    }
    if MOST_USERS < p.users {
        return false;
    }
    if p.collusion < LEAST_COLLUSION {
        return false;
    }
    if p.threshold <= p.collusion {
        return false;
    }
    if p.users <= p.threshold {
        return false;
    }
    if p.blocks < LEAST_BLOCKS {
        return false;
    }
    if MOST_BLOCKS < p.blocks {
        return false;
    }
    true
}

// "Start of an end: 1, 4."
pub fn check_start(p: Plan, user: u32) -> Result<(), Refusal>
    ensures { numbered result ≡ start_refusal (plan_of p) user }
{
    if !is_good(p) {
        return Err(Refusal::BadPlan);
    }
    if user < 1 || p.users < user {
        return Err(Refusal::BadUser);
    }
    Ok(())
}

// Bit user - 1 of the set, which is a number, as document 01 names it.
pub fn holds(set: u32, user: u32) -> bool
    requires { (1 ≤ user) × (user ≤ 32) }
    ensures { result ≡ in_set set user }
{
    (set >> (user - 1)) % 2 == 1
}

// The sets of the plan's users, the empty one too, are the numbers below this.
pub fn count_sets(p: Plan) -> u32
    requires { Good (plan_of p) }
    ensures { (result ≡ 2 ^ p.users) × (result ≤ most_sets) }
{
    1u32 << p.users
}

// "A usable set has at least U members and none above K."
pub fn is_usable(p: Plan, set: u32) -> bool
    requires { Good (plan_of p) }
    ensures { result ≡ usable (plan_of p) set }
{
    set < count_sets(p) && has_enough(p, set)
}

// Of a set with no member above K.
fn has_enough(p: Plan, set: u32) -> bool
    requires { set < 2 ^ p.users }
    ensures { result ≡ usable (plan_of p) set }
{
    p.threshold <= u32::count_ones(set)
}

// The user's bit is looked at first, since it costs less than the count of ones.
fn is_usable_with(p: Plan, user: u32, set: u32) -> bool
    requires { (set < 2 ^ p.users) × (1 ≤ user) × (user ≤ most_users) }
    ensures { result ≡ usable_with (plan_of p) user set }
{
    holds(set, user) && has_enough(p, set)
}

// The counts have a row for each number of users, from one less than the least K on, and in it an entry for each threshold below USERS.
const FEWEST: usize = LEAST_USERS as usize - 1;

const COUNTS: usize = (USERS + 1 - FEWEST) * USERS;

// How many sets of K users have at least U members, at USERS * (K - FEWEST) + U.
const SETS: [u16; COUNTS] = [
    4, 3, 1, 0, 0, 0, 0, 0, 8, 7, 4, 1, 0, 0, 0, 0, 16, 15, 11, 5, 1, 0, 0, 0, 32, 31, 26, 16, 6,
    1, 0, 0, 64, 63, 57, 42, 22, 7, 1, 0, 128, 127, 120, 99, 64, 29, 8, 1, 256, 255, 247, 219, 163,
    93, 37, 9,
];

fn sets_at(at: usize) -> u16
    requires { at < counts }
    ensures { result ≡ sets_rule (fewest * most_users + at) }
{
    SETS[at]
}

fn count_of(users: u32, threshold: u32) -> usize
    requires { (fewest ≤ users) × (users ≤ most_users) × (threshold < most_users) }
    ensures { (result ≡ sets_of users threshold) × (result ≤ most_sets) }
{
    sets_at((users as usize - FEWEST) * USERS + threshold as usize) as usize
}

fn count_usable(p: Plan) -> usize
    requires { Good (plan_of p) }
    ensures { (result ≡ length (usable_sets (plan_of p))) × (result ≤ most_sets) }
{
    count_of(p.users, p.threshold)
}

// With one user given, the others of a usable set are a set of K - 1 users that has at least U - 1 members.
fn count_holding(p: Plan, user: u32) -> usize
    requires { Good (plan_of p) × (1 ≤ user) × (user ≤ p.users) }
    ensures { (result ≡ length (sets_with (plan_of p) user)) × (result ≤ most_sets) }
{
    count_of(p.users - 1, p.threshold - 1)
}

// The place of a set in a user's key: how many smaller usable sets hold the user. "Let the walk stop at the announced set itself."
fn set_place(p: Plan, user: u32, set: u32) -> u32
    requires { (set ≤ 2 ^ p.users) × (1 ≤ user) × (user ≤ most_users) }
    ensures { (result ≡ rank (usable_with (plan_of p) user) set) × (result ≤ set) }
{
    let mut place: u32 = 0;
    let mut v: u32 = 0;
    loop {
        if v == set {
            break place;
        }
        if is_usable_with(p, user, v) {
            place += 1;
        }
        v += 1;
    }
}

// L = M × (U − T).
pub fn places_of(p: Plan) -> usize
    requires { Good (plan_of p) }
    ensures { (result ≡ places (plan_of p)) × (result ≤ most_places) }
{
    p.blocks as usize * (p.threshold - p.collusion) as usize
}

// "S of airfield 1, then of 2, up to K, L elements each; then for each usable set, block by block, T noise elements."
pub fn list_of(p: Plan) -> usize
    requires { Good (plan_of p) }
    ensures { (result ≡ list_length (plan_of p)) × (result ≤ most_list) }
{
    let sets = count_usable(p);
    p.users as usize * places_of(p) + sets * p.blocks as usize * p.collusion as usize
}

// Its L masks, and M shares for each usable set that holds the user.
pub fn key_of(p: Plan, user: u32) -> usize
    requires { Good (plan_of p) × (1 ≤ user) × (user ≤ p.users) }
    ensures { (result ≡ key_length (plan_of p) user) × (result ≤ most_key) }
{
    places_of(p) + count_holding(p, user) * p.blocks as usize
}

// How far from zero a total of such figures can be told: elements stand for as many signed numbers below zero as above it.
pub fn reach_of(usage: Use) -> u32
    ensures { (result ≡ reach sixteen (use_of usage)) × (result < q) }
{
    match usage {
        Use::Counts => element::Q - 1,
        Use::Signed => (element::Q - 1) / 2,
    }
}

// "A figure is at most 65520 / K, rounded down"; "a signed figure lies within 32760 / K of zero, rounded down".
pub fn bound_of(p: Plan, usage: Use) -> u16
    requires { Good (plan_of p) }
    ensures { (result ≡ figure_bound sixteen (use_of usage) (plan_of p)) × (result < q) }
{
    (reach_of(usage) / p.users) as u16
}

// How long a row of figures is, and a first message. This and the lengths below cannot fail: they are 0 where a test refuses. The guard is a line
// in each, which a function over the four would not shorten.
pub fn row_length(p: Plan) -> usize
    ensures { (result ≡ row_len (plan_of p)) × (result ≤ most_places) }
{
    if !is_good(p) {
        return 0;
    }
    places_of(p)
}

pub fn list_length(p: Plan) -> usize
    ensures { (result ≡ list_len (plan_of p)) × (result ≤ most_list) }
{
    if !is_good(p) {
        return 0;
    }
    list_of(p)
}

pub fn key_length(p: Plan, user: u32) -> usize
    ensures { (result ≡ key_len (plan_of p) user) × (result ≤ most_key) }
{
    match check_start(p, user) {
        Ok(()) => key_of(p, user),
        Err(_) => 0,
    }
}

// How far from zero a figure may lie.
pub fn figure_bound(p: Plan, usage: Use) -> u32
    ensures { result ≡ largest_figure sixteen (use_of usage) (plan_of p) }
{
    if !is_good(p) {
        return 0;
    }
    bound_of(p, usage) as u32
}

// Where the M shares for a set start in a user's key: behind its L masks and the shares for the smaller sets.
pub fn reply_start(p: Plan, user: u32, set: u32) -> usize
    requires { Good (plan_of p) × (1 ≤ user) × (user ≤ most_users) × (set ≤ 2 ^ p.users) }
    ensures { (result ≡ reply_start (plan_of p) user set) × (result ≤ most_key) }
{
    places_of(p) + set_place(p, user, set) as usize * p.blocks as usize
}

// 1, 4, 5, 6, of a lookup.
fn check_lookup(p: Plan, user: u32, set: u32) -> Result<(), Refusal>
    ensures { numbered result ≡ lookup_refusal (plan_of p) user set }
{
    check_start(p, user)?;
    if !is_usable(p, set) {
        return Err(Refusal::SetUnusable);
    }
    if !holds(set, user) {
        return Err(Refusal::NotInSet);
    }
    Ok(())
}

// Where the M shares for a set start, of any plan, user and set. It needs no key, and hands out no share.
pub fn find_reply(p: Plan, user: u32, set: u32) -> Result<usize, Refusal>
    ensures found { found_by result ≡ found (plan_of p) user set }
    ensures small { IfOk result (λ start. start ≤ most_key) }
{
    check_lookup(p, user, set)?;
    Ok(reply_start(p, user, set))
}
