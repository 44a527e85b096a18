// The pooling service of document 01: one call for each kind of record but finish, which needs a solver (crate finish). A call changes the
// state in place; after a refusal the state is as before.
//   Phase, Head, Service         the state: its head, and the elements held
//   check_planned, check_unplanned, check_open, check_gathering, check_replying     the refusals that the head alone decides
//   check_element                the tests that both kinds of element share
//   held_as, element_of, left_in, row_start     how an element is held, there and back, what a place keeps, and where it stands
//   hold, put_first, put_reply   what holds an element, and the leaves that find its place in a lent array: the hot path
//   row_held, complete_set       the users with all their elements held
//   clear                        drops all elements
//   plan_lent, open_lent, close_lent     the leaves of the other calls: they copy no array
//   Service::new, plan, open, first_element, close, reply_element
// The leaves take the head and the two arrays apart, since a caller in C lends three.
#![tactic(auto)]

ghost use Rattle.std.specs.Prelude.{◌≡◌, ◌+◌, ◌*◌, ◌-◌, ◌≤◌, ◌<◌, length};
ghost use Rattle.scheme.specs.Limits.{most_users, most_places};
ghost use Rattle.scheme.specs.Scheme.{q, sixteen, unless};
ghost use Rattle.scheme.specs.Service.{plan_missing, second_plan, not_gathering, not_replying, element_refusal, takes, complete_set};
ghost use Rattle.plan.specs.Plan.{plan_of};
ghost use Rattle.plan.specs.Numbers.{numbered};
ghost use Rattle.service.specs.View.{phase_of, held_as, stored, left_in, row_start, row_held, look};
ghost use Rattle.service.specs.Calls.{nothing_first, nothing_reply, new_service, plan_step, open_refusal, open_step, first_refusal, first_left, first_step, reply_refusal, reply_left, reply_step, close_step, lent, stepped, closing};

use plan::{BLOCKS, CELLS, FIRSTS, MOST_PLACES, Plan, Refusal};

#[derive(Clone, Copy, Debug, PartialEq, Eq)]
pub enum Phase {
    Unplanned,
    Idle,
    Gathering,
    Replying,
}

// What is held besides elements; `places` is L, and the survivors are a set.
#[derive(Clone, Copy)]
pub struct Head {
    pub phase: Phase,
    pub plan: Plan,
    pub places: u32,
    pub round: u32,
    pub survivors: u32,
}

// The elements held: `held_as` says how, and `row_start` where.
#[derive(Drop)]
pub struct Service {
    pub head: Head,
    pub first: [u16; FIRSTS],
    pub reply: [u16; CELLS],
}

// 11 before a plan.
#[tactic(auto, using(crate::proofs::Phases::phase_tests))]
fn check_planned(phase: Phase) -> Result<(), Refusal>
    ensures { numbered result ≡ plan_missing (phase_of phase) }
{
    match phase {
        Phase::Unplanned => Err(Refusal::PlanOrder),
        Phase::Idle | Phase::Gathering | Phase::Replying => Ok(()),
    }
}

// 11 of a plan after one was accepted.
#[tactic(auto, using(crate::proofs::Phases::phase_tests))]
pub fn check_unplanned(phase: Phase) -> Result<(), Refusal>
    ensures { numbered result ≡ second_plan (phase_of phase) }
{
    match phase {
        Phase::Unplanned => Ok(()),
        Phase::Idle | Phase::Gathering | Phase::Replying => Err(Refusal::PlanOrder),
    }
}

// 11, 17 of an open, which is for any phase.
pub fn check_open(head: Head, round: u32) -> Result<(), Refusal>
    ensures { numbered result ≡ open_refusal head round }
{
    check_planned(head.phase)?;
    if round <= head.round {
        return Err(Refusal::OldRound);
    }
    Ok(())
}

// 11, 12 of a record that is for the gathering phase. The phase that is wanted is asked for by itself, here and for replying, since a match on
// all four is a jump by a table; one function for both would take that phase as an argument, and be no plainer.
#[tactic(auto, using(crate::proofs::Phases::phase_tests))]
pub fn check_gathering(phase: Phase) -> Result<(), Refusal>
    ensures { numbered result ≡ not_gathering (phase_of phase) }
{
    if matches!(phase, Phase::Gathering) {
        return Ok(());
    }
    check_planned(phase)?;
    Err(Refusal::OtherPhase)
}

// 11, 12 of a record that is for the replying phase.
#[tactic(auto, using(crate::proofs::Phases::phase_tests))]
pub fn check_replying(phase: Phase) -> Result<(), Refusal>
    ensures { numbered result ≡ not_replying (phase_of phase) }
{
    if matches!(phase, Phase::Replying) {
        return Ok(());
    }
    check_planned(phase)?;
    Err(Refusal::OtherPhase)
}

// 4, 8, 3 of an element that a user sends for one of `limit` places or blocks.
#[tactic(auto, using(crate::proofs::Refused::element_tests))]
fn check_element(users: u32, limit: u32, user: u32, at: u32, element: u32) -> Result<(), Refusal>
    ensures { numbered result ≡ element_refusal sixteen users limit user at element }
{
    if user < 1 || users < user {
        return Err(Refusal::BadUser);
    }
    if limit <= at {
        return Err(Refusal::BadPlace);
    }
    if element::Q <= element {
        return Err(Refusal::BadElement);
    }
    Ok(())
}

// An element is held as itself plus 1, and 0 stands where none is held.
pub fn held_as(element: u16) -> u16
    requires { element < q }
    ensures { result ≡ held_as element }
{
    element + 1
}

// The element, or 0 where none is held.
pub fn element_of(held: u16) -> u16
    ensures { result ≡ held - 1 }
{
    held.saturating_sub(1)
}

// What a place holds once an element has come, both as they are held: what it held, or else the new one.
#[tactic(auto, using(crate::proofs::View::left_held, crate::proofs::View::left_free))]
fn left_in(held: u16, new: u16) -> u16
    ensures { result ≡ left_in held new }
{
    if 0 < held { held } else { new }
}

// Where a user's elements start, which stand together: `stride` behind those of the user before.
pub fn row_start(user: u32, stride: usize) -> usize
    requires { (1 ≤ user) × (stride ≤ most_places) }
    ensures { result ≡ row_start stride user }
{
    (user as usize - 1) * stride
}

// Holds an element in its place, or answers 13. What is held stays; a new element and a repeat take the same way, so that there is no branch
// between them to predict.
fn hold(place: &mut u16, element: u16) -> Result<(), Refusal>
    requires { element < q }
    ensures number { numbered result ≡ unless (takes (stored place.old) element) 13 }
    ensures left { place.new ≡ left_in place.old (held_as element) }
{
    let new = held_as(element);
    let left = left_in(*place, new);
    *place = left;
    if left != new {
        return Err(Refusal::Held);
    }
    Ok(())
}

// Holds a first element, or answers why not: 11, 12, 4, 8, 3, 13.
pub fn put_first(
    head: Head,
    first: &mut [u16; FIRSTS],
    user: u32,
    place: u32,
    element: u32,
) -> Result<(), Refusal>
    ensures number { numbered result ≡ first_refusal sixteen head first.old user place element }
    ensures left { first.new ≡ first_left sixteen head first.old user place element }
{
    check_gathering(head.phase)?;
    check_element(head.plan.users, head.places, user, place, element)?;
    let at = row_start(user, MOST_PLACES) + place as usize;
    // never so in a state that calls have made
    if FIRSTS <= at {
        return Err(Refusal::BadPlace);
    }
    hold(&mut first[at], element as u16)
}

// Holds a reply element, or answers why not: 11, 12, 4, 8, 3, 14, 13. What is left here and in `put_first` differs in the phase, the limit, the
// array and the test of survivors, so that one function for both would be no plainer.
pub fn put_reply(
    head: Head,
    reply: &mut [u16; CELLS],
    user: u32,
    block: u32,
    element: u32,
) -> Result<(), Refusal>
    ensures number { numbered result ≡ reply_refusal sixteen head reply.old user block element }
    ensures left { reply.new ≡ reply_left sixteen head reply.old user block element }
{
    check_replying(head.phase)?;
    check_element(head.plan.users, head.plan.blocks, user, block, element)?;
    let at = row_start(user, BLOCKS) + block as usize;
    // never so in a state that calls have made
    if CELLS <= at {
        return Err(Refusal::BadPlace);
    }
    if !plan::holds(head.survivors, user) {
        return Err(Refusal::NoSurvivor);
    }
    hold(&mut reply[at], element as u16)
}

// Whether the `each` elements from `start` on are all held. Without an early end many are tested at a time: `all` and `contains`, which have
// one, take two to seven times as long on a row that is held.
fn row_held(held: &[u16], start: usize, each: usize) -> bool
    requires { start + each ≤ length held.now }
    ensures { result ≡ row_held held.now start each }
{
    let mut good = true;
    for place in &held[start..start + each] {
        if *place == 0 {
            good = false;
        }
    }
    good
}

// The set of the plan's users with `each` elements held; a user's elements start `stride` behind those of the one before.
pub fn complete_set(held: &[u16], stride: usize, p: Plan, each: usize) -> u32
    requires { (p.users ≤ most_users) × (p.users * stride ≤ length held.now) × (each ≤ stride) × (stride ≤ most_places) }
    ensures { result ≡ complete_set (plan_of p) (look stride held.now) each }
{
    let mut set: u32 = 0;
    for k in 0..p.users {
        if row_held(held, k as usize * stride, each) {
            set += 1 << k;
        }
    }
    set
}

// Drops what was held: `[0; FIRSTS]` is the form of document 01.
pub fn clear(first: &mut [u16; FIRSTS], reply: &mut [u16; CELLS])
    ensures { (first.new ≡ nothing_first) × (reply.new ≡ nothing_reply) }
{
    *first = [0; FIRSTS];
    *reply = [0; CELLS];
}

// 11, 1, on lent arrays.
pub fn plan_lent(
    head: &mut Head,
    first: &mut [u16; FIRSTS],
    reply: &mut [u16; CELLS],
    plan: Plan,
) -> Result<(), Refusal>
    ensures { stepped result (lent head.new first.new reply.new)
        ≡ plan_step (lent head.old first.old reply.old) plan }
{
    check_unplanned(head.phase)?;
    if !plan::is_good(plan) {
        return Err(Refusal::BadPlan);
    }
    *head = Head {
        phase: Phase::Idle,
        plan,
        places: plan::places_of(plan) as u32,
        round: 0,
        survivors: 0,
    };
    clear(first, reply);
    Ok(())
}

// 11, 17, on lent arrays.
pub fn open_lent(
    head: &mut Head,
    first: &mut [u16; FIRSTS],
    reply: &mut [u16; CELLS],
    round: u32,
) -> Result<(), Refusal>
    ensures { stepped result (lent head.new first.new reply.new)
        ≡ open_step (lent head.old first.old reply.old) round }
{
    check_open(*head, round)?;
    head.phase = Phase::Gathering;
    head.round = round;
    head.survivors = 0;
    clear(first, reply);
    Ok(())
}

// 11, 12, 15, on lent arrays: the survivors.
pub fn close_lent(
    head: &mut Head,
    first: &[u16; FIRSTS],
    reply: &mut [u16; CELLS],
) -> Result<u32, Refusal>
    ensures { closing result (lent head.new first.now reply.new)
        ≡ close_step (lent head.old first.now reply.old) }
{
    check_gathering(head.phase)?;
    let plan = head.plan;
    // never so in a state that calls have made
    if !plan::is_good(plan) {
        return Err(Refusal::TooFew);
    }
    let each = plan::places_of(plan);
    let set = complete_set(first, MOST_PLACES, plan, each);
    if u32::count_ones(set) < plan.threshold {
        return Err(Refusal::TooFew);
    }
    head.phase = Phase::Replying;
    head.survivors = set;
    *reply = [0; CELLS];
    Ok(set)
}

impl Service {
    // Before any record.
    pub fn new() -> Self
        ensures { result ≡ new_service }
    {
        let plan = Plan {
            users: 0,
            threshold: 0,
            collusion: 0,
            blocks: 0,
        };
        let head = Head {
            phase: Phase::Unplanned,
            plan,
            places: 0,
            round: 0,
            survivors: 0,
        };
        Service {
            head,
            first: [0; FIRSTS],
            reply: [0; CELLS],
        }
    }

    // 11, 1.
    pub fn plan(&mut self, plan: Plan) -> Result<(), Refusal>
        ensures { stepped result self.new ≡ plan_step self.old plan }
    {
        plan_lent(&mut self.head, &mut self.first, &mut self.reply, plan)
    }

    // 11, 17. Works in any phase, drops what was held and begins gathering.
    pub fn open(&mut self, round: u32) -> Result<(), Refusal>
        ensures { stepped result self.new ≡ open_step self.old round }
    {
        open_lent(&mut self.head, &mut self.first, &mut self.reply, round)
    }

    // 11, 12, 4, 8, 3, 13. The element that is held is taken again, and changes nothing.
    pub fn first_element(&mut self, user: u32, place: u32, element: u16) -> Result<(), Refusal>
        ensures { stepped result self.new ≡ first_step sixteen self.old user place element }
    {
        put_first(self.head, &mut self.first, user, place, u32::from(element))
    }

    // 11, 12, 4, 8, 3, 14, 13. The element that is held is taken again, and changes nothing.
    pub fn reply_element(&mut self, user: u32, block: u32, element: u16) -> Result<(), Refusal>
        ensures { stepped result self.new ≡ reply_step sixteen self.old user block element }
    {
        put_reply(self.head, &mut self.reply, user, block, u32::from(element))
    }

    // 11, 12, 15. Makes survivors of the users with all places held, and begins replying.
    pub fn close(&mut self) -> Result<u32, Refusal>
        ensures { closing result self.new ≡ close_step self.old }
    {
        close_lent(&mut self.head, &self.first, &mut self.reply)
    }
}
