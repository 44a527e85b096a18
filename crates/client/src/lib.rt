// The airfield end of document 01: it is fresh, or has sent, or has answered one named set, and holds its plan, its number, what it
// reports, counts or signed figures, and the round that its key belongs to.
//   Stage, Client      the end; the stage that a number stands for, where an end is kept as numbers; tests 18 and 19 of a stage
//   Replied            what a reply hands back: the end, and the part of the lent key
//   figures_good, add_masks    test 32 of figures; figures plus masks
//   Client::start, first_message, check_reply, reply; Client::Q and the limits; check_first, part behind them
// A refused call hands back its refusal alone: the caller's end and every lent buffer are as before.
#![tactic(auto)]

ghost use Rattle.std.specs.Prelude.{◌≡◌, true, ◌+◌, ◌*◌, ◌≤◌, length, IfOk};
ghost use Rattle.scheme.specs.Lists.{each};
ghost use Rattle.scheme.specs.Scheme.{sixteen, elements, figures_good, usable_with, key_length, reply, reply_start, is_fresh, open_to, start_refusal};
ghost use Rattle.scheme.specs.Good.{Good};
ghost use Rattle.plan.specs.Plan.{plan_of, use_of};
ghost use Rattle.plan.specs.Numbers.{numbered};
ghost use Rattle.client.specs.Client.{stage_of, stage_of_number, begun_by, begun, first_refusal, moved_by, first_answer, message_left, answer_refusal, replied_by, reply_answer, part_of, part_start};

use plan::{Plan, Refusal, Use};

#[derive(Clone, Copy)]
pub enum Stage {
    Fresh,
    Sent,
    Answered(u32),
}

// 0 is fresh, 1 is sent, 2 + v has answered the set v.
impl From<u32> for Stage {
    ghost from_gives = { λ number stage. stage_of stage ≡ stage_of_number number };

    #[tactic(auto, unfolding(crate::specs::Client::stage_of, crate::specs::Client::stage_of_number), using(crate::proofs::Laws::stage_answered))]
    fn from(number: u32) -> Stage {
        match number {
            0 => Stage::Fresh,
            1 => Stage::Sent,
            _ => Stage::Answered(number - 2),
        }
    }
}

impl Stage {
    #[tactic(auto, unfolding(crate::specs::Client::stage_of, scheme::specs::Scheme::is_fresh))]
    fn is_fresh(self) -> bool
        ensures { result ≡ is_fresh (stage_of self) }
    {
        matches!(self, Stage::Fresh)
    }

    #[tactic(auto, unfolding(crate::specs::Client::stage_of, scheme::specs::Scheme::open_to))]
    fn open_to(self, set: u32) -> bool
        ensures { result ≡ open_to set (stage_of self) }
    {
        match self {
            Stage::Answered(other) => other == set,
            _ => true,
        }
    }
}

#[derive(Clone, Copy)]
pub struct Client {
    pub plan: Plan,
    pub user: u32,
    pub usage: Use,
    pub round: u32,
    pub stage: Stage,
}

#[derive(Drop)]
pub struct Replied<'a> {
    pub client: Client,
    pub part: &'a [u16],
}

// Test 32: figures that pass are elements.
#[tactic(auto, unfolding(scheme::specs::Scheme::figures_good))]
fn figures_good(plan: Plan, usage: Use, figures: &[u16]) -> bool
    requires { Good (plan_of plan) }
    ensures { result ≡ figures_good sixteen (use_of usage) (plan_of plan) figures.now }
{
    let bound = plan::bound_of(plan, usage);
    match usage {
        Use::Counts => element::all_within(figures, bound),
        Use::Signed => element::all_near(figures, bound),
    }
}

// Figures plus masks, place by place: the first elements of a key are its masks. By index, since std has no lemmas on a `zip` that writes.
#[tactic(auto, using(scheme::proofs::Keys::elements_at, scheme::proofs::Lists::sets_whole, scheme::proofs::Lists::map_span_length), unfolding(scheme::specs::Lists::each))]
fn add_masks(figures: &[u16], key: &[u16], out: &mut [u16])
    requires out_in_bounds { (length out.old ≤ length figures.now) × (length out.old ≤ length key.now) }
    requires figures_value { (elements sixteen figures.now ≡ true) × (elements sixteen key.now ≡ true) }
    ensures { out.new ≡ each sixteen.add (length out.old) figures.now key.now }
{
    for (i, sum) in out.iter_mut().enumerate() {
        *sum = element::add(figures[i], key[i]);
    }
}

impl Client {
    // The modulus and the limits of document 01. U has none of its own: it lies above T and below K.
    pub const Q: u32 = element::Q;

    pub const LEAST_USERS: u32 = plan::LEAST_USERS;

    pub const MOST_USERS: u32 = plan::MOST_USERS;

    pub const LEAST_COLLUSION: u32 = plan::LEAST_COLLUSION;

    pub const LEAST_BLOCKS: u32 = plan::LEAST_BLOCKS;

    pub const MOST_BLOCKS: u32 = plan::MOST_BLOCKS;

    pub const MOST_PLACES: usize = plan::MOST_PLACES;

    // A fresh end for a plan, a number, a use and a round, which may be any: 1, 4.
    #[tactic(auto, using(crate::proofs::Laws::answered))]
    pub fn start(plan: Plan, user: u32, usage: Use, round: u32) -> Result<Client, Refusal>
        ensures { begun_by result ≡ begun plan user usage round }
    {
        plan::check_start(plan, user)?;
        Ok(Client {
            plan,
            user,
            usage,
            round,
            stage: Stage::Fresh,
        })
    }

    // 18, 2, 3, 32, of a first message into a buffer of `room` elements; 1 and 4 only of an end that start has not made. Figures that 32
    // lets pass are elements, so that one look at them tells of both.
    #[tactic(auto, using(crate::proofs::Laws::tested), unfolding(scheme::specs::Scheme::message_refusal))]
    fn check_first(self, key: &[u16], figures: &[u16], room: usize) -> Result<(), Refusal>
        ensures { numbered result ≡ first_refusal sixteen self key.now figures.now room }
    {
        plan::check_start(self.plan, self.user)?;
        if !self.stage.is_fresh() {
            return Err(Refusal::OutOfTurn);
        }
        if key.len() != plan::key_of(self.plan, self.user) {
            return Err(Refusal::BadLength);
        }
        let places = plan::places_of(self.plan);
        if figures.len() != places || room != places {
            return Err(Refusal::BadLength);
        }
        if !element::all_elements(key) {
            return Err(Refusal::BadElement);
        }
        if figures_good(self.plan, self.usage, figures) {
            return Ok(());
        }
        if !element::all_elements(figures) {
            return Err(Refusal::BadElement);
        }
        Err(Refusal::FigureBeyond)
    }

    // "First message: figures plus S, place by place."
    #[tactic(auto, using(crate::proofs::Laws::answered))]
    pub fn first_message(
        mut self,
        key: &[u16],
        figures: &[u16],
        out: &mut [u16],
    ) -> Result<Client, Refusal>
        ensures answer { moved_by self result ≡ first_answer sixteen self key.now figures.now (length out.old) }
        ensures left { out.new ≡ message_left sixteen self key.now figures.now out.old }
    {
        self.check_first(key, figures, out.len())?;
        add_masks(figures, key, out);
        self.stage = Stage::Sent;
        Ok(self)
    }

    // 18, 2, 3, 5, 6, 33, 19, of a reply; 1 and 4 only of an end that start has not made. It hands out no share.
    #[tactic(auto, using(crate::proofs::Laws::tested), unfolding(scheme::specs::Scheme::reply_refusal))]
    pub fn check_reply(self, key: &[u16], set: u32, round: u32) -> Result<(), Refusal>
        ensures { numbered result ≡ answer_refusal sixteen self key.now set round }
    {
        plan::check_start(self.plan, self.user)?;
        if self.stage.is_fresh() {
            return Err(Refusal::OutOfTurn);
        }
        if key.len() != plan::key_of(self.plan, self.user) {
            return Err(Refusal::BadLength);
        }
        if !element::all_elements(key) {
            return Err(Refusal::BadElement);
        }
        if !plan::is_usable(self.plan, set) {
            return Err(Refusal::SetUnusable);
        }
        if !plan::holds(set, self.user) {
            return Err(Refusal::NotInSet);
        }
        if round != self.round {
            return Err(Refusal::OtherRound);
        }
        if !self.stage.open_to(set) {
            return Err(Refusal::OtherSet);
        }
        Ok(())
    }

    // The shares for a set where they lie in the key: of a set and a key that have passed their tests.
    #[tactic(auto, using(crate::proofs::Laws::answered), unfolding(scheme::specs::Scheme::reply))]
    fn part(self, key: &[u16], set: u32) -> &[u16]
        requires own { start_refusal (plan_of self.plan) self.user ≡ 0 }
        requires whole { usable_with (plan_of self.plan) self.user set ≡ true }
        requires long { length key.now ≡ key_length (plan_of self.plan) self.user }
        ensures shares { result.now ≡ reply (plan_of self.plan) key.now self.user set }
        ensures place { result.ref_ptr ≡ (key.entry.ref_ptr.0, key.entry.ref_ptr.1 + reply_start (plan_of self.plan) self.user set * 2) }
    {
        let start = plan::reply_start(self.plan, self.user, set);
        let end = start + self.plan.blocks as usize;
        &key[start..end]
    }

    // "Reply to set V: the M shares for V, handed back as the very part of the lent key where they lie." The request names the round.
    #[tactic(auto, using(crate::proofs::Laws::answered), unfolding(crate::specs::Client::part_of, crate::specs::Client::part_start))]
    pub fn reply<'a>(mut self, key: &'a [u16], set: u32, round: u32) -> Result<Replied<'a>, Refusal>
        ensures answer { replied_by self result ≡ reply_answer sixteen self key.now set round }
        ensures shares { IfOk result (λ r. r.part.now ≡ part_of sixteen self key.now set round) }
        ensures place { IfOk result (λ r. r.part.ref_ptr ≡ (key.entry.ref_ptr.0, key.entry.ref_ptr.1 + part_start sixteen self key.now set round * 2)) }
    {
        self.check_reply(key, set, round)?;
        let part = self.part(key, set);
        self.stage = Stage::Answered(set);
        Ok(Replied { client: self, part })
    }
}
