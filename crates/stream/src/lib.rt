// The record stream of document 01, a chunk at a time: bytes in, lines out.
//   Fed, Stop                                  what feed hands back: how many bytes it used and wrote, and why it stopped
//   Kind                                       the kinds of records, and how long theirs are
//   byte_at, two_at, four_at, plan_at          a record's bytes
//   put_refusal                                the line of a refused record
//   take_plan, take_open, take_close, take_finish, take_total    one record other than an element: how far out is written
//   sender, free_or_same, hold_in, run_first, run_reply     the elements of a kind that follow and are accepted: where their run ends
//   Reached, take_first, take_reply            one element, and behind an accepted one a run: how far the input is taken and out is written
//   take_record                                a record of any kind
//   feed, feed_records                         takes the whole records of a chunk in order; the same where no offset passes 64 bits
//   cut                                        the line of refusal 7, for an unknown kind or a record that the end of the input cuts short
#![tactic(auto)]

ghost use Rattle.std.specs.Prelude.{◌≡◌, ◌≢◌, true, false, List, ℕ, ◌+◌, ◌*◌, ◌/◌, ◌%◌, ◌^◌, ◌≤◌, ◌<◌, length, get_or, set, take, MatchOption, IfSome};
ghost use Rattle.std.proofs.lemmas.List.Edits.{sets};
ghost use Rattle.scheme.specs.Scheme.{q};
ghost use Rattle.scheme.specs.Service.{not_gathering, not_replying, plan_record, open_record, close_record, finish_record, refused};
ghost use Rattle.plan.specs.Plan.{plan_of};
ghost use Rattle.plan.specs.Numbers.{number_of};
ghost use Rattle.service.specs.View.{phase_of, held_as, left_in};
ghost use Rattle.service.specs.Calls.{lent};
ghost use Rattle.lines.specs.Text.{line};
ghost use Rattle.lines.specs.Put.{room, Put};
ghost use Rattle.stream.specs.Stream.{code_of, record_length, two_bytes, four_bytes, plan_at, Whole, HeldIn, lines, fed_by, fed, Turns, SilentRun, Takes, cut_length, cut_left};

use lines::LINE;
use plan::{BLOCKS, CELLS, FIRSTS, MOST_PLACES, Plan, Refusal};
use service::{Head, Service};

// All bytes are used; an unknown kind or a record that is not whole comes next; no room for the lines of a record; offsets would pass
// 64 bits.
#[derive(Clone, Copy, Debug, PartialEq, Eq)]
pub enum Stop {
    Used,
    Unknown,
    Partial,
    Full,
    Far,
}

#[derive(Clone, Copy, Debug, PartialEq, Eq)]
pub struct Fed {
    pub at: usize,
    pub wrote: usize,
    pub stop: Stop,
}

// A record's first byte is its kind.
#[derive(Clone, Copy)]
enum Kind {
    Plan = 1,
    Open = 2,
    First = 3,
    Close = 4,
    Reply = 5,
    Finish = 6,
}

impl Kind {
    // The kind with this number, if there is one.
    #[tactic(auto, unfolding(crate::specs::Stream::record_length))]
    fn of(byte: u8) -> Option<Kind>
        ensures { MatchOption result (record_length byte ≡ 0) (λ kind. byte ≡ code_of kind) }
    {
        match byte {
            1 => Some(Kind::Plan),
            2 => Some(Kind::Open),
            3 => Some(Kind::First),
            4 => Some(Kind::Close),
            5 => Some(Kind::Reply),
            6 => Some(Kind::Finish),
            _ => None,
        }
    }

    // The bytes of a record of this kind, its kind included.
    #[tactic(auto, unfolding(crate::specs::Stream::record_length))]
    fn length(self) -> usize
        ensures { (result ≡ record_length (code_of self)) × (1 ≤ result) }
    {
        match self {
            Kind::Close | Kind::Finish => 1,
            Kind::Plan | Kind::Open | Kind::Reply => 5,
            Kind::First => 6,
        }
    }
}

fn byte_at(b: &[u8], i: usize) -> u32
    requires { i < length b.now }
    ensures { result ≡ get_or b.now i 0 }
{
    b[i] as u32
}

// Numbers have their low byte first.
fn two_at(b: &[u8], i: usize) -> u16
    requires { i + 2 ≤ length b.now }
    ensures { (result ≡ two_bytes b.now i) × (result % 256 ≡ get_or b.now i 0) × (result / 256 ≡ get_or b.now (i + 1) 0) }
{
    u16::from_le_bytes([b[i], b[i + 1]])
}

fn four_at(b: &[u8], i: usize) -> u32
    requires { i + 4 ≤ length b.now }
    ensures { result ≡ four_bytes b.now i }
{
    u32::from_le_bytes([b[i], b[i + 1], b[i + 2], b[i + 3]])
}

fn plan_at(b: &[u8], at: usize) -> Plan
    requires { at + 5 ≤ length b.now }
    ensures { plan_of result ≡ plan_at b.now at }
{
    Plan {
        users: byte_at(b, at + 1),
        threshold: byte_at(b, at + 2),
        collusion: byte_at(b, at + 3),
        blocks: byte_at(b, at + 4),
    }
}

// The line of a refused record.
fn put_refusal(out: &mut [u8], at: usize, refusal: Refusal, offset: u64) -> usize
    requires { at + room ≤ length out.old }
    ensures short { result ≤ at + room }
    ensures put { Put out.old out.new at result (line offset (refused (number_of refusal))) }
{
    lines::put_refusal(out, at, u32::from(refusal), offset)
}

// 01, a plan.
fn take_plan(service: &mut Service, plan: Plan, offset: u64, out: &mut [u8], at: usize) -> usize
    requires { at + room ≤ length out.old }
    ensures { Turns (plan_record (plan_of plan)) offset service.old service.new out.old out.new at result }
{
    match service.plan(plan) {
        Ok(()) => lines::put_plan(out, at, plan),
        Err(refusal) => put_refusal(out, at, refusal, offset),
    }
}

// 02, an open.
fn take_open(service: &mut Service, round: u32, offset: u64, out: &mut [u8], at: usize) -> usize
    requires { at + room ≤ length out.old }
    ensures { Turns (open_record round) offset service.old service.new out.old out.new at result }
{
    match service.open(round) {
        Ok(()) => lines::put_open(out, at, round),
        Err(refusal) => put_refusal(out, at, refusal, offset),
    }
}

// 04, a close.
fn take_close(service: &mut Service, offset: u64, out: &mut [u8], at: usize) -> usize
    requires { at + room ≤ length out.old }
    ensures { Turns close_record offset service.old service.new out.old out.new at result }
{
    let round = service.head.round;
    match service.close() {
        Ok(survivors) => lines::put_survivors(out, at, round, survivors),
        Err(refusal) => put_refusal(out, at, refusal, offset),
    }
}

// 06, a finish. What it hands back is large, and room for that is made where `take_total` begins: the phase is asked before, so that a
// refused record costs little.
fn take_finish(service: &mut Service, offset: u64, out: &mut [u8], at: usize) -> usize
    requires { at + room ≤ length out.old }
    ensures { Turns finish_record offset service.old service.new out.old out.new at result }
{
    match service::check_replying(service.head.phase) {
        Ok(()) => take_total(service, offset, out, at),
        Err(refusal) => put_refusal(out, at, refusal, offset),
    }
}

// The same of any phase.
fn take_total(service: &mut Service, offset: u64, out: &mut [u8], at: usize) -> usize
    requires { at + room ≤ length out.old }
    ensures { Turns finish_record offset service.old service.new out.old out.new at result }
{
    let round = service.head.round;
    let plan = service.head.plan;
    match finish::finish(service) {
        Ok(total) => {
            let places = plan::places_of(plan);
            lines::put_total(out, at, round, total.aside, &total.totals, places)
        }
        Err(refusal) => put_refusal(out, at, refusal, offset),
    }
}

// A tag is the number that the first two bytes of a record make. The user whose element of a kind has this tag; none where that is another
// record's, or of no user of the plan.
fn sender(kind: Kind, users: u32, tag: u16) -> Option<u32>
    ensures { IfSome result (λ user. (tag % 256 ≡ code_of kind) × (tag / 256 ≡ user) × (1 ≤ user) × (user ≤ users)) }
{
    let user = (tag / 256) as u32;
    if tag % 256 != kind as u16 || users < user || user == 0 {
        return None;
    }
    Some(user)
}

// Whether a place takes an element, both as they are held: nothing is held, or the same. Where repeats come by chance, two tests would often
// be predicted wrongly.
fn free_or_same(held: u16, new: u16) -> bool
    ensures { result ≡ true → left_in held new ≡ new }
{
    held as u32 * held as u32 == held as u32 * new as u32
}

// Holds an element that is accepted: its place is one of the `limit` that follow `row`, and free or holds the same. Else nothing is held.
fn hold_in(held: &mut [u16], row: usize, limit: u32, place: u32, element: u16) -> bool
    requires { row + limit ≤ length held.old }
    ensures taken { result ≡ true → HeldIn held.old held.new row limit place element }
    ensures left { result ≡ false → held.new ≡ held.old }
{
    if limit <= place || element::Q16 <= element {
        return false;
    }
    let i = row + place as usize;
    let new = service::held_as(element);
    if !free_or_same(held[i], new) {
        return false;
    }
    held[i] = new;
    true
}

// Takes first elements while one follows that is accepted, behind one that was: new or a repeat. Any other record is left to `take_first`
// and the rest. The user's row is looked up where the tag changes.
fn run_first(head: Head, first: &mut [u16; FIRSTS], b: &[u8], start: usize) -> usize
    requires { (start ≤ length b.now) × (not_gathering (phase_of head.phase) ≡ 0) × (1 ≤ head.plan.users) }
    ensures { (reply : List ℕ) → SilentRun b.now start result
        (lent head first.old reply) (lent head first.new reply) }
{
    let limit = head.places;
    // never so in a state that calls have made
    if FIRSTS < service::row_start(head.plan.users, MOST_PLACES) + limit as usize {
        return start;
    }
    let mut at = start;
    while 6 <= b.len() - at {
        let tag = two_at(b, at);
        let Some(user) = sender(Kind::First, head.plan.users, tag) else {
            return at;
        };
        let row = service::row_start(user, MOST_PLACES);
        loop {
            let place = two_at(b, at + 2) as u32;
            if !hold_in(first, row, limit, place, two_at(b, at + 4)) {
                return at;
            }
            at += 6;
            if b.len() - at < 6 || two_at(b, at) != tag {
                break;
            }
        }
    }
    at
}

// The same of reply elements: only a survivor's row is looked up.
fn run_reply(head: Head, reply: &mut [u16; CELLS], b: &[u8], start: usize) -> usize
    requires { (start ≤ length b.now) × (not_replying (phase_of head.phase) ≡ 0) × (1 ≤ head.plan.users) }
    ensures { (first : List ℕ) → SilentRun b.now start result
        (lent head first reply.old) (lent head first reply.new) }
{
    let limit = head.plan.blocks;
    // never so in a state that calls have made
    if CELLS < service::row_start(head.plan.users, BLOCKS) + limit as usize {
        return start;
    }
    let mut at = start;
    while 5 <= b.len() - at {
        let tag = two_at(b, at);
        let Some(user) = sender(Kind::Reply, head.plan.users, tag) else {
            return at;
        };
        if !plan::holds(head.survivors, user) {
            return at;
        }
        let row = service::row_start(user, BLOCKS);
        loop {
            let block = byte_at(b, at + 2);
            if !hold_in(reply, row, limit, block, two_at(b, at + 3)) {
                return at;
            }
            at += 5;
            if b.len() - at < 5 || two_at(b, at) != tag {
                break;
            }
        }
    }
    at
}

// How far the input is taken, and how far out is written.
#[derive(Clone, Copy)]
pub struct Reached {
    pub at: usize,
    pub wrote: usize,
}

// 03, a first element, and behind an accepted one its run.
fn take_first(
    service: &mut Service,
    b: &[u8],
    start: usize,
    offset: u64,
    out: &mut [u8],
    at: usize,
) -> Reached
    requires { (at + room ≤ length out.old) × Whole b.now start × (get_or b.now start 0 ≡ 3) }
    ensures { Takes b.now offset start result.at service.old service.new out.old out.new at result.wrote }
{
    let user = byte_at(b, start + 1);
    let place = two_at(b, start + 2) as u32;
    let element = two_at(b, start + 4);
    let next = start + 6;
    match service.first_element(user, place, element) {
        Ok(()) => {
            let end = run_first(service.head, &mut service.first, b, next);
            Reached { at: end, wrote: at }
        }
        Err(refusal) => {
            let wrote = put_refusal(out, at, refusal, offset);
            Reached { at: next, wrote }
        }
    }
}

// 05, a reply element, and behind an accepted one its run.
fn take_reply(
    service: &mut Service,
    b: &[u8],
    start: usize,
    offset: u64,
    out: &mut [u8],
    at: usize,
) -> Reached
    requires { (at + room ≤ length out.old) × Whole b.now start × (get_or b.now start 0 ≡ 5) }
    ensures { Takes b.now offset start result.at service.old service.new out.old out.new at result.wrote }
{
    let user = byte_at(b, start + 1);
    let block = byte_at(b, start + 2);
    let element = two_at(b, start + 3);
    let next = start + 5;
    match service.reply_element(user, block, element) {
        Ok(()) => {
            let end = run_reply(service.head, &mut service.reply, b, next);
            Reached { at: end, wrote: at }
        }
        Err(refusal) => {
            let wrote = put_refusal(out, at, refusal, offset);
            Reached { at: next, wrote }
        }
    }
}

// The record at a place, and behind an accepted element its run.
fn take_record(
    service: &mut Service,
    kind: Kind,
    b: &[u8],
    start: usize,
    offset: u64,
    out: &mut [u8],
    at: usize,
) -> Reached
    requires { (at + room ≤ length out.old) × Whole b.now start × (get_or b.now start 0 ≡ code_of kind) }
    ensures { Takes b.now offset start result.at service.old service.new out.old out.new at result.wrote }
{
    let wrote = match kind {
        Kind::Plan => take_plan(service, plan_at(b, start), offset, out, at),
        Kind::Open => take_open(service, four_at(b, start + 1), offset, out, at),
        Kind::First => return take_first(service, b, start, offset, out, at),
        Kind::Close => take_close(service, offset, out, at),
        Kind::Reply => return take_reply(service, b, start, offset, out, at),
        Kind::Finish => take_finish(service, offset, out, at),
    };
    let next = start + kind.length();
    Reached { at: next, wrote }
}

fn feed_records(service: &mut Service, b: &[u8], offset: u64, out: &mut [u8]) -> Fed
    requires { offset + length b.now < 2 ^ 64 }
    ensures result { fed_by service.new result ≡ fed service.old b.now offset (length out.old) }
    ensures left { out.new ≡ sets out.old 0 (lines service.old offset (take result.at b.now)) }
{
    let mut at: usize = 0;
    let mut wrote: usize = 0;
    while at < b.len() {
        let Some(kind) = Kind::of(b[at]) else {
            return Fed {
                at,
                wrote,
                stop: Stop::Unknown,
            };
        };
        let n = kind.length();
        if b.len() - at < n {
            return Fed {
                at,
                wrote,
                stop: Stop::Partial,
            };
        }
        if out.len() - wrote < LINE {
            return Fed {
                at,
                wrote,
                stop: Stop::Full,
            };
        }
        let here = offset + at as u64;
        let reached = take_record(service, kind, b, at, here, out, wrote);
        at = reached.at;
        wrote = reached.wrote;
    }
    Fed {
        at,
        wrote,
        stop: Stop::Used,
    }
}

// Takes the whole records of b in order; the first byte of b stands at the offset. It stops where b ends, at an unknown kind, at a
// record that is not whole, or where less than LINE bytes of out are left. Of a chunk whose offsets would pass 64 bits it takes none.
pub fn feed(service: &mut Service, b: &[u8], offset: u64, out: &mut [u8]) -> Fed
    ensures result { fed_by service.new result ≡ fed service.old b.now offset (length out.old) }
    ensures left { out.new ≡ sets out.old 0 (lines service.old offset (take result.at b.now)) }
{
    if u64::MAX - offset < b.len() as u64 {
        return Fed {
            at: 0,
            wrote: 0,
            stop: Stop::Far,
        };
    }
    feed_records(service, b, offset, out)
}

// Writes the line of refusal 7 and answers its length, or 0 where out has not LINE bytes.
pub fn cut(offset: u64, out: &mut [u8]) -> usize
    ensures length { result ≡ cut_length offset (length out.old) }
    ensures left { out.new ≡ cut_left offset out.old }
{
    if out.len() < LINE {
        return 0;
    }
    put_refusal(out, 0, Refusal::BadRecord, offset)
}
