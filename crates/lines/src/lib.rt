// The lines of document 01's program, written into a lent buffer from a place on. Each function answers the place behind
// what it wrote; before and behind that, the buffer stays as it was.
//   put_plan, put_open, put_survivors, put_total, put_refusal   the text of each kind of answer
//   Writer                  a lent buffer, and the place behind what is written there; its methods write on
//     put_aside               the line before a total's, if a user is set aside
//     put_totals, put_short   the numbers of a total, each of 16 bits
//     put_number, put_digits  a number behind one space; its digits
//     put_low, put_few        the digits, where they are 8 or 4 at most
//     put_eight .. put_one    so many digits, zeros in front included
//     put_bytes               any text
#![tactic(auto)]

ghost use Rattle.std.specs.Prelude.{◌≡◌, ◌∷◌, ◌+◌, ◌*◌, ◌≤◌, ◌<◌, length, take, unwrap_or};
ghost use Rattle.scheme.specs.Limits.{most_places};
ghost use Rattle.scheme.specs.Service.{planned, opened, closed, totalled, refused};
ghost use Rattle.plan.specs.Plan.{plan_of};
ghost use Rattle.lines.specs.Text.{spell, decimal, numbers, aside_line, line};
ghost use Rattle.lines.specs.Put.{number_room, short_room, aside_room, room, Put, Says, Wrote};

use plan::{MOST_PLACES, Plan};

// The bytes that the text of any answer fits into: `room`. A caller that tests for another number does not meet a contract that says
// `room`.
pub const LINE: usize = 128 + 6 * MOST_PLACES;

// 10 ^ 8.
const EIGHT_DIGITS: u64 = 100000000;

// "plan 3 2 1 1"
pub fn put_plan(out: &mut [u8], at: usize, plan: Plan) -> usize
    requires { at + room ≤ length out.old }
    ensures short { result ≤ at + room }
    ensures put { Says out.old out.new at result (planned (plan_of plan)) }
{
    let mut line = Writer { out, at };
    line.put_bytes(b"plan");
    line.put_number(plan.users as u64);
    line.put_number(plan.threshold as u64);
    line.put_number(plan.collusion as u64);
    line.put_number(plan.blocks as u64);
    line.put_bytes(b"\n");
    line.at
}

// "open 7"
pub fn put_open(out: &mut [u8], at: usize, round: u32) -> usize
    requires { at + room ≤ length out.old }
    ensures short { result ≤ at + room }
    ensures put { Says out.old out.new at result (opened round) }
{
    let mut line = Writer { out, at };
    line.put_bytes(b"open");
    line.put_number(round as u64);
    line.put_bytes(b"\n");
    line.at
}

// "survivors 7 5"
pub fn put_survivors(out: &mut [u8], at: usize, round: u32, set: u32) -> usize
    requires { at + room ≤ length out.old }
    ensures short { result ≤ at + room }
    ensures put { Says out.old out.new at result (closed round set) }
{
    let mut line = Writer { out, at };
    line.put_bytes(b"survivors");
    line.put_number(round as u64);
    line.put_number(set as u64);
    line.put_bytes(b"\n");
    line.at
}

// "total 7 40": the round and the first n of the totals; before that the line of the user set aside, if any.
pub fn put_total(
    out: &mut [u8],
    at: usize,
    round: u32,
    aside: Option<u32>,
    totals: &[u16; MOST_PLACES],
    n: usize,
) -> usize
    requires { (at + room ≤ length out.old) × (n ≤ most_places) }
    ensures short { result ≤ at + room }
    ensures put { Says out.old out.new at result (totalled round (unwrap_or aside 0) (take n totals.now)) }
{
    let mut line = Writer { out, at };
    line.put_aside(round, aside);
    line.put_bytes(b"total");
    line.put_number(round as u64);
    line.put_totals(&totals[..n]);
    line.put_bytes(b"\n");
    line.at
}

// "refused 12 at 23": the number and the record's offset.
pub fn put_refusal(out: &mut [u8], at: usize, number: u32, offset: u64) -> usize
    requires { at + room ≤ length out.old }
    ensures short { result ≤ at + room }
    ensures put { Put out.old out.new at result (line offset (refused number)) }
{
    let mut line = Writer { out, at };
    line.put_bytes(b"refused");
    line.put_number(number as u64);
    line.put_bytes(b" at");
    line.put_number(offset);
    line.put_bytes(b"\n");
    line.at
}

// The next byte goes to out[at]. What writes numbers is inlined: through calls the place goes through memory at each digit, and a stream of
// refusals took twice as long.
#[derive(Drop)]
struct Writer<'a> {
    out: &'a mut [u8],
    at: usize,
}

impl Writer<'_> {
    // "aside 7 3": the round and the number of the user set aside; nothing if there is none. No user has number 0.
    fn put_aside(&mut self, round: u32, aside: Option<u32>)
        requires { self.old.at + aside_room ≤ length self.old.out.now }
        ensures short { self.new.at ≤ self.old.at + aside_room }
        ensures wrote { Wrote self.old self.new (aside_line round (unwrap_or aside 0)) }
    {
        if let Some(user) = aside
            && user != 0
        {
            self.put_bytes(b"aside");
            self.put_number(round as u64);
            self.put_number(user as u64);
            self.put_bytes(b"\n");
        }
    }

    // Behind the numbers there is room for one of 64 bits, which put_short asks for.
    fn put_totals(&mut self, totals: &[u16])
        requires { self.old.at + short_room * length totals.now + number_room ≤ length self.old.out.now }
        ensures short { self.new.at ≤ self.old.at + short_room * length totals.now }
        ensures wrote { Wrote self.old self.new (numbers totals.now) }
    {
        for total in totals {
            self.put_short(*total);
        }
    }

    // 16 bits are 5 digits at most.
    fn put_short(&mut self, n: u16)
        requires { self.old.at + number_room ≤ length self.old.out.now }
        ensures short { self.new.at ≤ self.old.at + short_room }
        ensures wrote { Wrote self.old self.new (32 ∷ decimal n) }
    {
        self.put_number(n as u64);
    }

    // One space and the decimal digits.
    #[inline(always)]
    fn put_number(&mut self, n: u64)
        requires { self.old.at + number_room ≤ length self.old.out.now }
        ensures short { self.new.at ≤ self.old.at + number_room }
        ensures wrote { Wrote self.old self.new (32 ∷ decimal n) }
    {
        self.out[self.at] = b' ';
        self.at += 1;
        self.put_digits(n);
    }

    // The digits, the last 8 and the 8 before them apart.
    #[inline(always)]
    fn put_digits(&mut self, n: u64)
        requires { self.old.at + 20 ≤ length self.old.out.now }
        ensures { Wrote self.old self.new (decimal n) }
    {
        if n < EIGHT_DIGITS {
            self.put_low(n as u32);
            return;
        }
        let high = n / EIGHT_DIGITS;
        let low = (n % EIGHT_DIGITS) as u32;
        if high < EIGHT_DIGITS {
            self.put_low(high as u32);
            self.put_eight(low);
            return;
        }
        self.put_few((high / EIGHT_DIGITS) as u32);
        self.put_eight((high % EIGHT_DIGITS) as u32);
        self.put_eight(low);
    }

    // The digits of a number below 10 ^ 8.
    #[inline(always)]
    fn put_low(&mut self, n: u32)
        requires { (self.old.at + 8 ≤ length self.old.out.now) × (n < 100000000) }
        ensures short { self.new.at ≤ self.old.at + 8 }
        ensures wrote { Wrote self.old self.new (decimal n) }
    {
        if n < 10000 {
            self.put_few(n);
            return;
        }
        self.put_few(n / 10000);
        self.put_four(n % 10000);
    }

    // The digits of a number below 10 ^ 4.
    #[inline(always)]
    fn put_few(&mut self, n: u32)
        requires { (self.old.at + 4 ≤ length self.old.out.now) × (n < 10000) }
        ensures short { self.new.at ≤ self.old.at + 4 }
        ensures wrote { Wrote self.old self.new (decimal n) }
    {
        if n < 10 {
            self.put_one(n);
            return;
        }
        if n < 100 {
            self.put_two(n);
            return;
        }
        if n < 1000 {
            self.put_one(n / 100);
            self.put_two(n % 100);
            return;
        }
        self.put_four(n);
    }

    // All of 8, 4, 2 digits, or one.
    fn put_eight(&mut self, n: u32)
        requires { (self.old.at + 8 ≤ length self.old.out.now) × (n < 100000000) }
        ensures end { self.new.at ≡ self.old.at + 8 }
        ensures wrote { Wrote self.old self.new (spell 8 n) }
    {
        self.put_four(n / 10000);
        self.put_four(n % 10000);
    }

    fn put_four(&mut self, n: u32)
        requires { (self.old.at + 4 ≤ length self.old.out.now) × (n < 10000) }
        ensures end { self.new.at ≡ self.old.at + 4 }
        ensures wrote { Wrote self.old self.new (spell 4 n) }
    {
        self.put_two(n / 100);
        self.put_two(n % 100);
    }

    fn put_two(&mut self, n: u32)
        requires { (self.old.at + 2 ≤ length self.old.out.now) × (n < 100) }
        ensures end { self.new.at ≡ self.old.at + 2 }
        ensures wrote { Wrote self.old self.new (spell 2 n) }
    {
        self.put_one(n / 10);
        self.put_one(n % 10);
    }

    fn put_one(&mut self, n: u32)
        requires { (self.old.at + 1 ≤ length self.old.out.now) × (n < 10) }
        ensures end { self.new.at ≡ self.old.at + 1 }
        ensures wrote { Wrote self.old self.new (spell 1 n) }
    {
        self.out[self.at] = b'0' + n as u8;
        self.at += 1;
    }

    // A text that is known becomes one or two stores; copy_from_slice asks first whether the two overlap, which was slower.
    fn put_bytes(&mut self, text: &[u8])
        requires { self.old.at + length text.now ≤ length self.old.out.now }
        ensures { Wrote self.old self.new text.now }
    {
        for byte in text {
            self.out[self.at] = *byte;
            self.at += 1;
        }
    }
}
