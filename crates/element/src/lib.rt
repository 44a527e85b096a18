// Elements of document 01: whole numbers modulo 65521, held in 16 bits.
//   Q                         the modulus; in 16 bits Q16, one past LAST; OVER, by which WORD is more
//   add, subtract, over_if    of two elements; OVER where a test holds
//   multiply                  of any two 16-bit numbers, through wider integers
//   reduce                    n % Q without a division
//   Scale, scale_of           a factor for many products in 16 bits
//   add_scaled                a sum plus such a product
//   high_half, low_half       of a product
//   POINTS, inverses          the inverses of the numbers below POINTS
//   coefficient               that of a user and a column
//   past, all_within          how far a number is past the most; that no number of a list is
//   excess, all_elements      the same of the last element: test 3 of document 01
//   far, all_near             0 of an element no further than the most from zero, up or down; that all of a list are such elements
#![tactic(auto)]

ghost use Rattle.std.specs.Prelude.{◌≡◌, ℕ, ◌+◌, ◌-◌, ◌*◌, ◌/◌, ◌%◌, ◌<◌, map, if◌then◌else◌, ◌==◌};
ghost use Rattle.algebra.specs.Residue.{inverse};
ghost use Rattle.scheme.specs.Limits.{points};
ghost use Rattle.scheme.specs.Lists.{span};
ghost use Rattle.scheme.specs.Scheme.{q, sixteen, elements, within, is_near, near};
ghost use Rattle.element.specs.Word.{word, reducible};
ghost use Rattle.element.specs.Halves.{Scales};

use std::num::{wrapping_add_u16, wrapping_sub_u16};

pub const Q: u32 = 65521;

pub const Q16: u16 = Q as u16;

// The largest element.
const LAST: u16 = Q16 - 1;

// What 16 bits count to, and how far that is past Q.
const WORD: u32 = 65536;

const OVER: u32 = WORD - Q;

const OVER16: u16 = OVER as u16;

// The inverse of Q modulo WORD.
const INVERSE: u16 = 4369;

// Of two elements, all in 16 bits, so that many are added at a time. Where the sum passes Q, OVER more makes it wrap.
pub fn add(a: u16, b: u16) -> u16
    requires { (a < q) × (b < q) }
    ensures { result ≡ sixteen.add a b }
{
    wrapping_add_u16(wrapping_add_u16(a, b), over_if(Q16 - b <= a))
}

// The same of the difference, which wraps below zero.
pub fn subtract(a: u16, b: u16) -> u16
    requires { (a < q) × (b < q) }
    ensures { result ≡ sixteen.subtract a b }
{
    wrapping_sub_u16(wrapping_sub_u16(a, b), over_if(a < b))
}

fn over_if(test: bool) -> u16
    ensures { result ≡ (if test then word - q else 0) }
{
    if test { OVER16 } else { 0 }
}

pub fn multiply(a: u16, b: u16) -> u16
    ensures { result ≡ sixteen.multiply a b % q }
{
    (a as u32 * b as u32 % Q) as u16
}

// n % Q without a division: WORD is OVER more than Q, so the high half counts OVER fold.
pub fn reduce(n: u32) -> u16
    requires { n < reducible }
    ensures { result ≡ n % q }
{
    let once = n % WORD + n / WORD * OVER;
    if once < Q {
        return once as u16;
    }
    (once - Q) as u16
}

// A factor a, prepared for many products in 16 bits: `by` is a * WORD modulo Q, and Q * key is `by` modulo WORD.
#[derive(Clone, Copy)]
pub struct Scale {
    pub by: u16,
    pub key: u16,
}

pub fn scale_of(a: u16) -> Scale
    ensures { Scales word q a result.by result.key }
{
    let by = multiply(a, OVER16);
    Scale {
        by,
        key: low_half(by, INVERSE),
    }
}

// A sum plus a product, reduced, without a wider division: the low halves of x * by and of Q * (x * key) are the same, and the difference of the
// high ones is a * x modulo Q.
pub fn add_scaled(sum: u16, x: u16, s: Scale) -> u16
    requires { (sum < q) × (s.by < q) }
    ensures small { result < q }
    ensures right { (a : ℕ) → Scales word q a s.by s.key → result ≡ sixteen.add sum (sixteen.multiply a x) }
{
    subtract(
        add(sum, high_half(x, s.by)),
        high_half(low_half(x, s.key), Q16),
    )
}

fn high_half(a: u16, b: u16) -> u16
    ensures { result ≡ a * b / word }
{
    (a as u32 * b as u32 / WORD) as u16
}

fn low_half(a: u16, b: u16) -> u16
    ensures { result ≡ a * b % word }
{
    (a as u32 * b as u32 % WORD) as u16
}

// One more than the most that a user and a column add up to.
pub const POINTS: usize = 16;

// The inverses of the numbers below POINTS modulo Q, and at 0, which has none, the 1 that the definition gives. Read from an array, a factor has
// 16 bits for the compiler too; by arms it would be prepared as a table of wider numbers.
pub fn inverses() -> [u16; POINTS]
    ensures { result ≡ map (inverse q) (span points 0) }
{
    [
        1, 1, 32761, 43681, 49141, 52417, 54601, 56161, 57331, 58241, 58969, 11913, 60061, 60481,
        60841, 61153,
    ]
}

// "The coefficient of airfield k and column j is the inverse of k + j modulo q."
pub fn coefficient(user: u32, column: u32) -> u16
    requires { user + column < points }
    ensures { result ≡ sixteen.coefficient user column }
{
    let table = inverses();
    table[(user + column) as usize]
}

// How far x is past the most: 0 of a number that is not above it.
fn past(x: u16, most: u16) -> u16
    ensures { result ≡ x - most }
{
    x.saturating_sub(most)
}

// How far x is past the last element: 0 of an element.
pub fn excess(x: u16) -> u16
    ensures { result ≡ x - (q - 1) }
{
    past(x, LAST)
}

// Whether no number of a list is above the most. Without an early end many numbers are tested at a time.
pub fn all_within(list: &[u16], most: u16) -> bool
    ensures { result ≡ within most list.now }
{
    let mut beyond: u16 = 0;
    for x in list {
        beyond |= past(*x, most);
    }
    beyond == 0
}

// "Test 3 looks through every list lent to be read, whole."
pub fn all_elements(list: &[u16]) -> bool
    ensures { result ≡ elements sixteen list.now }
{
    all_within(list, LAST)
}

// 0 exactly of an element from 0 to the most, or from Q less the most to the last.
fn far(x: u16, most: u16) -> u16
    requires { most < q }
    ensures { (result == 0) ≡ is_near sixteen most x }
{
    if x <= most {
        return 0;
    }
    past(Q16 - most, x) | excess(x)
}

// Whether all numbers of a list are elements no further than the most from zero.
pub fn all_near(list: &[u16], most: u16) -> bool
    requires { most < q }
    ensures { result ≡ near sixteen most list.now }
{
    let mut beyond: u16 = 0;
    for element in list {
        beyond |= far(*element, most);
    }
    beyond == 0
}
