// The random list from raw bytes: first the bytes are counted, then the list is filled, so that a refused call has written nothing.
//   check_list                   tests 1, 2, 31
//   is_enough                    whether the bytes fill a list
//   fill, fill_row               the list, at most ROW numbers at a time
//   copy_numbers, pick_elements  a row in which no number is skipped; any row
//   count_skipped                how many numbers are skipped
//   number_at                    a number of two bytes
ghost use Rattle.std.specs.Prelude.{◌≡◌, true, ◌+◌, ◌*◌, ◌-◌, ◌≤◌, ◌<◌, length, get_or};
ghost use Rattle.scheme.specs.Limits.{most_list};
ghost use Rattle.scheme.specs.Scheme.{sixteen};
ghost use Rattle.scheme.specs.Drawn.{byte, fills, drawn, list_refusal};
ghost use Rattle.scheme.specs.DrawnParts.{Skipped, DrawnTo};
ghost use Rattle.plan.specs.Plan.{plan_of};
ghost use Rattle.plan.specs.Numbers.{numbered};

use element::{Q16, excess};
use plan::{Plan, Refusal, is_good, list_of};

// So many numbers are copied at a time, since few are skipped. Nothing tells the compiler that bytes and list do not overlap: it copies a
// row of this length by vectors after a look at the pointers, and a much shorter one number by number.
const ROW: usize = 64;

// 1, 2, 31. `n` is the length of the lent list.
pub fn check_list(plan: Plan, bytes: &[u8], n: usize) -> Result<(), Refusal>
    ensures { numbered result ≡ list_refusal sixteen (plan_of plan) bytes.now n }
{
    if !is_good(plan) {
        return Err(Refusal::BadPlan);
    }
    if n != list_of(plan) {
        return Err(Refusal::BadLength);
    }
    if !is_enough(bytes, n) {
        return Err(Refusal::BytesRunOut);
    }
    Ok(())
}

// As many numbers are looked through as elements are missing, until none is.
fn is_enough(bytes: &[u8], n: usize) -> bool
    requires { n ≤ most_list }
    ensures { result ≡ fills sixteen n bytes.now }
{
    let mut at = 0;
    let mut left = bytes.len() / 2;
    let mut missing = n;
    while 0 < missing {
        if left < missing {
            return false;
        }
        let skipped = count_skipped(bytes, at, missing);
        at += 2 * missing;
        left -= missing;
        missing = skipped;
    }
    true
}

// The bytes fill the list: no read needs a test.
pub fn fill(bytes: &[u8], list: &mut [u16])
    requires { fills sixteen (length list.old) bytes.now ≡ true }
    ensures { list.new ≡ drawn sixteen (length list.old) bytes.now }
{
    let len = list.len();
    let mut at = 0;
    let mut filled = 0;
    while filled < len {
        let n = ROW.min(len - filled);
        filled = fill_row(bytes, at, list, filled, n);
        at += 2 * n;
    }
}

// The list has room for n elements more. Hands back how far it is filled.
fn fill_row(bytes: &[u8], from: usize, list: &mut [u16], to: usize, n: usize) -> usize
    requires drawn_to { DrawnTo sixteen bytes.now (length list.old) list.old to from }
    requires n_in_bounds { (to + n ≤ length list.old) × (from + 2 * n ≤ length bytes.now) }
    ensures { DrawnTo sixteen bytes.now (length list.old) list.new result (from + 2 * n) }
{
    if n != ROW {
        return pick_elements(bytes, from, list, to, n);
    }
    if copy_numbers(bytes, from, list, to, ROW) {
        return to + ROW;
    }
    pick_elements(bytes, from, list, to, ROW)
}

// Writes n numbers. True only if none of them is to be skipped; else what is written counts for nothing.
fn copy_numbers(bytes: &[u8], from: usize, list: &mut [u16], to: usize, n: usize) -> bool
    requires drawn_to { DrawnTo sixteen bytes.now (length list.old) list.old to from }
    requires n_in_bounds { (to + n ≤ length list.old) × (from + 2 * n ≤ length bytes.now) }
    ensures copied { result ≡ true → DrawnTo sixteen bytes.now (length list.old) list.new (to + n) (from + 2 * n) }
    ensures kept { DrawnTo sixteen bytes.now (length list.old) list.new to from }
{
    let mut past: u16 = 0;
    for i in 0..n {
        let x = number_at(bytes, from + 2 * i);
        list[to + i] = x;
        past |= excess(x);
    }
    past == 0
}

fn pick_elements(bytes: &[u8], from: usize, list: &mut [u16], to: usize, n: usize) -> usize
    requires drawn_to { DrawnTo sixteen bytes.now (length list.old) list.old to from }
    requires n_in_bounds { (to + n ≤ length list.old) × (from + 2 * n ≤ length bytes.now) }
    ensures { DrawnTo sixteen bytes.now (length list.old) list.new result (from + 2 * n) }
{
    let mut filled = to;
    for i in 0..n {
        let x = number_at(bytes, from + 2 * i);
        if x < Q16 {
            list[filled] = x;
            filled += 1;
        }
    }
    filled
}

// Of n numbers. In 16 bits, so that many are compared at a time.
fn count_skipped(bytes: &[u8], from: usize, n: usize) -> usize
    requires { (n ≤ most_list) × (from + 2 * n ≤ length bytes.now) }
    ensures { Skipped sixteen bytes.now from n result }
{
    let mut skipped: u16 = 0;
    for i in 0..n {
        if Q16 <= number_at(bytes, from + 2 * i) {
            skipped += 1;
        }
    }
    skipped as usize
}

// "Low byte first."
fn number_at(bytes: &[u8], at: usize) -> u16
    requires { at + 2 ≤ length bytes.now }
    ensures { result ≡ get_or bytes.now (at + 1) 0 * byte + get_or bytes.now at 0 }
{
    u16::from_le_bytes([bytes[at], bytes[at + 1]])
}
