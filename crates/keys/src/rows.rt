// Rows of numbers, one for each block.
//   add_rows, put_row               a row plus another, a row written
//   write_blocks, write_blocks_of   sums plus numbers times coefficients, block by block
//   coefficients                    those of some columns
//   weigh, times, reduced           numbers times coefficients; a sum reduced
//   zeros                           as many as an array has
ghost use Rattle.std.specs.Prelude.{◌≡◌, map, ℕ, ◌+◌, ◌*◌, ◌≤◌, ◌<◌, length, get_or, replicate};
ghost use Rattle.std.proofs.lemmas.List.Edits.{sets};
ghost use Rattle.scheme.specs.Limits.{most_blocks, most_items, points};
ghost use Rattle.scheme.specs.Lists.{span, filled};
ghost use Rattle.scheme.specs.Scheme.{q, sixteen};
ghost use Rattle.scheme.specs.Weighed.{Unreduced};
ghost use Rattle.scheme.specs.KeyParts.{Coefficients, block_values};
ghost use Rattle.element.specs.Word.{most_product};

use element::{Q, add, coefficient};
use plan::{BLOCKS, MOST_ITEMS, USERS};

// n numbers of each, lane by lane, into a row of its own: nothing tells the compiler that lent lists do not overlap. With n told by the caller
// the loop is short until it is part of the caller, which alone lets the compiler take it in at both places.
pub fn add_rows(a: &[u16], i: usize, c: &[u16], j: usize, n: usize) -> [u16; BLOCKS]
    requires room { (n ≤ most_blocks) × (i + n ≤ length a.now) × (j + n ≤ length c.now) }
    requires a_small { (b : ℕ) → b < n → get_or a.now (i + b) 0 < q }
    requires c_small { (b : ℕ) → b < n → get_or c.now (j + b) 0 < q }
    ensures { result ≡ filled most_blocks n (λ b. sixteen.add (get_or a.now (i + b) 0) (get_or c.now (j + b) 0)) }
{
    let mut row = zeros();
    for b in 0..n {
        row[b] = add(a[i + b], c[j + b]);
    }
    row
}

// Number by number: by `copy_from_slice` a key takes longer.
pub fn put_row(row: &[u16; BLOCKS], out: &mut [u16], at: usize)
    requires { at + most_blocks ≤ length out.old }
    ensures { out.new ≡ sets out.old at (map (λ b. get_or row.now b 0) (span most_blocks 0)) }
{
    for b in 0..BLOCKS {
        out[at + b] = row[b];
    }
}

// Block by block, from `at` on: a sum plus n numbers of the list, which lie from `start` on, times the factors, reduced.
// One call for each n of a plan, so that the compiler knows the length of the inner loop.
pub fn write_blocks(
    sums: &[u16; BLOCKS],
    row: &[u16; USERS],
    n: u32,
    list: &[u16],
    start: usize,
    out: &mut [u16],
    at: usize,
    blocks: usize,
)
    requires { (n ≤ most_items) × (blocks ≤ most_blocks) × (start + blocks * n ≤ length list.now) × (at + blocks ≤ length out.old) }
    ensures { out.new
        ≡ sets out.old at (block_values sixteen sums.now row.now n list.now start blocks) }
{
    match n {
        0 => write_blocks_of(sums, row, 0, list, start, out, at, blocks),
        1 => write_blocks_of(sums, row, 1, list, start, out, at, blocks),
        2 => write_blocks_of(sums, row, 2, list, start, out, at, blocks),
        3 => write_blocks_of(sums, row, 3, list, start, out, at, blocks),
        4 => write_blocks_of(sums, row, 4, list, start, out, at, blocks),
        5 => write_blocks_of(sums, row, 5, list, start, out, at, blocks),
        _ => write_blocks_of(sums, row, MOST_ITEMS, list, start, out, at, blocks),
    }
}

pub fn write_blocks_of(
    sums: &[u16; BLOCKS],
    row: &[u16; USERS],
    n: usize,
    list: &[u16],
    start: usize,
    out: &mut [u16],
    at: usize,
    blocks: usize,
)
    requires { (n ≤ most_items) × (blocks ≤ most_blocks) × (start + blocks * n ≤ length list.now) × (at + blocks ≤ length out.old) }
    ensures { out.new
        ≡ sets out.old at (block_values sixteen sums.now row.now n list.now start blocks) }
{
    // a copy, which no write to out can change
    let own = *row;
    for b in 0..blocks {
        out[at + b] = reduced(sums[b], weigh(&own, n, list, start + b * n));
    }
}

// Those of n columns from `first` on: "the row goes by the airfield's number in every set".
pub fn coefficients(user: u32, first: u32, n: u32) -> [u16; USERS]
    requires { (user + (first + n) ≤ points) × (n ≤ most_items) }
    ensures { Coefficients sixteen user first n result }
{
    let mut row = zeros();
    for i in 0..n {
        row[i as usize] = coefficient(user, first + i);
    }
    row
}

// n numbers of the list from `from` on times the coefficients, not reduced.
fn weigh(row: &[u16; USERS], n: usize, list: &[u16], from: usize) -> u64
    requires { (n ≤ most_items) × (from + n ≤ length list.now) }
    ensures { Unreduced q most_product (λ i. get_or row.now i 0 * get_or list.now (from + i) 0) 0 n result }
{
    let mut sum: u64 = 0;
    for i in 0..n {
        sum += times(row[i], list[from + i]);
    }
    sum
}

fn times(a: u16, b: u16) -> u64
    ensures { (result ≡ a * b) × (result ≤ most_product) }
{
    a as u64 * b as u64
}

fn reduced(a: u16, b: u64) -> u16
    requires { b ≤ most_items * most_product }
    ensures { result ≡ sixteen.add a b }
{
    ((a as u64 + b) % Q as u64) as u16
}

pub fn zeros<const N: usize>() -> [u16; N]
    ensures { result ≡ replicate N 0 }
{
    [0; N]
}
