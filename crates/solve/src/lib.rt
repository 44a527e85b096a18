// Square Cauchy systems modulo 65521 by their closed solution, the systems of all blocks side by side.
//   GAPS, gap_between .. weight_of                what depends on the points alone
//   add_row, dots, put_scaled                     rows of numbers, one for each block: sums of them over points, one times a factor
//   weigh, solve                                  the unknowns of every block, from weighed values
//   same_row, misfit                              whether a further row has the values that follow; the first that has not
// Everything goes by position: row a has the point rows[a], 1 to MOST_USERS, column i the point columns[i], 1 to MOST_THRESHOLD, and
// of each array the first n entries count. A grid has a row for each user, in it a number for each block. The functions are for points
// that the caller knows to be in range and different. What they compute is defined in Solve of crate scheme.
#![tactic(auto)]

ghost use Rattle.std.specs.Prelude.{◌≡◌, true, map, ◌+◌, ◌*◌, ◌-◌, ◌%◌, ◌≤◌, ◌<◌, eqb, length, get_or, replicate, unwrap_or, IfSome};
ghost use Rattle.std.proofs.lemmas.List.Edits.{sets};
ghost use Rattle.scheme.specs.Limits.{most_users, most_threshold, most_blocks, cells};
ghost use Rattle.scheme.specs.Lists.{span, all_of};
ghost use Rattle.scheme.specs.Scheme.{q, sixteen, elements};
ghost use Rattle.scheme.specs.Solve.{Points, Square, SumsLow, value_of, block, scaled_on, row_weight, weighed_values, unknowns_of, row_fits, FirstMisfit, gap_between};
ghost use Rattle.solve.specs.Solve.{laws16, most_factor};

use plan::{BLOCKS, CELLS, MOST_THRESHOLD, USERS};

// 1 / (d - MOST_THRESHOLD), and 1 where d is that.
const GAPS: [u16; 15] = [
    9360, 10920, 13104, 16380, 21840, 32760, 65520, 1, 1, 32761, 43681, 49141, 52417, 54601, 56161,
];

fn gap_between(x: u32, y: u32) -> u16
    requires { (1 ≤ x) × (x ≤ most_users) × (1 ≤ y) × (y ≤ most_users) }
    ensures { result ≡ gap_between q x y }
{
    GAPS[(MOST_THRESHOLD + x - y) as usize]
}

// One factor of a weight, not reduced: the sum of the point x and one of the other side, over the gap to one of its own.
fn factor(x: u32, other: u32, own: u32) -> u32
    requires { (1 ≤ x) × (x ≤ most_users) × (other ≤ most_users) × (1 ≤ own) × (own ≤ most_users) }
    ensures { (result ≡ (x + other) * gap_between q x own) × (result ≤ most_factor) }
{
    (x + other) * gap_between(x, own) as u32
}

// Two factors at a time: each remainder is waited for.
fn times_two(weight: u16, a: u32, b: u32) -> u16
    requires { (a ≤ most_factor) × (b ≤ most_factor) }
    ensures { result ≡ weight * (a * b) % q }
{
    (weight as u64 * (a as u64 * b as u64) % element::Q as u64) as u16
}

fn weight_of(own: &[u32; USERS], other: &[u32; USERS], n: usize, at: usize) -> u16
    requires { (n ≤ most_users) × (at < n) × Points most_users n own.now × Points most_users n other.now }
    ensures { result ≡ row_weight sixteen laws16 own.now other.now n at }
{
    let x = own[at];
    let mut weight: u16 = 1;
    for pair in 0..n / 2 {
        let i = 2 * pair;
        let first = factor(x, other[i], own[i]);
        weight = times_two(weight, first, factor(x, other[i + 1], own[i + 1]));
    }
    if n % 2 == 1 {
        let last = n - 1;
        return times_two(weight, factor(x, other[last], own[last]), 1);
    }
    weight
}

// Adds a row of a grid, which stands from `at` on, times a factor. Rows go by their grid and place: lent as slices they take a quarter longer.
fn add_row(sums: &mut [u16; BLOCKS], grid: &[u16; CELLS], at: usize, factor: u16)
    requires { (at + most_blocks ≤ cells) × (length sums.old ≡ most_blocks) × (elements sixteen sums.old ≡ true) }
    ensures { sums.new ≡ map (scaled_on sixteen sums.old factor grid.now at) (span most_blocks 0) }
{
    let scale = element::scale_of(factor);
    for b in 0..BLOCKS {
        sums[b] = element::add_scaled(sums[b], grid[at + b], scale);
    }
}

// For each block the sum of the rows of a grid, row i over x + points[i].
fn dots(x: u32, points: &[u32; USERS], n: usize, grid: &[u16; CELLS]) -> [u16; BLOCKS]
    requires { (n ≤ most_users) × SumsLow x n points.now }
    ensures { result ≡ map (λ b. value_of sixteen x points.now (block grid.now b) n) (span most_blocks 0) }
{
    let inverses = element::inverses();
    let mut sums = [0u16; BLOCKS];
    for i in 0..n {
        let factor = inverses[(x + points[i]) as usize];
        add_row(&mut sums, grid, i * BLOCKS, factor);
    }
    sums
}

// A number for each block, which stand from `from` on, times a factor, written from `at` on: by places, as in `add_row`.
fn put_scaled(out: &mut [u16; CELLS], at: usize, list: &[u16], from: usize, factor: u16)
    requires { (at + most_blocks ≤ cells) × (length out.old ≡ cells) × (from + most_blocks ≤ length list.now) }
    ensures { out.new ≡ sets out.old at
        (map (λ b. sixteen.add 0 (sixteen.multiply factor (get_or list.now (from + b) 0))) (span most_blocks 0)) }
{
    let scale = element::scale_of(factor);
    for b in 0..BLOCKS {
        out[at + b] = element::add_scaled(0, list[from + b], scale);
    }
}

// The values, each row times its weight.
fn weigh(
    rows: &[u32; USERS],
    columns: &[u32; USERS],
    values: &[u16; CELLS],
    n: usize,
) -> [u16; CELLS]
    requires { Square rows.now columns.now n }
    ensures { result ≡ weighed_values sixteen laws16 rows.now columns.now values.now n }
{
    let mut out = [0u16; CELLS];
    for i in 0..n {
        let at = i * BLOCKS;
        put_scaled(&mut out, at, values, at, weight_of(rows, columns, n, i));
    }
    out
}

// Of the n unknowns those that are needed: unknown i of a block is beta[i] Σ alpha[a] values[a] / (rows[a] + columns[i]), where alpha and
// beta are the weights of the rows and the columns. The rows behind them are 0.
pub fn solve(
    rows: &[u32; USERS],
    columns: &[u32; USERS],
    values: &[u16; CELLS],
    n: usize,
    needed: usize,
    out: &mut [u16; CELLS],
)
    requires { Square rows.now columns.now n × (needed ≤ n) }
    ensures { out.new ≡ unknowns_of sixteen laws16 rows.now columns.now values.now n needed }
{
    let weighed = weigh(rows, columns, values, n);
    *out = [0; CELLS];
    for i in 0..needed {
        let row = dots(columns[i], rows, n, &weighed);
        put_scaled(out, i * BLOCKS, &row, 0, weight_of(columns, rows, n, i));
    }
}

// Whether the values are a row's. Without an early end many are compared at a time.
fn same_row(row: &[u16], values: &[u16]) -> bool
    requires { length values.now ≡ length row.now }
    ensures { result ≡ all_of (λ b. eqb (get_or row.now b 0) (get_or values.now b 0)) (span (length row.now) 0) }
{
    let mut good = true;
    for b in 0..row.len() {
        good &= row[b] == values[b];
    }
    good
}

// The first of the rows from `from` to m - 1 that has not in each block the value that follows from the unknowns, if one has not.
pub fn misfit(
    rows: &[u32; USERS],
    columns: &[u32; USERS],
    values: &[u16; CELLS],
    unknowns: &[u16; CELLS],
    n: usize,
    from: usize,
    m: usize,
    blocks: usize,
) -> Option<usize>
    requires { (n ≤ from) × (from ≤ m) × (m ≤ most_users) × (blocks ≤ most_blocks)
        × Points most_users m rows.now × Points most_threshold n columns.now }
    ensures first { FirstMisfit
        (row_fits sixteen rows.now columns.now values.now unknowns.now n blocks) from m (unwrap_or result m) }
    ensures low { IfSome result (λ a. a < m) }
{
    for a in from..m {
        let at = a * BLOCKS;
        let row = dots(rows[a], columns, n, unknowns);
        if !same_row(&row[..blocks], &values[at..at + blocks]) {
            return Some(a);
        }
    }
    None
}
