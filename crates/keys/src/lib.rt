// The key maker of document 01, and the random list from raw bytes.
//   list_from_bytes, drawing        the random list that a noise source's bytes fill, or a refusal; its parts
//   make_key                        a user's key from the random list, or a refusal
//   check_key                       tests 1, 4, 2, 3
//   copy_masks                      the user's own masks
//   write_sets                      the shares for each usable set that holds the user
//   Source, Next                    what shares are made of; where the noise and the shares of the next set lie
//   write_half                      the shares for the sets with the same users behind the first HALF
//   write_shares, share_row         the shares for one set; in lanes, with one noise element a block
//   fill_tables, fill_table         once a key: the sums of products over the sets of the first HALF users, and over those of the others
//   mask_products                   once a key: the masks of each user times the first columns, reduced
//   scale_masks                     the same in lanes, with one mask a block
//   write_products, write_products_of     the same user by user
//   rows                            rows of numbers, one for each block, coefficients and zeros
// Document 01's airfield is a user here, and its S of an airfield is that user's mask. The functions behind the refusals are
// told in their contracts what the refusals have tested.
#![tactic(auto)]

ghost use Rattle.std.specs.Prelude.{◌≡◌, map, ℕ, ◌+◌, ◌*◌, ◌/◌, ◌%◌, ◌-◌, ◌^◌, ◌≤◌, ◌<◌, min, length, get_or, replicate};
ghost use Rattle.std.proofs.lemmas.List.Edits.{sets};
ghost use Rattle.scheme.specs.Limits.{most_users, most_blocks, most_collusion, most_places, most_sets, cells};
ghost use Rattle.scheme.specs.Lists.{span, rows};
ghost use Rattle.scheme.specs.Scheme.{q, sixteen, items, places, ones, sets_with, list_length, mask, noise_start, shares, key_length, reply_start, key_refusal, key_left};
ghost use Rattle.scheme.specs.Good.{Good};
ghost use Rattle.scheme.specs.Drawn.{list_refusal, list_left};
ghost use Rattle.scheme.specs.KeyParts.{KeyInput, Coefficients, block_values, Products, half, half_sets, table_cells, added_row, ScaledRow, Table, Tables, Ready, Written};
ghost use Rattle.plan.specs.Plan.{plan_of};
ghost use Rattle.plan.specs.Numbers.{numbered};
ghost use Rattle.element.specs.Word.{word};
ghost use Rattle.element.specs.Halves.{Scales};

mod drawing;
mod rows;

use element::{Scale, add, add_scaled, all_elements, scale_of};
use plan::{
    BLOCKS, CELLS, MOST_BLOCKS, MOST_ITEMS, Plan, Refusal, USERS, check_start, count_sets, holds,
    key_of, list_of, places_of,
};
use rows::zeros;

// So many users have the first table of sums, the others the second one.
const HALF: usize = 4;

const HALF_SETS: u32 = 1 << HALF;

// A row of BLOCKS sums for each set.
const TABLE: usize = HALF_SETS as usize * BLOCKS;

// Document 02, item 1, of the bytes of a noise source: "reads them as two-byte numbers, low byte first, skips each number above 65520, and
// stops once the lent random list is full". On Err `list` stays as it was.
pub fn list_from_bytes(plan: Plan, bytes: &[u8], list: &mut [u16]) -> Result<(), Refusal>
    ensures number { numbered result ≡ list_refusal sixteen (plan_of plan) bytes.now (length list.old) }
    ensures left { list.new ≡ list_left sixteen (plan_of plan) bytes.now list.old }
{
    drawing::check_list(plan, bytes, list.len())?;
    drawing::fill(bytes, list);
    Ok(())
}

// "Key of airfield k: its L elements of S, then for each usable set holding k, in rising number, its M shares."
// On Err `out` stays as it was.
pub fn make_key(plan: Plan, user: u32, random: &[u16], out: &mut [u16]) -> Result<(), Refusal>
    ensures number { numbered result ≡ key_refusal sixteen (plan_of plan) user random.now (length out.old) }
    ensures left { out.new ≡ key_left sixteen (plan_of plan) user random.now out.old }
{
    check_key(plan, user, random, out.len())?;
    let row = places_of(plan);
    copy_masks(plan, user, random, out, row);
    write_sets(plan, user, random, out, row);
    Ok(())
}

// "Key maker: 1, 4, 2, 3." `out` is the length of the lent buffer.
fn check_key(plan: Plan, user: u32, random: &[u16], out: usize) -> Result<(), Refusal>
    ensures { numbered result ≡ key_refusal sixteen (plan_of plan) user random.now out }
{
    check_start(plan, user)?;
    if random.len() != list_of(plan) || out != key_of(plan, user) {
        return Err(Refusal::BadLength);
    }
    if !all_elements(random) {
        return Err(Refusal::BadElement);
    }
    Ok(())
}

fn copy_masks(plan: Plan, user: u32, list: &[u16], out: &mut [u16], row: usize)
    requires key_input { KeyInput (plan_of plan) user list.now }
    requires row_value { (row ≡ places (plan_of plan)) × (row ≤ most_places) × (row ≤ length out.old) }
    ensures { out.new ≡ sets out.old 0 (map (mask (plan_of plan) list.now user) (span row 0)) }
{
    let from = (user - 1) as usize * row;
    // by `copy_from_slice` the key takes longer: the compiler then makes no loop of its own for the shares in lanes
    for i in 0..row {
        out[i] = list[from + i];
    }
}

// What the shares of a user are made of: the two tables of sums, the coefficients of the noise with the first of them prepared, and the random
// list, which has the noise.
#[derive(Clone, Copy)]
struct Source<'a> {
    low: &'a [u16; TABLE],
    high: &'a [u16; TABLE],
    factors: &'a [u16; USERS],
    scale: Scale,
    list: &'a [u16],
}

// Where the noise of a set lies in the random list, and where its shares go in the key.
#[derive(Clone, Copy)]
struct Next {
    noise: usize,
    at: usize,
}

// All set numbers in rising order, those with the same users behind the first HALF at once.
fn write_sets(plan: Plan, user: u32, list: &[u16], out: &mut [u16], row: usize)
    requires key_input { KeyInput (plan_of plan) user list.now }
    requires row_value { (row ≡ places (plan_of plan)) × (row ≤ most_places) × (length out.old ≡ key_length (plan_of plan) user) }
    ensures { out.new
        ≡ sets out.old row (rows (shares sixteen (plan_of plan) list.now user) (sets_with (plan_of plan) user)) }
{
    let mut products = zeros();
    mask_products(plan, user, list, row, &mut products);
    let mut low = zeros();
    let mut high = zeros();
    fill_tables(plan, &products, &mut low, &mut high);
    let items = plan.threshold - plan.collusion;
    let factors = rows::coefficients(user, 1 + items, plan.collusion);
    let source = Source {
        low: &low,
        high: &high,
        factors: &factors,
        scale: scale_of(factors[0]),
        list,
    };
    let mut next = Next {
        noise: plan.users as usize * row,
        at: row,
    };
    for part in 0..count_sets(plan).div_ceil(HALF_SETS) {
        next = write_half(plan, user, source, part, next, out);
    }
}

// The sets whose users behind the first HALF are the set `part`. They are passed over where even all of the first HALF would not do. "A usable
// set has at least U members."
fn write_half(
    plan: Plan,
    user: u32,
    source: Source<'_>,
    part: u32,
    first: Next,
    out: &mut [u16],
) -> Next
    requires key_input { KeyInput (plan_of plan) user source.list.now × (length out.old ≡ key_length (plan_of plan) user) }
    requires part_inside { part * half_sets < 2 ^ plan.users }
    requires ready { Ready sixteen (plan_of plan) user source.list.now source.low.now source.high.now source.factors.now }
    requires scales { Scales word q (get_or source.factors.now 0 0) source.scale.by source.scale.key }
    requires places { (first.noise ≡ noise_start (plan_of plan) (part * half_sets) 0) × (first.at ≡ reply_start (plan_of plan) user (part * half_sets)) }
    ensures { Written sixteen (plan_of plan) user source.entry.list.now (part * half_sets) out.old out.new result.noise result.at
        (min half_sets (2 ^ plan.users - part * half_sets)) }
{
    let start = part * HALF_SETS;
    let count = HALF_SETS.min(count_sets(plan) - start);
    let have = u32::count_ones(part);
    if have + (HALF as u32) < plan.threshold {
        return first;
    }
    let blocks = plan.blocks as usize;
    let step = blocks * plan.collusion as usize;
    let mut next = first;
    for x in 0..count {
        if plan.threshold <= have + u32::count_ones(x) {
            let noise = next.noise;
            next.noise += step;
            if holds(start + x, user) {
                write_shares(plan, source, start + x, noise, out, next.at);
                next.at += blocks;
            }
        }
    }
    next
}

// "Columns 1 to U − T times the sums over V of S in that block, plus columns U − T + 1 to U times the T noise elements."
// The columns are multiplied first and the sums over V taken of the products, which comes to the same. The noise lies from `noise` on.
fn write_shares(plan: Plan, source: Source<'_>, set: u32, noise: usize, out: &mut [u16], at: usize)
    requires limits { (plan.collusion ≤ most_collusion) × (plan.blocks ≤ most_blocks) × (set < most_sets) }
    requires low_small { (b : ℕ) → b < most_blocks → get_or source.low.now (set % half_sets * most_blocks + b) 0 < q }
    requires high_small { (b : ℕ) → b < most_blocks → get_or source.high.now (set / half_sets * most_blocks + b) 0 < q }
    requires scales { Scales word q (get_or source.factors.now 0 0) source.scale.by source.scale.key }
    requires room { (noise + plan.blocks * plan.collusion ≤ length source.list.now) × (at + plan.blocks ≤ length out.old) }
    ensures { out.new
        ≡ sets out.old at (block_values sixteen
        (added_row sixteen source.entry.low.now (set % half_sets * most_blocks) source.entry.high.now (set / half_sets * most_blocks))
        source.entry.factors.now plan.collusion source.entry.list.now noise plan.blocks) }
{
    let i = (set % HALF_SETS) as usize * BLOCKS;
    let j = (set / HALF_SETS) as usize * BLOCKS;
    if plan.collusion == 1 && plan.blocks == MOST_BLOCKS {
        rows::put_row(&share_row(source, i, j, noise), out, at);
        return;
    }
    let Source {
        low,
        high,
        factors,
        list,
        ..
    } = source;
    let blocks = plan.blocks as usize;
    let sums = rows::add_rows(low, i, high, j, blocks);
    rows::write_blocks(&sums, factors, plan.collusion, list, noise, out, at, blocks);
}

// The sums over every set of the first HALF users, and over every set of the others.
fn fill_tables(plan: Plan, products: &[u16; CELLS], low: &mut [u16; TABLE], high: &mut [u16; TABLE])
    requires good { Good (plan_of plan) × (low.old ≡ replicate table_cells 0) × (high.old ≡ replicate table_cells 0) }
    requires small { (i : ℕ) → get_or products.now i 0 < q }
    ensures { Tables sixteen products.now plan.users low.new high.new }
{
    let sets = count_sets(plan);
    fill_table(products, 0, HALF_SETS.min(sets), low);
    fill_table(products, HALF, sets.div_ceil(HALF_SETS), high);
}

// A row for each of so many sets of HALF users, who come behind the first `first` of all: the row of the set without its last user, plus that
// user's products.
fn fill_table(products: &[u16; CELLS], first: usize, sets: u32, sums: &mut [u16; TABLE])
    requires start { (first + half ≤ most_users) × (1 ≤ sets) × (sets ≤ half_sets) × (sums.old ≡ replicate table_cells 0) }
    requires small { (i : ℕ) → get_or products.now i 0 < q }
    ensures { Table sixteen products.now first sets sums.new }
{
    for set in 1..sets {
        let last = set.ilog2();
        let others = (set - (1 << last)) as usize * BLOCKS;
        let with = (first + last as usize) * BLOCKS;
        let sum = rows::add_rows(sums, others, products, with, BLOCKS);
        rows::put_row(&sum, sums, set as usize * BLOCKS);
    }
}

// For each user a row of BLOCKS numbers: "columns 1 to U − T times" that user's masks, block by block.
fn mask_products(plan: Plan, user: u32, list: &[u16], row: usize, products: &mut [u16; CELLS])
    requires key_input { KeyInput (plan_of plan) user list.now }
    requires row_value { (row ≡ places (plan_of plan)) × (row ≤ most_places) × (products.old ≡ replicate cells 0) }
    ensures { Products sixteen (plan_of plan) user list.now plan.users products.new }
{
    let items = plan.threshold - plan.collusion;
    let factors = rows::coefficients(user, 1, items);
    let scale = scale_of(factors[0]);
    if items == 1 && plan.blocks == MOST_BLOCKS {
        scale_masks(scale, list, plan.users as usize * BLOCKS, products);
        return;
    }
    write_products(plan, &factors, list, row, products);
}

// The first n numbers of the list times the factor of the scale.
fn scale_masks(scale: Scale, list: &[u16], n: usize, out: &mut [u16; CELLS])
    requires { (n ≤ cells) × (n ≤ length list.now) × (length out.old ≡ cells) × (scale.by < q) }
    ensures { (a : ℕ) → Scales word q a scale.by scale.key → out.new
        ≡ sets out.old 0 (map (λ i. sixteen.add 0 (sixteen.multiply a (get_or list.now i 0))) (span n 0)) }
{
    for i in 0..n {
        out[i] = add_scaled(0, list[i], scale);
    }
}

// One call for each number of masks that a block has, so that the compiler knows the length of the inner loop.
#[tactic(auto, unfolding(scheme::specs::Scheme::items))]
fn write_products(
    plan: Plan,
    factors: &[u16; USERS],
    list: &[u16],
    row: usize,
    products: &mut [u16; CELLS],
)
    requires good { Good (plan_of plan) × (length list.now ≡ list_length (plan_of plan)) }
    requires row_value { (row ≡ places (plan_of plan)) × (row ≤ most_places) × (products.old ≡ replicate cells 0) }
    ensures { (k : ℕ) → Coefficients sixteen k 1 (items (plan_of plan)) factors.now
        → Products sixteen (plan_of plan) k list.now plan.users products.new }
{
    let n = plan.threshold - plan.collusion;
    match n {
        1 => write_products_of(plan, factors, 1, list, row, products),
        2 => write_products_of(plan, factors, 2, list, row, products),
        3 => write_products_of(plan, factors, 3, list, row, products),
        4 => write_products_of(plan, factors, 4, list, row, products),
        5 => write_products_of(plan, factors, 5, list, row, products),
        _ => write_products_of(plan, factors, MOST_ITEMS, list, row, products),
    }
}

// The factors times the masks of one user after the other, n a block.
fn write_products_of(
    plan: Plan,
    factors: &[u16; USERS],
    n: usize,
    list: &[u16],
    row: usize,
    products: &mut [u16; CELLS],
)
    requires good { Good (plan_of plan) × (n ≡ items (plan_of plan)) × (length list.now ≡ list_length (plan_of plan)) }
    requires row_value { (row ≡ places (plan_of plan)) × (row ≤ most_places) × (products.old ≡ replicate cells 0) }
    ensures { (k : ℕ) → Coefficients sixteen k 1 n factors.now
        → Products sixteen (plan_of plan) k list.now plan.users products.new }
{
    let none = zeros();
    let blocks = plan.blocks as usize;
    for k in 0..plan.users as usize {
        let from = k * row;
        rows::write_blocks_of(&none, factors, n, list, from, products, k * BLOCKS, blocks);
    }
}

// All blocks of a set at once, with one noise element each: a row of each table, plus the numbers of the list times the factor of the scale.
fn share_row(source: Source<'_>, i: usize, j: usize, noise: usize) -> [u16; BLOCKS]
    requires room { (i + most_blocks ≤ table_cells) × (j + most_blocks ≤ table_cells) × (noise + most_blocks ≤ length source.list.now) × (source.scale.by < q) }
    requires low_small { (b : ℕ) → b < most_blocks → get_or source.low.now (i + b) 0 < q }
    requires high_small { (b : ℕ) → b < most_blocks → get_or source.high.now (j + b) 0 < q }
    ensures { (a : ℕ) → Scales word q a source.entry.scale.by source.entry.scale.key → ScaledRow sixteen source.entry.low.now i source.entry.high.now j a
        source.entry.list.now noise most_blocks result }
{
    let mut row = zeros();
    for b in 0..BLOCKS {
        let sum = add(source.low[i + b], source.high[j + b]);
        row[b] = add_scaled(sum, source.list[noise + b], source.scale);
    }
    row
}
