// The check of a type table: whether each of its rows is well formed, and each type's unfolding within the bound.
#![tactic(auto)]

ghost use Rattle.std.specs.Prelude.{◌≡◌, ◌↔◌, ◌∷◌, true, length, get_or};
ghost use Prim.Native.Nat.{◌+◌, ◌/◌, ◌≤◌, min};
ghost use Rattle.word.specs.Lists.{all_below};
ghost use Rattle.ty.specs.Types.{type_at};
ghost use Rattle.ty.specs.View.{fields_from, types_of};
ghost use Rattle.ty.specs.Check.{good_type, good_type_at, good_const, good_const_at, small_at, table_good};
ghost use Rattle.ty_check.specs.Inner.Bounds.{bound_in, bound_fields, bound_by};
ghost use Rattle.ty_check.specs.Inner.Counts.{count_in, Capped, Fitting, Scratch, Small, field_sums, next_count, next_counts, counts_at};

use ty::{Entry, Table};

// Whether a row of the types is well formed, with nf fields.
fn type_good(nf: usize, class: u64, a: u64, b: u64, c: u64) -> bool
    ensures { result ≡ good_type nf class a b c }
{
    match class {
        2 => b <= 3,
        4 => c <= 255,
        5 => a as usize <= nf && b as usize <= nf - a as usize,
        _ => class <= 8,
    }
}

// Whether a row of the constants is well formed, with nb bytes.
fn const_good(nb: usize, flag: u64, a: u64, n: u64) -> bool
    ensures { result ≡ good_const nb flag a n }
{
    match flag {
        1 => a as usize <= nb && n as usize <= nb - a as usize,
        _ => flag == 0,
    }
}

// The count of type t among the counts of all types: 1 where it is missing.
fn count_at(counts: &[u32], t: u64) -> u32
    ensures { result ≡ count_in counts.now t }
{
    let i = t as usize;
    if i < counts.len() { counts[i] } else { 1 }
}

// a + b, at most 65,537: above the bound it no longer matters by how much.
fn capped(a: u32, b: u32) -> u32
    ensures { result ≡ min (a + b) 65537 }
{
    a.saturating_add(b).min(65537)
}

// The sums of the first one, two, .. fields' counts, so that a record is one difference however its fields overlap with others'.
fn sum_fields(fields: &[u32], counts: &[u32], sums: &mut [u32])
    requires { (length sums.old ≡ length fields.now / 2) × (length fields.now / 2 ≤ 16384) × Capped counts.now }
    ensures { sums.new ≡ field_sums fields.now counts.now }
{
    let n = sums.len();
    let mut s: u32 = 0;
    for i in 0..n {
        s += count_at(counts, fields[2 * i] as u64);
        sums[i] = s;
    }
}

// The sum of the first n fields' counts.
fn sum_before(sums: &[u32], n: usize) -> u32
    requires { n ≤ length sums.now }
    ensures { result ≡ get_or (0 ∷ sums.now) n 0 }
{
    if n == 0 { 0 } else { sums[n - 1] }
}

// Whether every count is within the bound.
fn all_small(counts: &[u32]) -> bool
    ensures { (result ≡ true) ↔ Small counts.now }
{
    counts.iter().all(|count| *count <= 65536)
}

// The bound of type t among those of the first i of n types: 1 where it is missing, 65,537 where it comes later.
fn bound_at(counts: &[u32], i: usize, n: usize, t: u64) -> u32
    requires { i ≤ length counts.now }
    ensures { result ≡ bound_in counts.now i n t }
{
    let at = t as usize;
    if at < i {
        return counts[at];
    }
    if at < n { 65537 } else { 1 }
}

// One more than the bounds of count fields from the first on.
fn bound_fields(
    fields: &[u32],
    counts: &[u32],
    i: usize,
    n: usize,
    first: usize,
    count: usize,
) -> u32
    requires { (first + count ≤ length fields.now / 2) × (i ≤ length counts.now) }
    ensures { result ≡ bound_fields (bound_in counts.now i n) (fields_from fields.now first count) 1 }
{
    let mut s: u32 = 1;
    for j in 0..count {
        let k = 2 * (first + j);
        let t = fields[k] as u64;
        s = capped(s, bound_at(counts, i, n, t));
    }
    s
}

fn types_good(table: &Table) -> bool
    ensures { result ≡ all_below (good_type_at table.now.types.now (length table.now.fields.now / 2)) (length table.now.types.now / 4) }
{
    let nf = table.fields.len() / 2;
    let (rows, _) = table.types.as_chunks::<4>();
    rows.iter()
        .all(|&[class, a, b, c]| type_good(nf, class, a, b, c))
}

fn consts_good(table: &Table) -> bool
    ensures { result ≡ all_below (good_const_at table.now.consts.now (length table.now.bytes.now)) (length table.now.consts.now / 3) }
{
    let nb = table.bytes.len();
    let (rows, _) = table.consts.as_chunks::<3>();
    rows.iter().all(|&[flag, a, n]| const_good(nb, flag, a, n))
}

// The count of type t, one level more than the counts.
fn count_type(table: &Table, counts: &[u32], sums: &[u32], t: u64) -> u32
    requires { sums.now ≡ field_sums table.now.fields.now counts.now }
    ensures { result ≡ next_count (types_of table.now.types.now table.now.fields.now) counts.now t }
{
    let Some(e) = table.ty_at(t) else {
        return 1;
    };
    match e {
        Entry::Array { elem, .. } => capped(1, count_at(counts, elem)),
        Entry::Record { first, count } => {
            let to = sum_before(sums, first + count);
            let from = sum_before(sums, first);
            capped(1, to - from)
        }
        _ => 1,
    }
}

// The counts of all types, one level more.
fn count_types(table: &Table, counts: &[u32], sums: &[u32], next: &mut [u32])
    requires { sums.now ≡ field_sums table.now.fields.now counts.now }
    ensures { next.new ≡ next_counts (types_of table.now.types.now table.now.fields.now) counts.now (length next.old) }
{
    let n = next.len();
    for i in 0..n {
        next[i] = count_type(table, counts, sums, i as u64);
    }
}

// The counts of all types, one level more, by way of the fields' sums.
// Kept: check_table tests the sizes, and the steps of its last test take them as clauses; a table that knew them would be made for these alone.
fn unfold_level(table: &Table, counts: &[u32], sums: &mut [u32], next: &mut [u32])
    requires { (length sums.old ≡ length table.now.fields.now / 2) × (length table.now.fields.now / 2 ≤ 16384) × Capped counts.now }
    ensures { next.new ≡ next_counts (types_of table.now.types.now table.now.fields.now) counts.now (length next.old) }
{
    sum_fields(table.fields, counts, sums);
    count_types(table, counts, sums, next);
}

// The counts of all types at 65 levels, from those at one level, two levels a turn.
fn unfold_levels(table: &Table, counts: &mut [u32], other: &mut [u32], sums: &mut [u32])
    requires { Scratch table.now.types.now table.now.fields.now counts.old other.old sums.old }
    ensures { counts.new ≡ counts_at (types_of table.now.types.now table.now.fields.now) (length table.now.types.now / 4) 65 }
{
    for _k in 0u64..32 {
        unfold_level(table, counts, sums, other);
        unfold_level(table, other, sums, counts);
    }
}

// Whether every type's unfolding is within the bound, with scratch of one word a type, again, and one a field.
fn unfolds_small(table: &Table, counts: &mut [u32], other: &mut [u32], sums: &mut [u32]) -> bool
    requires { Fitting table.now.types.now table.now.fields.now counts.old other.old sums.old }
    ensures { result ≡ all_below (small_at (types_of table.now.types.now table.now.fields.now)) (length table.now.types.now / 4) }
{
    counts.fill(1);
    unfold_levels(table, counts, other, sums);
    all_small(counts)
}

// The same with scratch of the largest sizes.
fn unfolds_within(table: &Table, counts: &mut [u32], other: &mut [u32], sums: &mut [u32]) -> bool
    requires { (length table.now.types.now / 4 ≤ 4096) × (length table.now.fields.now / 2 ≤ 16384) × (length counts.old ≡ 4096) × (length other.old ≡ 4096) × (length sums.old ≡ 16384) }
    ensures { result ≡ all_below (small_at (types_of table.now.types.now table.now.fields.now)) (length table.now.types.now / 4) }
{
    let n = table.types.len() / 4;
    let m = table.fields.len() / 2;
    unfolds_small(table, &mut counts[..n], &mut other[..n], &mut sums[..m])
}

// The same level by level: 65 levels over all types and fields, some 1.3 million steps at most.
fn unfolds_exactly(table: &Table) -> bool
    requires { (length table.now.types.now / 4 ≤ 4096) × (length table.now.fields.now / 2 ≤ 16384) }
    ensures { result ≡ all_below (small_at (types_of table.now.types.now table.now.fields.now)) (length table.now.types.now / 4) }
{
    // Kept: libraries have no heap, so that the scratch has the largest sizes.
    let mut counts = [0u32; 4096];
    let mut other = [0u32; 4096];
    let mut sums = [0u32; 16384];
    unfolds_within(table, &mut counts, &mut other, &mut sums)
}

// The bound of the unfolding of type i, and how many fields it has, which only says how long the pass below goes on.
fn bound_type(table: &Table, counts: &[u32], i: usize, n: usize) -> (u32, usize)
    requires { i ≤ length counts.now }
    ensures { result.0 ≡ bound_by (bound_in counts.now i n) (type_at (types_of table.now.types.now table.now.fields.now) i) }
{
    let Some(e) = table.ty_at(i as u64) else {
        return (1, 0);
    };
    match e {
        Entry::Array { elem, .. } => (capped(1, bound_at(counts, i, n, elem)), 0),
        Entry::Record { first, count } => {
            let bound = bound_fields(table.fields, counts, i, n, first, count);
            (bound, count)
        }
        _ => (1, 0),
    }
}

// Whether one pass over the types shows that every unfolding is within the bound. It does where each type comes after those that it is made of and no field
// belongs to two records; other tables need all levels.
fn unfolds_in_order(table: &Table, counts: &mut [u32]) -> bool
    requires { length table.now.types.now / 4 ≤ length counts.old }
    ensures { result ≡ true → all_below (small_at (types_of table.now.types.now table.now.fields.now)) (length table.now.types.now / 4) ≡ true }
{
    let n = table.types.len() / 4;
    let mut room = table.fields.len() / 2;
    for i in 0..n {
        let (b, k) = bound_type(table, counts, i, n);
        if room < k {
            return false;
        }
        if 65536 < b {
            return false;
        }
        counts[i] = b;
        room -= k;
    }
    true
}

// The same in one pass where that shows it, with scratch for at most N types: scratch is cleared on each call, so that a small table takes a small one.
fn unfolds_among<const N: usize>(table: &Table) -> bool
    requires { (length table.now.types.now / 4 ≤ N) × (N ≤ 4096) × (length table.now.fields.now / 2 ≤ 16384) }
    ensures { result ≡ all_below (small_at (types_of table.now.types.now table.now.fields.now)) (length table.now.types.now / 4) }
{
    // Kept: libraries have no heap, so that the scratch is an array.
    let mut counts = [0u32; N];
    unfolds_in_order(table, &mut counts) || unfolds_exactly(table)
}

// Whether every type's unfolding is within the bound.
fn unfolds_good(table: &Table) -> bool
    requires { (length table.now.types.now / 4 ≤ 4096) × (length table.now.fields.now / 2 ≤ 16384) }
    ensures { result ≡ all_below (small_at (types_of table.now.types.now table.now.fields.now)) (length table.now.types.now / 4) }
{
    match table.types.len() / 4 {
        0..=32 => unfolds_among::<32>(table),
        33..=256 => unfolds_among::<256>(table),
        _ => unfolds_among::<4096>(table),
    }
}

// Whether a type table is taken.
pub fn check_table(table: &Table) -> bool
    ensures { result ≡ table_good table.now.types.now table.now.fields.now table.now.consts.now table.now.bytes.now }
{
    if table.types.len() % 4 != 0 || 4096 < table.types.len() / 4 {
        return false;
    }
    if table.fields.len() % 2 != 0 || 16384 < table.fields.len() / 2 {
        return false;
    }
    if table.consts.len() % 3 != 0 || 4096 < table.consts.len() / 3 {
        return false;
    }
    if !types_good(table) || !consts_good(table) {
        return false;
    }
    unfolds_good(table)
}
