// qp.rs: `Constraints`, of E with n rows and m columns, up to 32 and 24; p is min(n, m). Of the basis Y, n by p, the first `rank` columns
// count, of Z the first n - rank, and of T, p by m, the first `rank` rows.
#![tactic(auto)]

ghost use Rattle.std.specs.Prelude.{◌≡◌, false, ◌≤◌, ◌<◌, ◌+◌, ◌-◌, ◌*◌, min, length, take};
ghost use Rattle.folds.specs.Fold.{fold, tab, over};
ghost use Rattle.sizes.specs.Sizes as Sizes;
ghost use Rattle.pivoting.specs.Pivoting.{Taken};
ghost use Rattle.constraints.specs.Constraints as Definition;
ghost use Rattle.constraints.specs.Room.{Room};

use pivoting::Pivots;

pub mod parts;

pub use parts::Constraints;

// Qᵀ, of the reflections that `range` makes; `made` starts as false.
fn q_transpose_in(
    range: &[f64],
    n: usize,
    rank: usize,
    reflectors: &mut [f64],
    made: &mut [bool],
    q: &mut [f64],
)
    requires { (length range.now ≡ n * rank)
        × (length reflectors.old ≡ n * rank)
        × (made.old ≡ tab rank (λ _. false))
        × (length q.old ≡ n * n)
        × (rank ≤ n)
        × (n ≤ Sizes.originals) }
    ensures { q.new ≡ Definition.q_transpose n rank range.now }
{
    matrix::identity(q, n);
    vector::copy(range, n * rank, reflectors);
    householder::qr(reflectors, n, rank, made);
    householder::q_tr_mul(&reflectors[..], n, rank, &made[..], q, n);
}

// Qᵀ, of the reflections that `range` makes, over the start of q; `room` has place for them.
fn q_transpose(range: &[f64], n: usize, rank: usize, room: &mut [f64], q: &mut [f64])
    requires { (length range.now ≡ n * rank)
        × (n * rank ≤ length room.old)
        × (n * n ≤ length q.old)
        × (rank ≤ n)
        × (rank ≤ Sizes.columns)
        × (n ≤ Sizes.originals) }
    ensures { take (n * n) q.new ≡ Definition.q_transpose n rank range.now }
{
    let mut made = [false; sizes::COLUMNS];
    let entries = n * rank;
    let square = n * n;
    q_transpose_in(
        range,
        n,
        rank,
        &mut room[..entries],
        &mut made[..rank],
        &mut q[..square],
    );
}

// `q.rows(rank, d).transpose()`, with d = n - rank.
fn rows_transposed(q: &[f64], n: usize, rank: usize, d: usize, z: &mut [f64])
    requires { (n * n ≤ length q.now) × (rank + d ≡ n) × (n * d ≤ length z.old) }
    ensures { z.new ≡ over (Definition.rows_transposed n rank d q.now) z.old }
{
    columns::write_entries(z, n, d, |i, j, _| columns::get(q, n, n, rank + j, i));
}

// `null -= &range * (range.transpose() * &null)`; the products stand in `part` and `spanned`.
fn less_range(
    null: &mut [f64],
    range: &[f64],
    n: usize,
    rank: usize,
    d: usize,
    part: &mut [f64],
    spanned: &mut [f64],
)
    requires { (length null.old ≡ n * d)
        × (n * rank ≤ length range.now)
        × (length part.old ≡ rank * d)
        × (length spanned.old ≡ n * d) }
    ensures { null.new ≡ Definition.less_range n rank d range.now null.old }
{
    matrix::tr_mul(range, n, rank, &null[..], d, part);
    matrix::mul(range, n, rank, &part[..], d, spanned);
    vector::sub_from(null, n * d, &spanned[..]);
}

// Twice, since the first pass can only cancel an error much larger than the entry.
fn less_range_twice(
    null: &mut [f64],
    range: &[f64],
    n: usize,
    rank: usize,
    d: usize,
    part: &mut [f64],
    spanned: &mut [f64],
)
    requires { (length null.old ≡ n * d)
        × (n * rank ≤ length range.now)
        × (length part.old ≡ rank * d)
        × (length spanned.old ≡ n * d) }
    ensures { null.new ≡ fold 2 (λ _. Definition.less_range n rank d range.now) null.old }
{
    for _ in 0..2usize {
        less_range(null, range, n, rank, d, part, spanned);
    }
}

// Z from Y over the start of `null`, where Y is not empty; `room` and `q` are work memory.
fn completed(
    range: &[f64],
    n: usize,
    rank: usize,
    room: &mut [f64],
    q: &mut [f64],
    null: &mut [f64],
)
    requires { (length range.now ≡ n * rank)
        × (n * rank ≤ length room.old)
        × (rank * (n - rank) ≤ length room.old)
        × (n * n ≤ length q.old)
        × (n * n ≤ length null.old)
        × (rank ≤ n)
        × (rank ≤ Sizes.columns)
        × (n ≤ Sizes.originals) }
    ensures { take (n * (n - rank)) null.new ≡ Definition.completed n rank range.now }
{
    let d = n - rank;
    let square = n * n;
    let entries = n * d;
    let part = rank * d;
    q_transpose(range, n, rank, room, q);
    rows_transposed(&q[..square], n, rank, d, null);
    less_range_twice(
        &mut null[..entries],
        range,
        n,
        rank,
        d,
        &mut room[..part],
        &mut q[..entries],
    );
}

fn null_space(
    range: &[f64],
    n: usize,
    rank: usize,
    room: &mut [f64],
    q: &mut [f64],
    null: &mut [f64],
)
    requires { (length range.now ≡ n * rank)
        × (n * rank ≤ length room.old)
        × (rank * (n - rank) ≤ length room.old)
        × (n * n ≤ length q.old)
        × (n * n ≤ length null.old)
        × (rank ≤ n)
        × (rank ≤ Sizes.columns)
        × (n ≤ Sizes.originals) }
    ensures { take (n * (n - rank)) null.new ≡ Definition.null_space n rank range.now }
{
    if rank == 0 {
        matrix::identity(null, n);
        return;
    }
    completed(range, n, rank, room, q, null);
}

// `Constraints::new`: Y, Z and T at the start of `range`, `null` and `coefficients`, and the columns taken; `left` and `q` are work memory.
fn new_in(
    e: &[f64],
    n: usize,
    m: usize,
    left: &mut [f64],
    coefficients: &mut [f64],
    range: &mut [f64],
    q: &mut [f64],
    null: &mut [f64],
) -> Pivots
    requires { Room n m e.now coefficients.old range.old null.old × (n * m ≤ length left.old) × (n * n ≤ length q.old) }
    ensures result_after { Definition.constraints_of n m range.new null.new coefficients.new result
        ≡ Definition.new n m e.now }
    ensures taken { Taken (min n m) m result }
{
    let p = n.min(m);
    let entries = n * m;
    let t = p * m;
    let y = n * p;
    let pivots = pivoting::factored(
        e,
        n,
        m,
        p,
        &mut left[..entries],
        &mut coefficients[..t],
        &mut range[..y],
    );
    let rank = pivots.rank;
    let columns = n * rank;
    null_space(&range[..columns], n, rank, left, q, null);
    pivots
}

// In work memory of TALL and SQUARE numbers.
fn new_within<const TALL: usize, const SQUARE: usize>(
    e: &[f64],
    n: usize,
    m: usize,
    coefficients: &mut [f64],
    range: &mut [f64],
    null: &mut [f64],
) -> Pivots
    requires { Room n m e.now coefficients.old range.old null.old
        × (n * m ≤ TALL)
        × (n * n ≤ SQUARE)
        × (TALL ≤ Sizes.originals * Sizes.columns)
        × (SQUARE ≤ Sizes.originals * Sizes.originals) }
    ensures result_after { Definition.constraints_of n m range.new null.new coefficients.new result
        ≡ Definition.new n m e.now }
    ensures taken { Taken (min n m) m result }
{
    let mut left = [0.0; TALL];
    let mut q = [0.0; SQUARE];
    new_in(e, n, m, &mut left, coefficients, range, &mut q, null)
}

// In work memory of its size.
pub fn new(
    e: &[f64],
    n: usize,
    m: usize,
    coefficients: &mut [f64],
    range: &mut [f64],
    null: &mut [f64],
) -> Pivots
    requires { Room n m e.now coefficients.old range.old null.old }
    ensures result_after { Definition.constraints_of n m range.new null.new coefficients.new result
        ≡ Definition.new n m e.now }
    ensures taken { Taken (min n m) m result }
{
    if n <= sizes::FEW && m <= sizes::FEW {
        return new_within::<{ sizes::SMALL }, { sizes::SMALL }>(e, n, m, coefficients, range, null);
    }
    new_within::<{ sizes::TALL }, { sizes::SQUARE }>(e, n, m, coefficients, range, null)
}

// The smallest x with Eᵀx = b on the pivot columns: x = Yu.
pub fn smallest_feasible(of: &Constraints, b: &[f64]) -> [f64; sizes::VARIABLES]
    requires { (of.now.n ≤ Sizes.originals) × (of.now.m ≤ length b.now) }
    ensures { take of.now.n result
        ≡ Definition.smallest_feasible of.now.n of.now.m of.now.range.now of.now.coefficients.now b.now
        of.now.pivots.now of.now.rank }
{
    let n = of.n;
    let m = of.m;
    let rank = of.rank;
    let mut u = [0.0; sizes::COLUMNS];
    let p = n.min(m);
    substitution::forward(of.coefficients, p, m, b, of.pivots, rank, &mut u[..rank]);
    dense::mul_vec(of.range, n, rank, &u[..rank])
}

// The λ that best solves Eλ = g: Tλ = Yᵀg on the pivot columns, by back substitution, with zero for dependent columns.
pub fn multipliers(of: &Constraints, g: &[f64]) -> [f64; sizes::COLUMNS]
    requires { of.now.n ≤ length g.now }
    ensures { take of.now.m result
        ≡ Definition.multipliers of.now.n of.now.m of.now.range.now of.now.coefficients.now g.now
        of.now.pivots.now of.now.rank }
{
    let m = of.m;
    let rank = of.rank;
    let mut lambda = [0.0; sizes::COLUMNS];
    let p = of.n.min(m);
    let h = dense::tr_mul_vec(of.range, of.n, rank, g);
    substitution::backward(
        of.coefficients,
        p,
        m,
        &h[..rank],
        of.pivots,
        rank,
        &mut lambda[..m],
    );
    lambda
}
