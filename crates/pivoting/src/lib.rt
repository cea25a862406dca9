// qp.rs: the first half of `Constraints::new`, of E with n rows and m columns, up to 32 and 24; p is min(n, m). Of the basis Y, n by p, the
// first `rank` columns count, and of T, p by m, the first `rank` rows.
#![tactic(auto)]

ghost use Rattle.std.specs.Prelude.{◌≡◌, ◌≤◌, ◌<◌, ◌+◌, ◌*◌, true, false, [], ◌∷◌, ◌++◌, length, set, take, replicate};
ghost use Rattle.folds.specs.Fold.{out, pick};
ghost use Rattle.folds.specs.Part.{two};
ghost use Rattle.sizes.specs.Sizes as Sizes;
ghost use Rattle.arith.specs.Float.{at};
ghost use Rattle.columns.specs.Columns.{put_column};
ghost use Rattle.pivoting.specs.Pivoting as Pivoting;
ghost use Rattle.pivoting.specs.Pivoting.{state_of, Taken};

// The column of E each of the `rank` basis vectors was built from, in order, and which columns remain: without a heap, an array and a count.
#[derive(Drop)]
pub struct Pivots {
    pub column: [usize; sizes::COLUMNS],
    pub remaining: [bool; sizes::COLUMNS],
    pub rank: usize,
}

// Column l of a (n by m) less y times t.
fn sub_column(a: &mut [f64], n: usize, m: usize, l: usize, y: &[f64], t: f64)
    requires { (n * m ≤ length a.old) × (l < m) × (n ≤ length y.now) }
    ensures { a.new ≡ Pivoting.sub_column n l y.now t a.old }
{
    for (i, y) in y[..n].iter().enumerate() {
        let v = columns::get(&a[..], n, m, i, l) - *y * t;
        columns::put(a, n, m, i, l, v);
    }
}

fn remove_part(
    left: &mut [f64],
    coefficients: &mut [f64],
    n: usize,
    m: usize,
    p: usize,
    row: usize,
    y: &[f64],
    l: usize,
)
    requires { (n * m ≤ length left.old) × (p * m ≤ length coefficients.old) × (row < p) × (n ≤ length y.now) × (l < m) }
    ensures { two left.new coefficients.new
        ≡ Pivoting.remove_part n p row y.now l (two left.old coefficients.old) }
{
    let t = reductions::dot(y, columns::column(&left[..], n, m, l), n);
    let c = columns::get(&coefficients[..], p, m, row, l) + t;
    columns::put(coefficients, p, m, row, l, c);
    sub_column(left, n, m, l, y, t);
}

// Twice, so that rounding in the first pass doesn't leave y in the column.
fn remove_one(
    left: &mut [f64],
    coefficients: &mut [f64],
    n: usize,
    m: usize,
    p: usize,
    row: usize,
    y: &[f64],
    remaining: &[bool],
    l: usize,
)
    requires { (n * m ≤ length left.old)
        × (p * m ≤ length coefficients.old)
        × (row < p)
        × (n ≤ length y.now)
        × (m ≤ length remaining.now)
        × (l < m) }
    ensures { two left.new coefficients.new
        ≡ Pivoting.remove_one n p row y.now remaining.now l (two left.old coefficients.old) }
{
    if remaining[l] {
        remove_part(left, coefficients, n, m, p, row, y, l);
        remove_part(left, coefficients, n, m, p, row, y, l);
    }
}

fn remove_all(
    left: &mut [f64],
    coefficients: &mut [f64],
    n: usize,
    m: usize,
    p: usize,
    row: usize,
    y: &[f64],
    remaining: &[bool],
)
    requires { (n * m ≤ length left.old)
        × (p * m ≤ length coefficients.old)
        × (row < p)
        × (n ≤ length y.now)
        × (m ≤ length remaining.now) }
    ensures { two left.new coefficients.new
        ≡ Pivoting.remove_all n m p row y.now remaining.now (two left.old coefficients.old) }
{
    // By the column's number: the columns lie in one slice, and p and l are both read.
    for l in 0..m {
        remove_one(left, coefficients, n, m, p, row, y, remaining, l);
    }
}

fn put_column(a: &mut [f64], n: usize, m: usize, j: usize, y: &[f64])
    requires { (n * m ≤ length a.old) × (j < m) × (n ≤ length y.now) }
    ensures { a.new ≡ put_column n n j (at y.now) a.old }
{
    for (i, y) in y[..n].iter().enumerate() {
        columns::put(a, n, m, i, j, *y);
    }
}

// The basis vector y: taken out of the remaining columns, and put into the basis.
fn with_basis(
    left: &mut [f64],
    coefficients: &mut [f64],
    basis: &mut [f64],
    n: usize,
    m: usize,
    p: usize,
    row: usize,
    y: &[f64],
    remaining: &[bool],
)
    requires { (n * m ≤ length left.old)
        × (p * m ≤ length coefficients.old)
        × (n * p ≤ length basis.old)
        × (row < p)
        × (n ≤ length y.now)
        × (m ≤ length remaining.now) }
    ensures coefficients_after { two left.new coefficients.new
        ≡ Pivoting.remove_all n m p row y.now remaining.now (two left.old coefficients.old) }
    ensures basis_after { basis.new ≡ put_column n n row (at y.now) basis.old }
{
    remove_all(left, coefficients, n, m, p, row, y, remaining);
    put_column(basis, n, p, row, y);
}

// `remaining.remove(position)`, `pivots.push(j)`
fn add_pivot(row: usize, m: usize, j: usize, pivots: &mut Pivots)
    requires { (row < Sizes.columns) × (j < m) × (m ≤ Sizes.columns) }
    ensures { (pivots.new.rank ≡ row + 1)
        × (take (row + 1) pivots.new.column ≡ take row pivots.old.column ++ (j ∷ []))
        × (take m pivots.new.remaining ≡ set (take m pivots.old.remaining) j false) }
{
    pivots.remaining[j] = false;
    pivots.column[row] = j;
    pivots.rank = row + 1;
}

// Column j, of norm `norm`, is taken.
fn taken(
    left: &mut [f64],
    coefficients: &mut [f64],
    basis: &mut [f64],
    n: usize,
    m: usize,
    p: usize,
    row: usize,
    j: usize,
    norm: f64,
    pivots: &mut Pivots,
)
    requires { (n * m ≤ length left.old)
        × (p * m ≤ length coefficients.old)
        × (n * p ≤ length basis.old)
        × (row < p)
        × (j < m)
        × (n ≤ Sizes.variables)
        × (m ≤ Sizes.columns)
        × (p ≤ m)
        × (pivots.old.rank ≡ row) }
    ensures result_after { state_of m left.new coefficients.new basis.new pivots.new
        ≡ Pivoting.taken n m p row j norm (state_of m left.old coefficients.old basis.old pivots.old) }
    ensures rank_value { pivots.new.rank ≡ row + 1 }
{
    let y = dense::divided(columns::column(&left[..], n, m, j), n, norm);
    add_pivot(row, m, j, pivots);
    columns::put(coefficients, p, m, row, j, norm);
    with_basis(
        left,
        coefficients,
        basis,
        n,
        m,
        p,
        row,
        &y[..n],
        &pivots.remaining[..m],
    );
}

// Whether the loop goes on.
fn pivot_step(
    left: &mut [f64],
    coefficients: &mut [f64],
    basis: &mut [f64],
    n: usize,
    m: usize,
    p: usize,
    row: usize,
    tolerance: f64,
    pivots: &mut Pivots,
) -> bool
    requires { (n * m ≤ length left.old)
        × (p * m ≤ length coefficients.old)
        × (n * p ≤ length basis.old)
        × (row < p)
        × (n ≤ Sizes.variables)
        × (m ≤ Sizes.columns)
        × (p ≤ m)
        × (pivots.old.rank ≡ row) }
    ensures pivots_after { out result (state_of m left.new coefficients.new basis.new pivots.new)
        ≡ Pivoting.pivot_step n m p tolerance row (state_of m left.old coefficients.old basis.old pivots.old) }
    ensures rank_value { pivots.new.rank ≡ pick result (row + 1) row }
{
    let best = pivot_choice::largest_column(&left[..], n, m, &pivots.remaining[..m]);
    let Some((j, norm)) = best else {
        return false;
    };
    if norm <= tolerance {
        return false;
    }
    taken(left, coefficients, basis, n, m, p, row, j, norm, pivots);
    true
}

// Gram-Schmidt with column pivoting and reorthogonalization; `left` starts as E.
fn pivoted(
    left: &mut [f64],
    coefficients: &mut [f64],
    basis: &mut [f64],
    n: usize,
    m: usize,
    p: usize,
    tolerance: f64,
    start: Pivots,
) -> Pivots
    requires { (n * m ≤ length left.old)
        × (p * m ≤ length coefficients.old)
        × (n * p ≤ length basis.old)
        × (n ≤ Sizes.variables)
        × (m ≤ Sizes.columns)
        × (p ≤ m)
        × (start.rank ≡ 0) }
    ensures result_after { state_of m left.new coefficients.new basis.new result
        ≡ Pivoting.pivoted n m p tolerance (state_of m left.old coefficients.old basis.old start) }
    ensures rank_le_p { result.rank ≤ p }
{
    let mut pivots = start;
    // By the step's number, which is the row that the pivot takes.
    for row in 0..p {
        if !pivot_step(
            left,
            coefficients,
            basis,
            n,
            m,
            p,
            row,
            tolerance,
            &mut pivots,
        ) {
            break;
        }
    }
    pivots
}

fn no_pivots() -> Pivots
    ensures { result ≡ record { column = replicate Sizes.columns 0; remaining = replicate Sizes.columns true; rank = 0 } }
{
    Pivots {
        column: [0; sizes::COLUMNS],
        remaining: [true; sizes::COLUMNS],
        rank: 0,
    }
}

// E = YT: what is left of E, T and Y fill the three slices.
pub fn factored(
    e: &[f64],
    n: usize,
    m: usize,
    p: usize,
    left: &mut [f64],
    coefficients: &mut [f64],
    basis: &mut [f64],
) -> Pivots
    requires { (n * m ≤ length e.now)
        × (length left.old ≡ n * m)
        × (length coefficients.old ≡ p * m)
        × (length basis.old ≡ n * p)
        × (n ≤ Sizes.variables)
        × (m ≤ Sizes.columns)
        × (p ≤ m) }
    ensures result_after { state_of m left.new coefficients.new basis.new result
        ≡ Pivoting.factored n m p e.now }
    ensures taken { Taken p m result }
{
    vector::copy(e, n * m, left);
    vector::fill(coefficients, p * m, 0.0);
    vector::fill(basis, n * p, 0.0);
    pivoted(
        left,
        coefficients,
        basis,
        n,
        m,
        p,
        pivot_choice::tolerance(e, n, m),
        no_pivots(),
    )
}
