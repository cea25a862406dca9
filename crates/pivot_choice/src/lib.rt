// qp.rs, `Constraints::new`: what decides the pivots and the rank of E, with n rows and m columns: the norms of the columns that remain, and the
// tolerance.
#![tactic(auto)]

ghost use Rattle.std.specs.Prelude.{◌≡◌, ◌≤◌, ◌<◌, ◌*◌, length};
ghost use Rattle.folds.specs.Best.{better};
ghost use Rattle.pivot_choice.specs.PivotChoice as PivotChoice;
ghost use Rattle.pivot_choice.specs.PivotChoice.{at_least};

fn column_norm(a: &[f64], n: usize, m: usize, j: usize) -> f64
    requires { (n * m ≤ length a.now) × (j < m) }
    ensures { result ≡ PivotChoice.column_norm n a.now j }
{
    reductions::norm(columns::column(a, n, m, j), n)
}

fn largest_norm(e: &[f64], n: usize, m: usize) -> f64
    requires { n * m ≤ length e.now }
    ensures { result ≡ PivotChoice.largest_norm n m e.now }
{
    let mut s = 0.0;
    // By the column's number: the columns lie in one slice.
    for j in 0..m {
        s = arith::max(s, column_norm(e, n, m, j));
    }
    s
}

// What is left of a column at or below it is rounding.
pub fn tolerance(e: &[f64], n: usize, m: usize) -> f64
    requires { n * m ≤ length e.now }
    ensures { result ≡ PivotChoice.tolerance n m e.now }
{
    arith::from_usize(n.max(m)) * arith::EPSILON * largest_norm(e, n, m)
}

// Of two columns, each with its norm: the one of the larger, and the last where they are equal. Not one function with the releases' `max_by`,
// whose rate stands first: a closure for the key is longer than either.
fn max_by(best: Option<(usize, f64)>, other: Option<(usize, f64)>) -> Option<(usize, f64)>
    ensures { result ≡ better at_least best other }
{
    let Some((_, norm)) = other else {
        return best;
    };
    let Some((_, largest)) = best else {
        return other;
    };
    if arith::total_less(norm, largest) {
        return best;
    }
    other
}

// Column j with its norm, if it remains.
fn offered(left: &[f64], n: usize, m: usize, remaining: &[bool], j: usize) -> Option<(usize, f64)>
    requires { (n * m ≤ length left.now) × (m ≤ length remaining.now) × (j < m) }
    ensures { result ≡ PivotChoice.offered n left.now remaining.now j }
{
    if remaining[j] {
        return Some((j, column_norm(left, n, m, j)));
    }
    None
}

// The remaining column of the largest norm.
pub fn largest_column(left: &[f64], n: usize, m: usize, remaining: &[bool]) -> Option<(usize, f64)>
    requires { (n * m ≤ length left.now) × (m ≤ length remaining.now) }
    ensures { result ≡ PivotChoice.largest_column n m left.now remaining.now }
{
    let mut best = None;
    // By the column's number: the columns lie in one slice.
    for j in 0..m {
        best = max_by(best, offered(left, n, m, remaining, j));
    }
    best
}
