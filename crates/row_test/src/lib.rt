// qp.rs, `meets_rows`: whether each row's sum is within its limits. n variables and r rows; the rows' a is n by r.
#![tactic(auto)]

ghost use Rattle.std.specs.Prelude.{◌≡◌, ◌≤◌, ◌*◌, length};
ghost use Rattle.row_test.specs.Limits as Limits;

fn row_terms(a: &[f64], x: &[f64], n: usize) -> f64
    requires { (n ≤ length a.now) × (n ≤ length x.now) }
    ensures { result ≡ Limits.row_terms n a.now x.now }
{
    let mut s = 0.0;
    for i in 0..n {
        s = s + arith::abs(a[i] * x[i]);
    }
    s
}

// Whether a row's sum is within its limits, to within 1e-8 of the size of its terms and the limit.
fn within(sum: f64, terms: f64, lower: f64, upper: f64) -> bool
    ensures { result ≡ Limits.within sum terms lower upper }
{
    if lower - 1e-8 * (terms + arith::abs(lower)) <= sum {
        return sum <= upper + 1e-8 * (terms + arith::abs(upper));
    }
    false
}

fn meets_row(x: &[f64], a: &[f64], lower: f64, upper: f64, n: usize) -> bool
    requires { (n ≤ length x.now) × (n ≤ length a.now) }
    ensures { result ≡ Limits.meets_row n x.now a.now lower upper }
{
    let sum = reductions::dot(a, x, n);
    let terms = row_terms(a, x, n);
    within(sum, terms, lower, upper)
}

// Whether each row's sum is within its limits.
pub fn meets_rows(
    x: &[f64],
    a: &[f64],
    row_lower: &[f64],
    row_upper: &[f64],
    n: usize,
    r: usize,
) -> bool
    requires { (n ≤ length x.now)
        × (n * r ≤ length a.now)
        × (r ≤ length row_lower.now)
        × (r ≤ length row_upper.now) }
    ensures { result
        ≡ Limits.meets_rows n r x.now a.now row_lower.now row_upper.now }
{
    // By the column's number: the columns lie in one slice.
    for j in 0..r {
        if meets_row(
            x,
            columns::column(a, n, r, j),
            row_lower[j],
            row_upper[j],
            n,
        ) {} else {
            return false;
        }
    }
    true
}
