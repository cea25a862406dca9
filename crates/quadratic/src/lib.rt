// The problem of `solve_piecewise` and `solve_bounded`, tested: what is refused before the engine. Q is n by n, E is n by m, the rows' a is n by r,
// with up to 32 variables, 8 columns and 16 rows. The definitions are specs/Quadratic.antt.
#![tactic(auto)]

ghost use Rattle.std.specs.Prelude.{◌≡◌, ◌≤◌, length};
ghost use Rattle.sizes.specs.Sizes as Sizes;
ghost use Rattle.quadratic.specs.Quadratic.{quadratic};
ghost use Rattle.quadratic.specs.Quadratic as Definition;

// Whether the counts are the engine's, and the matrices, c and b have the lengths that they give.
fn sized(n: usize, m: usize, r: usize, q: usize, c: usize, e: usize, b: usize, a: usize) -> bool
    ensures { result ≡ Definition.sized n m r q c e b a }
{
    if n > sizes::ORIGINALS {
        return false;
    }
    if m > sizes::EQUALITIES {
        return false;
    }
    if r > sizes::ROWS {
        return false;
    }
    if q != n * n {
        return false;
    }
    if c != n {
        return false;
    }
    if e != n * m {
        return false;
    }
    if b != m {
        return false;
    }
    a == n * r
}

// Whether the lists have the lengths that the counts give.
fn long(
    n: usize,
    m: usize,
    r: usize,
    lower: usize,
    upper: usize,
    row_lower: usize,
    row_upper: usize,
    at: usize,
    slopes: usize,
    start: usize,
    x: usize,
    multipliers: usize,
) -> bool
    requires { (m ≤ Sizes.equalities) × (r ≤ Sizes.rows) }
    ensures { result ≡ Definition.long n m r lower upper row_lower row_upper at slopes start x multipliers }
{
    if lower != n {
        return false;
    }
    if upper != n {
        return false;
    }
    if row_lower != r {
        return false;
    }
    if row_upper != r {
        return false;
    }
    if at != n {
        return false;
    }
    if slopes != n {
        return false;
    }
    if start != n {
        return false;
    }
    if x != n {
        return false;
    }
    multipliers == m + r
}

pub fn shaped(
    q: &[f64],
    c: &[f64],
    e: &[f64],
    b: &[f64],
    lower: &[f64],
    upper: &[f64],
    a: &[f64],
    row_lower: &[f64],
    row_upper: &[f64],
    at: &[f64],
    slopes: &[f64],
    start: &[f64],
    n: usize,
    m: usize,
    r: usize,
    x: usize,
    multipliers: usize,
) -> bool
    ensures { result
        ≡ Definition.shaped (quadratic n m r q.now c.now e.now b.now lower.now
        upper.now a.now row_lower.now row_upper.now at.now slopes.now
        start.now) x multipliers }
{
    if sized(n, m, r, q.len(), c.len(), e.len(), b.len(), a.len()) {
        return long(
            n,
            m,
            r,
            lower.len(),
            upper.len(),
            row_lower.len(),
            row_upper.len(),
            at.len(),
            slopes.len(),
            start.len(),
            x,
            multipliers,
        );
    }
    false
}

// Whether a bound of a variable or a row is NaN.
pub fn blank(
    lower: &[f64],
    upper: &[f64],
    row_lower: &[f64],
    row_upper: &[f64],
    n: usize,
    r: usize,
) -> bool
    requires { (n ≤ length lower.now) × (n ≤ length upper.now) × (r ≤ length row_lower.now) × (r ≤ length row_upper.now) }
    ensures { result ≡ Definition.blank n r lower.now upper.now row_lower.now row_upper.now }
{
    if reductions::any_nan(lower, n) {
        return true;
    }
    if reductions::any_nan(upper, n) {
        return true;
    }
    if reductions::any_nan(row_lower, r) {
        return true;
    }
    reductions::any_nan(row_upper, r)
}
