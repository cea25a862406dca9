// qp.rs: `kink_multiplier`, `sum_rounding`, and what `solve_turnover_capped` measures of a point: its turnover, and the slack of the limit on it.
#![tactic(auto)]

ghost use Rattle.std.specs.Prelude.{◌≡◌, ◌≤◌, ◌*◌, length};
ghost use Rattle.sizes.specs.Sizes.{variables};
ghost use Rattle.turnover.specs.Turnover as Turnover;

fn first_raise(pull: f64) -> f64
    ensures { result ≡ Turnover.first_raise pull }
{
    if pull > 0.0 {
        return pull;
    }
    1.0
}

// The slope max |Qa − c| at which every variable that can stay at its kink a does, or 1 if that's 0.
pub fn kink_multiplier(q: &[f64], c: &[f64], at: &[f64], n: usize) -> f64
    requires { (n ≤ variables) × (n * n ≤ length q.now) × (n ≤ length c.now) × (n ≤ length at.now) }
    ensures { result ≡ Turnover.kink_multiplier n q.now c.now at.now }
{
    let gradient = dense::mul_vec(q, n, n, at);
    let pull = dense::sub(&gradient[..n], c, n);
    first_raise(reductions::amax(&pull[..n], n))
}

// How far a sum of so many terms, none larger than `size`, can round.
pub fn sum_rounding(terms: usize, size: f64) -> f64
    ensures { result ≡ Turnover.sum_rounding terms size }
{
    4.0 * arith::from_usize(terms) * arith::EPSILON * size
}

pub fn turnover(x: &[f64], at: &[f64], n: usize) -> f64
    requires { (n ≤ variables) × (n ≤ length x.now) × (n ≤ length at.now) }
    ensures { result ≡ Turnover.turnover n x.now at.now }
{
    let moves = dense::sub(x, at, n);
    reductions::total_abs(&moves[..n], n)
}

fn slack(x: &[f64], n: usize) -> f64
    requires { n ≤ length x.now }
    ensures { result ≡ Turnover.slack n x.now }
{
    sum_rounding(n, arith::max(reductions::amax(x, n), 1.0))
}

// Whether a value at x is within the limit, and whether it reaches it.
pub fn within(value: f64, limit: f64, x: &[f64], n: usize) -> bool
    requires { n ≤ length x.now }
    ensures { result ≡ Turnover.within n value limit x.now }
{
    value <= limit + slack(x, n)
}

pub fn reaches(value: f64, limit: f64, x: &[f64], n: usize) -> bool
    requires { n ≤ length x.now }
    ensures { result ≡ Turnover.reaches n value limit x.now }
{
    value >= limit - slack(x, n)
}
