// qp.rs, `Constraints`: substitution in the triangle that T, p by m, has on its pivot columns, of which there are `rank`.
#![tactic(auto)]

ghost use Rattle.std.specs.Prelude.{◌≡◌, ◌≤◌, ◌<◌, ◌*◌, length};
ghost use Rattle.vector.specs.Vector.{Below};
ghost use Rattle.substitution.specs.Substitution as Substitution;

fn feasible_one(
    coefficients: &[f64],
    p: usize,
    m: usize,
    b: &[f64],
    j: usize,
    i: usize,
    u: &[f64],
) -> f64
    requires { (p * m ≤ length coefficients.now) × (m ≤ length b.now) × (j < m) × (i < p) × (i ≤ length u.now) }
    ensures { result ≡ Substitution.feasible_one p coefficients.now b.now j i u.now }
{
    let mut known = 0.0;
    for k in 0..i {
        known = known + columns::get(coefficients, p, m, k, j) * u[k];
    }
    (b[j] - known) / columns::get(coefficients, p, m, i, j)
}

// u with Tᵀu = b on the pivot columns, by forward substitution.
pub fn forward(
    coefficients: &[f64],
    p: usize,
    m: usize,
    b: &[f64],
    pivots: &[usize],
    rank: usize,
    u: &mut [f64],
)
    requires { (p * m ≤ length coefficients.now)
        × (m ≤ length b.now)
        × (rank ≤ length pivots.now)
        × (rank ≤ p)
        × Below rank pivots.now m
        × (rank ≤ length u.old) }
    ensures { u.new
        ≡ Substitution.forward p coefficients.now b.now pivots.now rank u.old }
{
    // By index: each unknown reads those before it.
    for i in 0..rank {
        u[i] = feasible_one(coefficients, p, m, b, pivots[i], i, &u[..]);
    }
}

// The terms of row i of T whose multipliers are known, those of the pivots from place `first` on.
fn known_from(
    coefficients: &[f64],
    p: usize,
    m: usize,
    pivots: &[usize],
    rank: usize,
    i: usize,
    first: usize,
    lambda: &[f64],
) -> f64
    requires { (p * m ≤ length coefficients.now)
        × (rank ≤ length pivots.now)
        × Below rank pivots.now m
        × (i < p)
        × (first ≤ rank)
        × (m ≤ length lambda.now) }
    ensures { result ≡ Substitution.known_from p coefficients.now pivots.now rank i first lambda.now }
{
    let mut known = 0.0;
    for k in first..rank {
        let l = pivots[k];
        known = known + columns::get(coefficients, p, m, i, l) * lambda[l];
    }
    known
}

fn multiplier_one(
    coefficients: &[f64],
    p: usize,
    m: usize,
    h: f64,
    pivots: &[usize],
    rank: usize,
    i: usize,
    lambda: &[f64],
) -> f64
    requires { (p * m ≤ length coefficients.now)
        × (rank ≤ length pivots.now)
        × (rank ≤ p)
        × Below rank pivots.now m
        × (i < rank)
        × (m ≤ length lambda.now) }
    ensures { result ≡ Substitution.multiplier_one p coefficients.now h pivots.now rank i lambda.now }
{
    let known = known_from(coefficients, p, m, pivots, rank, i, i + 1, lambda);
    (h - known) / columns::get(coefficients, p, m, i, pivots[i])
}

// λ with Tλ = h on the pivot columns, by back substitution.
pub fn backward(
    coefficients: &[f64],
    p: usize,
    m: usize,
    h: &[f64],
    pivots: &[usize],
    rank: usize,
    lambda: &mut [f64],
)
    requires { (p * m ≤ length coefficients.now)
        × (rank ≤ length h.now)
        × (rank ≤ length pivots.now)
        × (rank ≤ p)
        × Below rank pivots.now m
        × (m ≤ length lambda.old) }
    ensures { lambda.new
        ≡ Substitution.backward p coefficients.now h.now pivots.now rank lambda.old }
{
    // By index: each multiplier reads those after it.
    for t in 0..rank {
        let i = rank - 1 - t;
        let j = pivots[i];
        lambda[j] = multiplier_one(coefficients, p, m, h[i], pivots, rank, i, &lambda[..]);
    }
}
