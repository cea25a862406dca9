// eigen.rs, `rotate`: the cosine and sine of the Jacobi rotation that zeroes the entry p, q of a symmetric matrix.
#![tactic(auto)]

ghost use Rattle.std.specs.Prelude.{◌≡◌, ◌≤◌, ◌<◌, ◌*◌, length};
ghost use Rattle.angle.specs.Angle as Angle;

// The cosine and sine of a rotation.
#[derive(Clone, Copy)]
pub struct Turn {
    pub c: f64,
    pub s: f64,
}

// t = tan θ is the smaller root of t² + 2τt − 1 = 0. When τ is so large that τ² overflows, t ≈ 1 / 2τ.
fn tangent(tau: f64) -> f64
    ensures { result ≡ Angle.tangent tau }
{
    let size = arith::abs(tau);
    if size > 1e150 {
        return 0.5 / tau;
    }
    arith::signum(tau) / (size + root::sqrt(tau * tau + 1.0))
}

fn turn_by(t: f64) -> Turn
    ensures { result ≡ Angle.turn_by t }
{
    let c = 1.0 / root::sqrt(t * t + 1.0);
    Turn { c: c, s: t * c }
}

pub fn angle(a: &[f64], n: usize, p: usize, q: usize) -> Turn
    requires { (n * n ≤ length a.now) × (p < n) × (q < n) }
    ensures { result ≡ Angle.angle n p q a.now }
{
    let tau = (columns::get(a, n, n, q, q) - columns::get(a, n, n, p, p))
        / (2.0 * columns::get(a, n, n, p, q));
    turn_by(tangent(tau))
}
