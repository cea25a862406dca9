// qp.rs, `solve_noisy_kkt`: the solve of a system that is scaled. K is n by n, E is n by m, with up to 32 variables and 24 columns. The `&mut`
// slices are work memory.
#![tactic(auto)]

ghost use Rattle.std.specs.Prelude.{◌≡◌, ◌≤◌, ◌*◌, length};
ghost use Rattle.sizes.specs.Sizes as Sizes;
ghost use Rattle.scaled.specs.Given.{system_of};
ghost use Rattle.solution.specs.Solution.{solution_of};
ghost use Rattle.scaled_kkt.specs.ScaledKkt as Definition;

use constraints::Constraints;
use scaled::System;
use solution::{KktError, Solution};

// x where ½xᵀKx − cᵀx is least over x0 + Zv, if the eigenvalues of ZᵀKZ are found.
fn minimum_in(
    system: &System,
    z: &[f64],
    x0: &[f64],
    d: usize,
    room: &mut [f64],
    h: &mut [f64],
    vectors: &mut [f64],
) -> Option<[f64; sizes::VARIABLES]>
    requires { (d ≤ system.now.n)
        × (system.now.n * d ≤ length z.now)
        × (system.now.n ≤ length x0.now)
        × (system.now.n * system.now.n ≤ length room.old)
        × (system.now.n * system.now.n ≤ length h.old)
        × (system.now.n * system.now.n ≤ length vectors.old) }
    ensures { Definition.point_of system.now.n result
        ≡ Definition.minimum system.now.n d system.now.k.now system.now.c.now z.now x0.now }
{
    let n = system.n;
    let gradient = reduced::reduced_gradient(system.k, system.c, z, x0, n, d);
    let hessian = reduced::reduced_hessian(system.k, z, n, d, room, h, vectors)?;
    let values = hessian.values;
    let cutoff = hessian.cutoff;
    let square = d * d;
    let v = reduced::range_part(&values[..d], &vectors[..square], d, cutoff, &gradient[..d]);
    let x = reduced::moved(x0, z, &v[..d], n, d);
    Some(x)
}

// In work memory of SQUARE numbers each.
fn minimum_within<const SQUARE: usize>(
    system: &System,
    z: &[f64],
    x0: &[f64],
    d: usize,
) -> Option<[f64; sizes::VARIABLES]>
    requires { (d ≤ system.now.n)
        × (system.now.n * d ≤ length z.now)
        × (system.now.n ≤ length x0.now)
        × (system.now.n * system.now.n ≤ SQUARE)
        × (SQUARE ≤ Sizes.originals * Sizes.originals) }
    ensures { Definition.point_of system.now.n result
        ≡ Definition.minimum system.now.n d system.now.k.now system.now.c.now z.now x0.now }
{
    let mut room = [0.0; SQUARE];
    let mut h = [0.0; SQUARE];
    let mut vectors = [0.0; SQUARE];
    minimum_in(system, z, x0, d, &mut room, &mut h, &mut vectors)
}

// In work memory of its size.
fn minimum(system: &System, z: &[f64], x0: &[f64], d: usize) -> Option<[f64; sizes::VARIABLES]>
    requires { (d ≤ system.now.n)
        × (system.now.n * d ≤ length z.now)
        × (system.now.n ≤ length x0.now) }
    ensures { Definition.point_of system.now.n result
        ≡ Definition.minimum system.now.n d system.now.k.now system.now.c.now z.now x0.now }
{
    if system.n <= sizes::FEW {
        return minimum_within::<{ sizes::SMALL }>(system, z, x0, d);
    }
    minimum_within::<{ sizes::SQUARE }>(system, z, x0, d)
}

// The solve of a system that is scaled.
pub fn solve_scaled(
    system: &System,
    noise: f64,
    coefficients: &mut [f64],
    range: &mut [f64],
    null: &mut [f64],
) -> Result<Solution, KktError>
    requires { (system.now.n * system.now.m ≤ length coefficients.old)
        × (system.now.n * system.now.m ≤ length range.old)
        × (system.now.n * system.now.n ≤ length null.old) }
    ensures { solution_of system.now.n system.now.m result
        ≡ Definition.solve_scaled (system_of system.now) noise }
{
    let n = system.n;
    let m = system.m;
    let pivots = constraints::new(system.e, n, m, coefficients, range, null);
    let column = pivots.column;
    let rank = pivots.rank;
    let y = n * rank;
    let z = n * (n - rank);
    let t = n.min(m) * m;
    let of = Constraints {
        range: &range[..y],
        coefficients: &coefficients[..t],
        pivots: &column[..rank],
        rank,
        n,
        m,
    };
    let x0 = constraints::smallest_feasible(&of, system.b);
    let Some(x) = minimum(system, &null[..z], &x0[..n], n - rank) else {
        return Err(KktError::SingularCovariance);
    };
    let g = reduced::gradient(system.k, system.c, &x[..n], n);
    let multipliers = constraints::multipliers(&of, &g[..n]);
    solution::judged(system, x, multipliers, noise)
}
