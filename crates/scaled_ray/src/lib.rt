// qp.rs, `descent_ray`: the ray of a problem that is scaled. K is n by n, E is n by m, with up to 32 variables and 24 columns. The `&mut` slices
// from `room` or `coefficients` on are work memory.
#![tactic(auto)]

ghost use Rattle.std.specs.Prelude.{◌≡◌, ◌≤◌, ◌*◌, length, take};
ghost use Rattle.sizes.specs.Sizes as Sizes;
ghost use Rattle.constraints.specs.Room.{Room};
ghost use Rattle.scaled_ray.specs.ScaledRay as Definition;

// The KKT system was inconsistent, so such a direction exists up to rounding; without one the system was too ill-conditioned to tell.
fn beyond_rounding(
    direction: [f64; sizes::VARIABLES],
    c: &[f64],
    n: usize,
) -> Option<[f64; sizes::VARIABLES]>
    requires { (n ≤ Sizes.originals) × (n ≤ length c.now) }
    ensures { Definition.ray_of n result ≡ Definition.beyond_rounding n (take n direction) c.now }
{
    let length = reductions::scaled_norm(&direction[..n], n);
    if length <= 1e-12 * reductions::scaled_norm(c, n) || length == 0.0 {
        return None;
    }
    Some(direction)
}

// The ray over Z, of d columns: a direction of zero curvature that lowers the objective, unless none is found.
fn ray_over_in(
    k: &[f64],
    c: &[f64],
    z: &[f64],
    n: usize,
    d: usize,
    room: &mut [f64],
    h: &mut [f64],
    vectors: &mut [f64],
) -> Option<[f64; sizes::VARIABLES]>
    requires { (n ≤ Sizes.originals)
        × (d ≤ n)
        × (n * n ≤ length k.now)
        × (n ≤ length c.now)
        × (n * d ≤ length z.now)
        × (n * n ≤ length room.old)
        × (n * n ≤ length h.old)
        × (n * n ≤ length vectors.old) }
    ensures { Definition.ray_of n result ≡ Definition.ray_over n d k.now c.now z.now }
{
    let hessian = reduced::reduced_hessian(k, z, n, d, room, h, vectors)?;
    let values = hessian.values;
    let cutoff = hessian.cutoff;
    let square = d * d;
    let direction = null_part::null_part(&values[..d], &vectors[..square], cutoff, z, c, n, d);
    beyond_rounding(direction, c, n)
}

// In work memory of SQUARE numbers each.
fn ray_over_within<const SQUARE: usize>(
    k: &[f64],
    c: &[f64],
    z: &[f64],
    n: usize,
    d: usize,
) -> Option<[f64; sizes::VARIABLES]>
    requires { (n ≤ Sizes.originals)
        × (d ≤ n)
        × (n * n ≤ length k.now)
        × (n ≤ length c.now)
        × (n * d ≤ length z.now)
        × (n * n ≤ SQUARE)
        × (SQUARE ≤ Sizes.originals * Sizes.originals) }
    ensures { Definition.ray_of n result ≡ Definition.ray_over n d k.now c.now z.now }
{
    let mut room = [0.0; SQUARE];
    let mut h = [0.0; SQUARE];
    let mut vectors = [0.0; SQUARE];
    ray_over_in(k, c, z, n, d, &mut room, &mut h, &mut vectors)
}

// In work memory of its size.
fn ray_over(k: &[f64], c: &[f64], z: &[f64], n: usize, d: usize) -> Option<[f64; sizes::VARIABLES]>
    requires { (n ≤ Sizes.originals)
        × (d ≤ n)
        × (n * n ≤ length k.now)
        × (n ≤ length c.now)
        × (n * d ≤ length z.now) }
    ensures { Definition.ray_of n result ≡ Definition.ray_over n d k.now c.now z.now }
{
    if n <= sizes::FEW {
        return ray_over_within::<{ sizes::SMALL }>(k, c, z, n, d);
    }
    ray_over_within::<{ sizes::SQUARE }>(k, c, z, n, d)
}

// The ray of a problem that is scaled; c is not.
pub fn ray_scaled(
    k: &[f64],
    c: &[f64],
    e: &[f64],
    n: usize,
    m: usize,
    coefficients: &mut [f64],
    range: &mut [f64],
    null: &mut [f64],
) -> Option<[f64; sizes::VARIABLES]>
    requires { (n * n ≤ length k.now)
        × (n ≤ length c.now)
        × Room n m e.now coefficients.old range.old null.old }
    ensures { Definition.ray_of n result ≡ Definition.ray_scaled n m k.now c.now e.now }
{
    let pivots = constraints::new(e, n, m, coefficients, range, null);
    let rank = pivots.rank;
    let d = n - rank;
    let entries = n * d;
    ray_over(k, c, &null[..entries], n, d)
}
