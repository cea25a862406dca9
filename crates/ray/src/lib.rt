// qp.rs, `descent_ray`. Q is n by n, E is n by m, with up to 32 variables and 24 columns. The `&mut` slices are work memory.
#![tactic(auto)]

ghost use Rattle.std.specs.Prelude.{◌≡◌, ◌≤◌, ◌*◌, length};
ghost use Rattle.sizes.specs.Sizes as Sizes;
ghost use Rattle.scaled_ray.specs.ScaledRay.{ray_of};
ghost use Rattle.ray.specs.Ray as Definition;

// `Scaled::new` with Q's scale, and the ray: a direction of zero curvature that lowers the objective, unless none is found.
fn ray_by_in(
    q: &[f64],
    c: &[f64],
    e: &[f64],
    n: usize,
    m: usize,
    scale: f64,
    ks: &mut [f64],
    es: &mut [f64],
    coefficients: &mut [f64],
    range: &mut [f64],
    null: &mut [f64],
) -> Option<[f64; sizes::VARIABLES]>
    requires { (n ≤ Sizes.originals)
        × (m ≤ Sizes.columns)
        × (n * n ≤ length q.now)
        × (n ≤ length c.now)
        × (n * m ≤ length e.now)
        × (n * n ≤ length ks.old)
        × (n * m ≤ length es.old)
        × (n * m ≤ length coefficients.old)
        × (n * m ≤ length range.old)
        × (n * n ≤ length null.old) }
    ensures { ray_of n result ≡ Definition.ray_by n m q.now c.now e.now scale }
{
    let columns = scaled::column_scales(e, n, m);
    let square = n * n;
    let entries = n * m;
    vector::divided(q, square, scale, ks);
    scaled::scaled_e(e, n, m, &columns[..m], es);
    scaled_ray::ray_scaled(
        &ks[..square],
        c,
        &es[..entries],
        n,
        m,
        coefficients,
        range,
        null,
    )
}

// In work memory of SQUARE and TALL numbers.
fn ray_by_within<const SQUARE: usize, const TALL: usize>(
    q: &[f64],
    c: &[f64],
    e: &[f64],
    n: usize,
    m: usize,
    scale: f64,
) -> Option<[f64; sizes::VARIABLES]>
    requires { (n ≤ Sizes.originals)
        × (m ≤ Sizes.columns)
        × (n * n ≤ length q.now)
        × (n ≤ length c.now)
        × (n * m ≤ length e.now)
        × (n * n ≤ SQUARE)
        × (n * m ≤ TALL)
        × (SQUARE ≤ Sizes.originals * Sizes.originals)
        × (TALL ≤ Sizes.originals * Sizes.columns) }
    ensures { ray_of n result ≡ Definition.ray_by n m q.now c.now e.now scale }
{
    let mut ks = [0.0; SQUARE];
    let mut es = [0.0; TALL];
    let mut coefficients = [0.0; TALL];
    let mut range = [0.0; TALL];
    let mut null = [0.0; SQUARE];
    ray_by_in(
        q,
        c,
        e,
        n,
        m,
        scale,
        &mut ks,
        &mut es,
        &mut coefficients,
        &mut range,
        &mut null,
    )
}

// In work memory of its size.
fn ray_by(
    q: &[f64],
    c: &[f64],
    e: &[f64],
    n: usize,
    m: usize,
    scale: f64,
) -> Option<[f64; sizes::VARIABLES]>
    requires { (n ≤ Sizes.originals)
        × (m ≤ Sizes.columns)
        × (n * n ≤ length q.now)
        × (n ≤ length c.now)
        × (n * m ≤ length e.now) }
    ensures { ray_of n result ≡ Definition.ray_by n m q.now c.now e.now scale }
{
    if n <= sizes::FEW && m <= sizes::FEW {
        return ray_by_within::<{ sizes::SMALL }, { sizes::SMALL }>(q, c, e, n, m, scale);
    }
    ray_by_within::<{ sizes::SQUARE }, { sizes::TALL }>(q, c, e, n, m, scale)
}

pub fn descent_ray(
    q: &[f64],
    c: &[f64],
    e: &[f64],
    n: usize,
    m: usize,
) -> Option<[f64; sizes::VARIABLES]>
    requires { (n ≤ Sizes.originals)
        × (m ≤ Sizes.columns)
        × (n * n ≤ length q.now)
        × (n ≤ length c.now)
        × (n * m ≤ length e.now) }
    ensures { ray_of n result ≡ Definition.descent_ray n m q.now c.now e.now }
{
    let scale = scaled::k_scale(q, n)?;
    ray_by(q, c, e, n, m, scale)
}
