// qp.rs, `solve_noisy_kkt`: its steps in the null space of Eᵀ, of which the d columns of Z are a basis. K is n by n, with n up to 32.
#![tactic(auto)]

ghost use Rattle.std.specs.Prelude.{◌≡◌, ◌≤◌, ◌<◌, ◌*◌, length, take};
ghost use Rattle.sizes.specs.Sizes as Sizes;
ghost use Rattle.vector.specs.Vector.{Below};
ghost use Rattle.reduced.specs.Reduced as Definition;

// The eigenvalues of ZᵀKZ, and the cutoff.
#[derive(Clone, Copy)]
pub struct Hessian {
    pub values: [f64; sizes::VARIABLES],
    pub cutoff: f64,
}

// c − Kx
pub fn gradient(k: &[f64], c: &[f64], x: &[f64], n: usize) -> [f64; sizes::VARIABLES]
    requires { (n ≤ Sizes.originals) × (n * n ≤ length k.now) × (n ≤ length c.now) × (n ≤ length x.now) }
    ensures { take n result ≡ Definition.gradient n k.now c.now x.now }
{
    let kx = dense::mul_vec(k, n, n, x);
    dense::sub(c, &kx[..n], n)
}

// Zᵀ(c − Kx)
pub fn reduced_gradient(
    k: &[f64],
    c: &[f64],
    z: &[f64],
    x: &[f64],
    n: usize,
    d: usize,
) -> [f64; sizes::VARIABLES]
    requires { (n ≤ Sizes.originals)
        × (d ≤ n)
        × (n * n ≤ length k.now)
        × (n ≤ length c.now)
        × (n * d ≤ length z.now)
        × (n ≤ length x.now) }
    ensures { take d result ≡ Definition.reduced_gradient n d k.now c.now z.now x.now }
{
    let g = gradient(k, c, x, n);
    dense::tr_mul_vec(z, n, d, &g[..n])
}

// ZᵀKZ over the start of h; ZᵀK stands in `room`.
fn projected(k: &[f64], z: &[f64], n: usize, d: usize, room: &mut [f64], h: &mut [f64])
    requires { (n ≤ Sizes.originals)
        × (d ≤ n)
        × (n * n ≤ length k.now)
        × (n * d ≤ length z.now)
        × (n * n ≤ length room.old)
        × (n * n ≤ length h.old) }
    ensures { take (d * d) h.new ≡ Definition.projected n d k.now z.now }
{
    let entries = d * n;
    matrix::tr_mul(z, n, d, k, n, room);
    matrix::mul(&room[..entries], d, n, z, d, h);
}

// Below this an eigenvalue of ZᵀKZ counts as zero: relative to K as well, so that a reduced Hessian that is all rounding error is zero.
fn cutoff(values: &[f64], k: &[f64], n: usize, d: usize) -> f64
    requires { (n ≤ Sizes.originals) × (n * n ≤ length k.now) × (d ≤ length values.now) }
    ensures { result ≡ Definition.cutoff n d k.now values.now }
{
    let largest = arith::max(reductions::amax(values, d), reductions::amax(k, n * n));
    largest * std::num::nearest_usize_to_f64(n + 1) * arith::EPSILON
}

// None where the eigenvalues aren't found. The eigenvectors stand over the start of `vectors`; `room` and h are work memory.
pub fn reduced_hessian(
    k: &[f64],
    z: &[f64],
    n: usize,
    d: usize,
    room: &mut [f64],
    h: &mut [f64],
    vectors: &mut [f64],
) -> Option<Hessian>
    requires { (n ≤ Sizes.originals)
        × (d ≤ n)
        × (n * n ≤ length k.now)
        × (n * d ≤ length z.now)
        × (n * n ≤ length room.old)
        × (n * n ≤ length h.old)
        × (n * n ≤ length vectors.old) }
    ensures { Definition.hessian_of d result vectors.new ≡ Definition.reduced_hessian n d k.now z.now }
{
    let mut values = [0.0; sizes::VARIABLES];
    let square = d * d;
    projected(k, z, n, d, room, h);
    if !eigen::symmetric_eigen(
        &mut h[..square],
        d,
        &mut room[..square],
        &mut values[..d],
        &mut vectors[..square],
    ) {
        return None;
    }
    let cutoff = cutoff(&values[..d], k, n, d);
    Some(Hessian { values, cutoff })
}

// v + w (w·gradient / value), for the eigenvector w of number j.
fn range_one(values: &[f64], vectors: &[f64], d: usize, gradient: &[f64], j: usize, v: &mut [f64])
    requires { (d ≤ length values.now)
        × (d * d ≤ length vectors.now)
        × (d ≤ length gradient.now)
        × (j < d)
        × (length v.old ≡ d) }
    ensures { v.new
        ≡ Definition.range_one d values.now vectors.now gradient.now j v.old }
{
    let w = columns::column(vectors, d, d, j);
    vector::add_scaled(v, d, w, reductions::dot(w, gradient, d) / values[j]);
}

// The same for each eigenvector that `range` numbers.
fn range_each(
    values: &[f64],
    vectors: &[f64],
    d: usize,
    gradient: &[f64],
    range: &[usize],
    v: &mut [f64],
)
    requires { (d ≤ length values.now)
        × (d * d ≤ length vectors.now)
        × (d ≤ length gradient.now)
        × Below (length range.now) range.now d
        × (length v.old ≡ d) }
    ensures { v.new
        ≡ Definition.range_each d values.now vectors.now gradient.now range.now v.old }
{
    for &j in range {
        range_one(values, vectors, d, gradient, j, v);
    }
}

// The step in the range of the reduced Hessian: over the eigenvalues above the cutoff.
pub fn range_part(
    values: &[f64],
    vectors: &[f64],
    d: usize,
    cutoff: f64,
    gradient: &[f64],
) -> [f64; sizes::VARIABLES]
    requires { (d ≤ Sizes.originals)
        × (d ≤ length values.now)
        × (d * d ≤ length vectors.now)
        × (d ≤ length gradient.now) }
    ensures { take d result
        ≡ Definition.range_part d values.now vectors.now cutoff gradient.now }
{
    let mut range = [0; sizes::VARIABLES];
    let mut v = [0.0; sizes::VARIABLES];
    let count = eigen::range(values, d, cutoff, &mut range);
    range_each(values, vectors, d, gradient, &range[..count], &mut v[..d]);
    v
}

// x0 + Zv
pub fn moved(x0: &[f64], z: &[f64], v: &[f64], n: usize, d: usize) -> [f64; sizes::VARIABLES]
    requires { (n ≤ Sizes.originals) × (n ≤ length x0.now) × (n * d ≤ length z.now) × (d ≤ length v.now) }
    ensures { take n result ≡ Definition.moved n d x0.now z.now v.now }
{
    let zv = dense::mul_vec(z, n, d, v);
    dense::add(x0, &zv[..n], n)
}
