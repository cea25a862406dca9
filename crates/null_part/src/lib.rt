// qp.rs, `descent_ray`: the part of c in the null space of the reduced Hessian, of the basis Z, n by d, with n up to 32.
#![tactic(auto)]

ghost use Rattle.std.specs.Prelude.{◌≡◌, ◌≤◌, ◌<◌, ◌*◌, length, take};
ghost use Rattle.sizes.specs.Sizes as Sizes;
ghost use Rattle.vector.specs.Vector.{Below};
ghost use Rattle.null_part.specs.NullPart as NullPart;

// direction + v (v·c), with v = Zw for the eigenvector w of number j.
fn null_one(
    z: &[f64],
    vectors: &[f64],
    c: &[f64],
    n: usize,
    d: usize,
    j: usize,
    direction: &mut [f64],
)
    requires { (n ≤ Sizes.originals)
        × (n * d ≤ length z.now)
        × (d * d ≤ length vectors.now)
        × (n ≤ length c.now)
        × (j < d)
        × (length direction.old ≡ n) }
    ensures { direction.new
        ≡ NullPart.null_one n d z.now vectors.now c.now j direction.old }
{
    let w = columns::column(vectors, d, d, j);
    let v = dense::mul_vec(z, n, d, w);
    let along = reductions::dot(&v[..n], c, n);
    vector::add_scaled(direction, n, &v[..n], along);
}

// The same for each eigenvector that `null` numbers.
fn null_each(
    z: &[f64],
    vectors: &[f64],
    c: &[f64],
    n: usize,
    d: usize,
    null: &[usize],
    direction: &mut [f64],
)
    requires { (n ≤ Sizes.originals)
        × (n * d ≤ length z.now)
        × (d * d ≤ length vectors.now)
        × (n ≤ length c.now)
        × Below (length null.now) null.now d
        × (length direction.old ≡ n) }
    ensures { direction.new
        ≡ NullPart.null_each n d z.now vectors.now c.now null.now direction.old }
{
    for &j in null {
        null_one(z, vectors, c, n, d, j, direction);
    }
}

// c's part along the eigenvectors whose values are not above the cutoff.
pub fn null_part(
    values: &[f64],
    vectors: &[f64],
    cutoff: f64,
    z: &[f64],
    c: &[f64],
    n: usize,
    d: usize,
) -> [f64; sizes::VARIABLES]
    requires { (n ≤ Sizes.originals)
        × (d ≤ n)
        × (d ≤ length values.now)
        × (d * d ≤ length vectors.now)
        × (n * d ≤ length z.now)
        × (n ≤ length c.now) }
    ensures { take n result
        ≡ NullPart.null_part n d values.now vectors.now cutoff z.now c.now }
{
    let mut null = [0; sizes::VARIABLES];
    let mut direction = [0.0; sizes::VARIABLES];
    let count = eigen::null(values, d, cutoff, &mut null);
    null_each(z, vectors, c, n, d, &null[..count], &mut direction[..n]);
    direction
}
