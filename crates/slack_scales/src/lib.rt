// qp.rs, `scales_with_slacks` and `slack_scale`: the scales of the variables, then of the slacks, one for each row. n originals and r rows; Q with
// the slacks is n + r by n + r, the rows' a is n by r.
#![tactic(auto)]

ghost use Rattle.std.specs.Prelude.{◌≡◌, ◌+◌, ◌≤◌, ◌*◌, length, take};
ghost use Rattle.folds.specs.Fold.{over};
ghost use Rattle.sizes.specs.Sizes as Sizes;
ghost use Rattle.slack_scales.specs.SlackScales as SlackScales;

// The smaller of the scales, passing over an entry of 0.
fn smaller(scale: f64, s: f64, a: f64) -> f64
    ensures { result ≡ SlackScales.smaller scale s a }
{
    if a == 0.0 {
        return scale;
    }
    arith::min(scale, s / arith::abs(a))
}

// The scale of the slack of a row, of which a are the entries.
pub fn slack_scale(scales: &[f64], a: &[f64], n: usize) -> f64
    requires { (n ≤ length scales.now) × (n ≤ length a.now) }
    ensures { result ≡ SlackScales.slack_scale n scales.now a.now }
{
    let mut scale = arith::infinity();
    for i in 0..n {
        scale = smaller(scale, scales[i], a[i]);
    }
    units::scale_or_1(scale)
}

fn slack_scales(scales: &[f64], a: &[f64], n: usize, r: usize, y: &mut [f64])
    requires { (n ≤ length scales.now) × (n * r ≤ length a.now) × (r ≤ length y.old) }
    ensures { y.new ≡ over (SlackScales.slack_scales n r scales.now a.now) y.old }
{
    // By the column's number: the columns lie in one slice.
    for j in 0..r {
        y[j] = slack_scale(scales, columns::column(a, n, r, j), n);
    }
}

// The scales of the variables, then of the slacks; q is Q with the slacks' zeros.
pub fn scales_with_slacks(q: &[f64], a: &[f64], n: usize, r: usize) -> [f64; sizes::VARIABLES]
    requires { (n ≤ Sizes.originals)
        × (r ≤ Sizes.rows)
        × ((n + r) * (n + r) ≤ length q.now)
        × (n * r ≤ length a.now) }
    ensures { take (n + r) result ≡ SlackScales.scales_with_slacks n r q.now a.now }
{
    let diagonal = units::diagonal_scales(q, n + r);
    let mut scales = [0.0; sizes::VARIABLES];
    vector::copy(&diagonal, n, &mut scales);
    slack_scales(&diagonal, a, n, r, &mut scales[n..]);
    scales
}
