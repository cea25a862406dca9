// qp.rs: `checked`, `Units` and `diagonal_scales`. K is n by n, E is n by m, with up to 48 variables and 24 columns.
#![tactic(auto)]

ghost use Rattle.std.specs.Prelude.{◌≡◌, ◌≤◌, ◌<◌, ◌*◌, length, take};
ghost use Rattle.folds.specs.Fold.{over};
ghost use Rattle.sizes.specs.Sizes as Sizes;
ghost use Rattle.units.specs.Units as Units;

fn write_terms(e: &[f64], x: &[f64], n: usize, scale: f64, y: &mut [f64])
    requires { (n ≤ length e.now) × (n ≤ length x.now) × (n ≤ length y.old) }
    ensures { y.new ≡ over (Units.terms n e.now x.now scale) y.old }
{
    vector::write_each(y, n, |i, _| e[i] / scale * x[i]);
}

// The terms of a constraint, over its column's scale; e is the column.
fn terms(e: &[f64], x: &[f64], n: usize, scale: f64) -> [f64; sizes::VARIABLES]
    requires { (n ≤ Sizes.variables) × (n ≤ length e.now) × (n ≤ length x.now) }
    ensures { take n result ≡ Units.terms n e.now x.now scale }
{
    let mut y = [0.0; sizes::VARIABLES];
    write_terms(e, x, n, scale, &mut y);
    y
}

fn sum_quotients(terms: &[f64], n: usize, by: f64) -> f64
    requires { n ≤ length terms.now }
    ensures { result ≡ Units.sum_quotients n terms.now by }
{
    terms[..n].iter().fold(0.0, |sum, t| sum + t / by)
}

fn sum_sizes(terms: &[f64], n: usize, by: f64) -> f64
    requires { n ≤ length terms.now }
    ensures { result ≡ Units.sum_sizes n terms.now by }
{
    terms[..n].iter().fold(0.0, |sum, t| sum + (t / by).abs())
}

// Whether the terms add up to the target, to within 1e-8 of their size.
fn meets(terms: &[f64], n: usize, target: f64, largest: f64) -> bool
    requires { n ≤ length terms.now }
    ensures { result ≡ Units.meets n terms.now target largest }
{
    let residual = sum_quotients(terms, n, largest) - target / largest;
    let size = sum_sizes(terms, n, largest) + arith::abs(target / largest);
    // A NaN entry, which `amax` skips over, leaves a NaN residual that no comparison fails.
    if arith::is_nan(residual) {
        return false;
    }
    if arith::abs(residual) > 1e-8 * size {
        return false;
    }
    true
}

// The same of a whole column: terms and a target of 0 meet, and an infinite one doesn't.
fn column_met(terms: &[f64], n: usize, target: f64) -> bool
    requires { n ≤ length terms.now }
    ensures { result ≡ Units.column_met n terms.now target }
{
    let largest = arith::max(reductions::amax(terms, n), arith::abs(target));
    if arith::is_finite(largest) {
        if largest == 0.0 {
            return true;
        }
        return meets(terms, n, target, largest);
    }
    false
}

fn met(x: &[f64], e: &[f64], n: usize, target: f64, scale: f64) -> bool
    requires { (n ≤ Sizes.variables) × (n ≤ length x.now) × (n ≤ length e.now) }
    ensures { result ≡ Units.met n x.now e.now target scale }
{
    let terms = terms(e, x, n, scale);
    column_met(&terms[..n], n, target / scale)
}

// Whether x satisfies Eᵀx = b in the original units; `columns` are the columns' scales.
pub fn checked(x: &[f64], e: &[f64], b: &[f64], columns: &[f64], n: usize, m: usize) -> bool
    requires { (n ≤ Sizes.variables) × (n ≤ length x.now) × (n * m ≤ length e.now) × (m ≤ length b.now) × (m ≤ length columns.now) }
    ensures { result ≡ Units.checked n m x.now e.now b.now columns.now }
{
    // By the column's number: the columns lie in one slice.
    for j in 0..m {
        if !met(x, columns::column(e, n, m, j), n, b[j], columns[j]) {
            return false;
        }
    }
    true
}

// s if it's finite and above 0, or 1.
pub fn scale_or_1(s: f64) -> f64
    ensures { result ≡ Units.scale_or1 s }
{
    if arith::is_finite(s) {
        if s > 0.0 {
            return s;
        }
    }
    1.0
}

fn scales_or_1(y: &mut [f64], n: usize)
    requires { n ≤ length y.old }
    ensures { y.new ≡ over (Units.scales_or1 n y.old) y.old }
{
    vector::write_each(y, n, |_, s| scale_or_1(s));
}

pub fn column_scales(e: &[f64], n: usize, m: usize) -> [f64; sizes::COLUMNS]
    requires { (m ≤ Sizes.columns) × (n * m ≤ length e.now) }
    ensures { take m result ≡ Units.column_scales n m e.now }
{
    let mut y = [0.0; sizes::COLUMNS];
    columns::columns_amax(e, n, m, &mut y);
    scales_or_1(&mut y, m);
    y
}

// K in units, in place; dividing by each scale in turn, so that tiny scales' product can't underflow.
pub fn units_k(k: &mut [f64], n: usize, scales: &[f64])
    requires { (n * n ≤ length k.old) × (n ≤ length scales.now) }
    ensures { k.new ≡ over (Units.units_k n k.old scales.now) k.old }
{
    matrix::divide_rows(k, n, n, scales);
    matrix::divide_columns(k, n, n, scales);
}

// E in units, in place; `columns` are the columns' scales.
pub fn units_e(e: &mut [f64], n: usize, m: usize, scales: &[f64], columns: &[f64])
    requires { (n * m ≤ length e.old) × (n ≤ length scales.now) × (m ≤ length columns.now) }
    ensures { e.new
        ≡ over (Units.units_e n m e.old scales.now columns.now) e.old }
{
    matrix::divide_columns(e, n, m, columns);
    matrix::divide_rows(e, n, m, scales);
}

fn diagonal_scale(k: &[f64], n: usize, i: usize) -> f64
    requires { (n * n ≤ length k.now) × (i < n) }
    ensures { result ≡ Units.diagonal_scale n k.now i }
{
    scale_or_1(root::sqrt(columns::get(k, n, n, i, i)))
}

fn write_diagonal_scales(k: &[f64], n: usize, y: &mut [f64])
    requires { (n * n ≤ length k.now) × (n ≤ length y.old) }
    ensures { y.new ≡ over (Units.diagonal_scales n k.now) y.old }
{
    vector::write_each(y, n, |i, _| diagonal_scale(k, n, i));
}

pub fn diagonal_scales(k: &[f64], n: usize) -> [f64; sizes::VARIABLES]
    requires { (n ≤ Sizes.variables) × (n * n ≤ length k.now) }
    ensures { take n result ≡ Units.diagonal_scales n k.now }
{
    let mut y = [0.0; sizes::VARIABLES];
    write_diagonal_scales(k, n, &mut y);
    y
}
