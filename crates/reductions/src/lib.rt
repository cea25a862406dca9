// What a vector comes to: its sums, norms and largest element. A vector is a slice, of which the first n elements count.
#![tactic(auto)]

ghost use Rattle.std.specs.Prelude.{◌≡◌, ◌≤◌, length};
ghost use Rattle.reductions.specs.Reductions as Reductions;

pub fn dot(a: &[f64], b: &[f64], n: usize) -> f64
    requires { (n ≤ length a.now) × (n ≤ length b.now) }
    ensures { result ≡ Reductions.dot n a.now b.now }
{
    let mut sum = 0.0;
    for (x, y) in a[..n].iter().zip(&b[..n]) {
        sum += x * y;
    }
    sum
}

pub fn sum_squares(a: &[f64], n: usize) -> f64
    requires { n ≤ length a.now }
    ensures { result ≡ Reductions.sum_squares n a.now }
{
    a[..n].iter().fold(0.0, |sum, x| sum + x * x)
}

// The library's `norm()`.
pub fn norm(a: &[f64], n: usize) -> f64
    requires { n ≤ length a.now }
    ensures { result ≡ Reductions.norm n a.now }
{
    root::sqrt(sum_squares(a, n))
}

pub fn amax(a: &[f64], n: usize) -> f64
    requires { n ≤ length a.now }
    ensures { result ≡ Reductions.amax n a.now }
{
    let mut largest = 0.0;
    for x in &a[..n] {
        let size = x.abs();
        // `max`, since largest is never NaN.
        if largest < size {
            largest = size;
        }
    }
    largest
}

pub fn any_nan(a: &[f64], n: usize) -> bool
    requires { n ≤ length a.now }
    ensures { result ≡ Reductions.any_nan n a.now }
{
    for x in &a[..n] {
        if x.is_nan() {
            return true;
        }
    }
    false
}

pub fn all_finite(a: &[f64], n: usize) -> bool
    requires { n ≤ length a.now }
    ensures { result ≡ Reductions.all_finite n a.now }
{
    for x in &a[..n] {
        if !x.is_finite() {
            return false;
        }
    }
    true
}

fn quotient_squares(a: &[f64], n: usize, by: f64) -> f64
    requires { n ≤ length a.now }
    ensures { result ≡ Reductions.quotient_squares n a.now by }
{
    a[..n].iter().fold(0.0, |sum, x| sum + (x / by) * (x / by))
}

// qp.rs's `norm`, computed over the largest element so that squaring doesn't overflow.
pub fn scaled_norm(a: &[f64], n: usize) -> f64
    requires { n ≤ length a.now }
    ensures { result ≡ Reductions.scaled_norm n a.now }
{
    if any_nan(a, n) {
        return arith::nan();
    }
    let largest = amax(a, n);
    if largest == 0.0 {
        return largest;
    }
    if largest.is_infinite() {
        return largest;
    }
    largest * root::sqrt(quotient_squares(a, n, largest))
}

pub fn total_abs(a: &[f64], n: usize) -> f64
    requires { n ≤ length a.now }
    ensures { result ≡ Reductions.total_abs n a.now }
{
    a[..n].iter().fold(0.0, |sum, x| sum + x.abs())
}
