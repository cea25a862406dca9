// Scalars: what Rust has as methods of f64.
#![tactic(auto)]

ghost use Rattle.std.specs.Prelude.{◌≡◌, is_nan};
ghost use Rattle.std.specs.Float.{nan as nan_value};
ghost use Rattle.arith.specs.Float.{fromℕ, infinity as infinity_value};
ghost use Rattle.arith.specs.Scalar as Scalar;

pub const EPSILON: f64 = f64::EPSILON;

pub fn infinity() -> f64
    ensures { result ≡ infinity_value }
{
    f64::INFINITY
}

pub fn nan() -> f64
    ensures { result ≡ nan_value }
{
    f64::NAN
}

pub fn is_nan(x: f64) -> bool
    ensures { result ≡ is_nan x }
{
    x.is_nan()
}

pub fn is_finite(x: f64) -> bool
    ensures { result ≡ Scalar.is_finite x }
{
    x.is_finite()
}

pub fn is_infinite(x: f64) -> bool
    ensures { result ≡ Scalar.is_infinite x }
{
    x.is_infinite()
}

// The sign bit; false for a NaN, whose bits say nothing.
pub fn is_negative(x: f64) -> bool
    ensures { result ≡ Scalar.negative x }
{
    if x.is_nan() {
        return false;
    }
    x.is_sign_negative()
}

pub fn abs(x: f64) -> f64
    ensures { result ≡ Scalar.abs x }
{
    x.abs()
}

pub fn signum(x: f64) -> f64
    ensures { result ≡ Scalar.signum x }
{
    x.signum()
}

// Not the method, which asks for min ≤ max.
pub fn clamp(x: f64, min: f64, max: f64) -> f64
    ensures { result ≡ Scalar.clamp x min max }
{
    if x < min {
        return min;
    }
    if x > max {
        return max;
    }
    x
}

// Not the method, which leaves open which of two zeros it gives; `min` too.
pub fn max(a: f64, b: f64) -> f64
    ensures { result ≡ Scalar.max a b }
{
    if a.is_nan() {
        return b;
    }
    if a < b {
        return b;
    }
    a
}

pub fn min(a: f64, b: f64) -> f64
    ensures { result ≡ Scalar.min a b }
{
    if a.is_nan() {
        return b;
    }
    if b < a {
        return b;
    }
    a
}

// Whether `a.total_cmp(&b)` is Less, with every NaN equal to every other and above +infinity.
pub fn total_less(a: f64, b: f64) -> bool
    ensures { result ≡ Scalar.total_less a b }
{
    if b.is_nan() {
        return !a.is_nan();
    }
    if a.is_nan() {
        return false;
    }
    a.total_cmp(&b).is_lt()
}

// n as f64.
pub fn from_usize(n: usize) -> f64
    ensures { result ≡ fromℕ n }
{
    std::num::nearest_usize_to_f64(n)
}
