// The nearest whole number of an `f64`, worked out from its bits.
#![tactic(auto)]

ghost use Rattle.std.specs.Prelude.{◌≡◌, true, ◌+◌, ◌*◌, ◌^◌, ◌≤◌, ◌<◌, pos};
ghost use Rattle.root.specs.Scaled.{magnitude};
ghost use Rattle.nearest.specs.Whole.{even};
ghost use Rattle.nearest.specs.Value.{one};
ghost use Rattle.nearest.specs.Nearest as Definition;
ghost use Rattle.nearest.specs.Reach as Reach;

use arith::is_finite;

// q or q + 1, the nearer one to q + r / (2 * half); of a half the even one.
fn nearer(q: u64, r: u64, half: u64) -> u64
    requires { (q < 2 ^ 53) × (r < 2 * half) }
    ensures { pos result ≡ even (pos (q * (2 * half) + r)) (2 * half) }
{
    if r < half {
        return q;
    }
    if half < r {
        return q + 1;
    }
    q + q % 2
}

// The nearest whole number to d / 2^k.
fn shifted(d: u64, k: u64) -> u64
    requires { (d < 2 ^ 53) × (0 < k) × (k ≤ 53) }
    ensures { pos result ≡ even (pos d) (2 ^ k) }
{
    let half: u64 = 1 << (k - 1);
    let u = half * 2;
    nearer(d / u, d % u, half)
}

// The nearest whole number to the float of the pattern b, whose sign is clear.
fn of_pattern(b: u64) -> u64
    requires { b < 1076 * 2 ^ 52 }
    ensures { pos result ≡ even (pos (magnitude b)) one }
{
    let e = b >> 52;
    if e < 1022 {
        return 0;
    }
    let d = b % 0x10_0000_0000_0000 + 0x10_0000_0000_0000;
    if e < 1075 {
        return shifted(d, 1075 - e);
    }
    d
}

// The nearest whole number, halves to even.
fn whole(x: f64) -> i64
    requires { Reach.in_reach x ≡ true }
    ensures { result ≡ Definition.nearest x }
{
    let b = f64::to_bits(x);
    let n = of_pattern(b % 0x8000_0000_0000_0000) as i64;
    if b >= 0x8000_0000_0000_0000 {
        return -n;
    }
    n
}

// The nearest whole number, halves to even; None where x is no number below 2^53 in size.
pub fn nearest(x: f64) -> Option<i64>
    ensures { result ≡ Reach.rounded x }
{
    if !is_finite(x) {
        return None;
    }
    if !(-9007199254740992.0 < x) {
        return None;
    }
    if !(x < 9007199254740992.0) {
        return None;
    }
    Some(whole(x))
}
