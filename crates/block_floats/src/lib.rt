// The whole numbers of a block, as floats: each exactly.
#![tactic(auto)]

ghost use Rattle.std.specs.Prelude.{◌≡◌};
ghost use Rattle.ints.specs.Bound.{◌≼◌};
ghost use Rattle.nearest.specs.Value.{fromℤ};

// z as a float, exactly.
pub fn whole(z: i64) -> f64
    requires { z ≼ 8388608 }
    ensures { result ≡ fromℤ z }
{
    z as f64
}
