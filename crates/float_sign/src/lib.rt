// Signs, the larger of two numbers and their order, for every value.

#![tactic(auto)]

pub mod finite;

ghost use Rattle.std.specs.Prelude.{◌≡◌};
ghost use Rattle.float.specs.Signs.{magnitude, signum, larger, total_less};

// x without its sign.
pub fn abs(x: f32) -> f32
    ensures { result ≡ magnitude x }
{
    // `f32::abs` branches on the sign, and takes half as long again.
    if x != x {
        return x;
    }
    f32::from_bits(f32::to_bits(x) % 0x8000_0000)
}

// 1 for +0.0 and above, -1 for -0.0 and below, NaN for NaN.
pub fn signum(x: f32) -> f32
    ensures { result ≡ signum x }
{
    x.signum()
}

// The larger of two; the other where one is a NaN, and +0.0 where the two are unlike zeros, of which
// `f32::max` may give either.
pub fn max(x: f32, y: f32) -> f32
    ensures { result ≡ larger x y }
{
    if x.is_nan() {
        return y;
    }
    if y.is_nan() {
        return x;
    }
    if x < y {
        return y;
    }
    if y < x {
        return x;
    }
    if x.is_sign_positive() { x } else { y }
}

// Whether x comes before y where -0.0 stands below +0.0. A NaN comes before nothing, and nothing
// before it: `f32::total_cmp` takes none.
pub fn total_less(x: f32, y: f32) -> bool
    ensures { result ≡ total_less x y }
{
    if x == y {
        x.is_sign_negative() & y.is_sign_positive()
    } else {
        x < y
    }
}
