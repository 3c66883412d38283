// The correctly rounded square root of an f32, for every value: IEEE 754, to nearest, ties to even.

#![tactic(auto)]

ghost use Rattle.std.specs.Prelude.{◌≡◌, ◌+◌, ◌*◌, ◌/◌, ◌%◌, ◌^◌, ◌<◌};
ghost use Rattle.std.specs.Float.{binary32};
ghost use Rattle.std.specs.Float.Ieee.{of_bits};
ghost use Rattle.float.specs.Rounding.{root, square_root};

// A number near the root of top * 2^(17 + odd): only its range is promised. t is a quarter of that
// number, made from its digits, and a a polynomial in t that is within 1 part in 15,000 of t's root;
// a step of Heron's method then gives twice the root of t.
fn root_guess(top: u32, odd: u32) -> u64
    requires { odd < 2 }
    ensures { result < 2 ^ 26 }
{
    let digits = (top % 0x8000_0000) as u64 * 0x20_0000;
    let t = f64::from_bits((1069 + odd as u64) * 0x10_0000_0000_0000 + digits);
    let q = t * t;
    let a = (2881822.39232 + 1.03785038e-7 * t)
        + (1.859971659e-36 * t - 4.743655555e-22) * q
        + (3.868663852e-66 * t - 4.14960192e-51) * (q * q);
    // The sum's last digit is worth 1, so its digits' field is the guess rounded.
    let y = (a + t / a) + 4503599627370495.5;
    if y.is_nan() {
        return 0;
    }
    f64::to_bits(y) % 0x400_0000
}

// The whole square root: the guess, put right by whole steps. It needs one or none, where `u64::isqrt`
// halves a range 32 times.
fn whole_root(n: u64, guess: u64) -> u64
    requires { (n < 2 ^ 50) × (guess < 2 ^ 26) }
    ensures { result ≡ root n }
{
    let mut r = guess;
    while n < r * r {
        r -= 1;
    }
    while (r + 1) * (r + 1) <= n {
        r += 1;
    }
    r
}

// The bit pattern of the root of top * 2^(v - 281), where the highest of top's 32 digits is set.
fn rounded_root(top: u32, v: u32) -> u32
    requires { v < 386 }
    ensures { result ≡ (v / 2 + 1) * 0x80_0000 + (root (top * 2 ^ (17 + v % 2)) + 1) / 2 }
{
    let odd = v % 2;
    let r = whole_root((top as u64) << (17 + odd), root_guess(top, odd));
    (v / 2 + 1) * 0x80_0000 + ((r + 1) / 2) as u32
}

// The bit pattern of the root of the finite number above zero whose pattern is b. A subnormal number
// is shifted up by its leading zeros; any other has eight.
fn root_bits(b: u32) -> u32
    requires { (0 < b) × (b < 0x7f80_0000) }
    ensures { (of_bits binary32 result ≡ square_root binary32 (of_bits binary32 b)) × (result < 0x7f80_0000) }
{
    if b < 0x80_0000 {
        let z = u32::leading_zeros(b);
        return rounded_root(b << z, 132 - z);
    }
    rounded_root((0x80_0000 + b % 0x80_0000) * 256, b / 0x80_0000 + 123)
}

// The square root of x, rounded once. It is the program's own, which shifts a subnormal number up by
// its leading zeros, and not `f32::sqrt`: a rule of the project.
pub fn sqrt(x: f32) -> f32
    ensures { result ≡ square_root binary32 x }
{
    if x.is_nan() {
        return x;
    }
    let b = f32::to_bits(x);
    if (0x80_0000 <= b) & (b < 0x7f80_0000) {
        return f32::from_bits(root_bits(b));
    }
    if b % 0x8000_0000 == 0 {
        return x;
    }
    if 0x8000_0000 <= b {
        return f32::NAN;
    }
    if b == 0x7f80_0000 {
        return x;
    }
    f32::from_bits(root_bits(b))
}
