// The narrowing of an f64 to an f32, for every value: IEEE 754, to nearest, ties to even.

#![tactic(auto)]

ghost use Rattle.std.specs.Prelude.{◌≡◌, cond, ◌+◌, ◌^◌, ◌%◌, ◌≤◌, ◌<◌, leb};
ghost use Rattle.std.specs.Float.{binary32, binary64};
ghost use Rattle.std.specs.Float.Ieee.{of_bits};
ghost use Rattle.std.specs.Float.Ieee.Nearest.{closest};
ghost use Rattle.float.specs.Rounding.{convert};
ghost use Rattle.float.specs.Contract.Rounding.{significand, exponent};

// The digits of a finite number's pattern, with the leading one that a normal number leaves out,
// and how far they stand above the smallest value's.
fn significand64(b: u64) -> u64
    ensures { result ≡ significand binary64 b }
{
    if b % 0x8000_0000_0000_0000 < 0x10_0000_0000_0000 {
        b % 0x10_0000_0000_0000
    } else {
        0x10_0000_0000_0000 + b % 0x10_0000_0000_0000
    }
}

fn exponent64(b: u64) -> u64
    ensures { result ≡ exponent binary64 b }
{
    if b % 0x8000_0000_0000_0000 < 0x10_0000_0000_0000 {
        0
    } else {
        b % 0x8000_0000_0000_0000 / 0x10_0000_0000_0000 - 1
    }
}

// w / 2^d to the nearest whole number, a tie to the even one.
fn round_off(w: u64, d: u32) -> u64
    requires { (0 < d) × (d ≤ 64) }
    ensures { result ≡ closest w (2 ^ d) }
{
    let half = w >> (d - 1);
    if half % 2 == 0 {
        return half / 2;
    }
    if w == half << (d - 1) {
        return half / 2 + half / 2 % 2;
    }
    half / 2 + 1
}

// The bit pattern, without its sign, of the f32 nearest to the f64 whose pattern is b. Where the
// f32 is normal, the f64's pattern is rounded as a whole number, once the exponents' difference is
// taken off: a carry goes into the exponent.
fn narrow_bits(b: u64) -> u32
    requires { b % 0x8000_0000_0000_0000 ≤ 0x7ff0_0000_0000_0000 }
    ensures { (of_bits binary32 (cond (leb 0x8000_0000_0000_0000 b) 0x8000_0000 0 + result) ≡ convert binary32 (of_bits binary64 b)) × (result ≤ 0x7f80_0000) }
{
    let m = b % 0x8000_0000_0000_0000;
    if (0x3810_0000_0000_0000 <= m) & (m < 0x47f0_0000_0000_0000) {
        let w = m - 0x3800_0000_0000_0000;
        return ((w + 0xfff_ffff + w / 0x2000_0000 % 2) / 0x2000_0000) as u32;
    }
    other_bits(b)
}

// The same for any number, by cases.
fn other_bits(b: u64) -> u32
    requires { b % 0x8000_0000_0000_0000 ≤ 0x7ff0_0000_0000_0000 }
    ensures { (of_bits binary32 (cond (leb 0x8000_0000_0000_0000 b) 0x8000_0000 0 + result) ≡ convert binary32 (of_bits binary64 b)) × (result ≤ 0x7f80_0000) }
{
    let m = b % 0x8000_0000_0000_0000;
    if m == 0 {
        return 0;
    }
    if m == 0x7ff0_0000_0000_0000 {
        return 0x7f80_0000;
    }
    finite_bits(b)
}

// The same for a finite number that is not zero. `digits` is how many digits it has in units of
// the smallest f64, and 2^925 of those make the smallest f32.
fn finite_bits(b: u64) -> u32
    requires { (0 < b % 0x8000_0000_0000_0000) × (b % 0x8000_0000_0000_0000 < 0x7ff0_0000_0000_0000) }
    ensures { (of_bits binary32 (cond (leb 0x8000_0000_0000_0000 b) 0x8000_0000 0 + result) ≡ convert binary32 (of_bits binary64 b)) × (result ≤ 0x7f80_0000) }
{
    let sig = significand64(b);
    let z = u64::leading_zeros(sig);
    let top = sig << z;
    let digits = exponent64(b) + 64 - (z as u64);
    if digits < 925 {
        return 0;
    }
    if digits < 949 {
        return round_off(top, (989 - digits) as u32) as u32;
    }
    let p = (digits - 949) * 0x80_0000 + round_off(top, 40);
    if p < 0x7f80_0000 {
        p as u32
    } else {
        0x7f80_0000
    }
}

// x as an f32, rounded once. It is the program's own, which counts leading zeros, and not std's
// `nearest_f64_to_f32_with_nan`: a rule of the project.
pub fn narrow(x: f64) -> f32
    ensures { result ≡ convert binary32 x }
{
    if x.is_nan() {
        return f32::NAN;
    }
    let b = f64::to_bits(x);
    let sign = (b / 0x8000_0000_0000_0000 * 0x8000_0000) as u32;
    f32::from_bits(sign + narrow_bits(b))
}
