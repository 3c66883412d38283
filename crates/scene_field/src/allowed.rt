// The numbers that a scene may hold, told by their bits.
ghost use Rattle.std.specs.Prelude.{◌≡◌, ◌&&◌, ◌+◌, ◌*◌, ◌≤◌, length};
ghost use Rattle.std.specs.Float.{binary32, binary64};
ghost use Rattle.std.specs.Float.Ieee.{of_bits};
ghost use Rattle.float.specs.Number.{allowed32, allowed64};
ghost use Rattle.scene_field.specs.Fields.{f64_at, all32, all64};

use crate::{u32_in, u64_in};

// A comparison each, of bits in place of floats so that the loop over them has no branch for NaN; a generic one needs a trait
// for the two constants and is no plainer.

// Magnitude at most 16,777,216; the patterns of infinities and NaNs are larger.
fn is_allowed32(b: u32) -> bool
    ensures { result ≡ allowed32 (of_bits binary32 b) }
{
    b % 0x8000_0000 <= 0x4b80_0000
}

// Magnitude at most 1.
fn is_allowed64(b: u64) -> bool
    ensures { result ≡ allowed64 (of_bits binary64 b) }
{
    b % 0x8000_0000_0000_0000 <= 0x3ff0_0000_0000_0000
}

// Whether the n f32 from place i on are allowed.
pub fn all_allowed32(s: &[u8], n: usize, i: usize) -> bool
    requires { i + 4 * n ≤ length s.now }
    ensures { result ≡ all32 s.now n i }
{
    for k in 0..n {
        if !is_allowed32(u32_in(s, i + 4 * k)) {
            return false;
        }
    }
    true
}

// A sine and a cosine.
fn pair_allowed(s: &[u8], i: usize) -> bool
    requires { i + 16 ≤ length s.now }
    ensures { result ≡ (allowed64 (f64_at s.now i) && allowed64 (f64_at s.now (i + 8))) }
{
    is_allowed64(u64_in(s, i)) & is_allowed64(u64_in(s, i + 8))
}

// The six of a solid's orientation.
pub fn orientation_allowed(s: &[u8], i: usize) -> bool
    requires { i + 48 ≤ length s.now }
    ensures { result ≡ all64 s.now 6 i }
{
    pair_allowed(s, i) & pair_allowed(s, i + 16) & pair_allowed(s, i + 32)
}
