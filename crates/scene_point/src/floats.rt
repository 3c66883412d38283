// Floats at a place of the scene's bytes, little-endian.
ghost use Rattle.std.specs.Prelude.{◌≡◌, ◌+◌, ◌≤◌, length};
ghost use Rattle.scene_field.specs.Fields.{f32_at, f64_at};

use scene_field::{u32_at, u32_in, u64_in};
use std::num::{f32_from_bits_with_nan, f64_from_bits_with_nan};

// ---- where the bytes are there

#[tactic(auto, unfolding(scene_field::specs::Fields::f32_at))]
pub(crate) fn f32_in(s: &[u8], i: usize) -> f32
    requires { i + 4 ≤ length s.now }
    ensures { result ≡ f32_at s.now i }
{
    f32_from_bits_with_nan(u32_in(s, i))
}

#[tactic(auto, unfolding(scene_field::specs::Fields::f64_at))]
pub(crate) fn f64_in(s: &[u8], i: usize) -> f64
    requires { i + 8 ≤ length s.now }
    ensures { result ≡ f64_at s.now i }
{
    f64_from_bits_with_nan(u64_in(s, i))
}

// ---- anywhere: past the end every byte counts as 0, as it does for `get_or`

#[tactic(auto, unfolding(scene_field::specs::Fields::f32_at))]
pub fn f32_at(s: &[u8], i: usize) -> f32
    ensures { result ≡ f32_at s.now i }
{
    f32_from_bits_with_nan(u32_at(s, i))
}
