// Points, corners, sections and orientations at a place of the scene's bytes, where the bytes are there.

#![tactic(auto)]

pub mod floats;

ghost use Rattle.std.specs.Prelude.{◌≡◌, ◌+◌, ◌≤◌, length};
ghost use Rattle.scene_field.specs.Fields.{point_at, corner_at, section_at, pair_at, orientation_at};

use crate::floats::{f32_in, f64_in};
use coords::Point;
use object::{Corner, Orientation, Pair, Section};

#[tactic(auto, unfolding(scene_field::specs::Fields::point_at))]
pub fn point_at(s: &[u8], i: usize) -> Point
    requires { i + 12 ≤ length s.now }
    ensures { result ≡ point_at s.now i }
{
    Point {
        x: f32_in(s, i),
        y: f32_in(s, i + 4),
        z: f32_in(s, i + 8),
    }
}

#[tactic(auto, unfolding(scene_field::specs::Fields::corner_at))]
pub fn corner_at(s: &[u8], i: usize) -> Corner
    requires { i + 24 ≤ length s.now }
    ensures { result ≡ corner_at s.now i }
{
    Corner {
        base: point_at(s, i),
        top: point_at(s, i + 12),
    }
}

#[tactic(auto, unfolding(scene_field::specs::Fields::section_at))]
pub fn section_at(s: &[u8], i: usize) -> Section
    requires { i + 48 ≤ length s.now }
    ensures { result ≡ section_at s.now i }
{
    Section {
        left: corner_at(s, i),
        right: corner_at(s, i + 24),
    }
}

#[tactic(auto, unfolding(scene_field::specs::Fields::pair_at))]
fn pair_at(s: &[u8], i: usize) -> Pair
    requires { i + 16 ≤ length s.now }
    ensures { result ≡ pair_at s.now i }
{
    Pair {
        sin: f64_in(s, i),
        cos: f64_in(s, i + 8),
    }
}

#[tactic(auto, unfolding(scene_field::specs::Fields::orientation_at))]
pub fn orientation_at(s: &[u8], i: usize) -> Orientation
    requires { i + 48 ≤ length s.now }
    ensures { result ≡ orientation_at s.now i }
{
    Orientation {
        heading: pair_at(s, i),
        pitch: pair_at(s, i + 16),
        roll: pair_at(s, i + 32),
    }
}
