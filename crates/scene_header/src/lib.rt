// What a record of an accepted scene holds, read where it lies. Nothing is tested: the checking
// pass has done that, and past the end every byte counts as 0.

#![tactic(auto)]

pub mod hole_counts;

ghost use Rattle.std.specs.Prelude.{◌≡◌, ◌+◌, ◌≤◌, ◌<◌, ◌^◌, length};
ghost use Rattle.scene_field.specs.Fields.{u16_at, box_at, cylinder_at};
ghost use Rattle.scene.specs.declared.headers.Body.TheVariants.{Solid, Sweep};
ghost use Rattle.scene.specs.Contract.Headers.{solid_from, outline_from, volume_size, header_of, header_at};

use crate::hole_counts::sum_counts;
use object::Extent;
use scene::headers::{Body, Header, SolidAt};
use scene::kinds::Kind;
use scene::layout::{CORNER_BYTES, ORIENTATION_BYTES, POSITION_BYTES, SECTION_BYTES};
use scene_field::{u16_at, u32_at};
use scene_point::floats::f32_at;

// ---- a solid

// The two differ in the variant and in how many sizes they read: one generic function is no plainer.

fn box_at(s: &[u8], i: usize) -> Extent
    requires { i + 8 < 2 ^ 64 }
    ensures { result ≡ box_at s.now i }
{
    Extent::Box(f32_at(s, i), f32_at(s, i + 4), f32_at(s, i + 8))
}

fn cylinder_at(s: &[u8], i: usize) -> Extent
    requires { i + 4 < 2 ^ 64 }
    ensures { result ≡ cylinder_at s.now i }
{
    Extent::Cylinder(f32_at(s, i), f32_at(s, i + 4))
}

fn volume_size(x: Extent) -> usize
    ensures { (result ≡ volume_size x) × (result ≤ 12) }
{
    match x {
        Extent::Box(_, _, _) => 12,
        Extent::Cylinder(_, _) => 8,
        Extent::Unsized => 0,
    }
}

// A solid of these sizes; its position is at i.
fn solid_header(id: u32, i: usize, extent: Extent) -> Header
    requires { i + 60 < 2 ^ 64 }
    ensures { result ≡ header_of id (Solid (solid_from i extent)) }
{
    let before = POSITION_BYTES + ORIENTATION_BYTES;
    let p = SolidAt {
        position: i,
        orientation: i + POSITION_BYTES,
        sizes: i + before,
        extent,
    };
    Header {
        id,
        body: Body::Solid(p),
        size: 5 + (before + volume_size(extent)),
    }
}

// ---- an outline and a sweep, their counts at i

// `closed` and `round` stay flags: `outline_from` and `body_at` hold them.

fn outline_header(s: &[u8], id: u32, i: usize, closed: bool) -> Header
    requires { i + 4 < 2 ^ 64 }
    ensures { result ≡ header_of id (outline_from s.now i closed) }
{
    let outer = u16_at(s, i);
    let holes = u16_at(s, i + 2);
    let corners = (outer as u32) + (sum_counts(s, holes, i + 4) as u32);
    Header {
        id,
        body: Body::Outline {
            closed,
            outer,
            holes,
            corners,
        },
        size: 5 + (4 + 2 * (holes as usize) + CORNER_BYTES * (corners as usize)),
    }
}

fn sweep_header(s: &[u8], id: u32, i: usize, round: bool) -> Header
    ensures { result ≡ header_of id (Sweep round (u16_at s.now i)) }
{
    let sections = u16_at(s, i);
    Header {
        id,
        body: Body::Sweep { round, sections },
        size: 5 + (2 + SECTION_BYTES * (sections as usize)),
    }
}

// ---- a record

// The record that begins at i.
pub fn header_at(s: &[u8], i: usize) -> Header
    requires { i < length s.now }
    ensures { result ≡ header_at s.now i }
{
    let id = u32_at(s, i + 1);
    let body = i + 5;
    let sizes = body + (POSITION_BYTES + ORIENTATION_BYTES);
    // What is no kind reads as the last one.
    match Kind::try_from(s[i]).unwrap_or(Kind::RoundSweep) {
        Kind::Unsized => solid_header(id, body, Extent::Unsized),
        Kind::Box => solid_header(id, body, box_at(s, sizes)),
        Kind::Cylinder => solid_header(id, body, cylinder_at(s, sizes)),
        Kind::OpenOutline => outline_header(s, id, body, false),
        Kind::ClosedOutline => outline_header(s, id, body, true),
        Kind::Sweep => sweep_header(s, id, body, false),
        Kind::RoundSweep => sweep_header(s, id, body, true),
    }
}
