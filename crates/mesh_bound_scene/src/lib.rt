// The most that the objects of an accepted scene can come to, told by the headers of their records
// alone, and what they come to, measured. Objects with lids and those without can be summed apart:
// measuring lids takes far longer, and Build leaves it to last.

#![tactic(auto)]

ghost use Rattle.std.specs.Prelude.{◌≡◌, List, ℕ, Ok};
ghost use Rattle.object.specs.Object.{Object};
ghost use Rattle.scene_field.specs.Layout.{most_bytes, most_objects};
ghost use Rattle.scene.specs.Scene.{scene, accepted};
ghost use Rattle.scene.specs.Contract.Answers.{checked_of};
ghost use Rattle.scene.specs.Contract.Headers.{shape_of, Limits};
ghost use Rattle.shape.specs.Contract.Drawn.{CanDraw};
ghost use Rattle.mesh_bound.specs.Most.{most_of};
ghost use Rattle.mesh_bound.specs.Contract.Groups.{exact_of, has_lid, in_group, bound_in, bound_of_all, Few};

use face::{Canvas, Tally};
use mesh_bound::{Counting, Group, Most, NOTHING, of_shape, outline_most, solid_most, sweep_most};
use scene::headers::Body;
use scene_header::header_at;

// The most of the object whose record's body is at i.
fn most_at(s: &[u8], i: usize, body: Body) -> Most
    requires { Limits s.now i body }
    ensures { result ≡ most_of (shape_of s.now i body) }
{
    match body {
        Body::Solid(p) => solid_most(p.extent),
        Body::Outline {
            closed,
            outer,
            holes,
            corners,
        } => {
            let first = outer as u32;
            outline_most(closed, first, corners - first, holes as u32)
        }
        Body::Sweep { round, sections } => sweep_most(round, sections as u32),
    }
}

// What it comes to: drawn on a canvas without any room.
fn exact_at(s: &[u8], i: usize, body: Body, limit: f32) -> Most
    requires { CanDraw s.now i body 0 }
    ensures { result ≡ exact_of limit (shape_of s.now i body) }
{
    let mut vs = [0.0f32; 0];
    let mut ns = [0.0f32; 0];
    let mut is = [0u32; 0];
    let mut log = [0u32; 0];
    let mut canvas = Canvas {
        limit,
        before: 0,
        tally: Tally::NOTHING,
        vertices: &mut vs,
        normals: &mut ns,
        indices: &mut is,
    };
    let d = shape_draw::draw(&mut canvas, s, i, body, &mut log);
    let t = d.after[5];
    of_shape(t.vertices, t.kept, d.entries)
}

#[tactic(auto, unfolding(mesh_bound::specs::Contract::Groups::has_lid))]
fn has_lid(body: Body) -> bool
    ensures { (s : List ℕ) (i : ℕ) → result ≡ has_lid (shape_of s i body) }
{
    matches!(body, Body::Outline { closed: true, .. })
}

#[tactic(auto, unfolding(mesh_bound::specs::Contract::Groups::in_group))]
fn in_group(body: Body, group: Group) -> bool
    ensures { (s : List ℕ) (i : ℕ) → result ≡ in_group group (shape_of s i body) }
{
    match group {
        Group::All => true,
        Group::Lids => has_lid(body),
        Group::Others => !has_lid(body),
    }
}

// Nothing for an object that is not in the group.
#[tactic(auto, unfolding(mesh_bound::specs::Contract::Groups::bound_in, mesh_bound::specs::Contract::Groups::counted_by))]
fn bound_at(s: &[u8], i: usize, body: Body, limit: f32, group: Group, counting: Counting) -> Most
    requires { CanDraw s.now i body 0 }
    ensures { result ≡ bound_in group counting limit (shape_of s.now i body) }
{
    if !in_group(body, group) {
        return NOTHING;
    }
    match counting {
        Counting::Exact => exact_at(s, i, body, limit),
        Counting::Highest => most_at(s, i, body),
    }
}

// What those of the n objects that are in the group come to.
pub fn bound_of_all(s: &[u8], n: u32, limit: f32, group: Group, counting: Counting) -> Most
    requires { Ok n ≡ checked_of (scene s.now) }
    ensures { Few result most_bytes most_objects × ((os : List Object) → scene s.now ≡ accepted os → result ≡ bound_of_all group counting limit os) }
{
    let mut most = NOTHING;
    let mut at = 0;
    for _ in 0..n {
        let h = header_at(s, at);
        most = most + bound_at(s, at + 5, h.body, limit, group, counting);
        at += h.size;
    }
    most
}
