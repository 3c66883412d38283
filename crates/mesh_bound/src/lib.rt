// The most that one object can come to, told by the header of its record alone.

#![tactic(auto)]

ghost use Rattle.std.specs.Prelude.{◌≡◌, cond, ◌+◌, ◌-◌, ◌≤◌};
ghost use Rattle.std.specs.Float.Ieee.{lt};
ghost use Rattle.float.specs.Number.{zerof};
ghost use Rattle.scene_field.specs.Layout.{most_holes, most_corners, most_sections};
ghost use Rattle.mesh_bound.specs.Most.{of_shape, solid_most, outline_most, sweep_most, together};
ghost use Rattle.mesh_bound.specs.Contract.Groups.{FewOfBoth};

use object::Extent;
use std::ops::Add;

// The most vertices, triangles, spans and log entries.
#[derive(Clone, Copy)]
pub struct Most {
    pub vertices: u32,
    pub triangles: u32,
    pub spans: u32,
    pub entries: u32,
}

// All objects, those with lids, and the others: measuring a lid takes cutting it.
#[derive(Clone, Copy)]
pub enum Group {
    All,
    Lids,
    Others,
}

// Whether objects are measured, by drawing them, or counted at the most that their headers allow. This
// and `Group` are no closures: the theorems `groups_enough` and `both_groups` speak of each of them.
#[derive(Clone, Copy)]
pub enum Counting {
    Exact,
    Highest,
}

pub const NOTHING: Most = Most {
    vertices: 0,
    triangles: 0,
    spans: 0,
    entries: 0,
};

// What both groups of a scene's objects come to.
impl Add for Most {
    type Output = Most;

    ghost can_add = { λ a b. FewOfBoth (together a b) };

    ghost add_gives = { λ a b sum. sum ≡ together a b };

    fn add(self, other: Most) -> Most {
        Most {
            vertices: self.vertices + other.vertices,
            triangles: self.triangles + other.triangles,
            spans: self.spans + other.spans,
            entries: self.entries + other.entries,
        }
    }
}

// So many of one shape.
pub fn of_shape(vertices: u32, triangles: u32, entries: u32) -> Most
    ensures { result ≡ of_shape vertices triangles entries }
{
    let kept = triangles;
    Most {
        vertices,
        triangles,
        spans: if kept == 0 { 0 } else { 1 },
        entries,
    }
}

fn cylinder_most(height: f32) -> Most
    ensures { result ≡ of_shape (cond (lt zerof height) 96 80) (cond (lt zerof height) 60 46) 0 }
{
    if height > 0.0 {
        return of_shape(96, 60, 0);
    }
    of_shape(80, 46, 0)
}

#[tactic(auto, unfolding(crate::specs::Most::solid_most))]
pub fn solid_most(extent: Extent) -> Most
    ensures { result ≡ solid_most extent }
{
    match extent {
        Extent::Box(_, _, _) => of_shape(24, 12, 0),
        Extent::Cylinder(_, height) => cylinder_most(height),
        Extent::Unsized => of_shape(0, 0, 0),
    }
}

// Of outer corners, those of the holes, and holes.
#[tactic(auto, unfolding(crate::specs::Most::outline_most))]
pub fn outline_most(closed: bool, outer: u32, inner: u32, holes: u32) -> Most
    requires { (outer + inner ≤ most_corners) × (holes ≤ most_holes) }
    ensures { result ≡ outline_most closed outer inner holes }
{
    if closed {
        let n = outer + inner;
        let lid = (n + 2 * holes).saturating_sub(2);
        let entries = 1 + (n + 3 * holes).saturating_sub(1);
        return of_shape(6 * n, 2 * n + 2 * lid, entries);
    }
    let walls = outer.saturating_sub(1) + inner;
    of_shape(4 * walls, 2 * walls, 0)
}

#[tactic(auto, unfolding(crate::specs::Most::sweep_most))]
pub fn sweep_most(round: bool, sections: u32) -> Most
    requires { sections ≤ most_sections }
    ensures { result ≡ sweep_most round sections }
{
    if round {
        return of_shape(
            (64 * sections).saturating_sub(32),
            (32 * sections).saturating_sub(4),
            0,
        );
    }
    of_shape(
        (16 * sections).saturating_sub(8),
        (8 * sections).saturating_sub(4),
        0,
    )
}
