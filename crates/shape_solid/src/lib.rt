// A solid drawn from its record: a box, a cylinder, or nothing where it has no size.

#![tactic(auto)]

ghost use Rattle.std.specs.Prelude.{◌≡◌};
ghost use Rattle.scene_field.specs.Fields.{point_at};
ghost use Rattle.scene.specs.Contract.Headers.{orientation_of, SolidIn};
ghost use Rattle.face.specs.Contract.Drawing.{CountableOn};
ghost use Rattle.shape.specs.Contract.Stages.{solid_stages, DrawsStages};

use face::Canvas;
use object::{Extent, Orientation};
use scene::headers::SolidAt;
use shape::StageTallies;
use shape_box::cuboid;
use shape_cylinder::cylinder;

// The orientation of a solid: nothing else reads it.
fn orientation_of(s: &[u8], p: SolidAt) -> Orientation
    requires { SolidIn s.now p }
    ensures { result ≡ orientation_of s.now p }
{
    scene_point::orientation_at(s, p.orientation)
}

// A solid where it stands in the scene's bytes: what was written and counted after each stage.
#[tactic(auto, unfolding(shape::specs::Contract::Stages::solid_stages))]
pub fn solid(canvas: &mut Canvas<'_>, s: &[u8], p: SolidAt) -> StageTallies
    requires { SolidIn s.now p × CountableOn canvas.old 96 60 }
    ensures { DrawsStages (solid_stages (point_at s.now p.position) (orientation_of s.now p) p.extent) result canvas.old canvas.new }
{
    let origin = scene_point::point_at(s, p.position);
    let turn = orientation_of(s, p);
    let extent = p.extent;
    match extent {
        Extent::Box(length, width, height) => cuboid(canvas, origin, turn, length, width, height),
        Extent::Cylinder(radius, height) => cylinder(canvas, origin, turn, radius, height),
        Extent::Unsized => [canvas.tally; 6],
    }
}
