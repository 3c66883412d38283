// `round_sweep` of object_mesh.rs: a tube through the ellipses inscribed in the sections, and a cap at
// each end. Each ellipse is computed once; two neighbouring ones and the first are held.

#![tactic(auto)]

mod ellipses;

ghost use Rattle.std.specs.Prelude.{◌≡◌, ◌+◌, ◌*◌, ◌≤◌, length};
ghost use Rattle.face.specs.Contract.Drawing.{CountableOn};
ghost use Rattle.scene_field.specs.Fields.{section_at, sections_at};
ghost use Rattle.shape.specs.Shapes.{ellipse};
ghost use Rattle.shape.specs.Contract.Stages.{round_stages, DrawsStages};

use crate::ellipses::{centre, inscribed, tube};
use coords::Point;
use face::Canvas;
use scene_point::section_at;
use shape::StageTallies;
use shape_ring_face::end;
use shape_section::ends::end_places;

fn centre_at(s: &[u8], i: usize) -> Point
    requires { i + 48 ≤ length s.now }
    ensures { result ≡ (ellipse (section_at s.now i)).centre }
{
    centre(section_at(s, i))
}

// The round sweep of the n sections from place `at` on: what was written and counted after the pairs
// and after the caps. No struct for `s`, `at` and `n`: it would be taken apart here at once.
pub fn round_sweep(canvas: &mut Canvas<'_>, s: &[u8], at: usize, n: usize) -> StageTallies
    requires { (at + 48 * n ≤ length s.now) × CountableOn canvas.old (64 * n) (32 * n) }
    ensures { DrawsStages (round_stages (sections_at s.now n at)) result canvas.old canvas.new }
{
    if n == 0 {
        return [canvas.tally; 6];
    }
    let first = inscribed(section_at(s, at));
    let mut a = first;
    for k in 1..n {
        let b = inscribed(section_at(s, at + 48 * k));
        tube(canvas, &a, &b);
        a = b;
    }
    let pairs = canvas.tally;
    let p = end_places(at, n);
    let start_out = first.centre - centre_at(s, p.second);
    let end_out = a.centre - centre_at(s, p.previous);
    end(canvas, &first.ring, start_out);
    end(canvas, &a.ring, end_out);
    let caps = canvas.tally;
    [pairs, pairs, pairs, caps, caps, caps]
}
