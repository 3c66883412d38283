// One object, drawn from its record's place in the scene's bytes.

#![tactic(auto)]

ghost use Rattle.std.specs.Prelude.{◌≡◌, ◌+◌, ◌*◌, ◌≤◌, ◌<◌, ◌^◌, length};
ghost use Rattle.scene_field.specs.Layout.{most_sections, section_bytes};
ghost use Rattle.scene.specs.Contract.Headers.{sections_shape, shape_of};
ghost use Rattle.shape.specs.Contract.Drawn.{CanDraw, DrawsObject, DrawsUnlogged};
ghost use Rattle.shape.specs.Contract.Stages.{first_of};

use face::{Canvas, Tally};
use object::Extent;
use scene::headers::Body;
use shape::Drawn;
use shape_outline::outline;
use shape_price::solid::solid_price;
use shape_price::sweep::{round_sweep_price, sweep_price};
use shape_round_sweep::round_sweep;
use shape_solid::solid;
use shape_sweep::sweep;

// n sections at `at`, as a sweep or a round one: they have no log, so what is drawn holds of any.
fn draw_sections(canvas: &mut Canvas<'_>, s: &[u8], at: usize, round: bool, n: usize) -> Drawn
    requires { (at + section_bytes * n ≤ length s.now) × (n ≤ most_sections) × (3 * canvas.old.before < 2 ^ 32) }
    ensures { DrawsUnlogged (sections_shape s.now at round n) result canvas.old canvas.new }
{
    canvas.tally = Tally::NOTHING;
    if round {
        let after = round_sweep(canvas, s, at, n);
        return Drawn {
            first: 1,
            after,
            offered: round_sweep_price(n),
            entries: 0,
        };
    }
    let after = sweep(canvas, s, at, n);
    Drawn {
        first: 1,
        after,
        offered: sweep_price(s, at, n),
        entries: 0,
    }
}

// The part of a solid's first stage: a box's faces are numbered from 11 on.
fn first_part(extent: Extent) -> u32
    ensures { result ≡ first_of extent }
{
    match extent {
        Extent::Box(_, _, _) => 11,
        Extent::Cylinder(_, _) => 1,
        Extent::Unsized => 1,
    }
}

// The object whose record's body is at i, drawn from the start of the canvas, with its log.
pub fn draw(canvas: &mut Canvas<'_>, s: &[u8], i: usize, body: Body, log: &mut [u32]) -> Drawn
    requires { CanDraw s.now i body canvas.old.before }
    ensures { DrawsObject (shape_of s.now i body) result canvas.old canvas.new log }
{
    match body {
        Body::Solid(p) => {
            canvas.tally = Tally::NOTHING;
            let after = solid(canvas, s, p);
            Drawn {
                first: first_part(p.extent),
                after,
                offered: solid_price(p.extent),
                entries: 0,
            }
        }
        Body::Outline {
            closed,
            outer,
            holes: h,
            corners: n,
        } => outline(canvas, s, i, closed, outer, h, n, log),
        Body::Sweep { round, sections } => {
            draw_sections(canvas, s, i + 2, round, sections as usize)
        }
    }
}
