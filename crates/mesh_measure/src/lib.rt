// Measure: for each buffer the count of numbers that Build will write; and a bound on it, from the
// headers of the records alone.

#![tactic(auto)]

pub mod room;

ghost use Rattle.std.specs.Prelude.{◌≡◌};
ghost use Rattle.scene.specs.Scene.{scene};
ghost use Rattle.mesh.specs.Operations.{measure};
ghost use Rattle.mesh_answer.specs.Answers.{answer_of};
ghost use Rattle.mesh_bound.specs.Most.{bound};
ghost use Rattle.mesh_measure.specs.Contract.Counted.{counted_scene};

use crate::room::bound_counts;
use float::MIN_AREA;
use mesh_answer::Answered;
use mesh_bound::{Counting, Group};
use mesh_bound_scene::bound_of_all;

// What the objects take in each buffer at a limit below which a triangle is thin: measured, or the most that they can take.
fn count_scene(s: &[u8], limit: f32, counting: Counting) -> Answered
    ensures { answer_of result ≡ counted_scene counting limit (scene s.now) }
{
    let n = scene_check::check_scene(s)?;
    let m = bound_of_all(s, n, limit, Group::All, counting);
    Ok(bound_counts(m, n))
}

pub fn measure(s: &[u8]) -> Answered
    ensures { answer_of result ≡ measure s.now }
{
    count_scene(s, MIN_AREA, Counting::Exact)
}

// Counts that suffice for Build, at the price of reading: the limit does not matter to them.
pub fn bound(s: &[u8]) -> Answered
    ensures { answer_of result ≡ bound s.now }
{
    count_scene(s, MIN_AREA, Counting::Highest)
}
