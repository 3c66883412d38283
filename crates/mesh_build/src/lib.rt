// Build: tests the room, by the most that the objects can come to or else measured, and then writes.

#![tactic(auto)]

mod pass;

ghost use Rattle.std.specs.Prelude.{◌≡◌, ◌≤◌, Ok};
ghost use Rattle.scene_field.specs.Layout.{most_objects};
ghost use Rattle.scene.specs.Scene.{scene};
ghost use Rattle.scene.specs.Contract.Answers.{checked_of};
ghost use Rattle.mesh.specs.Operations.{build_scene, build};
ghost use Rattle.mesh_answer.specs.Answers.{Builds};
ghost use Rattle.mesh_answer.specs.Contract.Answers.{lengths_from};
ghost use Rattle.mesh_bound.specs.Most.{numbers_of};
ghost use Rattle.mesh_bound.specs.Contract.Groups.{FewOfBoth};
ghost use Rattle.mesh_build.specs.Contract.Plan.{PlanBy, PlanHolds};

use crate::pass::write_all;
use float::MIN_AREA;
use mesh_answer::{Answered, Lengths};
use mesh_bound::{Counting, Group, Most};
use mesh_bound_scene::bound_of_all;
use mesh_measure::room::{bound_counts, room};
use refusal::Refused;

// What is to be done before a buffer is touched: write so many objects, or refuse.
pub type Plan = Result<u32, Refused>;

// By what n objects come to.
fn plan_bounds(has: Lengths, m: Most, n: u32) -> Plan
    requires { FewOfBoth m × (n ≤ most_objects) }
    ensures { PlanBy (lengths_from has) (numbers_of m n) n result }
{
    match room(has, bound_counts(m, n)) {
        Ok(()) => Ok(n),
        Err(refusal) => Err(Refused { refusal, object: 0 }),
    }
}

// The n objects of an accepted scene with those without lids measured, which takes drawing but no
// cutting, then with all measured, which is exact and so tells the refusal too. No object is drawn
// twice for the plan; writing then draws it again.
fn plan_measured(s: &[u8], n: u32, limit: f32, has: Lengths) -> Plan
    requires { Ok n ≡ checked_of (scene s.now) }
    ensures { PlanHolds limit s.now (lengths_from has) result }
{
    let others = bound_of_all(s, n, limit, Group::Others, Counting::Exact);
    let most = bound_of_all(s, n, limit, Group::Lids, Counting::Highest);
    if let Ok(_) = plan_bounds(has, others + most, n) {
        return Ok(n);
    }
    let lids = bound_of_all(s, n, limit, Group::Lids, Counting::Exact);
    plan_bounds(has, others + lids, n)
}

// First by the most that they can come to.
fn plan_objects(s: &[u8], n: u32, limit: f32, has: Lengths) -> Plan
    requires { Ok n ≡ checked_of (scene s.now) }
    ensures { PlanHolds limit s.now (lengths_from has) result }
{
    let most = bound_of_all(s, n, limit, Group::All, Counting::Highest);
    if let Ok(_) = plan_bounds(has, most, n) {
        return Ok(n);
    }
    plan_measured(s, n, limit, has)
}

fn plan_scene(s: &[u8], limit: f32, has: Lengths) -> Plan
    ensures { PlanHolds limit s.now (lengths_from has) result }
{
    let n = scene_check::check_scene(s)?;
    plan_objects(s, n, limit, has)
}

// At a limit below which a triangle is thin.
fn build_scene(
    s: &[u8],
    limit: f32,
    vertices: &mut [f32],
    normals: &mut [f32],
    indices: &mut [u32],
    spans: &mut [u32],
    account: &mut [u32],
    log: &mut [u32],
    millimetres: &mut [i64],
) -> Answered
    ensures { Builds (build_scene limit (scene s.now)) result vertices normals indices spans account log millimetres }
{
    let has = Lengths {
        vertices: vertices.len(),
        normals: normals.len(),
        indices: indices.len(),
        spans: spans.len(),
        account: account.len(),
        log: log.len(),
        millimetres: millimetres.len(),
    };
    let n = plan_scene(s, limit, has)?;
    Ok(write_all(
        s,
        n,
        limit,
        vertices,
        normals,
        indices,
        spans,
        account,
        log,
        millimetres,
    ))
}

#[tactic(auto, unfolding(mesh::specs::Operations::build))]
pub fn build(
    s: &[u8],
    vertices: &mut [f32],
    normals: &mut [f32],
    indices: &mut [u32],
    spans: &mut [u32],
    account: &mut [u32],
    log: &mut [u32],
    millimetres: &mut [i64],
) -> Answered
    ensures { Builds (build s.now) result vertices normals indices spans account log millimetres }
{
    build_scene(
        s,
        MIN_AREA,
        vertices,
        normals,
        indices,
        spans,
        account,
        log,
        millimetres,
    )
}
