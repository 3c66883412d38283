// The pass over the records of an accepted scene: each object is drawn from its record behind those
// before it, and its span and account are stored. Once all are written, their vertices are stored in
// millimetres too.
ghost use Rattle.std.specs.Prelude.{◌≡◌, Ok};
ghost use Rattle.scene.specs.Scene.{scene};
ghost use Rattle.scene.specs.Contract.Answers.{checked_of};
ghost use Rattle.scene.specs.Contract.Headers.{shape_of};
ghost use Rattle.shape.specs.Contract.Drawn.{CanDraw, DrewObject};
ghost use Rattle.mesh.specs.PerBuffer.{lent};
ghost use Rattle.mesh.specs.Operations.{counts_of, build_scene};
ghost use Rattle.mesh_answer.specs.Answers.{Builds};
ghost use Rattle.mesh_progress.specs.Contract.Pass.{drawn_entering, drawn_leaving, beginning, CanAdd, AddedObject, CanAddAll, AddedScene};
ghost use Rattle.mesh_progress.specs.Contract.Wrote.{WroteScene};
ghost use Rattle.mesh_build.specs.Contract.Plan.{PlanHolds};

use face::{Canvas, Tally};
use mesh_answer::Counted;
use mesh_progress::records::{put_account, put_span};
use mesh_progress::{BEGINNING, Progress, advance, count_numbers, starts_in};
use millimetre::fill;
use scene::headers::Body;
use shape::Drawn;

// The object whose record's body is at i, drawn from the start of the lent slices.
fn draw_object(
    s: &[u8],
    i: usize,
    body: Body,
    limit: f32,
    before: u32,
    vertices: &mut [f32],
    normals: &mut [f32],
    indices: &mut [u32],
    log: &mut [u32],
) -> Drawn
    requires { CanDraw s.now i body before }
    ensures { DrewObject limit (shape_of s.now i body) before vertices.old normals.old indices.old log.old result vertices.new normals.new indices.new log.new }
{
    let mut canvas = Canvas {
        limit,
        before,
        tally: Tally::NOTHING,
        vertices,
        normals,
        indices,
    };
    shape_draw::draw(&mut canvas, s, i, body, log)
}

// The object of the next record, drawn into the tails of the buffers.
fn object_at(
    s: &[u8],
    limit: f32,
    p: Progress,
    vs: &mut [f32],
    ns: &mut [f32],
    is: &mut [u32],
    spans: &mut [u32],
    account: &mut [u32],
    log: &mut [u32],
) -> Progress
    requires { CanAdd limit s.now p }
    ensures { AddedObject limit s.now p result (drawn_entering vs ns is spans account log) (drawn_leaving vs ns is spans account log) }
{
    let h = scene_header::header_at(s, p.at);
    let body = h.body;
    let at = starts_in(p, vs.len(), ns.len(), is.len(), log.len());
    let v = at.vertices;
    let n = at.normals;
    let k = at.indices;
    let e = at.log;
    let d = draw_object(
        s,
        p.at + 5,
        body,
        limit,
        p.vertices,
        &mut vs[v..],
        &mut ns[n..],
        &mut is[k..],
        &mut log[e..],
    );
    let t = d.after[5];
    put_span(h.id, p, t, spans);
    put_account(p.objects, d, account);
    advance(p, h.size, d)
}

// All n objects of a scene written behind those before it, as far as the buffers reach.
pub fn write_behind(
    s: &[u8],
    n: u32,
    limit: f32,
    from: Progress,
    vs: &mut [f32],
    ns: &mut [f32],
    is: &mut [u32],
    spans: &mut [u32],
    account: &mut [u32],
    log: &mut [u32],
) -> Progress
    requires { (Ok n ≡ checked_of (scene s.now)) × CanAddAll limit s.now from }
    ensures { AddedScene limit s.now from result (drawn_entering vs ns is spans account log) (drawn_leaving vs ns is spans account log) }
{
    let mut p = Progress { at: 0, ..from };
    for _ in 0..n {
        p = object_at(s, limit, p, vs, ns, is, spans, account, log);
    }
    p
}

// All n objects written, as far as the buffers reach, and counted.
pub fn write_objects(
    s: &[u8],
    n: u32,
    limit: f32,
    vs: &mut [f32],
    ns: &mut [f32],
    is: &mut [u32],
    spans: &mut [u32],
    account: &mut [u32],
    log: &mut [u32],
) -> Counted
    requires { (Ok n ≡ checked_of (scene s.now)) × CanAddAll limit s.now beginning }
    ensures { WroteScene limit s.now result (drawn_entering vs ns is spans account log) (drawn_leaving vs ns is spans account log) }
{
    count_numbers(write_behind(s, n, limit, BEGINNING, vs, ns, is, spans, account, log))
}

// All n objects written into buffers that have room for them, and the millimetres of their vertices.
pub fn write_all(
    s: &[u8],
    n: u32,
    limit: f32,
    vertices: &mut [f32],
    normals: &mut [f32],
    indices: &mut [u32],
    spans: &mut [u32],
    account: &mut [u32],
    log: &mut [u32],
    millimetres: &mut [i64],
) -> Counted
    requires { PlanHolds limit s.now
        (counts_of (lent vertices.old normals.old indices.old spans.old account.old log.old millimetres.old)) (Ok n) }
    ensures { Builds (build_scene limit (scene s.now)) (Ok result) vertices normals indices spans account log millimetres }
{
    let c = write_objects(s, n, limit, vertices, normals, indices, spans, account, log);
    let v = c.vertices as usize;
    fill(&vertices[..v], millimetres);
    c
}
