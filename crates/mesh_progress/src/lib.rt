// How far the pass over the records has come.

#![tactic(auto)]

pub mod records;

ghost use Rattle.std.specs.Prelude.{◌≡◌, ◌*◌, ◌≤◌};
ghost use Rattle.lid.specs.Log.{entry_width};
ghost use Rattle.mesh.specs.Contract.PerBuffer.{FitCounts};
ghost use Rattle.mesh_answer.specs.Answers.{counts_from};
ghost use Rattle.mesh_progress.specs.Contract.Pass.{clamped, StartsIn, spans_more, came_to, advanced, CanAdvance};
ghost use Rattle.mesh_progress.specs.Contract.Wrote.{counted_by};

use lid::ENTRY_WIDTH;
use mesh_answer::{Counted, numbers_for};
use shape::Drawn;

// Where the next record begins, and what the objects before it came to.
#[derive(Clone, Copy)]
pub struct Progress {
    pub at: usize,
    pub objects: u32,
    pub vertices: u32,
    pub kept: u32,
    pub spans: u32,
    pub entries: u32,
}

pub const BEGINNING: Progress = Progress {
    at: 0,
    objects: 0,
    vertices: 0,
    kept: 0,
    spans: 0,
    entries: 0,
};

// The places in the lent buffers from which an object's tails are lent on.
#[derive(Clone, Copy)]
pub struct Starts {
    pub vertices: usize,
    pub normals: usize,
    pub indices: usize,
    pub log: usize,
}

// Where thing number n starts, of so many numbers each, or the buffer's end where that is past it.
#[tactic(auto, unfolding(crate::specs::Contract::Pass::clamped))]
fn start_of(len: usize, width: usize, n: u32) -> usize
    requires { width ≤ entry_width }
    ensures { (result ≡ clamped len (width * n)) × (result ≤ len) }
{
    len.min(width * (n as usize))
}

// Where the next object starts in buffers of these lengths.
pub fn starts_in(p: Progress, vertices: usize, normals: usize, indices: usize, log: usize) -> Starts
    ensures { StartsIn vertices normals indices log p result }
{
    Starts {
        vertices: start_of(vertices, 3, p.vertices),
        normals: start_of(normals, 3, p.vertices),
        indices: start_of(indices, 3, p.kept),
        log: start_of(log, ENTRY_WIDTH, p.entries),
    }
}

fn spans_more(kept: u32) -> u32
    ensures { (result ≡ spans_more kept) × (result ≤ 1) }
{
    if kept == 0 { 0 } else { 1 }
}

// Behind a record of so many bytes.
pub fn advance(p: Progress, size: usize, d: Drawn) -> Progress
    requires { CanAdvance p size (came_to d) }
    ensures { result ≡ advanced p size (came_to d) }
{
    let t = d.after[5];
    Progress {
        at: p.at + size,
        objects: p.objects + 1,
        vertices: p.vertices + t.vertices,
        kept: p.kept + t.kept,
        spans: p.spans + spans_more(t.kept),
        entries: p.entries + d.entries,
    }
}

// The numbers that the objects take in each buffer.
pub fn count_numbers(p: Progress) -> Counted
    requires { FitCounts (counted_by p) }
    ensures { counts_from result ≡ counted_by p }
{
    numbers_for(p.vertices, p.kept, p.spans, p.objects, p.entries)
}
