// What the operations answer: specs/Answers.antt gives the number and values of each case.

#![tactic(auto)]

ghost use Rattle.std.specs.Prelude.{◌≡◌};
ghost use Rattle.mesh.specs.PerBuffer.{numbers_for};
ghost use Rattle.mesh.specs.Contract.PerBuffer.{FitCounts};
ghost use Rattle.mesh_answer.specs.Answers.{counts_from, answer_from, answer_of};

use lid::ENTRY_WIDTH;
use mesh::{ACCOUNT_WIDTH, SPAN_WIDTH};
use refusal::Refused;
use validate::Validation;

// How many numbers each buffer gets. `Lengths` has the same fields: one struct with a type argument
// can't stand in the signature of an exported function (the C interface).
#[repr(C)]
#[derive(Clone, Copy)]
pub struct Counted {
    pub vertices: u32,
    pub normals: u32,
    pub indices: u32,
    pub spans: u32,
    pub account: u32,
    pub log: u32,
    pub millimetres: u32,
}

// How many numbers each lent buffer holds.
#[derive(Clone, Copy)]
pub struct Lengths {
    pub vertices: usize,
    pub normals: usize,
    pub indices: usize,
    pub spans: usize,
    pub account: usize,
    pub log: usize,
    pub millimetres: usize,
}

const NO_COUNTS: Counted = Counted {
    vertices: 0,
    normals: 0,
    indices: 0,
    spans: 0,
    account: 0,
    log: 0,
    millimetres: 0,
};

// What Measure and Build answer: the counts, or by which row the call is refused and the object named.
pub type Answered = Result<Counted, Refused>;

// How many numbers of the vertices and of the indices Build has written.
#[derive(Clone, Copy)]
pub struct MeshLengths {
    pub vertices: usize,
    pub indices: usize,
}

// What Build and Validate answer together.
#[derive(Clone, Copy)]
pub struct JudgedBuild {
    pub answer: Answered,
    pub validation: Validation,
}

// The refusal, 0 where there is none, the object named, and the counts.
#[repr(C)]
#[derive(Clone, Copy)]
pub struct Answer {
    pub refusal: u32,
    pub object: u32,
    pub counts: Counted,
}

// The numbers that so many vertices, triangles, spans, objects and log entries take in each buffer.
pub fn numbers_for(vertices: u32, triangles: u32, spans: u32, objects: u32, entries: u32) -> Counted
    requires { FitCounts (numbers_for vertices triangles spans objects entries) }
    ensures { counts_from result ≡ numbers_for vertices triangles spans objects entries }
{
    Counted {
        vertices: 3 * vertices,
        normals: 3 * vertices,
        indices: 3 * triangles,
        spans: (SPAN_WIDTH as u32) * spans,
        account: (ACCOUNT_WIDTH as u32) * objects,
        log: (ENTRY_WIDTH as u32) * entries,
        millimetres: 3 * vertices,
    }
}

impl From<Answered> for Answer {
    ghost from_gives = { λ answered answer. answer_from answer ≡ answer_of answered };

    #[tactic(auto, unfolding(mesh::specs::Operations::refused_with, mesh::specs::Operations::no_counts))]
    fn from(answered: Answered) -> Answer {
        match answered {
            Ok(counts) => Answer {
                refusal: 0,
                object: 0,
                counts,
            },
            Err(refused) => Answer {
                refusal: refused.refusal.into(),
                object: refused.object,
                counts: NO_COUNTS,
            },
        }
    }
}

// None where the call is refused.
#[tactic(auto, unfolding(mesh::specs::Operations::refused_with, mesh::specs::Operations::no_counts))]
pub fn mesh_lengths(answered: Answered) -> MeshLengths
    ensures { (result.vertices ≡ (answer_of answered).counts.vertices) × (result.indices ≡ (answer_of answered).counts.indices) }
{
    match answered {
        Ok(c) => MeshLengths {
            vertices: c.vertices as usize,
            indices: c.indices as usize,
        },
        Err(_) => MeshLengths {
            vertices: 0,
            indices: 0,
        },
    }
}
