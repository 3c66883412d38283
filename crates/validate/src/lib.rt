// What Validate answers, and the numbers that C gets for it.

#![tactic(auto)]

ghost use Rattle.std.specs.Prelude.{◌≡◌};
ghost use Rattle.validate.specs.Numbers.{judgement, verdict_numbers, validation_numbers};

use refusal::Refusal;

// Why a mesh cannot back a physics collider.
#[derive(Clone, Copy, Debug, PartialEq, Eq)]
pub enum MeshError {
    // No triangles at all.
    Empty,
    // A vertex with a NaN or an infinity.
    NonFiniteVertex(usize),
    // A triangle, the vertex that it names, and how many vertices there are.
    IndexOutOfRange(usize, u32, usize),
    // A triangle that repeats a vertex, whose corners lie in a line, or which lacks a corner.
    DegenerateTriangle(usize),
}

pub type Verdict = Result<(), MeshError>;

// What Validate answers: a verdict, or by which row the call is refused.
pub type Validation = Result<Verdict, Refusal>;

// A validation in numbers: `validation_numbers` of specs/Numbers.antt gives them for each case.
#[repr(C)]
#[derive(Clone, Copy)]
pub struct Judgement {
    pub refusal: u32,
    pub object: u32,
    pub verdict: u32,
    pub index: u32,
    pub place: u64,
    pub count: u64,
}

impl Judgement {
    fn new(refusal: u32, verdict: u32, index: u32, place: u64, count: u64) -> Judgement
        ensures { result ≡ judgement refusal verdict index place count }
    {
        Judgement {
            refusal,
            object: 0,
            verdict,
            index,
            place,
            count,
        }
    }

    #[tactic(auto, unfolding(crate::specs::Numbers::verdict_numbers))]
    fn of_verdict(verdict: Verdict) -> Judgement
        ensures { result ≡ verdict_numbers verdict }
    {
        match verdict {
            Ok(()) => Judgement::new(0, 0, 0, 0, 0),
            Err(MeshError::Empty) => Judgement::new(0, 1, 0, 0, 0),
            Err(MeshError::NonFiniteVertex(i)) => Judgement::new(0, 2, 0, i as u64, 0),
            Err(MeshError::IndexOutOfRange(t, i, n)) => {
                Judgement::new(0, 3, i, t as u64, n as u64)
            }
            Err(MeshError::DegenerateTriangle(t)) => Judgement::new(0, 4, 0, t as u64, 0),
        }
    }
}

impl From<Validation> for Judgement {
    ghost from_gives = { λ validation judgement. judgement ≡ validation_numbers validation };

    #[tactic(auto, unfolding(crate::specs::Numbers::validation_numbers))]
    fn from(validation: Validation) -> Judgement {
        match validation {
            Ok(verdict) => Judgement::of_verdict(verdict),
            Err(f) => Judgement::new(u32::from(f), 0, 0, 0, 0),
        }
    }
}
