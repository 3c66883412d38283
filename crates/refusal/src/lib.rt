// The refusals of every call, by number. A further one is a variant here, a line in `number_of`, and a line of the law about the numbers.

#![tactic(auto)]

ghost use Rattle.std.specs.Prelude.{◌≡◌};
ghost use Rattle.refusal.specs.Rows.{number_of};

// Why a call is refused, by what is checked.
#[derive(Clone, Copy, Debug, PartialEq, Eq)]
pub enum Refusal {
    // The scene's length.
    Length = 1,
    // The trailer.
    Trailer = 2,
    // Where a record starts, or where the last one ends.
    Start = 3,
    // The bytes next needed pass the trailer's start.
    Past = 4,
    Kind = 5,
    Counts = 6,
    Numbers = 7,
    // The vertices or the normals are shorter than measured.
    ShortVertices = 8,
    ShortIndices = 9,
    // The spans, the account or the log are shorter than measured.
    ShortRecords = 10,
    // The vertices' numbers are no whole threes.
    PartialVertex = 11,
    ShortMillimetres = 12,
}

impl From<Refusal> for u32 {
    ghost from_gives = { λ f n. n ≡ number_of f };

    fn from(f: Refusal) -> u32 {
        f as u32
    }
}

// A refusal with the object that it names.
#[derive(Clone, Copy, Debug, PartialEq, Eq)]
pub struct Refused {
    pub refusal: Refusal,
    pub object: u32,
}
