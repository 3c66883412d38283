// The kinds of record, and the byte that stands for each.
ghost use Rattle.scene.specs.Contract.Kinds.{Decodes};

use refusal::Refusal;

#[derive(Clone, Copy, Debug, PartialEq, Eq)]
pub enum Kind {
    Unsized,
    Box,
    Cylinder,
    OpenOutline,
    ClosedOutline,
    Sweep,
    RoundSweep,
}

impl TryFrom<u8> for Kind {
    type Error = Refusal;

    ghost try_from_gives = { Decodes };

    fn try_from(byte: u8) -> Result<Self, Refusal> {
        match byte {
            0 => Ok(Kind::Unsized),
            1 => Ok(Kind::Box),
            2 => Ok(Kind::Cylinder),
            3 => Ok(Kind::OpenOutline),
            4 => Ok(Kind::ClosedOutline),
            5 => Ok(Kind::Sweep),
            6 => Ok(Kind::RoundSweep),
            _ => Err(Refusal::Kind),
        }
    }
}
