// Which numbers are finite.
ghost use Rattle.std.specs.Prelude.{◌≡◌};
ghost use Rattle.float.specs.Number.{is_finite};

// Neither a NaN nor an infinity.
pub fn is_finite(x: f32) -> bool
    ensures { result ≡ is_finite x }
{
    x.is_finite()
}
