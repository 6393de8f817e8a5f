ghost use Rattle.geometry.specs.Limits.{Stretch};

/// The measure that counts the square of each coordinate as often as the stretch along it says.
/// Each stretch is 1, 2 or 3. It ignores penalties.
#[derive(Clone, Copy, PartialEq, Eq, Hash, Debug)]
pub struct Stretched {
    alpha: u32,
    beta: u32,
    gamma: u32,
    ghost first: { Stretch alpha },
    ghost second: { Stretch beta },
    ghost third: { Stretch gamma },
}

/// A stretch is not 1, 2 or 3.
#[derive(Clone, Copy, PartialEq, Eq, Hash, Debug)]
pub struct StretchOutOfRange;

mod lift;
mod make;
