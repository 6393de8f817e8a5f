ghost use Rattle.std.specs.Prelude.{◌≡◌, ◌*◌};

/// The square of a coordinate.
pub fn square(n: u16) -> u32
    ensures { result ≡ n * n }
{
    u32::from(n) * u32::from(n)
}
