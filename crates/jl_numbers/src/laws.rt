// What is proved of division itself.
ghost use Rattle.std.specs.Prelude.{◌≢◌, ℤ, pos};
ghost use Rattle.jl_numbers.specs.Division.{RoundsDown};

/// The divisor times the quotient and the rest make the dividend, and the rest has the divisor's
/// sign and is nearer to 0 than it.
pub fn division_rounds_down()
    ensures { (x y : ℤ) → y ≢ pos 0 → RoundsDown x y }
{}
