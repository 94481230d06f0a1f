// Division in signed 64 bits, which rounds down as in Python.
ghost use Rattle.std.specs.Prelude.{◌≡◌};
ghost use Rattle.jl_numbers.specs.Division.{divided, floor_quotient, floor_rest};

/// The quotient, rounded down. There is none at a divisor 0, nor where 64 bits don't hold it.
pub fn div_floor(x: i64, y: i64) -> Option<i64>
    ensures { result ≡ divided floor_quotient x y }
{
    if y == 0 {
        return None;
    }
    let quotient = x.checked_div(y)?;
    if x % y != 0 && (x < 0) != (y < 0) {
        return quotient.checked_sub(1);
    }
    Some(quotient)
}

/// What the quotient leaves over, which has the divisor's sign. There is none at a divisor 0.
pub fn rem_floor(x: i64, y: i64) -> Option<i64>
    ensures { result ≡ divided floor_rest x y }
{
    if y == 0 {
        return None;
    }
    if y == -1 {
        return Some(0);
    }
    let rest = x % y;
    if rest != 0 && (x < 0) != (y < 0) {
        return rest.checked_add(y);
    }
    Some(rest)
}
