// Decimal digits.
ghost use Rattle.std.specs.Prelude.{◌≡◌, ◌≤◌, ◌<◌, ℕ, IfSome, length, slice_index, true};
ghost use Rattle.std.specs.List.{list_all, prefix_len};
ghost use Rattle.std.specs.Char.{is_ascii_digit};
ghost use Rattle.jl_numbers.specs.Digits.{are_digits, at_most, decimal, longer, number_of};

fn all_digits(bytes: &[u8]) -> bool
    ensures { result ≡ list_all is_ascii_digit bytes.now }
{
    bytes.iter().all(|b| b.is_ascii_digit())
}

/// Whether these are digits, one or more.
pub fn are_digits(bytes: &[u8]) -> bool
    ensures { result ≡ are_digits bytes.now }
{
    if bytes.is_empty() {
        return false;
    }
    all_digits(bytes)
}

/// How many digits stand at the front.
#[tactic(auto, using(std::proofs::lemmas::List::Sums::prefix_len_is))]
pub fn count_digits(bytes: &[u8]) -> usize
    ensures count { result ≡ prefix_len is_ascii_digit bytes.now }
    ensures bound { result ≤ length bytes.now }
    ensures digits { (k : ℕ) → k < result → is_ascii_digit (slice_index bytes.now k) ≡ true }
{
    for (i, b) in bytes.iter().enumerate() {
        if !b.is_ascii_digit() {
            return i;
        }
    }
    bytes.len()
}

// A number with one digit more, where 64 bits hold it.
fn longer(value: u64, digit: u8) -> Option<u64>
    requires { is_ascii_digit digit ≡ true }
    ensures { result ≡ at_most u64.MAX (longer value digit) }
{
    value.checked_mul(10)?.checked_add(u64::from(digit - b'0'))
}

// The number that digits write, where 64 bits hold it.
fn decimal(digits: &[u8]) -> Option<u64>
    requires { list_all is_ascii_digit digits.now ≡ true }
    ensures { result ≡ at_most u64.MAX (decimal digits.now) }
{
    let mut value: u64 = 0;
    for digit in digits {
        value = longer(value, *digit)?;
    }
    Some(value)
}

/// The number that one or more digits write, where it is at most `most`.
pub fn read_decimal(bytes: &[u8], most: u64) -> Option<u64>
    ensures number { result ≡ number_of most bytes.now }
    ensures bound { IfSome result (λ n. n ≤ most) }
{
    if !are_digits(bytes) {
        return None;
    }
    let number = decimal(bytes)?;
    if number > most {
        return None;
    }
    Some(number)
}
