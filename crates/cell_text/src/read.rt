ghost use Rattle.std.specs.Prelude.{◌≡◌, ◌≤◌, ◌<◌, ◌-◌, ◌⊎◌, ◌≤ℤ◌, pos, length, IfSome};
ghost use Rattle.std.specs.Prelude.{MatchOption, option_map};
ghost use Rattle.cell_text.specs.Digits.{natural_after};
ghost use Rattle.dt_base.specs.Cell.{IsOfType};
ghost use Rattle.dt_base.specs.declared.cell.Cell.TheVariants as cell;
ghost use Rattle.dt_base.specs.declared.cell.ColType.TheVariants as ty;
ghost use Rattle.dt_model.specs.Spelling as spelling;

/// The integer that the bytes spell: one or more decimal digits, with `-`, `+` or nothing before
/// them, and a value from -(2^63 - 1) to 2^63 - 1. `None` where they spell none.
///
/// dtq's own rule, docs/LANGUAGE.md, section "Conversion between types".
pub fn integer_of(bytes: &[u8]) -> Option<i64>
    ensures value { result ≡ spelling.integer_of bytes.now }
    ensures cell { IfSome result (λ n. IsOfType ty.Int (cell.Int n)) }
{
    let (first, rest) = bytes.split_first()?;
    if let Some(digit) = digit_of(*first) {
        return digits_after(digit, rest);
    }
    match *first {
        b'-' => Some(-natural_of(rest)?),
        b'+' => natural_of(rest),
        _ => None,
    }
}

/// The integer that decimal digits alone spell.
fn natural_of(digits: &[u8]) -> Option<i64>
    ensures value { result ≡ option_map pos (spelling.natural_of digits.now) }
    ensures sign { IfSome result (λ n. pos 0 ≤ℤ n) }
{
    let (first, rest) = digits.split_first()?;
    digits_after(digit_of(*first)?, rest)
}

/// The digit that a byte writes.
fn digit_of(byte: u8) -> Option<u64>
    ensures { MatchOption result ((byte < 48) ⊎ (57 < byte))
        (λ digit. (48 ≤ byte) × (byte ≤ 57) × (digit ≡ byte - 48)) }
{
    let digit = u64::from(byte).wrapping_sub(48);
    if digit > 9 { None } else { Some(digit) }
}

/// The integer that a digit and decimal digits behind it spell.
fn digits_after(digit: u64, digits: &[u8]) -> Option<i64>
    requires { digit ≤ 9 }
    ensures value { result ≡ option_map pos (natural_after digit digits.now) }
    ensures sign { IfSome result (λ n. pos 0 ≤ℤ n) }
{
    if digits.len() > 17 {
        long_after(digit, digits)
    } else {
        short_after(digit, digits)
    }
}

/// The same of eighteen digits at most, which every number of them is within the range.
fn short_after(digit: u64, digits: &[u8]) -> Option<i64>
    requires digit { digit ≤ 9 }
    requires short { length digits.now ≤ 17 }
    ensures value { result ≡ option_map pos (natural_after digit digits.now) }
    ensures sign { IfSome result (λ n. pos 0 ≤ℤ n) }
{
    let mut n = digit;
    for b in digits {
        n = n * 10 + digit_of(*b)?;
    }
    Some(n as i64)
}

/// The same of any number of digits.
fn long_after(digit: u64, digits: &[u8]) -> Option<i64>
    requires { digit ≤ 9 }
    ensures value { result ≡ option_map pos (natural_after digit digits.now) }
    ensures sign { IfSome result (λ n. pos 0 ≤ℤ n) }
{
    let mut n = digit;
    for b in digits {
        let next = digit_of(*b)?;
        if n > GREATEST / 10 {
            return None;
        }
        n = n * 10 + next;
    }
    if n > GREATEST { None } else { Some(n as i64) }
}

/// The greatest integer.
const GREATEST: u64 = 9_223_372_036_854_775_807;

/// The truth value that a text names when it is brought to a logical: `T`, `TRUE`, `true`, `True`,
/// or `F`, `FALSE`, `false`, `False`.
pub fn truth_of(bytes: &[u8]) -> Option<bool>
    ensures { result ≡ spelling.truth_of bytes.now }
{
    match bytes {
        b"T" => Some(true),
        b"F" => Some(false),
        _ => field_truth(bytes),
    }
}

/// The truth value that a field of a file names: the words of `truth_of` without the single
/// letters.
pub fn field_truth(bytes: &[u8]) -> Option<bool>
    ensures { result ≡ spelling.field_truth bytes.now }
{
    match bytes {
        b"TRUE" | b"true" | b"True" => Some(true),
        b"FALSE" | b"false" | b"False" => Some(false),
        _ => None,
    }
}
