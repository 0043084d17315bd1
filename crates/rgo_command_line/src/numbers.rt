//! Numbers in decimal digits. They are read here and not by `clap`, so that a number out of range is rejected like any wrong word.

ghost use Rattle.std.specs.Prelude.{◌≡◌, ◌≤◌, IfSome, Some};
ghost use Rattle.std.specs.Char.{is_ascii_digit};
ghost use Rattle.std.specs.List.{list_all};
ghost use Rattle.rgo_command_line.specs.Numbers.{is_numeral, numeral_value, within};

fn are_digits(bytes: &[u8]) -> bool
    ensures { result ≡ list_all is_ascii_digit bytes.now }
{
    bytes.iter().all(|byte| byte.is_ascii_digit())
}

fn is_numeral(text: &str) -> bool
    ensures { result ≡ is_numeral text.now }
{
    !text.is_empty() && are_digits(text.as_bytes())
}

fn in_range(number: u64, least: u64, most: u64) -> Option<u64>
    ensures value { result ≡ within least most (Some number) }
    ensures range { IfSome result (λ number. (least ≤ number) × (number ≤ most)) }
{
    if least <= number && number <= most {
        Some(number)
    } else {
        None
    }
}

/// The number that one or more decimal digits write, if it is from `least` to `most`.
///
/// Leading zeros are allowed, a sign is not.
pub(crate) fn number_within(text: &str, least: u64, most: u64) -> Option<u64>
    ensures value { result ≡ within least most (numeral_value text.now) }
    ensures range { IfSome result (λ number. (least ≤ number) × (number ≤ most)) }
{
    // `parse` takes a sign.
    if !is_numeral(text) {
        return None;
    }
    match text.parse::<u64>() {
        Ok(number) => in_range(number, least, most),
        // The digits write a number that no `u64` holds.
        Err(_) => None,
    }
}
