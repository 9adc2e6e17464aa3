//! Numbers as they are written on a command line.

ghost use Rattle.std.specs.Prelude.{◌≡◌};
ghost use Rattle.std.specs.List.{list_all};
ghost use Rattle.gd_commands.specs.Numbers.{is_digit, is_number, number_in, number_from};

/// The most digits of a number. The greatest number of a range has as many.
const MOST_DIGITS: usize = 20;

fn are_digits(text: &str) -> bool
    ensures { result ≡ list_all is_digit text.now }
{
    text.as_bytes().iter().all(|b| b'0' <= *b && *b <= b'9')
}

fn is_number(text: &str) -> bool
    ensures { result ≡ is_number text.now }
{
    !text.is_empty() && text.len() <= MOST_DIGITS && are_digits(text)
}

fn number_of(text: &str) -> Option<u128>
    ensures { result ≡ number_in text.now }
{
    if is_number(text) {
        text.parse::<u128>().ok()
    } else {
        None
    }
}

/// The number that the text writes by 1 to 20 decimal digits, where it is from `low` to `high`.
pub fn number_from(low: u64, high: u64, text: &str) -> Option<u64>
    ensures { result ≡ number_from low high text.now }
{
    let number = number_of(text)?;
    if u128::from(low) <= number && number <= u128::from(high) {
        Some(number as u64)
    } else {
        None
    }
}
