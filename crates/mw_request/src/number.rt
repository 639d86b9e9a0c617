//! The numbers among the words of the command line.
ghost use Rattle.std.specs.Prelude.{◌≡◌, ◌≤◌, Some, None, length, cond};
ghost use Rattle.mw_model.specs.Texts.Lexemes.{is_digit, decimal_value};
ghost use Rattle.std.specs.List.{list_all};
ghost use Rattle.mw_request.specs.Arguments as model;

/// The number that the text is: at most `digits` decimal digits, and a value from the least to the most.
pub(crate) fn number_within(text: &str, digits: usize, least: u64, most: u64) -> Option<u64>
    requires { digits ≤ 13 }
    ensures { result ≡ model.number_within digits least most text.now }
{
    let bytes = text.as_bytes();
    if bytes.is_empty() || bytes.len() > digits {
        return None;
    }
    let number = decimal(bytes)?;
    if least <= number && number <= most {
        Some(number)
    } else {
        None
    }
}

// The number of these bytes, where all are digits.
fn decimal(bytes: &[u8]) -> Option<u64>
    requires { length bytes.now ≤ 13 }
    ensures { result ≡ cond (list_all is_digit bytes.now) (Some (decimal_value bytes.now)) None }
{
    let mut number: u64 = 0;
    for byte in bytes {
        if !byte.is_ascii_digit() {
            return None;
        }
        number = 10 * number + (*byte - 48) as u64;
    }
    Some(number)
}
