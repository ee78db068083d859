//! Letters, digits and words of ASCII.
ghost use Rattle.std.specs.Prelude.{◌≡◌};
ghost use Rattle.std.specs.List.{list_all};
ghost use Rattle.plain_form.specs.Words as spec;

/// Whether a word is letters and digits that begin with a capital.
pub fn is_con(word: &[u8]) -> bool
    ensures { result ≡ spec.is_con word.now }
{
    match word {
        [] => false,
        [first, rest @ ..] => is_capital(*first) && are_letters_or_digits(rest),
    }
}

fn are_letters_or_digits(text: &[u8]) -> bool
    ensures { result ≡ list_all spec.is_letter_or_digit text.now }
{
    text.iter().all(|b| is_letter_or_digit(*b))
}

/// Whether a byte is a capital letter.
fn is_capital(byte: u8) -> bool
    ensures { result ≡ spec.is_capital byte }
{
    byte >= b'A' && byte <= b'Z'
}

/// Whether a byte is a letter or a digit.
fn is_letter_or_digit(byte: u8) -> bool
    ensures { result ≡ spec.is_letter_or_digit byte }
{
    is_capital(byte) || byte >= b'a' && byte <= b'z' || byte >= b'0' && byte <= b'9'
}
