// A word that is a number.
ghost use Rattle.std.specs.Prelude.{◌≡◌, ◌≤◌, length};
ghost use Rattle.words.specs.Figures.{starts_well, all_value, number_in};

const LONGEST_NUMBER: usize = 5;

// Whether there is a first digit, and it is no zero in front of others.
fn starts_well(word: &[u8]) -> bool
    ensures { result ≡ starts_well word.now }
{
    match word {
        [] => false,
        [_] => true,
        [first, ..] => *first != b'0',
    }
}

// What the digits are worth; none where a byte is no digit.
fn all_value(word: &[u8]) -> Option<u32>
    requires { length word.now ≤ 5 }
    ensures { result ≡ all_value word.now }
{
    let mut value = 0u32;
    for byte in word {
        value = value * 10 + char::from(*byte).to_digit(10)?;
    }
    Some(value)
}

// The number that a word is; none where it is no number.
// Kept: the library's `parse` takes zeros in front and a plus sign, which a line may not have.
pub fn number(word: &[u8]) -> Option<u32>
    ensures { result ≡ number_in word.now }
{
    if word.len() > LONGEST_NUMBER {
        return None;
    }
    if !starts_well(word) {
        return None;
    }
    all_value(word)
}
