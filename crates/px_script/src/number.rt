ghost use Rattle.std.specs.Prelude.{◌≡◌, ◌<◌, ◌↔◌, IsTrue, length, slice_index};
ghost use Rattle.px_script.specs.Words.{number_of};

/// The number, at most `most`, whose decimal text the word is: digits without leading zeros.
pub fn number_of(most: u32, word: &[u8]) -> Option<u32>
    ensures { result ≡ number_of most word.now }
{
    if word.is_empty() || has_leading_zero(word) {
        return None;
    }
    let mut number = 0u32;
    for digit in word {
        if !digit.is_ascii_digit() {
            return None;
        }
        let value = u32::from(*digit - b'0');
        number = number.checked_mul(10)?.checked_add(value)?;
    }
    if number <= most { Some(number) } else { None }
}

/// `0` is the only number that begins with it.
fn has_leading_zero(word: &[u8]) -> bool
    ensures { IsTrue result ↔ ((slice_index word.now 0 ≡ 48) × (1 < length word.now)) }
{
    word.len() > 1 && word[0] == b'0'
}
