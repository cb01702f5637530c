ghost use Rattle.std.specs.Prelude.{◌≡◌};
ghost use Rattle.texts.specs.Numbers.{longer, number_of};

/// A number so far, with one more digit behind.
// Stays: a number here has digits alone, and std's `parse` takes a `+` before them.
fn longer(value: u32, c: u8) -> Option<u32>
    ensures { result ≡ longer value c }
{
    if !c.is_ascii_digit() {
        return None;
    }
    value.checked_mul(10)?.checked_add(u32::from(c - b'0'))
}

/// The number below 2^32 that a word stands for.
pub fn number(word: &[u8]) -> Option<u32>
    ensures { result ≡ number_of word.now }
{
    if word.is_empty() {
        return None;
    }
    let mut value = 0;
    for c in word {
        value = longer(value, *c)?;
    }
    Some(value)
}
