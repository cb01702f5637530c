ghost use Rattle.std.specs.Prelude.{◌≡◌, ◌≤◌, true, false, length};
ghost use Rattle.texts.specs.Words.{is_blank, front, word_of, after_word};

fn is_blank(c: u8) -> bool
    ensures { result ≡ is_blank c }
{
    matches!(c, b' ' | b'\t' | b'\r')
}

/// How many bytes at the front are blanks, or are none.
// Stays: the flag is the definition's own; a closure in its place would be one of the same two.
fn front(blank: bool, text: &[u8]) -> usize
    ensures bytes_are_counted { result ≡ front blank text.now }
    ensures within { result ≤ length text.now }
{
    text.iter().take_while(|c| is_blank(**c) == blank).count()
}

/// The first word of a text, and what stands behind it. The word is empty where there is none.
pub fn cut_word(text: &[u8]) -> (&[u8], &[u8])
    ensures word { result.0.now ≡ word_of text.now }
    ensures rest { result.1.now ≡ after_word text.now }
{
    let (_, text) = text.split_at(front(true, text));
    text.split_at(front(false, text))
}
