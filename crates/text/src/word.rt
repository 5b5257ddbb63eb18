//! A part of a text, by its place.
ghost use Rattle.std.specs.Prelude.{◌≡◌, length};
ghost use Rattle.text.specs.Word.{word_in, Inside};

/// Where a part of a text starts, and how many bytes it has.
#[derive(Clone, Copy)]
pub struct Word {
    pub start: usize,
    pub len: usize,
}

/// The part without what lies past the end of the text.
pub(crate) fn clamped(text: &[u8], word: Word) -> Word
    ensures same { word_in text.now result ≡ word_in text.now word }
    ensures inside { Inside (length text.now) result }
{
    let start = word.start.min(text.len());
    let len = word.len.min(text.len() - start);
    Word { start, len }
}

/// The bytes of a part; what lies past the end of the text is left out.
pub fn bytes_of(text: &[u8], word: Word) -> &[u8]
    ensures { result.now ≡ word_in text.now word }
{
    let part = clamped(text, word);
    let start = part.start;
    let end = start + part.len;
    &text[start..end]
}
