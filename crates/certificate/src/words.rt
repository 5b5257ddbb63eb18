//! Numbers of four bytes each, the lowest byte first.
ghost use Rattle.std.specs.Prelude.{◌≡◌, ℕ, ◌+◌, ◌≤◌, ◌++◌, length};
ghost use Rattle.std.specs.Int.{w32};
ghost use Rattle.std.proofs.Common.{to_z};
ghost use Rattle.text.specs.Lists.{each};
ghost use Rattle.text.specs.Rows.{items, room, Same};
ghost use Rattle.certificate.specs.Hinted.{words, word_in};

use text::rows::Rows;

/// A number that is written as four bytes.
pub trait Word: Copy {
    ghost meant: { ℕ → Self };

    fn of_bytes(word: [u8; 4]) -> Self
        ensures { result ≡ meant (word_in word) };
}

impl Word for u32 {
    ghost meant = { λ n. n };

    fn of_bytes(word: [u8; 4]) -> u32 {
        u32::from_le_bytes(word)
    }
}

impl Word for i32 {
    ghost meant = { λ n. to_z w32 n };

    fn of_bytes(word: [u8; 4]) -> i32 {
        i32::from_le_bytes(word)
    }
}

/// Puts the numbers after the rows, where there is a place for each.
pub(crate) fn push_words<T: Word>(bytes: &[u8], rows: &mut Rows<'_, T>)
    requires { length (items rows.old) + length (words bytes.now) ≤ room rows.old }
    ensures items { items rows.new ≡ items rows.old ++ each T.Word.meant (words bytes.now) }
    ensures same { Same rows.old rows.new }
{
    let mut rest = bytes;
    while let [a, b, c, d, more @ ..] = rest {
        let word = T::of_bytes([*a, *b, *c, *d]);
        // There is a place for each; told so, the loop copies four words at a time.
        if rows.push(word).is_err() {
            return;
        }
        rest = more;
    }
}
