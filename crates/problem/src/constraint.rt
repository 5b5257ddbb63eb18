//! Reads a constraint.
ghost use Rattle.std.specs.Prelude.{◌≡◌, ◌≤◌, length, IfSome};
ghost use Rattle.problem.specs.Placed.{Reads, related_to};
ghost use Rattle.problem.specs.Words.{name_byte, name_len, is_name, operator as operator_of, version};

use crate::rows::{ConstraintRow, Relation};
use text::digits::decimal;
use text::spaces::{trim_start, trim_word};
use text::word::{Word, bytes_of};

/// The most bytes of a name.
const NAME_MOST: usize = 64;

/// The highest version.
const VERSION_MOST: u32 = 999_999;

/// Whether a byte may stand in a name.
fn is_name_byte(b: u8) -> bool
    ensures { result ≡ name_byte b }
{
    // Two arms: as one pattern, each byte was compared with each mark in turn, and reading long names took twice as long.
    match b {
        b'a'..=b'z' | b'A'..=b'Z' | b'0'..=b'9' => true,
        b'+' | b'.' | b'/' | b'@' | b'(' | b')' | b'%' | b'-' => true,
        _ => false,
    }
}

/// How many bytes at the front may stand in a name.
fn name_len(text: &[u8]) -> usize
    ensures value { result ≡ name_len text.now }
    ensures within { result ≤ length text.now }
{
    text.iter()
        .position(|b| !is_name_byte(*b))
        .unwrap_or(text.len())
}

/// Whether a text is a name.
pub(crate) fn is_name(text: &[u8]) -> bool
    ensures { result ≡ is_name text.now }
{
    let n = text.len();
    n > 0 && n <= NAME_MOST && name_len(text) == n
}

/// The operator at the front, and how many bytes it has.
fn read_operator(text: &[u8]) -> Option<(Relation, usize)>
    ensures value { result ≡ operator_of text.now }
    ensures within { IfSome result (λ p. p.1 ≤ length text.now) }
{
    let first = text.first().copied().unwrap_or(0) as char;
    let second = text.get(1).copied().unwrap_or(0) as char;
    match (first, second) {
        ('=', _) => Some((Relation::Equal, 1)),
        ('!', '=') => Some((Relation::Differs, 2)),
        ('>', '=') => Some((Relation::AtLeast, 2)),
        ('>', _) => Some((Relation::Greater, 1)),
        ('<', '=') => Some((Relation::AtMost, 2)),
        ('<', _) => Some((Relation::Less, 1)),
        _ => None,
    }
}

/// A version: 1 to 999999.
pub(crate) fn read_version(text: &[u8]) -> Option<u32>
    ensures value { result ≡ version text.now }
    ensures within { IfSome result (λ n. (1 ≤ n) × (n ≤ 999999)) }
{
    decimal(text, 9).filter(|n| (1..=VERSION_MOST).contains(n))
}

/// Reads the constraint of a part of the document; `last` says whether its conjunct ends with it.
pub(crate) fn read_constraint(text: &[u8], part: Word, last: bool) -> Option<ConstraintRow>
    ensures { Reads text.now part last result }
{
    let word = trim_word(text, part);
    let inner = bytes_of(text, word);
    let len = name_len(inner);
    if len == 0 || len > NAME_MOST {
        return None;
    }
    let name = Word {
        start: word.start,
        len,
    };
    read_relation(name, trim_start(&inner[len..]), last)
}

/// Reads what follows a name.
fn read_relation(name: Word, rest: &[u8], last: bool) -> Option<ConstraintRow>
    ensures value { result ≡ related_to name last rest.now }
    ensures within { IfSome result (λ c. (c.name ≡ name) × (c.version ≤ 999999) × (c.last ≡ last)) }
{
    if rest.is_empty() {
        return Some(ConstraintRow {
            name,
            relation: Relation::Any,
            version: 0,
            last,
        });
    }
    let (relation, n) = read_operator(rest)?;
    let version = read_version(trim_start(&rest[n..]))?;
    Some(ConstraintRow {
        name,
        relation,
        version,
        last,
    })
}
