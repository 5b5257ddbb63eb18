//! The records of the hinted form.
ghost use Rattle.std.specs.Prelude.{◌≡◌};
ghost use Rattle.std.specs.Option.{option_map};
ghost use Rattle.certificate.specs.Hinted.{counted, hinted_addition, addition_entry, entry};
ghost use Rattle.certificate.specs.HintedState.{shown, step_of, entry_of};
ghost use Rattle.certificate.specs.Reading.{Holds, memory_of, shape_in};

use crate::found::Shape;
use crate::memory::blank;
use crate::words::push_words;
use text::rows::Rows;

/// The most literals that a clause has.
pub const LITERALS: u16 = 512;

/// The bytes of numbers of four bytes each, and what stands after them.
#[derive(Clone, Copy)]
pub struct Counted<'a> {
    pub words: &'a [u8],
    pub rest: &'a [u8],
}

/// A step, as the bytes of its numbers.
#[derive(Clone, Copy)]
pub enum Entry<'a> {
    Add(&'a [u8], &'a [u8]),
    Delete(u32),
}

/// A step, and what stands after it.
#[derive(Clone, Copy)]
pub struct Record<'a> {
    pub step: Entry<'a>,
    pub rest: &'a [u8],
}

/// The record that bytes begin with.
#[tactic(auto, using(crate::proofs::Records::addition_found, crate::proofs::Records::deletion_found))]
pub fn first_record(bytes: &[u8]) -> Option<Record<'_>>
    ensures { option_map entry_of result ≡ entry bytes.now }
{
    match bytes {
        [0x61, rest @ ..] => addition(rest),
        [0x64, a, b, c, d, rest @ ..] => Some(Record {
            step: Entry::Delete(u32::from_le_bytes([*a, *b, *c, *d])),
            rest,
        }),
        _ => None,
    }
}

/// Puts the numbers of a step into the memory lent, if they fit.
pub fn put_step(step: Entry<'_>, literals: &mut [i32], hints: &mut [u32]) -> Option<Shape>
    ensures shape { result ≡ shape_in (memory_of literals.old hints.old) (step_of step.entry) }
    ensures memory { Holds (memory_of literals.old hints.old) (step_of step.entry) literals.new hints.new }
{
    match step {
        Entry::Add(clause, chain) => put_addition(clause, chain, literals, hints),
        Entry::Delete(number) => {
            blank(literals, hints);
            Some(Shape::Delete(number))
        }
    }
}

/// Puts literals and hints into the memory lent, if they fit.
fn put_addition(
    clause: &[u8],
    chain: &[u8],
    literals: &mut [i32],
    hints: &mut [u32],
) -> Option<Shape>
    ensures shape { result ≡ shape_in (memory_of literals.old hints.old) (hinted_addition clause.now chain.now) }
    ensures memory { Holds (memory_of literals.old hints.old) (hinted_addition clause.now chain.now) literals.new hints.new }
{
    let n = clause.len() / 4;
    let k = chain.len() / 4;
    if n > literals.len() || k > hints.len() {
        blank(literals, hints);
        return None;
    }
    let mut rows = Rows::new(literals, 0);
    push_words(clause, &mut rows);
    let mut rows = Rows::new(hints, 0);
    push_words(chain, &mut rows);
    Some(Shape::AddHinted(n, k))
}

/// An addition, after its first byte.
fn addition(bytes: &[u8]) -> Option<Record<'_>>
    ensures { option_map entry_of result ≡ addition_entry bytes.now }
{
    let literals = counted_words(bytes, LITERALS)?;
    let hints = counted_words(literals.rest, u16::MAX)?;
    Some(Record {
        step: Entry::Add(literals.words, hints.words),
        rest: hints.rest,
    })
}

/// The bytes of at most `most` numbers, after their count.
#[tactic(auto, using(crate::proofs::Records::counted_cut))]
fn counted_words(bytes: &[u8], most: u16) -> Option<Counted<'_>>
    ensures { option_map shown result ≡ counted most bytes.now }
{
    let [a, b, rest @ ..] = bytes else {
        return None;
    };
    let count = u16::from_le_bytes([*a, *b]);
    let n = 4 * count as usize;
    if count > most || n > rest.len() {
        return None;
    }
    Some(Counted {
        words: &rest[0..n],
        rest: &rest[n..],
    })
}
