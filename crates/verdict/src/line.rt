//! The line that is printed.
ghost use Rattle.std.specs.Prelude.{◌≡◌, [], ◌∷◌, ◌++◌, length, codes};
ghost use Rattle.text.specs.Appends.{Appends};
ghost use Rattle.text.specs.Rows.{Same};
ghost use Rattle.verdict.specs.Lines.{file_name, number_and, pair, line_bytes, Writes};

use crate::counts::Counts;
use text::rows::Rows;
use text::rows::list::Full;
use text::write::{push_all, push_decimal};

/// A file that is read.
#[derive(Clone, Copy, PartialEq, Eq, Debug)]
pub enum File {
    Problem,
    Answer,
    Certificate,
}

/// Why a run is refused: the file, the place in it and the number of the refusal.
#[derive(Clone, Copy, PartialEq, Eq, Debug)]
pub struct Refusal {
    pub file: File,
    pub place: usize,
    pub number: u32,
}

/// What a run comes to.
// No `Result`: a refusal is a line like the others, and is printed like them.
#[derive(Clone, Copy, PartialEq, Eq, Debug)]
pub enum Line {
    /// The set is a plan with these counts.
    Plan(Counts),
    /// It is one that no plan beats.
    Optimal(Counts),
    /// There is no plan.
    Impossible,
    Refused(Refusal),
}

/// Writes the bytes of a line first into memory, zeros after them, and says how many there are. Where it is too short
/// for them, it is all zero.
// No `Display`: nothing is promised of a `write!` that fails, and here a failure must mean that memory is too short.
pub fn write_line(line: Line, memory: &mut [u8]) -> Result<usize, Full>
    ensures { Writes (line_bytes line) (length memory.old) result memory.new }
{
    let mut out = Rows::new(memory, 0);
    if let Err(full) = push_line(line, &mut out) {
        out.clear();
        return Err(full);
    }
    Ok(out.len())
}

fn push_line(line: Line, out: &mut Rows<'_, u8>) -> Result<(), Full>
    ensures appends { Appends out.old (line_bytes line) result out.new }
    ensures same { Same out.old out.new }
{
    match line {
        Line::Plan(counts) => push_counts(b"PLAN ", counts, out),
        Line::Optimal(counts) => push_counts(b"OPTIMAL ", counts, out),
        Line::Impossible => push_all(out, b"IMPOSSIBLE\n"),
        Line::Refused(refusal) => push_pair(
            refused_in(refusal.file),
            refusal.place as u64,
            u64::from(refusal.number),
            out,
        ),
    }
}

/// Writes a line that ends in the counts of a plan.
fn push_counts(words: &[u8], counts: Counts, out: &mut Rows<'_, u8>) -> Result<(), Full>
    ensures appends { Appends out.old (pair words.now counts.removed counts.changed) result out.new }
    ensures same { Same out.old out.new }
{
    push_pair(
        words,
        u64::from(counts.removed),
        u64::from(counts.changed),
        out,
    )
}

/// How the line of a refusal begins.
fn refused_in(file: File) -> &'static [u8]
    ensures { result.now ≡ codes "REFUSED " ++ (file_name file ++ 32 ∷ []) }
{
    match file {
        File::Problem => b"REFUSED problem ",
        File::Answer => b"REFUSED answer ",
        File::Certificate => b"REFUSED certificate ",
    }
}

/// Writes a line that ends in two numbers.
fn push_pair(words: &[u8], first: u64, second: u64, out: &mut Rows<'_, u8>) -> Result<(), Full>
    ensures appends { Appends out.old (pair words.now first second) result out.new }
    ensures same { Same out.old out.new }
{
    push_all(out, words)?;
    push_number(first, b' ', out)?;
    push_number(second, b'\n', out)
}

/// Writes a number and the byte after it.
fn push_number(number: u64, end: u8, out: &mut Rows<'_, u8>) -> Result<(), Full>
    ensures appends { Appends out.old (number_and number end) result out.new }
    ensures same { Same out.old out.new }
{
    push_decimal(out, number)?;
    out.push(end)
}
