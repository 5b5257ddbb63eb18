//! Where the kinds of an opening's variables begin.
ghost use Rattle.std.specs.Prelude.{◌≡◌, ◌+◌, ◌≤◌};

/// After the variables of the stanzas stand the removed ones, the changed ones, and the choice.
#[derive(Clone, Copy)]
pub(crate) struct Layout {
    pub(crate) removed: u32,
    pub(crate) installed: u32,
    pub(crate) changed: u32,
    pub(crate) names: u32,
    pub(crate) choice: u32,
    ghost least: { 1 ≤ removed },
    ghost few: { removed ≤ 257 },
    ghost installed_few: { installed ≤ 256 },
    ghost names_few: { names ≤ 256 },
    ghost then_changed: { changed ≡ removed + installed },
    ghost then_choice: { choice ≡ changed + names },
}
