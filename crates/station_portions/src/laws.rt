//! A law over the definitions alone: the lines of portions.

ghost use Rattle.std.specs.Prelude.{◌≡◌, ℕ, List, Some, ◌++◌};
ghost use Rattle.modes_frame.specs.Lines.{cuts};
ghost use Rattle.station_portions.specs.Batches.{IsBorder};
ghost use Rattle.station_portions.specs.Whole.{GivesPath};
ghost use Rattle.station_portions.specs.declared.message.PathEnd.TheVariants.{AtEnd};

/// The lines of all portions, one after another, are the lines of the whole: bytes that end between two lines have the
/// same lines alone as with what follows.
pub fn portions_have_the_lines_of_the_whole()
    ensures { (front rest : List ℕ) → IsBorder front → cuts (front ++ rest) ≡ cuts front ++ cuts rest }
{}

/// Where the bytes of a path are known, and it was given to its end, the lines given are those of all its bytes.
pub fn a_path_given_to_its_end_has_its_lines()
    ensures { (bytes given : List ℕ) → GivesPath (Some bytes) AtEnd given → cuts given ≡ cuts bytes }
{}
