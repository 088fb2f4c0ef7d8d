//! Where files are opened by their paths.

ghost use Rattle.std.specs.Prelude.{◌≡◌, ◌<◌, ◌≤◌, ◌∷◌, ℕ, Bool, true, false, List, drop, Option, Some, IsTrue, IfSome, IfNone};
ghost use Rattle.ncc_values.specs.Failures.{last_count, Rose};

use ncc_engines::Answer;
use ncc_store::Store;

/// Opens files by their paths, one at a time.
pub trait Shelf {
    /// An open file.
    type File: Store + Drop;

    /// Whether it tells which files it has, and their bytes.
    ghost tells: { Bool };

    /// The bytes of the file of a path, where that can be opened.
    ghost file: { Self → List ℕ → Option (List ℕ) };

    /// The paths that are still to be opened, where it tells them.
    ghost left: { Self → List (List ℕ) };

    /// The bytes of the file that was opened last, where it tells them.
    ghost held: { Self → List ℕ };

    /// How often a file couldn't be opened, or failed until it was closed. The count stays at 2^64 - 1.
    ghost failures: { Self → ℕ };

    /// Opens the file of the next path, for reading; none where that can't be.
    fn open(&mut self, path: &[u8]) -> Option<Self::File>
        requires { IsTrue tells → (rest : List (List ℕ)) × (left self.old ≡ path.now ∷ rest) }
        ensures told { IsTrue tells → IfSome result (λ f. file self.old path.now ≡ Some (Self.File.bytes f)) }
        ensures tells { IsTrue tells → IsTrue Self.File.tells_bytes }
        ensures held { IsTrue tells → IfSome result (λ f. held self.new ≡ Self.File.bytes f) }
        ensures left { IsTrue tells → left self.new ≡ drop 1 (left self.old) }
        ensures file { file self.new ≡ file self.old }
        ensures fresh { IfSome result (λ f. Self.File.failures f ≡ 0) }
        ensures count { IfSome result (λ f. failures self.new ≡ failures self.old) }
        ensures rose { IfNone result (Rose (failures self.old) (failures self.new)) };

    /// Closes it again as it was, and is told whether it failed.
    fn close(&mut self, opened: Self::File, failed: bool)
        requires failed { failed ≡ true → 0 < Self.File.failures opened }
        requires held { IsTrue tells → Self.File.bytes opened ≡ held self.old }
        ensures file { file self.new ≡ file self.old }
        ensures left { left self.new ≡ left self.old }
        ensures whole { failed ≡ false → failures self.new ≡ failures self.old }
        ensures rose { failed ≡ true → Rose (failures self.old) (failures self.new) };

    /// Is told what the file of this path came to, before that is shown.
    fn tell(&mut self, path: &[u8], answer: Answer)
        ensures file { file self.new ≡ file self.old }
        ensures left { left self.new ≡ left self.old }
        ensures count { failures self.new ≡ failures self.old };

    /// The count has an end.
    ghost at_most_last: { (shelf : Self) → failures shelf ≤ last_count };
}
