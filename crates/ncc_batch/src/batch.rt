//! Files one after the other.

ghost use Rattle.std.specs.Prelude.{◌≡◌, ◌⊎◌, ◌≤◌, ◌∷◌, ℕ, List, drop, Ok, IsTrue, IfOk};
ghost use Rattle.ncc_values.specs.Failures.{Rose, Counts};
ghost use Rattle.ncc_batch.specs.Answered.{IsBatch, SendsOne};

use crate::shelf::Shelf;
use crate::texts::text_at;
use ncc_answers::{Form, Work, send_shown, worse};
use ncc_engines::Answer;
use ncc_header::{Device, Sink};
use ncc_values::Seq;
use std::alloc::Global;

/// Shows what is asked of the file of a path. Its text is in memory before any of it is sent.
fn answer_one<F: Shelf, W: Sink>(
    alloc: Global,
    shelf: &mut F,
    path: &[u8],
    work: Work,
    form: Form,
    sink: &mut W,
) -> Result<Answer, Device>
    requires { IsTrue F.tells → (rest : List (List ℕ)) × (F.left shelf.old ≡ path.now ∷ rest) }
    ensures sends { IsTrue F.tells
        → SendsOne work form path.now (F.file shelf.old path.now) (W.put sink.old) (W.put sink.new) result }
    ensures file { F.file shelf.new ≡ F.file shelf.old }
    ensures left { IsTrue F.tells → F.left shelf.new ≡ drop 1 (F.left shelf.old) }
    ensures quiet { IfOk result (λ a. (a ≡ Answer.Device → ⊥) → F.failures shelf.new ≡ F.failures shelf.old) }
    ensures device { IfOk result (λ a. a ≡ Answer.Device → Rose (F.failures shelf.old) (F.failures shelf.new)) }
    ensures grows { F.failures shelf.old ≤ F.failures shelf.new }
    ensures count { Counts (W.failures sink.old) (W.failures sink.new) result }
{
    let (answer, text) = text_at(alloc, shelf, path, work);
    shelf.tell(path, answer);
    send_shown(form, path, answer, &text, sink)?;
    Ok(answer)
}

/// Shows what is asked of the files of all these paths, in order, each opened once, and gives the worst answer. A
/// file that can't be opened or fails, or for which there is no memory, stops none of the others; an output that
/// fails does.
pub fn answer_all<F: Shelf, W: Sink>(
    alloc: Global,
    shelf: &mut F,
    paths: &[Seq<u8>],
    work: Work,
    form: Form,
    sink: &mut W,
) -> Result<Answer, Device>
    requires { IsTrue F.tells → F.left shelf.old ≡ paths.now }
    ensures batch { IsTrue F.tells → IsBatch (F.file shelf.old) work form paths.now (F.left shelf.new)
        (F.failures shelf.old) (F.failures shelf.new) (W.put sink.old) (W.put sink.new) result }
    ensures device { result ≡ Ok Answer.Device → Rose (F.failures shelf.old) (F.failures shelf.new) }
    ensures quiet { (result ≡ Ok Answer.Passed) ⊎ (result ≡ Ok Answer.Refused)
        → F.failures shelf.new ≡ F.failures shelf.old }
    ensures count { Counts (W.failures sink.old) (W.failures sink.new) result }
{
    let mut answer = Answer::Passed;
    for path in paths {
        let next = answer_one(alloc, shelf, path.as_slice(), work, form, sink)?;
        answer = worse(answer, next);
    }
    Ok(answer)
}
