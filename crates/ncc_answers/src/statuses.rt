//! The status of a run.

ghost use Rattle.std.specs.Prelude.{◌≡◌};
ghost use Rattle.ncc_answers.specs.Shown.{status_of, worse as the_worse};

use crate::answer::Answer;

/// It passed.
const PASSED: u8 = 0;

/// The file was refused.
const REFUSED: u8 = 1;

/// A device or memory failed.
const FAILED: u8 = 3;

/// The status of a run that came to this answer.
pub fn status(answer: Answer) -> u8
    ensures { result ≡ status_of answer }
{
    match answer {
        Answer::Passed => PASSED,
        Answer::Refused => REFUSED,
        Answer::Device => FAILED,
        Answer::Memory => FAILED,
    }
}

/// The first of two answers, unless the other has a greater status.
pub fn worse(first: Answer, other: Answer) -> Answer
    ensures { result ≡ the_worse first other }
{
    if status(other) <= status(first) {
        first
    } else {
        other
    }
}
