//! What a check comes to.

ghost use Rattle.std.specs.Prelude.{◌≡◌};
ghost use Rattle.ncc_answers.specs.Judged.{verdict};

use crate::answer::Answer;
use ncc_check::Report;

/// What a report comes to: notes are faults where the check is strict.
pub fn answer_of_report(strict: bool, report: &Report) -> Answer
    ensures { result ≡ verdict strict report.now }
{
    if strict && !report.notes.is_empty() {
        return Answer::Refused;
    }
    Answer::Passed
}
