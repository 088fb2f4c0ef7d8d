//! What a command comes to.

ghost use Rattle.std.specs.Prelude.{◌≡◌};
ghost use Rattle.ncc_answers.specs.Answers.{answer_of};

use ncc_lines::SendError;

/// What a command came to, once its lines went out, or what kept them from it.
#[derive(Clone, Copy, Debug, PartialEq, Eq)]
pub enum Answer {
    Passed,
    Refused,
    Device,
    Memory,
}

/// This answer, where the text went out.
pub fn answer_of_sent(sent: Result<(), SendError>, answer: Answer) -> Answer
    ensures { result ≡ answer_of sent answer }
{
    match sent {
        Ok(()) => answer,
        Err(SendError::Device) => Answer::Device,
        Err(SendError::Memory) => Answer::Memory,
    }
}
