//! What holds of judgements by a front, whatever program finds them.

ghost use Rattle.std.specs.Prelude.{ℕ, ◌≤◌, List, Result, length};
ghost use Rattle.ncc_front.specs.declared.judging.FrontRefusal.{FrontRefusal as Refused};
ghost use Rattle.ncc_front.specs.declared.judging.Judgement.{Judgement as Judged};
ghost use Rattle.ncc_schema.specs.declared.schema.Header.{Header};
ghost use Rattle.ncc_layout.specs.declared.placed_file.Placed.{Placed};
ghost use Rattle.ncc_front.specs.Judging.{FindsOf, JudgesFront, IsSame, IsSameFinding};

use ncc_check::laws::{one_report, passing_has_no_fault};
use ncc_header::laws::header_or_stop;

/// Of a front one answer at most is right, but that memory was refused: so each comes exactly where it is right.
pub fn one_judgement()
    ensures { (front : List ℕ) (file limit : ℕ) (a b : Result Judged Refused) → length front ≤ file
        → JudgesFront front file limit a → JudgesFront front file limit b → IsSame a b }
{
    header_or_stop();
    passing_has_no_fault();
    one_report();
}

/// Of a front one header at most is found, with one number of records and one place for each variable, whichever call
/// finds it.
pub fn one_finding()
    ensures { (front : List ℕ) (file limit : ℕ) (h : Header) (p : Placed) (k : Header) (q : Placed)
        → FindsOf front file limit h p → FindsOf front file limit k q → IsSameFinding h p k q }
{
    header_or_stop();
}
