//! The words for how far a workflow is, and for the steps of its targets and of a cutover.
ghost use Rattle.std.specs.Prelude.{◌≡◌};
ghost use Rattle.admin.specs.Words.{stage_word};

use reshard::Stage;

/// How far a workflow is, as one word.
pub fn stage_word(stage: Stage) -> &'static str
    ensures { result.now ≡ stage_word stage }
{
    match stage {
        Stage::None => "none",
        Stage::Following => "following",
        Stage::Switching => "switching",
        Stage::Switched => "switched",
    }
}
