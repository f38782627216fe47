//! What a host keeps, after an answer, a reply and a move: the state that follows each stands for the step with it.

ghost use Rattle.sl_host_law.specs.Replies.Answers.{AnswersAreHeard};
ghost use Rattle.sl_host_law.specs.Replies.Moves.{MovesAreTaken};
ghost use Rattle.sl_host_law.specs.Replies.RepliesAreTaken.{RepliesAreTaken};

/// The host that hears an answer stands for the step with it.
pub fn answers_are_heard()
    ensures { AnswersAreHeard }
{}

/// The host after a reply stands for the step with it.
pub fn replies_are_taken()
    ensures { RepliesAreTaken }
{}

/// The host after a move of a connection stands for the step with it.
pub fn moves_are_taken()
    ensures { MovesAreTaken }
{}
