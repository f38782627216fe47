//! What a new host stands for, and how parts of a step are put together.

ghost use Rattle.sl_host_state.specs.StepQuestions.{QuestionsAreAnswered};
ghost use Rattle.sl_host_state.specs.Effects.{EffectsAreTaken};
ghost use Rattle.sl_host_state.specs.NewHost.{NewHostStands};
ghost use Rattle.sl_host_state.specs.Passes.{PartsAreTaken};
ghost use Rattle.sl_host_state.specs.StepsAreOver.{NewLeaseStands, StepsAreOver};

/// A new host stands for no step, whatever sessions it is given.
pub fn new_host_stands()
    ensures { NewHostStands }
{}

/// Parts that are taken one by one are taken together: in sequence, where a test holds, in a pass over a list.
pub fn parts_are_taken()
    ensures { PartsAreTaken }
{}

/// A signal, an end and a grant are taken by what the state makes of them.
pub fn effects_are_taken()
    ensures { EffectsAreTaken }
{}

/// A host that stood for a step which did what was due stands, once it rests, for the steps so far.
pub fn steps_are_over()
    ensures { StepsAreOver }
{}

/// A lease without a call stands for none.
pub fn new_lease_stands()
    ensures { NewLeaseStands }
{}

/// What a step asks of several lists is answered by what a host keeps.
pub fn questions_are_answered()
    ensures { QuestionsAreAnswered }
{}
