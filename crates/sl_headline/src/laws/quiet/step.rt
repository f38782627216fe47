//! From the answer of a job's call to its next call, its grant or its refusal.

ghost use Rattle.sl_headline.specs.Quiet.Step.AnswersLeadOn.{AnswersLeadOn, LinesBegin};

/// The answer of a job's call makes due what its lease decides, and beside it of leases, replies and grants nothing.
pub fn answers_lead_on()
    ensures { AnswersLeadOn }
{}

/// The line of a quiet acquire makes its read of the area due, and beside it of leases, replies and grants nothing.
pub fn lines_begin()
    ensures { LinesBegin }
{}
