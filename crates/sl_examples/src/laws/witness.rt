//! What is shown of lawful runs by an example.

ghost use Rattle.sl_examples.specs.Witness.QuietRun.{QuietAcquiresAreShown};
ghost use Rattle.sl_examples.specs.Witness.Witness.{TakeoverIsLawful};

/// There is a lawful run in which a resource passes from one machine, which is reset, to another.
pub fn takeover_is_lawful()
    ensures { TakeoverIsLawful }
{}

/// There is a lawful run in which an acquire that nothing stands in the way of is granted by six calls, and one with a shared acquire by eight.
pub fn quiet_acquires_are_shown()
    ensures { QuietAcquiresAreShown }
{}
