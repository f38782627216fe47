//! What is granted under all premises, and is not under fewer.

ghost use Rattle.sl_examples.specs.QuietPremises.Premises.{AllAreTheLaw, PremisesSuffice, all_premises};
ghost use Rattle.sl_examples.specs.QuietPremises.PremisesTell.{PremisesTell};

/// All premises together are those of quiet acquires.
pub fn all_are_the_law()
    ensures { AllAreTheLaw }
{}

/// Under them an acquire is granted, in every lawful run whose daemons do what is due.
pub fn premises_suffice()
    ensures { PremisesSuffice all_premises }
{}

/// Without one of them an acquire is not, in a run for each.
pub fn premises_tell()
    ensures { PremisesTell }
{}
