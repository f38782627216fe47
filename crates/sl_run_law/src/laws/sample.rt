//! What a lawful run promises of samples.

ghost use Rattle.sl_run_law.specs.Sample.Samples.{DoneReadsAreWhole, SampledAreSectors, SamplesAreLandings, SamplesComeInOrder};

/// Each sample of a read shows the landing that was the newest at its place then.
pub fn samples_are_landings()
    ensures { SamplesAreLandings }
{}

/// A read has as many bytes as it has samples.
pub fn sampled_are_sectors()
    ensures { SampledAreSectors }
{}

/// A read that was answered ok has all its samples.
pub fn done_reads_are_whole()
    ensures { DoneReadsAreWhole }
{}

/// A read's sectors are sampled in rising order.
pub fn samples_come_in_order()
    ensures { SamplesComeInOrder }
{}
