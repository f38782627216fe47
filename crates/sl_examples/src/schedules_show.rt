//! What the worked schedules show.

ghost use Rattle.sl_examples.specs.QuietShown.{QuietPremisesTell};
ghost use Rattle.sl_examples.specs.RefusedByLaw.{LawsRefuse};
ghost use Rattle.sl_examples.specs.RefusedTraces.{TracesAreRefused};
ghost use Rattle.sl_examples.specs.SettingsMatter.{SettingsMatter};
ghost use Rattle.sl_examples.specs.SchedulesShow.{SchedulesReplay, TracesKeepLaws, LiteralTracesKeepLaws, RunsStaySafe, LinesAreRefused};

/// Each worked schedule gives its report, each daemon doing what is due.
pub fn schedules_replay()
    ensures { SchedulesReplay }
{}

/// The traces of these runs keep each law, so none of the laws is empty. (Tests that mirror the laws field by field.)
pub fn traces_keep_laws()
    ensures { TracesKeepLaws }
{}

/// What is due on literal answers, of which a world would not give each, keeps each law too.
pub fn literal_traces_keep_laws()
    ensures { LiteralTracesKeepLaws }
{}

/// Traces that looser laws would let pass are refused, each by the law that is to refuse it: overlapping block writes, a free before the mode
/// block, an instance below the own block, a torn block passed over, two lockspaces on one resource, ..
pub fn traces_are_refused()
    ensures { TracesAreRefused }
{}

/// The same of the laws themselves, on literal traces: no lawful trace has these entries.
pub fn laws_refuse()
    ensures { LawsRefuse }
{}

/// These runs are safe after each event: tests of what safety says of a world.
pub fn runs_stay_safe()
    ensures { RunsStaySafe }
{}

/// Lines are refused, each by its own text.
pub fn lines_are_refused()
    ensures { LinesAreRefused }
{}

/// What is due is lawful only in the settings that a daemon may be made of: without that premise a first read within a sector is due.
pub fn settings_matter()
    ensures { SettingsMatter }
{}

/// An acquire that nothing stands in the way of is granted by six calls, or eight where it is shared; and each of its premises tells: where that one
/// alone is broken, it is refused.
pub fn quiet_premises_tell()
    ensures { QuietPremisesTell }
{}
