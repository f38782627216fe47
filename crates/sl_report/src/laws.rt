//! Schedules without lines.

ghost use Rattle.sl_report.specs.ReportLaws.{EmptySourceIsRefused};

/// An empty source is refused at line 1, in any language.
pub fn empty_source_is_refused()
    ensures { EmptySourceIsRefused }
{}
