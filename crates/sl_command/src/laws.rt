//! How the forms of commands and the texts of commands belong together.

ghost use Rattle.std.specs.Prelude.{◌<◌, ◌^◌};
ghost use Rattle.sl_area.specs.AreaSizes.{Layout};
ghost use Rattle.sl_trace.specs.CommandForms.{ReadsCommands};

/// A text fits one of the forms and makes a command exactly where the command may name what it does and the text is its
/// words, with one space between. So each command that may be named has one text, and no other text is taken for one.
pub fn commands_have_one_text()
    ensures { (g : Layout) → g.hosts < 2 ^ 64 → ReadsCommands g }
{}
