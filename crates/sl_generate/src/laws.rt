//! What is generated: laws of the definitions that `generate` cites.

pub mod timely;

ghost use Rattle.sl_generate.specs.HeaderLines.{HeadersAreRead};
ghost use Rattle.sl_generate.specs.GeneratedIsPlain.{GeneratedIsPlain};

/// The header of a generated schedule is the one that its lines spell.
pub fn headers_are_read()
    ensures { HeadersAreRead }
{}

/// What is written of a sound run is what the plain program writes: `gen` has one output.
pub fn generated_is_plain()
    ensures { GeneratedIsPlain }
{}
