//! Commands and default names.

use crate::told::Told;
use sl_alone::push_command_text;
use sl_area::Geometry;
use sl_command::parse_command;
use sl_text::hex::read_hex;
use sl_trace::Command;

/// A command as it is written.
fn written(told: &mut Told, command: &Command) {
    let mut text = Vec::new(told.alloc);
    told.need(push_command_text(&mut text, command).is_ok());
    told.word("is");
    told.quoted(&text);
}

/// The command as it is written, in a run of three hosts; or the column at which it is refused.
pub fn command(told: &mut Told, text: &str) {
    let Ok(run) = Geometry::new(512, 1_048_576, 3) else {
        return told.word("no run");
    };
    match parse_command(text.as_bytes(), &run) {
        Ok(command) => written(told, &command),
        Err(bad) => told.said("column", bad.column as u64),
    }
}

/// The number that a word of digits is, or 0.
fn bits_of(text: &str) -> u128 {
    let mut bits = 0u128;
    if let Some(data) = read_hex(text.as_bytes()) {
        for byte in data.as_slice() {
            bits = bits << 8 | u128::from(*byte);
        }
    }
    bits
}

/// The name that a host takes from these bits, where none is given.
pub fn default_name(told: &mut Told, text: &str) {
    let name = sl_command::default_name(bits_of(text));
    let done = write!(told.text, " {name}").is_ok();
    told.need(done);
}
