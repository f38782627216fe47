//! The lines of a source, split off from the front one by one.

ghost use Rattle.std.specs.Option.{option_map};
ghost use Rattle.std.specs.Prelude.{length, IfNone, IfSome, [], ◌<◌, ◌≡◌};
ghost use Rattle.sl_text.specs.Forms as forms;
ghost use Rattle.sl_text.specs.Lines.{lines_with, IsFirstLine};

use crate::words::split_piece;

/// The first line, without its line feed, and what stands behind it; None where the source has ended. The last line may
/// lack its line feed.
#[tactic(auto, using(crate::proofs::LineLaws::splitting))]
pub fn split_line(source: &[u8]) -> Option<(&[u8], &[u8])>
    ensures exact { forms.lines_of source.now ≡ lines_with (option_map (λ split. (split.0.now, split.1.now)) result) }
    ensures found { IfSome result (λ split. IsFirstLine source.now split.0.now split.1.now) }
    ensures shorter { IfSome result (λ split. length split.1.now < length source.now) }
    ensures none { IfNone result (source.now ≡ []) }
{
    if source.is_empty() {
        return None;
    }
    match split_piece(b'\n', source) {
        (line, Some(rest)) => Some((line, rest)),
        (line, None) => Some((line, &[])),
    }
}
