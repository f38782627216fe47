//! Where the next line of a schedule stands.

ghost use Rattle.sl_report.specs.Languages.{is_skipped};
ghost use Rattle.sl_story.specs.ToldSchedules.{says};
ghost use Rattle.sl_text.specs.Forms.{is_free_of};
ghost use Rattle.std.specs.Prelude.{IfSome, is_some, length, nat_lt, true, ◌&&◌, ◌+◌, ◌≡◌, ◌≤◌};

/// The most bytes of a schedule.
const GREATEST_SOURCE: u64 = 1_000_000_000;

/// How many lines of a schedule stand, and how many bytes.
#[derive(Clone, Copy)]
pub(crate) struct Place {
    pub(crate) lines: u64,
    pub(crate) bytes: u64,
    ghost few: { lines ≤ bytes },
    ghost inside: { bytes ≤ 1000000000 },
}

/// Whether a line is empty or a comment.
fn is_skipped(line: &[u8]) -> bool
    ensures { result ≡ is_skipped line.now }
{
    match line.first() {
        Some(byte) => *byte == b'#',
        None => true,
    }
}

/// Whether a text has no line feed.
fn is_free(text: &[u8]) -> bool
    ensures { result ≡ is_free_of 10 text.now }
{
    text.iter().all(|byte| *byte != b'\n')
}

/// Whether a line says something: it is neither empty nor a comment, and has no line feed.
fn says(line: &[u8]) -> bool
    ensures { result ≡ says line.now }
{
    !is_skipped(line) && is_free(line)
}

impl Place {
    /// Where the line stands that comes behind this one; None where it says nothing, or a schedule has no room for it.
    pub(crate) fn behind(self, line: &[u8]) -> Option<Place>
        ensures says { IfSome result (λ p. says line.now ≡ true) }
        ensures lines { IfSome result (λ p. p.lines ≡ self.lines + 1) }
        ensures bytes { IfSome result (λ p. p.bytes ≡ self.bytes + length line.now + 1) }
        ensures inside { IfSome result (λ p. p.bytes ≤ 1000000000) }
        ensures room { is_some result ≡ (says line.now && nat_lt (self.bytes + length line.now) 1000000000) }
    {
        let len = line.len() as u64;
        if says(line) && self.bytes + len < GREATEST_SOURCE {
            Some(Place {
                lines: self.lines + 1,
                bytes: self.bytes + len + 1,
            })
        } else {
            None
        }
    }
}
