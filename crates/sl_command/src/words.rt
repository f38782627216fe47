//! Words and numbers, written one behind another. Also where memory runs out, what was there stays in front of what has been added.

ghost use Rattle.std.specs.Prelude.{OnOk, decimal, flat_map, ◌++◌, ◌∷◌, ◌≡◌, []};
ghost use Rattle.sl_command.specs.OutputLines.{KeepsFronts, counted};

use sl_text::number::push_number;
use std::alloc::AllocError;

/// Adds a byte at the end. An `Err` is want of memory; what was there stays in front.
#[tactic(auto, using(crate::proofs::LineLaws::front_stays))]
pub(crate) fn push_byte(out: &mut Vec<u8>, byte: u8) -> Result<(), AllocError>
    ensures ok { OnOk result (out.new.items ≡ out.old.items ++ byte ∷ []) }
    ensures kept { KeepsFronts out.old.items out.new.items }
{
    out.push(byte)?;
    Ok(())
}

/// Adds a number's decimal digits. An `Err` is want of memory; what was there stays in front.
#[tactic(auto, using(crate::proofs::LineLaws::front_stays))]
pub(crate) fn push_decimal(out: &mut Vec<u8>, number: u64) -> Result<(), AllocError>
    ensures ok { OnOk result (out.new.items ≡ out.old.items ++ decimal number) }
    ensures kept { KeepsFronts out.old.items out.new.items }
{
    push_number(out, number)
}

/// Adds a space and a number's decimal digits. An `Err` is want of memory; what was there stays in front.
pub fn push_behind(out: &mut Vec<u8>, number: u64) -> Result<(), AllocError>
    ensures ok { OnOk result (out.new.items ≡ out.old.items ++ 32 ∷ decimal number) }
    ensures kept { KeepsFronts out.old.items out.new.items }
{
    push_byte(out, b' ')?;
    push_decimal(out, number)
}

/// Adds numbers, each behind a space.
fn push_each(out: &mut Vec<u8>, numbers: &[u64]) -> Result<(), AllocError>
    ensures ok { OnOk result (out.new.items ≡ out.old.items ++ flat_map (λ n. 32 ∷ decimal n) numbers.now) }
    ensures kept { KeepsFronts out.old.items out.new.items }
{
    for number in numbers {
        push_behind(out, *number)?;
    }
    Ok(())
}

/// Adds a word, and numbers behind it.
#[tactic(auto, using(crate::proofs::LineLaws::numbers))]
pub(crate) fn push_counted(out: &mut Vec<u8>, word: &str, numbers: &[u64]) -> Result<(), AllocError>
    ensures ok { OnOk result (out.new.items ≡ out.old.items ++ counted word.now numbers.now) }
    ensures kept { KeepsFronts out.old.items out.new.items }
{
    push_text(out, word.as_bytes())?;
    push_each(out, numbers)
}

/// Adds a space and a word. An `Err` is want of memory; what was there stays in front.
pub fn push_word(out: &mut Vec<u8>, word: &[u8]) -> Result<(), AllocError>
    ensures ok { OnOk result (out.new.items ≡ out.old.items ++ 32 ∷ word.now) }
    ensures kept { KeepsFronts out.old.items out.new.items }
{
    push_byte(out, b' ')?;
    push_text(out, word)
}

/// Adds a part of a word behind a colon.
pub fn push_part(out: &mut Vec<u8>, part: &[u8]) -> Result<(), AllocError>
    ensures ok { OnOk result (out.new.items ≡ out.old.items ++ 58 ∷ part.now) }
    ensures kept { KeepsFronts out.old.items out.new.items }
{
    push_byte(out, b':')?;
    push_text(out, part)
}

/// Adds a colon and a number's decimal digits. An `Err` is want of memory; what was there stays in front.
pub fn push_number_part(out: &mut Vec<u8>, number: u64) -> Result<(), AllocError>
    ensures ok { OnOk result (out.new.items ≡ out.old.items ++ 58 ∷ decimal number) }
    ensures kept { KeepsFronts out.old.items out.new.items }
{
    push_byte(out, b':')?;
    push_decimal(out, number)
}

/// Adds the bytes of a text. An `Err` is want of memory; what was there stays in front.
#[tactic(auto, using(crate::proofs::LineLaws::front_stays))]
pub fn push_text(out: &mut Vec<u8>, text: &[u8]) -> Result<(), AllocError>
    ensures ok { OnOk result (out.new.items ≡ out.old.items ++ text.now) }
    ensures kept { KeepsFronts out.old.items out.new.items }
{
    out.extend_from_slice(text)
}
