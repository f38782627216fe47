//! The name of a host that was given none.

ghost use Rattle.std.specs.Prelude.{◌≡◌};
ghost use Rattle.sl_command.specs.DefaultNames.{default_name_text};

use sl_text::Name;
use uuid::Uuid;

/// Writes the text of a UUID with these bits.
fn uuid_text(bits: u128, buffer: &mut [u8; 45]) -> &str
    ensures { result.now ≡ default_name_text bits }
{
    Uuid::from_u128(bits).hyphenated().encode_lower(buffer)
}

/// The name that the bits of a UUID give: its 32 hex digits in lower case, in groups of 8, 4, 4, 4 and 12 with hyphens between
/// (RFC 9562). Names of hosts tell starts of daemons apart, so each start is given fresh bits. It takes no memory.
#[tactic(auto, using(crate::proofs::DefaultNameLaws::names))]
pub fn default_name(bits: u128) -> Name
    ensures { result ≡ default_name_text bits }
{
    let mut buffer = Uuid::encode_buffer();
    match Name::new(uuid_text(bits, &mut buffer).as_bytes()) {
        Some(name) => name,
        None => unreachable!(),
    }
}
