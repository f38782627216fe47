//! Replies, in the words of reports.

use sl_sector::Owner;
use sl_text::words::Words;
use sl_trace::{DeltaOwner, Reply};

/// Behind `ok`: nothing, the version of a grant, and the number of a child.
fn ok(words: &mut Words<'_>) -> Result<Reply, usize> {
    let Ok(lver) = words.number() else {
        return Ok(Reply::Done);
    };
    match words.positive_short_number() {
        Ok(process) => Ok(Reply::Started { lver, process }),
        Err(_) => Ok(Reply::Granted { lver }),
    }
}

/// What a lease is refused for.
fn held(words: &mut Words<'_>) -> Result<Reply, usize> {
    Ok(Reply::Held {
        lver: words.number()?,
        owner: Owner {
            id: words.positive_short_number()?,
            generation: words.number()?,
        },
    })
}

/// What a call is waited for in vain.
fn timeout(words: &mut Words<'_>) -> Result<Reply, usize> {
    Ok(Reply::IoTimeout {
        call: words.number()?,
        from: words.number()?,
        to: words.number()?,
    })
}

/// What a claim of an id is refused for.
fn lost(words: &mut Words<'_>) -> Result<Reply, usize> {
    Ok(Reply::IdLost {
        own: DeltaOwner {
            generation: words.number()?,
            name: words.name()?,
        },
        found: Some(DeltaOwner {
            generation: words.number()?,
            name: words.name()?,
        }),
    })
}

/// A reply that names a host.
fn of_host(words: &mut Words<'_>) -> Result<Reply, usize> {
    if words.skip(b"TornBlock") {
        Ok(Reply::TornBlock {
            host: words.positive_short_number()?,
        })
    } else if words.skip(b"Shared") {
        Ok(Reply::Shared {
            owner: Owner {
                id: words.positive_short_number()?,
                generation: words.number()?,
            },
        })
    } else {
        words.expect(b"Rival")?;
        Ok(Reply::Rival {
            host: words.positive_short_number()?,
            mbal: words.number()?,
        })
    }
}

/// A reply that names a call or a process, or nothing.
fn short(words: &mut Words<'_>) -> Result<Reply, usize> {
    if words.skip(b"IoFault") {
        Ok(Reply::IoFault {
            call: words.number()?,
        })
    } else if words.skip(b"Pending") {
        Ok(Reply::Pending {
            call: words.number()?,
        })
    } else if words.skip(b"Busy") {
        Ok(Reply::Busy {
            process: words.positive_short_number()?,
        })
    } else if words.skip(b"NotHeld") {
        Ok(Reply::NotHeld)
    } else if words.skip(b"SpawnFault") {
        Ok(Reply::SpawnFault)
    } else if words.skip(b"NoSession") {
        Ok(Reply::NoSession)
    } else {
        of_host(words)
    }
}

/// The reply that the next words tell.
pub(crate) fn reply(words: &mut Words<'_>) -> Result<Reply, usize> {
    if words.skip(b"ok") {
        ok(words)
    } else if words.skip(b"Held") {
        held(words)
    } else if words.skip(b"IoTimeout") {
        timeout(words)
    } else if words.skip(b"IdLost") {
        lost(words)
    } else {
        short(words)
    }
}
