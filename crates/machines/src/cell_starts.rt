//! With what the daemon of a cell begins.

ghost use Rattle.sl_world_state.specs.Daemons.{begun_with};
ghost use Rattle.sl_host_step.specs.HostServes.{whole_commands};
ghost use Rattle.sl_run.specs.Headers.{IsHeader};
ghost use Rattle.sl_run.specs.Lawful.{IsSetting};
ghost use Rattle.std.specs.Prelude.{IfOk};

use sl_io::MemSource;
use sl_live_run::laws::sites_are_settings;
use sl_play::laws::headers::{headers_are_good, whole_language_may_play};
use sl_reader::{LineReader, read_header};
use sl_run::Header;
use sl_world::{first_site, session_of};
use sl_world_state::Site;
use std::alloc::Global;
use std::io::ErrorKind;
use std::rt::Files;
use std::{fs, io};

/// A header, and with what the daemon of its machine 1 begins.
#[derive(Drop)]
pub struct Begun {
    pub header: Header,
    pub site: Site,
}

/// Reads the header of a script. An `Err` is that it has none, or want of memory.
fn header_of(alloc: Global, script: &[u8]) -> io::Result<Header>
    ensures { IfOk result IsHeader }
{
    let mut source = MemSource::new(
        Vec::from_slice(alloc, script)?,
        Vec::new(alloc),
        Vec::new(alloc),
    );
    let mut reader = LineReader::new(alloc)?;
    headers_are_good();
    match read_header(alloc, &mut source, &mut reader) {
        Ok(Ok(header)) => Ok(header),
        Ok(Err(_)) => Err(io::Error::from(ErrorKind::InvalidData)),
        Err(_) => Err(io::Error::from(ErrorKind::Other)),
    }
}

/// What the daemon of a header's machine 1 begins with, where it has a session.
fn site_of(alloc: Global, header: &Header) -> io::Result<Site>
    requires { IsHeader header.now }
    ensures { IfOk result (λ s. IsSetting (begun_with whole_commands header.now s)) }
{
    whole_language_may_play();
    sites_are_settings();
    match session_of(header, 1) {
        Some(session) => Ok(first_site(alloc, header, 1, session)?),
        None => Err(io::Error::from(ErrorKind::InvalidData)),
    }
}

/// A header that is read, and with what the daemon of its machine 1 begins.
fn begin(alloc: Global, script: &[u8]) -> io::Result<Begun>
    ensures header { IfOk result (λ b. IsHeader b.header) }
    ensures setting { IfOk result (λ b. IsSetting (begun_with whole_commands b.header b.site)) }
{
    let header = header_of(alloc, script)?;
    let site = site_of(alloc, &header)?;
    Ok(Begun { header, site })
}

/// With what the cell of the daemon of the script `cell` begins.
pub fn begin_cell<R: Files + AllocGlobal>(rt: &R) -> io::Result<Begun>
    ensures header { IfOk result (λ b. IsHeader b.header) }
    ensures setting { IfOk result (λ b. IsSetting (begun_with whole_commands b.header b.site)) }
{
    let script = fs::read(rt, "cell.script")?;
    begin(rt.alloc(), &script)
}
