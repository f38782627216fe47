//! What is there before the threads of a run begin: its machines, with a post and a mail for each.

ghost use Rattle.sl_live_run.specs.Runs.{AreFresh, IsFresh, disks_in, disks_of, site_of, spawner_of};
ghost use Rattle.sl_live_run.specs.declared.machine_runs.Machine.{Machine as MachineOf};
ghost use Rattle.std.specs.Prelude.{IfOk, OnOk, Some, [], map, ◌++◌, ◌<◌, ◌∷◌, ◌≡◌};
ghost use Rattle.std.specs.Vec.{vec_capacity, vec_len};

use crate::Prepared;
use crate::machine_runs::{Machine, Work};
use sl_area::Area;
use sl_book::{Front, Reader, Shelf};
use sl_live_lines::GivenLine;
use sl_live_machine::{Mail, Post};
use sl_output::{Front as Pieces, Press, Seat as Writer};
use sl_outside::{Device, LiveDevices, Spawner};
use sl_time::Clock;
use std::alloc::{AllocError, Global};

/// What is there before the threads begin: the machines, and a post and a mail for each.
#[derive(Drop)]
pub(crate) struct Begun<C: Clock, P: Spawner, V: Device, A: Area, O: Press, T: Shelf> {
    pub machines: Vec<Machine<C, P, V, A, O, T>>,
    pub posts: Vec<Post>,
    pub mails: Vec<Mail<T>>,
}

impl<C: Clock, P: Spawner, V: Device, A: Area, O: Press, T: Shelf> Begun<C, P, V, A, O, T> {
    /// A list of machines that have begun, still without one. It takes no memory.
    fn new(alloc: Global) -> Begun<C, P, V, A, O, T>
        ensures { result.machines.items ≡ [] }
    {
        Begun {
            machines: Vec::new(alloc),
            posts: Vec::new(alloc),
            mails: Vec::new(alloc),
        }
    }

    /// A post and a mail for one machine more, and room for it, before its parts live here. An `Err` is want of memory.
    fn make_room(&mut self, alloc: Global, first_job: u64, events: bool) -> Result<(), AllocError>
        ensures room { OnOk result (vec_len self.new.machines < vec_capacity self.new.machines) }
        ensures machines { self.new.machines.items ≡ self.old.machines.items }
    {
        self.machines.reserve(1)?;
        self.posts.reserve(1)?;
        self.mails.reserve(1)?;
        self.posts
            .push_reserved(Post::new(alloc, first_job, events));
        self.mails.push_reserved(Mail::new(alloc));
        Ok(())
    }

    /// One machine more. An `Err` is want of memory.
    fn add(
        &mut self,
        alloc: Global,
        work: Work<C, P, V, A, O, T>,
        events: bool,
    ) -> Result<(), AllocError>
        ensures { OnOk result ((m : MachineOf C P V A O T) × (m.work ≡ Some work) × (self.new.machines.items ≡ self.old.machines.items ++ m ∷ [])) }
    {
        self.make_room(alloc, work.site.first.job, events)?;
        self.machines.push_reserved(Machine::new(work));
        Ok(())
    }
}

/// A place as a number. An `Err` says that it has too many bits.
pub(crate) fn place_of(machines: usize) -> Result<u32, AllocError>
    ensures { IfOk result (λ place. place ≡ machines) }
{
    match u32::try_from(machines) {
        Ok(place) => Ok(place),
        Err(_) => Err(AllocError),
    }
}

/// What the machine at this place is to run on, which has read nothing and put nothing out.
fn work_of<V: LiveDevices, O: Press, T: Shelf>(
    place: u32,
    ready: Prepared<V>,
    unread: &Front<T, GivenLine>,
    pieces: &Pieces<O>,
) -> Work<V::Clock, V::Spawner, V::Device, V::Area, O, T>
    requires unread { unread.now ≡ [] }
    ensures site { result.site ≡ ready.site }
    ensures parts { result.parts ≡ ready.parts }
    ensures by { result.reader.by ≡ place }
    ensures fresh { IsFresh result }
{
    let Prepared { site, parts } = ready;
    Work {
        site,
        parts,
        reader: Reader::new(place, unread),
        writer: Writer::new(place, pieces.again()),
    }
}

/// Makes the machines of these: each reads the lines that come with its place, and puts out pieces with its place, counted from 0. An `Err` is want of memory.
pub(crate) fn begin<V: LiveDevices, O: Press, T: Shelf>(
    alloc: Global,
    prepared: Vec<Prepared<V>>,
    unread: &Front<T, GivenLine>,
    pieces: &Pieces<O>,
    events: bool,
) -> Result<Begun<V::Clock, V::Spawner, V::Device, V::Area, O, T>, AllocError>
    requires unread { unread.now ≡ [] }
    requires pieces { pieces.now ≡ [] }
    ensures sites { IfOk result (λ b. map site_of b.machines.items ≡ map (λ s. Some s) (map (λ p. p.site) prepared.items)) }
    ensures disks { IfOk result (λ b. map disks_of b.machines.items ≡ map (λ d. Some d) (map (λ p. disks_in p.parts) prepared.items)) }
    ensures spawners { IfOk result (λ b. map spawner_of b.machines.items ≡ map (λ x. Some x) (map (λ p. p.parts.spawner) prepared.items)) }
    ensures fresh { IfOk result (λ b. AreFresh b.machines.items) }
{
    let mut begun = Begun::new(alloc);
    for ready in prepared {
        let place = place_of(begun.machines.len())?;
        let work = work_of(place, ready, unread, pieces);
        begun.add(alloc, work, events)?;
    }
    Ok(begun)
}
