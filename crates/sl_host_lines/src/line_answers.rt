//! Lines that are answered at once, and those that make a call: an area, a request or a value is read, a value is written.

ghost use Rattle.sl_area.specs.AreaSizes.{layout_of};
ghost use Rattle.sl_area.specs.AreaLayout.{area_sectors, is_base, value_offset};
ghost use Rattle.sl_due.specs.declared.decision.Decision.TheVariants.{GetsValue, ReadsArea, Replies, Requests, SetsValue};
ghost use Rattle.sl_host_law.specs.Steps.LineSteps.{deciding, lining};
ghost use Rattle.sl_host_state.specs.HeardInputs.{heard_line};
ghost use Rattle.sl_host_lines.specs.LineFacts.{IsTimely};
ghost use Rattle.sl_host.specs.Host.{Becomes, SameRun, Spends};
ghost use Rattle.std.specs.Prelude.{Err, IsTrue, ◌+◌, ◌≡◌, ◌≤◌};

use sl_host::Host;
use sl_sector::{Rec, ValueRec};
use sl_trace::{Command, LeaseStep, Op, Purpose, Reply, ResourceArg, Session, Spot, Work};

/// A line that says no command: the column of the first word that doesn't fit is told.
pub fn misread(host: &mut Host, column: u64)
    requires { 1 ≤ host.old.left }
    ensures state { Becomes host.old host.new (lining (Err column)) }
    ensures left { Spends host.old host.new 1 0 }
    ensures run { SameRun host.old host.new }
{
    host.misread_line(column);
}

/// A line that is answered at once.
pub(crate) fn answer(host: &mut Host, command: &Command, reply: Reply)
    requires { 1 ≤ host.old.left }
    ensures state { Becomes host.old host.new (deciding command.now (Replies reply)) }
    ensures left { Spends host.old host.new 1 0 }
    ensures run { SameRun host.old host.new }
{
    host.answer_line(command, reply);
}

/// A line is a job from here on: its number.
pub(crate) fn begin(host: &mut Host, command: &Command) -> u64
    requires left { 1 ≤ host.old.left }
    requires timely { IsTimely host.old.kept }
    ensures state { Becomes host.old host.new (heard_line command.now) }
    ensures job { result ≡ host.old.kept.next_job }
    ensures calls { host.new.calls ≡ host.old.calls }
    ensures left { Spends host.old host.new 1 0 }
    ensures run { SameRun host.old host.new }
{
    let job = host.next_job();
    host.hear_line(command);
    job
}

/// Sectors of leader, request and blocks.
fn area_sectors(host: &Host) -> u32
    ensures { result ≡ area_sectors (layout_of host.now.kept.config.sizes) }
{
    host.config().geometry.block_sectors() + 2
}

/// Where the value stands, in the resource's area at this base.
fn value_of(host: &Host, base: u64) -> u64
    requires { IsTrue (is_base (layout_of host.now.kept.config.sizes) base) }
    ensures { result ≡ value_offset (layout_of host.now.kept.config.sizes) base }
{
    host.config().geometry.value_place(base).offset()
}

/// Work on a lease begins with a read of the area.
pub(crate) fn read_area(
    host: &mut Host,
    command: &Command,
    session: &Session,
    resource: &ResourceArg,
)
    requires left { 1 ≤ host.old.left }
    requires calls { 1 ≤ host.old.calls }
    requires timely { IsTimely host.old.kept }
    ensures state { Becomes host.old host.new (deciding command.now (ReadsArea session.now resource.now)) }
    ensures left { Spends host.old host.new 1 1 }
    ensures run { SameRun host.old host.new }
{
    let sectors = area_sectors(host);
    let job = begin(host, command);
    let purpose = Purpose::Lease {
        work: Work::ForJob { job },
        step: LeaseStep::ReadArea {
            resource: resource.name,
        },
    };
    host.call(
        session.number,
        resource.path,
        purpose,
        resource.offset,
        Op::ReadSectors { sectors },
    );
}

/// A request begins with a read of leader and request.
pub(crate) fn request(host: &mut Host, command: &Command, session: &Session, resource: &ResourceArg)
    requires left { 1 ≤ host.old.left }
    requires calls { 1 ≤ host.old.calls }
    requires timely { IsTimely host.old.kept }
    ensures state { Becomes host.old host.new (deciding command.now (Requests session.now resource.now)) }
    ensures left { Spends host.old host.new 1 1 }
    ensures run { SameRun host.old host.new }
{
    let job = begin(host, command);
    host.call(
        session.number,
        resource.path,
        Purpose::RequestRead { job },
        resource.offset,
        Op::ReadSectors { sectors: 2 },
    );
}

/// The line is a job, which reads the value's sector.
pub(crate) fn get_value(host: &mut Host, command: &Command, session: &Session, at: &Spot)
    requires left { 1 ≤ host.old.left }
    requires calls { 1 ≤ host.old.calls }
    requires timely { IsTimely host.old.kept }
    requires area { IsTrue (is_base (layout_of host.old.kept.config.sizes) at.now.base) }
    ensures state { Becomes host.old host.new (deciding command.now (GetsValue session.now at.now)) }
    ensures left { Spends host.old host.new 1 1 }
    ensures run { SameRun host.old host.new }
{
    let offset = value_of(host, at.base);
    let job = begin(host, command);
    host.call(
        session.number,
        at.path,
        Purpose::ValueRead { job },
        offset,
        Op::ReadSectors { sectors: 1 },
    );
}

/// The line is a job, which writes this value.
pub(crate) fn set_value(
    host: &mut Host,
    command: &Command,
    session: &Session,
    at: &Spot,
    value: ValueRec,
)
    requires left { 1 ≤ host.old.left }
    requires calls { 1 ≤ host.old.calls }
    requires timely { IsTimely host.old.kept }
    requires area { IsTrue (is_base (layout_of host.old.kept.config.sizes) at.now.base) }
    ensures state { Becomes host.old host.new (deciding command.now (SetsValue session.now at.now value)) }
    ensures left { Spends host.old host.new 1 1 }
    ensures run { SameRun host.old host.new }
{
    let offset = value_of(host, at.base);
    let job = begin(host, command);
    let record = Rec::ValueIs(value);
    host.call(
        session.number,
        at.path,
        Purpose::ValueWrite { job },
        offset,
        Op::WriteRecord { record },
    );
}
