//! The trait of a daemon, and what one is begun with.

ghost use Rattle.sl_world_state.specs.Daemons.{IsNumbered, IsStep, MayCome, begun_with, entry_of, read_of, text_for_locks};
ghost use Rattle.sl_run.specs.Lawful.{IsSetting};
ghost use Rattle.sl_run.specs.Headers.{IsHeader};
ghost use Rattle.sl_run.specs.declared.header.Header.{Header as HeaderOf};
ghost use Rattle.sl_text.specs.Forms.{Form};
ghost use Rattle.sl_trace.specs.Traces.{Setting, Trace, is_expected};
ghost use Rattle.sl_trace.specs.declared.command.Command.{Command};
ghost use Rattle.sl_trace.specs.declared.input.Input.{Input as InputOf};
ghost use Rattle.std.specs.Prelude.{Bool, IfOk, IsOk, List, OnErr, OnOk, [], false, ℕ, ◌∷◌, ◌≡◌, ◌≤◌};

use sl_run::Header;
use sl_sector::Images;
use sl_text::{Name, Seq};
use sl_trace::{Effects, Given, Input, Numbers};
use std::alloc::{AllocError, Global};

/// What a daemon is begun with, beside the header: its machine, its name, the numbers of its first call and job, and its sessions, if
/// it begins with any.
#[derive(Drop)]
pub struct Site {
    pub machine: u32,
    pub name: Name,
    pub first: Numbers,
    pub given: Seq<Given>,
}

/// How much a step may make at most, of each class of effects.
#[derive(Clone, Copy)]
pub struct Most {
    pub ends: usize,
    pub signals: usize,
    pub moves: usize,
    pub grants: usize,
    pub starts: usize,
    pub replies: usize,
    pub calls: usize,
}

/// What a world, or a live machine, knows of the daemons that run in it: numbers in turn, records where something is written, no more
/// effects than were said before. Nothing here says what a daemon must do.
pub trait Daemon: Drop {
    ghost use Rattle.sl_world_state.specs.declared.daemon.Most.{Most};

    /// The forms of the commands that daemons of this kind read.
    ghost commands: { HeaderOf → List (Form Command) };

    /// For which settings and traces it stands.
    ghost stands: { Self → Setting → Trace → Type 0 };

    /// How much its next step makes at most.
    ghost makes: { Self → Most };

    /// For how many steps memory stands by: one or none.
    ghost spare: { Self → ℕ };

    /// Whether a step at this input takes memory beside it.
    ghost takes_more: { Self → InputOf → Bool };

    /// Whether a command line is for lvmlockd's process, which acts by lines of its own alone: such a line may not come to a daemon.
    fn is_for_locks(header: &Header, text: &[u8]) -> bool
        requires { IsHeader header.now }
        ensures { result ≡ text_for_locks commands header.now text.now };

    /// A daemon begins. An `Err` is want of memory.
    fn begin(alloc: Global, header: &Header, site: Site) -> Result<Self, AllocError>
        requires { IsHeader header.now × IsSetting (begun_with commands header.now site) }
        ensures { IfOk result (λ d. stands d (begun_with commands header.now site) []) };

    /// Whether the input may come: an answer is of a call that has none, of its kind and length; a start that is answered waits for it.
    fn expects(&self, input: &Input) -> bool
        ensures { (st : Setting) → (es : Trace) → stands self.now st es → result ≡ is_expected st es input.now };

    /// How much its next step makes at most.
    fn most(&self) -> Most
        ensures { result ≡ makes self.now };

    /// Sees that the memory of one step more stands by, so that a step which takes none beside it can't want any. It changes nothing that a later
    /// step does. An `Err` is want of memory, or of numbers, and changes nothing.
    fn reserve(&mut self) -> Result<(), AllocError>
        requires { (st : Setting) × (es : Trace) × stands self.old st es }
        ensures ok { OnOk result (spare self.new ≡ 1) }
        ensures stands { (st : Setting) → (es : Trace) → stands self.old st es → stands self.new st es }
        ensures err { OnErr result (self.new ≡ self.old) };

    /// One step. An `Err` is want of memory, and changes nothing.
    fn step(&mut self, now: u64, input: &Input) -> Result<Effects, AllocError>
        requires { (st : Setting) × (es : Trace) × stands self.old st es × MayCome st es now input.now }
        ensures stays { (st : Setting) → (es : Trace) → stands self.old st es → MayCome st es now input.now
            → IfOk result (λ fx. stands self.new st (entry_of now input.now fx ∷ es) × IsNumbered st es fx) }
        ensures sound { (st : Setting) → (es : Trace) → stands self.old st es → MayCome st es now input.now → IfOk result (IsStep st (makes self.old)) }
        ensures err { OnErr result (self.new ≡ self.old) }
        // with memory standing by it is done, and at most that memory is used
        ensures spared { spare self.old ≡ 1 → takes_more self.old input.now ≡ false → IsOk result }
        ensures spent { spare self.new ≤ spare self.old };

    /// The effects of a step were told: their memory may serve a later step, and is then taken out of them. Nothing that is seen of the daemon
    /// changes.
    fn take_back(&mut self, told: &mut Effects)
        ensures { self.new ≡ self.old };

    /// One step, at the answer ok of a read, with the sectors as the world has them. An `Err` is want of memory, and changes nothing.
    fn read(&mut self, now: u64, call: u64, sectors: &Images) -> Result<Effects, AllocError>
        requires { (st : Setting) × (es : Trace) × stands self.old st es × MayCome st es now (read_of call sectors.now) }
        ensures stays { (st : Setting) → (es : Trace) → stands self.old st es → MayCome st es now (read_of call sectors.now)
            → IfOk result (λ fx. stands self.new st (entry_of now (read_of call sectors.now) fx ∷ es) × IsNumbered st es fx) }
        ensures sound { (st : Setting) → (es : Trace) → stands self.old st es → MayCome st es now (read_of call sectors.now)
            → IfOk result (IsStep st (makes self.old)) }
        ensures err { OnErr result (self.new ≡ self.old) };
}
