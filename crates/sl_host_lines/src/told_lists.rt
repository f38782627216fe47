//! What a command comes to that tells a list: of the joined sessions, or of what each id looks like to one of them.

ghost use Rattle.sl_host_lines.specs.CommandRefusals.{report_in};
ghost use Rattle.sl_host_lines.specs.ToldSessions.{session_in, sessions_in, state_seen, states_in};
ghost use Rattle.sl_due.specs.declared.decision.Decision.TheVariants.{Replies};
ghost use Rattle.sl_host_law.specs.Decisions.CommandDecisions.{member_of, sessions_told, states_told, with_member};
ghost use Rattle.sl_trace.specs.declared.reply.Reply.TheVariants.{Hosts, Sessions};
ghost use Rattle.sl_host.specs.BookQuestions.{state_in};
ghost use Rattle.std.specs.Prelude.{[], cond, length, vec_capacity, ◌++◌, ◌+◌, ◌<◌, ◌∷◌, ◌≡◌, ◌≤◌};

use crate::command_refusals::member_refusal;
use crate::list_memory::Lists;
use crate::lockspace_commands::member_of;
use sl_due::Decision;
use sl_host::Host;
use sl_member::{Member, Members};
use sl_text::Seq;
use sl_trace::{LockspaceArg, Reply, SessionOf, StateOf};

/// What an id looks like to a member at the reading `now`, in milliseconds.
fn state_of(member: &Member, now: u64, id: u32) -> StateOf
    requires { (1 ≤ id) × (id ≤ member.now.run.sizes.hosts) }
    ensures { result ≡ state_seen now member.now.state id }
{
    StateOf {
        id,
        state: member.status(id, now),
    }
}

/// So of all ids, in a list that has memory for them.
#[tactic(auto, using(crate::proofs::ListsAreTold::one_more_state))]
fn states_of(member: &Member, now: u64, hosts: u32, list: Vec<StateOf>) -> Vec<StateOf>
    requires hosts { hosts ≡ member.now.run.sizes.hosts }
    requires empty { list.items ≡ [] }
    requires room { hosts ≤ vec_capacity list }
    ensures { result.items ≡ states_in now member.now.state hosts }
{
    let mut states = list;
    for before in 0..hosts {
        states.push_reserved(state_of(member, now, before + 1));
    }
    states
}

/// A session, as `status` tells it.
fn session_of(member: &Member) -> SessionOf
    ensures { result ≡ session_in member.now.state }
{
    let who = member.who();
    SessionOf {
        lockspace: who.lockspace,
        id: who.id,
        generation: member.known().generation,
    }
}

/// A member, if it is joined, behind those in the list, which has memory for it.
fn push_joined(list: &mut Vec<SessionOf>, member: &Member)
    requires { length list.old.items < vec_capacity list.old }
    ensures items { list.new.items ≡ list.old.items ++ cond member.now.state.joined (session_in member.now.state ∷ []) [] }
    ensures room { vec_capacity list.new ≡ vec_capacity list.old }
{
    if member.is_joined() {
        list.push_reserved(session_of(member));
    }
}

/// The joined members, in a list that has memory for them.
#[tactic(auto, using(crate::proofs::ListsAreTold::one_more_session, crate::proofs::ListsAreTold::all_sessions))]
fn sessions_of(members: &Members, list: Vec<SessionOf>) -> Vec<SessionOf>
    requires empty { list.items ≡ [] }
    requires room { length members.now.members ≤ vec_capacity list }
    ensures { result.items ≡ sessions_in members.now.members }
{
    let mut sessions = list;
    for place in 0..members.len() {
        push_joined(&mut sessions, members.nth(place));
    }
    sessions
}

/// What a `status` comes to: the joined sessions, in a list that has the memory for them.
pub(crate) fn decide_status(host: &Host, lists: Lists) -> Decision
    requires { host.now.seats ≤ lists.sessions }
    ensures { result ≡ Replies (Sessions (sessions_told (state_in host.now.kept))) }
{
    // There are no more members than this: so the proof knows that they all fit.
    let _seats = host.seats();
    let Lists {
        states: _,
        sessions,
    } = lists;
    let sessions = sessions_of(host.members(), sessions);
    Decision::Replies(Reply::Sessions(Seq::new(sessions)))
}

/// The states of all ids are told by a member.
fn tells_states(host: &Host, member: &Member, lists: Lists) -> Decision
    requires run { member.now.run.sizes ≡ host.now.kept.config.sizes }
    requires room { host.now.kept.config.sizes.hosts ≤ lists.states }
    ensures { result ≡ report_in member.now.state (Hosts (states_told (state_in host.now.kept) member.now.state)) }
{
    if let Some(reply) = member_refusal(member) {
        return Decision::Replies(reply);
    }
    let Lists {
        states,
        sessions: _,
    } = lists;
    let hosts = host.config().geometry.hosts();
    let states = states_of(member, host.reading(), hosts, states);
    Decision::Replies(Reply::Hosts(Seq::new(states)))
}

/// What a `host_status` comes to: what each id looks like, in a list that has the memory for it.
pub(crate) fn decide_states(host: &Host, lockspace: &LockspaceArg, lists: Lists) -> Decision
    requires { host.now.kept.config.sizes.hosts ≤ lists.states }
    ensures { result ≡ with_member (member_of (state_in host.now.kept) lockspace.now) (λ m. report_in m (Hosts (states_told (state_in host.now.kept) m))) }
{
    match member_of(host, lockspace) {
        Some(member) => tells_states(host, member, lists),
        None => Decision::Replies(Reply::NoSession),
    }
}
