//! What is due is lawful of leases: the ways of their work, what they hold, and what is granted, act by act.
//!
//! A step is a list of acts (`sl_due_facts`), and a step keeps whatever each act keeps. So each fact here is shown of acts: what it asks
//! before, and that it holds behind; and that it holds once a step has begun (`.._begin`). A folder a question, in the order in which
//! they stand on one another:
//!
//! 1. `laws::ways`: why each call of a lease was made, and what follows; so numbers, turns and what grants ask follow from the calls.
//! 2. `laws::leases`: so calls on areas keep the laws of areas, blocks and leaders.
//! 3. `laws::holdings`: each holding is of a joined session of its lockspace; at one place an exclusive one is alone, and a process has
//!    one; the holding has its ballot behind it as long as it stands.
//! 4. `laws::grants`, `laws::ends`: so what is granted, in which mode, what ends, what an exit leaves, and what is told of values is
//!    lawful.
#![tactic(auto)]

pub mod laws;
