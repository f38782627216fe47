//! That what is done to the books is what the state functions say.

ghost use Rattle.sl_host.specs.BooksFollow.{BooksFollowStates};

/// An end, a grant, a signal, a start and a move make of the books what the state functions make of the host.
#[tactic(auto, using(crate::proofs::BooksStand::books_follow))]
pub fn books_follow_states()
    ensures { BooksFollowStates }
{}
