//! What a lease is told of its session's other parts.
ghost use Rattle.std.specs.Prelude.{Bool, ℕ, ◌≡◌};

/// What a session has seen of the other hosts.
pub trait Evidence {
    /// Whom it counts as over: an id and a generation.
    ghost over: { Self → ℕ → ℕ → Bool };

    /// Whether the session of this id and generation counts as over.
    fn is_over(&self, id: u32, generation: u64) -> bool
        ensures { result ≡ over self.now id generation };
}

/// What is held under a lease now: a fact of the holdings, which the lease does not keep itself.
#[derive(Clone, Copy)]
pub struct Held {
    /// Whether a process holds the resource shared.
    pub shared: bool,
    /// The instance under which a process holds it exclusive, if one does.
    pub exclusive: Option<u64>,
}
