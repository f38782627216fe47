//! What stands round every sector call of a worker. A test holds a call there; a run of the program does not.

/// Is told of each sector call before it is made and after.
pub trait Gate {
    /// A worker of this machine is about to make this call.
    fn enter(&self, machine: u32, call: u64);

    /// The worker has made the call of this number, and leaves the gate.
    fn left(&self, machine: u32, call: u64);
}

/// The gate of a run of the program: it holds no call.
#[derive(Clone, Copy)]
pub struct OpenGate;

impl Gate for OpenGate {
    fn enter(&self, _machine: u32, _call: u64) {}

    fn left(&self, _machine: u32, _call: u64) {}
}

/// A gate that may be lacking; then nothing is held.
impl<G: Gate> Gate for Option<G> {
    fn enter(&self, machine: u32, call: u64) {
        if let Some(gate) = self {
            gate.enter(machine, call);
        }
    }

    fn left(&self, machine: u32, call: u64) {
        if let Some(gate) = self {
            gate.left(machine, call);
        }
    }
}
