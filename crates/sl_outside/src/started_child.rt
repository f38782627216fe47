//! A child that was started, before it has its place among a machine's children.

use crate::running_child::Program;

/// A child in memory: how many polls it lives.
#[derive(Clone, Copy)]
pub struct MemLife {
    pub polls: u64,
}

/// A child that was started: a program of the system, or one in memory.
#[derive(Drop)]
pub enum StartedChild {
    Program(Program),
    InMemory(MemLife),
}
