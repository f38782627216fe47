//! Where names come from.
ghost use Rattle.sl_outside.specs.MemBits.{after_bits, next_bits};
ghost use Rattle.std.specs.Prelude.{◌≡◌};

use std::collections::VecDeque;
use std::fs::{File, Files};
use std::io::Read;
use std::marker::Model;
use std::time::{Clock, SystemTime};

/// Gives bits that names are made of.
pub trait Words: Drop {
    /// 128 bits. Over the outside they are other ones at each call, as far as the system keeps its promise.
    fn bits(&mut self) -> u128;
}

/// Bits that are handed in, and one number for good behind them.
#[derive(Drop)]
pub struct MemWords {
    bits: VecDeque<u128>,
    then: u128,
}

impl Model for MemWords {
    ghost use Rattle.sl_outside.specs.MemBits.{Bits};

    ghost Value = { Bits };

    ghost view = { λ w. record { bits = w.bits.items; then_ = w.then } };
}

impl MemWords {
    /// These, and then always the last number.
    pub fn new(bits: Vec<u128>, then: u128) -> MemWords
        ensures { result ≡ record { bits = bits.items; then_ = then } }
    {
        MemWords {
            bits: VecDeque::from(bits),
            then,
        }
    }
}

impl Words for MemWords {
    fn bits(&mut self) -> u128
        ensures next { result ≡ next_bits self.old }
        ensures exact { self.new ≡ after_bits self.old }
    {
        self.bits.pop_front().unwrap_or(self.then)
    }
}

/// Where the system has its random bytes.
const RANDOM: &str = "/dev/urandom";

/// Random bits of the system. Where it gives none, the nanoseconds of its clock stand in, with the machine's number behind them.
#[derive(Drop)]
pub struct SystemWords<R> {
    rt: R,
    machine: u32,
}

impl<R> Model for SystemWords<R> {
    ghost use Rattle.std.specs.Prelude.{ℕ};

    ghost Value = { ℕ };

    ghost view = { λ w. w.machine };
}

impl<R: Files + Clock> SystemWords<R> {
    /// Bits of the system, for the name of this machine's daemon.
    pub fn new(rt: R, machine: u32) -> SystemWords<R>
        ensures { result ≡ machine }
    {
        SystemWords { rt, machine }
    }

    /// 16 bytes of the system's randomness.
    fn random(&self) -> Option<u128> {
        let mut bytes = [0; 16];
        let mut file = File::open(&self.rt, RANDOM).ok()?;
        file.read_exact(&mut bytes).ok()?;
        Some(u128::from_be_bytes(bytes))
    }

    /// The clock's nanoseconds, and the machine's number in the last 32 bits.
    fn of_the_time(&self) -> u128 {
        let nanos = match SystemTime::now(&self.rt) {
            Ok(now) => match now.duration_since(SystemTime::UNIX_EPOCH) {
                Ok(passed) => passed.as_nanos(),
                Err(_) => 0,
            },
            Err(_) => 0,
        };
        nanos
            .wrapping_mul(1 << 32)
            .wrapping_add(u128::from(self.machine))
    }
}

impl<R: Files + Clock + Drop> Words for SystemWords<R> {
    fn bits(&mut self) -> u128 {
        match self.random() {
            Some(bits) => bits,
            None => self.of_the_time(),
        }
    }
}
