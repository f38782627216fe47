//! Whom a session has asked for a resource, and when: a request was written for him and answered ok.
//!
//! The bit of his id is set in the session's renewals until `fail` has passed, so that he looks for the request. Of each id the last such
//! answer is enough, since an earlier one is over sooner; so the places are taken at the start, and an answer takes no memory.

ghost use Rattle.sl_host_state.specs.HeardInputs.{asked_at};
ghost use Rattle.sl_member.specs.AskedRequests.{bits_within, is_asked_within};
ghost use Rattle.sl_time.specs.Times.{fail};
ghost use Rattle.std.specs.Option.{option_map_or};
ghost use Rattle.std.specs.Prelude.{IfOk, None, Some, max, nat_lt, replicate, slice_index_or, slice_set, ◌+◌, ◌-◌, ◌<◌, ◌≡◌, ◌≤◌};

use sl_request::Bitmap;
use sl_sector::HostId;
use sl_time::Timing;
use std::alloc::{AllocError, Global};
use std::marker::Model;

/// Of each id, 1 to the run's number of hosts, the reading of the last answered request to its host.
#[derive(Drop)]
pub struct Asked {
    readings: Vec<Option<u64>>,
}

impl Model for Asked {
    ghost use Rattle.std.specs.Prelude.{List, Option, ℕ};

    ghost Value = { List (Option ℕ) };

    ghost view = { λ a. a.readings.items };
}

/// The later of two readings, the first of which may not be.
fn later(before: Option<u64>, now: u64) -> u64
    ensures { result ≡ option_map_or (max now) before now }
{
    match before {
        Some(reading) => now.max(reading),
        None => now,
    }
}

/// Whether a reading is less than `fail` ago.
fn is_fresh(timing: &Timing, now: u64, reading: u64) -> bool
    ensures { result ≡ nat_lt now (reading + fail timing.now) }
{
    now < reading || now - reading < timing.fail()
}

impl Asked {
    /// Nobody was asked. It takes all the memory that will ever be needed; an `Err` is want of it.
    pub fn new(alloc: Global, hosts: u32) -> Result<Asked, AllocError>
        ensures { IfOk result (λ a. a ≡ replicate hosts None) }
    {
        Ok(Asked {
            readings: vec![in alloc; None; hosts as usize]?,
        })
    }

    /// The reading of the last answered request to the host of an id.
    fn reading(&self, owner: HostId) -> Option<u64>
        requires { 1 ≤ owner }
        ensures { result ≡ slice_index_or self.now (owner - 1) None }
    {
        match self.readings.get(owner as usize - 1) {
            Some(reading) => *reading,
            None => None,
        }
    }

    /// A request to the host of an id was answered at this reading.
    pub fn answered(&mut self, now: u64, owner: HostId)
        requires { 1 ≤ owner }
        ensures { self.new ≡ asked_at now owner self.old }
    {
        let next = later(self.reading(owner), now);
        self.put(owner as usize - 1, next);
    }

    /// Notes a reading at a place, if there is one.
    fn put(&mut self, place: usize, reading: u64)
        ensures { self.new ≡ slice_set self.old place (Some reading) }
    {
        if place < self.readings.len() {
            self.readings[place] = Some(reading);
        }
    }

    /// Whether a request to the host of an id was answered less than `fail` before the reading `now`.
    pub fn is_asked(&self, timing: &Timing, now: u64, owner: HostId) -> bool
        requires { 1 ≤ owner }
        ensures { result ≡ is_asked_within timing.now self.now now owner }
    {
        match self.reading(owner) {
            Some(reading) => is_fresh(timing, now, reading),
            None => false,
        }
    }

    /// The bits that a renewal has at the reading `now`, in a run of so many hosts.
    pub fn bits(&self, timing: &Timing, hosts: u32, now: u64) -> Bitmap
        requires { hosts ≤ 2000 }
        ensures { result ≡ bits_within timing.now hosts self.now now }
    {
        let mut bits = Bitmap::none();
        for before in 0..hosts {
            if self.is_asked(timing, now, before + 1) {
                bits.set(before + 1);
            }
        }
        bits
    }
}
