// A sink that keeps what it takes.
ghost use Rattle.std.specs.Prelude.{◌≡◌, ◌≤◌, ◌+◌, ◌++◌, ◌⊎◌, length, [], OnOk, OnErr, IsErr};
ghost use Rattle.std.specs.Prelude.{IsTrue, ◌↔◌, Some};
ghost use Rattle.lama_host.specs.Folder.{Rose};
ghost use Rattle.lama_host.specs.Streams.{Takes};
ghost use Rattle.host_mem.specs.Sinks.{IsPast};

use crate::faults::{fail, refuse};
use lama_host::{Failed, Sink};
use std::alloc::Global;
use std::marker::Model;

/// A sink that keeps what it takes, up to so many bytes.
///
/// A put that would pass them fails, and takes nothing.
#[derive(Drop)]
pub struct MemSink {
    bytes: Vec<u8>,
    most: Option<u64>,
    faults: u64,
    refused: u64,
}

impl Model for MemSink {
    ghost use Rattle.host_mem.specs.Sinks.{Sunk, sunk_code};

    ghost Value = { Sunk };

    ghost coded = { sunk_code };

    ghost view = { λ s. record {
      bytes = s.bytes.items;
      most = s.most;
      faults = s.faults;
      refused = s.refused;
    } };
}

/// Whether so many bytes more would pass the most.
fn is_past(most: Option<u64>, held: usize, more: usize) -> bool
    ensures { IsTrue result ↔ IsPast most (held + more) }
{
    match most {
        None => false,
        Some(most) => most < held as u64 || most - (held as u64) < more as u64,
    }
}

impl MemSink {
    /// A sink that fails where it would take more than so many bytes. It takes no memory.
    pub fn new(alloc: Global, fail_from: Option<u64>) -> MemSink
        ensures { result ≡ record { bytes = []; most = fail_from; faults = 0; refused = 0 } }
    {
        MemSink {
            bytes: Vec::new(alloc),
            most: fail_from,
            faults: 0,
            refused: 0,
        }
    }

    /// The bytes that were taken.
    pub fn taken(&self) -> &[u8]
        ensures { result.now ≡ self.now.bytes }
    {
        self.bytes.as_slice()
    }

    /// How often memory was refused, counted up to `u64::MAX`.
    pub fn refused(&self) -> u64
        ensures { result ≡ self.now.refused }
    {
        self.refused
    }
}

/// Adds bytes, or fails.
fn put_in(
    held: &mut Vec<u8>,
    faults: &mut u64,
    refused: &mut u64,
    most: Option<u64>,
    bytes: &[u8],
) -> Result<(), Failed>
    ensures all { OnOk result (held.new.items ≡ held.old.items ++ bytes.now) }
    ensures none { OnErr result (held.new.items ≡ held.old.items) }
    ensures later { faults.old ≤ faults.new }
    ensures failed { OnErr result (Rose faults.old faults.new) }
    ensures refusals { refused.old ≤ refused.new }
    ensures only { OnErr result (IsPast most (length held.old.items + length bytes.now) ⊎
        Rose refused.old refused.new) }
    ensures listed { IsPast most (length held.old.items + length bytes.now) → IsErr result }
    ensures unspoilt { OnOk result ((faults.new ≡ faults.old) × (refused.new ≡ refused.old)) }
{
    if is_past(most, held.len(), bytes.len()) {
        return fail(faults);
    }
    if held.extend_from_slice(bytes).is_err() {
        return refuse(faults, refused);
    }
    Ok(())
}

impl Sink for MemSink {
    ghost taken = { λ s. Some s.bytes };

    ghost faults = { λ s. s.faults };

    /// Takes all of the bytes, or none.
    fn put(&mut self, bytes: &[u8]) -> Result<(), Failed>
        ensures takes { Takes (Some self.old.bytes) (Some self.new.bytes) bytes.now result }
        ensures later { self.old.faults ≤ self.new.faults }
        ensures failed { OnErr result (Rose self.old.faults self.new.faults) }
        ensures none { OnErr result (self.new.bytes ≡ self.old.bytes) }
        ensures most { self.new.most ≡ self.old.most }
        ensures refusals { self.old.refused ≤ self.new.refused }
        ensures only { OnErr result
            (IsPast self.old.most (length self.old.bytes + length bytes.now) ⊎
            Rose self.old.refused self.new.refused) }
        ensures listed { IsPast self.old.most (length self.old.bytes + length bytes.now) →
            IsErr result }
        ensures unspoilt { OnOk result
            ((self.new.faults ≡ self.old.faults) × (self.new.refused ≡ self.old.refused)) }
    {
        put_in(
            &mut self.bytes,
            &mut self.faults,
            &mut self.refused,
            self.most,
            bytes,
        )
    }
}
