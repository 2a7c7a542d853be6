// The log of a phase.
ghost use Rattle.std.specs.Prelude.{◌≡◌, ◌<◌, ◌^◌, ◌++◌, ◌∷◌, [], length, slice_get, Some};
ghost use Rattle.std.specs.Prelude.{OnOk, OnErr, vec_len, IsSomeAnd};
ghost use Rattle.search_log.specs.Logs.{Visit};

use crate::columns::{PopRow, VisitRow};
use crate::turns::{Pop, VisitAt};
use guide::Seen;
use lama_num::{NoMemory, Rows};
use std::alloc::Global;
use std::marker::Model;

/// What a phase of a search did: its visits and its pops, each in order.
///
/// A pop takes 12 bytes and a visit 40, and the preferred operators of all visits stand in one
/// vector. A log with 2^32 visits or preferred operators finds no memory.
#[derive(Drop)]
pub struct Log {
    visits: Vec<VisitRow>,
    preferred: Rows<u32>,
    pops: Vec<PopRow>,
}

impl Model for Log {
    ghost use Rattle.std.specs.Prelude.{◌≡◌, ◌<◌, ◌^◌, length, map};
    ghost use Rattle.search_log.specs.Logs.{Content};
    ghost use Rattle.search_log.specs.Columns.{beside, visit_of, pop_of};

    ghost Value = { Content };

    ghost view = { λ l. record {
      visits = beside visit_of l.visits.items l.preferred;
      pops = map pop_of l.pops.items;
    } };

    ghost invariant = { λ l. (length l.visits.items ≡ length l.preferred) ×
        (length l.visits.items < 2 ^ 32) };
}

/// Adds a visit to both columns, or to none.
fn add_visit(
    visits: &mut Vec<VisitRow>,
    preferred: &mut Rows<u32>,
    visit: VisitRow,
    operators: &[u32],
) -> Result<(), NoMemory>
    ensures visits { OnOk result (visits.new.items ≡ visits.old.items ++ visit ∷ []) }
    ensures preferred { OnOk result (preferred.new ≡ preferred.old ++ operators.now ∷ []) }
    ensures same_visits { OnErr result (visits.new.items ≡ visits.old.items) }
    ensures same_preferred { OnErr result (preferred.new ≡ preferred.old) }
{
    visits.reserve(1)?;
    preferred.push(operators)?;
    visits.push_reserved(visit);
    Ok(())
}

impl Log {
    /// A log without a visit and without a pop, which takes no memory.
    pub fn new(alloc: Global) -> Log
        ensures visits { result.visits ≡ [] }
        ensures pops { result.pops ≡ [] }
    {
        Log {
            visits: Vec::new(alloc),
            preferred: Rows::new(alloc),
            pops: Vec::new(alloc),
        }
    }

    /// Adds a visit at the end.
    pub fn push_visit(&mut self, id: u32, g: u64, seen: &Seen) -> Result<(), NoMemory>
        ensures visits { OnOk result
            (self.new.visits ≡ self.old.visits ++ record { id = id; g = g; seen = seen.now } ∷ []) }
        ensures pops { OnOk result (self.new.pops ≡ self.old.pops) }
        ensures err { OnErr result (self.new ≡ self.old) }
    {
        if self.visits.len() >= 4_294_967_295 {
            return Err(NoMemory);
        }
        let estimates = seen.estimates;
        let visit = VisitRow {
            g,
            id,
            estimates,
            dead: seen.dead,
        };
        add_visit(
            &mut self.visits,
            &mut self.preferred,
            visit,
            &seen.preferred,
        )?;
        Ok(())
    }

    /// Adds a pop at the end.
    pub fn push_pop(&mut self, pop: Pop) -> Result<(), NoMemory>
        requires { pop.list < 2 ^ 8 }
        ensures pops { OnOk result (self.new.pops ≡ self.old.pops ++ pop ∷ []) }
        ensures visits { OnOk result (self.new.visits ≡ self.old.visits) }
        ensures err { OnErr result (self.new ≡ self.old) }
    {
        if pop.parent >= 4_294_967_296 {
            return Err(NoMemory);
        }
        let row = PopRow {
            parent: pop.parent as u32,
            op: pop.op,
            list: pop.list as u8,
            result: pop.result,
        };
        self.pops.push(row)?;
        Ok(())
    }

    /// How many visits there are.
    pub fn visits(&self) -> usize
        ensures count { result ≡ length self.now.visits }
        ensures few { result < 2 ^ 32 }
    {
        self.visits.len()
    }

    /// How many pops there are.
    pub fn pops(&self) -> usize
        ensures { result ≡ length self.now.pops }
    {
        self.pops.len()
    }

    /// A visit by its number, from 0.
    pub fn visit(&self, number: usize) -> VisitAt<'_>
        requires { number < length self.now.visits }
        ensures { slice_get self.now.visits number ≡ Some (record {
          id = result.id;
          g = result.g;
          seen = record {
            dead = result.dead;
            estimates = result.estimates;
            preferred = result.preferred.now;
          };
        }) }
    {
        let visit = self.visits[number];
        let estimates = visit.estimates;
        VisitAt {
            id: visit.id,
            g: visit.g,
            dead: visit.dead,
            estimates,
            preferred: self.preferred.row(number),
        }
    }

    /// A pop by its number, from 0.
    pub fn pop(&self, number: usize) -> Pop
        requires { number < length self.now.pops }
        ensures { slice_get self.now.pops number ≡ Some result }
    {
        let row = self.pops[number];
        Pop {
            list: u32::from(row.list),
            parent: u64::from(row.parent),
            op: row.op,
            result: row.result,
        }
    }
}
