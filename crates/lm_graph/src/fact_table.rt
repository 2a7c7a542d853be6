// Numbers by facts.
ghost use Rattle.std.specs.Prelude.{◌≡◌, OnOk, [], ◌∷◌, if◌then◌else◌, Some};
ghost use Rattle.indexmap.specs.IndexMap.{get};
ghost use Rattle.sas_task.specs.Facts.{same_fact};
ghost use Rattle.sas_task.specs.declared.contents.Fact.{Fact as TheFact};

use indexmap::IndexMap;
use lama_num::{NoMemory, Seq};
use sas_task::Fact;
use std::alloc::Global;

/// Numbers of lists of facts, such as nodes or groups, to be looked up by each of their facts.
#[derive(Drop)]
pub struct FactTable {
    alloc: Global,
    map: IndexMap<Fact, Seq<u32>>,
}

/// Begins the numbers under a fact.
fn begin(
    alloc: Global,
    map: &mut IndexMap<Fact, Seq<u32>>,
    fact: Fact,
    number: u32,
) -> Result<(), NoMemory>
    ensures { OnOk result ((other : TheFact) → get same_fact map.new other
        ≡ (if same_fact fact other then Some (number ∷ []) else get same_fact map.old other)) }
{
    let mut numbers = Seq::new(alloc);
    numbers.push(number)?;
    map.insert(fact, numbers)?;
    Ok(())
}

impl FactTable {
    ghost use Rattle.lm_graph.specs.FactTables.{numbers_at, PutsNumber, AddsNumber};

    /// The table without a number, which takes no memory.
    pub fn new(alloc: Global) -> FactTable
        ensures { (fact : TheFact) → numbers_at result fact ≡ [] }
    {
        FactTable {
            alloc,
            map: IndexMap::new(alloc),
        }
    }

    /// Puts a number under a fact.
    fn put(&mut self, fact: Fact, number: u32) -> Result<(), NoMemory>
        ensures { OnOk result (PutsNumber self.old self.new fact number) }
    {
        if let Some(numbers) = self.map.get_mut(&fact) {
            numbers.push(number)?;
            return Ok(());
        }
        begin(self.alloc, &mut self.map, fact, number)
    }

    /// Puts the number of a list under each of its facts.
    pub fn add(&mut self, facts: &[Fact], number: u32) -> Result<(), NoMemory>
        ensures { OnOk result (AddsNumber self.old self.new facts.now number) }
    {
        for fact in facts {
            self.put(*fact, number)?;
        }
        Ok(())
    }

    /// The numbers under a fact.
    pub fn numbers(&self, fact: Fact) -> &[u32]
        ensures { result.now ≡ numbers_at self.now fact }
    {
        match self.map.get(&fact) {
            Some(numbers) => numbers,
            None => &[],
        }
    }
}
