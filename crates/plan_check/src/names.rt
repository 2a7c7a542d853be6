// The operators of a task by their names.
ghost use Rattle.std.specs.Prelude.{◌≡◌, ◌≤◌, length, IfOk};
ghost use Rattle.std.specs.List.{list_any};
ghost use Rattle.plan_check.specs.Names.{IsIndexOf};
ghost use Rattle.plan_check.specs.Choices.{has_name};
ghost use Rattle.sas_task.specs.declared.limits.TheConstants.{MOST_OPERATORS};

use lama_num::NoMemory;
use sas_task::Operator;
use std::alloc::Global;
use std::collections::HashMap;

/// An index of operators by name.
#[derive(Drop)]
pub struct ByName<'a> {
    /// The lowest operator of each name.
    pub first: HashMap<&'a [u8], u32>,
    /// For each operator the next one of its name.
    pub next: Vec<Option<u32>>,
}

impl<'a> ByName<'a> {
    /// The operators of a task by their names.
    pub fn new(alloc: Global, operators: &'a [Operator]) -> Result<ByName<'a>, NoMemory>
        requires { length operators.now ≤ MOST_OPERATORS }
        ensures { IfOk result (λ by_name. IsIndexOf by_name operators.now) }
    {
        let mut first = HashMap::new(alloc);
        let mut next = vec![in alloc; None; operators.len()]?;
        for op in (0..operators.len()).rev() {
            next[op] = first.insert(operators[op].name.as_slice(), op as u32)?;
        }
        Ok(ByName { first, next })
    }

    /// Whether an operator has the name.
    pub fn has(&self, operators: &[Operator], name: &[u8]) -> bool
        requires { IsIndexOf self.now operators.now }
        ensures { result ≡ list_any (has_name name.now) operators.now }
    {
        self.first.contains_key(name)
    }
}
