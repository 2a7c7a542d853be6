// Tables of a task and of its graph.
ghost use Rattle.std.specs.Prelude.{◌≡◌, ◌<◌, ◌&&◌, ◌||◌, ℕ, length, nat_eq, IfOk};
ghost use Rattle.std.specs.List.{list_any, filter_map};
ghost use Rattle.sas_task.specs.declared.contents.Parts.{Parts};
ghost use Rattle.lm_graph.specs.Graphs.{kind_of};
ghost use Rattle.lm_orders.specs.Givers.{Indexes, AreGivers, AreWithin, HasCompanies, IsCompany};
ghost use Rattle.lm_orders.specs.Givers.{fact_before as before_fact};
ghost use Rattle.lm_orders.specs.Tables.{share, mutex_by, AreLong, AreTables};

use crate::facts::fact_at;
use crate::givers::{Givers, index};
use lama_num::{NoMemory, Rows};
use lm_graph::{Edge, FactTable, Graph, Node, Order, Successors};
use sas_task::{Fact, Task};
use std::alloc::{AllocError, Global};

/// What is looked up of a task and of its graph, made once.
#[derive(Drop)]
pub(crate) struct Tables {
    /// The mutex groups of a fact.
    pub groups: FactTable,
    /// What goes with each node of one fact.
    pub company: Rows<Fact>,
    pub successors: Successors,
}

fn index_groups(alloc: Global, task: &Task) -> Result<FactTable, NoMemory>
    ensures { IfOk result (Indexes task.now.groups) }
{
    let groups = Rows::from_lists(alloc, &task.parts().groups)?;
    index(alloc, &groups)
}

fn fact_before(nodes: &[Node], edge: Edge) -> Option<Fact>
    ensures { result ≡ before_fact nodes.now edge }
{
    if edge.kind.is_as_strong(Order::GreedyNecessary) {
        fact_at(nodes, edge.node)
    } else {
        None
    }
}

/// The facts that are to hold directly before a node.
fn facts_before(alloc: Global, nodes: &[Node], row: &[Edge]) -> Result<Vec<Fact>, AllocError>
    ensures { IfOk result (λ facts. facts.items ≡ filter_map (before_fact nodes.now) row.now) }
{
    row.iter()
        .filter_map(|edge| fact_before(nodes, *edge))
        .collect(alloc)
}

/// The facts that go with a node of one fact.
fn company_of(
    alloc: Global,
    givers: &Givers,
    graph: &Graph,
    node: u32,
    fact: Fact,
) -> Result<Vec<Fact>, NoMemory>
    requires node { node < length graph.now.nodes }
    requires within { AreWithin givers.now }
    ensures { IfOk result (λ company. (parts : Parts) → AreGivers parts givers.now →
        IsCompany parts graph.now.nodes (kind_of graph.now) node fact company.items) }
{
    let mut company = givers.partners(alloc, fact)?;
    let before = facts_before(alloc, graph.nodes(), graph.orders_to(node))?;
    company.extend_from_slice(&before)?;
    company.push(fact)?;
    Ok(company)
}

/// The facts that go with each node of one fact.
fn companies(alloc: Global, givers: &Givers, graph: &Graph) -> Result<Rows<Fact>, NoMemory>
    requires { AreWithin givers.now }
    ensures long { IfOk result (λ rows. length rows ≡ length graph.now.nodes) }
    ensures each { IfOk result (λ rows. (parts : Parts) → AreGivers parts givers.now →
        HasCompanies parts graph.now.nodes (kind_of graph.now) (length graph.now.nodes) rows) }
{
    let mut rows = Rows::new(alloc);
    for node in 0..graph.nodes().len() {
        match fact_at(graph.nodes(), node as u32) {
            Some(fact) => {
                let company = company_of(alloc, givers, graph, node as u32, fact)?;
                rows.push(&company)?;
            }
            None => rows.push(&[])?,
        }
    }
    Ok(rows)
}

fn has_number(numbers: &[u32], number: u32) -> bool
    ensures { result ≡ list_any (nat_eq number) numbers.now }
{
    numbers.iter().any(|other| number == *other)
}

fn have_common(a: &[u32], b: &[u32]) -> bool
    ensures { result ≡ share a.now b.now }
{
    a.iter().any(|number| has_number(b, *number))
}

impl Tables {
    /// What reasonable orders of a graph are found by.
    pub fn new(alloc: Global, task: &Task, graph: &Graph) -> Result<Tables, NoMemory>
        ensures long { IfOk result (AreLong graph.now) }
        ensures tables { IfOk result (AreTables task.now graph.now) }
    {
        let groups = index_groups(alloc, task)?;
        let givers = Givers::new(alloc, task)?;
        let company = companies(alloc, &givers, graph)?;
        let successors = graph.successors()?;
        Ok(Tables {
            groups,
            company,
            successors,
        })
    }

    /// Whether two facts are mutex, by the numbers of their groups.
    fn is_mutex(&self, a: Fact, b: Fact) -> bool
        ensures { result ≡ mutex_by self.now.groups a b }
    {
        a != b && (a.var == b.var || have_common(self.groups.numbers(a), self.groups.numbers(b)))
    }

    /// Whether a fact is mutex with one of some.
    pub fn is_mutex_with(&self, facts: &[Fact], fact: Fact) -> bool
        ensures { result ≡ list_any (λ other. mutex_by self.now.groups other fact) facts.now }
    {
        facts.iter().any(|other| self.is_mutex(*other, fact))
    }
}
