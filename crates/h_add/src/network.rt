// The unary operators of a relaxation in flat tables, for each fact those that need it among them.
ghost use Rattle.std.specs.Prelude.{◌≡◌, ◌+◌, ◌<◌, ◌≤◌, ◌^◌, ℕ, length, map, IfOk, IsTrue};
ghost use Rattle.std.specs.Prelude.{slice_get, Some, ◌∷◌, ◌++◌, List, OnOk, slice_set, []};
ghost use Rattle.std.specs.Prelude.{replicate};
ghost use Rattle.std.specs.List.{list_all};
ghost use Rattle.relaxed_task.specs.declared.unary.Unary.{Unary as TheUnary};
ghost use Rattle.relaxed_task.specs.Numbers.{is_unary_below};
ghost use Rattle.h_add.specs.Networks.{IsNeededBy, AreFree, open_at_start, IsNeeds, are_below};
ghost use Rattle.h_add.specs.Networks.{needed, Listed};
ghost use Rattle.h_add.specs.Orders.{are_places};
ghost use Rattle.lama_num.specs.Rows.{row_at};

use lama_num::{LARGEST_ESTIMATE, NoMemory, Rows, Seq};
use relaxed_task::{Relaxed, Unary};
use std::alloc::{AllocError, Global};
use std::marker::Model;

/// The conditions of a unary operator that aren't reached yet, and what it costs with the others.
#[derive(Clone, Copy)]
pub struct Open {
    pub count: u32,
    pub sum: u32,
}

/// A relaxation with its unary operators in tables, for loops over them. Contracts see the
/// relaxation.
#[derive(Drop)]
pub struct Network {
    relaxed: Relaxed,
    /// What each gives.
    gives: Vec<u32>,
    /// What each has open when nothing is reached.
    opens: Vec<Open>,
    /// For each fact those that need it, and last those without conditions.
    needs: Rows<u32>,
}

impl Model for Network {
    ghost use Rattle.relaxed_task.specs.declared.relaxation.Lists.{Lists};

    ghost Value = { Lists };

    ghost use Rattle.h_add.specs.Networks.{AreTables};

    ghost view = { λ n. n.relaxed };

    ghost invariant = { λ n. AreTables n.relaxed n.gives.items n.opens.items n.needs };
}

fn gives_of(alloc: Global, unaries: &[Unary]) -> Result<Vec<u32>, AllocError>
    ensures { IfOk result (λ v. v.items ≡ map (λ u. u.gives) unaries.now) }
{
    unaries.iter().map(|unary| unary.gives).collect(alloc)
}

/// What is open of a unary operator. Conditions are counted with 32 bits: where there are more,
/// there is no memory for them.
fn open_of(unary: &Unary) -> Result<Open, NoMemory>
    ensures { IfOk result (λ counts. counts ≡ open_at_start unary.now) }
{
    if unary.conds.len() >= 4_294_967_296 {
        return Err(NoMemory);
    }
    Ok(Open {
        count: (unary.conds.len() as u32).max(1),
        sum: unary.cost.min(LARGEST_ESTIMATE),
    })
}

fn opens_of(alloc: Global, unaries: &[Unary]) -> Result<Vec<Open>, NoMemory>
    ensures { IfOk result (λ v. v.items ≡ map open_at_start unaries.now) }
{
    let mut opens = Vec::with_capacity(alloc, unaries.len())?;
    for unary in unaries {
        let open = open_of(unary)?;
        opens.push(open)?;
    }
    Ok(opens)
}

impl Network {
    /// The tables of a relaxation.
    #[tactic(auto, using(crate::proofs::ListGrowth::gives_below))]
    pub fn new(alloc: Global, relaxed: Relaxed) -> Result<Network, NoMemory>
        ensures { IfOk result (λ network. network ≡ relaxed) }
    {
        // They are numbered with 32 bits: where there are more, there is no memory for them.
        if relaxed.unary().len() >= 4_294_967_296 {
            return Err(NoMemory);
        }
        let gives = gives_of(alloc, relaxed.unary())?;
        let opens = opens_of(alloc, relaxed.unary())?;
        let needs = needs_of(alloc, relaxed.unary(), relaxed.facts())?;
        Ok(Network {
            relaxed,
            gives,
            opens,
            needs,
        })
    }

    /// The relaxed task that it is made of.
    pub fn relaxed(&self) -> &Relaxed
        ensures { result.now ≡ self.now }
    {
        &self.relaxed
    }

    /// What a unary operator gives.
    pub fn gives(&self, place: usize) -> u32
        requires { place < length self.now.unaries }
        ensures gives { (u : TheUnary) → slice_get self.now.unaries place ≡ Some u →
            result ≡ u.gives }
        ensures below { result < self.now.facts }
    {
        self.gives[place]
    }

    /// The unary operators that need a fact: each as often as the fact stands among its conditions.
    pub fn needs(&self, fact: usize) -> &[u32]
        requires { fact < self.now.facts }
        ensures needs { IsNeededBy self.now.unaries self.now.facts fact result.now }
        ensures within { IsTrue (are_places (length self.now.unaries) result.now) }
    {
        self.needs.row(fact)
    }

    /// The unary operators without conditions.
    #[tactic(auto, using(crate::proofs::ListGrowth::free_of_needs))]
    pub fn free(&self) -> &[u32]
        ensures free { AreFree self.now.unaries result.now }
        ensures within { IsTrue (are_places (length self.now.unaries) result.now) }
    {
        self.needs.row(self.relaxed.facts() as usize)
    }

    /// Opens all conditions.
    pub fn open_all(&self, opens: &mut [Open])
        requires { length opens.old ≡ length self.now.unaries }
        ensures { opens.new ≡ map open_at_start self.now.unaries }
    {
        opens.copy_from_slice(&self.opens);
    }
}

/// Adds a place to the list of each of some facts.
fn add_to_all(lists: &mut [Seq<u32>], facts: &[u32], place: u32) -> Result<(), AllocError>
    requires { IsTrue (are_below (length lists.old) facts.now) }
    ensures { OnOk result (Listed lists.old lists.new facts.now place) }
{
    for fact in facts {
        lists[*fact as usize].push(place)?;
    }
    Ok(())
}

fn no_lists(alloc: Global, facts: usize) -> Result<Vec<Seq<u32>>, AllocError>
    ensures { IfOk result (λ v. v.items ≡ replicate facts []) }
{
    let mut lists = Vec::with_capacity(alloc, facts)?;
    for _fact in 0..facts {
        lists.push(Seq::new(alloc))?;
    }
    Ok(lists)
}

/// Adds a unary operator to the lists of what it needs: its conditions, or where it has none the
/// fact that is always there.
fn add_needs(
    lists: &mut [Seq<u32>],
    unary: &Unary,
    always: u32,
    place: u32,
) -> Result<(), AllocError>
    requires always { always < length lists.old }
    requires facts { IsTrue (are_below (length lists.old) unary.now.conds) }
    ensures { OnOk result (Listed lists.old lists.new (needed always unary.now.conds) place) }
{
    if unary.conds.is_empty() {
        add_to_all(lists, &[always], place)
    } else {
        add_to_all(lists, &unary.conds, place)
    }
}

/// Adds each unary operator to the lists of what it needs.
#[tactic(auto, using(crate::proofs::ListGrowth::needed_more))]
fn add_each(lists: &mut [Seq<u32>], unaries: &[Unary], always: u32) -> Result<(), AllocError>
    requires few { length unaries.now < 2 ^ 32 }
    requires always { always < length lists.old }
    requires facts { IsTrue (list_all (is_unary_below (length lists.old)) unaries.now) }
    ensures needs { OnOk result (((fact : ℕ) → row_at lists.old fact ≡ []) →
        IsNeeds unaries.now always lists.new) }
    ensures long { length lists.new ≡ length lists.old }
{
    for (i, unary) in unaries.iter().enumerate() {
        add_needs(lists, unary, always, i as u32)?;
    }
    Ok(())
}

/// The rows of so many facts, and behind them that of a fact which is always there: unary operators
/// without conditions need it.
fn needs_of(alloc: Global, unaries: &[Unary], facts: u32) -> Result<Rows<u32>, NoMemory>
    requires few { length unaries.now < 2 ^ 32 }
    requires facts { IsTrue (list_all (is_unary_below facts) unaries.now) }
    ensures needs { IfOk result (λ rows. IsNeeds unaries.now facts rows) }
    ensures long { IfOk result (λ rows. length rows ≡ facts + 1) }
{
    let mut lists = no_lists(alloc, facts as usize + 1)?;
    add_each(&mut lists, unaries, facts)?;
    Rows::from_lists(alloc, &lists)
}
