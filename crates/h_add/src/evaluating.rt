// One evaluation: what is left out, what is reached at first, and what is settled after it.
ghost use Rattle.std.specs.Prelude.{◌≡◌, ◌<◌, ◌≤◌, ◌∷◌, ◌++◌, [], ℕ, List, length, true, false};
ghost use Rattle.std.specs.Prelude.{map, IsTrue};
ghost use Rattle.relaxed_task.specs.Numbers.{is_among, number_by, numbers_by, numbers_of};
ghost use Rattle.relaxed_task.specs.declared.unary.Unary.{Unary};
ghost use Rattle.h_add.specs.Networks.{are_below};
ghost use Rattle.h_add.specs.UnderWay.{is_settled, IsUnderWay, IsFresh, IsFrom, HasMarked};
ghost use Rattle.h_add.specs.UnderWay.{IsSettling, IsLater, AreSettled};
ghost use Rattle.std.specs.List.{list_all};
ghost use Rattle.cost_queue.specs.Queues.{IsIdle};
ghost use Rattle.sas_task.specs.declared.contents.CostKind.{CostKind};
ghost use Rattle.sas_task.specs.declared.contents.Parts.{Parts};
ghost use Rattle.sas_task.specs.States.{IsState};
ghost use Rattle.sas_task.specs.WellFormed.{is_fact};
ghost use Rattle.h_add.specs.ByNumber.{start_facts, IsAdd};
ghost use Rattle.relaxed_task.specs.Relaxations.{IsRelaxed};
ghost use Rattle.h_add.specs.Orders.{IsOrder, are_places};
ghost use Rattle.h_add.specs.Values.{value_at, IsEvaluatedByNumber};

use crate::network::Network;
use crate::settling::Settling;
use sas_task::Fact;

impl Settling {
    /// Leaves out some facts: they count as settled, and nothing gives them.
    fn leave_all_out(&mut self, network: &Network, excluded: &[Fact])
        requires facts { network.now.facts ≡ length self.old.costs }
        ensures fresh { (unaries : List Unary) → IsFresh unaries self.old →
            IsFresh unaries self.new }
        ensures out { (parts : Parts) (kind : CostKind) → IsRelaxed parts kind network.now →
            IsTrue (list_all (is_fact parts.variables) excluded.now) →
            ((fact : ℕ) → is_settled self.old fact ≡ false) → (fact : ℕ) →
            is_settled self.new fact ≡ is_among (numbers_of parts.variables excluded.now) fact }
        ensures long { length self.new.costs ≡ length self.old.costs }
    {
        for fact in excluded {
            self.leave_out(network.relaxed().number(fact.var as usize, fact.val));
        }
    }

    /// Lets a fact be there at first, where there is one that isn't settled yet.
    fn mark(&mut self, network: &Network, fact: usize)
        requires facts { network.now.facts ≡ length self.old.costs }
        requires way { IsUnderWay network.now.unaries 0 [] self.old }
        ensures { HasMarked network.now.unaries (fact ∷ []) self.old self.new }
    {
        if fact < self.costs().len() && !self.is_settled(fact) {
            self.be_there(fact);
            self.walk(network, network.needs(fact), 0);
        }
    }

    /// Lets some facts be there at first.
    #[tactic(auto, using(crate::proofs::Steps::marks))]
    fn mark_all(&mut self, network: &Network, facts: &[u32])
        requires facts { network.now.facts ≡ length self.old.costs }
        requires way { IsUnderWay network.now.unaries 0 [] self.old }
        ensures { HasMarked network.now.unaries facts.now self.old self.new }
    {
        for fact in facts {
            self.mark(network, *fact as usize);
        }
    }

    /// Lets the facts of a state be there at first.
    #[tactic(auto, using(crate::proofs::Steps::none_marked))]
    fn mark_state(&mut self, network: &Network, state: &[u32])
        requires facts { network.now.facts ≡ length self.old.costs }
        requires way { IsUnderWay network.now.unaries 0 [] self.old }
        ensures { HasMarked network.now.unaries (numbers_by network.now.offsets state.now) self.old
            self.new }
    {
        for (var, val) in state.iter().enumerate() {
            self.mark(network, network.relaxed().number(var, *val));
        }
    }

    /// Lets what a state has and the defaults of derived variables be there, and no other fact.
    fn begin(&mut self, network: &Network, state: &[u32])
        requires facts { network.now.facts ≡ length self.old.costs }
        requires fresh { IsFresh network.now.unaries self.old }
        ensures way { IsUnderWay network.now.unaries 0 [] self.new }
        ensures from { (parts : Parts) (kind : CostKind) (without : List ℕ) →
            IsRelaxed parts kind network.now → IsState parts.variables state.now →
            ((fact : ℕ) → is_settled self.old fact ≡ is_among without fact) →
            IsFrom network.now.unaries without (start_facts parts state.now) self.new }
        ensures long { length self.new.costs ≡ length self.old.costs }
    {
        self.walk(network, network.free(), 0);
        self.mark_state(network, state);
        self.mark_all(network, network.relaxed().defaults());
    }

    /// Settles facts until none waits.
    #[tactic(auto, using(crate::proofs::Steps::now_later))]
    fn settle_all(&mut self, network: &Network)
        requires facts { network.now.facts ≡ length self.old.costs }
        requires way { IsSettling network.now.unaries self.old }
        ensures later { IsLater network.now.unaries self.old self.new }
        ensures idle { IsIdle self.new.waiting }
    {
        'steps: while self.step(network) {}
    }

    /// Settles facts until a fact is settled, and says whether it is; else none waits.
    #[tactic(auto, using(crate::proofs::Steps::now_later))]
    fn settle_until(&mut self, network: &Network, fact: usize) -> bool
        requires facts { network.now.facts ≡ length self.old.costs }
        requires fact { fact < network.now.facts }
        requires way { IsSettling network.now.unaries self.old }
        ensures later { IsLater network.now.unaries self.old self.new }
        ensures settled { result ≡ true → is_settled self.new fact ≡ true }
        ensures idle { result ≡ false → IsIdle self.new.waiting }
    {
        'steps: while !self.is_settled(fact) {
            if !self.step(network) {
                return false;
            }
        }
        true
    }

    /// Settles facts until all goal facts are settled or none waits.
    #[tactic(auto, using(crate::proofs::Steps::now_later, crate::proofs::ListGrowth::below_at))]
    fn settle_goals(&mut self, network: &Network)
        requires facts { network.now.facts ≡ length self.old.costs }
        requires way { IsSettling network.now.unaries self.old }
        ensures later { IsLater network.now.unaries self.old self.new }
        ensures goals { AreSettled network.now.goals self.new }
    {
        for goal in network.relaxed().goals() {
            if !self.settle_until(network, *goal as usize) {
                return;
            }
        }
    }

    /// Evaluates a state without some facts.
    #[tactic(auto, using(crate::proofs::Steps::places_of))]
    pub fn evaluate(&mut self, network: &Network, state: &[u32], excluded: &[Fact])
        requires facts { network.now.facts ≡ length self.old.costs }
        requires unaries { length self.old.opens ≡ length network.now.unaries }
        ensures evaluated { (parts : Parts) (kind : CostKind) → IsRelaxed parts kind network.now →
            IsState parts.variables state.now →
            IsTrue (list_all (is_fact parts.variables) excluded.now) →
            IsEvaluatedByNumber parts kind state.now (numbers_of parts.variables excluded.now)
            self.new.costs }
        ensures places { IsTrue (are_places (length network.now.unaries) self.new.order) }
        ensures order { (parts : Parts) (kind : CostKind) → IsRelaxed parts kind network.now →
            IsState parts.variables state.now → excluded.now ≡ [] →
            IsOrder network.now.unaries (start_facts parts state.now) (value_at self.new.costs)
            self.new.order }
        ensures costs { length self.new.costs ≡ length self.old.costs }
        ensures opens { length self.new.opens ≡ length self.old.opens }
    {
        self.clear(network);
        self.leave_all_out(network, excluded);
        self.begin(network, state);
        self.settle_all(network);
    }

    /// Evaluates a state, and stops where the goal facts are settled: they cost what they do.
    #[tactic(auto, using(crate::proofs::Steps::places_of))]
    pub fn evaluate_goals(&mut self, network: &Network, state: &[u32])
        requires facts { network.now.facts ≡ length self.old.costs }
        requires unaries { length self.old.opens ≡ length network.now.unaries }
        ensures goals { (parts : Parts) (kind : CostKind) → IsRelaxed parts kind network.now →
            IsState parts.variables state.now →
            (fact : ℕ) → is_among network.now.goals fact ≡ true →
            IsAdd parts kind state.now [] fact (value_at self.new.costs fact) }
        ensures places { IsTrue (are_places (length network.now.unaries) self.new.order) }
        ensures costs { length self.new.costs ≡ length self.old.costs }
        ensures opens { length self.new.opens ≡ length self.old.opens }
    {
        self.clear(network);
        self.begin(network, state);
        self.settle_goals(network);
    }
}
