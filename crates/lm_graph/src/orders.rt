// Orders between nodes.
ghost use Rattle.std.specs.Prelude.{◌≡◌, Some};
ghost use Rattle.lm_graph.specs.Orders.{strength_of, stronger as the_stronger, is_strong};

/// How strong an order is, from the weakest.
///
/// A greedy-necessary order says that a node holds directly before another first does, a natural
/// order that it holds at some time before, and a reasonable order that nothing is lost by reaching
/// it first.
#[derive(Clone, Copy, PartialEq, Eq)]
pub enum Order {
    Reasonable,
    Natural,
    GreedyNecessary,
}

/// An order of one node, with the other node: the one that it comes from, or leads to.
#[derive(Clone, Copy, PartialEq, Eq)]
pub struct Edge {
    pub node: u32,
    pub kind: Order,
}

impl Order {
    /// Orders by number, the stronger the higher.
    pub fn strength(self) -> u8
        ensures { result ≡ strength_of self }
    {
        match self {
            Order::Reasonable => 1,
            Order::Natural => 2,
            Order::GreedyNecessary => 3,
        }
    }

    /// Whether the order is at least as strong as another.
    pub fn is_as_strong(self, weakest: Order) -> bool
        ensures { result ≡ is_strong weakest (Some self) }
    {
        weakest.strength() <= self.strength()
    }

    /// The stronger of this order and another.
    pub(crate) fn stronger(self, other: Order) -> Order
        ensures { result ≡ the_stronger (Some self) other }
    {
        if self.strength() < other.strength() {
            other
        } else {
            self
        }
    }
}
