// What a guide says of a state.
ghost use Rattle.std.specs.Prelude.{◌≡◌, false, []};

use lama_num::Seq;
use std::alloc::Global;

/// What a guide says of a state.
///
/// A search makes one and hands it to each visit, which fills it anew.
#[derive(Drop)]
pub struct Seen {
    /// The relaxation shows that no operators lead from the state to a goal.
    pub dead: bool,
    /// The estimates of the guide, at the front: each is a cost to the goal.
    pub estimates: [u32; 3],
    /// Some of the applicable operators, ascending.
    pub preferred: Seq<u32>,
}

impl Seen {
    /// Nothing is said yet. It takes no memory.
    pub fn new(alloc: Global) -> Seen
        ensures dead { result.dead ≡ false }
        ensures preferred { result.preferred ≡ [] }
    {
        Seen {
            dead: false,
            estimates: [0; 3],
            preferred: Seq::new(alloc),
        }
    }
}
