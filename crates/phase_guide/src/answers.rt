// Answers.
ghost use Rattle.std.specs.Prelude.{◌≡◌, [], List, ℕ};

use guide::Seen;
use lama_num::Seq;
use std::alloc::Global;
use std::mem::replace;

/// Takes the list of an answer out, emptied, so that its memory serves again.
pub(crate) fn emptied(alloc: Global, out: &mut Seen) -> Vec<u32>
    ensures { result.items ≡ [] }
{
    let mut ops = replace(&mut out.preferred, Seq::new(alloc)).into_vec();
    ops.clear();
    ops
}

pub(crate) fn fill_answer(out: &mut Seen, dead: bool, estimates: [u32; 3], preferred: Vec<u32>)
    ensures dead { out.new.dead ≡ dead }
    ensures estimates { out.new.estimates ≡ estimates }
    ensures preferred { out.new.preferred ≡ preferred.items }
{
    out.dead = dead;
    out.estimates = estimates;
    out.preferred = Seq::from(preferred);
}
