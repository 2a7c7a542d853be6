// Which lists a phase has.
ghost use Rattle.std.specs.Prelude.{◌≡◌, ◌<◌, ◌≤◌, ◌*◌, ◌/◌, ◌%◌, ◌&&◌, ◌==◌, IfOk};
ghost use Rattle.std.specs.Prelude.{if◌then◌else◌, map};
ghost use Rattle.std.specs.List.{range_with_len};

use lama_num::NoMemory;
use std::alloc::Global;

/// How many guides there are, and whether some of them prefer operators.
#[derive(Clone, Copy)]
pub(crate) struct Shape {
    pub guides: u32,
    pub preferring: bool,
}

impl Shape {
    ghost use Rattle.lazy_search.specs.Shapes.{lists_by, guide_by, is_preferred_by};

    /// How many lists there are.
    pub(crate) fn lists(self) -> u32
        requires { self.guides ≤ 3 }
        ensures lists { result ≡ lists_by self }
        ensures few { result ≤ 6 }
    {
        if self.preferring {
            2 * self.guides
        } else {
            self.guides
        }
    }

    /// Whose estimates the keys of a list are made from.
    pub(crate) fn guide_of(self, list: u32) -> u32
        requires guides { self.guides ≤ 3 }
        requires list { list < lists_by self }
        ensures guide { result ≡ guide_by self list }
        ensures few { result < 3 }
    {
        if self.preferring { list / 2 } else { list }
    }

    /// Whether a list is for preferred operators alone.
    pub(crate) fn is_for_preferred(self, list: u32) -> bool
        ensures { result ≡ is_preferred_by self list }
    {
        self.preferring && list % 2 == 1
    }

    /// The sorts of all lists.
    pub(crate) fn sorts(self, alloc: Global) -> Result<Vec<bool>, NoMemory>
        requires { self.guides ≤ 3 }
        ensures { IfOk result
            (λ sorts. sorts.items ≡ map (is_preferred_by self) (range_with_len 0 (lists_by self))) }
    {
        let sorts = (0..self.lists())
            .map(|list| self.is_for_preferred(list))
            .collect(alloc)?;
        Ok(sorts)
    }
}
