// Flags for facts, and lists with room.
ghost use Rattle.std.specs.Prelude.{◌≡◌, ◌<◌, ◌≤◌, ◌∷◌, ◌++◌, ◌||◌, [], ℕ, length, IsTrue};
ghost use Rattle.std.specs.Prelude.{vec_len, vec_capacity};
ghost use Rattle.std.specs.List.{list_all};
ghost use Rattle.relaxed_task.specs.Numbers.{is_among, is_below};
ghost use Rattle.h_ff.specs.Orders.{is_given};

/// Flags facts.
pub fn flag_all(flags: &mut [bool], facts: &[u32])
    requires { IsTrue (list_all (is_below (length flags.old)) facts.now) }
    ensures { (fact : ℕ) →
        is_given flags.new fact ≡ (is_among facts.now fact || is_given flags.old fact) }
{
    for fact in facts {
        flags[*fact as usize] = true;
    }
}
