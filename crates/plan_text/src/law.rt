//! What writing and reading have to do with each other.
ghost use Rattle.std.specs.Prelude.{ℕ, List};
ghost use Rattle.sas_task.specs.declared.contents.Parts.{Parts};
ghost use Rattle.plan_text.specs.ReadBack.{IsReadBack};

/// What is written for operators is read back as their names, their cost and the kind of cost.
pub fn written_is_read_back()
    ensures { (parts : Parts) (ops : List ℕ) → IsReadBack parts ops }
{}
