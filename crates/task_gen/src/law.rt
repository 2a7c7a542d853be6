//! What reading and printing have to do with each other.
ghost use Rattle.std.specs.Prelude.{ℕ, List, IsTrue};
ghost use Rattle.sas_task.specs.declared.contents.Parts.{Parts};
ghost use Rattle.sas_reader.specs.FirstFault.{IsTextOf};
ghost use Rattle.task_gen.specs.ReadBack.{has_line_names};

/// The names of a task that was read are such as lines can hold. So its text is read back, where it
/// is within the limit.
pub fn names_that_are_read()
    ensures { (bytes : List ℕ) (task : Parts) → IsTextOf bytes task → IsTrue (has_line_names task) }
{}
