// A clock, and what takes bytes.
ghost use Rattle.std.specs.Prelude.{◌≡◌, ◌≤◌, ℕ, List, Option, OnErr};
ghost use Rattle.lama_host.specs.Folder.{Rose};
ghost use Rattle.lama_host.specs.Streams.{Answers, Takes};

use crate::files::Failed;

/// A clock that never goes back.
pub trait Clock {
    ghost last: { Self → ℕ };

    ghost answers: { Self → Option (List ℕ) };

    /// The time in milliseconds, never below the last answer.
    fn now(&mut self) -> u64
        ensures last { last self.new ≡ result }
        ensures later { last self.old ≤ result }
        ensures answers { Answers (answers self.old) (answers self.new) result };
}

/// What takes bytes, as standard output does.
pub trait Sink {
    ghost taken: { Self → Option (List ℕ) };

    ghost faults: { Self → ℕ };

    /// Gives it bytes. Where it fails it took a front of them.
    fn put(&mut self, bytes: &[u8]) -> Result<(), Failed>
        ensures takes { Takes (taken self.old) (taken self.new) bytes.now result }
        ensures later { faults self.old ≤ faults self.new }
        ensures failed { OnErr result (Rose (faults self.old) (faults self.new)) };
}
