// A clock that gives what it is told to.
ghost use Rattle.std.specs.Prelude.{◌≡◌, ◌≤◌, ◌+◌, ◌-◌, ◌^◌, min, take};
ghost use Rattle.lama_host.specs.Streams.{Answers};
ghost use Rattle.host_mem.specs.Times.{greatest, last_answer, told_answers};

use lama_host::Clock;
use std::marker::Model;

/// A clock that goes through a list of times.
///
/// It gives the greatest of those that it came to, and repeats it at the end of the list; with an
/// empty list it gives 0. It tells its answers until it was asked `u64::MAX` times.
#[derive(Drop)]
pub struct MemClock {
    times: Vec<u64>,
    asked: u64,
    last: u64,
}

impl Model for MemClock {
    ghost use Rattle.std.specs.Prelude.{◌≡◌, take};
    ghost use Rattle.host_mem.specs.Times.{Ticking, ticking_code, greatest};

    ghost Value = { Ticking };

    ghost coded = { ticking_code };

    ghost view = { λ c. record { times = c.times.items; asked = c.asked } };

    ghost invariant = { λ c. c.last ≡ greatest (take c.asked c.times.items) };
}

impl MemClock {
    /// A clock with these times. It takes no memory.
    pub fn new(times: Vec<u64>) -> MemClock
        ensures { result ≡ record { times = times.items; asked = 0 } }
    {
        MemClock {
            times,
            asked: 0,
            last: 0,
        }
    }
}

/// The greater of the last answer and the time at a place, if there is one.
fn answer_at(times: &[u64], asked: u64, last: u64) -> u64
    requires { last ≡ greatest (take asked times.now) }
    ensures answer { result ≡ greatest (take (asked + 1) times.now) }
    ensures next { result ≡ greatest (take (min (asked + 1) (2 ^ 64 - 1)) times.now) }
{
    if asked < times.len() as u64 {
        last.max(times[asked as usize])
    } else {
        last
    }
}

impl Clock for MemClock {
    ghost last = { last_answer };

    ghost answers = { told_answers };

    fn now(&mut self) -> u64
        ensures last { last_answer self.new ≡ result }
        ensures later { last_answer self.old ≤ result }
        ensures answers { Answers (told_answers self.old) (told_answers self.new) result }
        ensures answer { result ≡ greatest (take (self.old.asked + 1) self.old.times) }
        ensures next { self.new ≡
            record self.old { asked = min (self.old.asked + 1) (2 ^ 64 - 1) } }
    {
        self.last = answer_at(&self.times, self.asked, self.last);
        self.asked = self.asked.saturating_add(1);
        self.last
    }
}
