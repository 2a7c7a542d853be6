// A set of exit codes.
ghost use Rattle.std.specs.Prelude.{◌≡◌, ◌<◌};
ghost use Rattle.std.specs.FinSet as set;

use std::marker::Model;

/// How many numbers a set may hold: those below it.
const COUNT: usize = 64;

/// A set of exit codes, seen as a finite set of numbers. It takes no memory.
#[derive(Clone, Copy)]
pub struct Codes {
    flags: [bool; COUNT],
}

impl Model for Codes {
    ghost use Rattle.std.specs.Prelude.{◌≡◌, length};
    ghost use Rattle.std.specs.Ordering.{nat_cmp};
    ghost use Rattle.std.specs.Coded.{coded_ℕ};
    ghost use Rattle.std.specs.FinSet as set;
    ghost use Rattle.exit_codes.specs.Flags.{set_of, flags_of, flags_of-set_of};

    ghost Value = { set.FinSet nat_cmp };

    ghost coded = { set.code coded_ℕ };

    ghost view = { λ c. set_of c.flags };

    ghost invariant = { λ c. length c.flags ≡ 64 };

    ghost inverse = { λ codes. record { flags = flags_of codes } };

    ghost inverse_ok = { λ c has_64 i. record { flags = flags_of-set_of c.flags has_64 i } };
}

impl Codes {
    /// The empty set.
    pub fn none() -> Codes
        ensures { result ≡ set.empty }
    {
        Codes {
            flags: [false; COUNT],
        }
    }

    /// The set with one more code.
    pub(crate) fn with(self, code: u8) -> Codes
        requires { code < 64 }
        ensures { result ≡ set.insert self code }
    {
        let mut flags = self.flags;
        flags[code as usize] = true;
        Codes { flags }
    }

    /// The codes that are in this set or in the other.
    pub fn union(self, other: Codes) -> Codes
        ensures { result ≡ set.union self other }
    {
        let mut flags = self.flags;
        for i in 0..COUNT {
            flags[i] = flags[i] | other.flags[i];
        }
        Codes { flags }
    }

    /// Whether a code is in the set.
    pub fn has(self, code: u8) -> bool
        requires { code < 64 }
        ensures { result ≡ set.contains self code }
    {
        self.flags[code as usize]
    }
}
