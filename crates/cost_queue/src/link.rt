// A number or none in four bytes.
ghost use Rattle.std.specs.Prelude.{◌≡◌, ◌<◌, None, Some};

use std::marker::Model;

/// No number has this link.
const NOTHING: u32 = 4_294_967_295;

/// The number that comes next, if there is one. Contracts see it as an `Option`.
#[derive(Clone, Copy)]
pub struct Link {
    raw: u32,
}

impl Model for Link {
    ghost use Rattle.std.specs.Prelude.{Option, ℕ};
    ghost use Rattle.cost_queue.specs.LinkNumbers.{linked, link_number, linked_back};

    ghost Value = { Option ℕ };

    ghost view = { λ l. linked l.raw };

    ghost inverse = { λ o. record { raw = link_number o } };

    ghost inverse_ok = { λ l h i. record { raw = linked_back l.raw i } };
}

impl Link {
    /// A link that leads nowhere.
    pub fn nothing() -> Link
        ensures { result ≡ None }
    {
        Link { raw: NOTHING }
    }

    /// A link to a number.
    pub fn to(number: u32) -> Link
        requires { number < 4294967295 }
        ensures { result ≡ Some number }
    {
        Link { raw: number }
    }

    /// The number that it leads to, if it leads to one.
    pub fn number(self) -> Option<u32>
        ensures { result ≡ self }
    {
        if self.raw == NOTHING {
            None
        } else {
            Some(self.raw)
        }
    }
}
