// Names of plan files, kept on the stack.
ghost use Rattle.std.specs.Prelude.{◌≡◌, ◌+◌, ◌<◌, ◌≤◌, ◌++◌, length, decimal, IfSome, not, nat_eq};
ghost use Rattle.std.specs.List.{list_all};
ghost use Rattle.lama_num.specs.Names.{is_base, base_of, IsPlanNumber, IsEntryNumber, NamesOnly};
ghost use Rattle.lama_num.specs.Names.{Part, Numbered, ChildSingle, numbered_name, part_name};
ghost use Rattle.lama_num.specs.Names.{child_name};
ghost use Rattle.lama_num.specs.declared.names.TheConstants.{MOST_PLANS};

use arrayvec::ArrayString;
use itoa::Buffer;
use std::marker::Model;

/// The highest number of a plan, and so the most plans that a run keeps.
pub const MOST_PLANS: u32 = 9_999;

/// The name of a plan file, kept without memory.
///
/// The files of a base are the base itself, `base.part`, `base.1`, `base.2` and so on, and for the
/// child of the E-th entry of a portfolio `base.cE`, `base.cE.1` and so on.
#[derive(Drop)]
pub struct NameBuf {
    text: ArrayString<256>,
}

impl Model for NameBuf {
    ghost use Rattle.std.specs.Prelude.{List, ℕ};

    ghost Value = { List ℕ };

    ghost view = { λ n. n.text.bytes };
}

fn has_no_nul(bytes: &[u8]) -> bool
    ensures { result ≡ list_all (λ b. not (nat_eq b 0)) bytes.now }
{
    bytes.iter().all(|b| *b != 0)
}

fn is_base_text(text: &str) -> bool
    ensures { result ≡ is_base text.now }
{
    !text.is_empty() && text.len() <= 200 && has_no_nul(text.as_bytes())
}

impl NameBuf {
    /// A base of at most 200 bytes; `None` where it is empty, longer, or has a NUL byte.
    pub fn new(base: &str) -> Option<NameBuf>
        ensures name { result ≡ base_of base.now }
        ensures short { IfSome result (λ name. (0 < length name) × (length name ≤ 200)) }
    {
        if !is_base_text(base) {
            return None;
        }
        let mut text = ArrayString::new();
        text.push_str(base);
        Some(NameBuf { text })
    }

    /// The name itself.
    pub fn text(&self) -> &str
        ensures { result.now ≡ self.now }
    {
        self.text.as_str()
    }

    /// `base.n`, the name of a numbered plan.
    #[tactic(auto, using(crate::proofs::NameLaws::names_only))]
    pub fn numbered(&self, n: u32) -> NameBuf
        requires short { length self.now ≤ 230 }
        requires number { IsPlanNumber n }
        ensures name { result ≡ numbered_name self.now n }
        ensures len { length result ≤ length self.now + 5 }
        ensures only { NamesOnly self.now result (Numbered n) }
    {
        self.with_number(".", n)
    }

    /// `base.part`, the name under which a plan is written before it is renamed.
    #[tactic(auto, using(crate::proofs::NameLaws::names_only))]
    pub fn part(&self) -> NameBuf
        requires { length self.now ≤ 230 }
        ensures name { result ≡ part_name self.now }
        ensures len { length result ≡ length self.now + 5 }
        ensures only { NamesOnly self.now result Part }
    {
        let mut text = ArrayString::new();
        text.push_str(self.text.as_str());
        text.push_str(".part");
        NameBuf { text }
    }

    /// `base.cE`, the base that the child of a portfolio entry writes to.
    #[tactic(auto, using(crate::proofs::NameLaws::names_only))]
    pub fn child(&self, entry: u32) -> NameBuf
        requires short { length self.now ≤ 230 }
        requires number { IsEntryNumber entry }
        ensures name { result ≡ child_name self.now entry }
        ensures len { length result ≤ length self.now + 6 }
        ensures only { NamesOnly self.now result (ChildSingle entry) }
    {
        self.with_number(".c", entry)
    }

    #[tactic(auto, using(crate::proofs::NameLength::length_with_number))]
    fn with_number(&self, between: &str, number: u32) -> NameBuf
        requires short { length self.now ≤ 230 }
        requires between { length between.now ≤ 2 }
        requires number { number ≤ MOST_PLANS }
        ensures name { result ≡ self.now ++ between.now ++ decimal number }
        ensures len { length result ≤ length self.now + length between.now + 4 }
    {
        let mut buffer = Buffer::new();
        let mut text = ArrayString::new();
        text.push_str(self.text.as_str());
        text.push_str(between);
        text.push_str(buffer.format(number));
        NameBuf { text }
    }
}
