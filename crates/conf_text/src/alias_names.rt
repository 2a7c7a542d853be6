// The names of the configurations that are built in.
ghost use Rattle.std.specs.Prelude.{◌≡◌};
ghost use Rattle.conf_text.specs.AliasNames.{alias_of, alias_text};

/// A configuration that is built in, by its name.
#[derive(Clone, Copy, PartialEq, Eq)]
pub enum AliasName {
    /// `lama`: plan after plan, each cheaper than the last.
    Lama,
    /// `lama-first`: the first of these searches alone.
    LamaFirst,
}

impl AliasName {
    /// The alias of this name; `None` exactly where there is no such alias.
    pub fn named(name: &str) -> Option<AliasName>
        ensures { result ≡ alias_of name.now }
    {
        match name {
            "lama" => Some(AliasName::Lama),
            "lama-first" => Some(AliasName::LamaFirst),
            _ => None,
        }
    }

    /// Its name.
    pub fn text(self) -> &'static str
        ensures { result.now ≡ alias_text self }
    {
        match self {
            AliasName::Lama => "lama",
            AliasName::LamaFirst => "lama-first",
        }
    }
}
