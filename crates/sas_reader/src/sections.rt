// The parts of a text, and the words that begin and end them.
ghost use Rattle.std.specs.Prelude.{◌≡◌, codes};
ghost use Rattle.sas_reader.specs.Reading.{begin_of, end_of};

/// A part of a text that stands between a word that begins it and one that ends it.
#[derive(Clone, Copy)]
pub enum Section {
    Version,
    Metric,
    Variable,
    MutexGroup,
    State,
    Goal,
    Operator,
    Rule,
}

impl Section {
    /// The line that begins the section.
    pub fn begin(self) -> &'static [u8]
        ensures { result.now ≡ begin_of self }
    {
        match self {
            Section::Version => b"begin_version",
            Section::Metric => b"begin_metric",
            Section::Variable => b"begin_variable",
            Section::MutexGroup => b"begin_mutex_group",
            Section::State => b"begin_state",
            Section::Goal => b"begin_goal",
            Section::Operator => b"begin_operator",
            Section::Rule => b"begin_rule",
        }
    }

    /// The line that ends the section.
    pub fn end(self) -> &'static [u8]
        ensures { result.now ≡ end_of self }
    {
        match self {
            Section::Version => b"end_version",
            Section::Metric => b"end_metric",
            Section::Variable => b"end_variable",
            Section::MutexGroup => b"end_mutex_group",
            Section::State => b"end_state",
            Section::Goal => b"end_goal",
            Section::Operator => b"end_operator",
            Section::Rule => b"end_rule",
        }
    }
}
