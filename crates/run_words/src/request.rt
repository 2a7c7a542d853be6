// What words ask for.
use conf_text::AliasName;
use lama_num::NameBuf;
use portfolio_text::Text;

/// What the words of a command line ask for.
#[derive(Drop)]
pub struct Request {
    /// The name of the task's file; there is none exactly where a task is to be made.
    pub task: Option<Text>,
    /// Which task is to be made: the number of its packages, from 1 to 100.
    pub made: Option<u32>,
    pub work: Chosen,
    /// The base of the plan files.
    pub base: NameBuf,
    /// Every plan has to cost less than this.
    pub bound: Option<u64>,
    /// The time for the whole run, in milliseconds: from 1 to 1,000,000 seconds.
    pub limit: Option<u64>,
    /// The memory of each child, in KiB: from 1 to 1,048,576 MiB.
    pub child_kib: Option<u32>,
    /// The run ends with its first plan.
    pub single: bool,
}

/// The work of a run: a configuration by its name or its text, or the portfolio in a file.
///
/// Nothing is said of the text of a configuration, nor of the file.
#[derive(Drop)]
pub enum Chosen {
    Alias(AliasName),
    Search(Text),
    Portfolio(Text),
}
