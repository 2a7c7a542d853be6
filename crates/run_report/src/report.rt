// What a run answers.
use candidates::Candidate;
use conf_text::ConfBad;
use lama_num::Seq;
use sas_reader::SasFault;
use sas_task::{Kept, Task};
use search_log::{LimitHit, Log, Space};

/// How a run ended: with a report, or for want of memory after the words were accepted.
#[derive(Drop)]
pub enum Ended {
    Done(Report),
    NoMemory,
}

/// What a run did: the task where it was read, whether its plans are numbered, the plans that it
/// kept and all candidates for them, how its entries ended, when and why it began and ended, and
/// the exit code.
#[derive(Drop)]
pub struct Report {
    pub task: Option<Task>,
    pub many: bool,
    pub kept: Seq<Kept>,
    pub candidates: Seq<Candidate>,
    pub ends: Seq<EntryEnd>,
    /// The clock's answer, in milliseconds, as the run began; 0 where the words weren't accepted.
    pub start: u64,
    pub why: Why,
    pub code: u8,
}

/// The end of an entry's turn, by the number of the round and that of the entry, each from 1: the
/// clock's answer, in milliseconds, as it began; how many phases were begun, and how many pops
/// their logs have; what the phases came to that another followed or could follow; and how it
/// ended.
#[derive(Drop)]
pub struct EntryEnd {
    pub round: u32,
    pub entry: u32,
    pub began: u64,
    pub phases: u32,
    pub pops: u64,
    pub past: Seq<Past>,
    pub outcome: Outcome,
}

/// What a phase came to, where the entry didn't end with it.
#[derive(Drop)]
pub enum Past {
    /// A plan, which is kept at this place, from 0.
    Plan { index: u32, log: Log },
    /// Nothing is left below the bound, which doesn't show that no plan is cheaper.
    Unsolved { space: Space, bound: u64, log: Log },
}

/// How an entry ended.
#[derive(Drop)]
pub enum Outcome {
    /// No plan is cheaper than the bound.
    Best { space: Space, bound: u64, log: Log },
    /// No plan exists. These are the visited states: from each of them that isn't dead every step
    /// leads to one of them, and none is a goal.
    Unsolvable { space: Space, log: Log },
    /// The last phase left nothing below the bound, which doesn't show that no plan is cheaper.
    Unsolved { space: Space, bound: u64, log: Log },
    /// The last phase found a plan; or as many plans are kept as a run keeps.
    Over,
    /// A phase reached a limit.
    Limit { hit: LimitHit, log: Log },
    /// A phase found no memory.
    NoMemory,
}

/// Why a run ended.
#[derive(Clone, Copy, PartialEq, Eq)]
pub enum Why {
    /// All is done that was asked for.
    Finished,
    /// As many plans are kept as can be numbered.
    PlanLimit,
    Words(WordsFault),
    Config(ConfBad),
    NoFile(Input),
    Task(SasFault),
    /// A call of the folder failed.
    Fault,
}

/// What is wrong with the words.
#[derive(Clone, Copy, PartialEq, Eq)]
pub enum WordsFault {
    /// They aren't a line of the command.
    Refused,
    /// A value can't be read.
    BadValue(Opt),
    /// There is no such alias.
    UnknownAlias,
    /// The task has the name of a plan file, of the one that is being written, or of a child's.
    NameClash,
}

/// An option with a value that may be refused.
#[derive(Clone, Copy, PartialEq, Eq)]
pub enum Opt {
    Bound,
}

/// A file that the words name.
#[derive(Clone, Copy, PartialEq, Eq)]
pub enum Input {
    Task,
}
