// The task's file.
ghost use Rattle.std.specs.Prelude.{◌≡◌, ◌≢◌, ◌≤◌, IfOk, Ok};
ghost use Rattle.std.specs.FinMap.{get};
ghost use Rattle.lama_host.specs.Folder.{IsUntouched, WhereTold, Rose};
ghost use Rattle.sas_reader.specs.Walks.{task_of as text_of_task};
ghost use Rattle.driver_run.specs.Reports.{TellsBytes, TellsFile};

use candidates::{ReadError, Whole, read_whole};
use lama_host::Folder;
use lama_num::NoMemory;
use sas_reader::{SasError, SasFault, read};
use sas_task::{Task, What};
use std::alloc::Global;

/// The most bytes of a task's file.
const MOST_BYTES: u64 = 268_435_456;

/// The fault of a file that is too long, of which one byte more than the limit is read.
const TOO_LONG: SasFault = SasFault::TooLarge {
    what: What::Bytes,
    count: MOST_BYTES + 1,
};

/// What became of reading the task's file.
#[derive(Drop)]
pub enum TaskFile {
    Task(Task),
    Missing,
    Refused(SasFault),
    Failed,
}

fn task_of(alloc: Global, bytes: &[u8]) -> Result<TaskFile, NoMemory>
    ensures tells { IfOk result (TellsBytes (text_of_task bytes.now)) }
    ensures some { result ≢ Ok TaskFile.Failed }
{
    match read(alloc, bytes) {
        Ok(task) => Ok(TaskFile::Task(task)),
        Err(SasError::Bad(fault)) => Ok(TaskFile::Refused(fault)),
        Err(SasError::NoMemory) => Err(NoMemory),
    }
}

/// Reads the task's file.
pub fn read_task<F: Folder>(alloc: Global, folder: &mut F, name: &str) -> Result<TaskFile, NoMemory>
    ensures untouched { IsUntouched (F.told folder.old) (F.told folder.new) }
    ensures later { (F.told folder.old).faults ≤ (F.told folder.new).faults }
    ensures failed { result ≡ Ok TaskFile.Failed
        → Rose (F.told folder.old).faults (F.told folder.new).faults }
    ensures tells { WhereTold (F.told folder.old) (λ files.
        IfOk result (TellsFile (get files name.now))) }
{
    match read_whole(alloc, folder, name, MOST_BYTES) {
        Err(ReadError::Failed) => Ok(TaskFile::Failed),
        Err(ReadError::NoMemory) => Err(NoMemory),
        Ok(Whole::Missing) => Ok(TaskFile::Missing),
        Ok(Whole::TooLong) => Ok(TaskFile::Refused(TOO_LONG)),
        Ok(Whole::Bytes(bytes)) => task_of(alloc, &bytes),
    }
}
