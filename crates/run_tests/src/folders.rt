// A folder in memory, and what stands in it.
ghost use Rattle.std.specs.Prelude.{◌≡◌, [], IfOk};
ghost use Rattle.host_mem.specs.Memory.{told_of};

use host_mem::{Fail as Failing, HostCall, MemHost, named};
use lama_num::Seq;
use std::alloc::{AllocError, Global};

/// A name, and the text that it holds, where it is there.
#[derive(Clone, Copy)]
pub struct File<'a> {
    pub name: &'a str,
    pub text: Option<&'a str>,
}

fn named_so<'a>(name: &'a str, text: Option<&'a str>) -> File<'a> {
    File { name, text }
}

/// What stands at the end with just these plans: one without a number, and two with.
pub fn plans<'a>(
    plan: Option<&'a str>,
    first: Option<&'a str>,
    second: Option<&'a str>,
) -> [File<'a>; 8] {
    [
        named_so("sas_plan", plan),
        named_so("sas_plan.1", first),
        named_so("sas_plan.2", second),
        named_so("sas_plan.3", None),
        named_so("sas_plan.4", None),
        named_so("sas_plan.part", None),
        named_so("sas_plan.07", Some("old")),
        named_so("other", Some("old")),
    ]
}

/// What stands where nothing was changed.
pub fn unchanged() -> [File<'static>; 8] {
    [
        named_so("sas_plan", Some("old")),
        named_so("sas_plan.1", None),
        named_so("sas_plan.2", None),
        named_so("sas_plan.4", Some("old")),
        named_so("sas_plan.7", Some("old")),
        named_so("sas_plan.part", Some("old")),
        named_so("sas_plan.07", Some("old")),
        named_so("other", Some("old")),
    ]
}

/// What stands where the second plan is still a draft.
pub fn drafted<'a>(first: &'a str, draft: &'a str) -> [File<'a>; 8] {
    [
        named_so("sas_plan", None),
        named_so("sas_plan.1", Some(first)),
        named_so("sas_plan.2", None),
        named_so("sas_plan.4", None),
        named_so("sas_plan.7", None),
        named_so("sas_plan.part", Some(draft)),
        named_so("sas_plan.07", Some("old")),
        named_so("other", Some("old")),
    ]
}

fn has(host: &MemHost, file: &File<'_>) -> bool {
    match (host.holds(file.name), file.text) {
        (Some(held), Some(text)) => held == text.as_bytes(),
        (None, None) => true,
        _ => false,
    }
}

/// Whether all these files are so.
pub fn has_all(host: &MemHost, files: &[File<'_>]) -> bool {
    files.iter().all(|file| has(host, file))
}

type Files = Vec<(Seq<u8>, Seq<u8>)>;

fn push_file(alloc: Global, files: &mut Files, name: &str, text: &str) -> Result<(), AllocError> {
    let file = named(alloc, name, text.as_bytes())?;
    files.push(file)?;
    Ok(())
}

fn push_files(alloc: Global, files: &mut Files, task: Option<&str>) -> Result<(), AllocError> {
    push_file(alloc, files, "sas_plan", "old")?;
    push_file(alloc, files, "sas_plan.4", "old")?;
    push_file(alloc, files, "sas_plan.7", "old")?;
    push_file(alloc, files, "sas_plan.part", "old")?;
    push_file(alloc, files, "sas_plan.07", "old")?;
    push_file(alloc, files, "other", "old")?;
    match task {
        Some(text) => push_file(alloc, files, "t.sas", text),
        None => Ok(()),
    }
}

fn files_with(alloc: Global, task: Option<&str>) -> Result<Files, AllocError> {
    let mut files = Vec::new(alloc);
    push_files(alloc, &mut files, task)?;
    Ok(files)
}

/// The one call of this kind with this number, which fails before its effect.
fn failing_at(alloc: Global, failing: Option<(HostCall, u32)>) -> Result<Vec<Failing>, AllocError> {
    let mut all = Vec::new(alloc);
    if let Some((call, number)) = failing {
        all.push(Failing {
            call,
            number,
            after: false,
        })?;
    }
    Ok(all)
}

/// A folder with old plans, other files, and perhaps the task, of which one call may fail.
pub fn folder(
    alloc: Global,
    task: Option<&str>,
    failing: Option<(HostCall, u32)>,
) -> Result<MemHost, AllocError>
    ensures { IfOk result (λ host. (told_of host).busy ≡ []) }
{
    let failing = failing_at(alloc, failing)?;
    match files_with(alloc, task) {
        Ok(files) => Ok(MemHost::new(alloc, files, Vec::new(alloc), failing)),
        Err(error) => Err(error),
    }
}
