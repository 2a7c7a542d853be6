// Names of plan files.
ghost use Rattle.std.specs.Prelude.{◌≤◌, length};

use lama_num::NameBuf;
use std::alloc::{AllocError, Global};
use std::test::Fail;

fn letters(alloc: Global, count: u32) -> Result<String, AllocError> {
    let mut text = String::new(alloc);
    for _ in 0..count {
        text.push_str("a")?;
    }
    Ok(text)
}

/// How long the name of a child's last file is, where a base may have this name.
fn longest(base: &str) -> Option<usize> {
    match NameBuf::new(base) {
        Some(base) => Some(base.child(1000).numbered(9999).text().len()),
        None => None,
    }
}

fn longest_of_letters(alloc: Global, count: u32) -> Result<Option<usize>, AllocError> {
    let base = letters(alloc, count)?;
    Ok(longest(base.as_str()))
}

#[test]
fn names_of_bases(rt: HostRuntime) -> Result<(), Fail> {
    assert!(rt; longest("").is_none() && longest("a\0b").is_none());
    assert!(rt; longest_of_letters(rt.alloc(), 200)? == Some(211));
    assert!(rt; longest_of_letters(rt.alloc(), 201)?.is_none());
    Ok(())
}

fn has_its_files(base: &NameBuf) -> bool
    requires { length base.now ≤ 200 }
{
    base.text() == "sas_plan"
        && base.part().text() == "sas_plan.part"
        && base.numbered(9999).text() == "sas_plan.9999"
        && base.child(10).numbered(20).text() == "sas_plan.c10.20"
}

fn are_named_so(base: &str) -> bool {
    match NameBuf::new(base) {
        Some(base) => has_its_files(&base),
        None => false,
    }
}

#[test]
fn names_of_files(rt: HostRuntime) {
    assert!(rt; are_named_so("sas_plan"));
}
