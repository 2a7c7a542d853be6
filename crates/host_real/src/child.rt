// Children: each is a shell that sets its limits and then becomes the program.
ghost use Rattle.std.specs.Prelude.{◌≡◌, ◌++◌, IfOk, IsSomeAnd, true, codes, map, string_bytes};
ghost use Rattle.std.specs.Io.KnownBytes.{Appends};
ghost use Rattle.std.specs.Process.{command_program, command_args, child_status, exit_code};
ghost use Rattle.host_real.specs.Children.{soft_text, hard_text, time_text, memory_text};
ghost use Rattle.host_real.specs.Children.{script_text, shell_words, end_of};

use crate::{BECOME, TAKE_INPUT};
use lama_host::{ChildEnd, Limits};
use std::alloc::{AllocError, Global};
use std::io;
use std::io::{ErrorKind, Write};
use std::process::{Child, Command, ExitStatus, OpenProcess, Processes, Stdio};

/// A program to start: its words, itself the first, what it reads, and what it may use.
#[derive(Drop)]
pub struct Program<'a> {
    pub words: &'a [String],
    pub input: &'a [u8],
    pub limits: Limits,
}

/// What the shell does so that the program is told to stop after so many seconds of processor time.
fn soft_limit(alloc: Global, seconds: u32) -> Result<String, AllocError>
    ensures { IfOk result (λ text. string_bytes text ≡ soft_text seconds) }
{
    format!(in alloc; "ulimit -S -t {seconds} || exit 127; ")
}

/// What the shell does so that it is stopped after so many.
fn hard_limit(alloc: Global, seconds: u64) -> Result<String, AllocError>
    ensures { IfOk result (λ text. string_bytes text ≡ hard_text seconds) }
{
    format!(in alloc; "ulimit -H -t {seconds} || exit 127; ")
}

/// What the shell does to limit the processor time. The soft limit comes first, since it may not
/// lie above the hard one.
fn time_limit(alloc: Global, seconds: Option<u32>) -> Result<String, AllocError>
    ensures { IfOk result (λ text. string_bytes text ≡ time_text seconds) }
{
    let Some(soft) = seconds else {
        return Ok(String::new(alloc));
    };
    let hard = hard_limit(alloc, u64::from(soft) + 1)?;
    let mut text = soft_limit(alloc, soft)?;
    text.push_str(hard.as_str())?;
    Ok(text)
}

/// What the shell does to limit the memory.
fn memory_limit(alloc: Global, kib: Option<u32>) -> Result<String, AllocError>
    ensures { IfOk result (λ text. string_bytes text ≡ memory_text kib) }
{
    match kib {
        Some(kib) => format!(in alloc; "ulimit -v {kib} || exit 127; "),
        None => Ok(String::new(alloc)),
    }
}

/// What the shell reads as code. No word of the program stands in it.
fn script(alloc: Global, limits: Limits) -> Result<String, AllocError>
    ensures { IfOk result (λ text. string_bytes text ≡ script_text limits) }
{
    let mut text = String::from_str(alloc, TAKE_INPUT)?;
    text.push_str(time_limit(alloc, limits.seconds)?.as_str())?;
    text.push_str(memory_limit(alloc, limits.kib)?.as_str())?;
    text.push_str(BECOME)?;
    Ok(text)
}

fn shell(alloc: Global, limits: Limits) -> Result<Command, AllocError>
    ensures program { IfOk result (λ c. command_program c ≡ codes "/bin/sh") }
    ensures args { IfOk result (λ c. command_args c ≡ shell_words limits) }
{
    let script = script(alloc, limits)?;
    let mut command = Command::new(alloc, "/bin/sh")?;
    command.arg("-c")?;
    command.arg(script.as_str())?;
    command.arg("sh")?;
    Ok(command)
}

/// The words of the program stand behind the shell's own, where it never reads them as code.
fn command(alloc: Global, words: &[String], limits: Limits) -> Result<Command, AllocError>
    ensures program { IfOk result (λ c. command_program c ≡ codes "/bin/sh") }
    ensures args { IfOk result
        (λ c. command_args c ≡ shell_words limits ++ map string_bytes words.now) }
{
    let mut command = shell(alloc, limits)?;
    for word in words {
        command.arg(word.as_str())?;
    }
    Ok(command)
}

/// Writes a child's input, and answers whether it took all. A child that doesn't is no fault.
fn feed<W: Write>(pipe: &mut W, input: &[u8]) -> io::Result<bool>
    ensures { IfOk result
        (λ all. all ≡ true → Appends (W.contents pipe.old) (W.contents pipe.new) input.now) }
{
    match pipe.write_all(input) {
        Ok(()) => Ok(true),
        Err(e) if e.kind() == ErrorKind::BrokenPipe => Ok(false),
        Err(e) => Err(e),
    }
}

fn feed_child<P: OpenProcess>(child: &mut Child<P>, input: &[u8]) -> io::Result<()> {
    match child.stdin.take() {
        Some(mut pipe) => {
            feed(&mut pipe, input)?;
            Ok(())
        }
        None => Err(io::Error::from(ErrorKind::NotFound)),
    }
}

/// Starts the shell with the stated line and words, and gives it the input, whose end it then sees.
/// Its standard output is discarded. Where the input can't be written, the child is killed.
fn begin<R: Processes>(
    rt: &R,
    mut command: Command,
    program: &Program,
) -> io::Result<Child<R::Started>>
    requires shell { command_program command ≡ codes "/bin/sh" }
    requires words { command_args command ≡
        shell_words program.now.limits ++ map string_bytes program.now.words.now }
{
    command.stdin(Stdio::piped());
    command.stdout(Stdio::null());
    let mut child = command.spawn(rt)?;
    if let Err(e) = feed_child(&mut child, program.input) {
        let _ = child.kill();
        let _ = child.wait();
        return Err(e);
    }
    Ok(child)
}

/// Starts a program with its words, input and limits.
pub fn launch<R: Processes>(
    alloc: Global,
    rt: &R,
    program: &Program,
) -> io::Result<Child<R::Started>> {
    let command = command(alloc, program.words, program.limits)?;
    begin(rt, command, program)
}

fn end(status: ExitStatus) -> ChildEnd
    ensures { result ≡ end_of (exit_code status) }
{
    match status.code() {
        Some(code) => ChildEnd::Status(code as u8),
        None => ChildEnd::Signal,
    }
}

/// Waits for a child, and tells its end.
pub fn ended<P: OpenProcess + Drop>(child: &mut Child<P>) -> io::Result<ChildEnd>
    ensures { IfOk result
        (λ told. IsSomeAnd (child_status child.new) (λ status. told ≡ end_of (exit_code status))) }
{
    Ok(end(child.wait()?))
}
