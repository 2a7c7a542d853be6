// The current folder, and the children that run beside it.
ghost use Rattle.std.specs.Prelude.{◌≡◌, []};
ghost use Rattle.host_real.specs.Slots.{slots};

use crate::child::{Program, ended};
use crate::faults::counted;
use crate::files::{append_to, create_empty, read_at, remove_name, rename_over};
use crate::running::{Running, start_in, take};
use lama_host::{ChildEnd, Failed, Folder, Host, Limits, Piece};
use std::alloc::Global;
use std::io;
use std::io::ErrorKind;
use std::process::Processes;
use std::rt::Files;

/// The current folder, and children of this process.
///
/// A name counts as a file only where it is a file of bytes: a link, a FIFO or a directory that a
/// child left is missing to a read, and makes way for a new file.
///
/// Until the first write or start a read follows links, so that the task and the portfolio may be
/// links to files; from then on nothing is followed, so what was written and what a child left are
/// taken for themselves. A link is never written through.
///
/// A child is the shell, which takes its input into a nameless file, sets its limits and then
/// becomes the program; it ends with status 127 where one of these can't be done or there is no
/// such program. `start` returns once the shell has taken the input.
#[derive(Drop)]
pub struct RealHost<'a, R: Files + Processes> {
    alloc: Global,
    rt: &'a R,
    running: Vec<Running<R::Started>>,
    faults: u64,
    follows: bool,
}

impl<'a, R: Files + Processes> RealHost<'a, R> {
    /// The current folder, without a running child.
    pub fn new(alloc: Global, rt: &'a R) -> RealHost<'a, R>
        ensures { slots result.running.items ≡ [] }
    {
        RealHost {
            alloc,
            rt,
            running: Vec::new(alloc),
            faults: 0,
            follows: true,
        }
    }
}

impl<'a, R: Files + Processes> Folder for RealHost<'a, R> {
    ghost use Rattle.host_real.specs.Slots.{slots};
    ghost use Rattle.host_real.specs.Untold.{untold};

    ghost told = { λ h. untold (slots h.running.items) h.faults };

    fn read_some(&mut self, name: &str, start: u64, buf: &mut [u8]) -> Result<Piece, Failed> {
        let answer = read_at(self.rt, name, self.follows, start, buf);
        counted(&mut self.faults, answer)
    }

    fn create(&mut self, name: &str) -> Result<(), Failed> {
        self.follows = false;
        let answer = create_empty(self.rt, name);
        counted(&mut self.faults, answer)
    }

    fn append(&mut self, name: &str, piece: &[u8]) -> Result<(), Failed> {
        self.follows = false;
        let answer = append_to(self.rt, name, piece);
        counted(&mut self.faults, answer)
    }

    fn rename(&mut self, old: &str, new: &str) -> Result<(), Failed> {
        self.follows = false;
        let answer = rename_over(self.rt, old, new);
        counted(&mut self.faults, answer)
    }

    fn remove(&mut self, name: &str) -> Result<(), Failed> {
        let answer = remove_name(self.rt, name);
        counted(&mut self.faults, answer)
    }
}

impl<'a, R: Files + Processes> Host for RealHost<'a, R> {
    fn start(
        &mut self,
        slot: u32,
        words: &[String],
        input: &[u8],
        limits: Limits,
    ) -> Result<(), Failed> {
        self.follows = false;
        let program = Program {
            words,
            input,
            limits,
        };
        let answer = start_in(self.alloc, self.rt, &mut self.running, slot, &program);
        counted(&mut self.faults, answer)
    }

    fn wait(&mut self, slot: u32) -> Result<ChildEnd, Failed> {
        let answer = match take(&mut self.running, slot) {
            Some(mut child) => ended(&mut child),
            None => Err(io::Error::from(ErrorKind::NotFound)),
        };
        counted(&mut self.faults, answer)
    }
}
