// A host in memory.
ghost use Rattle.std.specs.Prelude.{◌≡◌, [], ◌∷◌, ◌++◌, ◌⊎◌, ◌/◌, ℕ, ◌+◌, ◌≤◌, length, map, filter};
ghost use Rattle.std.specs.Prelude.{not, nat_eq, string_bytes, reverse, Some, None, IfOk, OnOk};
ghost use Rattle.std.specs.Prelude.{OnErr, IsSome, IsErr, Contains, false};
ghost use Rattle.std.specs.FinMap.{get, insert, remove};
ghost use Rattle.std.specs.Option.{option_copied};
ghost use Rattle.lama_host.specs.Folder.{Told, Files, Keeps, IsUntouched, WhereTold, Changes, Once};
ghost use Rattle.lama_host.specs.Folder.{Appends, Passes, renamed, growth, Rose};
ghost use Rattle.lama_host.specs.Host.{Starts, Waits};
ghost use Rattle.lama_host.specs.Pieces.{Reads, Fits};
ghost use Rattle.host_mem.specs.declared.calls.HostCall.TheVariants.{ReadSome, Create, Append};
ghost use Rattle.host_mem.specs.declared.calls.HostCall.TheVariants.{Rename, Remove};
ghost use Rattle.host_mem.specs.declared.calls.HostCall.TheVariants.{Start as Began, Wait};
ghost use Rattle.host_mem.specs.Journal.{written_by, writing};
ghost use Rattle.host_mem.specs.Memory.{Memory, files_of, told_of, held, fault_at, Calls, IsQuiet};
ghost use Rattle.host_mem.specs.Memory.{Begins, Does};
ghost use Rattle.host_mem.specs.Scripts.{next_script, later_scripts, script_in};

use crate::calls::{Fail, HostCall, next_fault};
use crate::children::{Running, Script, Start, copy_start, end_child};
use crate::ends::{answer, begin, ended};
use crate::faults::{log, share, unless_fault};
use crate::folder::{creation, growth, read, removal, renaming};
use crate::journal::{Change, bytes_held, look_up};
use lama_host::{ChildEnd, Failed, Folder, Host, Limits, Piece};
use lama_num::Seq;
use std::alloc::Global;
use std::marker::Model;

/// A host in memory: a folder, and children by scripts.
///
/// It keeps what it held at first and a journal of all changes, and tells all of it. A call fails
/// where it is told to, or where memory is refused, which it counts apart. A look-up takes time in
/// proportion to the journal, and an append copies the file.
///
/// The n-th start that succeeds takes the n-th script; its writes are made at its wait. Past the
/// last script a child writes nothing and ends with status 127. A start that fails has no effect. A
/// wait that fails frees the slot; where it fails before its effect the writes are never made.
#[derive(Drop)]
pub struct MemHost {
    alloc: Global,
    files: Vec<(Seq<u8>, Seq<u8>)>,
    journal: Vec<Change>,
    failing: Vec<Fail>,
    calls: [u64; 7],
    scripts: Vec<Script>,
    running: Vec<Running>,
    starts: Vec<Start>,
    faults: u64,
    refused: u64,
}

impl Model for MemHost {
    ghost use Rattle.std.specs.Prelude.{reverse};
    ghost use Rattle.host_mem.specs.Memory.{Memory};

    ghost Value = { Memory };

    ghost view = { λ h. record {
      files = h.files.items;
      journal = h.journal.items;
      failing = h.failing.items;
      calls = h.calls;
      scripts = reverse h.scripts.items;
      running = h.running.items;
      starts = h.starts.items;
      faults = h.faults;
      refused = h.refused;
    } };
}

impl MemHost {
    /// A host that holds these files; of several of one name the last counts. It takes no memory.
    pub fn new(
        alloc: Global,
        files: Vec<(Seq<u8>, Seq<u8>)>,
        mut children: Vec<Script>,
        failing: Vec<Fail>,
    ) -> MemHost
        ensures told { told_of result ≡ record {
          content = Some (files_of files.items);
          moments = Some [];
          faults = 0;
          busy = [];
          left = Some [];
          started = Some [];
        } }
        ensures made { result ≡ record {
          files = files.items;
          journal = [];
          failing = failing.items;
          calls = 0 ∷ 0 ∷ 0 ∷ 0 ∷ 0 ∷ 0 ∷ 0 ∷ [];
          scripts = children.items;
          running = [];
          starts = [];
          faults = 0;
          refused = 0;
        } }
    {
        children.reverse();
        MemHost {
            alloc,
            files,
            journal: Vec::new(alloc),
            failing,
            calls: [0; 7],
            scripts: children,
            running: Vec::new(alloc),
            starts: Vec::new(alloc),
            faults: 0,
            refused: 0,
        }
    }

    /// The bytes that a name holds, if it is there.
    pub fn holds(&self, name: &str) -> Option<&[u8]>
        ensures { option_copied result ≡ get (held self.now) name.now }
    {
        look_up(&self.files, &self.journal, name.as_bytes())
    }

    /// The starts that succeeded, in their order.
    pub fn started(&self) -> &[Start]
        ensures { result.now ≡ self.now.starts }
    {
        self.starts.as_slice()
    }

    /// How often memory was refused, counted up to `u64::MAX`.
    pub fn refused(&self) -> u64
        ensures { result ≡ self.now.refused }
    {
        self.refused
    }
}

impl Folder for MemHost {
    ghost told = { told_of };

    fn read_some(&mut self, name: &str, start: u64, buf: &mut [u8]) -> Result<Piece, Failed>
        ensures untouched { IsUntouched (told_of self.old) (told_of self.new) }
        ensures keeps { Keeps (told_of self.old) (told_of self.new) result }
        ensures fits { IfOk result (λ piece. Fits piece buf.new) }
        ensures reads { WhereTold (told_of self.old) (λ files.
            IfOk result (λ piece. Reads (get files name.now) start buf.new piece)) }
        ensures calls { Calls self.old self.new ReadSome result }
        ensures quiet { IsQuiet self.old self.new }
        // what is read is told also while children run
        ensures held { IfOk result
            (λ piece. Reads (get (held self.old) name.now) start buf.new piece) }
        // before its effect it leaves the buffer
        ensures before { fault_at self.old ReadSome ≡ Some false → buf.new ≡ buf.old }
    {
        let fault = next_fault(&self.failing, &mut self.calls, HostCall::ReadSome);
        let held = look_up(&self.files, &self.journal, name.as_bytes());
        let piece = read(fault, held, start, buf);
        unless_fault(fault, &mut self.faults, piece)
    }

    fn create(&mut self, name: &str) -> Result<(), Failed>
        ensures keeps { Keeps (told_of self.old) (told_of self.new) result }
        ensures changes { Changes (told_of self.old) (told_of self.new)
            (Once result (λ files. insert files name.now [])) }
        ensures calls { Calls self.old self.new Create result }
        ensures quiet { IsQuiet self.old self.new }
        ensures does { Does self.old self.new Create result
            (λ files. insert files name.now [] ∷ []) (λ files. insert files name.now [] ∷ []) }
    {
        let fault = next_fault(&self.failing, &mut self.calls, HostCall::Create);
        let change = creation(self.alloc, name);
        log(
            &mut self.journal,
            &mut self.faults,
            &mut self.refused,
            fault,
            change,
        )
    }

    /// Where it is to fail after its effect, the front half of the piece is added.
    fn append(&mut self, name: &str, piece: &[u8]) -> Result<(), Failed>
        ensures keeps { Keeps (told_of self.old) (told_of self.new) result }
        ensures changes { Changes (told_of self.old) (told_of self.new)
            (Appends result name.now piece.now) }
        ensures calls { Calls self.old self.new Append result }
        ensures quiet { IsQuiet self.old self.new }
        ensures does { Does self.old self.new Append result
            (λ files. growth files name.now piece.now (length piece.now))
            (λ files. growth files name.now piece.now (length piece.now / 2)) }
    {
        let fault = next_fault(&self.failing, &mut self.calls, HostCall::Append);
        let old = bytes_held(&self.files, &self.journal, name.as_bytes());
        let change = growth(self.alloc, name, piece, share(fault, piece.len()), old);
        log(
            &mut self.journal,
            &mut self.faults,
            &mut self.refused,
            fault,
            change,
        )
    }

    fn rename(&mut self, old: &str, new: &str) -> Result<(), Failed>
        requires idle { (told_of self.old).busy ≡ [] }
        requires held { WhereTold (told_of self.old) (λ files. IsSome (get files old.now)) }
        ensures keeps { Keeps (told_of self.old) (told_of self.new) result }
        ensures changes { Changes (told_of self.old) (told_of self.new)
            (Once result (renamed old.now new.now)) }
        ensures calls { Calls self.old self.new Rename result }
        ensures quiet { IsQuiet self.old self.new }
        ensures does { Does self.old self.new Rename result
            (λ files. renamed old.now new.now files ∷ [])
            (λ files. renamed old.now new.now files ∷ []) }
    {
        let fault = next_fault(&self.failing, &mut self.calls, HostCall::Rename);
        let bytes = bytes_held(&self.files, &self.journal, old.as_bytes());
        let change = renaming(self.alloc, old, new, bytes);
        log(
            &mut self.journal,
            &mut self.faults,
            &mut self.refused,
            fault,
            change,
        )
    }

    fn remove(&mut self, name: &str) -> Result<(), Failed>
        ensures keeps { Keeps (told_of self.old) (told_of self.new) result }
        ensures changes { Changes (told_of self.old) (told_of self.new)
            (Once result (λ files. remove files name.now)) }
        ensures calls { Calls self.old self.new Remove result }
        ensures quiet { IsQuiet self.old self.new }
        ensures does { Does self.old self.new Remove result
            (λ files. remove files name.now ∷ []) (λ files. remove files name.now ∷ []) }
    {
        let fault = next_fault(&self.failing, &mut self.calls, HostCall::Remove);
        let change = removal(self.alloc, name);
        log(
            &mut self.journal,
            &mut self.faults,
            &mut self.refused,
            fault,
            change,
        )
    }
}

impl Host for MemHost {
    fn start(
        &mut self,
        slot: u32,
        words: &[String],
        input: &[u8],
        limits: Limits,
    ) -> Result<(), Failed>
        requires { ¬ Contains (told_of self.old).busy slot }
        ensures starts { Starts (told_of self.old) (told_of self.new) slot
            (map string_bytes words.now) input.now limits result }
        ensures calls { Calls self.old self.new Began result }
        ensures held { held self.new ≡ held self.old }
        ensures begun { OnOk result
            (Begins self.old self.new slot (map string_bytes words.now) input.now limits) }
        ensures quiet { OnErr result (IsQuiet self.old self.new) }
    {
        let fault = next_fault(&self.failing, &mut self.calls, HostCall::Start);
        let start = copy_start(self.alloc, words, input, limits);
        begin(
            &mut self.journal,
            &mut self.running,
            &mut self.starts,
            &mut self.scripts,
            &mut self.faults,
            &mut self.refused,
            self.alloc,
            fault,
            slot,
            start,
        )
    }

    fn wait(&mut self, slot: u32) -> Result<ChildEnd, Failed>
        requires { Contains (told_of self.old).busy slot }
        ensures waits { Waits (told_of self.old) (told_of self.new) slot result }
        ensures calls { Calls self.old self.new Wait result }
        ensures outcome { IfOk result (λ end. end ≡ (script_in self.old.running slot).outcome) }
        ensures holds { OnOk result
            (held self.new ≡ written_by (script_in self.old.running slot).writes (held self.old)) }
        ensures does { Does self.old self.new Wait result
            (writing (script_in self.old.running slot).writes)
            (writing (script_in self.old.running slot).writes) }
        ensures freed { self.new.running ≡
            filter (λ child. not (nat_eq child.slot slot)) self.old.running }
        ensures scripts { self.new.scripts ≡ self.old.scripts }
        ensures starts { self.new.starts ≡ self.old.starts }
    {
        let fault = next_fault(&self.failing, &mut self.calls, HostCall::Wait);
        let script = end_child(self.alloc, &mut self.running, slot);
        let Script { writes, outcome } = script;
        let change = ended(writes, outcome, fault);
        answer(
            log(
                &mut self.journal,
                &mut self.faults,
                &mut self.refused,
                fault,
                Ok(change),
            ),
            outcome,
        )
    }
}
