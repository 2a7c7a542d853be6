// Children that run beside a folder.
ghost use Rattle.std.specs.Prelude.{◌≡◌, Contains, map, string_bytes};
ghost use Rattle.lama_host.specs.Host.{Starts, Waits};

use crate::files::{Failed, Folder};

/// How a child ended: with a status, or by a signal.
#[derive(Clone, Copy, PartialEq, Eq)]
pub enum ChildEnd {
    Status(u8),
    Signal,
}

/// What a child may use: seconds of processor time, and KiB of memory. None is no limit.
#[derive(Clone, Copy, PartialEq, Eq)]
pub struct Limits {
    pub seconds: Option<u32>,
    pub kib: Option<u32>,
}

/// A folder beside which children run, each in a slot.
pub trait Host: Folder {
    /// Starts a child in a free slot: its words, the program first, and the bytes of its standard
    /// input. It may wait until the child has read its input or ended.
    fn start(
        &mut self,
        slot: u32,
        words: &[String],
        input: &[u8],
        limits: Limits,
    ) -> Result<(), Failed>
        requires { ¬ Contains (Self.told self.old).busy slot }
        ensures { Starts (Self.told self.old) (Self.told self.new)
            slot (map string_bytes words.now) input.now limits result };

    /// Waits for the child of a slot, and frees the slot, also where it fails. The child may have
    /// changed every file.
    fn wait(&mut self, slot: u32) -> Result<ChildEnd, Failed>
        requires { Contains (Self.told self.old).busy slot }
        ensures { Waits (Self.told self.old) (Self.told self.new) slot result };
}
