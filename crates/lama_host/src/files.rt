// A folder of files.
ghost use Rattle.std.specs.Prelude.{◌≡◌, [], IfOk, IsSome};
ghost use Rattle.std.specs.FinMap.{get, insert, remove};
ghost use Rattle.lama_host.specs.Folder.{Told, Keeps, IsUntouched, WhereTold, Changes};
ghost use Rattle.lama_host.specs.Folder.{Once, Appends, renamed};
ghost use Rattle.lama_host.specs.Pieces.{Reads, Fits};

/// A call of the outside failed. It comes only where the count of faults rose.
#[derive(Clone, Copy, PartialEq, Eq)]
pub struct Failed;

/// What a read found: no such file, or so many bytes in front of the buffer.
#[derive(Clone, Copy, PartialEq, Eq)]
pub enum Piece {
    Missing,
    Bytes(usize),
}

/// A folder of files, by their names.
///
/// What is said of content holds where the folder tells its content and no child runs beside it.
pub trait Folder {
    ghost told: { Self → Told };

    /// Reads bytes of a file from a place on. It gives none only at or past the end, or where the
    /// buffer has no room.
    fn read_some(&mut self, name: &str, start: u64, buf: &mut [u8]) -> Result<Piece, Failed>
        ensures untouched { IsUntouched (told self.old) (told self.new) }
        ensures keeps { Keeps (told self.old) (told self.new) result }
        ensures fits { IfOk result (λ piece. Fits piece buf.new) }
        ensures reads { WhereTold (told self.old) (λ files.
            IfOk result (λ piece. Reads (get files name.now) start buf.new piece)) };

    /// Makes the name hold no bytes.
    fn create(&mut self, name: &str) -> Result<(), Failed>
        ensures keeps { Keeps (told self.old) (told self.new) result }
        ensures changes { Changes (told self.old) (told self.new)
            (Once result (λ files. insert files name.now [])) };

    /// Adds bytes at the end of a file, which it makes where it isn't there. Where it fails, a
    /// front of the bytes may have been added.
    fn append(&mut self, name: &str, piece: &[u8]) -> Result<(), Failed>
        ensures keeps { Keeps (told self.old) (told self.new) result }
        ensures changes { Changes (told self.old) (told self.new)
            (Appends result name.now piece.now) };

    /// Moves the bytes of a file to another name, and replaces that one.
    fn rename(&mut self, old: &str, new: &str) -> Result<(), Failed>
        requires idle { (told self.old).busy ≡ [] }
        requires held { WhereTold (told self.old) (λ files. IsSome (get files old.now)) }
        ensures keeps { Keeps (told self.old) (told self.new) result }
        ensures changes { Changes (told self.old) (told self.new)
            (Once result (renamed old.now new.now)) };

    /// Takes a name away, if it is there.
    fn remove(&mut self, name: &str) -> Result<(), Failed>
        ensures keeps { Keeps (told self.old) (told self.new) result }
        ensures changes { Changes (told self.old) (told self.new)
            (Once result (λ files. remove files name.now)) };
}
