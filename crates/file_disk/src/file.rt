//! What a disk asks of the files that hold its slots.

/// A call of a file failed.
#[derive(Clone, Copy, Debug, PartialEq, Eq)]
pub struct FileFault;

/// A file that holds a slot.
///
/// On an honest file each call does what its clauses say: it is where it should be, a cut cuts, and
/// octets that are synced survive a crash. Of any other file nothing is known but that no more
/// octets go out than were given.
pub trait SlotFile {
    ghost use Rattle.std.specs.Prelude.{ℕ, ◌≡◌, ◌≤◌, ◌+◌, length, take, drop, OnOk, OnErr, IfOk};
    ghost use Rattle.jr_disk.specs.Disk.{bytes_of};
    ghost use Rattle.file_disk.specs.Files.{FileState, IsCertain, file_grown, shortened, file_settled, synced, suspected};

    /// The file does what the clauses under this premise say.
    ghost honest: { Type 0 };

    /// Its octets, and what is certain of them.
    ghost state: { Self → FileState };

    /// How many octets it has.
    fn size(&self) -> Result<usize, FileFault>
        ensures { honest → IfOk result (λ n. n ≡ length (bytes_of (state self.now).octets)) };

    /// Reads octets, from a place of the file on, into all of the buffer.
    fn read_from(&self, from: usize, buffer: &mut [u8]) -> Result<(), FileFault>
        ensures { honest → from + length buffer.old ≤ length (bytes_of (state self.now).octets) →
            OnOk result (buffer.new
            ≡ take (length buffer.old) (drop from (bytes_of (state self.now).octets))) };

    /// Adds octets at the end, from the first on, as many as go out in one write: how many. On an
    /// error none went out.
    fn add(&mut self, bytes: &[u8]) -> Result<usize, FileFault>
        ensures within { IfOk result (λ n. n ≤ length bytes.now) }
        ensures ok { honest → IfOk result (λ n. state self.new
            ≡ file_grown (state self.old) (take n bytes.now)) }
        ensures err { honest → OnErr result (state self.new ≡ state self.old) };

    /// Cuts the file to a length that it has. Until that is settled, a crash may leave the file as
    /// long as it was.
    fn shorten(&mut self, len: usize) -> Result<(), FileFault>
        ensures ok { honest → len ≤ length (bytes_of (state self.old).octets) →
            OnOk result (state self.new ≡ shortened (state self.old) len) }
        ensures err { honest → OnErr result (state self.new ≡ state self.old) };

    /// Makes its length durable.
    fn settle(&mut self) -> Result<(), FileFault>
        ensures ok { honest → OnOk result (state self.new ≡ file_settled (state self.old)) }
        ensures err { honest → OnErr result (state self.new ≡ suspected (state self.old)) };

    /// Makes its octets durable, where nothing is in doubt. Where a sync of it failed before, this
    /// one may succeed and have done nothing.
    fn sync(&mut self) -> Result<(), FileFault>
        ensures ok { honest → IsCertain (state self.old) →
            OnOk result (state self.new ≡ synced (state self.old)) }
        ensures err { honest → OnErr result (state self.new ≡ suspected (state self.old)) };
}
