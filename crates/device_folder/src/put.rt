ghost use Rattle.std.specs.Prelude.{◌≡◌, ◌≢◌, ℕ, None, length, OnOk, IsOk};
ghost use Rattle.sector_device.specs.Image.{Image};
ghost use Rattle.device_folder.specs.Folder.{AreFolderCalls, Makes, Renames, Removes, NoFile};
ghost use Rattle.device_folder.specs.Folder.{IsFresh, Touches};
ghost use Rattle.device_folder.specs.Answers.{IsFailed, RenameAnswers};
ghost use Rattle.device_folder.specs.Crash.{LeavesOnly, OnlyTouches};
ghost use Rattle.device_folder.specs.Put.{IsFolderFailed, ClearAnswers, MakeFileAnswers};
ghost use Rattle.device_folder.specs.Put.{PutAnswers, IsWritten, IsSettledBut, IsSettled};
ghost use Rattle.device_folder.specs.Put.{IsWhole, IsInPlace, IsBeforeOrAfter, StandsFor};
ghost use Rattle.device_folder.specs.Put.{IsRun};

use crate::{Folder, FolderFault};
use sector_device::Device;

/// Why a file isn't put into a folder.
#[derive(Clone, Copy, Debug, PartialEq, Eq)]
pub enum PutFault<E> {
    /// A call on the folder.
    Folder(FolderFault),
    /// What the file was to hold wasn't written.
    Content(E),
}

impl<E> From<FolderFault> for PutFault<E> {
    ghost use Rattle.device_folder.specs.declared.put.PutFault.TheVariants.{Folder};

    ghost from_gives = { λ fault put. put ≡ Folder fault };

    fn from(fault: FolderFault) -> PutFault<E> {
        PutFault::Folder(fault)
    }
}

/// What a new file is to hold.
pub trait Content {
    /// Why it wasn't written.
    type Fault: Drop;

    /// What is to hold of the sectors that are written.
    ghost holds: { Self → Image → Type 0 };

    /// Their number.
    ghost size: { Self → ℕ };

    /// How many sectors it takes.
    fn sectors(&self) -> u64
        ensures { result ≡ size self.now };

    /// Writes it to a device of that many sectors, durably.
    fn write<D: Device>(&mut self, device: &mut D) -> Result<(), Self::Fault>
        requires { length (D.state device.old).reads ≡ size self.old }
        ensures number { (D.state device.new).number ≡ (D.state device.old).number }
        ensures stays_honest { (D.state device.old).honest → (D.state device.new).honest }
        ensures written { (D.state device.old).honest
            → OnOk result (IsWritten (holds self.old) (D.state device.new)) };
}

/// Puts a new file into a folder under a name that stands for none, whole or not at all: it is
/// made under an unfinished name, written, synced and given back; then it is renamed, and the
/// folder is synced. What the unfinished name stood for is removed first.
///
/// A crash at any moment leaves under each name but the unfinished one what a crash before might
/// have left there; or it leaves the whole file under the name, and the rest so. From `Ok` on,
/// every crash leaves the file. After an error both names are removed again, if the folder lets
/// them be.
///
/// # Errors
/// `InUse` if the file of the unfinished name is lent. Else the content isn't written, or for a
/// call on the folder there is no memory, or it failed.
pub fn put_file<F: Folder, C: Content>(
    folder: &mut F,
    unfinished: &str,
    name: &str,
    content: &mut C,
) -> Result<(), PutFault<C::Fault>>
    requires differ { unfinished.now ≢ name.now }
    requires free { (F.state folder.old).honest → (F.state folder.old).names name.now ≡ None }
    ensures call { IsRun (F.state folder.old) (F.state folder.new) (IsFolderFailed result)
        (IsOk result) }
    ensures answers { (F.state folder.old).honest
        → PutAnswers unfinished.now (F.state folder.old) result }
    ensures any_moment { (F.state folder.old).honest
        → LeavesOnly (F.state folder.old) (F.state folder.new)
        (IsBeforeOrAfter unfinished.now name.now (C.holds content.old) (F.state folder.old)) }
    ensures after { (F.state folder.old).honest → OnOk result
        (StandsFor unfinished.now name.now (C.holds content.old)
        (F.state folder.old) (F.state folder.new)) }
    ensures settled { (F.state folder.old).honest
        → IsSettledBut unfinished.now (F.state folder.old)
        → OnOk result (IsSettled (F.state folder.new)) }
{
    clear(folder, unfinished)?;
    if let Err(fault) = make_file(folder, unfinished, content) {
        let _ = clear(folder, unfinished);
        return Err(fault);
    }
    let Err(fault) = put_in_place(folder, unfinished, name) else {
        return Ok(());
    };
    // The name may be its own already, and not durable.
    if matches!(folder.remove(unfinished), Err(FolderFault::Missing)) {
        let _ = folder.remove(name);
    }
    let _ = folder.sync();
    Err(PutFault::Folder(fault))
}

// Takes a name off its file, if it stands for one.
fn clear<F: Folder>(folder: &mut F, name: &str) -> Result<(), FolderFault>
    ensures call { AreFolderCalls (F.state folder.old) (F.state folder.new) (IsFailed result) }
    ensures answers { (F.state folder.old).honest
        → ClearAnswers (F.state folder.old) name.now result }
    ensures touches { (F.state folder.old).honest
        → Touches (Removes name.now) NoFile (F.state folder.old) (F.state folder.new) }
    ensures free { (F.state folder.old).honest
        → OnOk result ((F.state folder.new).names name.now ≡ None) }
{
    match folder.remove(name) {
        Err(FolderFault::Missing) => Ok(()),
        answer => answer,
    }
}

// Makes a file under a name that stands for none. From `Ok` on, every crash leaves the file whole.
// The name itself is pending. After an error it may stand for a file of any bytes.
fn make_file<F: Folder, C: Content>(
    folder: &mut F,
    name: &str,
    content: &mut C,
) -> Result<(), PutFault<C::Fault>>
    ensures call { AreFolderCalls (F.state folder.old) (F.state folder.new)
        (IsFolderFailed result) }
    ensures touches { (F.state folder.old).honest
        → OnlyTouches (Makes name.now (F.state folder.old)) (IsFresh (F.state folder.old))
        (F.state folder.old) (F.state folder.new) }
    ensures answers { (F.state folder.old).honest
        → MakeFileAnswers name.now (F.state folder.old) result }
    ensures whole { (F.state folder.old).honest → OnOk result
        (IsWhole name.now (C.holds content.old) (F.state folder.old) (F.state folder.new)) }
{
    let mut file = folder.make(name, content.sectors())?;
    let written = content.write(&mut file);
    folder.keep(file)?;
    written.map_err(PutFault::Content)
}

// Gives the file of one name another name, durably, in place of the file that had that one. After a
// failure each of the two names may stand for what it stood for, or is to stand for.
fn put_in_place<F: Folder>(folder: &mut F, from: &str, to: &str) -> Result<(), FolderFault>
    requires { from.now ≢ to.now }
    ensures call { AreFolderCalls (F.state folder.old) (F.state folder.new) (IsFailed result) }
    ensures answers { (F.state folder.old).honest
        → RenameAnswers (F.state folder.old) from.now to.now result }
    ensures touches { (F.state folder.old).honest
        → OnlyTouches (Renames from.now to.now (F.state folder.old)) NoFile
        (F.state folder.old) (F.state folder.new) }
    ensures in_place { (F.state folder.old).honest → OnOk result
        (IsInPlace from.now to.now (F.state folder.old) (F.state folder.new)) }
{
    folder.rename(from, to)?;
    folder.sync()
}
