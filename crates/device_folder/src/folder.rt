ghost use Rattle.std.specs.Prelude.{◌≡◌, ◌≢◌, ◌↔◌, length, IfOk, OnOk, OnErr, None, IsTrue};
ghost use Rattle.std.specs.Prelude.{IsSome};
ghost use Rattle.device_folder.specs.Folder.{FolderState, IsSound, AreFolderCalls, Touches};
ghost use Rattle.device_folder.specs.Folder.{IsUnchanged, Keeps, Makes, Renames, Removes, NoFile};
ghost use Rattle.device_folder.specs.Folder.{IsFresh, IsMade, IsLent, IsKept, IsNamed};
ghost use Rattle.device_folder.specs.Folder.{NamesAreDurable};
ghost use Rattle.device_folder.specs.Answers.{IsFailed, IsRefused, MakeAnswers, OpenAnswers};
ghost use Rattle.device_folder.specs.Answers.{KeepAnswers, RenameAnswers, RemoveAnswers};
ghost use Rattle.device_folder.specs.Answers.{NeverRefuses};

use sector_device::Device;
use std::alloc::AllocError;
use thiserror::Error;

/// Why a call on a folder was refused, or failed. A refusal, which is each of these but `Failed`,
/// changes nothing.
#[derive(Clone, Copy, Debug, PartialEq, Eq, Error)]
pub enum FolderFault {
    /// The name stands for a file already.
    #[error("a file has that name: choose another name, or remove the file first")]
    Exists,
    /// The name stands for no file.
    #[error("no file has that name: check the name, or make the file first")]
    Missing,
    /// The file is lent.
    #[error("the file is in use: end what uses it, then try again")]
    InUse,
    /// The file that is given back isn't one that this folder has lent.
    #[error("the file is not from this folder: give it back to the folder that lent it")]
    Foreign,
    /// There is no memory for the call.
    #[error("out of memory")]
    Memory,
    /// The system failed.
    #[error("the folder failed: check its disk, its free space and its permissions")]
    Failed,
}

impl From<AllocError> for FolderFault {
    ghost use Rattle.device_folder.specs.declared.folder.FolderFault.TheVariants.{Memory};

    ghost from_gives = { λ _ fault. fault ≡ Memory };

    fn from(_: AllocError) -> FolderFault {
        FolderFault::Memory
    }
}

/// A folder: names that stand for files, which are devices while they are lent.
///
/// A file is lent by value, and `keep` takes it back: the folder knows it by the number of its
/// device. While a file is lent, its name stays.
///
/// A name is pending from the start of a call that changes it until the next `sync` of the folder
/// that succeeds. A crash leaves each pending name, independently, standing for what it stood for
/// at that sync, or for anything that it has stood for since. What a crash leaves of a file is
/// what it leaves of the file's device. A crash may leave anything of a file that is lent. These
/// are upper bounds, promised of an honest folder; that calls keep honesty both ways, and the cause
/// of a failure, are promised of every folder.
pub trait Folder {
    /// A file that is lent.
    type File: Device + Drop;

    ghost state: { Self → FolderState };

    /// Makes a file of so many zero sectors under that name, and lends it. After `Failed` the name
    /// may stand for a new file.
    fn make(&mut self, name: &str, sectors: u64) -> Result<Self::File, FolderFault>
        ensures call { AreFolderCalls (state self.old) (state self.new) (IsFailed result) }
        ensures answers { (state self.old).honest → MakeAnswers (state self.old) name.now result }
        ensures refused { (state self.old).honest → IsRefused result
            → IsUnchanged (state self.old) (state self.new) }
        ensures touches { (state self.old).honest
            → Touches (Makes name.now (state self.old)) (IsFresh (state self.old))
            (state self.old) (state self.new) }
        ensures sectors { IfOk result (λ file. length (Self.File.state file).reads ≡ sectors) }
        ensures made { (state self.old).honest → IfOk result (λ file.
            IsMade name.now sectors (state self.old) (state self.new) (Self.File.state file)) };

    /// Lends the file of that name.
    fn open(&mut self, name: &str) -> Result<Self::File, FolderFault>
        ensures call { AreFolderCalls (state self.old) (state self.new) (IsFailed result) }
        ensures answers { (state self.old).honest → OpenAnswers (state self.old) name.now result }
        ensures refused { (state self.old).honest
            → OnErr result (IsUnchanged (state self.old) (state self.new)) }
        ensures touches { (state self.old).honest
            → Touches Keeps (IsNamed (state self.old) name.now)
            (state self.old) (state self.new) }
        ensures opened { (state self.old).honest → IfOk result (λ file.
            IsLent name.now (state self.old) (state self.new) (Self.File.state file)) };

    /// Takes back a file that was lent. After a fault the file is closed, and one that this folder
    /// lent is lent for good.
    fn keep(&mut self, file: Self::File) -> Result<(), FolderFault>
        ensures call { AreFolderCalls (state self.old) (state self.new) (IsFailed result) }
        ensures answers { (state self.old).honest
            → KeepAnswers (state self.old) (Self.File.state file).number result }
        ensures refused { (state self.old).honest
            → OnErr result (IsUnchanged (state self.old) (state self.new)) }
        ensures touches { (state self.old).honest
            → Touches Keeps (λ f. f ≡ (Self.File.state file).number)
            (state self.old) (state self.new) }
        ensures kept { (state self.old).honest → (Self.File.state file).honest
            → OnOk result (IsKept (Self.File.state file) (state self.new)) };

    /// Gives the file of one name another name, in place of the file that had that one. After
    /// `Failed` each of the two names may stand for what it stood for, or is to stand for.
    fn rename(&mut self, from: &str, to: &str) -> Result<(), FolderFault>
        requires { from.now ≢ to.now }
        ensures call { AreFolderCalls (state self.old) (state self.new) (IsFailed result) }
        ensures answers { (state self.old).honest
            → RenameAnswers (state self.old) from.now to.now result }
        ensures refused { (state self.old).honest → IsRefused result
            → IsUnchanged (state self.old) (state self.new) }
        ensures touches { (state self.old).honest
            → Touches (Renames from.now to.now (state self.old)) NoFile
            (state self.old) (state self.new) }
        ensures named { (state self.old).honest
            → OnOk result ((state self.new).names to.now ≡ (state self.old).names from.now) }
        ensures free { (state self.old).honest
            → OnOk result ((state self.new).names from.now ≡ None) };

    /// Takes the name off its file. After `Failed` the name may stand for the file, or for none.
    fn remove(&mut self, name: &str) -> Result<(), FolderFault>
        ensures call { AreFolderCalls (state self.old) (state self.new) (IsFailed result) }
        ensures answers { (state self.old).honest
            → RemoveAnswers (state self.old) name.now result }
        ensures refused { (state self.old).honest → IsRefused result
            → IsUnchanged (state self.old) (state self.new) }
        ensures touches { (state self.old).honest
            → Touches (Removes name.now) NoFile (state self.old) (state self.new) }
        ensures free { (state self.old).honest
            → OnOk result ((state self.new).names name.now ≡ None) };

    /// Whether the name stands for a file. A failure of this call isn't counted.
    fn exists(&self, name: &str) -> Result<bool, FolderFault>
        ensures answers { (state self.now).honest → NeverRefuses result }
        ensures exists { (state self.now).honest → IfOk result (λ exists.
            IsTrue exists ↔ IsSome ((state self.now).names name.now)) };

    /// Makes the names durable. After a fault what was pending still is.
    fn sync(&mut self) -> Result<(), FolderFault>
        ensures call { AreFolderCalls (state self.old) (state self.new) (IsFailed result) }
        ensures answers { (state self.old).honest → NeverRefuses result }
        ensures same { (state self.old).honest → IsUnchanged (state self.old) (state self.new) }
        ensures durable { (state self.old).honest
            → OnOk result (NamesAreDurable (state self.new)) };

    /// What holds of an honest folder at each moment.
    ghost sound: { (folder : Self) → (state folder).honest → IsSound (state folder) };
}
