// The folder of a history, as its files are read and saved.

ghost use Rattle.std.specs.Prelude.{◌≡◌, IfErr, IfOk, IfSome, Some, map};
ghost use Rattle.folder.specs.Calls.{Stays};
ghost use Rattle.inputs.specs.FileNames.{name_of};
ghost use Rattle.files.specs.Beside.{FilesStandBeside};
ghost use Rattle.files.specs.Places.{IsUnread, IsUnsaved, standing};

use folder::{Folder, WriteFault};
use inputs::{Fault, InputFile, LinkOut};
use lists::Text;
use std::alloc::{AllocError, Global};

/// A folder with the files of a history. To read one changes nothing.
pub trait HistoryFolder: Folder {
    /// A read may fail, though the file stands there.
    ghost may_fail: { Self → Type 0 };

    /// Where memory is taken from.
    fn alloc(&self) -> Global;

    /// The bytes of a file, in its place or beside it.
    fn read(&self, file: InputFile, is_beside: bool) -> Result<Vec<u8>, Fault>
        ensures bytes { IfOk result (λ bytes. IfSome (Self.held self.now)
            (λ h. standing is_beside h file ≡ Some bytes.items)) }
        ensures fault { IfErr result
            (IsUnread (Self.held self.now) (may_fail self.now) is_beside file) };

    /// Whether something stands in the place of a file, or beside it. What can't be told counts as nothing.
    fn stands(&self, file: &InputFile, is_beside: bool) -> Result<bool, Fault>;

    /// Where the link in the place of a file leads, if that is no file of reqlock's. What can't be told counts as none.
    fn link_out(&self, file: InputFile) -> Result<Option<LinkOut>, Fault>;

    /// Has calls name files.
    fn add(&mut self, files: Vec<InputFile>) -> Result<(), AllocError>
        ensures still { Stays Self.held Self.may_leave Self.moment Self.left_since Self.faults
            self.old self.new };

    /// Has calls name files that may stand beside their places, of those that can have paths. It answers their names: of files
    /// that stand there, all of them.
    fn add_beside(&mut self, files: Vec<InputFile>) -> Result<Vec<Text>, Fault>
        ensures names { IfOk result (λ names. IfSome (Self.held self.old) (λ h.
            FilesStandBeside files.items h → names.items ≡ map name_of files.items)) }
        ensures still { Stays Self.held Self.may_leave Self.moment Self.left_since Self.faults
            self.old self.new };

    /// Why a save failed.
    fn unsaved(&mut self, fault: WriteFault) -> Fault
        ensures fault { IsUnsaved result }
        ensures still { Stays Self.held Self.may_leave Self.moment Self.left_since Self.faults
            self.old self.new };
}
