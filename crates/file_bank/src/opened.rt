// A gathered file as a whole, which may not have been opened.
ghost use Rattle.std.specs.Prelude.{◌≡◌, OnOk};
ghost use Rattle.file_bank.specs.Files.{shown};
ghost use Rattle.file_bank.specs.Gathered.{KeepsNone, told_of};
ghost use Rattle.file_bank.specs.ReadAhead.{HasForgotten, ahead_contents};
ghost use Rattle.file_bank.specs.Row.{TellsSame};

use crate::gathered::Gathered;
use crate::read_ahead::ReadAhead;
use crate::row_file::RowFile;
use bank_trait::Failed;

/// Hands over what is kept.
pub fn finish_file<F: RowFile>(file: &mut Option<Gathered<F>>) -> Result<(), Failed>
    ensures same { TellsSame (shown (told_of F.contents) file.old) (shown (told_of F.contents) file.new) }
    ensures last { (shown (told_of F.contents) file.new).last ≡ (shown (told_of F.contents) file.old).last }
    ensures emptied { OnOk result (KeepsNone file.new) }
{
    match file {
        Some(file) => file.finish(),
        None => Ok(()),
    }
}

/// Forgets what was read.
pub fn forget_file<F: RowFile>(file: &mut Option<Gathered<ReadAhead<F>>>)
    ensures same { shown (told_of (ahead_contents F.contents)) file.new
        ≡ shown (told_of (ahead_contents F.contents)) file.old }
    ensures forgotten { HasForgotten file.new }
{
    if let Some(file) = file {
        file.forget_reads();
    }
}
