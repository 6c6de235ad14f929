// Why a script was refused.
ghost use Rattle.std.specs.Prelude.{◌≡◌};
ghost use Rattle.client_script.specs.FromSource.{read_refusal};
ghost use Rattle.client_script.specs.declared.refused.ParseRefused.TheVariants.{NoMemory};
ghost use Rattle.client_script.specs.declared.refused.ReadRefused.TheVariants.{SourceFault, NoMemory as NoMemoryToRead};

use crate::line_fault::LineFault;
use bank_trait::Failed;
use std::alloc::AllocError;

#[derive(Clone, Copy, Debug, PartialEq, Eq)]
pub enum ParseRefused {
    /// The first line that breaks the grammar, from 1, and what is wrong with it.
    ScriptFault { line: u64, why: LineFault },
    /// Too many bytes, clients or calls: one more than are allowed.
    Limit { reached: u64 },
    NoMemory,
}

impl From<AllocError> for ParseRefused {
    ghost from_gives = { λ _ refused. refused ≡ NoMemory };

    fn from(_: AllocError) -> ParseRefused {
        ParseRefused::NoMemory
    }
}

#[derive(Clone, Copy, Debug, PartialEq, Eq)]
pub enum ReadRefused {
    /// A read of the source failed.
    SourceFault,
    /// The first line that breaks the grammar, from 1, and what is wrong with it.
    ScriptFault { line: u64, why: LineFault },
    /// Too many bytes, clients or calls: one more than are allowed.
    Limit { reached: u64 },
    NoMemory,
}

impl From<Failed> for ReadRefused {
    ghost from_gives = { λ _ refused. refused ≡ SourceFault };

    fn from(_: Failed) -> ReadRefused {
        ReadRefused::SourceFault
    }
}

impl From<AllocError> for ReadRefused {
    ghost from_gives = { λ _ refused. refused ≡ NoMemoryToRead };

    fn from(_: AllocError) -> ReadRefused {
        ReadRefused::NoMemory
    }
}

impl From<ParseRefused> for ReadRefused {
    ghost from_gives = { λ refused same. same ≡ read_refusal refused };

    fn from(refused: ParseRefused) -> ReadRefused {
        match refused {
            ParseRefused::ScriptFault { line, why } => ReadRefused::ScriptFault { line, why },
            ParseRefused::Limit { reached } => ReadRefused::Limit { reached },
            ParseRefused::NoMemory => ReadRefused::NoMemory,
        }
    }
}
