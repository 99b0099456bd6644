ghost use Rattle.std.specs.Prelude.{◌≡◌, IfOk};
ghost use Rattle.command_promises.specs.Sayings as spec;

use project_store::StoreFault;
use std::alloc::{AllocError, Global};
use text_edits::Files;

/// What a command says.
#[derive(Debug, Drop)]
pub struct Said {
    /// The exit status.
    pub status: u8,
    /// What is printed.
    pub report: Vec<u8>,
    /// The files that are written first.
    pub written: Files,
}

/// Why a command came to nothing.
#[derive(Clone, Copy, Debug, PartialEq, Eq)]
pub enum Stop {
    /// The store failed to read a file.
    ReadFault,
    /// There was no memory.
    WantOfMemory,
}

impl From<AllocError> for Stop {
    ghost use Rattle.command_promises.specs.declared.said.Stop.TheVariants.{WantOfMemory};

    ghost from_gives = { λ _ stop. stop ≡ WantOfMemory };

    fn from(_error: AllocError) -> Stop {
        Stop::WantOfMemory
    }
}

impl From<StoreFault> for Stop {
    ghost use Rattle.command_promises.specs.Sayings.{stop_of};

    ghost from_gives = { λ fault stop. stop ≡ stop_of fault };

    fn from(fault: StoreFault) -> Stop {
        match fault {
            StoreFault::Failed => Stop::ReadFault,
            StoreFault::Memory => Stop::WantOfMemory,
        }
    }
}

impl Said {
    /// A report alone, with its status.
    pub fn tells(alloc: Global, status: u8, report: &str) -> Result<Said, AllocError>
        ensures { IfOk result (λ said. spec.saying said ≡ spec.tells status report.now) }
    {
        Ok(Said {
            status,
            report: Vec::from_slice(alloc, report.as_bytes())?,
            written: Files {
                list: Vec::new(alloc),
            },
        })
    }

    /// A report alone that was made already, with its status.
    pub fn of_bytes(alloc: Global, status: u8, report: Vec<u8>) -> Said
        ensures { spec.saying result ≡ spec.tells status report.items }
    {
        Said {
            status,
            report,
            written: Files {
                list: Vec::new(alloc),
            },
        }
    }
}

/// The words ask for nothing that the program does.
pub fn usage(alloc: Global) -> Result<Said, AllocError>
    ensures { IfOk result (λ said. spec.saying said ≡ spec.usage) }
{
    Said::tells(alloc, 2, "usage\n")
}
