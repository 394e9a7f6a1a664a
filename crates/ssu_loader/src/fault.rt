//! Why a replay ends without a verdict.

ghost use Rattle.std.specs.Prelude.{◌≡◌};

use flash_bank::{BankFault, FlashFault};
use ssu_io::NoMemory;
use thiserror::Error;

/// Why a replay ended without a verdict.
#[derive(Clone, Copy, Debug, PartialEq, Eq, Error)]
pub enum LoadFault {
    /// The number or the length of the flash's blocks is out of the limits.
    #[error("the flash has a wrong geometry")]
    Geometry,
    /// The flash failed.
    #[error("the flash failed")]
    FlashFault,
    /// The contents of the flash are not sound.
    #[error("the flash is foreign")]
    Foreign,
    /// No record can follow the current one, whose number is the greatest.
    #[error("the records are worn out")]
    Worn,
    /// Memory ran out before the first packet was taken.
    #[error("out of memory")]
    Memory,
    /// The source failed.
    #[error("the read failed")]
    ReadFault,
    /// A byte came behind 16,777,216 packets.
    #[error("the input is too long")]
    TooLong,
}

impl From<BankFault> for LoadFault {
    ghost use Rattle.ssu_loader.specs.Faults.{of_bank};

    ghost from_gives = { λ bank fault. fault ≡ of_bank bank };

    fn from(fault: BankFault) -> LoadFault {
        match fault {
            BankFault::Geometry => LoadFault::Geometry,
            BankFault::Flash => LoadFault::FlashFault,
            BankFault::Foreign => LoadFault::Foreign,
            BankFault::Worn => LoadFault::Worn,
        }
    }
}

impl From<FlashFault> for LoadFault {
    ghost use Rattle.ssu_loader.specs.declared.fault.LoadFault.TheVariants as load_fault;

    ghost from_gives = { λ _ fault. fault ≡ load_fault.FlashFault };

    fn from(_: FlashFault) -> LoadFault {
        LoadFault::FlashFault
    }
}

impl From<NoMemory> for LoadFault {
    ghost use Rattle.ssu_loader.specs.declared.fault.LoadFault.TheVariants as load_fault;

    ghost from_gives = { λ _ fault. fault ≡ load_fault.Memory };

    fn from(_: NoMemory) -> LoadFault {
        LoadFault::Memory
    }
}
