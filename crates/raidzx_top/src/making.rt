// Carrying out `create`.
ghost use Rattle.raidzx_top.specs.Words.{IsSize};
ghost use Rattle.raidzx_top.specs.Making.{Makes};

use crate::status::Status;
use bank_trait::Bank;
use command_words::NewPool;
use core_open::create;

/// The fewest sectors that a device of a pool has.
const FEWEST_SECTORS: u64 = 256;

/// Makes the pool where the bank is large enough for it.
pub fn make_pool<B: Bank>(bank: &mut B, made: &NewPool) -> Status
    requires size { IsSize made.now.parity made.now.width }
    ensures { Makes made.now (B.disk bank.old) (B.disk bank.new) result }
{
    if bank.devices() < made.width || bank.sectors() < FEWEST_SECTORS {
        return Status::TooSmall;
    }
    match create(bank, made.parity, made.width, made.id) {
        Ok(()) => Status::Done,
        Err(why) => Status::from(why),
    }
}
