//! The flash of a sample.
ghost use Rattle.std.specs.Prelude.{IfOk};
ghost use Rattle.tool_sample.specs.Does.{IsBlankFlash, IsFormatted};

use crate::plan::RUNNING;
use flash_bank::{FormatFault, format};
use flash_dev::SureFlash;
use ssu_io::NoMemory;
use std::alloc::Global;

/// How many blocks the flash has, and the bytes of one.
const BLOCKS: u32 = 202;

const BLOCK_LEN: u32 = 4096;

/// What it is formatted with.
const IMAGE: [u8; 16] = [0, 1, 2, 3, 4, 5, 6, 7, 8, 9, 10, 11, 12, 13, 14, 15];

/// A flash that never fails, and is formatted.
pub(crate) fn formatted(alloc: Global) -> Result<SureFlash, NoMemory>
    ensures { IfOk result IsFormatted }
{
    let mut flash = blank(alloc)?;
    match format(&mut flash, &IMAGE, RUNNING) {
        Ok(_) => Ok(flash),
        Err(FormatFault::Geometry) => unreachable!(),
        Err(FormatFault::NoFit) => unreachable!(),
        Err(FormatFault::Flash) => unreachable!(),
    }
}

/// A blank flash that never fails.
fn blank(alloc: Global) -> Result<SureFlash, NoMemory>
    ensures { IfOk result IsBlankFlash }
{
    SureFlash::blank(alloc, BLOCKS, BLOCK_LEN)
}
