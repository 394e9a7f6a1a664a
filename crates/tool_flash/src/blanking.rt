//! `blank N`: a blank flash.
ghost use Rattle.std.specs.Prelude.{◌≡◌, OnErr, OnOk};
ghost use Rattle.ssu_io.specs.Bytes.{Gains, GainsPrefix};
ghost use Rattle.ssu_io.specs.Faults.{HasCause};
ghost use Rattle.ssu_io.specs.Seen.{sink_seen};
ghost use Rattle.tool_flash.specs.Blank.{blank_bytes};
ghost use Rattle.tool_flash.specs.Does.{BlankDoes};

use crate::printing::print;
use ssu_io::{Failed, Sink};
use ssu_status::Status;

/// The length of a block, in bytes.
const BLOCK_LEN: usize = 4096;

/// Puts so many blocks of 4,096 bytes 255 into `made`, and the line `blank N` into `out`. `Done`, or `WriteFault` where `made`
/// or `out` failed.
pub fn blank<W: Sink, T: Sink>(blocks: u32, made: &mut W, out: &mut T) -> Status
    ensures does { BlankDoes blocks result (sink_seen W.Sink made.old made.new) (sink_seen T.Sink out.old out.new) }
{
    match put_blocks(blocks, made) {
        Ok(()) => print(&ssu_line::blank(blocks), out),
        Err(_) => Status::WriteFault,
    }
}

/// Puts the blocks, one after the other.
fn put_blocks<W: Sink>(blocks: u32, made: &mut W) -> Result<(), Failed>
    ensures whole { OnOk result (Gains (W.contents made.old) (W.contents made.new) (blank_bytes blocks)) }
    ensures prefix { OnErr result (GainsPrefix (W.contents made.old) (W.contents made.new) (blank_bytes blocks)) }
    ensures cause { HasCause (W.faults made.old) (W.faults made.new) result }
{
    for _k in 0..blocks {
        put_block(made)?;
    }
    Ok(())
}

fn put_block<W: Sink>(made: &mut W) -> Result<(), Failed>
    ensures whole { OnOk result (Gains (W.contents made.old) (W.contents made.new) (blank_bytes 1)) }
    ensures prefix { OnErr result (GainsPrefix (W.contents made.old) (W.contents made.new) (blank_bytes 1)) }
    ensures cause { HasCause (W.faults made.old) (W.faults made.new) result }
{
    made.put(&[255; BLOCK_LEN])
}
