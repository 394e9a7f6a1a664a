//! The image that boot takes.
ghost use Rattle.std.specs.Prelude.{◌≡◌, ◌⊎◌, ◌↔◌, ◌+◌, ◌*◌, ◌^◌, ◌<◌, ◌≤◌, List, ℕ, length, IfOk, IsErrOf, IsTrue, OnErr, OnOk};
ghost use Rattle.flash_layout.specs.Layout.{HasJournals, IsInLimits, area_place, blocks_of, journal_place, short_len, slots_at};
ghost use Rattle.flash_layout.specs.Pairs.{part};
ghost use Rattle.flash_layout.specs.Shape.{geometry};
ghost use Rattle.flash_bank.specs.Laid.{LiesWithin};
ghost use Rattle.flash_bank.specs.Layout.{IsPlaced};
ghost use Rattle.flash_bank.specs.Runs.{OnlyReads};
ghost use Rattle.flash_bank.specs.Sound.{Boot, BootOf, IsSound, image_of};
ghost use Rattle.ssu_io.specs.Bytes.{Gains, GainsPrefix};
ghost use Rattle.ssu_io.specs.Faults.{Rose};

use crate::fault::BootFault;
use crate::find::find_current;
use crate::laid_image::{LaidBank, put_laid};
use crate::record::Record;
use flash_dev::Flash;
use flash_layout::{Shape, shape_of};
use ssu_io::Sink;

/// The length of a piece of the image.
const PIECE: usize = 256;

/// Puts the image of the current record into the sink, and answers the record. It does not change the flash.
///
/// Answers `Geometry` exactly where the number or the length of the blocks is out of the limits of the layout: 4 to
/// 65,536 blocks of 256 to 65,536 bytes, a multiple of 256, and 268,435,456 bytes at most; `Flash` only where the
/// flash failed and its count of faults rose; `Foreign` where the contents are not sound; `Write` only where the sink
/// failed and its count of faults rose. At `Geometry` and `Foreign` the sink is as before, at `Flash` and `Write` it got
/// nothing or a prefix of the image.
pub fn boot<F: Flash, W: Sink>(flash: &mut F, sink: &mut W) -> Result<Record, BootFault>
    ensures whole { F.tells → IfOk result (λ head. (image : List ℕ)
        × BootOf (blocks_of F.Flash flash.old)
        (F.contents flash.old) (record { head = head; image = image })
        × Gains (W.contents sink.old) (W.contents sink.new) image) }

    // After a fault nothing was put, or a prefix of the image.
    ensures prefix { F.tells → OnErr result ((W.contents sink.new ≡ W.contents sink.old) ⊎ ((taken : Boot)
        × BootOf (blocks_of F.Flash flash.old) (F.contents flash.old) taken
        × GainsPrefix (W.contents sink.old) (W.contents sink.new) taken.image)) }

    // The number or the length of the blocks is out of the limits.
    ensures geometry { IsErrOf result BootFault.Geometry
        ↔ (IsInLimits (blocks_of F.Flash flash.old) → ⊥) }
    ensures fault { IsErrOf result BootFault.Flash → Rose (F.faults flash.old) (F.faults flash.new) }

    // The contents are not sound.
    ensures foreign { F.tells → IsErrOf result BootFault.Foreign
        → IsSound (blocks_of F.Flash flash.old) (F.contents flash.old) → ⊥ }
    ensures refused { IsErrOf result BootFault.Geometry ⊎ IsErrOf result BootFault.Foreign → sink.new ≡ sink.old }
    ensures sound { F.tells → OnOk result
        (IsSound (blocks_of F.Flash flash.old) (F.contents flash.old)) }
    ensures write { IsErrOf result BootFault.Write → Rose (W.faults sink.old) (W.faults sink.new) }
    ensures write_sound { F.tells → IsErrOf result BootFault.Write
        → IsSound (blocks_of F.Flash flash.old) (F.contents flash.old) }

    ensures reads { OnlyReads F.tells F.contents F.block_count F.block_len F.moment F.left_since flash.old flash.new }
    ensures faults { F.faults flash.old ≤ F.faults flash.new }
    ensures sink_faults { W.faults sink.old ≤ W.faults sink.new }
{
    let Some(shape) = shape_of(flash) else {
        return Err(BootFault::Geometry);
    };
    match find_current(flash, shape) {
        Err(_) => Err(BootFault::Flash),
        Ok(None) => Err(BootFault::Foreign),
        Ok(Some(current)) => {
            put_taken(flash, sink, shape, current.head)?;
            Ok(current.head)
        }
    }
}

/// Puts the image of a record into the sink.
fn put_taken<F: Flash, W: Sink>(
    flash: &mut F,
    sink: &mut W,
    shape: Shape,
    head: Record,
) -> Result<(), BootFault>
    requires limits { IsInLimits (geometry shape) }
    requires placed { IsPlaced (geometry shape) head }
    requires blocks { shape.blocks ≡ F.block_count flash.old }
    requires block_size { shape.block_size ≡ F.block_len flash.old }
    requires whole { F.tells → length (F.contents flash.old) ≡ shape.blocks * shape.block_size }
    ensures whole { F.tells → OnOk result (Gains (W.contents sink.old) (W.contents sink.new) (image_of (geometry shape) (F.contents flash.old) head)) }
    ensures prefix { F.tells → OnErr result (GainsPrefix (W.contents sink.old) (W.contents sink.new)
        (image_of (geometry shape) (F.contents flash.old) head)) }
    ensures fault { IsErrOf result BootFault.Flash → Rose (F.faults flash.old) (F.faults flash.new) }
    ensures write { IsErrOf result BootFault.Write → Rose (W.faults sink.old) (W.faults sink.new) }
    ensures no_geometry { IsErrOf result BootFault.Geometry → ⊥ }
    ensures no_foreign { IsErrOf result BootFault.Foreign → ⊥ }
    ensures reads { OnlyReads F.tells F.contents F.block_count F.block_len F.moment F.left_since flash.old flash.new }
    ensures faults { F.faults flash.old ≤ F.faults flash.new }
    ensures sink_faults { W.faults sink.old ≤ W.faults sink.new }
{
    let two = is_laid(head);
    if two {
        put_laid(flash, sink, laid_bank(shape, head.bank), head.length)
    } else {
        put_image(flash, sink, shape.area_place(head.bank), head.length)
    }
}

/// Slots are laid over the image of the record.
fn is_laid(head: Record) -> bool
    ensures { IsTrue result ↔ head.layout ≡ 2 }
{
    head.layout == 2
}

/// Where the bank of an area stands, with its slots.
fn laid_bank(shape: Shape, area: u8) -> LaidBank
    requires limits { IsInLimits (geometry shape) }
    requires room { HasJournals (geometry shape) }
    requires area { area < 2 }
    ensures place { result.place ≡ area_place (geometry shape) area }
    ensures len { result.len ≡ short_len (geometry shape) }
    ensures slots { result.slots ≡ journal_place (geometry shape) area + slots_at (geometry shape) }
    ensures within { LiesWithin result (shape.blocks * shape.block_size) }
{
    LaidBank {
        place: shape.area_place(area),
        len: shape.short_len(),
        slots: shape.journal_place(area) + shape.slots_at(),
    }
}

/// Puts bytes of the flash into the sink, piece by piece.
fn put_image<F: Flash, W: Sink>(
    flash: &mut F,
    sink: &mut W,
    place: u32,
    len: u32,
) -> Result<(), BootFault>
    requires inside { place + len ≤ F.block_count flash.old * F.block_len flash.old }
    requires addressable { place + len < 2 ^ 32 }
    requires whole { F.tells → length (F.contents flash.old) ≡ F.block_count flash.old * F.block_len flash.old }
    ensures whole { F.tells → OnOk result (Gains (W.contents sink.old) (W.contents sink.new) (part (F.contents flash.old) place len)) }
    ensures prefix { F.tells → OnErr result (GainsPrefix (W.contents sink.old) (W.contents sink.new) (part (F.contents flash.old) place len)) }
    ensures fault { IsErrOf result BootFault.Flash → Rose (F.faults flash.old) (F.faults flash.new) }
    ensures write { IsErrOf result BootFault.Write → Rose (W.faults sink.old) (W.faults sink.new) }
    ensures no_geometry { IsErrOf result BootFault.Geometry → ⊥ }
    ensures no_foreign { IsErrOf result BootFault.Foreign → ⊥ }
    ensures reads { OnlyReads F.tells F.contents F.block_count F.block_len F.moment F.left_since flash.old flash.new }
    ensures faults { F.faults flash.old ≤ F.faults flash.new }
    ensures sink_faults { W.faults sink.old ≤ W.faults sink.new }
{
    let mut done = 0u32;
    while done < len {
        let n = (len - done).min(PIECE as u32);
        put_some(flash, sink, place + done, n)?;
        done += n;
    }
    Ok(())
}

/// Puts up to 256 bytes.
fn put_some<F: Flash, W: Sink>(
    flash: &mut F,
    sink: &mut W,
    at: u32,
    len: u32,
) -> Result<(), BootFault>
    requires few { len ≤ 256 }
    requires inside { at + len ≤ F.block_count flash.old * F.block_len flash.old }
    requires whole { F.tells → length (F.contents flash.old) ≡ F.block_count flash.old * F.block_len flash.old }
    ensures whole { F.tells → OnOk result (Gains (W.contents sink.old) (W.contents sink.new) (part (F.contents flash.old) at len)) }
    ensures prefix { F.tells → OnErr result (GainsPrefix (W.contents sink.old) (W.contents sink.new) (part (F.contents flash.old) at len)) }
    ensures fault { IsErrOf result BootFault.Flash → Rose (F.faults flash.old) (F.faults flash.new) }
    ensures write { IsErrOf result BootFault.Write → Rose (W.faults sink.old) (W.faults sink.new) }
    ensures no_geometry { IsErrOf result BootFault.Geometry → ⊥ }
    ensures no_foreign { IsErrOf result BootFault.Foreign → ⊥ }
    ensures reads { OnlyReads F.tells F.contents F.block_count F.block_len F.moment F.left_since flash.old flash.new }
    ensures faults { F.faults flash.old ≤ F.faults flash.new }
    ensures sink_faults { W.faults sink.old ≤ W.faults sink.new }
{
    let mut buf = [0u8; PIECE];
    put_piece(flash, sink, at, &mut buf[..len as usize])
}

/// Reads a piece and puts it.
fn put_piece<F: Flash, W: Sink>(
    flash: &mut F,
    sink: &mut W,
    at: u32,
    piece: &mut [u8],
) -> Result<(), BootFault>
    requires inside { at + length piece.old ≤ F.block_count flash.old * F.block_len flash.old }
    requires whole { F.tells → length (F.contents flash.old) ≡ F.block_count flash.old * F.block_len flash.old }
    ensures whole { F.tells → OnOk result (Gains (W.contents sink.old) (W.contents sink.new)
        (part (F.contents flash.old) at (length piece.old))) }
    ensures prefix { F.tells → OnErr result (GainsPrefix (W.contents sink.old) (W.contents sink.new)
        (part (F.contents flash.old) at (length piece.old))) }
    ensures fault { IsErrOf result BootFault.Flash → Rose (F.faults flash.old) (F.faults flash.new) }
    ensures write { IsErrOf result BootFault.Write → Rose (W.faults sink.old) (W.faults sink.new) }
    ensures no_geometry { IsErrOf result BootFault.Geometry → ⊥ }
    ensures no_foreign { IsErrOf result BootFault.Foreign → ⊥ }
    ensures reads { OnlyReads F.tells F.contents F.block_count F.block_len F.moment F.left_since flash.old flash.new }
    ensures faults { F.faults flash.old ≤ F.faults flash.new }
    ensures sink_faults { W.faults sink.old ≤ W.faults sink.new }
{
    match flash.read(at, piece) {
        Ok(()) => put_bytes(sink, piece),
        Err(_) => Err(BootFault::Flash),
    }
}

pub(crate) fn put_bytes<W: Sink>(sink: &mut W, bytes: &[u8]) -> Result<(), BootFault>
    ensures whole { OnOk result (Gains (W.contents sink.old) (W.contents sink.new) bytes.now) }
    ensures prefix { OnErr result (GainsPrefix (W.contents sink.old) (W.contents sink.new) bytes.now) }
    ensures write { OnErr result (IsErrOf result BootFault.Write × Rose (W.faults sink.old) (W.faults sink.new)) }
    ensures sink_faults { W.faults sink.old ≤ W.faults sink.new }
{
    match sink.put(bytes) {
        Ok(()) => Ok(()),
        Err(_) => Err(BootFault::Write),
    }
}
