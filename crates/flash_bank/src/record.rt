//! What a record says: which bank holds which image, and in what order records were written.
use ssu_compat::SwId;

/// A record of an image.
#[derive(Clone, Copy, Debug, PartialEq, Eq)]
pub struct Record {
    /// The layout of the flash with this record, 1 or 2.
    pub layout: u8,
    /// The number of the record: of two valid ones that with the greater number is current.
    pub number: u32,
    /// The area that holds the image, 0 or 1; in layout 1 it is all bank.
    pub bank: u8,
    /// The length of the image in bytes.
    pub length: u32,
    /// The software in the image.
    pub software: SwId,
    /// The id of the group that the image came from, 0 after `format`.
    pub group: u32,
}
