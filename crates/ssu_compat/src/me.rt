//! A box, as an update names it: its hardware and its addresses.

use crate::oui::Oui;
use arrayvec::ArrayVec;

/// A box, as an update names it.
#[derive(Debug, Drop)]
pub struct BoxId {
    /// The OUI of its maker.
    pub oui: Oui,
    /// The model of its hardware.
    pub model: u16,
    /// The version of its hardware.
    pub version: u16,
    /// MAC address, if the box has one.
    pub mac: Option<[u8; 6]>,
    /// Serial number, if the box has one.
    pub serial: Option<ArrayVec<u8, 32>>,
}
