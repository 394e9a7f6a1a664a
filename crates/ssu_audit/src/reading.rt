//! What an audit reads out of one section: ISO/IEC 13818-6, 7.3; ETSI EN 301 192, 8.1.

ghost use Rattle.std.specs.Prelude.{◌≡◌};
ghost use Rattle.std.specs.Option.{option_map};
ghost use Rattle.dsmcc_msg.specs.Block.{ddb};
ghost use Rattle.dsmcc_msg.specs.Control.{dii, dii_message, dsi};
ghost use Rattle.dsmcc_msg.specs.View.{ddb_view};
ghost use Rattle.section_form.specs.Section.{IsRight};
ghost use Rattle.ssu_audit.specs.Said.{message_of as message_of_section};

use dsmcc_msg::{Ddb, Dii, Dsi};
use section_form::long;

/// The DDB that the section is.
pub(crate) fn ddb_of(section: &[u8]) -> Option<Ddb<'_>>
    ensures { option_map ddb_view result ≡ ddb.of section.now }
{
    Ddb::read(section)
}

/// The DDB that a right section is, without the time of a CRC.
pub(crate) fn ddb_of_right(section: &[u8]) -> Option<Ddb<'_>>
    requires { IsRight section.now }
    ensures { option_map ddb_view result ≡ ddb.of section.now }
{
    Ddb::read_right(section)
}

/// The DII that the section is.
pub(crate) fn dii_of(section: &[u8]) -> Option<Dii<'_>>
    ensures { result ≡ dii.of section.now }
{
    Dii::read(section)
}

/// The DII of a message.
pub(crate) fn dii_in(message: &[u8]) -> Option<Dii<'_>>
    ensures { result ≡ dii_message.of message.now }
{
    Dii::read_message(message)
}

/// The DSI that the section is.
pub(crate) fn dsi_of(section: &[u8]) -> Option<Dsi<'_>>
    ensures { result ≡ dsi.of section.now }
{
    Dsi::read(section)
}

/// The message of a section in the long form, which is its body.
#[tactic(auto, unfolding(crate::specs::Said::message_of))]
pub(crate) fn message_of(section: &[u8]) -> &[u8]
    ensures { result.now ≡ message_of_section section.now }
{
    match long(section) {
        Some(form) => form.body,
        None => &[],
    }
}
