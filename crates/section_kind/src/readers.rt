//! The kinds by their readers.
ghost use Rattle.std.specs.Prelude.{◌≡◌};
ghost use Rattle.std.specs.Option.{option_map, option_or};
ghost use Rattle.dsmcc_msg.specs.Block.{ddb};
ghost use Rattle.dsmcc_msg.specs.Control.{dii as dii_table, dsi as dsi_table};
ghost use Rattle.section_kind.specs.Kinds.{nit_or_bat, utc_of};
ghost use Rattle.section_kind.specs.declared.section_kinds.SectionKind.TheVariants as kinds;
ghost use Rattle.si_table.specs.Tables.{net as net_table, pat as pat_table, pmt as pmt_table};
ghost use Rattle.si_table.specs.Times.{tdt as tdt_table, tot as tot_table};
ghost use Rattle.ssu_unt.specs.Table.{unt as unt_table};

use crate::section_kinds::SectionKind;
use dsmcc_msg::{Ddb, Dii, Dsi};
use si_table::{Net, Pat, Pmt, Tdt, Tot};
use ssu_unt::Unt;

pub(crate) fn pat(section: &[u8]) -> Option<SectionKind>
    ensures { result ≡ option_map (λ _. kinds.Pat) (pat_table.of section.now) }
{
    let _pat = Pat::read(section)?;
    Some(SectionKind::Pat)
}

pub(crate) fn pmt(section: &[u8]) -> Option<SectionKind>
    ensures { result ≡ option_map (λ _. kinds.Pmt) (pmt_table.of section.now) }
{
    let _pmt = Pmt::read(section)?;
    Some(SectionKind::Pmt)
}

/// A NIT or a BAT.
pub(crate) fn net(section: &[u8]) -> Option<SectionKind>
    ensures { result ≡ option_map nit_or_bat (net_table.of section.now) }
{
    let net = Net::read(section)?;
    if net.table == 0x40 {
        Some(SectionKind::Nit)
    } else {
        Some(SectionKind::Bat)
    }
}

pub(crate) fn tdt(section: &[u8]) -> Option<SectionKind>
    ensures { result ≡ option_map (λ t. kinds.Tdt (utc_of t)) (tdt_table.of section.now) }
{
    let tdt = Tdt::read(section)?;
    Some(SectionKind::Tdt(tdt.time))
}

pub(crate) fn tot(section: &[u8]) -> Option<SectionKind>
    ensures { result ≡ option_map (λ t. kinds.Tot (utc_of t.time)) (tot_table.of section.now) }
{
    let tot = Tot::read(section)?;
    Some(SectionKind::Tot(tot.time))
}

pub(crate) fn unt(section: &[u8]) -> Option<SectionKind>
    ensures { result ≡ option_map (λ _. kinds.Unt) (unt_table.of section.now) }
{
    let _unt = Unt::read(section)?;
    Some(SectionKind::Unt)
}

/// A DSI or a DII.
pub(crate) fn control(section: &[u8]) -> Option<SectionKind>
    ensures { result ≡ option_or (option_map (λ _. kinds.Dsi) (dsi_table.of section.now)) (option_map (λ _. kinds.Dii) (dii_table.of section.now)) }
{
    match dsi(section) {
        Some(kind) => Some(kind),
        None => dii(section),
    }
}

fn dsi(section: &[u8]) -> Option<SectionKind>
    ensures { result ≡ option_map (λ _. kinds.Dsi) (dsi_table.of section.now) }
{
    let _dsi = Dsi::read(section)?;
    Some(SectionKind::Dsi)
}

fn dii(section: &[u8]) -> Option<SectionKind>
    ensures { result ≡ option_map (λ _. kinds.Dii) (dii_table.of section.now) }
{
    let _dii = Dii::read(section)?;
    Some(SectionKind::Dii)
}

pub(crate) fn block(section: &[u8]) -> Option<SectionKind>
    ensures { result ≡ option_map (λ _. kinds.Ddb) (ddb.of section.now) }
{
    let _ddb = Ddb::read(section)?;
    Some(SectionKind::Ddb)
}
