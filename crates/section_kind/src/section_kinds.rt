//! The kinds of sections, and their words.
ghost use Rattle.std.specs.Prelude.{◌≡◌};
ghost use Rattle.section_kind.specs.Words.{time_of, word_of};

use ssu_time::Utc;

/// The tables and messages that are read. A section is of a kind exactly where that reader accepts it.
#[derive(Clone, Copy, Debug, PartialEq, Eq)]
pub enum SectionKind {
    /// Program association: ISO/IEC 13818-1, 2.4.4.3.
    Pat,
    /// Program map: ISO/IEC 13818-1, 2.4.4.8.
    Pmt,
    /// Network information: ETSI EN 300 468, 5.2.1.
    Nit,
    /// Bouquet association: ETSI EN 300 468, 5.2.2.
    Bat,
    /// Time and date, with the time: ETSI EN 300 468, 5.2.5.
    Tdt(Utc),
    /// Time offset, with the time: ETSI EN 300 468, 5.2.6.
    Tot(Utc),
    /// Update notification: ETSI TS 102 006, 9.4.
    Unt,
    /// DownloadServerInitiate: ISO/IEC 13818-6, 7.3.
    Dsi,
    /// DownloadInfoIndication: ISO/IEC 13818-6, 7.3.
    Dii,
    /// DownloadDataBlock: ISO/IEC 13818-6, 7.3.
    Ddb,
}

impl SectionKind {
    /// Its three letters, as they are printed.
    pub fn word(&self) -> &'static str
        ensures { result.now ≡ word_of self.now }
    {
        match self {
            SectionKind::Pat => "PAT",
            SectionKind::Pmt => "PMT",
            SectionKind::Nit => "NIT",
            SectionKind::Bat => "BAT",
            SectionKind::Tdt(_) => "TDT",
            SectionKind::Tot(_) => "TOT",
            SectionKind::Unt => "UNT",
            SectionKind::Dsi => "DSI",
            SectionKind::Dii => "DII",
            SectionKind::Ddb => "DDB",
        }
    }

    /// The time that it tells, if it is a table of time.
    pub fn time(&self) -> Option<Utc>
        ensures { result ≡ time_of self.now }
    {
        match self {
            SectionKind::Tdt(time) | SectionKind::Tot(time) => Some(*time),
            _ => None,
        }
    }
}
