//! A file's text as a TOML document.
ghost use Rattle.std.specs.Prelude.{◌≡◌, Some, None, IfOk, IsErrOf};
ghost use Rattle.toml.specs.View.{table_view};
ghost use Rattle.toml_fields.specs.Reading.{document_of};

use std::alloc::Global;
use thiserror::Error;
use toml::Table;

/// Why a text gave no table.
#[derive(Clone, Copy, Debug, PartialEq, Eq, Error)]
pub enum DocumentFault {
    /// The text is no UTF-8, or no TOML document.
    #[error("no TOML in UTF-8")]
    Text,
    /// Memory ran out.
    #[error("out of memory")]
    Memory,
}

/// The table of a text in UTF-8 that is a TOML document. Answers `Text` only where the text is no UTF-8 or no TOML
/// document, and `Memory` where memory ran out.
pub fn read_document(alloc: Global, text: &[u8]) -> Result<Table, DocumentFault>
    ensures table { IfOk result (λ t. document_of text.now ≡ Some (table_view t)) }
    ensures refused { IsErrOf result DocumentFault.Text → document_of text.now ≡ None }
{
    let Ok(text) = std::str::from_utf8(text) else {
        return Err(DocumentFault::Text);
    };
    match toml::table_from_str(alloc, text) {
        Ok(table) => Ok(table),
        Err(fault) if fault.is_memory() => Err(DocumentFault::Memory),
        Err(_) => Err(DocumentFault::Text),
    }
}
