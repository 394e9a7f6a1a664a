//! Names of fields.
ghost use Rattle.std.specs.Prelude.{◌≡◌, ◌+◌, ◌<◌, ◌≤◌, ◌++◌, length};
ghost use Rattle.toml_fields.specs.Reading.{item_prefix as prefix_of_item};

use arrayvec::ArrayString;
use itoa::Buffer;

/// The name of a field, as a refusal shows it.
pub type FieldName = ArrayString<32>;

/// The name `name` behind `prefix`.
pub fn field_name(prefix: &str, name: &str) -> FieldName
    requires { length prefix.now + length name.now ≤ 32 }
    ensures { result.bytes ≡ prefix.now ++ name.now }
{
    let mut full = FieldName::new();
    full.push_str(prefix);
    full.push_str(name);
    full
}

/// What stands before the fields of the table at `index` of an array of tables: the name of the
/// array and the index, as `group.0.`.
pub fn item_prefix(array: &str, index: usize) -> FieldName
    requires short { length array.now ≤ 28 }
    requires few { index < 100 }
    ensures bytes { result.bytes ≡ prefix_of_item array.now index }
    ensures length { length result.bytes ≤ length array.now + 4 }
{
    let mut buffer = Buffer::new();
    let digits = buffer.format(index);
    let mut prefix = field_name(array, ".");
    prefix.push_str(digits);
    prefix.push_str(".");
    prefix
}
