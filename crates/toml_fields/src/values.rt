//! What a single value may be.
ghost use Rattle.std.specs.Prelude.{◌≡◌, ◌≤◌, ◌&&◌, true, nat_le, length};
ghost use Rattle.toml.specs.View.{view, array_view};
ghost use Rattle.toml_fields.specs.Place.{whole_in, each_is_table, are_tables, tables_in};

use toml::Value;
use toml::value::Array;

/// The whole number that the value is. `None` comes exactly where it does not lie from `least` to `most`, or the
/// value is no whole number, as a float or a text.
pub fn whole_number(value: &Value, least: u64, most: u64) -> Option<u64>
    ensures { result ≡ whole_in least most (view value.now) }
{
    match value.as_integer() {
        Some(n) if n >= 0 => {
            let n = n as u64;
            if least <= n && n <= most {
                Some(n)
            } else {
                None
            }
        }
        _ => None,
    }
}

/// Whether each item is a table.
pub fn is_each_table(items: &Array) -> bool
    ensures { result ≡ each_is_table (array_view items.now) }
{
    for item in items {
        if !item.is_table() {
            return false;
        }
    }
    true
}

/// Whether there are `least` to `most` items, and each is a table.
pub fn are_tables(items: &Array, least: usize, most: usize) -> bool
    ensures value { result ≡ are_tables least most (array_view items.now) }
    ensures some { result ≡ true → least ≤ length (tables_in (array_view items.now)) }
    ensures few { result ≡ true → length (tables_in (array_view items.now)) ≤ most }
{
    is_between(items.as_slice().len(), least, most) && is_each_table(items)
}

fn is_between(count: usize, least: usize, most: usize) -> bool
    ensures { result ≡ (nat_le least count && nat_le count most) }
{
    least <= count && count <= most
}
