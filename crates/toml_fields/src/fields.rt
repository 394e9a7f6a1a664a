//! The fields of one table.
ghost use Rattle.std.specs.Prelude.{◌≡◌, ◌+◌, ◌≤◌, ◌++◌, length, Option, Some, None, IfOk, IfSome, option_map};
ghost use Rattle.toml.specs.View.{view, array_view, table_view};
ghost use Rattle.toml_fields.specs.Reading.{named, seen};
ghost use Rattle.toml_fields.specs.Place.{place, find_field, number, optional_number, optional_flag, text};
ghost use Rattle.toml_fields.specs.Place.{optional_text, optional_table, array, optional_array, tables, tables_in};

use crate::naming::{FieldName, field_name};
use crate::values::{are_tables, whole_number};
use toml::value::Array;
use toml::{Table, Value};

/// A table of a file, whose fields are read by their names. Keys that are not asked for are passed over. A field that
/// is bad is named with `prefix` before it, in 32 bytes together at most.
#[derive(Clone, Copy)]
pub struct Fields<'a> {
    /// The table whose fields are read.
    pub table: &'a Table,
    /// What stands before the name of a bad field, as `group.0.`.
    pub prefix: &'a str,
}

impl<'a> Fields<'a> {
    /// The value of a field. `None` comes exactly where the field is missing.
    pub fn find(&self, name: &str) -> Option<&'a Value>
        ensures { option_map (λ v. view v.now) result ≡ find_field (place self.now) name.now }
    {
        self.table.get(name)
    }

    /// The name of a bad field: `name` behind the prefix, 32 bytes together at most.
    pub fn bad(&self, name: &str) -> FieldName
        requires { length self.now.prefix.now + length name.now ≤ 32 }
        ensures { result.bytes ≡ self.now.prefix.now ++ name.now }
    {
        field_name(self.prefix, name)
    }

    /// A whole number from `least` to `most`. The name of the field comes exactly where it is missing, or no such
    /// number.
    pub fn number(&self, name: &str, least: u64, most: u64) -> Result<u64, FieldName>
        requires { length self.now.prefix.now + length name.now ≤ 32 }
        ensures value { named result ≡ number (place self.now) name.now least most }
        ensures low { IfOk result (λ n. least ≤ n) }
        ensures high { IfOk result (λ n. n ≤ most) }
    {
        match self.find(name) {
            Some(value) => whole_number(value, least, most).ok_or(self.bad(name)),
            None => Err(self.bad(name)),
        }
    }

    /// A whole number from `least` to `most`, or None where the field is missing. The name of the field comes exactly
    /// where it is there and is no such number.
    pub fn optional_number(
        &self,
        name: &str,
        least: u64,
        most: u64,
    ) -> Result<Option<u64>, FieldName>
        requires { length self.now.prefix.now + length name.now ≤ 32 }
        ensures value { named result ≡ optional_number (place self.now) name.now least most }
        ensures low { IfOk result (λ o. IfSome o (λ n. least ≤ n)) }
        ensures high { IfOk result (λ o. IfSome o (λ n. n ≤ most)) }
    {
        match self.find(name) {
            None => Ok(None),
            Some(value) => match whole_number(value, least, most) {
                Some(n) => Ok(Some(n)),
                None => Err(self.bad(name)),
            },
        }
    }

    /// True or false, or None where the field is missing. The name of the field comes exactly where it is there and
    /// is neither.
    pub fn optional_flag(&self, name: &str) -> Result<Option<bool>, FieldName>
        requires { length self.now.prefix.now + length name.now ≤ 32 }
        ensures { named result ≡ optional_flag (place self.now) name.now }
    {
        match self.find(name) {
            None => Ok(None),
            Some(value) => match value.as_bool() {
                Some(flag) => Ok(Some(flag)),
                None => Err(self.bad(name)),
            },
        }
    }

    /// A text. The name of the field comes exactly where it is missing, or no text.
    pub fn text(&self, name: &str) -> Result<&'a str, FieldName>
        requires { length self.now.prefix.now + length name.now ≤ 32 }
        ensures { seen (λ t. t.now) result ≡ text (place self.now) name.now }
    {
        match self.find(name) {
            Some(value) => value.as_str().ok_or(self.bad(name)),
            None => Err(self.bad(name)),
        }
    }

    /// A text, or None where the field is missing. The name of the field comes exactly where it is there and is no
    /// text.
    pub fn optional_text(&self, name: &str) -> Result<Option<&'a str>, FieldName>
        requires { length self.now.prefix.now + length name.now ≤ 32 }
        ensures { seen (option_map (λ t. t.now)) result ≡ optional_text (place self.now) name.now }
    {
        match self.find(name) {
            None => Ok(None),
            Some(value) => match value.as_str() {
                Some(text) => Ok(Some(text)),
                None => Err(self.bad(name)),
            },
        }
    }

    /// A table, or None where the field is missing. The name of the field comes exactly where it is there and is no
    /// table.
    pub fn optional_table(&self, name: &str) -> Result<Option<&'a Table>, FieldName>
        requires { length self.now.prefix.now + length name.now ≤ 32 }
        ensures { seen (option_map (λ t. table_view t.now)) result ≡ optional_table (place self.now) name.now }
    {
        match self.find(name) {
            None => Ok(None),
            Some(value) => match value.as_table() {
                Some(table) => Ok(Some(table)),
                None => Err(self.bad(name)),
            },
        }
    }

    /// An array. The name of the field comes exactly where it is missing, or no array.
    pub fn array(&self, name: &str) -> Result<&'a Array, FieldName>
        requires { length self.now.prefix.now + length name.now ≤ 32 }
        ensures { seen (λ a. array_view a.now) result ≡ array (place self.now) name.now }
    {
        match self.find(name) {
            Some(value) => value.as_array().ok_or(self.bad(name)),
            None => Err(self.bad(name)),
        }
    }

    /// An array, or None where the field is missing. The name of the field comes exactly where it is there and is no
    /// array.
    pub fn optional_array(&self, name: &str) -> Result<Option<&'a Array>, FieldName>
        requires { length self.now.prefix.now + length name.now ≤ 32 }
        ensures { seen (option_map (λ a. array_view a.now)) result ≡ optional_array (place self.now) name.now }
    {
        match self.find(name) {
            None => Ok(None),
            Some(value) => match value.as_array() {
                Some(items) => Ok(Some(items)),
                None => Err(self.bad(name)),
            },
        }
    }

    /// An array of `least` to `most` items, each of which is a table. The name of the field comes exactly where it is
    /// missing, no array, too short or too long, or has an item that is no table.
    pub fn tables(&self, name: &str, least: usize, most: usize) -> Result<&'a Array, FieldName>
        requires { length self.now.prefix.now + length name.now ≤ 32 }
        ensures value { seen (λ a. tables_in (array_view a.now)) result ≡ tables (place self.now) name.now least most }
        ensures some { IfOk result (λ a. least ≤ length (tables_in (array_view a.now))) }
        ensures few { IfOk result (λ a. length (tables_in (array_view a.now)) ≤ most) }
    {
        let items = self.array(name)?;
        if are_tables(items, least, most) {
            Ok(items)
        } else {
            Err(self.bad(name))
        }
    }
}
