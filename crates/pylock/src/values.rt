// TOML values, put together from their parts.

ghost use Rattle.std.specs.Prelude.{◌≡◌, Bool, IfOk, OnOk, option_to_list, true};
ghost use Rattle.std.specs.List.{list_all};
ghost use Rattle.std.specs.Option.{option_map};
ghost use Rattle.toml.specs.Data.{Data, string, table};
ghost use Rattle.toml.specs.View.{table_view, view};
ghost use Rattle.pylock.specs.Tables.{array_of, only_key, some_array};
ghost use Rattle.pylock.specs.Tied.Members.{with_member, with_optional};

use std::alloc::{AllocError, Global};
use toml::{Table, Value};

/// What a TOML value stands for.
pub(crate) trait Written {
    ghost form: { Self → Data };

    // Whether the value can be written.
    ghost fits: { Self → Bool };

    /// The TOML value of `self`.
    fn to_value(&self, alloc: Global) -> Result<Value, AllocError>
        requires { fits self.now ≡ true }
        ensures { IfOk result (λ v. view v ≡ form self.now) };
}

/// A text as a value.
pub(crate) fn text_value(alloc: Global, text: &str) -> Result<Value, AllocError>
    ensures { IfOk result (λ v. view v ≡ string text.now) }
{
    Ok(Value::String(String::from_str(alloc, text)?))
}

/// Puts a value at a key.
pub(crate) fn insert(
    alloc: Global,
    table: &mut Table,
    key: &str,
    value: Value,
) -> Result<(), AllocError>
    ensures { OnOk result (table_view table.new
        ≡ with_member key.now (view value) (table_view table.old)) }
{
    let key = String::from_str(alloc, key)?;
    drop(table.insert(key, value)?);
    Ok(())
}

/// Puts a value, where there is one, at a key.
pub(crate) fn insert_some(
    alloc: Global,
    table: &mut Table,
    key: &str,
    value: Option<Value>,
) -> Result<(), AllocError>
    ensures { OnOk result (table_view table.new
        ≡ with_optional key.now (option_map view value) (table_view table.old)) }
{
    match value {
        Some(value) => insert(alloc, table, key, value),
        None => Ok(()),
    }
}

/// The table of one key.
pub(crate) fn only_key(alloc: Global, key: &str, value: Value) -> Result<Value, AllocError>
    ensures { IfOk result (λ v. view v ≡ only_key key.now (view value)) }
{
    let mut table = Table::new(alloc);
    insert(alloc, &mut table, key, value)?;
    Ok(Value::Table(table))
}

/// A list as an array.
pub(crate) fn array_value<T: Written>(alloc: Global, items: &[T]) -> Result<Value, AllocError>
    requires { list_all T.fits items.now ≡ true }
    ensures { IfOk result (λ v. view v ≡ array_of T.form items.now) }
{
    let mut values = Vec::with_capacity(alloc, items.len())?;
    for place in 0..items.len() {
        values.push(items[place].to_value(alloc)?)?;
    }
    Ok(Value::Array(values))
}

/// A list as an array, unless it is empty.
pub(crate) fn some_array<T: Written>(
    alloc: Global,
    items: &[T],
) -> Result<Option<Value>, AllocError>
    requires { list_all T.fits items.now ≡ true }
    ensures { IfOk result (λ v. option_map view v ≡ some_array T.form items.now) }
{
    if items.is_empty() {
        return Ok(None);
    }
    Ok(Some(array_value(alloc, items)?))
}

/// What may be there as a value.
pub(crate) fn some_value<T: Written>(
    alloc: Global,
    item: &Option<T>,
) -> Result<Option<Value>, AllocError>
    requires { list_all T.fits (option_to_list item.now) ≡ true }
    ensures { IfOk result (λ v. option_map view v ≡ option_map T.form item.now) }
{
    match item {
        Some(item) => Ok(Some(item.to_value(alloc)?)),
        None => Ok(None),
    }
}
