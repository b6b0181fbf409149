//! Checks whether a database has the one table of a book, alone or beside the statistics of
//! ANALYZE.

ghost use Rattle.std.specs.Prelude.{◌≡◌, ◌≢◌, [], ◌∷◌, IfOk, MatchBool};
ghost use Rattle.cred_file.specs.Schema.{AreBookTables, HasAccountKey, HasNoKey, HasNoRules, IsBookSchema, IsPlainText, IsUntyped, account, key_index, name_column, record_column, statistics, statistics_column};

use sqlite_schema::code::Terms;
use sqlite_schema::schema::{Column, Index, Kind, Schema, Table};
use sqlite_value::keys::Collation;
use sqlite_value::value::Value;
use std::alloc::{AllocError, Global};

/// Whether the schema is that of a book.
pub(crate) fn is_of_book(alloc: Global, schema: &Schema) -> Result<bool, AllocError>
    ensures { IfOk result (λ b. MatchBool b (IsBookSchema schema.now)
        (IsBookSchema schema.now → ⊥)) }
{
    let has_tables = are_book_tables(alloc, schema.tables.as_slice())?;
    let has_index = match schema.indexes.as_slice() {
        [index] => is_key_index(index),
        _ => false,
    };
    Ok(has_tables && has_index && schema.views.is_empty())
}

fn are_book_tables(alloc: Global, tables: &[Table]) -> Result<bool, AllocError>
    ensures { IfOk result (λ b. MatchBool b (AreBookTables tables.now)
        (AreBookTables tables.now → ⊥)) }
{
    match tables {
        [table] => is_account(alloc, table),
        [table, beside] => Ok(is_account(alloc, table)? && is_statistics(alloc, beside)?),
        _ => Ok(false),
    }
}

fn is_statistics(alloc: Global, table: &Table) -> Result<bool, AllocError>
    ensures { IfOk result (λ b. MatchBool b (table.now ≡ statistics) (table.now ≢ statistics)) }
{
    let has_no_rules = has_no_rules(alloc, table)?;
    let has_no_key = has_no_key(table);
    let has_columns = has_statistics_columns(table.columns.as_slice());
    let is_third = table.name.as_slice() == "sqlite_stat1".as_bytes() && table.tree == 2;
    Ok(has_no_rules && has_no_key && has_columns && is_third)
}

fn has_statistics_columns(columns: &[Column]) -> bool
    ensures { MatchBool result (columns.now ≡ statistics.columns)
        (columns.now ≢ statistics.columns) }
{
    match columns {
        [table, index, numbers] => {
            is_statistics_column(table, "tbl")
                && is_statistics_column(index, "idx")
                && is_statistics_column(numbers, "stat")
        }
        _ => false,
    }
}

fn is_statistics_column(column: &Column, name: &str) -> bool
    ensures { MatchBool result (column.now ≡ statistics_column name.now)
        (column.now ≢ statistics_column name.now) }
{
    is_untyped(column) && column.name.as_slice() == name.as_bytes()
}

fn is_untyped(column: &Column) -> bool
    ensures { MatchBool result (IsUntyped column.now) (IsUntyped column.now → ⊥) }
{
    matches!(column.kind, Kind::Any)
        && !column.is_strict
        && !column.not_null
        && matches!(column.default, Value::Null)
        && matches!(column.collation, Collation::Binary)
}

fn has_no_key(table: &Table) -> bool
    ensures { MatchBool result (HasNoKey table.now) (HasNoKey table.now → ⊥) }
{
    table.key.is_none()
        && table.primary.is_empty()
        && table.uniques.is_empty()
        && table.orders.is_empty()
}

fn is_account(alloc: Global, table: &Table) -> Result<bool, AllocError>
    ensures { IfOk result (λ b. MatchBool b (table.now ≡ account) (table.now ≢ account)) }
{
    let has_no_rules = has_no_rules(alloc, table)?;
    let has_key = has_account_key(table);
    let has_columns = has_account_columns(table.columns.as_slice());
    let is_first = table.name.as_slice() == "account".as_bytes() && table.tree == 0;
    Ok(has_no_rules && has_key && has_columns && is_first)
}

fn has_account_columns(columns: &[Column]) -> bool
    ensures { MatchBool result (columns.now ≡ name_column ∷ record_column ∷ [])
        (columns.now ≢ name_column ∷ record_column ∷ []) }
{
    match columns {
        [name, stored] => is_name_column(name) && is_record_column(stored),
        _ => false,
    }
}

fn is_name_column(column: &Column) -> bool
    ensures { MatchBool result (column.now ≡ name_column) (column.now ≢ name_column) }
{
    is_plain_text(column) && column.not_null && column.name.as_slice() == "name".as_bytes()
}

fn is_record_column(column: &Column) -> bool
    ensures { MatchBool result (column.now ≡ record_column) (column.now ≢ record_column) }
{
    is_plain_text(column) && !column.not_null && column.name.as_slice() == "record".as_bytes()
}

fn is_plain_text(column: &Column) -> bool
    ensures { MatchBool result (IsPlainText column.now) (IsPlainText column.now → ⊥) }
{
    matches!(column.kind, Kind::Text)
        && column.is_strict
        && matches!(column.default, Value::Null)
        && matches!(column.collation, Collation::Binary)
}

/// Whether the names are the key, in the order of their bytes.
fn has_account_key(table: &Table) -> bool
    ensures { MatchBool result (HasAccountKey table.now) (HasAccountKey table.now → ⊥) }
{
    let has_order = matches!(table.orders.as_slice(), [order] if order.digits == 0);
    let has_unique = match table.uniques.as_slice() {
        [places] => is_name_alone(places.as_slice()),
        _ => false,
    };
    table.key.is_none() && is_name_alone(table.primary.as_slice()) && has_unique && has_order
}

/// Whether the name's place is the only one of these.
fn is_name_alone(places: &[usize]) -> bool
    ensures { MatchBool result (places.now ≡ 1 ∷ []) (places.now ≢ 1 ∷ []) }
{
    match places {
        [place] => *place == 1,
        _ => false,
    }
}

/// Whether the table has no check, no foreign key, no computed default and no counter.
fn has_no_rules(alloc: Global, table: &Table) -> Result<bool, AllocError>
    ensures { IfOk result (λ b. MatchBool b (HasNoRules table.now) (HasNoRules table.now → ⊥)) }
{
    let has_no_check = are_none(alloc, &table.checks)?;
    let has_no_time = are_none(alloc, &table.stamps.terms)?
        && table.stamps.places.is_empty()
        && table.stamps.formats.is_empty();
    let has_no_link = table.references.is_empty() && table.computed.is_empty();
    Ok(has_no_check && has_no_time && has_no_link && !table.is_counted)
}

fn are_none(alloc: Global, terms: &Terms) -> Result<bool, AllocError>
    ensures { IfOk result (λ b. MatchBool b (terms.now ≡ []) (terms.now ≢ [])) }
{
    let lent = terms.lend(alloc)?;
    Ok(lent.roots.is_empty())
}

fn is_key_index(index: &Index) -> bool
    ensures { MatchBool result (index.now ≡ key_index) (index.now ≢ key_index) }
{
    let is_of_table = index.tree == 1 && index.table == 0 && index.is_unique;
    let is_of_name = is_name_alone(index.columns.as_slice()) && index.order.digits == 0;
    is_of_table && is_of_name && index.name.as_slice() == "sqlite_autoindex_account_1".as_bytes()
}
