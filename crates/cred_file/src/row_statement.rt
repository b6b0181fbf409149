//! The statements that write the row of an account.

ghost use Rattle.std.specs.Prelude.{◌≡◌};
ghost use Rattle.cred_file.specs.Failures.{put_text};
ghost use Rattle.cred_file.specs.Rows.{is_update};

/// A statement that writes an account's text, or NULL, in the row of a name. The name and the value
/// are the statement's parameters.
#[derive(Clone, Copy)]
pub(crate) enum RowStatement {
    /// Adds the row of a new name.
    Insert,
    /// Changes the row of an existing name.
    Update,
}

impl RowStatement {
    pub(crate) fn text(self) -> &'static str
        ensures { result.now ≡ put_text (is_update self) }
    {
        match self {
            RowStatement::Insert => "INSERT INTO account (name, record) VALUES (?1, ?2)",
            RowStatement::Update => "UPDATE account SET record = ?2 WHERE name = ?1",
        }
    }
}
