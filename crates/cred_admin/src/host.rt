//! The keeper of a book whose changes wait for nobody.

use crate::account_operation::AccountOperation;
use crate::account_reply::AccountReply;
use cred_book::{BookError, Name, Register, Reply, Worked};
use cred_file::{FileBook, Mark};
use cred_phc::Record;
use sqlite::Alter;

/// A keeper whose book stands in a register in memory, and whose changes wait for nobody.
///
/// Its calls return, since none has a handle by which the call could wait. A call answers `Memory`
/// if memory runs out and no other error is due. The book then stays as it was.
pub trait Host {
    ghost use Rattle.std.specs.Prelude.{◌≡◌, ℕ, Bool, None, Some};
    ghost use Rattle.cred_book.specs.{Accounts.book_capacity, Calls.AdmitsWithin, Calls.Loads, Commits.Commits};
    ghost use Rattle.cred_admin.specs.{AccountOperations.OperatesWithin, Marked.Becomes, Marked.MarkedBook, Marked.with_account, Marked.with_commit, Marked.with_put, Marked.with_record, Marked.with_replaced};
    ghost use Rattle.cred_file.specs.Changes.{PutsEntry, TakesIn};
    ghost use Rattle.std.specs.FinMap as map;

    /// The accounts with their marks.
    ghost book: { Self → MarkedBook };

    ghost capacity: { ℕ } = { book_capacity };

    /// Whether the keeper has failed for good. It then makes no more changes, and the change that
    /// was under way may or may not be kept.
    ghost failed: { Self → Bool };

    /// Returns the accounts.
    fn accounts(&self) -> &Register
        ensures { result.now ≡ (book self.now).accounts };

    /// Returns the mark of an account.
    fn mark_of(&self, name: &Name) -> Mark
        ensures { result ≡ (book self.now).marks name.now };

    /// Adds a name without a record or a mark.
    ///
    /// Errors: `Exists` if the book has the name; `Full`; `Memory`.
    fn admit(&mut self, name: Name) -> Result<(), BookError>
        ensures done { AdmitsWithin capacity (book self.old).accounts (book self.new).accounts name
            result }
        ensures whole { Becomes result (book self.old) (book self.new)
            (with_account (book self.old) name None) };

    /// Stores this record at the account, in place of any other. Its password need not be changed
    /// any more, and a lock stays.
    ///
    /// Errors: `NoAccount` if the book doesn't have the name; `Memory`.
    fn load(&mut self, name: &Name, stored: Record) -> Result<(), BookError>
        ensures done { Loads (book self.old).accounts (book self.new).accounts name.now stored
            result }
        ensures whole { Becomes result (book self.old) (book self.new)
            (with_record (book self.old) name.now (Some stored)) };

    /// Puts a record, or none, at a name, and adds the name if it doesn't exist, in one change. A
    /// new account has no mark. The password of an existing account need not be changed any more,
    /// and its lock stays.
    ///
    /// Errors: `Full` if the name doesn't exist and there is no room for it; `Memory`.
    fn put(&mut self, name: &Name, stored: Option<Record>) -> Result<(), BookError>
        ensures done { PutsEntry capacity (book self.old).accounts (book self.new).accounts name.now
            stored result }
        ensures whole { Becomes result (book self.old) (book self.new)
            (with_put (book self.old) name.now stored) };

    /// Does the whole operation if the record still equals the copy, and otherwise nothing. This
    /// call ignores marks: `commit_try` heeds them.
    ///
    /// Errors: `Memory`. The work comes back.
    fn commit(&mut self, worked: Worked) -> Result<Reply, (Worked, BookError)>
        ensures done { Commits (book self.old).accounts (book self.new).accounts worked result }
        ensures whole { Becomes result (book self.old) (book self.new)
            (with_commit (book self.old) worked) };

    /// Changes an account without its password.
    ///
    /// Errors: `Full` if an account would be renamed, and there is no room for one more name;
    /// `Memory`. The book stays.
    fn operate(&mut self, operation: &AccountOperation) -> Result<AccountReply, BookError>
        ensures { OperatesWithin capacity (book self.old) (book self.new) operation.now result };

    /// Gives each of these accounts its record in this register, or none, in place of any other.
    /// The changes are made together, so that a crash leaves the book with all of them or with
    /// none. The passwords of these accounts need not be changed any more, and locks stay.
    ///
    /// Errors: `NoAccount` if one of the names has no account; `Memory`. The book stays.
    fn replace_all(&mut self, changed: Register) -> Result<(), BookError>
        ensures done { TakesIn capacity (book self.old).accounts (book self.new).accounts map.empty
            changed result }
        ensures whole { Becomes result (book self.old) (book self.new)
            (with_replaced (book self.old) changed) };

    /// Whether the keeper has failed for good. An error without such a failure means want of
    /// memory.
    fn has_failed(&self) -> bool
        ensures { result ≡ failed self.now };
}

impl<S: Alter> Host for FileBook<S> {
    ghost use Rattle.std.specs.Prelude.{is_some};
    ghost use Rattle.cred_book.specs.Accounts.{register_capacity};
    ghost use Rattle.cred_admin.specs.Marked.{kept_book};

    ghost book = { λ b. kept_book b };

    ghost capacity = { register_capacity };

    ghost failed = { λ b. is_some b.lost };

    fn accounts(&self) -> &Register {
        self.book()
    }

    fn mark_of(&self, name: &Name) -> Mark {
        self.marks().at(name)
    }

    #[tactic(auto, using(crate::proofs::Becoming::admitted))]
    fn admit(&mut self, name: Name) -> Result<(), BookError> {
        FileBook::admit(self, name)
    }

    #[tactic(auto, using(crate::proofs::Becoming::loaded))]
    fn load(&mut self, name: &Name, stored: Record) -> Result<(), BookError> {
        FileBook::load(self, name, stored)
    }

    #[tactic(auto, using(crate::proofs::Becoming::put_anew))]
    fn put(&mut self, name: &Name, stored: Option<Record>) -> Result<(), BookError> {
        FileBook::put(self, name, stored)
    }

    #[tactic(auto, using(crate::proofs::Becoming::committed_whole))]
    fn commit(&mut self, worked: Worked) -> Result<Reply, (Worked, BookError)> {
        FileBook::commit(self, worked)
    }

    fn operate(&mut self, operation: &AccountOperation) -> Result<AccountReply, BookError> {
        operation.work_in(self)
    }

    #[tactic(auto, using(crate::proofs::Becoming::replaced))]
    fn replace_all(&mut self, changed: Register) -> Result<(), BookError> {
        FileBook::replace_all(self, changed)
    }

    fn has_failed(&self) -> bool {
        self.lost().is_some()
    }
}
