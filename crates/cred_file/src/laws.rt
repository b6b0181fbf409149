//! Laws of a book that is opened from files, and of a book in which a name was changed. A law is a
//! function that does nothing.

ghost use Rattle.std.specs.Prelude.{◌≡◌, ◌++◌, false, List, Ok, Some, true, ℕ};
ghost use Rattle.cred_phc.specs.{Reading.read_record, Text.IsRecordText, Text.record_text, Values.IsRecord, Values.RecordValue};
ghost use Rattle.cred_file.specs.declared.marks.Mark.{Mark};
ghost use Rattle.cred_file.specs.Cells.{cell, mark_in, mark_text, read_cell, unmarked};
ghost use Rattle.cred_file.specs.declared.fault.Attempt.{Attempt};
ghost use Rattle.std.specs.FinMap as fin;
ghost use Rattle.cred_book.specs.Accounts.{Accounts};
ghost use Rattle.cred_file.specs.{Cells.Cells, Changes.IsOfRecords, Changes.after_attempt, Changes.renamed, Keeps.HoldsBook, Opening.IsFound};
ghost use Rattle.sqlite.specs.{Files.HoldsDatabase, Held.Held, Held.state, Start.FindsIn, State.IsLive, State.Opens, Tree.Trees};

use sqlite::Alter;

/// If files hold a database and `Connection::open_from` opens these files, the book that
/// `FileBook::open` then finds is that of the database. The first three premises are the clauses
/// `opened` and `found` of `Connection::open_from`, and the fourth is the clause `found` of
/// `FileBook::open`.
pub fn files_hold_the_book<S: Alter>()
    ensures { (image : _) (old new : Held S) (book : Cells)
        → Opens (state S.Store old) → IsLive (state S.Store old)
        → FindsIn image (state S.Store old)
        → IsFound (state S.Store old) (state S.Store new) book
        → (db : Trees) → HoldsDatabase image db → HoldsBook db book }
{}

/// A renamed account no longer exists under its old name: a ticket that was begun there gets the
/// answer `NoAccount`.
#[tactic(auto, using(crate::proofs::Removing::gone))]
pub fn a_renamed_name_is_gone()
    ensures { (book : Accounts) (name other : List ℕ) → fin.contains_key book name ≡ true
        → fin.contains_key book other ≡ false
        → fin.contains_key (renamed book name other) name ≡ false }
{}

/// A lock stays whatever records the account gets: only a change of its marks, its deletion or its
/// renaming ends the lock at the name.
#[tactic(auto, using(crate::proofs::LocksStay::lock_stays))]
pub fn a_lock_stays()
    ensures { (cells : Cells) (change : Attempt) (name : List ℕ) → IsOfRecords cells change
        → (mark_in cells name).locked ≡ true
        → (mark_in (after_attempt cells change) name).locked ≡ true }
{}

/// The text of marks and a record is read as these marks and this record.
#[tactic(auto, using(crate::proofs::CellLaws::read_marked))]
pub fn marks_are_read_back()
    ensures { (m : Mark) (v : RecordValue) → IsRecord v
        → read_cell (mark_text m ++ record_text v) ≡ Ok (cell (Some v) m) }
{}

/// A row that an older program wrote has no mark: its text is read as the record that the program
/// wrote.
#[tactic(auto, using(crate::proofs::CellLaws::old_read))]
pub fn old_rows_are_unmarked()
    ensures { (text : List ℕ) (v : RecordValue) → IsRecordText text v → read_record text ≡ Ok v
        → read_cell text ≡ Ok (cell (Some v) unmarked) }
{}
