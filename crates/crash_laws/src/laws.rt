//! Laws of a crash: functions that do nothing.

ghost use Rattle.std.specs.Prelude.{◌≡◌, ◌≤◌, List, None, Option};
ghost use Rattle.std.specs.FinMap as fin;
ghost use Rattle.cred_book.specs.Accounts.{register_capacity};
ghost use Rattle.cred_file.specs.{Cells.Cells, Kept.Kept, Kept.cells, Opening.IsForWant, declared.fault.Lost.Lost, declared.fault.OpenFault.OpenFault};
ghost use Rattle.cred_file.specs.Keeps.{HoldsBook, IsOrWith, Keeps, LeavesOnly, MayLeave, MayRefuse};
ghost use Rattle.crash_laws.specs.{Crashes.Asked, Crashes.Follow, Crashes.IsLeft, Crashes.IsRun, declared.fail_stop.FailStop.FailStop as Stopped};
ghost use Rattle.sqlite.specs.{Held.Held, Held.state, State.HasCleanDisk};
ghost use Rattle.sqlite_trees.specs.View.{IsQuiet};

use crate::fail_stop::FailStop;
use sqlite::Alter;
use sqlite_trees::store::Store;

/// If a book makes changes one after another, a crash leaves the database of the book as the
/// answers tell it. The database has each change that got the answer `Ok`. It may have one change
/// more, which got the answer `Memory`, and after which no change got `Ok`.
///
/// The premises are clauses of `cred_file`: `whole` of the call that opened the book, `remembers`,
/// `refusal` and `clean` of each change, and `keeps`.
pub fn a_crash_leaves_what_was_answered<S: Alter>()
    ensures { (first last : Kept S) (asked : List Asked) → first.lost ≡ None
        → Follow S.Store first asked last → Keeps S.Store last.conn (cells last) last.lost
        → HasCleanDisk (state S.Store last.conn)
        → LeavesOnly (state S.Store last.conn) (IsLeft (cells first) asked) }
{}

/// After a run over a store that held a book, the next run finds the book as the answers tell it,
/// and no table, name, record or size is a reason to refuse it.
///
/// The premises are the clause `run`, and `found` or `refused` of `cred_file::reopen`.
#[tactic(auto, using(crate::proofs::Left::found_after, crate::proofs::Left::refused_after))]
pub fn the_next_open_finds_what_was_answered<S: Alter>()
    ensures found { (first last : S) (asked : List Asked) (book again : Cells)
        → IsRun S.Store first last asked
        → HoldsBook (S.Store.view first).committed book
        → MayLeave S.Store last again → IsLeft book asked again }
    ensures refused { (first last : S) (asked : List Asked) (book : Cells) (why : OpenFault)
        → IsRun S.Store first last asked
        → HoldsBook (S.Store.view first).committed book → fin.len book ≤ register_capacity
        → MayRefuse S.Store last why → IsForWant why }
{}

/// The next run finds the book that a connection keeps, whatever call, script or service left the
/// connection so.
///
/// The premises are the clause `kept` of `FileBook::close`, `quiet` of `Connection::into_store`,
/// and `found` of `cred_file::reopen`.
#[tactic(auto, using(crate::proofs::Left::kept_after))]
pub fn the_next_open_finds_what_is_kept<S: Alter>()
    ensures { (conn : Held S) (book again : Cells) (lost : Option Lost) (left : S)
        → Keeps S.Store conn book lost
        → IsQuiet S.Store.view S.Store.faults S.Store.recovers S.Store.is_shielded conn.store left
        → MayLeave S.Store left again → IsOrWith book lost again }
{}

/// A crash leaves the same of a store that stopped as of the store within it, which the next run
/// opens.
pub fn a_stop_leaves_what_is_within<S: Alter>()
    ensures found { (stopped : Stopped S S.Store) (again : Cells)
        → MayLeave S.Store stopped.store again
        → MayLeave ⟦<FailStop<S> as Store>⟧ stopped again }
    ensures refused { (stopped : Stopped S S.Store) (why : OpenFault)
        → MayRefuse S.Store stopped.store why
        → MayRefuse ⟦<FailStop<S> as Store>⟧ stopped why }
{}
