//! A run over a store that may stop at any of its calls, and the next run.

ghost use Rattle.std.specs.Prelude.{◌≡◌, ◌≤◌, [], length, IfErr, IfOk};
ghost use Rattle.std.specs.FinMap as fin;
ghost use Rattle.std.specs.Vec.{vec_capacity, vec_len};
ghost use Rattle.cred_book.specs.Accounts.{register_capacity};
ghost use Rattle.cred_file.specs.{Cells.Cells, Keeps.HoldsBook, Opening.IsForWant};
ghost use Rattle.crash_laws.specs.Crashes.{AreMade, IsCall, IsRun, answers_in, asked_of};
ghost use Rattle.sqlite.specs.{Steps.IsFresh};
ghost use Rattle.sqlite_trees.specs.View.{IsClean};

use cred_book::BookError;
use cred_file::{Attempt, FileBook, OpenFault};
use sqlite::{Alter, Connection};
use std::alloc::Global;

/// The answers of a run, and the store as the run left it.
#[derive(Drop)]
pub struct Ended<M> {
    /// The answers to the changes, in their order, or the reason why no book was opened.
    pub told: Result<Vec<Result<(), BookError>>, OpenFault>,
    pub store: M,
}

/// The answers of a run, and the result of the next one.
#[derive(Drop)]
pub struct Restart<R> {
    pub told: Result<Vec<Result<(), BookError>>, OpenFault>,
    pub next: R,
}

/// Does two runs. The first opens the book that a store holds, asks the book for each of the
/// changes in their order, and ends. From some call on, the store may refuse each call. The next
/// run gets the store as the first left it, to crash its machine and open the book again.
///
/// The next run finds the book with each change that got the answer `Ok`. The book may have one
/// change more, which got the answer `Memory`, and after which no change got `Ok`.
pub fn crash_amid<M: Alter + Drop, R, N: FnOnce(M) -> R>(
    alloc: Global,
    store: M,
    changes: Vec<Attempt>,
    next_run: N,
) -> Restart<R>
    requires fresh { IsClean (M.Store.view store) → IsFresh (M.Store.view store) }
    requires next { N.IsAlwaysCallable next_run }
    ensures asked { IfOk result.told (λ answers.
        length answers.items ≡ length changes.items) }
    ensures next { (left : _) × N.post next_run left result.next
        × IsRun M.Store store left (asked_of (answers_in (λ v. v.items) result.told) changes.items) }
{
    let Ended { told, store } = run(alloc, store, changes);
    Restart {
        told,
        next: next_run(store),
    }
}

/// Does the first of these runs. The store comes back as the run left it.
pub fn run<M: Alter + Drop>(alloc: Global, store: M, changes: Vec<Attempt>) -> Ended<M>
    requires fresh { IsClean (M.Store.view store) → IsFresh (M.Store.view store) }
    ensures asked { IfOk result.told (λ answers.
        length answers.items ≡ length changes.items) }
    ensures refused { IfErr result.told (λ why. IsClean (M.Store.view result.store)
        → (book : Cells) → HoldsBook (M.Store.view store).committed book
        → fin.len book ≤ register_capacity → IsForWant why) }
    ensures run { IsRun M.Store store result.store
        (asked_of (answers_in (λ v. v.items) result.told) changes.items) }
{
    let Ok(answers) = Vec::with_capacity(alloc, changes.len()) else {
        return Ended {
            told: Err(OpenFault::Memory),
            store,
        };
    };
    let conn = match Connection::over(alloc, store) {
        Ok(conn) => conn,
        Err((error, store)) => {
            return Ended {
                told: Err(OpenFault::Database(error)),
                store,
            };
        }
    };
    match FileBook::open(alloc, conn) {
        Ok(mut book) => {
            let answers = make_all(&mut book, changes, answers);
            Ended {
                told: Ok(answers),
                store: book.close().into_store(),
            }
        }
        Err((why, conn)) => Ended {
            told: Err(why),
            store: conn.into_store(),
        },
    }
}

/// Asks for each change in turn, and returns the answers.
fn make_all<S: Alter>(
    book: &mut FileBook<S>,
    changes: Vec<Attempt>,
    mut answers: Vec<Result<(), BookError>>,
) -> Vec<Result<(), BookError>>
    requires none { answers.items ≡ [] }
    requires unused { vec_len answers ≡ 0 }
    requires room { vec_len changes ≤ vec_capacity answers }
    ensures asked { length result.items ≡ length changes.items }
    ensures made { AreMade S.Store book.old book.new (asked_of result.items changes.items) }
{
    for change in changes {
        answers.push_reserved(make(book, change));
    }
    answers
}

/// Applies the change, and returns its answer.
#[tactic(auto, using(crate::proofs::Made::called))]
fn make<S: Alter>(book: &mut FileBook<S>, change: Attempt) -> Result<(), BookError>
    ensures { IsCall S.Store book.old book.new (record { change = change; answer = result }) }
{
    match change {
        Attempt::Put { name, stored } => book.put(&name, stored),
        Attempt::Mark { name, mark } => book.mark(&name, mark),
        Attempt::TakeIn {
            added,
            changed,
            marks,
        } => book.take_in(added, changed, marks),
        Attempt::Delete(name) => book.delete(&name),
        Attempt::Rename { name, other } => book.rename(&name, &other),
    }
}
