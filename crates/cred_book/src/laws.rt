//! Laws about the definitions that contracts cite. A law is a function that does nothing; its
//! contract is what holds.

ghost use Rattle.std.specs.Prelude.{◌≡◌, ◌≢◌, ◌↔◌, Bool, IfSome, length, List, MatchOption, Option, true, false, ℕ};
ghost use Rattle.std.specs.FinMap as map;
ghost use Rattle.cred_phc.specs.{Tags.tag, Values.RecordValue};
ghost use Rattle.cred_book.specs.ByTags.{TagFunction, whole_by};
ghost use Rattle.cred_book.specs.{Accounts.Accounts, Changes.change_of, Changes.judged_book, Commits.commit_outcome, Commits.judgement};
ghost use Rattle.cred_book.specs.Passwords.{IsPasswordAt, IsPasswordOf, KeepsTags, made_setting, with_passwords};
ghost use Rattle.cred_book.specs.Updates.{HasDone, IsConditional, IsExact, IsLog, Rows, Update, answer, operation_of, operations_done, outcome_on, replies_done, seq_after, seq_replies, standing, store_after, update_of, updated};
ghost use Rattle.cred_book.specs.Works.{Task, makes_change, name_of, seq, whole};

use crate::request::{Reply, Request};

/// A commit that makes a change makes the change that its work announced, and any other commit
/// leaves the book unchanged. A commit answers and does what `judge` says.
pub fn change_is_committed()
    ensures change { (book : Accounts) (work : Task)
        → makes_change (commit_outcome book work).0 ≡ true
        → MatchOption (change_of work) ⊥
        (λ change. commit_outcome book work
        ≡ (change.reply, map.insert book change.name change.after)) }
    ensures no_change { (book : Accounts) (work : Task)
        → makes_change (commit_outcome book work).0 ≡ false → (commit_outcome book work).1 ≡ book }
    ensures judgement { (book : Accounts) (work : Task)
        → commit_outcome book work
        ≡ ((judgement book work).0, judged_book book work (judgement book work)) }
{}

/// A commit answers `Yes` exactly if the password's tag is the record's, and only while the account
/// has that record.
pub fn yes_is_the_password()
    ensures at_copy { (name pw : List ℕ) (stored : RecordValue)
        → ((whole (Request.Verify name pw) (Some stored)).0 ≡ Reply.Yes) ↔ IsPasswordOf stored pw }
    ensures at_commit { (book : Accounts) (name pw : List ℕ) (copy : Option RecordValue)
        → (commit_outcome book (Request.Verify name pw, copy)).0 ≡ Reply.Yes
        → IsPasswordAt book name pw }
    ensures at_judgement { (book : Accounts) (name pw : List ℕ) (copy : Option RecordValue)
        → (judgement book (Request.Verify name pw, copy)).0 ≡ Reply.Yes
        → IsPasswordAt book name pw }
{}

/// An answer tells of its own account alone, and its operation leaves every other account as it is.
/// Any two books that have the same record at that name give the same answer, whatever else they
/// have.
pub fn an_answer_tells_of_one_account()
    ensures tells { (one other : Accounts) (request : Request)
        → map.get one (name_of request) ≡ map.get other (name_of request)
        → (seq one request).0 ≡ (seq other request).0 }
    ensures keeps { (book : Accounts) (request : Request) (name : List ℕ)
        → name ≢ name_of request → map.get (seq book request).1 name ≡ map.get book name }
{}

/// A password counts by its tags alone. Another password may replace it if both have the same tags:
/// under the setting of the existing record, and under that of the record that the request may
/// make. The request then has the same answer and leaves the same record. So no answer and no
/// record tells more of a password than such a tag does.
#[tactic(auto, using(crate::proofs::Telling::as_whole))]
pub fn a_password_counts_by_its_tags()
    ensures { (other : List ℕ → List ℕ) (request : Request) (now : Option RecordValue)
        → IfSome now (λ stored. KeepsTags other stored.setting (length stored.tag))
        → IfSome (made_setting request) (λ setting. KeepsTags other setting 32)
        → whole (with_passwords other request) now ≡ whole request now }
{}

/// An operation sees only the tags of a password, whatever function computes them. With other
/// passwords that have the same tags, an operation does what it does with its own. If all passwords
/// have the same tags, all get the same answer and leave the same record.
pub fn passwords_are_seen_by_their_tags()
    ensures whole { (request : Request) (now : Option RecordValue)
        → whole_by tag request now ≡ whole request now }
    ensures by_tags { (tag_by : TagFunction) (other : List ℕ → List ℕ) (request : Request)
        (now : Option RecordValue) → whole_by tag_by (with_passwords other request) now
        ≡ whole_by (λ setting len pw. tag_by setting len (other pw)) request now }
{}

/// Speaks of a store of rows, such as a table in a database, whose clients do any operations. An
/// operation is a function from the row at its key, or from no row, to a reply and the row after.
/// The store does a client's update only if the row still equals the client's copy. The store
/// compares the row with the copy, and writes the row, in one step. A copy may also say that a key
/// has no row.
///
/// One thread that does the same whole operations in the same order gives the same replies as the
/// updates that the store does, and leaves the same rows. An update that leaves its copy as it is
/// needs only a second look at the row. Some stores do every update whose copy still equals the
/// row. Such a store refuses an update only after another update at its key since the copy. So
/// whenever a client must begin again, another client's update has succeeded.
pub fn updates_are_one_history<V, R>()
    ensures replies { (store : Rows V) (updates : List (Update V R)) → IsLog store updates
        → replies_done updates ≡ seq_replies store (operations_done updates) }
    ensures store { (store : Rows V) (updates : List (Update V R)) → IsLog store updates
        → store_after store updates ≡ seq_after store (operations_done updates) }
    ensures look { (store : Rows V) (update : Update V R) → IsConditional store update
        → update.after ≡ update.copy → updated store update ≡ store }
    ensures refused { (update : Update V R) (store : Rows V) (between : List (Update V R))
        → standing store update ≡ update.copy → IsExact (store_after store between) update
        → update.is_done ≡ false → HasDone update.operation.key between }
{}

/// The five requests are such operations, on rows that each have a record or none. A request that
/// makes no change leaves its copy. A store that does every update whose copy still equals the row
/// answers as [`Book`](crate::Book) commits.
pub fn requests_are_operations()
    ensures whole { (book : Accounts) (request : Request)
        → outcome_on book (operation_of request) ≡ seq book request }
    ensures look { (task : Task) (is_done : Bool)
        → makes_change (update_of task is_done).reply ≡ false
        → (update_of task is_done).after ≡ (update_of task is_done).copy }
    ensures commit { (book : Accounts) (task : Task) (is_done : Bool)
        → IsExact book (update_of task is_done) → commit_outcome book task
        ≡ (answer book (update_of task is_done), updated book (update_of task is_done)) }
{}
