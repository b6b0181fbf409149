//! Laws of tagged lines. A law is a function that does nothing: its contract states what holds.

ghost use Rattle.std.specs.Prelude.{◌≡◌, ◌≢◌, ◌∷◌, ◌≤◌, All, List, Some, ℕ, true};
ghost use Rattle.std.specs.FinMap as map;
ghost use Rattle.cred_file.specs.declared.marks.Mark.{Mark};
ghost use Rattle.cred_admin.specs.Marked.{MarkedBook, with_mark};
ghost use Rattle.cred_admin.specs.declared.account_operation.AccountOperation.TheVariants.{Lock};
ghost use Rattle.cred_many.specs.{LineOperations.Entry, Locks.EndsLock, Locks.IsApart, Locks.IsLocked, Locks.IsNo, Locks.IsTryAt, Locks.PutsRecord, Served.answers, Served.book_after, Served.record_at, declared.line_operation.LineOperation.TheVariants.Quick, declared.line_operation.QuickOperation.TheVariants.OnAccount};
ghost use Rattle.cred_many.specs.{Served.done, Telling.AreAlikeAt, Telling.AreAlikeFor, Telling.KeepsTagsFor, Telling.names_in, Telling.with_passwords, declared.line_operation.LineOperation.LineOperation, declared.open.Open.Open};
ghost use Rattle.cred_many.specs.{Answered.AreCalls, Answered.KeepsLimit, Answered.StandsBehind, Answered.State, Answered.answered_in, Service.Service};
ghost use Rattle.cred_many.specs.{Scribe.IsPending, Scribe.numbers, Turns.Call, Turns.Follow, Turns.OpenOthers, Turns.open_after, Turns.works_of};

/// An answer tells only of the accounts that its line names, and the line leaves every other
/// account as it is, with its mark. The answer about a new name also tells whether there is room. A
/// list tells only the names, and a list of marks also tells the marks.
pub fn an_answer_tells_of_its_accounts()
    ensures tells { (capacity : ℕ) (one other : MarkedBook) (operation : LineOperation)
        → AreAlikeFor capacity operation one other
        → (done capacity one operation).0 ≡ (done capacity other operation).0 }
    ensures keeps { (capacity : ℕ) (book : MarkedBook) (operation : LineOperation) (name : List ℕ)
        → All (λ named. name ≢ named) (names_in operation)
        → AreAlikeAt name (done capacity book operation).1 book }
{}

/// A password counts by its tags alone. If another password has the same tag under the setting of
/// the account's record, and under the setting of the record that the line may make, both get the
/// same answer and leave the same book. If the password must be changed, it also counts whether the
/// new one is the old one.
pub fn a_password_counts_by_its_tags()
    ensures { (other : List ℕ → List ℕ) (capacity : ℕ) (book : MarkedBook)
        (operation : LineOperation) → KeepsTagsFor other book operation
        → done capacity book (with_passwords other operation) ≡ done capacity book operation }
{}

/// A lock holds until a line unlocks, deletes or renames the account, whatever other lines come.
/// Until then no answer tells that a password is right, and no try changes anything. Each try gets
/// the answer to a wrong password, or the answer that the account has no record or already has one.
pub fn a_lock_holds()
    ensures locks { (capacity : ℕ) (book : MarkedBook) (name : List ℕ)
        → map.contains_key book.accounts name ≡ true
        → IsLocked (done capacity book (Quick (OnAccount (Lock name)))).1 name }
    ensures stays { (capacity : ℕ) (book : MarkedBook) (name : List ℕ) (lines : List Entry)
        → IsLocked book name → All (λ e. EndsLock name e.operation → ⊥) lines
        → IsLocked (book_after capacity book lines) name }
    ensures refuses { (capacity : ℕ) (book : MarkedBook) (name : List ℕ) (operation : LineOperation)
        → IsLocked book name → IsTryAt name operation
        → IsNo (done capacity book operation).0 × ((done capacity book operation).1 ≡ book) }
    ensures keeps { (capacity : ℕ) (book : MarkedBook) (name : List ℕ) (operation : LineOperation)
        → IsLocked book name → (EndsLock name operation → ⊥) → (PutsRecord name operation → ⊥)
        → record_at (done capacity book operation).1 name ≡ record_at book name }
{}

/// A mark concerns its account alone: lines that don't name the account and list no marks get the
/// same answers as without the mark, and leave the same book, but for the mark.
pub fn a_mark_concerns_its_account_alone()
    ensures answers { (capacity : ℕ) (book : MarkedBook) (name : List ℕ) (mark : Mark)
        (lines : List Entry) → All (λ e. IsApart name e.operation) lines
        → answers capacity (with_mark book name mark) lines ≡ answers capacity book lines }
    ensures book { (capacity : ℕ) (book : MarkedBook) (name : List ℕ) (mark : Mark)
        (lines : List Entry) → All (λ e. IsApart name e.operation) lines
        → book_after capacity (with_mark book name mark) lines
        ≡ with_mark (book_after capacity book lines) name mark }
{}

/// Answers keep their moments: after each later call, the scribe still has each answer at the
/// moment at which it gave that answer. By these moments its answers keep the limit of failed
/// tries.
pub fn answers_keep_their_moments()
    ensures keeps { (capacity : ℕ) (s : Service) (states : ℕ → State) → AreCalls capacity s states
        → (list : List Entry) (times : List ℕ) → answered_in capacity s (states 0) list times
        → (calls : ℕ) → StandsBehind capacity s list times (states calls) }
    ensures limit { (capacity : ℕ) (s : Service) (m : State) (list : List Entry) (times : List ℕ)
        → answered_in capacity s m list times → KeepsLimit capacity s m list times }
{}

/// A line is hashed at most nine times. After the scribe opened a line and nine calls took the
/// results of its hashes, the scribe has answered the line, unless it reports a fault.
pub fn a_line_is_answered_after_nine_hashes()
    ensures { (old : List Open) (came : Call) (calls : List Call) (number : ℕ)
        → (IsPending number (numbers old) → ⊥) → came.opens ≡ Some number
        → Follow old (came ∷ calls) → OpenOthers number calls → 9 ≤ works_of number calls
        → IsPending number (numbers (open_after came.after calls)) → ⊥ }
{}
