//! Laws of the definitions of a history and of a line. They show that these definitions say what
//! they should.

ghost use Rattle.std.specs.List.{join_with_byte};
ghost use Rattle.std.specs.Prelude.{◌≡◌, ◌+◌, ◌≤◌, ◌++◌, ℕ, List, Some, length, take};
ghost use Rattle.cred_book.specs.Accounts.{Accounts};
ghost use Rattle.cred_cli.specs.{Calls.Call, EventLines.IsLineOf, Events.event_of, Prompt.IsPrompt, Prompt.IsPromptAt};
ghost use Rattle.cred_cli.specs.History.{book_at, deeds_before, is_among, names_at};
ghost use Rattle.cred_cli.specs.{Script.ScriptStart, Script.answers_before, Script.events_of, Script.line_ends, Script.script_start, declared.event.Event.Event};
ghost use Rattle.std.specs.FinMap as map;

/// The law that the names that a history counts are those of the book that it leaves, at every
/// place.
#[tactic(auto, using(crate::proofs::Names::same_names))]
pub fn names_are_the_books()
    ensures among { (capacity : ℕ) (book : Accounts) (events : List Event) (i : ℕ) (name : List ℕ)
        → map.contains_key (book_at capacity book events i) name
        ≡ is_among (names_at capacity book events i) name }
    ensures count { (capacity : ℕ) (book : Accounts) (events : List Event) (i : ℕ)
        → map.len (book_at capacity book events i) ≡ length (names_at capacity book events i) }
{}

/// The law that the operations before an earlier place are the front of those before a later
/// one.
#[tactic(auto, using(crate::proofs::Names::take_done))]
pub fn history_is_a_front()
    ensures { (capacity : ℕ) (book : Accounts) (events : List Event) (j i : ℕ) → j ≤ i
        → take j (deeds_before capacity book events i) ≡ deeds_before capacity book events j }
{}

/// The law that a line that asks for something is the word and the fields of its event, with one
/// space between. Each field is one that its value is read from.
#[tactic(auto, using(crate::proofs::EventLines::event_line))]
pub fn line_is_its_events()
    ensures { (line : List ℕ) → (words : List (List ℕ)) × (line ≡ join_with_byte 32 words)
        × IsLineOf (event_of line) words }
{}

/// The law that a prompt call on a reader found the earlier output, then the answers to the whole
/// lines of the bytes that had come, and the book after these lines, whatever these bytes are. It
/// also bounds the number of prompt calls by the number of bytes plus one.
pub fn prompt_calls_are_answered()
    ensures stands { (capacity : ℕ) (book accounts : Accounts) (front rest before now : List ℕ)
        (name : ℕ) (call : Call) → call.left ≡ Some rest → call.written ≡ Some now
        → call.accounts ≡ accounts
        → IsPromptAt capacity (script_start book (front ++ rest) (Some before)) name call
        → (now ≡ before
        ++ answers_before capacity book (events_of (front ++ rest)) (line_ends front))
        × (accounts ≡ book_at capacity book (events_of (front ++ rest)) (line_ends front)) }
    ensures few { (capacity : ℕ) (script : ScriptStart) (name : ℕ) (calls : List Call)
        → IsPrompt capacity script name calls → length calls ≤ length script.bytes + 1 }
{}
