//! A law of imports, in the words of those who write the lines.

ghost use Rattle.std.specs.Prelude.{◌≡◌, ◌⊎◌, ℕ, List, None, Some, false, true};
ghost use Rattle.std.specs.FinMap as map;
ghost use Rattle.cred_book.specs.Accounts.{Accounts};
ghost use Rattle.cred_file.specs.Cells.{unmarked};
ghost use Rattle.cred_admin.specs.Import.{HasNone, IsFirst, import_lines, tally};
ghost use Rattle.cred_admin.specs.{declared.entry.LineAccount.LineAccount, declared.import.Existing.TheVariants.Updated, declared.import.Rules.Rules};

/// The law that a name gets the record and the mark of its first good line. A name that isn't in
/// the book is among the new accounts. A name in the book is among the changed accounts, if the
/// rules update existing accounts. No other name is new, changed or marked.
pub fn imports_are_of_their_lines()
    ensures added { (rules : Rules) (book : Accounts) (text : List ℕ) (e : LineAccount)
        → IsFirst rules text e → map.contains_key book e.name ≡ false
        → map.get (tally rules book text).accounts e.name ≡ Some e.stored }
    ensures changed { (rules : Rules) (book : Accounts) (text : List ℕ) (e : LineAccount)
        → IsFirst rules text e → map.contains_key book e.name ≡ true → rules.existing ≡ Updated
        → map.get (tally rules book text).changed e.name ≡ Some e.stored }
    ensures marks { (rules : Rules) (book : Accounts) (text : List ℕ) (e : LineAccount)
        → IsFirst rules text e
        → (map.contains_key book e.name ≡ false) ⊎ (rules.existing ≡ Updated)
        → (tally rules book text).marks e.name ≡ e.mark }
    ensures others { (rules : Rules) (book : Accounts) (text name : List ℕ)
        → HasNone rules name (import_lines text)
        → (map.get (tally rules book text).accounts name ≡ None)
        × (map.get (tally rules book text).changed name ≡ None)
        × ((tally rules book text).marks name ≡ unmarked) }
    ensures there { (rules : Rules) (book : Accounts) (text name : List ℕ)
        → map.contains_key book name ≡ true
        → map.get (tally rules book text).accounts name ≡ None }
    ensures absent { (rules : Rules) (book : Accounts) (text name : List ℕ)
        → map.contains_key book name ≡ false
        → map.get (tally rules book text).changed name ≡ None }
{}
