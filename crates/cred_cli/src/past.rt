//! The calls on a reader or a writer, as proofs see them. A past takes no memory, and does nothing
//! at run time.

ghost use Rattle.std.specs.{Prelude.◌≡◌, Prelude.ℕ, Prelude.List, Prelude.[], Borrow.ftrue, Coded.coded_list};
ghost use Rattle.cred_cli.specs.Calls.{Call, call_code};

use std::marker::Model;

/// The bytes that a reader gave and a writer took, in their order; the logged calls, the last one
/// first; and a name for the holder of the past. No clause says which name that is, so a proof can
/// show of nobody but the holder that it has this name.
#[derive(Drop)]
pub struct Past {
    pub ghost given: { List ℕ },
    pub ghost taken: { List ℕ },
    pub ghost calls: { List Call } by { coded_list call_code },
    pub ghost name: { ℕ },
}

impl Model for Past {
    ghost also_owns = { λ _. ftrue };
}

/// An addition to a past.
pub(crate) trait Note {
    ghost use Rattle.cred_cli.specs.{Pasts.GoesOn, declared.past.Past.Past};

    /// The past with the addition.
    ghost noted: { Self → Past → Past };

    /// The past loses nothing.
    ghost goes_on: { (n : Self) (past : Past) → GoesOn past (noted n past) };
}

impl Past {
    /// Builds the past of no call, under some name.
    pub(crate) fn new() -> Past
        ensures { (result.given ≡ []) × (result.taken ≡ []) × (result.calls ≡ []) }
    {
        Past {}
    }

    /// Returns the past with this note.
    pub(crate) fn and<N: Note>(&self, note: &N) -> Past
        ensures { result ≡ N.noted note.now self.now }
    {
        Past {}
    }
}
