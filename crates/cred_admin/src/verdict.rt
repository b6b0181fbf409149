//! The answer to a try at an account, which may be marked.

ghost use Rattle.std.specs.Prelude.{◌≡◌, IfErr, IfOk};
ghost use Rattle.cred_admin.specs.Marked.{HeedsMarks, barred_by, due, is_outdated, keeps_password, shut};
ghost use Rattle.cred_admin.specs.Statuses.{verdict_line, verdict_status};

use crate::host::Host;
use crate::status::{Hint, Status, status_of};
use cred_book::{BookError, Reply, Request, Worked};
use cred_cli::reply_line;
use cred_file::Mark;
use cred_phc::Record;

/// The answer to a try at an account.
#[derive(Clone, Copy, Debug, PartialEq, Eq)]
pub enum Verdict {
    /// The reply to the operation. At a locked account this is the reply to a wrong password.
    Told(Reply),
    /// The password is right, and must be changed. Nothing was done.
    Expired,
    /// The password is right and must be changed, and the new one is the same. Nothing was done.
    Same,
}

impl Verdict {
    /// Whether the commit found a record that differs from the copy.
    pub fn is_outdated(&self) -> bool
        ensures { result ≡ is_outdated self.now }
    {
        matches!(self, Verdict::Told(Reply::Changed { .. }))
    }
}

/// Returns the verdict's word with the line end.
pub fn verdict_line(verdict: &Verdict) -> &'static [u8]
    ensures { result.now ≡ verdict_line verdict.now }
{
    match verdict {
        Verdict::Told(reply) => reply_line(reply),
        Verdict::Expired => b"expired\n",
        Verdict::Same => b"same\n",
    }
}

/// Returns the exit status for the verdict, with the hint for the password.
pub(crate) fn verdict_status(verdict: &Verdict, hint: Option<Hint>) -> Status
    ensures { result ≡ verdict_status verdict.now hint }
{
    match verdict {
        Verdict::Told(reply) => status_of(reply, hint),
        Verdict::Expired | Verdict::Same => Status::No(None),
    }
}

/// Does a whole operation at the copied record, as far as the present marks of its account allow. A
/// mark that came after the copy counts too.
///
/// Errors: `Memory`. The work comes back, and nothing changes.
#[tactic(auto, using(crate::proofs::Heeding::heeding))]
pub fn commit_try<K: Host>(keeper: &mut K, worked: Worked) -> Result<Verdict, (Worked, BookError)>
    ensures done { IfOk result
        (λ verdict. HeedsMarks (K.book keeper.old) (K.book keeper.new) worked verdict) }
    ensures memory { IfErr result (λ back. (back ≡ (worked, BookError.Memory))
        × (K.book keeper.new ≡ K.book keeper.old)) }
{
    let name = worked.request().name();
    let Ok(now) = keeper.accounts().show(&name) else {
        return Ok(Verdict::Told(Reply::NoAccount));
    };
    let (reply, _, _) = keeper.accounts().judge(&worked);
    if let Some(verdict) = barred(keeper.mark_of(&name), &worked.request(), &now, reply) {
        return Ok(verdict);
    }
    match keeper.commit(worked) {
        Ok(reply) => Ok(Verdict::Told(reply)),
        Err(back) => Err(back),
    }
}

/// Returns the answer that replaces this reply at an account with this mark and this record.
fn barred(mark: Mark, request: &Request, now: &Option<Record>, reply: Reply) -> Option<Verdict>
    ensures { result ≡ barred_by mark request.now now.now reply }
{
    if mark.locked {
        return Some(Verdict::Told(shut(request, now)));
    }
    if mark.must_change {
        return due(request, reply);
    }
    None
}

/// Returns the reply that a wrong password has at this record. Such an account gets no first record
/// either.
fn shut(request: &Request, stored: &Option<Record>) -> Reply
    ensures { result ≡ shut request.now stored.now }
{
    match (request, stored) {
        (Request::Enrol { .. }, _) => Reply::Exists,
        (Request::Verify { .. }, Some(_)) => Reply::No,
        (_, None) => Reply::Absent,
        (_, Some(_)) => Reply::Wrong,
    }
}

/// Returns the answer that replaces this reply if the password must be changed.
fn due(request: &Request, reply: Reply) -> Option<Verdict>
    ensures { result ≡ due request.now reply }
{
    match reply {
        Reply::Yes | Reply::Kept | Reply::Upgraded | Reply::Removed => Some(Verdict::Expired),
        Reply::Replaced if keeps_password(request) => Some(Verdict::Same),
        _ => None,
    }
}

/// Whether the request changes a password to the present one.
fn keeps_password(request: &Request) -> bool
    ensures { result ≡ keeps_password request.now }
{
    match request {
        Request::Change { pw, new_pw, .. } => pw.bytes() == new_pw.bytes(),
        _ => false,
    }
}
