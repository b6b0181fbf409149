//! Two sessions at a desk. Read this example before you write a login service. A login copies the
//! record of ada. Before the login settles, an upgrade replaces that record. So the login answers
//! `Changed` and does nothing. The login then begins again, and gets `Yes`.
#![tactic(auto)]

ghost use Rattle.std.specs.Prelude.{◌≡◌, false};
ghost use Rattle.cred_desk.specs.Naming.{IsNamed, StartsAt};

use anyhow::{Context, Result, bail};
use cred_book::{Book, Name, Reply, Request, Ticket};
use cred_desk::{Desk, Naming, Opened, Session};
use cred_phc::{Password, parse_record, parse_setting};
use cred_pool::NoGate;
use std::alloc::Global;
use std::marker::Brand;
use std::sync::Wait;
use std::thread::Threads;

/// The record of `password` by Argon2id at small costs.
const RECORD: &[u8] =
    b"$argon2id$v=19$m=256,t=2,p=1$c29tZXNhbHQ$nf65EOgLrQMR/uIPnA4rEsF5h7TKyQwu9U1bMCHGi/4";

/// The setting of an upgrade: a new record has a salt of its own.
const HIGHER_COSTS: &[u8] = b"$argon2id$v=19$m=512,t=2,p=1$YW5vdGhlcnNhbHQ";

fn main(rt: HostRuntime) -> Result<()> {
    let alloc = rt.alloc();
    let mut book = Book::new(alloc)?;
    let ada = Name::new(b"ada")?;
    book.admit(ada)?;
    book.load(&ada, parse_record(RECORD)?)?;
    // The call picks the name of the desk, which tells its sessions from those of other desks.
    let met = meet::<Brand, HostRuntime>(&rt, alloc, Opened::new(2), &book)?;
    for reply in &met.replies {
        println!(rt; "{}", word(reply))?;
    }
    println!(rt; "changes: {}", met.changes)?;
    Ok(())
}

/// The replies to the sessions in turn, and the number of changes in the journal.
#[derive(Drop)]
struct Met {
    replies: [Reply; 3],
    changes: usize,
}

/// Builds the desk, lets its sessions work, and closes it.
fn meet<J: Naming, R: Threads + Wait + Sync>(
    rt: &R,
    alloc: Global,
    opened: Opened,
    book: &Book,
) -> Result<Met>
    requires name { IsNamed J.Naming opened }
    requires opening { StartsAt J.Naming book.now 2 }
    requires loads { J.loads ≡ false }
{
    let (desk, mut sessions) = Desk::<J>::new(rt, alloc, opened, book, 2)?;
    let replies = overtake(rt, alloc, &desk, &mut sessions);
    match desk.close(rt, sessions) {
        Ok(closed) => Ok(Met {
            replies: replies?,
            changes: closed.journal.len(),
        }),
        Err((desk, _sessions, error)) => {
            desk.end(rt);
            Err(error.into())
        }
    }
}

/// Returns the upgrade's reply, and the login's replies before and after it begins again.
fn overtake<J: Naming, R: Threads + Wait + Sync>(
    rt: &R,
    alloc: Global,
    desk: &Desk<J>,
    sessions: &mut [Session<J>],
) -> Result<[Reply; 3]> {
    let [first, second] = sessions else {
        bail!("there are two sessions");
    };
    let name = Name::new(b"ada")?;
    let pw = Password::new(b"password").context("a password has at most 256 bytes")?;
    let login = Request::Verify { name, pw };
    let setting = parse_setting(HIGHER_COSTS)?;
    let upgrade = Request::Upgrade { name, pw, setting };

    let overtaken = begin(first, &login)?;
    let ticket = begin(second, &upgrade)?;
    let upgraded = settle(rt, alloc, desk, second, ticket)?;
    let changed = settle(rt, alloc, desk, first, overtaken)?;
    let again = begin(first, &login)?;
    let right = settle(rt, alloc, desk, first, again)?;
    Ok([upgraded, changed, right])
}

/// Copies the account's record into a ticket, and waits for nobody.
fn begin<J: Naming>(session: &mut Session<J>, request: &Request) -> Result<Ticket> {
    if !request.is_for_current() {
        bail!("a new record has Argon2's version 0x13");
    }
    session.begin(*request).map_err(|(_, error)| error.into())
}

/// Hashes the password with no lock held, and then does the operation if the record still equals
/// the copy.
fn settle<J: Naming, R: Threads + Wait + Sync>(
    rt: &R,
    alloc: Global,
    desk: &Desk<J>,
    session: &mut Session<J>,
    ticket: Ticket,
) -> Result<Reply> {
    let worked = ticket
        .work(rt, alloc, 1, &NoGate)
        .ok()
        .context("out of memory")?;
    match desk.settle(rt, session, worked) {
        Ok((reply, _told)) => Ok(reply),
        Err((_, error)) => Err(error.into()),
    }
}

fn word(reply: &Reply) -> &'static str {
    match reply {
        Reply::Yes => "yes",
        Reply::No => "no",
        Reply::Upgraded => "upgraded",
        Reply::Changed { .. } => "changed",
        _ => "something else",
    }
}
