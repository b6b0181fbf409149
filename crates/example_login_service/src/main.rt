//! A small login service to copy. The service reads a line for each visit, and answers each with a
//! line:
//!
//! ```text
//! signup NAME PASSWORD
//! login NAME PASSWORD
//! change NAME PASSWORD NEW
//! ```
//!
//! A change is in the database before the service answers. The argument is the file of the
//! database. Without one the book is in memory, and is opened once more at the end, as after a
//! crash.
#![tactic(auto)]

ghost use Rattle.std.specs.Prelude.{◌≡◌, IfOk, false};
ghost use Rattle.cred_book.specs.Passwords.{IsPasswordAt};
ghost use Rattle.cred_file.specs.Cells.{is_marked, mark_at};

use anyhow::{Context, Result};
use cred_admin::{Verdict, commit_try};
use cred_book::{BookError, Name, Reply, Request, yes_is_the_password};
use cred_file::{FileBook, OpenFault, crash_and_open};
use cred_phc::{
    Password, PhcError, Record, Scheme, Scratch, Setting, TagError, Variant, Version, draw_salt,
    tag_in,
};
use cred_pool::NoGate;
use rand::make_rng;
use rand::rngs::StdRng;
use sqlite::{Alter, Connection, Wary};
use std::alloc::Global;
use std::random::RandomSource;
use std::{env, io};
use thiserror::Error;

/// The costs of new records: Argon2id with 256 KiB, so that the example is quick. A service uses 64
/// MiB, three passes and four lanes (RFC 9106, section 4), or more.
const SCHEME: Scheme = Scheme::Argon2 {
    version: Version::V13,
    variant: Variant::Id,
    m: 256,
    t: 2,
    p: 1,
};

/// The number of KiB that are kept from hash to hash.
const KEPT: u32 = 65_536;

/// The end of a visit.
#[derive(Clone, Copy, Debug, PartialEq, Eq)]
enum Answer {
    SignedUp,
    Taken,
    LetIn,
    /// The password is right, but must be changed before the account lets anybody in.
    MustChange,
    TurnedAway,
    PasswordChanged,
}

/// The reason why a visit gets no answer, or the service doesn't start.
#[derive(Clone, Copy, Debug, Error)]
enum ServiceError {
    #[error("{0}")]
    Book(#[from] BookError),
    #[error("{0}")]
    Setting(#[from] PhcError),
    #[error("the password isn't hashed: {0}")]
    Tag(#[from] TagError),
    #[error("the system gives no random bytes: {0}")]
    Random(#[from] io::Error),
    #[error("a password has at most 256 bytes")]
    LongPassword,
    #[error("not a visit")]
    NoVisit,
    #[error("a new record isn't made under an old version")]
    OldVersion,
    #[error("the database is in a transaction")]
    Transaction,
    #[error("the database holds no book: {0:?}")]
    Open(OpenFault),
    #[error("the database failed, and takes no more changes: {0}")]
    Database(sqlite::Error),
}

/// The accounts, kept in a database, and the values for hashing their passwords.
#[derive(Drop)]
struct Service<S: Alter> {
    alloc: Global,
    book: FileBook<S>,
    salts: StdRng,
    /// Memory that is kept from hash to hash.
    scratch: Scratch,
    /// The record that is hashed for a name without one.
    decoy: Record,
}

impl<S: Alter + Drop> Service<S> {
    /// Returns the service over the book that the database holds, or over a new book in an empty
    /// database.
    fn open<R: RandomSource>(
        rt: &R,
        alloc: Global,
        conn: Connection<S>,
    ) -> Result<Service<S>, ServiceError> {
        let mut salts: StdRng = make_rng(rt)?;
        let decoy = Record::new(new_setting(&mut salts)?, &[0; 32])?;
        Ok(Service {
            alloc,
            book: open_book(alloc, conn)?,
            salts,
            scratch: Scratch::new(alloc, KEPT),
            decoy,
        })
    }

    /// Stores the first record of a name. A name without a record is free: a sign-up may have been
    /// cut short.
    fn sign_up(&mut self, name: Name, pw: Password) -> Result<Answer, ServiceError> {
        match self.book.admit(name) {
            Ok(()) | Err(BookError::Exists) => {}
            Err(error) => return Err(self.cause_of(error)),
        }
        let setting = new_setting(&mut self.salts)?;
        match self.operate(Request::Enrol { name, pw, setting })? {
            Verdict::Told(Reply::Enrolled) => Ok(Answer::SignedUp),
            _ => Ok(Answer::Taken),
        }
    }

    /// Whether the password is one of the name's record, and no mark keeps it out. A name without a
    /// record costs a hash too, so that the time doesn't tell which names there are. No proof
    /// covers the time.
    fn log_in(&mut self, name: Name, pw: Password) -> Result<Answer, ServiceError>
        ensures password { IfOk result (λ answer. answer ≡ Answer.LetIn
            → IsPasswordAt self.old.book.book name pw) }
        ensures mark { IfOk result (λ answer. answer ≡ Answer.LetIn
            → is_marked (mark_at self.old.book.marks name) ≡ false) }
    {
        let mark = self.book.marks().at(&name);
        match self.verify(name, pw)? {
            Reply::Yes if mark.locked => Ok(Answer::TurnedAway),
            Reply::Yes if mark.must_change => Ok(Answer::MustChange),
            Reply::Yes => Ok(Answer::LetIn),
            Reply::Absent | Reply::NoAccount => self.turn_away(&pw),
            _ => Ok(Answer::TurnedAway),
        }
    }

    fn verify(&mut self, name: Name, pw: Password) -> Result<Reply, ServiceError>
        ensures { IfOk result (λ reply. reply ≡ Reply.Yes
            → IsPasswordAt self.old.book.book name pw) }
    {
        yes_is_the_password();
        let ticket = match self.book.book().begin(Request::Verify { name, pw }) {
            Ok(ticket) => ticket,
            Err(_) => return Ok(Reply::NoAccount),
        };
        let Ok(worked) = ticket.work_in(&mut self.scratch, self.alloc, &NoGate) else {
            return Err(TagError::Memory.into());
        };
        let (reply, _, _) = self.book.book().judge(&worked);
        Ok(reply)
    }

    fn turn_away(&mut self, pw: &Password) -> Result<Answer, ServiceError>
        ensures { IfOk result (λ answer. answer ≡ Answer.TurnedAway) }
    {
        let setting = self.decoy.setting();
        let scratch = &mut self.scratch;
        let _tag = tag_in(scratch, self.alloc, &NoGate, &setting, 32, pw.bytes())?;
        Ok(Answer::TurnedAway)
    }

    /// Replaces the record of a user who knows its password.
    fn change_password(
        &mut self,
        name: Name,
        pw: Password,
        new_pw: Password,
    ) -> Result<Answer, ServiceError> {
        let setting = new_setting(&mut self.salts)?;
        let request = Request::Change {
            name,
            pw,
            new_pw,
            setting,
        };
        match self.operate(request)? {
            Verdict::Told(Reply::Replaced) => Ok(Answer::PasswordChanged),
            _ => Ok(Answer::TurnedAway),
        }
    }

    /// Copies the record, hashes, and does the whole operation at the present record, as far as the
    /// marks of the account allow it.
    fn operate(&mut self, request: Request) -> Result<Verdict, ServiceError> {
        if !request.is_for_current() {
            return Err(ServiceError::OldVersion);
        }
        let ticket = match self.book.book().begin(request) {
            Ok(ticket) => ticket,
            Err((_, error)) => return Err(error.into()),
        };
        let Ok(worked) = ticket.work_in(&mut self.scratch, self.alloc, &NoGate) else {
            return Err(TagError::Memory.into());
        };
        match commit_try(&mut self.book, worked) {
            Ok(verdict) => Ok(verdict),
            Err((_, error)) => Err(self.cause_of(error)),
        }
    }

    /// Returns the reason why the book made no change. If the database failed, the book has the
    /// cause.
    fn cause_of(&self, error: BookError) -> ServiceError {
        match self.book.lost() {
            Some(lost) => ServiceError::Database(lost.error),
            None => ServiceError::Book(error),
        }
    }

    /// Answers a line.
    fn visit(&mut self, line: &str) -> Result<Answer, ServiceError> {
        let mut words = line.split(' ');
        let (verb, name) = (words.next(), words.next());
        let (pw, new_pw) = (words.next(), words.next());
        match (verb, name, pw, new_pw) {
            (Some("signup"), Some(name), Some(pw), None) => {
                self.sign_up(Name::new(name.as_bytes())?, password(pw)?)
            }
            (Some("login"), Some(name), Some(pw), None) => {
                self.log_in(Name::new(name.as_bytes())?, password(pw)?)
            }
            (Some("change"), Some(name), Some(pw), Some(new_pw)) => {
                self.change_password(
                    Name::new(name.as_bytes())?,
                    password(pw)?,
                    password(new_pw)?,
                )
            }
            _ => Err(ServiceError::NoVisit),
        }
    }
}

/// Opens the book that the database holds, or creates one if there is none.
fn open_book<S: Alter + Drop>(
    alloc: Global,
    conn: Connection<S>,
) -> Result<FileBook<S>, ServiceError> {
    if !conn.is_autocommit() {
        return Err(ServiceError::Transaction);
    }
    match FileBook::open(alloc, conn) {
        Ok(book) => Ok(book),
        Err((OpenFault::NoBook, conn)) => create_book(alloc, conn),
        Err((fault, _)) => Err(ServiceError::Open(fault)),
    }
}

/// Creates a book, and refuses a database that holds something else.
fn create_book<S: Alter + Drop>(
    alloc: Global,
    conn: Connection<S>,
) -> Result<FileBook<S>, ServiceError> {
    if !conn.is_autocommit() {
        return Err(ServiceError::Transaction);
    }
    match FileBook::create(alloc, conn) {
        Ok(book) => Ok(book),
        Err((fault, _)) => Err(ServiceError::Open(fault)),
    }
}

/// Returns the scheme of new records with a salt that was just drawn.
fn new_setting(salts: &mut StdRng) -> Result<Setting, ServiceError> {
    Ok(Setting::new(SCHEME, &draw_salt(salts))?)
}

fn password(typed: &str) -> Result<Password, ServiceError> {
    match Password::new(typed.as_bytes()) {
        Some(pw) => Ok(pw),
        None => Err(ServiceError::LongPassword),
    }
}

fn main(rt: HostRuntime) -> Result<()> {
    let alloc = rt.alloc();
    match env::args(&rt)?.nth(1) {
        Some(path) => {
            let conn = match Connection::open_from(&rt, path.as_str(), false, Wary) {
                Ok(conn) => conn,
                Err((error, _)) => return Err(error).context("opening the file"),
            };
            let book = serve(&rt, alloc, conn)?;
            book.close().close().context("closing the file")
        }
        None => {
            let book = serve(&rt, alloc, Connection::open_in_memory(alloc)?)?;
            let opened = crash_and_open(alloc, book).context("stopping the machine")?;
            match opened {
                Ok(book) => println!(rt; "After a crash: {} accounts.", book.book().len())?,
                Err((fault, _)) => return Err(ServiceError::Open(fault).into()),
            }
            Ok(())
        }
    }
}

/// Answers each line of the input.
fn serve<R: RandomSource + Input + Print, S: Alter + Drop>(
    rt: &R,
    alloc: Global,
    conn: Connection<S>,
) -> Result<FileBook<S>> {
    let mut service = Service::open(rt, alloc, conn)?;
    println!(rt; "{} accounts.", service.book.book().len())?;
    for line in rt.lines(alloc) {
        match service.visit(line?.as_str()) {
            Ok(answer) => println!(rt; "{answer:?}")?,
            Err(error) => println!(rt; "Refused: {error}.")?,
        }
    }
    let Service { book, .. } = service;
    Ok(book)
}
