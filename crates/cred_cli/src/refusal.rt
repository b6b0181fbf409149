//! The reasons why lines are refused.

ghost use Rattle.std.specs.Prelude.{◌≡◌};
ghost use Rattle.cred_cli.specs.{Refusals.error_number, Refusals.error_word, History.Refused, Texts.line_of};
ghost use Rattle.cred_cli.specs.declared.refusal.Refusal.TheVariants.{Book, Text};

use cred_book::BookError;
use cred_phc::PhcError;

/// The reason why a line changes nothing; its answer is `bad N WORD`.
#[derive(Clone, Copy, Debug, PartialEq, Eq)]
pub enum Refusal {
    /// The line has over 1024 bytes.
    Long,
    /// No line has this first word with this number of pieces.
    Line,
    /// The number isn't one of 1 to 64.
    Key,
    /// The password isn't `-` or base64 of 1 to 256 bytes.
    Password,
    /// The operation of this number is open already.
    Busy,
    /// No operation of this number is open.
    Idle,
    /// The setting or the record needs more memory or work than the bound.
    Costly,
    /// The text of a setting or a record has this fault.
    Text(PhcError),
    /// The book refuses the operation.
    Book(BookError),
}

impl Refusal {
    pub fn number(self) -> u8
        ensures { result ≡ error_number self }
    {
        match self {
            Refusal::Long => 16,
            Refusal::Line => 11,
            Refusal::Key => 12,
            Refusal::Password => 13,
            Refusal::Busy => 14,
            Refusal::Idle => 15,
            Refusal::Costly => 18,
            Refusal::Text(fault) => fault.number(),
            Refusal::Book(refusal) => refusal.number(),
        }
    }

    pub fn word(self) -> &'static str
        ensures { result.now ≡ error_word self }
    {
        match self {
            Refusal::Long => "long",
            Refusal::Line => "line",
            Refusal::Key => "key",
            Refusal::Password => "password",
            Refusal::Busy => "busy",
            Refusal::Idle => "idle",
            Refusal::Costly => "costly",
            Refusal::Text(fault) => fault.word(),
            Refusal::Book(refusal) => refusal.word(),
        }
    }

    /// Returns the answer with its line end: a constant, so that a refused line takes no memory.
    pub fn line(self) -> &'static [u8]
        ensures { result.now ≡ line_of (Refused self) }
    {
        match self {
            Refusal::Long => b"bad 16 long\n",
            Refusal::Line => b"bad 11 line\n",
            Refusal::Key => b"bad 12 key\n",
            Refusal::Password => b"bad 13 password\n",
            Refusal::Busy => b"bad 14 busy\n",
            Refusal::Idle => b"bad 15 idle\n",
            Refusal::Costly => b"bad 18 costly\n",
            Refusal::Text(fault) => text_line(fault),
            Refusal::Book(refusal) => book_line(refusal),
        }
    }
}

fn text_line(fault: PhcError) -> &'static [u8]
    ensures { result.now ≡ line_of (Refused (Text fault)) }
{
    match fault {
        PhcError::Shape => b"bad 1 shape\n",
        PhcError::Scheme => b"bad 2 scheme\n",
        PhcError::Version => b"bad 3 version\n",
        PhcError::Params => b"bad 4 params\n",
        PhcError::Range => b"bad 5 range\n",
        PhcError::Salt => b"bad 6 salt\n",
        PhcError::Tag => b"bad 7 tag\n",
        PhcError::Memory => b"bad 8 memory\n",
        PhcError::TooLong => b"bad 9 toolong\n",
    }
}

fn book_line(refusal: BookError) -> &'static [u8]
    ensures { result.now ≡ line_of (Refused (Book refusal)) }
{
    match refusal {
        BookError::Exists => b"bad 1 exists\n",
        BookError::Full => b"bad 2 full\n",
        BookError::Name => b"bad 3 name\n",
        BookError::Memory => b"bad 4 memory\n",
        BookError::NoAccount => b"bad 5 noaccount\n",
    }
}
