//! The command line of `credbook`.

ghost use Rattle.std.specs.Prelude.{◌≡◌, IfOk, false, map, option_map};
ghost use Rattle.clap.specs.Words.{FailsBy, app_of, fault_of, first_of, found_of, rows_of, rule_of, subcommand_of, subcommand_rows_of, with_rule, with_subcommand};
ghost use Rattle.clap.specs.declared.builder.command.Command.TheViews.{out-Command};
ghost use Rattle.cred_cli.specs.Arguments.{credbook, needed_rule, one_app, password_rule, run_app, base_app, workers_rule};

use clap::{Arg, ArgMatches, Command, Error};
use std::alloc::{AllocError, Global};

const ABOUT: &str = "Answers scripts on a book of password records, and hashes or checks passwords";

const RUN_ABOUT: &str = "Answers a script from standard input, on an empty book";

/// The help texts of a subcommand.
struct HelpTexts {
    about: &'static str,
    usage: &'static str,
}

static HASH: HelpTexts = HelpTexts {
    about: "Prints the record of a password under a setting",
    usage: "credbook hash [OPTIONS] <SETTING> [PASSWORD]",
};

static CHECK: HelpTexts = HelpTexts {
    about: "Prints yes if a password is the record's, or no with status 4",
    usage: "credbook check [OPTIONS] <RECORD> [PASSWORD]",
};

const SETTING_HELP: &str =
    "A scheme, its costs and a salt, as\n$argon2id$v=19$m=256,t=2,p=1$c29tZXNhbHQ";

const RECORD_HELP: &str = "A setting with a tag behind it, as `hash` prints it";

const AFTER_HELP: &str = "\
Examples:
  printf 'account a\\nshow a\\n' | credbook run
  salt=$(head -c 16 /dev/urandom | base64 -w0 | tr -d =)
  credbook hash '$argon2id$v=19$m=65536,t=3,p=4$'\"$salt\" c2VjcmV0
  credbook check \"$record\" c2VjcmV0
A password is written in base64: printf %s secret | base64 -w0 | tr -d =
A salt has to be fresh for each record: equal salts show which accounts have
equal passwords.

Exit statuses:
  0  done, even if lines of a script were refused, or `check` printed yes
  1  a word, a setting, a record or a password was refused, or help was asked
     for
  2  reading or writing failed, or the script has over 1048576 bytes
  3  out of memory
  4  `check` printed no

Commonest causes of a refusal:
  line      a blank line, a comment, a capital letter, or two spaces in a row
  shape     something stands before the first '$', as in 'argon2$argon2id$..'
  version   a setting is not of v=19
  tag       a carriage return or a NUL trails the record
  password  base64 with '=', or plain text
docs/ERRORS.md has them all, by word.";

/// Returns the values of the words, or `clap`'s error if the words don't parse.
pub(crate) fn matches_of<'a>(alloc: Global, words: &'a [&'a str]) -> Result<ArgMatches<'a>, Error>
    ensures matches { IfOk result (λ m. subcommand_rows_of m
        ≡ subcommand_of credbook (map (λ s. s.now) words.entry.now)) }
    ensures kinds { FailsBy (fault_of credbook (map (λ s. s.now) words.entry.now)) result }
{
    credbook(alloc)?.try_get_matches_from(words)
}

/// Returns the text of this argument.
pub(crate) fn value<'a>(matches: &ArgMatches<'a>, id: &str) -> Option<&'a str>
    ensures { option_map (λ s. s.now) result ≡ first_of id.now (rows_of (found_of matches.now)) }
{
    matches.get_str(id)
}

/// Returns the number of workers, whose range `clap` has checked.
pub(crate) fn workers_of(matches: &ArgMatches<'_>) -> u8 {
    matches.get_one("workers").unwrap_or(1)
}

fn credbook<'a>(alloc: Global) -> Result<Command<'a>, AllocError>
    ensures app { IfOk result (λ c. app_of c ≡ credbook) }
    ensures local { IfOk result (λ c. (out-Command c).has_globals ≡ false) }
{
    let command = base_app(alloc)?;
    let what = needed(alloc, "setting", "SETTING", SETTING_HELP);
    let command = with_one(alloc, command, "hash", &HASH, what)?;
    with_one(
        alloc,
        command,
        "check",
        &CHECK,
        needed(alloc, "record", "RECORD", RECORD_HELP),
    )
}

/// Adds a subcommand on one setting or record to the command. This function builds the subcommand,
/// so that no second command lives while the caller may end early.
fn with_one<'a>(
    alloc: Global,
    command: Command<'a>,
    word: &'a str,
    texts: &'a HelpTexts,
    what: Arg<'a>,
) -> Result<Command<'a>, AllocError>
    requires local { ((out-Command command).has_globals ≡ false) × (what.global ≡ false) }
    ensures app { IfOk result (λ c. app_of c ≡ with_subcommand (app_of command.entry)
        (one_app word.entry.now (rule_of what.entry)).top) }
    ensures local { IfOk result (λ c. (out-Command c).has_globals ≡ false) }
{
    command.subcommand(of_one(alloc, word, texts, what)?)
}

fn base_app<'a>(alloc: Global) -> Result<Command<'a>, AllocError>
    ensures app { IfOk result (λ c. app_of c ≡ base_app) }
    ensures local { IfOk result (λ c. (out-Command c).has_globals ≡ false) }
{
    let run = run(alloc)?;
    Command::new(alloc, "credbook")
        .version("0.2.0")
        .about(ABOUT)
        .after_help(AFTER_HELP)
        .no_binary_name(true)
        .subcommand_required(true)
        .subcommand(run)
}

fn run<'a>(alloc: Global) -> Result<Command<'a>, AllocError>
    ensures app { IfOk result (λ c. app_of c ≡ run_app) }
    ensures local { IfOk result (λ c. (out-Command c).has_globals ≡ false) }
{
    Command::new(alloc, "run")
        .about(RUN_ABOUT)
        .override_usage("credbook run [OPTIONS]")
        .arg(workers(alloc))
}

/// Builds a subcommand on one setting or record, and a password.
fn of_one<'a>(
    alloc: Global,
    word: &'a str,
    texts: &'a HelpTexts,
    what: Arg<'a>,
) -> Result<Command<'a>, AllocError>
    requires local { what.global ≡ false }
    ensures app { IfOk result (λ c. app_of c ≡ one_app word.entry.now (rule_of what.entry)) }
    ensures local { IfOk result (λ c. (out-Command c).has_globals ≡ false) }
{
    let command = with_arg(
        Command::new(alloc, word)
            .about(texts.about)
            .override_usage(texts.usage),
        what,
    )?;
    let command = with_arg(command, password(alloc))?;
    with_arg(command, workers(alloc))
}

/// Adds an argument to the command.
fn with_arg<'a>(command: Command<'a>, arg: Arg<'a>) -> Result<Command<'a>, AllocError>
    requires local { ((out-Command command).has_globals ≡ false) × (arg.global ≡ false) }
    ensures app { IfOk result (λ c. app_of c
        ≡ with_rule (app_of command.entry) (rule_of arg.entry)) }
    ensures local { IfOk result (λ c. (out-Command c).has_globals ≡ false) }
{
    command.arg(arg)
}

fn needed<'a>(alloc: Global, name: &'a str, shown: &'a str, help: &'a str) -> Arg<'a>
    ensures rule { rule_of result ≡ needed_rule name.entry.now }
    ensures local { result.global ≡ false }
{
    Arg::new(alloc, name)
        .value_name(shown)
        .help(help)
        .required(true)
}

fn password<'a>(alloc: Global) -> Arg<'a>
    ensures rule { rule_of result ≡ password_rule }
    ensures local { result.global ≡ false }
{
    Arg::new(alloc, "password").value_name("PASSWORD").help(
        "The password in base64 without '='; without it the empty one",
    )
}

fn workers<'a>(alloc: Global) -> Arg<'a>
    ensures rule { rule_of result ≡ workers_rule }
    ensures local { result.global ≡ false }
{
    Arg::new(alloc, "workers")
        .long("workers")
        .value_name("N")
        .help("The maximum number of threads, from 1 to 64")
        .value_parser(clap::value_parser!(u8).range(1..=64))
        .default_value("1")
}
