//! The values of the words and the options.

use crate::refusal::WordsRefusal;
use clap::ArgMatches;
use cred_admin::{Detail, Existing, LineForm, LockedRecords, Rules};
use cred_book::Name;
use cred_cli::CostBounds;
use cred_keep::{BadLines, CountsForm, Effect, Importing};
use cred_tries::{MOST_TRIES, TryLimit};

/// Returns the first value if the words have the flag, and otherwise the second.
pub(crate) fn either<V: Copy>(values: &ArgMatches<'_>, flag: &str, given: V, absent: V) -> V {
    if values.get_flag(flag) { given } else { absent }
}

/// Returns the value of a required word.
pub(crate) fn text_in<'a>(values: &ArgMatches<'a>, word: &str) -> &'a str {
    values.get_str(word).unwrap_or("")
}

pub(crate) fn name_in<'a>(values: &ArgMatches<'a>, word: &str) -> Result<Name, WordsRefusal<'a>> {
    let text = text_in(values, word);
    match Name::new(text.as_bytes()) {
        Ok(name) => Ok(name),
        Err(why) => Err(WordsRefusal::Name { text, why }),
    }
}

/// Returns the bounds on settings and records.
pub(crate) fn most_in<'a>(values: &ArgMatches<'a>) -> Result<CostBounds, WordsRefusal<'a>> {
    Ok(CostBounds {
        memory: size_in(values, "most-memory")?,
        work: size_in(values, "most-work")?,
    })
}

/// Returns the size that an option gives in KiB, if any.
pub(crate) fn size_in<'a>(
    values: &ArgMatches<'a>,
    option: &'static str,
) -> Result<Option<u64>, WordsRefusal<'a>> {
    let Some(text) = values.get_str(option) else {
        return Ok(None);
    };
    match kib_of(text) {
        Some(kib) => Ok(Some(kib)),
        None => Err(WordsRefusal::Size(option)),
    }
}

/// Returns the KiB of a size: a number of KiB, or one with K, M or G behind it.
fn kib_of(text: &str) -> Option<u64> {
    let (digits, unit) = match text.as_bytes().last() {
        Some(b'K') => (text.strip_suffix('K')?, 1),
        Some(b'M') => (text.strip_suffix('M')?, 1024),
        Some(b'G') => (text.strip_suffix('G')?, 1024 * 1024),
        _ => (text, 1),
    };
    digits
        .parse::<u32>()
        .ok()
        .map(|count| u64::from(count) * unit)
}

/// Returns the number that an option gives, if any.
pub(crate) fn number_in<'a>(
    values: &ArgMatches<'a>,
    option: &'static str,
    low: u16,
    high: u16,
) -> Result<Option<u16>, WordsRefusal<'a>> {
    let Some(text) = values.get_str(option) else {
        return Ok(None);
    };
    match text.parse::<u16>() {
        Ok(number) if (low..=high).contains(&number) => Ok(Some(number)),
        _ => Err(WordsRefusal::Number(option, low, high)),
    }
}

/// Returns the number of threads that an option gives, if any.
pub(crate) fn threads_in<'a>(
    values: &ArgMatches<'a>,
    option: &'static str,
    most: u8,
) -> Result<Option<u8>, WordsRefusal<'a>> {
    let number = number_in(values, option, 1, u16::from(most))?;
    Ok(number.map(|number| u8::try_from(number).unwrap_or(most)))
}

/// Returns the limit of failed tries, if the words have one.
pub(crate) fn tries_in<'a>(values: &ArgMatches<'a>) -> Result<Option<TryLimit>, WordsRefusal<'a>> {
    let most = u16::try_from(MOST_TRIES).unwrap_or(u16::MAX);
    match number_in(values, "tries", 1, most)? {
        Some(number) => Ok(TryLimit::new(u64::from(number))),
        None => Ok(None),
    }
}

/// Returns the form of counts.
pub(crate) fn counts_in(values: &ArgMatches<'_>) -> CountsForm {
    let plain = either(values, "quiet", CountsForm::Hidden, CountsForm::Plain);
    either(values, "json", CountsForm::Json, plain)
}

/// Returns the form of the list of accounts.
pub(crate) fn line_in(values: &ArgMatches<'_>) -> LineForm {
    let plain = either(
        values,
        "costs",
        LineForm::Passwd(Detail::Costs),
        LineForm::Name,
    );
    either(values, "json", LineForm::Json(Detail::Costs), plain)
}

/// Returns the options of an import.
pub(crate) fn importing_in<'a>(values: &ArgMatches<'a>) -> Result<Importing, WordsRefusal<'a>> {
    let existing = match (values.get_flag("skip-existing"), values.get_flag("update")) {
        (true, true) => return Err(WordsRefusal::Existing),
        (true, false) => Existing::Kept,
        (false, true) => Existing::Updated,
        (false, false) => Existing::Refused,
    };
    let locked = match (
        values.get_flag("disable-locked"),
        values.get_flag("keep-locked"),
    ) {
        (true, true) => return Err(WordsRefusal::Locked),
        (true, false) => LockedRecords::Disabled,
        (false, true) => LockedRecords::Kept,
        (false, false) => LockedRecords::Refused,
    };
    let most = most_in(values)?;
    Ok(Importing {
        rules: Rules {
            existing,
            locked,
            most,
        },
        bad: either(values, "skip-bad", BadLines::LeftOut, BadLines::Refused),
        effect: either(values, "dry-run", Effect::Foretold, Effect::Made),
        counts: counts_in(values),
    })
}
