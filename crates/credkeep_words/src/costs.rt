//! The number in a setting's text that is outside its range.

use std::io;
use std::io::Write;

/// The maximum memory of Argon2, in KiB.
const MAX_MEMORY: u64 = 2097152;

const MAX_PASSES: u64 = 4294967295;

/// The maximum number of lanes of Argon2, and the maximum r and p of scrypt.
const MAX_LANES: u64 = 255;

/// The maximum number of blocks in scrypt's table, r times 2^ln.
const MAX_ROWS: u64 = 16777216;

/// Writes the number that is outside its range, with the range.
pub(crate) fn write_range<W: Write>(out: &mut W, text: &str) -> io::Result<()> {
    let is_scrypt = text.starts_with("$scrypt$");
    let ranges = if is_scrypt {
        [("r=", MAX_LANES), ("p=", MAX_LANES)]
    } else {
        [("p=", MAX_LANES), ("t=", MAX_PASSES)]
    };
    for (label, most) in ranges {
        let number = number_at(text, label);
        if !(1..=most).contains(&number) {
            return write!(out, "{label}{number} is not from 1 to {most}");
        }
    }
    if is_scrypt {
        write_table(out, number_at(text, "ln="), number_at(text, "r="))
    } else {
        write_memory(out, number_at(text, "m="), number_at(text, "p="))
    }
}

fn write_memory<W: Write>(out: &mut W, memory: u64, lanes: u64) -> io::Result<()> {
    let least = lanes.saturating_mul(8);
    if memory < least {
        write!(out, "m={memory} is under 8 p ({least} KiB)")
    } else {
        write!(out, "m={memory} is over {MAX_MEMORY} (KiB)")
    }
}

fn write_table<W: Write>(out: &mut W, cost: u64, size: u64) -> io::Result<()> {
    let above = size.saturating_mul(16);
    if cost == 0 {
        write!(out, "ln=0 is under 1")
    } else if cost >= above {
        write!(out, "ln={cost} is not under 16 r ({above})")
    } else {
        write!(out, "ln={cost}: r times 2^ln is over {MAX_ROWS}")
    }
}

/// Returns the number after a label among the costs, or 0 without the label.
fn number_at(text: &str, label: &str) -> u64 {
    for field in text.split('$') {
        for cost in field.split(',') {
            if let Some(digits) = cost.strip_prefix(label) {
                return digits.parse::<u64>().unwrap_or(u64::MAX);
            }
        }
    }
    0
}
