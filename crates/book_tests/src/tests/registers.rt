//! Tests of a register. `refused_register` holds whichever request for memory the allocator
//! refuses, if any: tools/refuse_memory.py refuses each.
use super::stored;
use cred_book::{Book, BookError, Name, Register};
use cred_phc::Record;
use std::alloc::Global;
use test_samples::A;

/// Returns the name `n` with the four digits of the number.
fn numbered(number: u32) -> Result<Name, BookError> {
    Name::new(&[
        b'n',
        digit(number / 1000),
        digit(number / 100),
        digit(number / 10),
        digit(number),
    ])
}

/// Returns the last digit of the number.
fn digit(number: u32) -> u8 {
    b'0' + (number % 10) as u8
}

/// Enters a name with a record, and once more if memory ran out, which must have changed nothing.
/// Returns whether the name then has the record.
fn enters(register: &mut Register, name: Name, record: Record) -> bool {
    let before = register.len();
    let mut entered = register.enter(name, Some(record));
    if entered == Err(BookError::Memory) && register.len() == before && !register.contains(&name) {
        entered = register.enter(name, Some(record));
    }
    entered == Ok(()) && register.show(&name) == Ok(Some(record))
}

/// Enters 64 names, and returns the first number whose name isn't entered.
fn fill(register: &mut Register, record: Record) -> Result<Option<u32>, BookError> {
    for i in 0..64 {
        // as 37 is odd, each number below 64 once
        let name = numbered(i * 37 % 64)?;
        if !enters(register, name, record) {
            return Ok(Some(i));
        }
    }
    Ok(None)
}

/// The results of a register with 64 names: the number that wasn't entered, whether a copy keeps a
/// name that the register later loses, and the number of names left.
type Shown = (Option<u32>, Result<bool, BookError>, usize);

fn judge(alloc: Global, record: Record) -> Result<Shown, BookError> {
    let mut register = Register::new(alloc);
    let missing = fill(&mut register, record)?;
    let copy = register.copy();
    let last = numbered(63)?;
    register.remove(&last);
    register.remove(&last);
    let kept = match copy {
        Ok(copy) => Ok(copy.show(&last) == Ok(Some(record)) && copy.len() == 64),
        Err(error) => Err(error),
    };
    Ok((missing, kept, register.len()))
}

#[test]
fn a_register_is_copied(rt: HostRuntime) {
    let one_lane = stored(&rt, A);
    assert_eq!(rt; judge(rt.alloc(), one_lane), Ok((None, Ok(true), 63)));
}

#[test]
fn refused_register(rt: HostRuntime) {
    let one_lane = stored(&rt, A);
    let (missing, kept, left) = judge(rt.alloc(), one_lane).expect(&rt, "a name");
    assert_eq!(rt; (missing, left), (None, 63));
    assert!(rt; kept == Ok(true) || kept == Err(BookError::Memory));
}

/// Returns the number of names of the book of `count` names, and whether the book shows the first
/// one's record.
fn book_of(alloc: Global, count: u32, record: Record) -> Result<(usize, bool), BookError> {
    let mut register = Register::new(alloc);
    for i in 0..count {
        register.enter(numbered(i)?, Some(record))?;
    }
    let book = Book::from_register(alloc, &register)?;
    Ok((book.len(), book.show(&numbered(0)?) == Ok(Some(record))))
}

#[test]
fn a_register_becomes_a_book(rt: HostRuntime) {
    let one_lane = stored(&rt, A);
    assert_eq!(rt; book_of(rt.alloc(), 4096, one_lane), Ok((4096, true)));
}
