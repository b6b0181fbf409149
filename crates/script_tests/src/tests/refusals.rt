//! Tests of lines that the script refuses, and of which of two causes it answers. tests/credbook
//! has each key, and forms of passwords and records.
use super::operations::judge_all;
use std::alloc::Global;
use std::process::Abort;

const REFUSALS: &str = "\
# operations and counts come before fields
begin 0 look a - => bad 11 line
begin 0 Verify a - => bad 11 line
begin 0 enrol a - => bad 11 line
begin 0 verify a - {SA} => bad 11 line
begin 0 change a - {SA} => bad 11 line
begin 0 enrol a - - {SA} => bad 11 line
begin 0 change a - - {SA} x => bad 11 line
Begin 1 verify a - => bad 11 line
begin 1 verify a => bad 11 line
begin 1  verify a - => bad 11 line
commit => bad 11 line
commit 1  => bad 11 line
commit 1 => bad 15 idle

# fields are judged in turn
begin 0 enrol A ! $ => bad 12 key
begin 1 enrol A ! $ => bad 3 name
begin 1 enrol a ! $ => bad 13 password
begin 1 enrol a - $ => bad 2 scheme
begin 1 enrol a - {A} => bad 1 shape
begin 1 change a ! - $ => bad 13 password
begin 1 change a - ! $ => bad 13 password
begin 1 change a - -  => bad 1 shape
begin 1 upgrade a - $argon2x => bad 2 scheme
begin 1 remove A ! => bad 3 name
commit 1 => bad 15 idle

# busy comes behind the fields and before the book
begin 1 verify zed - => bad 5 noaccount
commit 1 => bad 15 idle
begin 1 verify a - => begun
begin 1 verify A - => bad 3 name
begin 1 verify a ! => bad 13 password
begin 1 enrol a - $ => bad 2 scheme
begin 1 verify zed - => bad 14 busy
begin 2 verify a - => begun
commit 1 => absent
commit 2 => absent

# records are loaded and shown
load a {A} => ok
show a => {A}
load a {OLD} => ok
show a => {OLD_WRITTEN}
load a {OLD_WRITTEN} => ok
show a => {OLD_WRITTEN}
load a {SCRYPT} => ok
load a {SA} => bad 1 shape
load a $argon2x => bad 2 scheme
load a {A}! => bad 7 tag
show a => {SCRYPT}

# no setting is of version 0x10
begin 1 enrol a {PA} $argon2i$m=256,t=2,p=1$c29tZXNhbHQ => bad 3 version
begin 1 enrol a {PA} $argon2i$v=16$m=256,t=2,p=1$c29tZXNhbHQ => bad 3 version
begin 1 change a {PA} - $argon2i$v=16$m=256,t=2,p=1$c29tZXNhbHQ => bad 3 version
begin 1 upgrade a {PA} $argon2i$m=256,t=2,p=1$c29tZXNhbHQ => bad 3 version

# no record
show a => none
begin 1 verify a {PA} => begun
commit 1 => absent
begin 2 verify zed {PA} => bad 5 noaccount
account a => bad 1 exists
account A => bad 3 name
show zed => bad 5 noaccount

# spaces and cr
load zed {A} => bad 5 noaccount
load a  {A} => bad 11 line
load a {A}  => bad 11 line
show  => bad 3 name
account b\r => bad 3 name
load  => bad 11 line
load   => bad 3 name
load a  => bad 1 shape
load A {A}= => bad 3 name
account => bad 11 line
account a b => bad 11 line
show a a => bad 11 line
 show a => bad 11 line
Account b => bad 11 line
remove a => bad 11 line
show a => none
";

#[test]
fn refusals(rt: HostRuntime) {
    judge_all(&rt, rt.alloc(), REFUSALS);
}

/// Adds the lines with the word in place of `{}`.
fn add<R: Abort>(rt: &R, alloc: Global, text: &mut String, lines: &str, word: &str) {
    let lines = lines.replace(alloc, "{}", word).expect(rt, "memory");
    text.push_str(&lines).expect(rt, "memory");
}

#[test]
fn lines_have_1024_bytes(rt: HostRuntime) {
    let (alloc, mut text) = (rt.alloc(), String::new(rt.alloc()));
    let longer = "x".repeat(alloc, 5000).expect(&rt, "memory");
    let long = longer.get(..1024).expect(&rt, "fewer letters");
    add(&rt, alloc, &mut text, "# {}\n", "lines_have_1024_bytes");
    let lines = "{}x => bad 16 long\n{} => bad 11 line\n => bad 11 line\n";
    add(&rt, alloc, &mut text, lines, long);
    let lines = "{} => bad 16 long\nshow a => none\n";
    add(&rt, alloc, &mut text, lines, &longer);
    judge_all(&rt, alloc, &text);
}
