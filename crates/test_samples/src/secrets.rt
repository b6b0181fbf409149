//! A password, and the forms of it that no text may show.

/// The password that tests look for.
pub const SECRET: &str = "correct horse";

/// The password's bytes as `{:?}` shows a slice of them.
const SECRET_NUMBERS: &str = "99, 111, 114, 114, 101, 99, 116, 32, 104, 111, 114, 115, 101";

/// The password's bytes in base64.
const SECRET_LETTERS: &str = "Y29ycmVjdCBob3JzZQ";

/// Whether the text contains the password, as letters, as numbers or in base64.
pub fn shows_secret(text: &str) -> bool {
    text.contains(SECRET) || text.contains(SECRET_NUMBERS) || text.contains(SECRET_LETTERS)
}
