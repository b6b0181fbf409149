//! Bytes as little-endian words, and back.
ghost use Rattle.std.specs.Prelude.{◌≡◌, ◌/◌, ◌++◌, length, IfOk, OnOk};
ghost use Rattle.cred_scrypt.specs.Scrypt.{bytes_of, words_of};

use std::alloc::{AllocError, Global};

/// The length of a word in bytes.
const WORD: usize = 4;

/// Returns `bytes` as words.
pub(crate) fn words_of(alloc: Global, bytes: &[u8]) -> Result<Vec<u32>, AllocError>
    ensures { IfOk result (λ words. words.items ≡ words_of bytes.now (length bytes.now / 4)) }
{
    let count = bytes.len() / WORD;
    let mut words = Vec::with_capacity(alloc, count)?;
    'words: for i in 0..count {
        let mut word = [0; WORD];
        word.copy_from_slice(&bytes[WORD * i..WORD * i + WORD]);
        words.push(u32::from_le_bytes(word))?;
    }
    Ok(words)
}

/// Appends the bytes of `words`.
pub(crate) fn put_words(bytes: &mut Vec<u8>, words: &[u32]) -> Result<(), AllocError>
    ensures { OnOk result (bytes.new.items ≡ bytes.old.items ++ bytes_of words.now) }
{
    'words: for word in words {
        bytes.extend_from_slice(&word.to_le_bytes())?;
    }
    Ok(())
}
