//! Blocks from bytes and back, low byte first (RFC 9106, section 2).
ghost use Rattle.std.specs.Prelude.{◌≡◌, ◌+◌, ◌≤◌, length};
ghost use Rattle.cred_blake.specs.Words.{word_at, words_of, bytes_of};

use crate::block::Block;

/// Returns the block of 1024 bytes.
pub(crate) fn block_of_bytes(bytes: &[u8; 1024]) -> Block
    ensures { result.0 ≡ words_of bytes.now 128 }
{
    let mut words = [0; 128];
    'words: for i in 0..128 {
        words[i] = word_at(bytes, 8 * i);
    }
    Block(words)
}

/// Returns the bytes of a block.
#[tactic(auto, unfolding(cred_blake::specs::Words::bytes_of))]
pub(crate) fn bytes_of_block(block: &Block) -> [u8; 1024]
    ensures { result ≡ bytes_of block.now.0 }
{
    let mut bytes = [0; 1024];
    'words: for i in 0..128 {
        bytes[8 * i..8 * i + 8].copy_from_slice(&block.0[i].to_le_bytes());
    }
    bytes
}

/// Returns the word at a byte of a block.
#[tactic(auto, unfolding(cred_blake::specs::Words::word_at))]
fn word_at(bytes: &[u8; 1024], at: usize) -> u64
    requires { at + 8 ≤ 1024 }
    ensures { result ≡ word_at bytes.now at }
{
    u64::from_le_bytes([
        bytes[at],
        bytes[at + 1],
        bytes[at + 2],
        bytes[at + 3],
        bytes[at + 4],
        bytes[at + 5],
        bytes[at + 6],
        bytes[at + 7],
    ])
}
