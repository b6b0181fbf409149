//! Address blocks. If the words that name references come from the place alone, they are the words
//! of address blocks. Each is computed from the segment's position and a running number (RFC 9106,
//! section 3.4.1.2).
ghost use Rattle.std.specs.Prelude.{◌≡◌, ◌+◌, ◌*◌, ◌/◌, IsTrue, ◌↔◌};
ghost use Rattle.cred_argon.specs.{Parameters.segment_len, Cells.address_input, Cells.address_block};

use crate::block::{Block, compress};
use crate::params::Params;
use crate::position::Position;

/// The words that name the references of 128 columns of a segment, and the number of these 128
/// columns, counted from 1.
#[derive(Clone, Copy)]
pub(crate) struct AddressBlock {
    pub(crate) number: u32,
    pub(crate) block: Block,
}

impl AddressBlock {
    /// Computes the address block with a position's word.
    #[tactic(auto, unfolding(crate::specs::Cells::address_block))]
    pub(crate) fn at(params: &Params, position: &Position) -> Self
        ensures number { result.number ≡ position.now.offset / 128 + 1 }
        ensures block { result.block.0 ≡ address_block params.now position.now.pass
            position.now.lane position.now.slice (position.now.offset / 128 + 1) }
    {
        let number = position.offset / 128 + 1;
        let input = address_input(params, position, number);
        let block = compress(&Block::ZERO, &compress(&Block::ZERO, &input));
        AddressBlock { number, block }
    }

    /// Whether the address block has a position's word, in the same segment.
    pub(crate) fn is_of(&self, position: &Position) -> bool
        ensures { IsTrue result ↔ (self.now.number ≡ position.now.offset / 128 + 1) }
    {
        self.number == position.offset / 128 + 1
    }
}

/// Returns the input of the address block of this number.
fn address_input(params: &Params, position: &Position, number: u32) -> Block
    ensures { result.0 ≡ address_input params.now position.now.pass position.now.lane
        position.now.slice number }
{
    let mut words = [0; 128];
    words[0] = u64::from(position.pass);
    words[1] = u64::from(position.lane);
    words[2] = u64::from(position.slice);
    words[3] = block_count(params);
    words[4] = u64::from(params.passes());
    words[5] = u64::from(params.kind().number());
    words[6] = u64::from(number);
    Block(words)
}

/// Returns the number of blocks of the memory.
fn block_count(params: &Params) -> u64
    ensures { result ≡ 4 * segment_len params.now * params.now.lanes }
{
    4 * u64::from(params.segment_len()) * u64::from(params.lanes())
}
