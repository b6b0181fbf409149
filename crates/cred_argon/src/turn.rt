//! The slice that is worked.
ghost use Rattle.std.specs.Prelude.{◌≡◌, if◌then◌else◌};
ghost use Rattle.cred_argon.specs.{Cells.is_dependent, Cells.is_fresh, Turns.first_offset, Turns.position_in};

use crate::kind::{Kind, Version};
use crate::params::Params;
use crate::position::Position;

/// The pass and the slice that are worked, in a memory of these parameters.
#[derive(Clone, Copy, Drop)]
pub(crate) struct Turn {
    pub(crate) params: Params,
    pub(crate) pass: u32,
    pub(crate) slice: u32,
}

impl Turn {
    /// Whether the words that name references come from the blocks before them.
    pub(crate) fn is_dependent(&self) -> bool
        ensures { result ≡ is_dependent self.now.params.kind self.now.pass self.now.slice }
    {
        match self.params.kind() {
            Kind::D => true,
            Kind::I => false,
            Kind::Id => self.pass > 0 || self.slice >= 2,
        }
    }

    /// Whether a block replaces the old one at its place.
    pub(crate) fn is_fresh(&self) -> bool
        ensures { result ≡ is_fresh self.now.params.version self.now.pass }
    {
        match self.params.version() {
            Version::V10 => true,
            Version::V13 => self.pass == 0,
        }
    }

    /// Returns the position of an offset in a lane's segment.
    pub(crate) fn position(&self, lane: u32, offset: u32) -> Position
        ensures { result ≡ position_in self.now lane offset }
    {
        Position {
            pass: self.pass,
            lane,
            slice: self.slice,
            offset,
        }
    }

    /// Returns the first offset that is worked: the first two blocks of a lane come from the
    /// inputs.
    pub(crate) fn first_offset(&self) -> u32
        ensures { result ≡ first_offset self.now }
    {
        if self.pass == 0 && self.slice == 0 {
            2
        } else {
            0
        }
    }
}
