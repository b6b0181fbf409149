//! The memory: four slices, worked one after another. While one is worked, its segments are parts
//! that threads work, and the other three are shared (RFC 9106, section 3.4).
ghost use Rattle.std.specs.Prelude.{◌≡◌, ℕ, ◌+◌, ◌*◌, ◌<◌, ◌≤◌, List};
ghost use Rattle.cred_argon.specs.{Parameters.segment_len, Segments.IsSlice, Segments.HoldsSlice, Turns.number, Slices.IsMemory, Slices.MemoryHolds};

use crate::scratch::ArgonScratch;
use crate::segment::{Segment, Shared};
use cred_pool::Crew;
use std::mem;

/// The slice that is to be worked, and the values that its lanes share.
#[derive(Drop)]
pub(crate) struct Memory {
    pub(crate) current: Vec<Segment>,
    pub(crate) shared: Shared<Vec<Segment>>,
}

impl Memory {
    /// Runs all passes.
    pub(crate) fn fill<W: Crew<Shared<Vec<Segment>>, Segment>>(&mut self, crew: &W)
        requires crew { W.ready crew.now }
        requires shape { IsMemory 0 self.old }
        ensures params { self.new.shared.turn.params ≡ self.old.shared.turn.params }
        ensures some { 1 ≤ self.old.shared.turn.params.passes }
        ensures shape { IsMemory (4 * self.old.shared.turn.params.passes) self.new }
        ensures holds { (h : List ℕ) → MemoryHolds h 0 self.old
            → MemoryHolds h (4 * self.old.shared.turn.params.passes) self.new }
    {
        let passes = self.shared.turn.params.passes();
        'passes: for pass in 0..passes {
            'slices: for slice in 0..4 {
                self.work(crew, pass, slice);
            }
        }
    }

    /// Works a slice of a pass, and hands the slices on.
    fn work<W: Crew<Shared<Vec<Segment>>, Segment>>(&mut self, crew: &W, pass: u32, slice: u32)
        requires crew { W.ready crew.now }
        requires slice { slice < 4 }
        requires shape { IsMemory (4 * pass + slice) self.old }
        ensures params { self.new.shared.turn.params ≡ self.old.shared.turn.params }
        ensures shape { IsMemory (4 * pass + slice + 1) self.new }
        ensures holds { (h : List ℕ) → MemoryHolds h (4 * pass + slice) self.old
            → MemoryHolds h (4 * pass + slice + 1) self.new }
    {
        self.shared.turn.pass = pass;
        self.shared.turn.slice = slice;
        self.work_current(crew);
        self.hand_on();
    }

    /// Works the segments of the current slice.
    fn work_current<W: Crew<Shared<Vec<Segment>>, Segment>>(&mut self, crew: &W)
        requires crew { W.ready crew.now }
        requires slice { self.old.shared.turn.slice < 4 }
        requires shape { IsMemory (number self.old.shared.turn) self.old }
        ensures shared { self.new.shared ≡ self.old.shared }
        ensures shape { IsSlice self.old.shared.turn.params (number self.old.shared.turn) 0 0
            self.new.current.items }
        ensures holds { (h : List ℕ) → MemoryHolds h (number self.old.shared.turn) self.old
            → HoldsSlice self.old.shared.turn.params h (number self.old.shared.turn)
            self.new.current.items }
    {
        crew.work_each(&self.shared, &mut self.current);
    }

    /// Makes the current slice the newest, and the oldest slice the current one.
    fn hand_on(&mut self)
        ensures current { self.new.current ≡ self.old.shared.oldest }
        ensures shared { self.new.shared ≡ record self.old.shared {
          oldest = self.old.shared.middle;
          middle = self.old.shared.newest;
          newest = self.old.current;
        } }
    {
        mem::swap(&mut self.current, &mut self.shared.oldest);
        mem::swap(&mut self.shared.oldest, &mut self.shared.middle);
        mem::swap(&mut self.shared.middle, &mut self.shared.newest);
    }
    /// Returns the memory to the scratch, for the next hash.
    pub(crate) fn give_back(self, scratch: &mut ArgonScratch)
        ensures { scratch.new ≡ scratch.old }
    {
        scratch.keep_slice(self.current);
        scratch.keep_slice(self.shared.oldest);
        scratch.keep_slice(self.shared.middle);
        scratch.keep_slice(self.shared.newest);
    }
}
