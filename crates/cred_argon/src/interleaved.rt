//! The caller's thread alone, which interleaves the lanes of a slice by twos.
ghost use Rattle.std.specs.Prelude.{◌≡◌, ℕ, ◌+◌, ◌<◌, ◌≤◌, ◌⊎◌, length, slice_index_or};
ghost use Rattle.cred_argon.specs.{declared.segment.Segment.Segment, SegmentWork.CanWork, SegmentWork.Works};

use crate::segment::{Segment, Shared, work_interleaved};
use cred_pool::{Crew, Gate, Part};

/// The caller's thread with a gate. The thread works two lanes interleaved, between the gate's
/// `enter` and `leave` of both. If the number of lanes is odd, the thread works the last lane
/// alone.
#[derive(Drop)]
pub(crate) struct Interleaved<'a, G> {
    pub(crate) gate: &'a G,
}

impl<'a, G: Gate> Crew<Shared<Vec<Segment>>, Segment> for Interleaved<'a, G> {
    ghost use Rattle.std.specs.Prelude.{⊤};

    ghost ready = { λ _. ⊤ };

    fn work_each(&self, shared: &Shared<Vec<Segment>>, parts: &mut [Segment]) {
        'pairs: for i in 0..parts.len().div_ceil(2) {
            work_from(self.gate, shared, 2 * i, parts);
        }
    }
}

/// Works the part with this index and the one behind it, if there is one.
fn work_from<G: Gate>(gate: &G, shared: &Shared<Vec<Segment>>, at: usize, parts: &mut [Segment])
    requires at { at < length parts.old }
    requires can { (i : ℕ) (d : Segment) → at ≤ i → i < at + 2 → i < length parts.old
        → CanWork shared.now (slice_index_or parts.old i d) }
    ensures len { length parts.new ≡ length parts.old }
    ensures works { (i : ℕ) (d : Segment) → at ≤ i → i < at + 2 → i < length parts.old
        → Works shared.now (slice_index_or parts.old i d) (slice_index_or parts.new i d) }
    ensures kept { (i : ℕ) (d : Segment) → (i < at) ⊎ (at + 2 ≤ i)
        → slice_index_or parts.new i d ≡ slice_index_or parts.old i d }
{
    gate.enter(at);
    if parts.len() - at == 1 {
        parts[at].work(shared);
    } else {
        gate.enter(at + 1);
        let (front, back) = parts.split_at_mut(at + 1);
        work_interleaved(shared, &mut front[at], &mut back[0]);
        gate.leave(at + 1);
    }
    gate.leave(at);
}
