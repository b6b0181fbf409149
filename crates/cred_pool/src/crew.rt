//! The crew, which works the parts.
ghost use Rattle.std.specs.Prelude.{ℕ, ◌<◌, length, slice_index_or};

use crate::part::Part;

/// Works all the parts, each once, in threads or on the caller's thread alone. So code in parts is
/// written once, for any crew.
pub trait Crew<C, P: Part<C>> {
    ghost ready: { Self → Type 0 };

    /// Works each part once.
    fn work_each(&self, shared: &C, parts: &mut [P])
        requires ready { ready self.now }
        requires can { (i : ℕ) (d : P) → i < length parts.old
            → P.can_work shared.now (slice_index_or parts.old i d) }
        ensures { (i : ℕ) (d : P) → i < length parts.old
            → P.works shared.now (slice_index_or parts.old i d) (slice_index_or parts.new i d) };
}

/// A closure as a crew, such as one that calls [`run_parts`](crate::run_parts). The crew is ready
/// if the closure's own contract says that the closure works each part.
#[derive(Drop)]
pub struct CrewFn<F> {
    pub work_each: F,
}

impl<C, P: Part<C>, F: Fn(&C, &mut [P])> Crew<C, P> for CrewFn<F> {
    ghost use Rattle.cred_pool.specs.Crews.{WorksEach};

    ghost ready = { λ crew. WorksEach F.Fn crew.work_each P.can_work P.works };

    fn work_each(&self, shared: &C, parts: &mut [P]) {
        (self.work_each)(shared, parts);
    }
}
