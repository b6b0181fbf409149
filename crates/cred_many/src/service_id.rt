//! The name of a service.

use std::marker::Brand;

/// Names one service. A function is generic over the service, and a call with `Brand` picks one.
pub trait ServiceId {
    ghost use Rattle.cred_many.specs.Service.{Service};

    ghost service: { Service };
}

impl ServiceId for Brand {
    ghost use Rattle.cred_many.specs.Service.{no_service};

    ghost service = { no_service };
}
