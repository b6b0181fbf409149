//! The memory and the work of hashes, and bounds on both.

ghost use Rattle.std.specs.Prelude.{◌≡◌, ◌≤◌, ◌*◌, ◌^◌};
ghost use Rattle.cred_cli.specs.Costs.{exceeds, is_above, memory_alone, memory_of, no_bounds, request_exceeds, tables_kib, work_of};

use cred_book::Request;
use cred_phc::{Scheme, Setting};

/// Returns the memory of a hash of this setting in KiB, with as many threads as can share it: `m`
/// for Argon2, and 128 `r` `p` 2^`ln` bytes for scrypt. A hash needs a little more.
pub fn memory_of(setting: &Setting) -> u64
    ensures { result ≡ memory_of setting.now.scheme }
{
    match setting.scheme() {
        Scheme::Argon2 { m, .. } => u64::from(m),
        Scheme::Scrypt { ln, r, p } => tables_kib(p, ln, r),
    }
}

/// Returns the memory of such a hash with one thread, which has one of scrypt's tables at a time:
/// 128 `r` 2^`ln` bytes.
pub fn memory_alone(setting: &Setting) -> u64
    ensures { result ≡ memory_alone setting.now.scheme }
{
    match setting.scheme() {
        Scheme::Argon2 { m, .. } => u64::from(m),
        Scheme::Scrypt { ln, r, .. } => tables_kib(1, ln, r),
    }
}

/// Returns the KiB of so many of scrypt's tables.
fn tables_kib(tables: u8, ln: u8, r: u8) -> u64
    requires cost { ln ≤ 24 }
    requires room { r * 2 ^ ln ≤ 2 ^ 24 }
    ensures { result ≡ tables_kib tables ln r }
{
    let rows = u64::from(r) << ln;
    (u64::from(tables) * rows + 7) / 8
}

/// Returns the work of a hash of this setting in KiB, with each KiB counted at every pass over it:
/// `m` `t` of Argon2, and twice the memory of scrypt's tables, which are filled and then mixed.
pub fn work_of(setting: &Setting) -> u64
    ensures { result ≡ work_of setting.now.scheme }
{
    match setting.scheme() {
        Scheme::Argon2 { m, t, .. } => u64::from(m) * u64::from(t),
        Scheme::Scrypt { ln, r, p } => 2 * tables_kib(p, ln, r),
    }
}

/// Bounds on the settings and records of lines.
#[derive(Clone, Copy, Debug, PartialEq, Eq)]
pub struct CostBounds {
    /// The maximum memory in KiB, if it is bounded ([`memory_of`]).
    pub memory: Option<u64>,
    /// The maximum work in KiB, if it is bounded ([`work_of`]).
    pub work: Option<u64>,
}

impl CostBounds {
    /// Allows any costs.
    pub fn none() -> CostBounds
        ensures { result ≡ no_bounds }
    {
        CostBounds {
            memory: None,
            work: None,
        }
    }
}

/// Whether a hash of this setting needs more memory or more work than these bounds allow.
pub fn exceeds(most: &CostBounds, setting: &Setting) -> bool
    ensures { result ≡ exceeds most.now setting.now.scheme }
{
    is_above(most.memory, memory_of(setting)) || is_above(most.work, work_of(setting))
}

fn is_above(most: Option<u64>, cost: u64) -> bool
    ensures { result ≡ is_above most cost }
{
    match most {
        Some(most) => most < cost,
        None => false,
    }
}

/// Whether the record that the request would make has a setting that needs more than these bounds
/// allow.
pub fn request_exceeds(most: &CostBounds, request: &Request) -> bool
    ensures { result ≡ request_exceeds most.now request.now }
{
    match request {
        Request::Enrol { setting, .. }
        | Request::Change { setting, .. }
        | Request::Upgrade { setting, .. } => exceeds(most, setting),
        Request::Verify { .. } | Request::Remove { .. } => false,
    }
}
