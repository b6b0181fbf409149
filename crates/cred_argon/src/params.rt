//! The parameters of an Argon2 tag.
ghost use Rattle.std.specs.Prelude.{◌≡◌, ◌*◌, ◌≤◌, ◌↔◌, IfOk};
ghost use Rattle.cred_argon.specs.declared.params.TheConstants.{MAX_LANES, MAX_MEMORY, MAX_PASSES, MAX_RAW_TAG, MAX_TAG, MIN_TAG};
ghost use Rattle.cred_argon.specs.Faults.{IsFaultUpTo, IsFirstFault, IsFirstRawFault};
ghost use Rattle.cred_argon.specs.Parameters.{parameters, IsParameters, IsRaw, IsUpTo, segment_len};

use crate::error::ArgonError;
use crate::kind::{Kind, Version};
use std::marker::Model;

/// The most lanes that a memory may have.
pub const MAX_LANES: u32 = 255;

/// The most memory, in KiB: 2 GiB.
pub const MAX_MEMORY: u32 = 2_097_152;

/// The most passes: their number is written in 32 bits (RFC 9106, section 3.1).
pub const MAX_PASSES: u32 = 4_294_967_295;

/// The fewest bytes of a tag (RFC 9106, section 3.1).
pub const MIN_TAG: u32 = 4;

/// The most bytes of a tag that a record holds: one BLAKE2b digest has no more.
pub const MAX_TAG: u32 = 64;

/// The most bytes of any tag: its length is written in 32 bits (RFC 9106, section 3.1).
pub const MAX_RAW_TAG: u32 = 4_294_967_295;

/// States a law: the ranges that definitions take from the constants above are these numbers.
pub fn ranges_are_these_numbers()
    ensures lanes { MAX_LANES ≡ 255 }
    ensures memory { MAX_MEMORY ≡ 2097152 }
    ensures passes { MAX_PASSES ≡ 4294967295 }
    ensures shortest_tag { MIN_TAG ≡ 4 }
    ensures longest_tag { MAX_TAG ≡ 64 }
    ensures longest_raw_tag { MAX_RAW_TAG ≡ 4294967295 }
{}

/// The version, kind, costs and tag length of an Argon2 tag (RFC 9106, section 3.1), always in
/// range.
#[derive(Clone, Copy, Debug)]
pub struct Params {
    version: Version,
    kind: Kind,
    memory: u32,
    passes: u32,
    lanes: u32,
    tag_len: u32,
    segment: u32,
}

impl Model for Params {
    ghost use Rattle.std.specs.Prelude.{◌≡◌, ℕ, ◌*◌, ◌/◌};
    ghost use Rattle.std.proofs.Common.{sym, ap};
    ghost use Rattle.cred_argon.specs.Parameters.{Parameters, parameters, IsRaw};

    ghost Value = { Parameters };

    ghost view = { λ a. parameters a.version a.kind a.memory a.passes a.lanes a.tag_len };

    ghost invariant = { λ a.
        IsRaw (parameters a.version a.kind a.memory a.passes a.lanes a.tag_len)
        × (a.segment ≡ a.memory / (4 * a.lanes)) };

    ghost inverse = { λ v. record {
      version = v.version;
      kind = v.kind;
      memory = v.memory;
      passes = v.passes;
      lanes = v.lanes;
      tag_len = v.tag_len;
      segment = v.memory / (4 * v.lanes);
    } };

    ghost inverse_ok = { λ a h. ap (λ (s : ℕ). record {
      version = a.version;
      kind = a.kind;
      memory = a.memory;
      passes = a.passes;
      lanes = a.lanes;
      tag_len = a.tag_len;
      segment = s;
    }) (sym h.1) };
}

/// The costs of a tag, which may be out of range.
#[derive(Clone, Copy)]
struct Costs {
    /// In KiB.
    memory: u32,
    passes: u32,
    lanes: u32,
}

impl Params {
    /// Returns parameters of version 0x13 (RFC 9106, section 3.1), with `memory` in KiB and
    /// `tag_len` in bytes.
    ///
    /// Errors: `Lanes` if `lanes` is outside 1 to 255; otherwise `Cost` if `memory` is below 8 KiB
    /// a lane or over 2 GiB; otherwise `Passes` if there is no pass; otherwise `TagLen` if the tag
    /// isn't 4 to 64 bytes long.
    pub fn new(
        kind: Kind,
        memory: u32,
        passes: u32,
        lanes: u32,
        tag_len: u32,
    ) -> Result<Self, ArgonError>
        ensures ok { IfOk result (λ a. (a ≡ parameters Version.V13 kind memory passes lanes tag_len)
            × IsParameters (parameters Version.V13 kind memory passes lanes tag_len)) }
        ensures err { (e : ArgonError) → (result ≡ Err e)
            ↔ IsFirstFault (parameters Version.V13 kind memory passes lanes tag_len) e }
    {
        Params::with_version(Version::V13, kind, memory, passes, lanes, tag_len)
    }

    /// Returns such parameters at a version of the caller's choice, with the same errors.
    pub fn with_version(
        version: Version,
        kind: Kind,
        memory: u32,
        passes: u32,
        lanes: u32,
        tag_len: u32,
    ) -> Result<Self, ArgonError>
        ensures ok { IfOk result (λ a. (a ≡ parameters version kind memory passes lanes tag_len)
            × IsParameters (parameters version kind memory passes lanes tag_len)) }
        ensures err { (e : ArgonError) → (result ≡ Err e)
            ↔ IsFirstFault (parameters version kind memory passes lanes tag_len) e }
    {
        let costs = Costs {
            memory,
            passes,
            lanes,
        };
        Params::up_to(MAX_TAG, version, kind, costs, tag_len)
    }

    /// Returns such parameters for a tag that no record has to hold: of 4 bytes or more, as RFC
    /// 9106 allows.
    ///
    /// Errors: those of [`new`](Params::new), but `TagLen` only if the tag is below 4 bytes.
    pub fn raw(
        version: Version,
        kind: Kind,
        memory: u32,
        passes: u32,
        lanes: u32,
        tag_len: u32,
    ) -> Result<Self, ArgonError>
        ensures ok { IfOk result (λ a. (a ≡ parameters version kind memory passes lanes tag_len)
            × IsRaw (parameters version kind memory passes lanes tag_len)) }
        ensures err { (e : ArgonError) → (result ≡ Err e)
            ↔ IsFirstRawFault (parameters version kind memory passes lanes tag_len) e }
    {
        let costs = Costs {
            memory,
            passes,
            lanes,
        };
        Params::up_to(MAX_RAW_TAG, version, kind, costs, tag_len)
    }

    /// Returns parameters of a tag of at most `most` bytes.
    fn up_to(
        most: u32,
        version: Version,
        kind: Kind,
        costs: Costs,
        tag_len: u32,
    ) -> Result<Self, ArgonError>
        ensures ok { IfOk result (λ a. (a
            ≡ parameters version kind costs.memory costs.passes costs.lanes tag_len) × IsUpTo most
            (parameters version kind costs.memory costs.passes costs.lanes tag_len)) }
        ensures err { (e : ArgonError) → (result ≡ Err e) ↔ IsFaultUpTo most
            (parameters version kind costs.memory costs.passes costs.lanes tag_len) e }
    {
        let Costs {
            memory,
            passes,
            lanes,
        } = costs;
        if lanes == 0 || lanes > MAX_LANES {
            return Err(ArgonError::Lanes);
        }
        if memory < 8 * lanes || memory > MAX_MEMORY {
            return Err(ArgonError::Cost);
        }
        if passes == 0 {
            return Err(ArgonError::Passes);
        }
        if tag_len < MIN_TAG || tag_len > most {
            return Err(ArgonError::TagLen);
        }
        Ok(Params {
            version,
            kind,
            memory,
            passes,
            lanes,
            tag_len,
            segment: memory / (4 * lanes),
        })
    }

    /// Returns the version.
    pub fn version(&self) -> Version
        ensures { result ≡ self.now.version }
    {
        self.version
    }

    /// Returns the kind.
    pub fn kind(&self) -> Kind
        ensures { result ≡ self.now.kind }
    {
        self.kind
    }

    /// Returns the memory that was asked for, in KiB.
    pub fn memory(&self) -> u32
        ensures { result ≡ self.now.memory }
    {
        self.memory
    }

    /// Returns the number of passes.
    pub fn passes(&self) -> u32
        ensures value { result ≡ self.now.passes }
        ensures some { 1 ≤ result }
    {
        self.passes
    }

    /// Returns the number of lanes.
    pub fn lanes(&self) -> u32
        ensures value { result ≡ self.now.lanes }
        ensures some { 1 ≤ result }
        ensures at_most { result ≤ MAX_LANES }
    {
        self.lanes
    }

    /// Returns the length of the tag, in bytes.
    pub fn tag_len(&self) -> u32
        ensures value { result ≡ self.now.tag_len }
        ensures some { MIN_TAG ≤ result }
    {
        self.tag_len
    }

    /// Returns the number of columns of a segment: a quarter of a lane.
    pub fn segment_len(&self) -> u32
        ensures value { result ≡ segment_len self.now }
        ensures at_least { 2 ≤ result }
        ensures fits { 4 * result * self.now.lanes ≤ MAX_MEMORY }
        ensures at_most { 4 * result ≤ MAX_MEMORY }
        ensures some_pass { 1 ≤ self.now.passes }
    {
        self.segment
    }
}
