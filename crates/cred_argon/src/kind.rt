//! The three kinds of Argon2, and its two versions.
ghost use Rattle.std.specs.Prelude.{◌≡◌};
ghost use Rattle.cred_argon.specs.Numbers.{kind_number, version_number};

/// The way in which Argon2 chooses the blocks that it reads (RFC 9106, section 3.1, type y).
#[derive(Clone, Copy, Debug, PartialEq, Eq)]
pub enum Kind {
    /// By the contents of the memory, and so by the password.
    D,
    /// By the place alone.
    I,
    /// By the place alone in the first half of the first pass, and then by the contents of the
    /// memory.
    Id,
}

impl Kind {
    /// Returns the number of the kind in Argon2's inputs: 0, 1 or 2.
    pub fn number(self) -> u32
        ensures { result ≡ kind_number self }
    {
        match self {
            Kind::D => 0,
            Kind::I => 1,
            Kind::Id => 2,
        }
    }
}

/// A version of Argon2 (RFC 9106, section 3.1, version v).
#[derive(Clone, Copy, Debug, PartialEq, Eq)]
pub enum Version {
    /// 0x10, whose later passes overwrite the memory. Only old records have this version.
    V10,
    /// 0x13, the version of RFC 9106, whose later passes add to the memory by exclusive or.
    V13,
}

impl Version {
    /// Returns the version's number: 16 or 19.
    pub fn number(self) -> u32
        ensures { result ≡ version_number self }
    {
        match self {
            Version::V10 => 0x10,
            Version::V13 => 0x13,
        }
    }
}
