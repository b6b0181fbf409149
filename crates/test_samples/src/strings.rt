//! Settings, and records of `password` that other programs made under them.

/// A setting of one lane with the salt `somesalt`.
pub const A_SETTING: &str = "$argon2id$v=19$m=256,t=2,p=1$c29tZXNhbHQ";

/// The same setting with two lanes.
pub const B_SETTING: &str = "$argon2id$v=19$m=256,t=2,p=2$c29tZXNhbHQ";

/// The record of `password` under `A_SETTING`, by the reference program of Argon2.
pub const A: &str =
    "$argon2id$v=19$m=256,t=2,p=1$c29tZXNhbHQ$nf65EOgLrQMR/uIPnA4rEsF5h7TKyQwu9U1bMCHGi/4";

/// The record of `password` under `B_SETTING`, by the same program.
pub const B: &str =
    "$argon2id$v=19$m=256,t=2,p=2$c29tZXNhbHQ$bQk8UB/VmZZF4Oo79iDXuL5/0ttZwg2f/5U52iv1cDc";

/// Like `A`, for `argon2i`, by the same program.
pub const INDEPENDENT: &str =
    "$argon2i$v=19$m=256,t=2,p=1$c29tZXNhbHQ$iekCn0Y3spW+sCcFanM2xBT63UP2sghkUoHLIUpWRS8";

/// Like `A`, for `argon2i` and version 0x10, by the same program. The text leaves the version out.
pub const OLD: &str =
    "$argon2i$m=256,t=2,p=1$c29tZXNhbHQ$/U3YPXYsSb3q9XxHvc0MLxur+GP960kN9j7emXX8zwY";

/// `OLD` with its version written out.
pub const OLD_WRITTEN: &str =
    "$argon2i$v=16$m=256,t=2,p=1$c29tZXNhbHQ$/U3YPXYsSb3q9XxHvc0MLxur+GP960kN9j7emXX8zwY";

/// The vector of RFC 7914, section 12, for `password` and the salt `NaCl`.
pub const SCRYPT: &str = "$scrypt$ln=10,r=8,p=16$TmFDbA$\
    /bq+HJ00cgB4VucZDQHp/nxq18vII3gw53N2Y0s3MWIurzDZLiKjiG/xCSedmDDaxyevuUqD7m2DYMvfoswGQA";
