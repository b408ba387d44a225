//! How much is read of what comes from outside.

ghost use Rattle.std.specs.Prelude.{◌≡◌};

/// A head, a trailer or a size line has at most so many bytes.
pub const HEAD_LIMIT: usize = 65_536;

/// A head or a trailer has at most so many fields.
pub const FIELD_LIMIT: usize = 64;

/// A request's body has at most so many bytes.
pub const BODY_LIMIT: usize = 4_194_304;

/// A line of an answer usually has at most so many bytes, its line feed counted.
pub const LINE_LIMIT: usize = 8_388_608;

/// The limits, in numbers. What is read is said by their names.
pub fn limits_are_stated()
    ensures head { HEAD_LIMIT ≡ 65536 }
    ensures fields { FIELD_LIMIT ≡ 64 }
    ensures body { BODY_LIMIT ≡ 4194304 }
    ensures line { LINE_LIMIT ≡ 8388608 }
{}
