ghost use Rattle.std.specs.Prelude.{◌≡◌};

/// The most bytes in a line of a script, without its line feed.
pub const MOST_LINE_BYTES: u64 = 1_048_576;

/// The most lines in a script.
pub const MOST_LINES: u64 = 1_000_000;

/// The most bytes in a script, with its line feeds.
pub const MOST_BYTES: u64 = 67_108_864;

/// A law: the limits of scripts are these numbers. Definitions name the constants, and so move with them.
pub fn limits_are_stated()
    ensures line_bytes { MOST_LINE_BYTES ≡ 1_048_576 }
    ensures lines { MOST_LINES ≡ 1_000_000 }
    ensures bytes { MOST_BYTES ≡ 67_108_864 }
{}
