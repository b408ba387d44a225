ghost use Rattle.std.specs.Prelude.{◌≡◌};

/// The gRPC status codes that refusals have (gRPC's page on status codes): what is asked for makes no sense.
pub const INVALID_ARGUMENT: u32 = 3;

/// No answer came in time, and what was asked for may have been done.
pub const DEADLINE_EXCEEDED: u32 = 4;

/// What is named isn't there.
pub const NOT_FOUND: u32 = 5;

/// What is asked for isn't for this caller.
pub const PERMISSION_DENIED: u32 = 7;

/// The state doesn't allow what is asked for.
pub const FAILED_PRECONDITION: u32 = 9;

/// A revision is past the ends of the history.
pub const OUT_OF_RANGE: u32 = 11;

/// What is asked for isn't served.
pub const UNIMPLEMENTED: u32 = 12;

/// Nobody answered, and what was asked for may have been done.
pub const UNAVAILABLE: u32 = 14;

/// The codes in numbers. Refusals are defined by their names.
pub fn codes_are_stated()
    ensures invalid_argument { INVALID_ARGUMENT ≡ 3 }
    ensures deadline_exceeded { DEADLINE_EXCEEDED ≡ 4 }
    ensures not_found { NOT_FOUND ≡ 5 }
    ensures permission_denied { PERMISSION_DENIED ≡ 7 }
    ensures failed_precondition { FAILED_PRECONDITION ≡ 9 }
    ensures out_of_range { OUT_OF_RANGE ≡ 11 }
    ensures unimplemented { UNIMPLEMENTED ≡ 12 }
    ensures unavailable { UNAVAILABLE ≡ 14 }
{}
