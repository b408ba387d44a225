use json_model::ApiFault;

/// Why a request is refused with no step.
#[derive(Debug, Drop, PartialEq, Eq)]
pub enum Refused {
    /// The bytes are no request.
    Bytes,
    /// The body has a `Content-Encoding` other than `identity`.
    Encoding,
    /// The method isn't POST.
    Method,
    /// The path and the body say no request.
    Request(ApiFault),
}
