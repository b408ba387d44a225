ghost use Rattle.std.specs.Prelude.{◌≡◌, length, map, All, IsTrue, ◌↔◌};
ghost use Rattle.std.specs.List.{list_any};
ghost use Rattle.httparse.specs.Grammar.{IsToken};
ghost use Rattle.httparse.specs.Spans.{IsWithin, IsHeaderWithin, span_bytes, header_bytes};
ghost use Rattle.http_wire.specs.Heads as spec;

use crate::fault::WireFault;
use crate::limits::FIELD_LIMIT;
use crate::message::{AnswerHead, Framing, Head};
use etcd_types::Bytes;
use http::Method;
use http::method::MethodError;
use http1::fields::{ContentLength, KnownFields, TransferEncoding};
use http1::text::eq_ignore_case;
use httparse::Status;
use httparse::spans::{
    EMPTY_HEADER_SPAN, HeaderSpan, RequestSpans, ResponseSpans, parse_headers, parse_request,
    parse_response,
};
use std::alloc::Global;

/// The framing that the fields state, if any.
fn stated(known: &KnownFields) -> Result<Option<Framing>, WireFault>
    ensures { result ≡ spec.stated known.now }
{
    if known.framing_fields > 1 || known.other_coding {
        return Err(WireFault::BadHead);
    }
    match (known.content_length, known.transfer_encoding) {
        (ContentLength::Absent, TransferEncoding::Absent) => Ok(None),
        (ContentLength::Value(length), TransferEncoding::Absent) => {
            Ok(Some(Framing::Length(length)))
        }
        (ContentLength::Absent, TransferEncoding::Chunked) => Ok(Some(Framing::Chunks {
            left: 0,
            done: false,
        })),
        _ => Err(WireFault::BadHead),
    }
}

/// Whether a field says that the body has an encoding other than `identity`.
fn is_encoded(bytes: &[u8], fields: &[HeaderSpan]) -> bool
    requires { All (IsHeaderWithin (length bytes.now)) fields.now }
    ensures { result ≡ list_any spec.is_encoding (map (header_bytes bytes.now) fields.now) }
{
    let mut encoded = false;
    for field in fields {
        encoded |= is_encoding(field.name.of(bytes), field.value.of(bytes));
    }
    encoded
}

fn is_encoding(name: &[u8], value: &[u8]) -> bool
    ensures { result ≡ spec.is_encoding (name.now, value.now) }
{
    eq_ignore_case(name, b"content-encoding") && !eq_ignore_case(value, b"identity")
}

/// The method with this name.
fn method_of(alloc: Global, name: &[u8]) -> Result<Method, WireFault>
    requires { IsToken name.now }
    ensures { spec.GivesMethod result name.now }
{
    match Method::from_bytes(alloc, name) {
        Ok(method) => Ok(method),
        Err(MethodError::OutOfMemory) => Err(WireFault::NoMemory),
        Err(MethodError::Invalid) => unreachable!(),
    }
}

/// What the parts of a request's head say, which were found in the bytes.
fn head_from(
    alloc: Global,
    bytes: &[u8],
    spans: RequestSpans,
    fields: &[HeaderSpan],
) -> Result<Head, WireFault>
    requires fields { All (IsHeaderWithin (length bytes.now)) fields.now }
    requires method { IsWithin (length bytes.now) spans.method }
    requires path { IsWithin (length bytes.now) spans.path }
    requires token { IsToken (span_bytes bytes.now spans.method) }
    ensures { spec.GivesHead result (spec.head_from spans.version (span_bytes bytes.now spans.method)
        (span_bytes bytes.now spans.path) (map (header_bytes bytes.now) fields.now)) }
{
    let known = KnownFields::from_spans(bytes, fields);
    if spans.version != 1 || known.hosts != 1 {
        return Err(WireFault::BadHead);
    }
    let framing = stated(&known)?;
    let method = method_of(alloc, spans.method.of(bytes))?;
    let path = Bytes::from_slice(alloc, spans.path.of(bytes))?;
    Ok(Head {
        method,
        path,
        framing: framing.unwrap_or(Framing::Length(0)),
        close: known.close,
        expects: known.expect_continue,
        encoded: is_encoded(bytes, fields),
    })
}

/// Reads the bytes as one whole head of a request. Its frame is large, and gone while a connection rests for its next head.
#[inline(never)]
pub(crate) fn parse_head(alloc: Global, bytes: &[u8]) -> Result<Head, WireFault>
    ensures { spec.IsHead bytes.now result }
{
    let mut fields = [EMPTY_HEADER_SPAN; FIELD_LIMIT];
    match parse_request(bytes, &mut fields) {
        Ok(Status::Complete(spans)) => {
            if spans.len != bytes.len() {
                return Err(WireFault::BadHead);
            }
            head_from(alloc, bytes, spans, &fields[..spans.headers])
        }
        _ => Err(WireFault::BadHead),
    }
}

/// The framing of an answer that states none.
fn unstated(status: u16) -> Framing
    ensures { result ≡ spec.unstated status }
{
    match status {
        100..=199 | 204 | 304 => Framing::Length(0),
        _ => Framing::ToEnd,
    }
}

/// What the parts of an answer's head say, which were found in the bytes.
fn answer_from(
    bytes: &[u8],
    spans: ResponseSpans,
    fields: &[HeaderSpan],
) -> Result<AnswerHead, WireFault>
    requires { All (IsHeaderWithin (length bytes.now)) fields.now }
    ensures { spec.GivesAnswer result (spec.answer_from spans.version spans.code (map (header_bytes bytes.now) fields.now)) }
{
    if spans.version != 1 {
        return Err(WireFault::BadHead);
    }
    let known = KnownFields::from_spans(bytes, fields);
    let framing = stated(&known)?;
    Ok(AnswerHead {
        status: spans.code,
        framing: framing.unwrap_or(unstated(spans.code)),
        closes: known.close,
    })
}

/// Reads the bytes as one whole head of an answer.
#[tactic(auto, using(crate::proofs::Reading::answer_read))]
pub(crate) fn parse_answer(bytes: &[u8]) -> Result<AnswerHead, WireFault>
    ensures { spec.IsAnswer bytes.now result }
{
    let mut fields = [EMPTY_HEADER_SPAN; FIELD_LIMIT];
    match parse_response(bytes, &mut fields) {
        Ok(Status::Complete(spans)) => {
            if spans.len != bytes.len() {
                return Err(WireFault::BadHead);
            }
            answer_from(bytes, spans, &fields[..spans.headers])
        }
        _ => Err(WireFault::BadHead),
    }
}

/// Whether the bytes are one whole trailer.
pub(crate) fn is_trailer(bytes: &[u8]) -> bool
    ensures { IsTrue result ↔ spec.IsTrailer bytes.now }
{
    let mut fields = [EMPTY_HEADER_SPAN; FIELD_LIMIT];
    match parse_headers(bytes, &mut fields) {
        Ok(Status::Complete((length, _))) => length == bytes.len(),
        _ => false,
    }
}
