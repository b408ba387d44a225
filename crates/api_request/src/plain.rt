//! The plain read of one key, the plain put of one and the plain watch, read without a JSON value where they stand in the form that is
//! written for them.
ghost use Rattle.std.specs.Prelude.{◌≡◌, ◌++◌, Ok, codes, false, IfSome};
ghost use Rattle.base64.specs.Engines.{standard};
ghost use Rattle.base64.specs.GeneralPurpose.{IsBytes, encode_of};
ghost use Rattle.etcd_types.specs.Keys.{is_empty};
ghost use Rattle.etcd_types.specs.declared.request.Request.TheVariants as request;
ghost use Rattle.json_model.specs.declared.extra.Reading.TheVariants.{Client};
ghost use Rattle.json_model.specs.declared.path.Path.TheVariants as path;
ghost use Rattle.json_model.specs.Mapping.{request_of};
ghost use Rattle.json_model.specs.Paths.{path_text};
ghost use Rattle.api_request.specs.PlainRequests.{plain_read, plain_put, plain_watch, range_texts};

use crate::paths::is_path;
use base64::engine::general_purpose::STANDARD;
use etcd_types::{Bytes, KeyRange, PutAsk, RangeAsk, Request, Sort, WatchAsk};
use json_model::Path;
use memchr::memchr;
use std::alloc::Global;

/// What stands behind the opening of a body that begins with a key.
fn after_opening(body: &[u8]) -> Option<&[u8]>
    ensures { IfSome result (λ rest. body.now ≡ codes "{\"key\":\"" ++ rest.now) }
{
    body.strip_prefix(b"{\"key\":\"".as_slice())
}

fn before_end(rest: &[u8]) -> Option<&[u8]>
    ensures { IfSome result (λ text. rest.now ≡ text.now ++ codes "\"}") }
{
    rest.strip_suffix(b"\"}".as_slice())
}

/// The bytes of a base64 text in the standard alphabet with padding, where there are any and memory suffices.
fn some_bytes(alloc: Global, text: &[u8]) -> Option<Bytes>
    ensures text { IfSome result (λ key. text.now ≡ encode_of standard key) }
    ensures bytes { IfSome result (λ key. IsBytes key) }
    ensures some { IfSome result (λ key. is_empty key ≡ false) }
{
    match STANDARD.decode(alloc, text) {
        Ok(bytes) if !bytes.as_slice().is_empty() => Some(Bytes::from_vec(bytes)),
        _ => None,
    }
}

fn read_of(alloc: Global, key: Bytes) -> Request
    ensures { result ≡ request.Range (plain_read key) }
{
    let range = KeyRange {
        key,
        end: Bytes::new(alloc),
    };
    let sort = Sort {
        order: 0,
        target: 0,
        min_mod: 0,
        max_mod: 0,
        min_create: 0,
        max_create: 0,
    };
    Request::Range(RangeAsk {
        range,
        revision: 0,
        limit: 0,
        serializable: false,
        keys_only: false,
        count_only: false,
        sort,
    })
}

fn put_of(key: Bytes, value: Bytes) -> Request
    ensures { result ≡ request.Put (plain_put key value) }
{
    Request::Put(PutAsk {
        key,
        value,
        lease: 0,
        prev_kv: false,
        ignore_lease: false,
    })
}

fn watch_of(key: Bytes, end: Bytes) -> Request
    ensures { result ≡ request.Watch (plain_watch key end) }
{
    Request::Watch(WatchAsk {
        range: KeyRange { key, end },
        start: 0,
        no_put: false,
        no_delete: false,
        prev_kv: false,
        progress: false,
    })
}

/// What stands between the opening and the end.
fn inner_text(body: &[u8]) -> Option<&[u8]>
    ensures { IfSome result (λ text. body.now ≡ codes "{\"key\":\"" ++ (text.now ++ codes "\"}")) }
{
    let rest = after_opening(body)?;
    let text = before_end(rest)?;
    Some(text)
}

/// The texts of the key and of the value. The first quotation mark ends the key's, since base64 has none.
fn key_and_value(texts: &[u8]) -> Option<(&[u8], &[u8])>
    ensures { IfSome result (λ parts. texts.now ≡ parts.0.now ++ (codes "\",\"value\":\"" ++ parts.1.now)) }
{
    let end = memchr(b'"', texts)?;
    let (key, rest) = texts.split_at(end);
    let value = rest.strip_prefix(b"\",\"value\":\"".as_slice())?;
    Some((key, value))
}

/// What stands between the opening of a watch that begins with a key and its end.
fn watch_text(body: &[u8]) -> Option<&[u8]>
    ensures { IfSome result (λ text. body.now ≡ codes "{\"create_request\":{\"key\":\"" ++ (text.now ++ codes "\"}}")) }
{
    let rest = after_creation(body)?;
    let text = before_both_ends(rest)?;
    Some(text)
}

fn after_creation(body: &[u8]) -> Option<&[u8]>
    ensures { IfSome result (λ rest. body.now ≡ codes "{\"create_request\":{\"key\":\"" ++ rest.now) }
{
    body.strip_prefix(b"{\"create_request\":{\"key\":\"".as_slice())
}

fn before_both_ends(rest: &[u8]) -> Option<&[u8]>
    ensures { IfSome result (λ text. rest.now ≡ text.now ++ codes "\"}}") }
{
    rest.strip_suffix(b"\"}}".as_slice())
}

/// The texts of the key and of the range's end, with what stands between them.
fn key_and_end(texts: &[u8]) -> Option<(&[u8], &[u8])>
    ensures { IfSome result (λ parts. texts.now ≡ parts.0.now ++ (codes "\",\"range_end\":\"" ++ parts.1.now)) }
{
    let at = memchr(b'"', texts)?;
    let (key, rest) = texts.split_at(at);
    let end = rest.strip_prefix(b"\",\"range_end\":\"".as_slice())?;
    Some((key, end))
}

fn read_from(alloc: Global, body: &[u8]) -> Option<Request>
    ensures { IfSome result (λ request. request_of Client (path_text path.Range) body.now ≡ Ok request) }
{
    let text = inner_text(body)?;
    let key = some_bytes(alloc, text)?;
    Some(read_of(alloc, key))
}

fn put_from(alloc: Global, body: &[u8]) -> Option<Request>
    ensures { IfSome result (λ request. request_of Client (path_text path.Put) body.now ≡ Ok request) }
{
    let texts = inner_text(body)?;
    let (key, value) = key_and_value(texts)?;
    let key = some_bytes(alloc, key)?;
    let value = some_bytes(alloc, value)?;
    Some(put_of(key, value))
}

fn watch_from(alloc: Global, body: &[u8]) -> Option<Request>
    ensures { IfSome result (λ request. request_of Client (path_text path.Watch) body.now ≡ Ok request) }
{
    let texts = watch_text(body)?;
    match key_and_end(texts) {
        Some((key, end)) => range_watch(alloc, body, key, end),
        None => key_watch(alloc, body, texts),
    }
}

fn key_watch(alloc: Global, body: &[u8], text: &[u8]) -> Option<Request>
    requires { body.now ≡ codes "{\"create_request\":{\"key\":\"" ++ (text.now ++ codes "\"}}") }
    ensures { IfSome result (λ request. request_of Client (path_text path.Watch) body.now ≡ Ok request) }
{
    let key = some_bytes(alloc, text)?;
    Some(watch_of(key, Bytes::new(alloc)))
}

fn range_watch(alloc: Global, body: &[u8], key: &[u8], end: &[u8]) -> Option<Request>
    requires { body.now ≡ codes "{\"create_request\":{\"key\":\"" ++ (range_texts key.now end.now ++ codes "\"}}") }
    ensures { IfSome result (λ request. request_of Client (path_text path.Watch) body.now ≡ Ok request) }
{
    let key = some_bytes(alloc, key)?;
    let end = some_bytes(alloc, end)?;
    Some(watch_of(key, end))
}

/// The request of a path and a body that are as a plain read, a plain put or a plain watch is written.
#[inline(never)]
pub(crate) fn plain_request(alloc: Global, path: &[u8], body: &[u8]) -> Option<Request>
    ensures { IfSome result (λ request. request_of Client path.now body.now ≡ Ok request) }
{
    if is_path(path, Path::Range) {
        read_from(alloc, body)
    } else if is_path(path, Path::Put) {
        put_from(alloc, body)
    } else if is_path(path, Path::Watch) {
        watch_from(alloc, body)
    } else {
        None
    }
}
