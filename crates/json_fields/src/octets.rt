ghost use Rattle.std.specs.Prelude.{◌≡◌, IfOk, option_map, string_bytes};
ghost use Rattle.base64.specs.Engines.{standard, standard_no_pad, url_safe, url_safe_no_pad};
ghost use Rattle.base64.specs.GeneralPurpose.{encode_of};
ghost use Rattle.json_model.specs.Base64.{decoded, decoded_by};

use base64::DecodeAllocError;
use base64::engine::general_purpose::{
    GeneralPurpose, STANDARD, STANDARD_NO_PAD, URL_SAFE, URL_SAFE_NO_PAD,
};
use etcd_types::{Bytes, NoMemory};
use std::alloc::Global;

fn decoded_by(alloc: Global, engine: &GeneralPurpose, text: &str) -> Result<Option<Bytes>, NoMemory>
    ensures { IfOk result (λ bytes. bytes ≡ decoded_by engine.now text.now) }
{
    match engine.decode(alloc, text.as_bytes()) {
        Ok(bytes) => Ok(Some(Bytes::from_vec(bytes))),
        Err(DecodeAllocError::DecodeError(_)) => Ok(None),
        Err(DecodeAllocError::OutOfMemory) => Err(NoMemory),
    }
}

fn standard(alloc: Global, text: &str) -> Result<Option<Bytes>, NoMemory>
    ensures { IfOk result (λ bytes. bytes ≡ decoded_by standard text.now) }
{
    Ok(decoded_by(alloc, &STANDARD, text)?)
}

fn standard_no_pad(alloc: Global, text: &str) -> Result<Option<Bytes>, NoMemory>
    ensures { IfOk result (λ bytes. bytes ≡ decoded_by standard_no_pad text.now) }
{
    Ok(decoded_by(alloc, &STANDARD_NO_PAD, text)?)
}

fn url_safe(alloc: Global, text: &str) -> Result<Option<Bytes>, NoMemory>
    ensures { IfOk result (λ bytes. bytes ≡ decoded_by url_safe text.now) }
{
    Ok(decoded_by(alloc, &URL_SAFE, text)?)
}

fn url_safe_no_pad(alloc: Global, text: &str) -> Result<Option<Bytes>, NoMemory>
    ensures { IfOk result (λ bytes. bytes ≡ decoded_by url_safe_no_pad text.now) }
{
    Ok(decoded_by(alloc, &URL_SAFE_NO_PAD, text)?)
}

/// The bytes of a text in one of the two alphabets, with all padding or none.
pub(crate) fn decoded(alloc: Global, text: &str) -> Result<Option<Bytes>, NoMemory>
    ensures { IfOk result (λ bytes. bytes ≡ decoded text.now) }
{
    if let Some(bytes) = standard(alloc, text)? {
        return Ok(Some(bytes));
    }
    if let Some(bytes) = standard_no_pad(alloc, text)? {
        return Ok(Some(bytes));
    }
    if let Some(bytes) = url_safe(alloc, text)? {
        return Ok(Some(bytes));
    }
    Ok(url_safe_no_pad(alloc, text)?)
}

/// The text in the standard alphabet, with padding.
pub(crate) fn encoded(alloc: Global, bytes: &[u8]) -> Result<String, NoMemory>
    ensures { IfOk result (λ text. string_bytes text ≡ encode_of standard bytes.now) }
{
    Ok(STANDARD.encode(alloc, bytes)?)
}
