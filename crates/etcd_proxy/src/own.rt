// What a server tells of itself as the one member of its cluster.

use etcd_types::{Bytes, NoMemory};
use http_talk::OwnMember;
use libc::gethostname;
use start_words::StartSettings;
use std::alloc::Global;

/// No name of a machine has more bytes (POSIX, HOST_NAME_MAX).
const LONGEST_BYTES: usize = 256;

/// The name of the machine, or the program's where the system tells none.
fn own_name(alloc: Global) -> Result<Bytes, NoMemory> {
    let mut room = [0u8; LONGEST_BYTES];
    let is_told = gethostname(&mut room) == 0;
    let end = room.iter().position(|byte| *byte == 0).unwrap_or(0);
    let name = room.get(..end).unwrap_or(&[]);
    if is_told && !name.is_empty() {
        Bytes::from_slice(alloc, name)
    } else {
        Bytes::from_slice(alloc, b"etcd_proxy")
    }
}

/// An address as an URL. At a port alone the machine is reached by its name.
fn url_of(alloc: Global, name: &[u8], address: &[u8]) -> Result<Bytes, NoMemory> {
    if address.starts_with(b"http://") || address.starts_with(b"https://") {
        return Bytes::from_slice(alloc, address);
    }
    let mut url = Vec::from_slice(alloc, b"http://")?;
    if address.starts_with(b":") {
        url.extend_from_slice(name)?;
    }
    url.extend_from_slice(address)?;
    Ok(Bytes::from_vec(url))
}

/// A server with these settings: its name is the machine's, and clients come to the address that they are told, or to where they are served.
pub(crate) fn own_member(alloc: Global, settings: &StartSettings) -> Result<OwnMember, NoMemory> {
    let name = own_name(alloc)?;
    let address = if settings.advertise.is_empty() {
        settings.listen.as_slice()
    } else {
        settings.advertise.as_slice()
    };
    let url = url_of(alloc, name.as_slice(), address)?;
    Ok(OwnMember { name, url })
}
