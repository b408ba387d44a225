use outside::CallKind;

/// The status of an answer stands behind `HTTP/1.1 `.
const STATUS: usize = 9;

/// What etcd says where it wants to know of a user and was told of none.
const EMPTY: &[u8] = b"user name is empty";

fn begins_at(bytes: &[u8], start: usize, text: &[u8]) -> bool {
    match bytes.get(start..) {
        Some(rest) => rest.starts_with(text),
        None => false,
    }
}

fn has(bytes: &[u8], text: &[u8]) -> bool {
    for start in 0..bytes.len() {
        if begins_at(bytes, start, text) {
            return true;
        }
    }
    false
}

/// Whether an answer that begins so refuses its call for want of a user, or of what that user may do: etcd's gateway has a status for each of
/// the codes 16 and 7, and a text where no user is named at all. Who asks a member whether it answers sees all but the first himself.
pub(crate) fn wants_user(kind: CallKind, front: &[u8]) -> bool {
    let Some(status) = front.get(STATUS..STATUS + 3) else {
        return false;
    };
    if status == b"401".as_slice() {
        return true;
    }
    let is_empty = status == b"400".as_slice() && has(front, EMPTY);
    kind != CallKind::Asks && (is_empty || status == b"403".as_slice())
}
