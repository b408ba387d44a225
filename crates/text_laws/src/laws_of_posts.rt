//! Bodies that are posted: what is read of them has a text.
ghost use Rattle.text_laws.specs.Posts.Laws.{PostedRequestsFit, PostRefusalsAreBytes};

/// A body of bytes that is posted by a client is read as a request whose parts fit, with lists of no more members than the body has bytes,
/// or is refused with a fault that names bytes.
pub fn posted_bodies_have_texts()
    ensures requests { PostedRequestsFit }
    ensures refusals { PostRefusalsAreBytes }
{}
