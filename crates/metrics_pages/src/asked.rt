ghost use Rattle.std.specs.Prelude.{◌≡◌, ◌<◌, ◌==◌, IfSome, length};
ghost use Rattle.std.specs.List.{position};
ghost use Rattle.metrics_pages.specs.Asked as spec;

/// What a request to the second listener asks for.
#[derive(Clone, Copy, Debug, PartialEq, Eq)]
pub enum Asked {
    /// The figures, for a monitor.
    Metrics,
    /// Whether some member answers.
    Health,
    /// The figures, for a browser.
    Page,
    NoSuchPath,
    NoSuchMethod,
}

/// Where the first question mark of a path stands.
fn query(path: &[u8]) -> Option<usize>
    ensures within { IfSome result (λ end. end < length path.now) }
    ensures place { result ≡ position (λ b. b == 63) path.now }
{
    path.iter().position(|byte| *byte == b'?')
}

/// The path up to its question mark, where it has one.
fn bare(path: &[u8]) -> &[u8]
    ensures { result.now ≡ spec.bare path.entry.now }
{
    match query(path) {
        Some(end) => &path[..end],
        None => path,
    }
}

fn by_path(path: &[u8]) -> Asked
    ensures { result ≡ spec.by_path path.now }
{
    if path == b"/metrics".as_slice() {
        Asked::Metrics
    } else if path == b"/health".as_slice() {
        Asked::Health
    } else if path == b"/".as_slice() {
        Asked::Page
    } else {
        Asked::NoSuchPath
    }
}

/// What a request with this method and this path asks for.
pub fn asked_of(method: &[u8], path: &[u8]) -> Asked
    ensures { result ≡ spec.asked_of method.now path.now }
{
    if method == b"GET".as_slice() || method == b"HEAD".as_slice() {
        by_path(bare(path))
    } else {
        Asked::NoSuchMethod
    }
}
