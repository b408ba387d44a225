/// What a worker works with: the turn from which it draws jobs, the clock of the steps, the link on which it makes calls, and the spawner
/// to which it hands streams. Each part is lent for a time of its own.
#[derive(Drop)]
pub(crate) struct Desk<'t, 'c, 'l, 'p, T, C, L, P> {
    pub(crate) turn: &'t mut T,
    pub(crate) clock: &'c mut C,
    pub(crate) link: &'l mut L,
    pub(crate) spawner: &'p mut P,
}
