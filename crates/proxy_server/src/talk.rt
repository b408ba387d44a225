use outside::TicketRange;

/// A conversation with a client: the turn that its requests step, the clock of the steps, what it reads and writes, and where its tickets
/// and words come from. Each part is lent for a time of its own.
#[derive(Drop)]
pub(crate) struct Talk<'t, 'c, 's, 'k, 'd, T, C, S, K, D> {
    pub(crate) turn: &'t mut T,
    pub(crate) clock: &'c mut C,
    pub(crate) source: &'s mut S,
    pub(crate) sink: &'k mut K,
    pub(crate) draw: &'d mut D,
    pub(crate) tickets: TicketRange,
}
