/// One step of a hub's machine: the event, the clock's reading at the step in milliseconds, and what the machine
/// answered. No value of it is made: histories exist in contracts alone.
#[derive(Drop)]
pub struct Entry<E, O, F> {
    pub event: E,
    pub now: u64,
    pub answer: Result<O, F>,
}
