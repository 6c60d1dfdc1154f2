/// What a call gives for a formal: what is made of its argument, a flag, or nothing where it is
/// left out.
#[derive(Drop)]
pub enum Slot<T> {
    Given(T),
    Flag(bool),
    Absent,
}
