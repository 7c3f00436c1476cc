/// What each worker passes before a turn. It returns nothing, and no contract sees what it keeps.
pub trait Gate {
    /// Called with the ticket that was drawn and the strip that it is for.
    fn enter(&self, strip: u32, ticket: u64);
}

/// A gate that lets everyone through at once.
pub struct Open;

impl Gate for Open {
    fn enter(&self, _strip: u32, _ticket: u64) {}
}
