/// A step of the core: a turn of the strip of a number, or the query of a number.
#[derive(Clone, Copy)]
pub enum Step {
    Turn(u32),
    Ask(u32),
}
