// What a step of the pass answers.

// A value, the place after a part or an id, with the number of changes so far. In its stead stands the place of the id
// byte for which no id is left.
#[derive(Drop)]
pub(crate) struct Step {
    pub(crate) value: usize,
    pub(crate) changes: usize,
}
