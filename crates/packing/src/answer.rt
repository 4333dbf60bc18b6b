// What packing answers.

// How many words were written into each list.
#[derive(Clone, Copy)]
pub struct Counts {
    pub lookups: usize,
    pub names: usize,
    pub tuples: usize,
    pub multiplicities: usize,
    pub flags: usize,
    pub elements: usize,
}
