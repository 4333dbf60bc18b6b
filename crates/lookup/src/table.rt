// The lists of a table, as a caller lends them.
use expression::table::LentTraces;

// The lookups: their records of nine words, and what these count, lookup by lookup, in five lists.
#[derive(Clone, Copy)]
pub struct LentLookups<'a> {
    pub records: &'a [u32],
    pub names: &'a [u8],
    pub tuples: &'a [u32],
    pub multiplicities: &'a [u32],
    pub flags: &'a [u32],
    pub elements: &'a [u32],
}

#[derive(Clone, Copy)]
pub struct LentTable<'a> {
    pub traces: LentTraces<'a>,
    pub nodes: &'a [u32],
    pub lookups: LentLookups<'a>,
}
