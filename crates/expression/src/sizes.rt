// The sizes that no slice shows, and the limits on them.
ghost use Rattle.std.specs.Prelude.{◌≡◌};
ghost use Rattle.expression.specs.Limits.{cabinet, gateway};

#[derive(Clone, Copy)]
pub struct Shape {
    pub main_width: usize,
    pub height: usize,
    pub pre_width: usize,
    pub pre_height: usize,
}

#[derive(Clone, Copy)]
pub struct Limits {
    pub tables: usize,
    pub lookups: usize,
    pub tuples: usize,
    pub tuple_words: u32,
    pub nodes: usize,
    pub main_columns: usize,
    pub pre_columns: usize,
    pub public_values: usize,
    pub height: usize,
    pub name_bytes: u32,
    pub degree: u32,
    pub prefixes: usize,
    pub prefix_width: u32,
}

// The limits of SPECIFICATION, section 11: of the cabinet, and of the gateway, which differ in three.
#[tactic(auto, unfolding(crate::specs::Limits::cabinet))]
pub fn cabinet() -> Limits
    ensures { result ≡ cabinet }
{
    Limits {
        tables: 16,
        lookups: 64,
        tuples: 64,
        tuple_words: 8,
        nodes: 1024,
        main_columns: 256,
        pre_columns: 64,
        public_values: 64,
        height: 1048576,
        name_bytes: 16,
        degree: 255,
        prefixes: 256,
        prefix_width: 255,
    }
}

#[tactic(auto, unfolding(crate::specs::Limits::gateway))]
pub fn gateway() -> Limits
    ensures { result ≡ gateway }
{
    Limits {
        lookups: 8,
        tuple_words: 4,
        height: 4096,
        ..cabinet()
    }
}
