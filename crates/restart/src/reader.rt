// How far a journal is read.
ghost use Rattle.std.specs.Prelude.{◌<◌, ◌≤◌};

// The whole commits so far and the values after them; of the commit that is being read, how many items, the lowest that may come next,
// and the values with these. Two lists of values, since they are of two moments.
#[derive(Clone, Copy)]
pub struct Reader {
    pub commits: u32,
    pub whole: [u32; 64],
    pub items: u32,
    pub next: u8,
    pub values: [u32; 64],
    ghost commits_small: { commits < 65536 },
    ghost items_below: { items ≤ next },
}
