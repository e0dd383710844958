// A record of the table, and how deep its lines are indented.
ghost use Rattle.std.specs.Prelude.{◌≤◌};

// Each level that is indented took a record.
#[derive(Clone, Copy)]
pub struct Node {
    pub index: usize,
    pub depth: usize,
    ghost shallow: { depth ≤ index },
}
