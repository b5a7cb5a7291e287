// What a kernel has accepted.
use flow_base::PyText;

/// A line that changed the session: the text of a cell, or a run of a cell with its allowance of steps.
#[derive(Drop)]
pub enum Accepted {
    Edit { cell: PyText, text: PyText },
    Run { cell: PyText, steps: u32 },
}
