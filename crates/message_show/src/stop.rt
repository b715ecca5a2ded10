//! Why showing stops at a line.
use script_words::LineWhy;

/// Why showing stops at a line: it is bad, or there was no memory for what is shown of it.
#[derive(Clone, Copy)]
pub enum Stop {
    Bad(LineWhy),
    NoMemory,
}
