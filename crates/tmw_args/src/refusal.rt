/// Why the words of a command line give no order.
#[derive(Debug, Drop)]
pub enum Refusal {
    /// They ask for help: its text.
    Help(String),
    /// They ask for the program's version.
    Version,
    /// They are no command line of the program: the text that tells what is wrong with them.
    Usage(String),
    /// An allocation failed.
    Memory,
}
