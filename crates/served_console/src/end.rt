//! How a console ends.

#[derive(Clone, Copy, Debug, PartialEq, Eq)]
pub enum ConsoleEnd {
    /// The input ended, the operator or another one stopped the run, or a node failed.
    Ended,
    /// The input could not be read.
    ReadFault,
    /// An answer could not be written whole.
    WriteFault,
}
