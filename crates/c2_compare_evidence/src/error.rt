// Why two files were not compared.

/// Why a comparison has no answer on its files.
#[derive(Clone, Copy, Debug, PartialEq, Eq)]
pub enum CompareError {
    /// One of the two sources failed.
    ReadFault,

    /// The report failed.
    WriteFault,

    /// A judge failed.
    JudgeFault,

    /// Memory ran out.
    NoMemory,
}
