//! How a run of the program ends, and how a stage of a check ends.
use crate::diag::Diag;
use crate::list::List;

/// How a run ended. The exit status of the program is the number of the variant, from 0.
#[derive(Clone, Copy, Debug, PartialEq, Eq, PartialOrd, Ord, Hash)]
pub enum Status {
    Done,
    Failed,
    Usage,
    ReadFault,
    NoMemory,
    WriteFault,
    StoreFault,
    BadScript,
}

/// Why a stage gave no result: its diagnostics, or want of memory.
#[derive(Debug, Drop)]
pub enum StageErr {
    Diags(List<Diag>),
    NoMemory,
}
