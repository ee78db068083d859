//! A reading of tokens, one by one.
use crate::form::{DataItem, Word, Written};
use mk_base::place::Pos;

/// What comes next.
#[derive(Debug, Drop)]
pub enum Stage {
    /// `module`
    Start,
    /// The module's name.
    Name,
    /// `where`
    Where,
    /// The opening brace.
    Open,
    /// A part: an import, a data type or nothing.
    Body,
    /// The name of an imported module, behind the `import` at this place.
    Import(Pos),
    /// What is behind the import at this place.
    Imported(Pos),
    /// A part behind a data type: a data type or nothing.
    Datas,
    /// The name of a data type.
    DataType,
    /// `=`, behind the name of a data type.
    DataEquals(Word),
    /// The constructor of a data type.
    DataCon(Word),
    /// A further field of a data type, or what is behind it.
    Fields(DataItem),
    /// Nothing.
    End,
}

/// What was read so far.
#[derive(Debug, Drop)]
pub struct State {
    pub stage: Stage,
    /// Whether layout put the opening brace.
    pub put: bool,
    pub written: Written,
}
