//! The modules of packages by their names, what they reach, and which of these can't be used.
ghost use Rattle.std.specs.Prelude.{length};
ghost use Rattle.numbered_nodes.specs.Bits.{room_for};
ghost use Rattle.numbered_nodes.specs.Edges.{HaveRoom};

pub use crate::tables::{first_package, packages_of};
use indexmap::IndexMap;
use mk_base::text::Text;
use numbered_nodes::sets::NumberSet;

/// The place of the first module of each name, a row for each module with itself and what it reaches, and for each the
/// least name of a damaged and of a dangling module among these.
#[derive(Drop)]
pub struct Packages {
    pub firsts: IndexMap<Text, usize>,
    pub rows: Vec<NumberSet>,
    pub damaged: Vec<Option<Text>>,
    pub dangling: Vec<Option<Text>>,
    pub ghost room: { HaveRoom (room_for (length rows.items)) rows.items },
}
