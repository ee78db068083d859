//! What a module declares and what its names refer to.
ghost use Rattle.std.specs.Prelude.{◌≡◌, ◌<◌, IfOk, length};
ghost use Rattle.std.specs.List.{AllByRecursion};
ghost use Rattle.plain_scope.specs.Ordered.{DiagnosticsAreOrdered};
ghost use Rattle.plain_scope.specs.Scope.{check_of, contents_at};

use crate::lines::check_datas;
use crate::table::types_in_scope;
use mk_base::diag::Diag;
use mk_base::list::List;
use mk_base::memory::NoMemory;
use mk_base::name::Name;
use mk_base::text::Text;
use plain_form::form::Written;
use std::alloc::Global;

/// A data type with its constructor and the types of its fields, each by its full name.
#[derive(Debug, Drop)]
pub struct DataDecl {
    pub ty: Text,
    pub con: Text,
    pub fields: List<Name>,
}

/// What a sound module offers: its name, and its data types in the order of its source.
#[derive(Debug, Drop)]
pub struct Content {
    pub module: Text,
    pub datas: List<DataDecl>,
}

/// A module that was checked: sound, or with its diagnostics, ordered by place.
#[derive(Debug, Drop)]
pub enum Checked {
    Sound(Content),
    Wrong(List<Diag>),
}

/// Checks a module of the form. Its imports are the contents at these places.
pub fn check(
    alloc: Global,
    unit: &[u8],
    name: &[u8],
    written: &Written,
    contents: &[Content],
    imports: &[usize],
) -> Result<Checked, NoMemory>
    requires within { AllByRecursion (λ i. i < length contents.now) imports.now }
    ensures { IfOk result (λ c. c ≡ check_of unit.now name.now written.now (contents_at contents.now imports.now)) }
{
    let types = types_in_scope(alloc, unit, name, written, contents, imports)?;
    let mut diags = List::new(alloc);
    let datas = check_datas(alloc, &types, written.datas.as_slice(), &mut diags)?;
    if !diags.is_empty() {
        return Ok(Checked::Wrong(diags));
    }
    let module = Text::from_slice(alloc, name)?;
    Ok(Checked::Sound(Content { module, datas }))
}

/// Where the names of a module stand in the order of their places, so do its diagnostics, no two at one place.
pub fn diagnostics_are_ordered()
    ensures { DiagnosticsAreOrdered }
{}
