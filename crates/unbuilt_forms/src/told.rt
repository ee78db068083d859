//! The diagnostic of a form that isn't built yet, and what a boot file isn't told beside it.
ghost use Rattle.std.specs.Prelude.{◌≡◌, IfOk, filter};
ghost use Rattle.unbuilt_forms.specs.Unbuilt as spec;

use mk_base::diag::Diag;
use mk_base::list::List;
use mk_base::memory::NoMemory;
use mk_base::name::Node;
use mk_base::place::Pos;
use mk_base::text::Text;
use std::alloc::Global;

/// The diagnostic of a part of a source, or of the source, that isn't of the form that is built.
pub fn unbuilt(alloc: Global, at: Pos) -> Result<Diag, NoMemory>
    ensures { IfOk result (λ d. d ≡ spec.unbuilt at) }
{
    let text = Text::from_slice(alloc, b"this form is not built yet")?;
    Ok(Diag { at, code: 0, text })
}

/// The diagnostics of the graph stage that are told of a node: of a boot file not that its real file isn't there.
pub fn told(alloc: Global, node: &Node, diags: &[Diag]) -> Result<List<Diag>, NoMemory>
    ensures { IfOk result (λ ds. ds ≡ filter (spec.is_told node.now) diags.now) }
{
    let mut told = List::new(alloc);
    for diag in diags {
        if !(node.boot && diag.code == 10) {
            told.push(diag.copy(alloc)?)?;
        }
    }
    Ok(told)
}
