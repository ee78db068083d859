//! A binding, as its groups see it.
ghost use Rattle.std.specs.Prelude.{◌≡◌};
ghost use Rattle.bind_groups.specs.Depends.{unsigned_names};

use mk_base::list::List;
use mk_base::place::Pos;

/// A binding of a module or of a local group. Bindings stand in a list by `at`, and the number of a binding is its place
/// in that list, from 0. Where some names of one binding have a signature and others don't, `names` has the others alone.
#[derive(Debug, Drop)]
pub struct Binding {
    /// The names that it binds, as numbers.
    pub names: List<u32>,
    /// Whether all its names have a signature.
    pub signed: bool,
    /// The names that it uses, as numbers, each once or more often.
    pub uses: List<u32>,
    /// Where it stands in the source.
    pub at: Pos,
}

/// The names that a binding binds without a signature.
pub fn names_without_signature(binding: &Binding) -> &[u32]
    ensures { result.now ≡ unsigned_names binding.now }
{
    if binding.signed {
        &[]
    } else {
        binding.names.as_slice()
    }
}
