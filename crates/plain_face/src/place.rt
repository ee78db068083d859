//! Where a name stands in the table.
ghost use Rattle.std.specs.Prelude.{◌≡◌, ◌≤◌, length};
ghost use Rattle.std.specs.declared.cmp.Ordering.TheVariants.{Less};
ghost use Rattle.mk_base.specs.Order.{name_cmp};
ghost use Rattle.plain_scope.specs.Offered.{AreBefore};
ghost use Rattle.plain_face.specs.Interface.{place};

use mk_base::name::Name;

/// The place of a name in a table in order, counted from 0; the table's length for a name that has no place there.
pub fn place_of(names: &[Name], name: &Name) -> usize
    requires { AreBefore (λ a b. name_cmp a b ≡ Less) names.now }
    ensures at { result ≡ place names.now name.now }
    ensures bound { result ≤ length names.now }
{
    match names.binary_search(name) {
        Ok(at) => at,
        Err(_) => names.len(),
    }
}
