//! Where the names of modules are found.
ghost use Rattle.std.specs.Prelude.{◌≡◌};
ghost use Rattle.mod_graph.specs.Found.{as_found, found_in, found_outside};

use crate::places::{Numbers, module_number};
use mk_base::text::Text;
use package_graph::packages::{Packages, first_package};

/// Where the name of a module is found: in the tree, at a place among the modules of packages, as Prim, or nowhere.
#[derive(Clone, Copy)]
pub enum Found {
    Tree,
    Package(usize),
    Prim,
    Nowhere,
}

/// Where a name is found outside the tree: in the first package that has it, then as Prim.
fn find_outside(packages: &Packages, name: &Text) -> Found
    ensures { as_found result ≡ found_outside packages.now name.now }
{
    match first_package(packages, name) {
        Some(place) => Found::Package(place),
        None if name.as_slice() == b"Prim".as_slice() => Found::Prim,
        None => Found::Nowhere,
    }
}

/// Where a name is found: in the tree, then in the first package that has it, then as Prim.
pub fn find_module(numbers: &Numbers, packages: &Packages, name: &Text) -> Found
    ensures { as_found result ≡ found_in numbers.now packages.now name.now }
{
    if module_number(numbers, name).is_some() {
        Found::Tree
    } else {
        find_outside(packages, name)
    }
}
