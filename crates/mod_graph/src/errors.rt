//! The diagnostics of the graph stage.
ghost use Rattle.std.specs.Prelude.{◌≡◌, ◌<◌, ◌++◌, ◌∷◌, [], true, false, IfOk, OnOk, Some, codes, get_or, is_some, length, slice_get};
ghost use Rattle.std.specs.List.{find};
ghost use Rattle.std.specs.Option.{option_copied};
ghost use Rattle.numbered_nodes.specs.Bits.{has, room_for};
ghost use Rattle.numbered_nodes.specs.Edges.{HaveRoom};
ghost use Rattle.mod_graph.specs.Entries.{diag_at};
ghost use Rattle.mod_graph.specs.Errors.{errors_of, in_order};
ghost use Rattle.mod_graph.specs.Errors as errors_spec;
ghost use Rattle.mod_graph.specs.Places.{AreNumbers};
ghost use Rattle.mod_graph.specs.Rows.{AreRows};
ghost use Rattle.package_graph.specs.Tables.{AreTables};
ghost use Rattle.mod_graph.specs.Told as told;
ghost use Rattle.package_graph.specs.declared.modules.PackageModule.{PackageModule as ModuleOfPackage};
ghost use Rattle.std.specs.Prelude.{List as Row};

use crate::entries::Entry;
use crate::found::{Found, find_module};
use crate::places::{Numbers, node_number};
use crate::rows::Rows;
use hs_syntax::header::ImportItem;
use mk_base::diag::Diag;
use mk_base::list::List;
use mk_base::memory::NoMemory;
use mk_base::name::Node;
use mk_base::place::Pos;
use mk_base::plain::copied_items;
use mk_base::text::Text;
use numbered_nodes::sets::NumberSet;
use package_graph::packages::Packages;
use std::alloc::Global;

/// The first place of a source.
const START: Pos = Pos { line: 1, col: 1 };

/// Puts a diagnostic behind others: its text is a name between two others.
fn tell(
    alloc: Global,
    diags: &mut Vec<Diag>,
    at: Pos,
    code: u8,
    before: &[u8],
    name: &Text,
    after: &[u8],
) -> Result<(), NoMemory>
    ensures { OnOk result (diags.new.items ≡ diags.old.items ++ diag_at at code (before.now ++ (name.now ++ after.now)) ∷ []) }
{
    let mut text = Text::from_slice(alloc, before)?;
    text.push_slice(name.as_slice())?;
    text.push_slice(after)?;
    diags.push(Diag { at, code, text })?;
    Ok(())
}

/// Tells that the imported module isn't there.
fn tell_not_found(alloc: Global, diags: &mut Vec<Diag>, import: &ImportItem) -> Result<(), NoMemory>
    ensures { OnOk result (diags.new.items ≡ diags.old.items ++ errors_spec.not_found import.now) }
{
    let name = &import.module;
    tell(
        alloc,
        diags,
        name.at,
        10,
        b"module ",
        &name.text,
        b" not found",
    )
}

/// Tells that the imported module has no boot file.
fn tell_no_boot(alloc: Global, diags: &mut Vec<Diag>, import: &ImportItem) -> Result<(), NoMemory>
    ensures { OnOk result (diags.new.items ≡ diags.old.items ++ errors_spec.no_boot import.now) }
{
    let name = &import.module;
    tell(
        alloc,
        diags,
        name.at,
        12,
        b"module ",
        &name.text,
        b" has no boot file",
    )
}

/// Tells of a cycle through a module.
fn tell_through(alloc: Global, diags: &mut Vec<Diag>, at: Pos, name: &Text) -> Result<(), NoMemory>
    ensures { OnOk result (diags.new.items ≡ diags.old.items ++ diag_at at 11 (errors_spec.cycle_text name.now) ∷ []) }
{
    tell(alloc, diags, at, 11, b"import cycle through ", name, b"")
}

/// Whether the tree has the module's boot node, or its real one.
fn has_node(numbers: &Numbers, boot: bool, name: &Text) -> bool
    ensures { result ≡ told.has_in numbers.now boot name.now }
{
    node_number(numbers, boot, name).is_some()
}

/// Tells what is wrong with an import of a module of the tree.
fn tell_in_tree(
    alloc: Global,
    diags: &mut Vec<Diag>,
    numbers: &Numbers,
    import: &ImportItem,
) -> Result<(), NoMemory>
    ensures { OnOk result (diags.new.items ≡ diags.old.items ++ told.told_in_tree numbers.now import.now) }
{
    if has_node(numbers, import.source, &import.module.text) {
        return Ok(());
    }
    if import.source {
        tell_no_boot(alloc, diags, import)
    } else {
        tell_not_found(alloc, diags, import)
    }
}

/// Tells of an import with SOURCE of a module outside the tree.
fn tell_source(alloc: Global, diags: &mut Vec<Diag>, import: &ImportItem) -> Result<(), NoMemory>
    ensures { OnOk result (diags.new.items ≡ diags.old.items ++ told.told_source import.now) }
{
    if import.source {
        tell_no_boot(alloc, diags, import)
    } else {
        Ok(())
    }
}

/// The name that a table has for a place, where it has one.
fn name_in(names: &[Option<Text>], place: usize) -> Option<&Text>
    ensures { option_copied result ≡ told.name_in names.now place }
{
    match names.get(place) {
        Some(Some(name)) => Some(name),
        _ => None,
    }
}

/// Tells of damaged or dangling modules among what an imported module of a package reaches.
fn tell_faults(
    alloc: Global,
    diags: &mut Vec<Diag>,
    packages: &Packages,
    place: usize,
    import: &ImportItem,
) -> Result<(), NoMemory>
    ensures { OnOk result (diags.new.items ≡ diags.old.items ++ told.told_faults packages.now place import.now) }
{
    let at = import.module.at;
    if let Some(name) = name_in(&packages.damaged, place) {
        return tell(
            alloc,
            diags,
            at,
            14,
            b"package interface ",
            name,
            b" is damaged",
        );
    }
    match name_in(&packages.dangling, place) {
        Some(name) => tell(
            alloc,
            diags,
            at,
            15,
            b"package interface ",
            name,
            b" names what is not there",
        ),
        None => Ok(()),
    }
}

/// Tells what is wrong with an import.
fn tell_import(
    alloc: Global,
    diags: &mut Vec<Diag>,
    numbers: &Numbers,
    packages: &Packages,
    import: &ImportItem,
) -> Result<(), NoMemory>
    ensures { OnOk result (diags.new.items ≡ diags.old.items ++ told.told_import numbers.now packages.now import.now) }
{
    match find_module(numbers, packages, &import.module.text) {
        Found::Tree => tell_in_tree(alloc, diags, numbers, import),
        Found::Package(place) => {
            tell_source(alloc, diags, import)?;
            tell_faults(alloc, diags, packages, place, import)
        }
        Found::Prim => tell_source(alloc, diags, import),
        Found::Nowhere => tell_not_found(alloc, diags, import),
    }
}

/// Tells what is wrong with imports.
fn tell_imports(
    alloc: Global,
    diags: &mut Vec<Diag>,
    numbers: &Numbers,
    packages: &Packages,
    imports: &[ImportItem],
) -> Result<(), NoMemory>
    ensures { OnOk result (diags.new.items ≡ diags.old.items ++ told.told_imports numbers.now packages.now imports.now) }
{
    for import in imports {
        tell_import(alloc, diags, numbers, packages, import)?;
    }
    Ok(())
}

/// Tells of a boot node without its real node.
fn tell_alone(
    alloc: Global,
    diags: &mut Vec<Diag>,
    numbers: &Numbers,
    node: &Node,
) -> Result<(), NoMemory>
    ensures { OnOk result (diags.new.items ≡ diags.old.items ++ told.told_alone numbers.now node.now) }
{
    let name = &node.module.text;
    if node.boot && !has_node(numbers, false, name) {
        tell(alloc, diags, START, 10, b"module ", name, b" not found")
    } else {
        Ok(())
    }
}

/// Whether an import leads to a node that reaches the one with this number.
fn leads_back(numbers: &Numbers, reach: &[NumberSet], number: usize, import: &ImportItem) -> bool
    requires number { number < length reach.now }
    requires room { HaveRoom (room_for (length reach.now)) reach.now }
    ensures { result ≡ told.back_in numbers.now reach.now number import.now }
{
    match node_number(numbers, import.source, &import.module.text) {
        Some(target) => match reach.get(target) {
            Some(row) => row.contains(number),
            None => false,
        },
        None => false,
    }
}

/// The first import that leads to a node that reaches the one with this number.
fn first_back<'a>(
    numbers: &Numbers,
    reach: &[NumberSet],
    number: usize,
    imports: &'a [ImportItem],
) -> Option<&'a ImportItem>
    requires number { number < length reach.now }
    requires room { HaveRoom (room_for (length reach.now)) reach.now }
    ensures { option_copied result ≡ find (told.back_in numbers.now reach.now number) imports.now }
{
    for import in imports {
        if leads_back(numbers, reach, number, import) {
            return Some(import);
        }
    }
    None
}

/// The first import with SOURCE of a module of this name.
fn first_of_boot<'a>(name: &Text, imports: &'a [ImportItem]) -> Option<&'a ImportItem>
    ensures { option_copied result ≡ find (told.asks_boot_of name.now) imports.now }
{
    imports
        .iter()
        .find(|import| import.source && import.module.text == *name)
}

/// Tells of a real node that imports its own boot node.
fn tell_own_boot(
    alloc: Global,
    diags: &mut Vec<Diag>,
    numbers: &Numbers,
    entry: &Entry,
) -> Result<(), NoMemory>
    ensures { OnOk result (diags.new.items ≡ diags.old.items ++ told.told_own_boot numbers.now entry.now) }
{
    let name = &entry.node.module.text;
    if entry.node.boot || !has_node(numbers, true, name) {
        return Ok(());
    }
    match first_of_boot(name, entry.imports.as_slice()) {
        Some(import) => tell_through(alloc, diags, import.module.at, name),
        None => Ok(()),
    }
}

/// Tells of a cycle that the node with this number is in: at its first import that leads into it, or at 1:1.
fn tell_cycle(
    alloc: Global,
    diags: &mut Vec<Diag>,
    numbers: &Numbers,
    reach: &[NumberSet],
    number: usize,
    entry: &Entry,
) -> Result<(), NoMemory>
    requires number { number < length reach.now }
    requires room { HaveRoom (room_for (length reach.now)) reach.now }
    ensures { OnOk result (diags.new.items ≡ diags.old.items ++ told.told_cycle numbers.now reach.now number entry.now) }
{
    if !reach[number].contains(number) {
        return tell_own_boot(alloc, diags, numbers, entry);
    }
    match first_back(numbers, reach, number, entry.imports.as_slice()) {
        Some(import) => tell_through(alloc, diags, import.module.at, &import.module.text),
        None => tell_through(alloc, diags, START, &entry.node.module.text),
    }
}

/// Puts diagnostics in order, each once.
fn put_in_order(diags: &mut Vec<Diag>)
    ensures { diags.new.items ≡ in_order diags.old.items }
{
    diags.sort_unstable();
    diags.dedup();
}

/// The diagnostics of the node with this number, in the order of their places, numbers and texts, each once.
pub fn node_errors(
    alloc: Global,
    entries: &[Entry],
    number: usize,
    numbers: &Numbers,
    rows: &Rows,
    packages: &Packages,
) -> Result<List<Diag>, NoMemory>
    requires number { number < length entries.now }
    requires numbers { AreNumbers numbers.now entries.now }
    requires rows { AreRows rows.now entries.now }
    ensures { IfOk result (λ ds. (ps : Row ModuleOfPackage) → AreTables packages.now ps → ds ≡ errors_of entries.now ps number) }
{
    let entry = &entries[number];
    let mut diags = copied_items(alloc, entry.own.as_slice())?;
    tell_alone(alloc, &mut diags, numbers, &entry.node)?;
    tell_imports(
        alloc,
        &mut diags,
        numbers,
        packages,
        entry.imports.as_slice(),
    )?;
    tell_cycle(alloc, &mut diags, numbers, &rows.reach, number, entry)?;
    put_in_order(&mut diags);
    Ok(List::from_vec(diags))
}
