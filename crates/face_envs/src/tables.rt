//! The tables of an environment, by which no question goes through a list of faces.
ghost use Rattle.std.specs.Prelude.{◌≡◌, ◌++◌, ◌∷◌, ◌&&◌, [], ℕ, OnOk, if◌then◌else◌};
ghost use Rattle.indexmap.specs.IndexMap.{get};
ghost use Rattle.mk_base.specs.declared.name.Name.{Name as FullName};
ghost use Rattle.mk_base.specs.declared.name.ModName.{ModName as ModuleName};
ghost use Rattle.face_model.specs.Environments.{same_name};
ghost use Rattle.face_envs.specs.Tables.{row_of, inst_row, decls_from, same_module, is_later as comes_later, insts_from, module_at, put_all, put_behind};

use face_model::decl::Decl;
use face_model::inst::Inst;
use indexmap::IndexMap;
use mk_base::memory::NoMemory;
use mk_base::name::{ModName, Name};
use std::alloc::Global;

/// Where declarations stand: the place of the face, and the place in it.
pub type DeclTable = IndexMap<Name, Vec<(usize, usize)>>;

/// Where the faces of modules stand.
pub type FaceTable = IndexMap<ModName, Vec<usize>>;

/// Where the instances of classes at type constructors stand, in the order of the names of their modules.
pub type InstTable = IndexMap<Name, HeadTable>;

/// Where the instances of one class stand, by type constructor.
pub type HeadTable = IndexMap<Name, Vec<InstPlace>>;

/// Where an instance stands: the place of the face, and the place in it; and the module of the face.
#[derive(Debug, Drop)]
pub struct InstPlace {
    /// The name of the module.
    pub module: ModName,
    /// The place of the face.
    pub face: usize,
    /// The place of the instance in the face.
    pub place: usize,
}

/// Gives a name one place more.
pub fn add_decl(
    alloc: Global,
    table: &mut DeclTable,
    name: &Name,
    place: (usize, usize),
) -> Result<(), NoMemory>
    ensures { OnOk result ((n : FullName) → row_of (get same_name table.new n) ≡ row_of (get same_name table.old n) ++ (if same_name n name.now then place ∷ [] else [])) }
{
    match table.get_mut(name) {
        Some(row) => {
            row.push(place)?;
        }
        None => {
            let mut row = Vec::new(alloc);
            row.push(place)?;
            table.insert(name.copy(alloc)?, row)?;
        }
    }
    Ok(())
}

/// Gives the declarations of a face their places.
pub fn add_decls(
    alloc: Global,
    table: &mut DeclTable,
    face: usize,
    decls: &[Decl],
) -> Result<(), NoMemory>
    ensures { OnOk result ((n : FullName) → row_of (get same_name table.new n) ≡ row_of (get same_name table.old n) ++ decls_from n face 0 decls.now) }
{
    for (place, decl) in decls.iter().enumerate() {
        add_decl(alloc, table, &decl.name, (face, place))?;
    }
    Ok(())
}

/// Gives a module the place of one face more.
pub fn add_face(
    alloc: Global,
    table: &mut FaceTable,
    module: &ModName,
    place: usize,
) -> Result<(), NoMemory>
    ensures { OnOk result ((m : ModuleName) → row_of (get same_module table.new m) ≡ row_of (get same_module table.old m) ++ (if same_module m «module».now then place ∷ [] else [])) }
{
    match table.get_mut(module) {
        Some(row) => {
            row.push(place)?;
        }
        None => {
            let mut row = Vec::new(alloc);
            row.push(place)?;
            table.insert(module.copy(alloc)?, row)?;
        }
    }
    Ok(())
}

/// Whether a module's name comes behind another's.
pub fn is_later(a: &ModName, b: &ModName) -> bool
    ensures { result ≡ comes_later a.now b.now }
{
    a.text > b.text
}

/// Puts an instance behind all that stand in modules up to its own by name.
fn put_inst(row: &mut Vec<InstPlace>, inst: InstPlace) -> Result<(), NoMemory>
    ensures { OnOk result (row.new.items ≡ put_behind module_at inst row.old.items) }
{
    let mut at = 0;
    while at < row.len() && !is_later(&row[at].module, &inst.module) {
        at += 1;
    }
    row.insert(at, inst)?;
    Ok(())
}

/// Gives a type constructor one instance more.
fn add_head(
    alloc: Global,
    table: &mut HeadTable,
    head: &Name,
    inst: InstPlace,
) -> Result<(), NoMemory>
    ensures { OnOk result ((h : FullName) → row_of (get same_name table.new h) ≡ (if same_name h head.now then put_behind module_at inst (row_of (get same_name table.old h)) else row_of (get same_name table.old h))) }
{
    match table.get_mut(head) {
        Some(row) => {
            put_inst(row, inst)?;
        }
        None => {
            let mut row = Vec::new(alloc);
            row.push(inst)?;
            table.insert(head.copy(alloc)?, row)?;
        }
    }
    Ok(())
}

/// Gives a class at a type constructor one instance more.
fn add_inst(
    alloc: Global,
    table: &mut InstTable,
    class: &Name,
    head: &Name,
    inst: InstPlace,
) -> Result<(), NoMemory>
    ensures { OnOk result ((c h : FullName) → inst_row (get same_name table.new c) h ≡ (if same_name c class.now && same_name h head.now then put_behind module_at inst (inst_row (get same_name table.old c) h) else inst_row (get same_name table.old c) h)) }
{
    match table.get_mut(class) {
        Some(heads) => {
            add_head(alloc, heads, head, inst)?;
        }
        None => {
            let mut heads = IndexMap::new(alloc);
            add_head(alloc, &mut heads, head, inst)?;
            table.insert(class.copy(alloc)?, heads)?;
        }
    }
    Ok(())
}

/// Gives the instances of a face their places.
pub fn add_insts(
    alloc: Global,
    table: &mut InstTable,
    module: &ModName,
    face: usize,
    insts: &[Inst],
) -> Result<(), NoMemory>
    ensures { OnOk result ((c h : FullName) → inst_row (get same_name table.new c) h ≡ put_all module_at (insts_from c h «module».now face 0 insts.now) (inst_row (get same_name table.old c) h)) }
{
    for (place, inst) in insts.iter().enumerate() {
        let module = module.copy(alloc)?;
        let at = InstPlace {
            module,
            face,
            place,
        };
        add_inst(alloc, table, &inst.class, &inst.head, at)?;
    }
    Ok(())
}
