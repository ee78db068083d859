//! A face with tables of its declarations and instances.
ghost use Rattle.std.specs.Prelude.{◌≡◌, ◌++◌, ◌≤◌, IfOk, OnOk, None, Some, length, filter, if◌then◌else◌, take, drop, slice_get};
ghost use Rattle.std.specs.Option.{option_copied, option_to_list};
ghost use Rattle.indexmap.specs.IndexMap.{get};
ghost use Rattle.face_model.specs.Environments.{is_inst, same_name};
ghost use Rattle.face_model.specs.Formed.{FaceFormed};
ghost use Rattle.own_env.specs.Own.{decl_of, at_row};
ghost use Rattle.face_envs.specs.Tables.{row_of, inst_row, same_module};

use face_envs::tables::{DeclTable, InstPlace, InstTable, add_decls, add_insts};
use face_model::decl::Decl;
use face_model::export::Export;
use face_model::face::Face;
use face_model::inst::Inst;
use indexmap::IndexMap;
use mk_base::list::List;
use mk_base::memory::NoMemory;
use mk_base::name::{ModName, Name};
use mk_base::plain::Plain;
use std::alloc::Global;
use std::marker::Model;

/// A face, which contracts see, with tables of where its declarations and instances stand.
#[derive(Drop)]
pub struct OwnFace<'a> {
    shown: &'a Face,
    decls: DeclTable,
    insts: InstTable,
}

impl<'a> Model for OwnFace<'a> {
    ghost use Rattle.std.specs.Coded.{codes};
    ghost use Rattle.mk_base.specs.contracts.ty.Ty as e;
    ghost use Rattle.mk_base.specs.contracts.kind.Kind as k;
    ghost use Rattle.face_model.specs.declared.face.Face.{Face as FaceOf};
    ghost use Rattle.own_env.specs.Own.{IsOwn};

    ghost Value = { FaceOf };

    ghost coded = { Prim.hlevel (codes, e.the_row.coded, k.the_row.coded) };

    ghost view = { λ o. o.shown.now };

    ghost invariant = { λ o. IsOwn o.shown.now o.decls o.insts };
}

/// The first place that a table has for a name.
fn first_place(table: &DeclTable, name: &Name) -> Option<(usize, usize)>
    ensures { result ≡ slice_get (row_of (get same_name table.now name.now)) 0 }
{
    match table.get(name) {
        None => None,
        Some(row) => row.first().copied(),
    }
}

/// The places that a table has for a class at a type constructor.
fn places<'a>(table: &'a InstTable, class: &Name, head: &Name) -> Option<&'a Vec<InstPlace>>
    ensures { row_of (option_copied result) ≡ inst_row (get same_name table.now class.now) head.now }
{
    match table.get(class) {
        None => None,
        Some(heads) => heads.get(head),
    }
}

/// A copy of the declaration at a place, where there is one.
fn copied(alloc: Global, decls: &List<Decl>, place: usize) -> Result<Option<Decl>, NoMemory>
    ensures { IfOk result (λ d. d ≡ slice_get decls.now place) }
{
    match decls.get(place) {
        Some(decl) => {
            let decl = decl.copy(alloc)?;
            Ok(Some(decl))
        }
        None => Ok(None),
    }
}

/// Puts a copy of the instance at a place behind others, where there is one.
fn put_found(
    alloc: Global,
    insts: &List<Inst>,
    place: usize,
    out: &mut List<Inst>,
) -> Result<(), NoMemory>
    ensures { OnOk result (out.new ≡ out.old ++ option_to_list (slice_get insts.now place)) }
{
    if let Some(inst) = insts.get(place) {
        out.push(inst.copy(alloc)?)?;
    }
    Ok(())
}

/// Puts copies of the instances at the places of a row behind others.
fn put_row(
    alloc: Global,
    insts: &List<Inst>,
    row: &[InstPlace],
    out: &mut List<Inst>,
) -> Result<(), NoMemory>
    ensures { OnOk result (out.new ≡ out.old ++ at_row insts.now row.now) }
{
    for at in row {
        put_found(alloc, insts, at.place, out)?;
    }
    Ok(())
}

impl<'a> OwnFace<'a> {
    /// The tables of a face, in which the constraints of an instance are on its variables and each type variable is
    /// below the count of its scheme or of its list of kinds. NoMemory where memory runs out.
    pub fn new(alloc: Global, face: &'a Face) -> Result<OwnFace<'a>, NoMemory>
        requires formed { FaceFormed face.now }
        ensures face { IfOk result (λ o. o ≡ face.now) }
    {
        let mut decls = IndexMap::new(alloc);
        add_decls(alloc, &mut decls, 0, face.decls.as_slice())?;
        let mut insts = IndexMap::new(alloc);
        let module = &face.node.module;
        add_insts(alloc, &mut insts, module, 0, face.insts.as_slice())?;
        Ok(OwnFace {
            shown: face,
            decls,
            insts,
        })
    }

    /// The face.
    pub fn face(&self) -> &Face
        ensures face { result.now ≡ self.now }
        ensures formed { FaceFormed self.now }
    {
        self.shown
    }

    /// The first declaration of a name; None exactly where the face has none.
    pub fn decl(&self, alloc: Global, name: &Name) -> Result<Option<Decl>, NoMemory>
        ensures { IfOk result (λ d. d ≡ decl_of name.now self.now.decls) }
    {
        match first_place(&self.decls, name) {
            None => Ok(None),
            Some(at) => copied(alloc, &self.shown.decls, at.1),
        }
    }

    /// What the face exports, where it is of this module.
    pub fn exports(&self, alloc: Global, module: &ModName) -> Result<Option<List<Export>>, NoMemory>
        ensures { IfOk result (λ es. es ≡ (if same_module «module».now self.now.node.module then Some self.now.exports else None)) }
    {
        if *module == self.shown.node.module {
            let exports = self.shown.exports.copy(alloc)?;
            return Ok(Some(exports));
        }
        Ok(None)
    }

    /// The places of the instances of a class at a type constructor.
    fn row(&self, class: &Name, head: &Name) -> Option<&Vec<InstPlace>>
        ensures found { at_row self.now.insts (row_of (option_copied result)) ≡ filter (is_inst class.now head.now) self.now.insts }
        ensures count { length (row_of (option_copied result)) ≡ length (filter (is_inst class.now head.now) self.now.insts) }
    {
        places(&self.insts, class, head)
    }

    /// How many instances of a class at a type constructor the face has.
    pub fn count(&self, class: &Name, head: &Name) -> usize
        ensures { result ≡ length (filter (is_inst class.now head.now) self.now.insts) }
    {
        match self.row(class, head) {
            None => 0,
            Some(row) => row.len(),
        }
    }

    /// Puts the instances of a class at a type constructor, by place, behind others.
    fn put_insts(
        &self,
        alloc: Global,
        class: &Name,
        head: &Name,
        out: &mut List<Inst>,
    ) -> Result<(), NoMemory>
        ensures { OnOk result (out.new ≡ out.old ++ filter (is_inst class.now head.now) self.now.insts) }
    {
        match self.row(class, head) {
            None => Ok(()),
            Some(row) => put_row(alloc, &self.shown.insts, row.as_slice(), out),
        }
    }

    /// The instances of a class at a type constructor put between others, behind so many of them.
    pub fn put_between(
        &self,
        alloc: Global,
        class: &Name,
        head: &Name,
        others: List<Inst>,
        front: usize,
    ) -> Result<List<Inst>, NoMemory>
        requires { front ≤ length others }
        ensures { IfOk result (λ is. is ≡ (take front others ++ filter (is_inst class.now head.now) self.now.insts) ++ drop front others) }
    {
        let mut items = others.into_vec();
        let mut rest = items.split_off(front)?;
        let mut insts = List::from_vec(items);
        self.put_insts(alloc, class, head, &mut insts)?;
        let mut items = insts.into_vec();
        items.append(&mut rest)?;
        Ok(List::from_vec(items))
    }
}
