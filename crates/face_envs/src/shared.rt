//! Faces that are kept once, with tables by which each question to some of them is answered.
ghost use Rattle.std.specs.Prelude.{◌≡◌, ◌++◌, ◌∷◌, ◌&&◌, [], filter, find, flat_map, length, not, slice_get, IfOk, OnOk};
ghost use Rattle.std.specs.Option.{option_copied, option_to_list};
ghost use Rattle.indexmap.specs.IndexMap.{get};
ghost use Rattle.face_model.specs.Environments.{AreFormed, decl_in, exports_in, exports_of, first_decl, first_print, insts_of, insts_up_to, print_in, same_name, with_prints};
ghost use Rattle.face_model.specs.Formed.{FaceFormed};
ghost use Rattle.face_envs.specs.Tables.{entry_at, inst_at as inst_at_place, inst_row, is_later as comes_later, row_of, same_module, seen_from};
ghost use Rattle.face_envs.specs.Sight.{IsRising, sees};

use crate::sight::{Seen, is_seen};
use crate::tables::{
    DeclTable, FaceTable, InstPlace, InstTable, add_decls, add_face, add_insts, is_later,
};
use face_model::decl::Decl;
use face_model::export::Export;
use face_model::face::Face;
use face_model::inst::Inst;
use indexmap::IndexMap;
use mk_base::fingerprint::Fingerprint;
use mk_base::list::List;
use mk_base::memory::NoMemory;
use mk_base::name::{ModName, Name};
use mk_base::plain::Plain;
use std::alloc::Global;
use std::marker::Model;

/// A face, with the fingerprints of its declarations in their order.
#[derive(Debug, Drop)]
pub struct KnownFace {
    face: Face,
    prints: List<Fingerprint>,
}

impl Model for KnownFace {
    ghost use Rattle.std.specs.Coded.{codes};
    ghost use Rattle.mk_base.specs.contracts.ty.Ty as e;
    ghost use Rattle.mk_base.specs.contracts.kind.Kind as k;
    ghost use Rattle.face_model.specs.Environments.{Known};

    ghost Value = { Known };

    ghost coded = { Prim.hlevel (codes, e.the_row.coded, k.the_row.coded) };

    ghost view = { λ k. record { face = k.face; prints = k.prints } };
}

impl KnownFace {
    /// A face and its fingerprints.
    pub fn new(face: Face, prints: List<Fingerprint>) -> KnownFace
        ensures { result ≡ record { face = face; prints = prints } }
    {
        KnownFace { face, prints }
    }

    /// The face.
    pub fn face(&self) -> &Face
        ensures { result.now ≡ self.now.face }
    {
        &self.face
    }

    /// The fingerprints.
    pub fn prints(&self) -> &List<Fingerprint>
        ensures { result.now ≡ self.now.prints }
    {
        &self.prints
    }
}

/// Faces that are kept once, in the order in which they came, with tables by which no question goes through the list.
#[derive(Drop)]
pub struct SharedFaces {
    kept: List<KnownFace>,
    decls: DeclTable,
    modules: FaceTable,
    insts: InstTable,
}

impl Model for SharedFaces {
    ghost use Rattle.std.specs.Coded.{codes};
    ghost use Rattle.mk_base.specs.contracts.ty.Ty as e;
    ghost use Rattle.mk_base.specs.contracts.kind.Kind as k;
    ghost use Rattle.face_model.specs.Environments.{Faces};
    ghost use Rattle.face_envs.specs.Tables.{AreTables};

    ghost Value = { Faces };

    ghost coded = { Prim.hlevel (codes, e.the_row.coded, k.the_row.coded) };

    ghost view = { λ s. s.kept };

    ghost invariant = { λ s. AreTables s.kept s.decls s.modules s.insts };
}

/// The declaration at a place of a face.
fn decl_at(kept: &List<KnownFace>, face: usize, place: usize) -> Option<&Decl>
    ensures { option_copied result ≡ decl_in (entry_at kept.now (face, place)) }
{
    match kept.get(face) {
        None => None,
        Some(known) => known.face().decls.get(place),
    }
}

/// The fingerprint of the declaration at a place.
fn known_print(known: &KnownFace, place: usize) -> Option<Fingerprint>
    ensures { result ≡ print_in (slice_get (with_prints known.now.face.decls known.now.prints) place) }
{
    if place < known.face().decls.len() {
        known.prints().get(place).copied()
    } else {
        None
    }
}

/// The fingerprint of the declaration at a place of a face.
fn print_at(kept: &List<KnownFace>, face: usize, place: usize) -> Option<Fingerprint>
    ensures { result ≡ print_in (entry_at kept.now (face, place)) }
{
    match kept.get(face) {
        None => None,
        Some(known) => known_print(known, place),
    }
}

/// The instance at a place.
fn inst_at<'a>(kept: &'a List<KnownFace>, at: &InstPlace) -> Option<&'a Inst>
    ensures { option_copied result ≡ inst_at_place kept.now at.now }
{
    match kept.get(at.face) {
        None => None,
        Some(known) => known.face().insts.get(at.place),
    }
}

/// The first of some places that is seen.
fn first_decl_place(row: &[(usize, usize)], seen: Seen<'_>) -> Option<(usize, usize)>
    requires { IsRising seen }
    ensures { result ≡ find (λ q. sees seen.entry q.0) row.now }
{
    for place in row {
        if is_seen(seen, place.0) {
            return Some(*place);
        }
    }
    None
}

/// The place of the first declaration of a name that is seen.
fn decl_place(table: &DeclTable, seen: Seen<'_>, name: &Name) -> Option<(usize, usize)>
    requires { IsRising seen }
    ensures { result ≡ find (λ q. sees seen.entry q.0) (row_of (get same_name table.now name.now)) }
{
    match table.get(name) {
        None => None,
        Some(row) => first_decl_place(row.as_slice(), seen),
    }
}

/// The first of some faces that is seen.
fn first_face_place(row: &[usize], seen: Seen<'_>) -> Option<usize>
    requires { IsRising seen }
    ensures { result ≡ find (λ f. sees seen.entry f) row.now }
{
    for place in row {
        if is_seen(seen, *place) {
            return Some(*place);
        }
    }
    None
}

/// The place of the first face of a module that is seen.
fn face_place(table: &FaceTable, seen: Seen<'_>, module: &ModName) -> Option<usize>
    requires { IsRising seen }
    ensures { result ≡ find (λ f. sees seen.entry f) (row_of (get same_module table.now «module».now)) }
{
    match table.get(module) {
        None => None,
        Some(row) => first_face_place(row.as_slice(), seen),
    }
}

impl SharedFaces {
    /// No faces.
    pub fn new(alloc: Global) -> SharedFaces
        ensures { result ≡ [] }
    {
        SharedFaces {
            kept: List::new(alloc),
            decls: IndexMap::new(alloc),
            modules: IndexMap::new(alloc),
            insts: IndexMap::new(alloc),
        }
    }

    /// How many faces there are.
    pub fn len(&self) -> usize
        ensures { result ≡ length self.now }
    {
        self.kept.len()
    }

    /// These faces and one more at their end, with the fingerprints of its declarations in their order. Where there are
    /// fewer of these, the last declarations have none.
    pub fn add(
        self,
        alloc: Global,
        face: Face,
        prints: List<Fingerprint>,
    ) -> Result<SharedFaces, NoMemory>
        requires { FaceFormed face }
        ensures { IfOk result (λ s. s ≡ self ++ record { face = face; prints = prints } ∷ []) }
    {
        let SharedFaces {
            mut kept,
            mut decls,
            mut modules,
            mut insts,
        } = self;
        let number = kept.len();
        let module = &face.node.module;
        add_decls(alloc, &mut decls, number, face.decls.as_slice())?;
        add_face(alloc, &mut modules, module, number)?;
        add_insts(alloc, &mut insts, module, number, face.insts.as_slice())?;
        kept.push(KnownFace::new(face, prints))?;
        Ok(SharedFaces {
            kept,
            decls,
            modules,
            insts,
        })
    }
}

/// A copy of a declaration, where there is one.
fn copied_decl(alloc: Global, decl: Option<&Decl>) -> Result<Option<Decl>, NoMemory>
    ensures { IfOk result (λ d. d ≡ option_copied decl.entry) }
{
    match decl {
        None => Ok(None),
        Some(decl) => Ok(Some(decl.copy(alloc)?)),
    }
}

/// A copy of what a face exports, where there is one.
fn copied_exports(
    alloc: Global,
    known: Option<&KnownFace>,
) -> Result<Option<List<Export>>, NoMemory>
    ensures { IfOk result (λ es. es ≡ exports_in (option_copied known.entry)) }
{
    match known {
        None => Ok(None),
        Some(known) => Ok(Some(known.face().exports.copy(alloc)?)),
    }
}

/// Puts a copy of the instance at a place behind others, where there is one.
fn put_found(
    alloc: Global,
    insts: &mut List<Inst>,
    kept: &List<KnownFace>,
    at: &InstPlace,
) -> Result<(), NoMemory>
    ensures { OnOk result (insts.new ≡ insts.old ++ option_to_list (inst_at_place kept.now at.now)) }
{
    if let Some(inst) = inst_at(kept, at) {
        insts.push(inst.copy(alloc)?)?;
    }
    Ok(())
}

/// The instances at some places, those that are seen.
fn insts_at(
    alloc: Global,
    kept: &List<KnownFace>,
    row: &[InstPlace],
    seen: Seen<'_>,
) -> Result<List<Inst>, NoMemory>
    requires { IsRising seen }
    ensures { IfOk result (λ is. is ≡ flat_map (λ b. option_to_list (inst_at_place kept.now b)) (filter (λ b. sees seen.entry b.face) row.now)) }
{
    let mut insts = List::new(alloc);
    for at in row {
        if is_seen(seen, at.face) {
            put_found(alloc, &mut insts, kept, at)?;
        }
    }
    Ok(insts)
}

/// How many of some places are seen and stand in modules up to one by name.
fn count_up_to(row: &[InstPlace], seen: Seen<'_>, module: &ModName) -> usize
    requires { IsRising seen }
    ensures { result ≡ length (filter (λ b. sees seen.entry b.face && not (comes_later b.«module» «module».now)) row.now) }
{
    let mut count = 0;
    for at in row {
        if is_seen(seen, at.face) && !is_later(&at.module, module) {
            count += 1;
        }
    }
    count
}

/// Where the instances of a class at a type constructor stand.
fn inst_places<'a>(table: &'a InstTable, class: &Name, head: &Name) -> Option<&'a Vec<InstPlace>>
    ensures { row_of (option_copied result) ≡ inst_row (get same_name table.now class.now) head.now }
{
    match table.get(class) {
        None => None,
        Some(heads) => heads.get(head),
    }
}

impl SharedFaces {
    /// The first declaration of a name among the faces that are asked; None exactly where they have none.
    pub fn lookup(
        &self,
        alloc: Global,
        seen: Seen<'_>,
        name: &Name,
    ) -> Result<Option<Decl>, NoMemory>
        requires { IsRising seen }
        ensures found { IfOk result (λ d. d ≡ first_decl (seen_from (sees seen.entry) 0 self.now) name.now) }
        ensures formed { AreFormed self.now }
    {
        match decl_place(&self.decls, seen, name) {
            None => Ok(None),
            Some((face, place)) => copied_decl(alloc, decl_at(&self.kept, face, place)),
        }
    }

    /// The fingerprint of the first declaration of a name among the faces that are asked; None exactly where they have
    /// no such declaration, or that one has no fingerprint.
    pub fn fingerprint(&self, seen: Seen<'_>, name: &Name) -> Option<Fingerprint>
        requires { IsRising seen }
        ensures found { result ≡ first_print (seen_from (sees seen.entry) 0 self.now) name.now }
        ensures formed { AreFormed self.now }
    {
        match decl_place(&self.decls, seen, name) {
            None => None,
            Some((face, place)) => print_at(&self.kept, face, place),
        }
    }

    /// What the first face of a module exports among those that are asked; None exactly where none of them is a face
    /// of it.
    pub fn exports(
        &self,
        alloc: Global,
        seen: Seen<'_>,
        module: &ModName,
    ) -> Result<Option<List<Export>>, NoMemory>
        requires { IsRising seen }
        ensures found { IfOk result (λ es. es ≡ exports_of (seen_from (sees seen.entry) 0 self.now) «module».now) }
        ensures formed { AreFormed self.now }
    {
        match face_place(&self.modules, seen, module) {
            None => Ok(None),
            Some(place) => copied_exports(alloc, self.kept.get(place)),
        }
    }

    /// The instances of a class at a type constructor in the faces that are asked, by the names of their modules and
    /// then by place.
    pub fn insts(
        &self,
        alloc: Global,
        seen: Seen<'_>,
        class: &Name,
        head: &Name,
    ) -> Result<List<Inst>, NoMemory>
        requires { IsRising seen }
        ensures found { IfOk result (λ is. is ≡ insts_of (seen_from (sees seen.entry) 0 self.now) class.now head.now) }
        ensures formed { AreFormed self.now }
    {
        match inst_places(&self.insts, class, head) {
            None => Ok(List::new(alloc)),
            Some(row) => insts_at(alloc, &self.kept, row.as_slice(), seen),
        }
    }

    /// How many of these instances stand in modules up to one by name.
    pub fn insts_up_to(&self, seen: Seen<'_>, class: &Name, head: &Name, module: &ModName) -> usize
        requires { IsRising seen }
        ensures found { result ≡ insts_up_to (seen_from (sees seen.entry) 0 self.now) class.now head.now «module».now }
        ensures formed { AreFormed self.now }
    {
        match inst_places(&self.insts, class, head) {
            None => 0,
            Some(row) => count_up_to(row.as_slice(), seen, module),
        }
    }
}
