//! Writing declarations. Names are written as their places in a table where they rise.
ghost use Rattle.std.specs.Prelude.{◌≡◌, ◌+◌, ◌++◌, ◌∷◌, ◌≤◌, ◌<◌, ◌^◌, OnOk, length};
ghost use Rattle.std.specs.List.{AllByRecursion};
ghost use Rattle.wire.specs.Wire.{list_of};
ghost use Rattle.mk_base.specs.Order.{place_of_space};
ghost use Rattle.decl_codec.specs.Blobs as spec;
ghost use Rattle.decl_codec.specs.Blobs.{FixFits, fix, flag};
ghost use Rattle.decl_codec.specs.Exports as exports;
ghost use Rattle.decl_codec.specs.Names.{AreRising, NameFits, full_name, place};
ghost use Rattle.decl_codec.specs.Writing as fits;
ghost use Rattle.decl_codec.specs.Writing.{IsTable};

use face_model::decl::{Body, Constr, Decl, Field, Method};
use face_model::export::Export;
use face_model::fixity::{Assoc, Fixity};
use face_model::scheme::{Constraint, Scheme};
use mk_base::kind::Kind;
use mk_base::list::List;
use mk_base::memory::NoMemory;
use mk_base::name::{Name, Space};
use mk_base::ty::Ty;
use wire::put::{put_num, put_text};

/// What is written, with its names as places in a table.
pub trait Spelled: Drop {
    ghost use Rattle.std.specs.Prelude.{ℕ, List};
    ghost use Rattle.mk_base.specs.declared.name.Name as names;
    ghost use Rattle.decl_codec.specs.Writing.{IsTable};

    // its bytes, and when it has any
    ghost spells: { List names.Name → Self → List ℕ };

    ghost fits: { Self → Type 0 };

    /// Puts the bytes behind the others.
    fn put(&self, out: &mut List<u8>, names: &[Name]) -> Result<(), NoMemory>
        requires table { IsTable names.now }
        requires fits { fits self.now }
        ensures { OnOk result (out.new ≡ out.old ++ spells names.now self.now) };
}

/// Puts items behind the bytes.
fn put_each<T: Spelled>(out: &mut List<u8>, names: &[Name], items: &[T]) -> Result<(), NoMemory>
    requires table { IsTable names.now }
    requires fits { AllByRecursion T.fits items.now }
    ensures { OnOk result (out.new ≡ out.old ++ fits.each (T.spells names.now) items.now) }
{
    for item in items {
        item.put(out, names)?;
    }
    Ok(())
}

/// Puts a list behind the bytes: a count and the items.
pub fn put_items<T: Spelled>(
    out: &mut List<u8>,
    names: &[Name],
    items: &[T],
) -> Result<(), NoMemory>
    requires table { IsTable names.now }
    requires count { length items.now < 2 ^ 32 }
    requires fits { AllByRecursion T.fits items.now }
    ensures { OnOk result (out.new ≡ out.old ++ list_of (T.spells names.now) items.now) }
{
    put_num(out, items.len() as u64)?;
    put_each(out, names, items)
}

/// Where a name stands in the table; the table's length for a name that has no place there.
pub fn place_of(names: &[Name], name: &Name) -> usize
    requires { AreRising names.now }
    ensures at { result ≡ place names.now name.now }
    ensures bound { result ≤ length names.now }
{
    match names.binary_search(name) {
        Ok(at) => at,
        Err(_) => names.len(),
    }
}

/// Puts the place of a name behind the bytes.
pub fn put_name(out: &mut List<u8>, names: &[Name], name: &Name) -> Result<(), NoMemory>
    requires { IsTable names.now }
    ensures { OnOk result (out.new ≡ out.old ++ exports.name names.now name.now) }
{
    put_num(out, place_of(names, name) as u64)
}

/// The byte of a space.
fn space_byte(space: Space) -> u8
    ensures { result ≡ place_of_space space }
{
    match space {
        Space::Var => 0,
        Space::Con => 1,
        Space::Ty => 2,
    }
}

/// Puts a full name behind the bytes: unit, module, space and text.
pub fn put_full_name(out: &mut List<u8>, name: &Name) -> Result<(), NoMemory>
    requires { NameFits name.now }
    ensures { OnOk result (out.new ≡ out.old ++ full_name name.now) }
{
    put_text(out, name.unit.text.as_slice())?;
    put_text(out, name.module.text.as_slice())?;
    out.push(space_byte(name.occ.space))?;
    put_text(out, name.occ.text.as_slice())
}

/// Puts a flag behind the bytes: 0 or 1.
pub fn put_flag(out: &mut List<u8>, is_set: bool) -> Result<(), NoMemory>
    ensures { OnOk result (out.new ≡ out.old ++ flag is_set) }
{
    out.push(if is_set { 1 } else { 0 })
}

/// Puts a fixity behind the bytes: 0 where there is none, else one more than ten times the side and the level.
fn put_fix(out: &mut List<u8>, fixity: &Option<Fixity>) -> Result<(), NoMemory>
    requires { FixFits fixity.now }
    ensures { OnOk result (out.new ≡ out.old ++ fix fixity.now) }
{
    match fixity {
        None => out.push(0),
        Some(f) => out.push(1 + side_byte(f.assoc) + f.level),
    }
}

/// Ten times the number of a side.
fn side_byte(assoc: Assoc) -> u8
    ensures exact { result ≡ fits.side assoc }
    ensures bound { result ≤ 20 }
{
    match assoc {
        Assoc::Left => 0,
        Assoc::Right => 10,
        Assoc::Neither => 20,
    }
}

/// Puts a kind behind the bytes.
fn put_kind(out: &mut List<u8>, kind: &Kind) -> Result<(), NoMemory>
    ensures { OnOk result (out.new ≡ out.old ++ spec.kind_bytes kind.now) }
{
    match kind {
        Kind::Star => out.push(0),
        Kind::Arrow(from, to) => {
            out.push(1)?;
            put_kind(out, from.get())?;
            put_kind(out, to.get())
        }
    }
}

/// Puts a type behind the bytes.
fn put_ty(out: &mut List<u8>, names: &[Name], ty: &Ty) -> Result<(), NoMemory>
    requires table { IsTable names.now }
    requires fits { fits.TyPuts ty.now }
    ensures { OnOk result (out.new ≡ out.old ++ spec.ty_bytes (exports.name names.now) ty.now) }
{
    match ty {
        Ty::Var(number) => {
            out.push(0)?;
            put_num(out, *number)
        }
        Ty::Con(name) => {
            out.push(1)?;
            put_name(out, names, name)
        }
        Ty::App(function, argument) => {
            out.push(2)?;
            put_ty(out, names, function.get())?;
            put_ty(out, names, argument.get())
        }
    }
}

impl Spelled for Kind {
    ghost use Rattle.decl_codec.specs.Blobs as spec;

    ghost spells = { λ names kind. spec.kind_bytes kind };

    ghost fits = { λ kind. Unit {0} };

    fn put(&self, out: &mut List<u8>, _names: &[Name]) -> Result<(), NoMemory> {
        put_kind(out, self)
    }
}

impl Spelled for Name {
    ghost use Rattle.decl_codec.specs.Exports as exports;

    ghost spells = { λ names name. exports.name names name };

    ghost fits = { λ name. Unit {0} };

    fn put(&self, out: &mut List<u8>, names: &[Name]) -> Result<(), NoMemory> {
        put_name(out, names, self)
    }
}

impl Spelled for Constraint {
    ghost use Rattle.decl_codec.specs.Blobs as spec;
    ghost use Rattle.decl_codec.specs.Exports as exports;
    ghost use Rattle.decl_codec.specs.Writing as fits;

    ghost spells = { λ names c. spec.constraint (exports.name names) c };

    ghost fits = { λ c. fits.TyPuts c.ty };

    fn put(&self, out: &mut List<u8>, names: &[Name]) -> Result<(), NoMemory> {
        put_name(out, names, &self.class)?;
        put_ty(out, names, &self.ty)
    }
}

impl Spelled for Scheme {
    ghost use Rattle.decl_codec.specs.Blobs as spec;
    ghost use Rattle.decl_codec.specs.Exports as exports;
    ghost use Rattle.decl_codec.specs.Writing as fits;

    ghost spells = { λ names s. spec.scheme (exports.name names) s };

    ghost fits = { λ s. fits.SchemePuts s };

    fn put(&self, out: &mut List<u8>, names: &[Name]) -> Result<(), NoMemory> {
        put_num(out, self.vars as u64)?;
        put_items(out, names, self.context.as_slice())?;
        put_ty(out, names, &self.body)
    }
}

impl Spelled for Field {
    ghost use Rattle.decl_codec.specs.Blobs as spec;
    ghost use Rattle.decl_codec.specs.Exports as exports;
    ghost use Rattle.decl_codec.specs.Writing as fits;

    ghost spells = { λ names f. spec.field (exports.name names) f };

    ghost fits = { λ f. fits.FieldPuts f };

    fn put(&self, out: &mut List<u8>, names: &[Name]) -> Result<(), NoMemory> {
        put_text(out, self.label.as_slice())?;
        put_fix(out, &self.fixity)?;
        put_flag(out, self.strict)?;
        put_ty(out, names, &self.ty)
    }
}

impl Spelled for Constr {
    ghost use Rattle.decl_codec.specs.Blobs as spec;
    ghost use Rattle.decl_codec.specs.Exports as exports;
    ghost use Rattle.decl_codec.specs.Writing as fits;

    ghost spells = { λ names c. spec.constr (exports.name names) c };

    ghost fits = { λ c. fits.ConstrPuts c };

    fn put(&self, out: &mut List<u8>, names: &[Name]) -> Result<(), NoMemory> {
        put_text(out, self.occ.as_slice())?;
        put_fix(out, &self.fixity)?;
        put_items(out, names, self.fields.as_slice())
    }
}

impl Spelled for Method {
    ghost use Rattle.decl_codec.specs.Blobs as spec;
    ghost use Rattle.decl_codec.specs.Exports as exports;
    ghost use Rattle.decl_codec.specs.Writing as fits;

    ghost spells = { λ names m. spec.method (exports.name names) m };

    ghost fits = { λ m. fits.MethodPuts m };

    fn put(&self, out: &mut List<u8>, names: &[Name]) -> Result<(), NoMemory> {
        put_text(out, self.occ.as_slice())?;
        put_fix(out, &self.fixity)?;
        self.scheme.put(out, names)
    }
}

/// Puts a type synonym behind the bytes.
fn put_synonym(
    out: &mut List<u8>,
    names: &[Name],
    kinds: &[Kind],
    to: &Kind,
    ty: &Ty,
) -> Result<(), NoMemory>
    requires table { IsTable names.now }
    requires count { length kinds.now < 2 ^ 32 }
    requires fits { fits.TyPuts ty.now }
    ensures { OnOk result (out.new ≡ out.old ++ 3 ∷ (list_of spec.kind_bytes kinds.now ++ (spec.kind_bytes to.now ++ spec.ty_bytes (exports.name names.now) ty.now))) }
{
    out.push(3)?;
    put_items(out, names, kinds)?;
    put_kind(out, to)?;
    put_ty(out, names, ty)
}

/// Puts a class behind the bytes.
fn put_class(
    out: &mut List<u8>,
    names: &[Name],
    kind: &Kind,
    supers: &[Name],
    methods: &[Method],
) -> Result<(), NoMemory>
    requires table { IsTable names.now }
    requires supers { length supers.now < 2 ^ 32 }
    requires methods { length methods.now < 2 ^ 32 }
    requires fits { AllByRecursion fits.MethodPuts methods.now }
    ensures { OnOk result (out.new ≡ out.old ++ 4 ∷ (spec.kind_bytes kind.now ++ (list_of (exports.name names.now) supers.now ++ list_of (spec.method (exports.name names.now)) methods.now))) }
{
    out.push(4)?;
    put_kind(out, kind)?;
    put_items(out, names, supers)?;
    put_items(out, names, methods)
}

/// Puts what a name is declared as behind the bytes.
fn put_body(out: &mut List<u8>, names: &[Name], body: &Body) -> Result<(), NoMemory>
    requires table { IsTable names.now }
    requires fits { fits.BodyPuts body.now }
    ensures { OnOk result (out.new ≡ out.old ++ spec.body (exports.name names.now) body.now) }
{
    match body {
        Body::Value(scheme) => {
            out.push(0)?;
            scheme.put(out, names)
        }
        Body::Alg {
            renamed,
            kinds,
            constrs,
        } => {
            out.push(if *renamed { 2 } else { 1 })?;
            put_items(out, names, kinds.as_slice())?;
            put_items(out, names, constrs.as_slice())
        }
        Body::Synonym {
            kinds,
            result: to,
            body: ty,
        } => { put_synonym(out, names, kinds.as_slice(), to, ty) }
        Body::Class {
            kind,
            supers,
            methods,
        } => { put_class(out, names, kind, supers.as_slice(), methods.as_slice()) }
        Body::Abstract { kinds } => {
            out.push(5)?;
            put_items(out, names, kinds.as_slice())
        }
    }
}

impl Spelled for Decl {
    ghost use Rattle.decl_codec.specs.Blobs as spec;
    ghost use Rattle.decl_codec.specs.Exports as exports;
    ghost use Rattle.decl_codec.specs.Writing as fits;

    ghost spells = { λ names d. spec.blob (exports.name names) d };

    ghost fits = { λ d. fits.DeclPuts d };

    fn put(&self, out: &mut List<u8>, names: &[Name]) -> Result<(), NoMemory> {
        put_fix(out, &self.fixity)?;
        put_body(out, names, &self.body)
    }
}

/// Puts what an exported name belongs to behind the bytes: one more than its place, or 0 where there is none.
fn put_parent(out: &mut List<u8>, names: &[Name], parent: &Option<Name>) -> Result<(), NoMemory>
    requires table { IsTable names.now }
    requires room { length names.now + 1 < 2 ^ 32 }
    ensures { OnOk result (out.new ≡ out.old ++ exports.parent names.now parent.now) }
{
    match parent {
        None => put_num(out, 0),
        Some(name) => put_num(out, place_of(names, name) as u64 + 1),
    }
}

/// Puts an export behind the bytes.
pub fn put_export(out: &mut List<u8>, names: &[Name], export: &Export) -> Result<(), NoMemory>
    requires table { IsTable names.now }
    requires room { length names.now + 1 < 2 ^ 32 }
    ensures { OnOk result (out.new ≡ out.old ++ exports.export names.now export.now) }
{
    put_name(out, names, &export.name)?;
    put_parent(out, names, &export.parent)
}
