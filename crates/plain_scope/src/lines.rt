//! The diagnostics of a module's data types, and what their fields refer to.
ghost use Rattle.std.specs.Prelude.{◌≡◌, ◌++◌, ◌∷◌, [], ℕ, List as Row, IfOk, OnOk, map};
ghost use Rattle.std.specs.List.{flat_map};
ghost use Rattle.plain_scope.specs.Scope.{Pair, use_at, diag_at, use_diags, found_names, field_diags, twice_diags, data_diags, datas_diags, resolved};
ghost use Rattle.plain_scope.specs.Table.{IsTable, use_in, HasSeenWords, HasSeen};

use crate::scope::DataDecl;
use crate::table::Types;
use indexmap::IndexSet;
use mk_base::diag::Diag;
use mk_base::list::List;
use mk_base::memory::NoMemory;
use mk_base::name::Name;
use mk_base::text::Text;
use plain_form::form::{DataItem, Word};
use std::alloc::Global;

/// The types and the constructors of the data types so far.
#[derive(Drop)]
pub struct Seen {
    pub types: IndexSet<Text>,
    pub cons: IndexSet<Text>,
}

/// Puts a diagnostic at a word's place behind `diags`: its text is the word and `rest`.
fn push_diag(
    alloc: Global,
    diags: &mut List<Diag>,
    code: u8,
    word: &Word,
    rest: &[u8],
) -> Result<(), NoMemory>
    ensures { OnOk result (diags.new ≡ diags.old ++ diag_at word.now.at code (word.now.text ++ rest.now) ∷ []) }
{
    let mut text = word.text.copy(alloc)?;
    text.push_slice(rest)?;
    let at = word.at;
    diags.push(Diag { at, code, text })
}

/// Puts the entity that a field refers to behind `names`, or what is wrong with it behind `diags`.
fn check_use(
    alloc: Global,
    types: &Types,
    word: &Word,
    diags: &mut List<Diag>,
    names: &mut List<Name>,
) -> Result<(), NoMemory>
    ensures diags { OnOk result (diags.new ≡ diags.old ++ use_diags word.now (use_in types.now word.now.text)) }
    ensures names { OnOk result (names.new ≡ names.old ++ found_names (use_in types.now word.now.text)) }
{
    match types.get(&word.text) {
        Some(Some(entity)) => names.push(entity.copy(alloc)?),
        Some(None) => push_diag(alloc, diags, 22, word, b" is ambiguous"),
        None => push_diag(alloc, diags, 21, word, b" is not in scope"),
    }
}

/// The entities that a data type's fields refer to. Puts their diagnostics behind `diags`.
fn check_fields(
    alloc: Global,
    types: &Types,
    fields: &[Word],
    diags: &mut List<Diag>,
) -> Result<List<Name>, NoMemory>
    ensures diags { OnOk result ((pairs : Row Pair) → IsTable types.now pairs → diags.new ≡ diags.old ++ field_diags pairs fields.now) }
    ensures names { IfOk result (λ ns. (pairs : Row Pair) → IsTable types.now pairs → ns ≡ flat_map (λ (f : Word). found_names (use_at pairs f.text)) fields.now) }
{
    let mut names = List::new(alloc);
    for field in fields {
        check_use(alloc, types, field, diags, &mut names)?;
    }
    Ok(names)
}

/// Puts a name into the set of those of its kind so far, and a diagnostic behind `diags` where it stands there already.
fn check_twice(
    alloc: Global,
    seen: &mut IndexSet<Text>,
    word: &Word,
    diags: &mut List<Diag>,
) -> Result<(), NoMemory>
    ensures diags { OnOk result ((words : Row (Row ℕ)) → HasSeenWords seen.old words → diags.new ≡ diags.old ++ twice_diags word.now words) }
    ensures seen { OnOk result ((words : Row (Row ℕ)) → HasSeenWords seen.old words → HasSeenWords seen.new (words ++ word.now.text ∷ [])) }
{
    let added = seen.insert(word.text.copy(alloc)?)?;
    if added {
        return Ok(());
    }
    push_diag(alloc, diags, 23, word, b" is defined twice")?;
    Ok(())
}

/// Checks a data type behind those whose names are in `seen`. Puts its diagnostics behind `diags`.
fn check_data(
    alloc: Global,
    types: &Types,
    seen: &mut Seen,
    item: &DataItem,
    diags: &mut List<Diag>,
) -> Result<DataDecl, NoMemory>
    ensures diags { OnOk result ((pairs : Row Pair) (before : Row DataItem) → IsTable types.now pairs → HasSeen seen.old before → diags.new ≡ diags.old ++ data_diags pairs before item.now) }
    ensures seen { OnOk result ((before : Row DataItem) → HasSeen seen.old before → HasSeen seen.new (before ++ item.now ∷ [])) }
    ensures decl { IfOk result (λ d. (pairs : Row Pair) → IsTable types.now pairs → d ≡ resolved pairs item.now) }
{
    check_twice(alloc, &mut seen.types, &item.ty, diags)?;
    check_twice(alloc, &mut seen.cons, &item.con, diags)?;
    let fields = check_fields(alloc, types, item.fields.as_slice(), diags)?;
    Ok(DataDecl {
        ty: item.ty.text.copy(alloc)?,
        con: item.con.text.copy(alloc)?,
        fields,
    })
}

/// Checks data types in their order. Puts their diagnostics behind `diags`.
pub fn check_datas(
    alloc: Global,
    types: &Types,
    datas: &[DataItem],
    diags: &mut List<Diag>,
) -> Result<List<DataDecl>, NoMemory>
    ensures diags { OnOk result ((pairs : Row Pair) → IsTable types.now pairs → diags.new ≡ diags.old ++ datas_diags pairs [] datas.now) }
    ensures decls { IfOk result (λ ds. (pairs : Row Pair) → IsTable types.now pairs → ds ≡ map (resolved pairs) datas.now) }
{
    let mut seen = Seen {
        types: IndexSet::new(alloc),
        cons: IndexSet::new(alloc),
    };
    let mut decls = List::new(alloc);
    for item in datas {
        decls.push(check_data(alloc, types, &mut seen, item, diags)?)?;
    }
    Ok(decls)
}
