//! The exported names, each put behind others.
ghost use Rattle.std.specs.Prelude.{◌≡◌, ◌++◌, ◌∷◌, [], IfOk, OnOk};
ghost use Rattle.prim_table.specs.Exports as spec;

use crate::spelled::own;
use face_model::export::Export;
use mk_base::list::List;
use mk_base::memory::NoMemory;
use mk_base::name::Space;
use std::alloc::Global;

fn alone(alloc: Global, out: &mut List<Export>, space: Space, occ: &[u8]) -> Result<(), NoMemory>
    ensures { OnOk result (out.new ≡ out.old ++ spec.alone space occ.now ∷ []) }
{
    let name = own(alloc, space, occ)?;
    out.push(Export { name, parent: None })
}

fn of(
    alloc: Global,
    out: &mut List<Export>,
    space: Space,
    occ: &[u8],
    parent: &[u8],
) -> Result<(), NoMemory>
    ensures { OnOk result (out.new ≡ out.old ++ spec.of space occ.now parent.now ∷ []) }
{
    let name = own(alloc, space, occ)?;
    let parent = own(alloc, Space::Ty, parent)?;
    out.push(Export {
        name,
        parent: Some(parent),
    })
}

fn value(alloc: Global, out: &mut List<Export>, occ: &[u8]) -> Result<(), NoMemory>
    ensures { OnOk result (out.new ≡ out.old ++ spec.value occ.now ∷ []) }
{
    alone(alloc, out, Space::Var, occ)
}

fn method(alloc: Global, out: &mut List<Export>, occ: &[u8], class: &[u8]) -> Result<(), NoMemory>
    ensures { OnOk result (out.new ≡ out.old ++ spec.method occ.now class.now ∷ []) }
{
    of(alloc, out, Space::Var, occ, class)
}

fn two_methods(
    alloc: Global,
    out: &mut List<Export>,
    occ: &[u8],
    class: &[u8],
    next: &[u8],
    class_of_next: &[u8],
) -> Result<(), NoMemory>
    ensures { OnOk result (out.new ≡ (out.old ++ spec.method occ.now class.now ∷ []) ++ spec.method next.now class_of_next.now ∷ []) }
{
    method(alloc, out, occ, class)?;
    method(alloc, out, next, class_of_next)
}

fn constructor(alloc: Global, out: &mut List<Export>, occ: &[u8], ty: &[u8]) -> Result<(), NoMemory>
    ensures { OnOk result (out.new ≡ out.old ++ spec.constructor occ.now ty.now ∷ []) }
{
    of(alloc, out, Space::Con, occ, ty)
}

fn two_constructors(
    alloc: Global,
    out: &mut List<Export>,
    occ: &[u8],
    ty: &[u8],
    next: &[u8],
    type_of_next: &[u8],
) -> Result<(), NoMemory>
    ensures { OnOk result (out.new ≡ (out.old ++ spec.constructor occ.now ty.now ∷ []) ++ spec.constructor next.now type_of_next.now ∷ []) }
{
    constructor(alloc, out, occ, ty)?;
    constructor(alloc, out, next, type_of_next)
}

fn named(alloc: Global, out: &mut List<Export>, occ: &[u8]) -> Result<(), NoMemory>
    ensures { OnOk result (out.new ≡ out.old ++ spec.named occ.now ∷ []) }
{
    alone(alloc, out, Space::Ty, occ)
}

fn first_values(alloc: Global, out: &mut List<Export>) -> Result<(), NoMemory>
    ensures { OnOk result (out.new ≡ spec.first_values out.old) }
{
    method(alloc, out, b"*", b"Num")?;
    method(alloc, out, b"**", b"Floating")?;
    method(alloc, out, b"+", b"Num")?;
    method(alloc, out, b"-", b"Num")?;
    method(alloc, out, b"/", b"Fractional")
}

fn second_values(alloc: Global, out: &mut List<Export>) -> Result<(), NoMemory>
    ensures { OnOk result (out.new ≡ spec.second_values out.old) }
{
    method(alloc, out, b"/=", b"Eq")?;
    method(alloc, out, b"<", b"Ord")?;
    method(alloc, out, b"<=", b"Ord")?;
    method(alloc, out, b"==", b"Eq")?;
    method(alloc, out, b">", b"Ord")
}

fn third_values(alloc: Global, out: &mut List<Export>) -> Result<(), NoMemory>
    ensures { OnOk result (out.new ≡ spec.third_values out.old) }
{
    method(alloc, out, b">=", b"Ord")?;
    method(alloc, out, b">>", b"Monad")?;
    method(alloc, out, b">>=", b"Monad")?;
    method(alloc, out, b"abs", b"Num")?;
    method(alloc, out, b"acos", b"Floating")
}

fn fourth_values(alloc: Global, out: &mut List<Export>) -> Result<(), NoMemory>
    ensures { OnOk result (out.new ≡ spec.fourth_values out.old) }
{
    method(alloc, out, b"acosh", b"Floating")?;
    value(alloc, out, b"appendFile")?;
    two_methods(alloc, out, b"asin", b"Floating", b"asinh", b"Floating")?;
    method(alloc, out, b"atan", b"Floating")
}

fn compare_and_cosines(alloc: Global, out: &mut List<Export>) -> Result<(), NoMemory>
    ensures { OnOk result (out.new ≡ spec.compare_and_cosines out.old) }
{
    method(alloc, out, b"compare", b"Ord")?;
    two_methods(alloc, out, b"cos", b"Floating", b"cosh", b"Floating")
}

fn fifth_values(alloc: Global, out: &mut List<Export>) -> Result<(), NoMemory>
    ensures { OnOk result (out.new ≡ spec.fifth_values out.old) }
{
    two_methods(alloc, out, b"atanh", b"Floating", b"ceiling", b"RealFrac")?;
    compare_and_cosines(alloc, out)
}

fn sixth_values(alloc: Global, out: &mut List<Export>) -> Result<(), NoMemory>
    ensures { OnOk result (out.new ≡ spec.sixth_values out.old) }
{
    method(alloc, out, b"div", b"Integral")?;
    method(alloc, out, b"divMod", b"Integral")?;
    method(alloc, out, b"enumFrom", b"Enum")?;
    method(alloc, out, b"enumFromThen", b"Enum")?;
    method(alloc, out, b"enumFromThenTo", b"Enum")
}

fn seventh_values(alloc: Global, out: &mut List<Export>) -> Result<(), NoMemory>
    ensures { OnOk result (out.new ≡ spec.seventh_values out.old) }
{
    method(alloc, out, b"enumFromTo", b"Enum")?;
    value(alloc, out, b"error")?;
    method(alloc, out, b"exp", b"Floating")?;
    method(alloc, out, b"fail", b"Monad")?;
    method(alloc, out, b"floor", b"RealFrac")
}

fn eighth_values(alloc: Global, out: &mut List<Export>) -> Result<(), NoMemory>
    ensures { OnOk result (out.new ≡ spec.eighth_values out.old) }
{
    method(alloc, out, b"fmap", b"Functor")?;
    method(alloc, out, b"fromEnum", b"Enum")?;
    method(alloc, out, b"fromInteger", b"Num")?;
    method(alloc, out, b"fromRational", b"Fractional")?;
    value(alloc, out, b"getChar")
}

fn ninth_values(alloc: Global, out: &mut List<Export>) -> Result<(), NoMemory>
    ensures { OnOk result (out.new ≡ spec.ninth_values out.old) }
{
    value(alloc, out, b"getContents")?;
    value(alloc, out, b"getLine")?;
    method(alloc, out, b"log", b"Floating")?;
    method(alloc, out, b"logBase", b"Floating")?;
    method(alloc, out, b"max", b"Ord")
}

fn tenth_values(alloc: Global, out: &mut List<Export>) -> Result<(), NoMemory>
    ensures { OnOk result (out.new ≡ spec.tenth_values out.old) }
{
    two_methods(alloc, out, b"maxBound", b"Bounded", b"min", b"Ord")?;
    two_methods(alloc, out, b"minBound", b"Bounded", b"mod", b"Integral")?;
    method(alloc, out, b"negate", b"Num")
}

fn eleventh_values(alloc: Global, out: &mut List<Export>) -> Result<(), NoMemory>
    ensures { OnOk result (out.new ≡ spec.eleventh_values out.old) }
{
    method(alloc, out, b"pi", b"Floating")?;
    method(alloc, out, b"pred", b"Enum")?;
    method(alloc, out, b"properFraction", b"RealFrac")?;
    value(alloc, out, b"putChar")?;
    value(alloc, out, b"putStr")
}

fn twelfth_values(alloc: Global, out: &mut List<Export>) -> Result<(), NoMemory>
    ensures { OnOk result (out.new ≡ spec.twelfth_values out.old) }
{
    method(alloc, out, b"quot", b"Integral")?;
    method(alloc, out, b"quotRem", b"Integral")?;
    value(alloc, out, b"readFile")?;
    method(alloc, out, b"readList", b"Read")?;
    method(alloc, out, b"readsPrec", b"Read")
}

fn thirteenth_values(alloc: Global, out: &mut List<Export>) -> Result<(), NoMemory>
    ensures { OnOk result (out.new ≡ spec.thirteenth_values out.old) }
{
    method(alloc, out, b"recip", b"Fractional")?;
    method(alloc, out, b"rem", b"Integral")?;
    method(alloc, out, b"return", b"Monad")?;
    method(alloc, out, b"round", b"RealFrac")?;
    value(alloc, out, b"seq")
}

fn fourteenth_values(alloc: Global, out: &mut List<Export>) -> Result<(), NoMemory>
    ensures { OnOk result (out.new ≡ spec.fourteenth_values out.old) }
{
    method(alloc, out, b"show", b"Show")?;
    method(alloc, out, b"showList", b"Show")?;
    method(alloc, out, b"showsPrec", b"Show")?;
    method(alloc, out, b"signum", b"Num")?;
    method(alloc, out, b"sin", b"Floating")
}

fn fifteenth_values(alloc: Global, out: &mut List<Export>) -> Result<(), NoMemory>
    ensures { OnOk result (out.new ≡ spec.fifteenth_values out.old) }
{
    two_methods(alloc, out, b"sinh", b"Floating", b"sqrt", b"Floating")?;
    two_methods(alloc, out, b"succ", b"Enum", b"tan", b"Floating")?;
    method(alloc, out, b"tanh", b"Floating")
}

fn sixteenth_values(alloc: Global, out: &mut List<Export>) -> Result<(), NoMemory>
    ensures { OnOk result (out.new ≡ spec.sixteenth_values out.old) }
{
    method(alloc, out, b"toEnum", b"Enum")?;
    method(alloc, out, b"toInteger", b"Integral")?;
    method(alloc, out, b"toRational", b"Real")?;
    method(alloc, out, b"truncate", b"RealFrac")?;
    value(alloc, out, b"writeFile")
}

fn first_ten(alloc: Global, out: &mut List<Export>) -> Result<(), NoMemory>
    ensures { OnOk result (out.new ≡ spec.first_ten out.old) }
{
    first_values(alloc, out)?;
    second_values(alloc, out)
}

fn second_ten(alloc: Global, out: &mut List<Export>) -> Result<(), NoMemory>
    ensures { OnOk result (out.new ≡ spec.second_ten out.old) }
{
    third_values(alloc, out)?;
    fourth_values(alloc, out)
}

fn third_ten(alloc: Global, out: &mut List<Export>) -> Result<(), NoMemory>
    ensures { OnOk result (out.new ≡ spec.third_ten out.old) }
{
    fifth_values(alloc, out)?;
    sixth_values(alloc, out)
}

fn fourth_ten(alloc: Global, out: &mut List<Export>) -> Result<(), NoMemory>
    ensures { OnOk result (out.new ≡ spec.fourth_ten out.old) }
{
    seventh_values(alloc, out)?;
    eighth_values(alloc, out)
}

fn fifth_ten(alloc: Global, out: &mut List<Export>) -> Result<(), NoMemory>
    ensures { OnOk result (out.new ≡ spec.fifth_ten out.old) }
{
    ninth_values(alloc, out)?;
    tenth_values(alloc, out)
}

fn sixth_ten(alloc: Global, out: &mut List<Export>) -> Result<(), NoMemory>
    ensures { OnOk result (out.new ≡ spec.sixth_ten out.old) }
{
    eleventh_values(alloc, out)?;
    twelfth_values(alloc, out)
}

fn seventh_ten(alloc: Global, out: &mut List<Export>) -> Result<(), NoMemory>
    ensures { OnOk result (out.new ≡ spec.seventh_ten out.old) }
{
    thirteenth_values(alloc, out)?;
    fourteenth_values(alloc, out)
}

fn eighth_ten(alloc: Global, out: &mut List<Export>) -> Result<(), NoMemory>
    ensures { OnOk result (out.new ≡ spec.eighth_ten out.old) }
{
    fifteenth_values(alloc, out)?;
    sixteenth_values(alloc, out)
}

fn first_twenty(alloc: Global, out: &mut List<Export>) -> Result<(), NoMemory>
    ensures { OnOk result (out.new ≡ spec.first_twenty out.old) }
{
    first_ten(alloc, out)?;
    second_ten(alloc, out)
}

fn second_twenty(alloc: Global, out: &mut List<Export>) -> Result<(), NoMemory>
    ensures { OnOk result (out.new ≡ spec.second_twenty out.old) }
{
    third_ten(alloc, out)?;
    fourth_ten(alloc, out)
}

fn third_twenty(alloc: Global, out: &mut List<Export>) -> Result<(), NoMemory>
    ensures { OnOk result (out.new ≡ spec.third_twenty out.old) }
{
    fifth_ten(alloc, out)?;
    sixth_ten(alloc, out)
}

fn fourth_twenty(alloc: Global, out: &mut List<Export>) -> Result<(), NoMemory>
    ensures { OnOk result (out.new ≡ spec.fourth_twenty out.old) }
{
    seventh_ten(alloc, out)?;
    eighth_ten(alloc, out)
}

/// up to `getChar`
fn lower_values(alloc: Global, out: &mut List<Export>) -> Result<(), NoMemory>
    ensures { OnOk result (out.new ≡ spec.lower_values out.old) }
{
    first_twenty(alloc, out)?;
    second_twenty(alloc, out)
}

/// from `getContents` on
fn upper_values(alloc: Global, out: &mut List<Export>) -> Result<(), NoMemory>
    ensures { OnOk result (out.new ≡ spec.upper_values out.old) }
{
    third_twenty(alloc, out)?;
    fourth_twenty(alloc, out)
}

fn values(alloc: Global, out: &mut List<Export>) -> Result<(), NoMemory>
    ensures { OnOk result (out.new ≡ spec.values out.old) }
{
    lower_values(alloc, out)?;
    upper_values(alloc, out)
}

fn constructors(alloc: Global, out: &mut List<Export>) -> Result<(), NoMemory>
    ensures { OnOk result (out.new ≡ spec.constructors out.old) }
{
    two_constructors(alloc, out, b"EQ", b"Ordering", b"False", b"Bool")?;
    two_constructors(alloc, out, b"GT", b"Ordering", b"LT", b"Ordering")?;
    constructor(alloc, out, b"True", b"Bool")
}

fn first_types(alloc: Global, out: &mut List<Export>) -> Result<(), NoMemory>
    ensures { OnOk result (out.new ≡ spec.first_types out.old) }
{
    named(alloc, out, b"Bool")?;
    named(alloc, out, b"Bounded")?;
    named(alloc, out, b"Char")?;
    named(alloc, out, b"Double")?;
    named(alloc, out, b"Enum")
}

fn second_types(alloc: Global, out: &mut List<Export>) -> Result<(), NoMemory>
    ensures { OnOk result (out.new ≡ spec.second_types out.old) }
{
    named(alloc, out, b"Eq")?;
    named(alloc, out, b"Float")?;
    named(alloc, out, b"Floating")?;
    named(alloc, out, b"Fractional")
}

fn third_types(alloc: Global, out: &mut List<Export>) -> Result<(), NoMemory>
    ensures { OnOk result (out.new ≡ spec.third_types out.old) }
{
    named(alloc, out, b"Functor")?;
    named(alloc, out, b"IO")?;
    named(alloc, out, b"Int")?;
    named(alloc, out, b"Integer")?;
    named(alloc, out, b"Integral")
}

fn fourth_types(alloc: Global, out: &mut List<Export>) -> Result<(), NoMemory>
    ensures { OnOk result (out.new ≡ spec.fourth_types out.old) }
{
    named(alloc, out, b"Monad")?;
    named(alloc, out, b"Num")?;
    named(alloc, out, b"Ord")?;
    named(alloc, out, b"Ordering")
}

fn fifth_types(alloc: Global, out: &mut List<Export>) -> Result<(), NoMemory>
    ensures { OnOk result (out.new ≡ spec.fifth_types out.old) }
{
    named(alloc, out, b"Ratio")?;
    named(alloc, out, b"Rational")?;
    named(alloc, out, b"Read")?;
    named(alloc, out, b"ReadS")?;
    named(alloc, out, b"Real")
}

fn sixth_types(alloc: Global, out: &mut List<Export>) -> Result<(), NoMemory>
    ensures { OnOk result (out.new ≡ spec.sixth_types out.old) }
{
    named(alloc, out, b"RealFrac")?;
    named(alloc, out, b"Show")?;
    named(alloc, out, b"ShowS")?;
    named(alloc, out, b"String")
}

fn lower_types(alloc: Global, out: &mut List<Export>) -> Result<(), NoMemory>
    ensures { OnOk result (out.new ≡ spec.lower_types out.old) }
{
    first_types(alloc, out)?;
    second_types(alloc, out)
}

fn middle_types(alloc: Global, out: &mut List<Export>) -> Result<(), NoMemory>
    ensures { OnOk result (out.new ≡ spec.middle_types out.old) }
{
    third_types(alloc, out)?;
    fourth_types(alloc, out)
}

fn upper_types(alloc: Global, out: &mut List<Export>) -> Result<(), NoMemory>
    ensures { OnOk result (out.new ≡ spec.upper_types out.old) }
{
    fifth_types(alloc, out)?;
    sixth_types(alloc, out)
}

fn lower_half(alloc: Global, out: &mut List<Export>) -> Result<(), NoMemory>
    ensures { OnOk result (out.new ≡ spec.lower_half out.old) }
{
    lower_types(alloc, out)?;
    middle_types(alloc, out)
}

fn types(alloc: Global, out: &mut List<Export>) -> Result<(), NoMemory>
    ensures { OnOk result (out.new ≡ spec.types out.old) }
{
    lower_half(alloc, out)?;
    upper_types(alloc, out)
}

fn constructors_and_types(alloc: Global, out: &mut List<Export>) -> Result<(), NoMemory>
    ensures { OnOk result (out.new ≡ spec.constructors_and_types out.old) }
{
    constructors(alloc, out)?;
    types(alloc, out)
}

/// All exported names, in their order.
pub fn exports(alloc: Global) -> Result<List<Export>, NoMemory>
    ensures { IfOk result (λ es. es ≡ spec.exports) }
{
    let mut out = List::new(alloc);
    values(alloc, &mut out)?;
    constructors_and_types(alloc, &mut out)?;
    Ok(out)
}
