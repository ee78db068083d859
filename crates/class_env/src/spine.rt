//! A type as a head that is applied to arguments.
ghost use Rattle.std.specs.Prelude.{◌≡◌, ◌≤◌, ◌<◌, ◌↔◌, IsTrue, MatchResult, length, nat_eq};
ghost use Rattle.class_env.specs.Terms.{term_of};
ghost use Rattle.class_env.specs.Spine.{head_is, head, arguments, place, IsArgument};

use mk_base::name::Name;
use mk_base::ty::Ty;

/// What is applied.
#[derive(Clone, Copy, Debug)]
pub enum Head<'a> {
    Variable(u64),
    Constructor(&'a Name),
}

/// What a type applies; the type itself where it isn't an application.
pub fn head_of(t: &Ty) -> Head<'_>
    ensures { head_is result ≡ head (term_of t.now) }
{
    match t {
        Ty::Var(n) => Head::Variable(*n),
        Ty::Con(name) => Head::Constructor(name),
        Ty::App(f, _) => head_of(f.get()),
    }
}

/// The argument at a place, counted from 0 from the left; as an error how many there are.
pub fn argument_of(t: &Ty, place: u64) -> Result<&Ty, u64>
    ensures { MatchResult result (λ a. IsArgument (term_of t.now) place (term_of a.now)) (λ n. (n ≡ length (arguments (term_of t.now))) × (n ≤ place)) }
{
    match t {
        Ty::Var(_) => Err(0),
        Ty::Con(_) => Err(0),
        Ty::App(f, a) => match argument_of(f.get(), place) {
            Ok(found) => Ok(found),
            Err(count) => {
                if count == place {
                    Ok(a.get())
                } else {
                    Err(count + 1)
                }
            }
        },
    }
}

/// Whether a type is applied to so many arguments.
pub fn has_count(t: &Ty, count: u64) -> bool
    ensures { result ≡ nat_eq count (length (arguments (term_of t.now))) }
{
    match t {
        Ty::Var(_) => count == 0,
        Ty::Con(_) => count == 0,
        Ty::App(f, _) => count > 0 && has_count(f.get(), count - 1),
    }
}

/// Whether a type is an application.
pub fn has_arguments(t: &Ty) -> bool
    ensures { IsTrue result ↔ (0 < length (arguments (term_of t.now))) }
{
    matches!(t, Ty::App(_, _))
}

/// The number of a variable; None for any other type.
pub fn place_of(t: &Ty) -> Option<u64>
    ensures { result ≡ place (term_of t.now) }
{
    match t {
        Ty::Var(n) => Some(*n),
        _ => None,
    }
}
