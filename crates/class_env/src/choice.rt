//! The one instance that fits.
ghost use Rattle.std.specs.Prelude.{◌≡◌, length};
ghost use Rattle.class_env.specs.Terms.{term_of};
ghost use Rattle.class_env.specs.Spine.{arguments};
ghost use Rattle.class_env.specs.Instances.{only_of, only_is};

use crate::spine::has_count;
use face_model::inst::Inst;
use mk_base::ty::Ty;

/// None, one or several.
#[derive(Clone, Copy, Debug)]
pub enum Choice<'a> {
    No,
    One(&'a Inst),
    Several,
}

/// The one instance that has as many variables as a type has arguments.
pub fn choose<'a>(members: &'a [Inst], t: &Ty) -> Choice<'a>
    ensures { only_is result ≡ only_of members.now (length (arguments (term_of t.now))) }
{
    let mut found = None;
    for i in members {
        if has_count(t, u64::from(i.vars)) {
            if found.is_some() {
                return Choice::Several;
            }
            found = Some(i);
        }
    }
    match found {
        None => Choice::No,
        Some(i) => Choice::One(i),
    }
}
