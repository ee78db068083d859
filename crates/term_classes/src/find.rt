//! The root of a class.
ghost use Rattle.std.specs.Prelude.{◌≡◌, ◌<◌, length};
ghost use Rattle.term_classes.specs.Slots.{AreLinked, root, link_of};

use crate::node::Slot;

/// The root of a term's class.
pub fn find(slots: &[Slot], from: usize) -> usize
    requires linked { AreLinked slots.now }
    requires from { from < length slots.now }
    ensures root { result ≡ root slots.now from }
    ensures within { result < length slots.now }
    ensures last { link_of slots.now result ≡ result }
{
    let mut at = from;
    while slots[at].link != at {
        at = slots[at].link;
    }
    at
}
