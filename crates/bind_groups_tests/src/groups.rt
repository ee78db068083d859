//! The groups of bindings, worked out by hand.
ghost use Rattle.std.specs.Prelude.{◌<◌, ◌^◌, length};

use crate::table::{bindings, cut_at, groups as groups_in};
use bind_groups::groups;
use mk_base::list::List;
use mk_base::memory::NoMemory;
use std::alloc::Global;
use std::process::Abort;
use std::test::Fail;

// A line is bindings, and behind the bar their groups in order. A binding is the names that it binds, with a colon before
// them where they have a signature, `=`, and the names that it uses. A group is a word whose digits are the places of its
// members.
const BINDINGS: &str = "
f=|0
f=f|0
f=g g=|1 0
f=g g=f|01
f=g :g=f|0 1
:f=g g=f|1 0
:f=g :g=f|0 1
f=xyz g=|0 1
f=Z Z=f|01
f=Z g=|0 1
f=gg g=hh h=|2 1 0
f=g g=h h=f x=f|012 3
ab=c c=b|01
ab=c c=d d=|2 1 0
:ab=c c=b d=a|1 0 2
h=fg f=g g=f k=|12 0 3
f=h g=h h= k=fg|2 0 1 3
f=g g=f h=k k=hg|01 23
=f f=|1 0
f=g :g=h h=f|0 2 1
f=x x=y :y=f z=yx|1 0 2 3
a=b a=c b= c=|2 0 3 1
a= a= b=a|0 1 2
";

/// Whether two lists of lists are the same.
fn are_equal(a: &List<List<u32>>, b: &List<List<u32>>) -> bool {
    let mut equal = a.len() == b.len();
    for (one, other) in a.as_slice().iter().zip(b.as_slice()) {
        if one.as_slice() != other.as_slice() {
            equal = false;
        }
    }
    equal
}

/// Checks a line of the table.
fn check_groups(rt: &impl Abort, alloc: Global, line: &[u8]) -> Result<(), NoMemory> {
    let (text, expected) = cut_at(line, b'|');
    let bindings = bindings(alloc, text)?;
    assert!(rt; bindings.len() < 100);
    let found = groups(alloc, &bindings)?;
    assert!(rt; are_equal(&found, &groups_in(alloc, expected)?));
    Ok(())
}

#[test]
fn bindings_stand_behind_those_that_they_depend_on(rt: HostRuntime) -> Result<(), Fail> {
    for line in BINDINGS.as_bytes().split(|byte| *byte == b'\n') {
        check_groups(&rt, rt.alloc(), line)?;
    }
    Ok(())
}
