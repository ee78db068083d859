//! Paths with their nodes, and nodes with the names of their interfaces, worked out by hand.
use mk_base::memory::NoMemory;
use mk_base::name::{ModName, Node, same_node};
use mk_base::path::{
    iface_name, iface_names_differ, node_of_path, path_of, paths_are_their_spelling,
    paths_read_as_their_nodes,
};
use mk_base::text::Text;
use std::alloc::Global;
use std::test::Fail;

// A path, `=`, and the name of its module, with `!` for a boot node; nothing where it is no module path. One a line.
const PATHS: &str = "A.hs=A
A.B.hs=
A.hs-boot=A!
A/B/C.hs-boot=A.B.C!
Prim.hs=
Prim.hs-boot=
A/Prim.hs=A.Prim
Prim/A.hs-boot=Prim.A!
a.hs=
A.hsi=
A=
.hs=
.hs-boot=
/A.hs=
A//B.hs=
A/.hs=
A/b.hs=
A_b'.hs=A_b'
A1.hs=A1
1A.hs=
A.B.hs=
A.B.hs=
\u{c4}.hs=\u{c4}
\u{c4}\u{df}.hs=\u{c4}\u{df}
\u{df}.hs=
\u{1c5}\u{663}.hs=\u{1c5}\u{663}
A\u{2b0}.hs=
A.hs.hs=
=
A/B=
A.hs-boots=
A .hs=
'A.hs=";

// A module's name, with `!` for a boot node, and the name of its interface.
const IFACES: &str = "A=A.hsi
A.B=A.B.hsi
M!=M.hsi-boot
A.B!=A.B.hsi-boot
\u{c4}.Prim=\u{c4}.Prim.hsi";

fn node_of(alloc: Global, shown: &str) -> Result<Node, NoMemory> {
    let name = shown.as_bytes();
    let (name, boot) = match name.strip_suffix(b"!") {
        Some(name) => (name, true),
        None => (name, false),
    };
    let text = Text::from_slice(alloc, name)?;
    Ok(Node {
        module: ModName { text },
        boot,
    })
}

#[test]
fn paths_have_nodes(rt: HostRuntime) -> Result<(), Fail> {
    let alloc = rt.alloc();
    for row in PATHS.lines() {
        let (path, shown) = row.split_once('=').unwrap_or((row, ""));
        match node_of_path(alloc, path)? {
            Some(node) => {
                assert!(rt; same_node(&node, &node_of(alloc, shown)?), "{path}");
                assert_eq!(rt; path_of(alloc, &node)?.as_slice(), path.as_bytes());
            }
            None => assert_eq!(rt; shown, "", "{path}"),
        }
    }
    Ok(())
}

#[test]
fn nodes_have_interfaces(rt: HostRuntime) -> Result<(), Fail> {
    let alloc = rt.alloc();
    for row in IFACES.lines() {
        let (shown, name) = row.split_once('=').unwrap_or((row, ""));
        let node = node_of(alloc, shown)?;
        assert_eq!(rt; iface_name(alloc, &node)?.as_slice(), name.as_bytes());
    }
    let node = node_of(alloc, "M!")?;
    assert_eq!(rt; path_of(alloc, &node)?.as_slice(), b"M.hs-boot".as_slice());
    paths_are_their_spelling();
    paths_read_as_their_nodes();
    iface_names_differ();
    Ok(())
}
