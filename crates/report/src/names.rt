//! How nodes and their sources are named.
ghost use Rattle.std.specs.Prelude.{◌≡◌, ◌++◌, OnOk, map, nat_eq, if◌then◌else◌};
ghost use Rattle.report.specs.Report.{node_text, path_text};

use mk_base::list::List;
use mk_base::memory::NoMemory;
use mk_base::name::Node;

// The module's name, with `[boot]` behind it for a boot node.
pub fn push_node(out: &mut List<u8>, node: &Node) -> Result<(), NoMemory>
    ensures { OnOk result (out.new ≡ out.old ++ node_text node.now) }
{
    out.extend(node.module.text.as_slice())?;
    if node.boot {
        out.extend(b"[boot]")?;
    }
    Ok(())
}

// The path of the node's source.
pub fn push_path(out: &mut List<u8>, node: &Node) -> Result<(), NoMemory>
    ensures { OnOk result (out.new ≡ out.old ++ path_text node.now) }
{
    push_slashed(out, node.module.text.as_slice())?;
    if node.boot {
        out.extend(b".hs-boot")
    } else {
        out.extend(b".hs")
    }
}

// The bytes, with a slash for each dot.
fn push_slashed(out: &mut List<u8>, bytes: &[u8]) -> Result<(), NoMemory>
    ensures { OnOk result (out.new ≡ out.old ++ map (λ b. if nat_eq b 46 then 47 else b) bytes.now) }
{
    for &byte in bytes {
        out.push(if byte == b'.' { b'/' } else { byte })?;
    }
    Ok(())
}
