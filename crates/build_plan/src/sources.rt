//! The sources of a tree, by node.
ghost use Rattle.std.specs.Prelude.{◌≡◌, IfOk, List};
ghost use Rattle.mk_base.specs.declared.name.Node.{Node};
ghost use Rattle.build_theory.specs.Build.{by_node};
ghost use Rattle.build_theory.specs.Laws as laws;
ghost use Rattle.build_plan.specs.Tree.{planning, sources_of};
ghost use Rattle.build_plan.specs.Positions.{pairs};

use mk_base::memory::NoMemory;
use mk_base::name::{Node, order_nodes};
use mk_base::path::node_of;
use mk_io::file::File;
use std::alloc::Global;

/// The source of a node.
#[derive(Drop)]
pub struct Source<'a> {
    pub node: Node,
    pub bytes: &'a [u8],
}

/// The sources among some files, in the files' order.
pub fn list_sources<'a>(alloc: Global, files: &'a [File]) -> Result<Vec<Source<'a>>, NoMemory>
    ensures { IfOk result (λ v. pairs v.items ≡ sources_of files.now) }
{
    let mut sources = Vec::new(alloc);
    for file in files {
        if let Some(node) = node_of(alloc, file.name.as_slice())? {
            let bytes = file.bytes.as_slice();
            sources.push(Source { node, bytes })?;
        }
    }
    Ok(sources)
}

/// Puts sources of different nodes in the order of their nodes.
pub fn sort_sources(sources: &mut [Source<'_>])
    requires { laws.AreDistinct planning (pairs sources.old) }
    ensures { pairs sources.new ≡ by_node planning (pairs sources.old) }
{
    sources.sort_unstable_by(|a, b| order_nodes(&a.node, &b.node));
}
