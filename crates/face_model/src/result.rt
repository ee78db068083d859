//! What a build says of every node.
ghost use Rattle.std.specs.Prelude.{◌≡◌, ◌↔◌, IsTrue, IfOk};

use bytes::Bytes;
use mk_base::diag::Diag;
use mk_base::fingerprint::Fingerprint;
use mk_base::list::List;
use mk_base::memory::NoMemory;
use mk_base::name::Node;
use mk_base::place::NodeId;
use mk_base::plain::Plain;
use mk_base::text::Text;
use std::alloc::Global;

/// Why a node was checked and its kept interface not used.
#[derive(Clone, Copy, Debug, PartialEq, Eq, PartialOrd, Ord, Hash)]
pub enum Reason {
    /// No interface is kept.
    NoInterface,
    /// What is kept has not the form of an interface.
    Malformed,
    /// The interface has the version `found`, which isn't the one in use.
    Old {
        found: u8,
    },
    /// The interface keeps the fingerprint `kept` of its own bytes, which have the fingerprint `found`.
    Damaged {
        kept: Fingerprint,
        found: Fingerprint,
    },
    /// The interface is that of another unit, module or kind of node.
    Other,
    /// The source has changed.
    Source {
        was: Fingerprint,
        now: Fingerprint,
    },
    /// The flags have changed.
    Flags {
        was: Fingerprint,
        now: Fingerprint,
    },
    /// What the node uses has changed: the usage at the place `at` of the kept list, counted from 0.
    /// A fingerprint is None where what is used isn't there.
    Usage {
        at: u32,
        was: Option<Fingerprint>,
        now: Option<Fingerprint>,
    },
}

/// How a node's result came about.
#[derive(Debug, Drop)]
pub enum How {
    /// Its kept interface was current.
    Current,
    /// It was checked. For a usage `subject` is the printed reason's text up to `: was`, and else it is empty.
    Checked { reason: Reason, subject: Text },
    /// It wasn't checked: the graph of imports has an error there, as a module that isn't found, or a cycle.
    Graph,
    /// It wasn't checked: of its needs, this one is the first in the build order that isn't sound.
    Blocked(NodeId),
}

/// The result of one node.
#[derive(Debug, Drop)]
pub struct NodeResult {
    /// The node.
    pub node: Node,
    /// How the result came about.
    pub how: How,
    /// The diagnostics; there are some exactly for a failed node.
    pub diags: List<Diag>,
    /// The interface; Some exactly for a sound node.
    pub bytes: Option<Bytes>,
}

/// The results of a build.
#[derive(Debug, Drop)]
pub struct BuildResult {
    /// The results of the nodes, in the build order.
    pub nodes: List<NodeResult>,
}

impl Plain for Reason {
    fn same(&self, other: &Reason) -> bool {
        *self == *other
    }

    fn copy(&self, _alloc: Global) -> Result<Reason, NoMemory> {
        Ok(*self)
    }
}

impl Plain for How {
    fn same(&self, other: &How) -> bool {
        match (self, other) {
            (How::Current, How::Current) => true,
            (
                How::Checked {
                    reason: r,
                    subject: s,
                },
                How::Checked { reason, subject },
            ) => r.same(reason) && s.same(subject),
            (How::Graph, How::Graph) => true,
            (How::Blocked(a), How::Blocked(b)) => *a == *b,
            _ => false,
        }
    }

    fn copy(&self, alloc: Global) -> Result<How, NoMemory> {
        match self {
            How::Current => Ok(How::Current),
            How::Checked { reason, subject } => Ok(How::Checked {
                reason: *reason,
                subject: subject.copy(alloc)?,
            }),
            How::Graph => Ok(How::Graph),
            How::Blocked(need) => Ok(How::Blocked(*need)),
        }
    }
}

impl Plain for NodeResult {
    fn same(&self, other: &NodeResult) -> bool {
        self.node.same(&other.node)
            && self.how.same(&other.how)
            && self.diags.same(&other.diags)
            && same_bytes(&self.bytes, &other.bytes)
    }

    fn copy(&self, alloc: Global) -> Result<NodeResult, NoMemory> {
        let node = self.node.copy(alloc)?;
        let how = self.how.copy(alloc)?;
        let diags = self.diags.copy(alloc)?;
        let bytes = share_bytes(&self.bytes)?;
        Ok(NodeResult {
            node,
            how,
            diags,
            bytes,
        })
    }
}

impl Plain for BuildResult {
    fn same(&self, other: &BuildResult) -> bool {
        self.nodes.same(&other.nodes)
    }

    fn copy(&self, alloc: Global) -> Result<BuildResult, NoMemory> {
        let nodes = self.nodes.copy(alloc)?;
        Ok(BuildResult { nodes })
    }
}

fn same_bytes(a: &Option<Bytes>, b: &Option<Bytes>) -> bool
    ensures { IsTrue result ↔ (a.now ≡ b.now) }
{
    match (a, b) {
        (Some(x), Some(y)) => x == y,
        (None, None) => true,
        _ => false,
    }
}

// A second handle on the same bytes.
fn share_bytes(bytes: &Option<Bytes>) -> Result<Option<Bytes>, NoMemory>
    ensures { IfOk result (λ b. b ≡ bytes.now) }
{
    match bytes {
        Some(b) => Ok(Some(b.clone()?)),
        None => Ok(None),
    }
}
