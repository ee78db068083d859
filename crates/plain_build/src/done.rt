//! What is kept of the nodes that are done.
ghost use Rattle.std.specs.Prelude.{◌≡◌, ◌++◌, ◌∷◌, [], OnOk, Some, None, true, false};
ghost use Rattle.plain_scope.specs.Offered.{Fits, IsSound};
ghost use Rattle.plain_face.specs.Interface.{IsInterface};
ghost use Rattle.plain_build.specs.NodeResults.{empty_content, result_of, checked_how, HasSound};

use bytes::Bytes;
use face_model::result::{How, NodeResult, Reason};
use mk_base::diag::Diag;
use mk_base::list::List;
use mk_base::memory::NoMemory;
use mk_base::name::Node;
use mk_base::text::Text;
use plain_face::interface::interface_bytes;
use plain_scope::scope::Content;
use std::alloc::Global;

/// The nodes that are done, each at its place: the results, the contents of the sound ones, and which are sound.
#[derive(Drop)]
pub struct Done {
    pub results: List<NodeResult>,
    pub contents: Vec<Content>,
    pub sound: Vec<bool>,
}

/// How a node that was checked came to its result.
pub fn how_checked(alloc: Global) -> How
    ensures { result ≡ checked_how }
{
    How::Checked {
        reason: Reason::NoInterface,
        subject: Text::new(alloc),
    }
}

fn put(done: &mut Done, outcome: NodeResult, content: Content, sound: bool) -> Result<(), NoMemory>
    ensures results { OnOk result (done.new.results ≡ done.old.results ++ outcome ∷ []) }
    ensures contents { OnOk result (done.new.contents.items ≡ done.old.contents.items ++ content ∷ []) }
    ensures sound { OnOk result (done.new.sound.items ≡ done.old.sound.items ++ sound ∷ []) }
{
    done.results.push(outcome)?;
    done.contents.push(content)?;
    done.sound.push(sound)?;
    Ok(())
}

/// Keeps a node that isn't sound.
pub fn put_unsound(
    alloc: Global,
    done: &mut Done,
    node: &Node,
    how: How,
    diags: List<Diag>,
) -> Result<(), NoMemory>
    ensures results { OnOk result (done.new.results ≡ done.old.results ++ result_of node.now how diags None ∷ []) }
    ensures contents { OnOk result (done.new.contents.items ≡ done.old.contents.items ++ empty_content ∷ []) }
    ensures sound { OnOk result (done.new.sound.items ≡ done.old.sound.items ++ false ∷ []) }
{
    let outcome = NodeResult {
        node: node.copy(alloc)?,
        how,
        diags,
        bytes: None,
    };
    let content = Content {
        module: Text::new(alloc),
        datas: List::new(alloc),
    };
    put(done, outcome, content, false)
}

/// Keeps a sound node, all of whose needs are sound.
pub fn put_sound(
    alloc: Global,
    done: &mut Done,
    unit: &[u8],
    node: &Node,
    content: Content,
) -> Result<(), NoMemory>
    requires sound { IsSound unit.now content }
    requires fits { Fits unit.now content }
    ensures results { OnOk result (HasSound unit.now node.now content done.old.results done.new.results) }
    ensures contents { OnOk result (done.new.contents.items ≡ done.old.contents.items ++ content ∷ []) }
    ensures kept { OnOk result (done.new.sound.items ≡ done.old.sound.items ++ true ∷ []) }
{
    let interface = interface_bytes(alloc, unit, &content)?;
    let bytes = Bytes::from_vec(interface.into_vec())?;
    let outcome = NodeResult {
        node: node.copy(alloc)?,
        how: how_checked(alloc),
        diags: List::new(alloc),
        bytes: Some(bytes),
    };
    put(done, outcome, content, true)
}
