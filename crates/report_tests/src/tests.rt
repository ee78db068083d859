//! Reports of small builds, written out by hand.
ghost use Rattle.std.specs.Prelude.{List as Entries, ◌≡◌, IfOk};
ghost use Rattle.face_model.specs.declared.result.NodeResult.{NodeResult as Entry};
ghost use Rattle.report.specs.Report.{AreNamed, IsNamed};

use bytes::Bytes;
use face_model::result::{BuildResult, How, NodeResult, Reason};
use mk_base::diag::Diag;
use mk_base::fingerprint::Fingerprint;
use mk_base::list::List;
use mk_base::memory::NoMemory;
use mk_base::name::{ModName, Node};
use mk_base::place::{NodeId, Pos};
use mk_base::text::Text;
use report::report::report_text;
use std::alloc::Global;
use std::test::Fail;

const WAS: Fingerprint = Fingerprint([0, 1, 2, 3, 4, 5, 6, 7, 8, 9, 10, 11, 12, 13, 14, 15]);

const NOW: Fingerprint = Fingerprint([
    0x4c, 0x6f, 0x72, 0x65, 0x6d, 0x00, 0xff, 0x10, 0xde, 0xad, 0xbe, 0xef, 0x80, 0x01, 0x02, 0x7f,
]);

fn node_of(alloc: Global, module: &[u8], boot: bool) -> Result<Node, NoMemory> {
    let text = Text::from_slice(alloc, module)?;
    Ok(Node {
        module: ModName { text },
        boot,
    })
}

fn diag_of(alloc: Global, line: u32, col: u32, code: u8, text: &[u8]) -> Result<Diag, NoMemory> {
    let text = Text::from_slice(alloc, text)?;
    Ok(Diag {
        at: Pos { line, col },
        code,
        text,
    })
}

fn checked(alloc: Global, reason: Reason, subject: &[u8]) -> Result<How, NoMemory>
    ensures { IfOk result (λ how. (rs : Entries Entry) → IsNamed rs how) }
{
    let subject = Text::from_slice(alloc, subject)?;
    Ok(How::Checked { reason, subject })
}

fn sound(alloc: Global, node: Node, how: How) -> NodeResult
    ensures { result.how ≡ how }
{
    NodeResult {
        node,
        how,
        diags: List::new(alloc),
        bytes: Some(Bytes::from_static(b"face")),
    }
}

fn failed(node: Node, how: How, diags: List<Diag>) -> NodeResult
    ensures { result.how ≡ how }
{
    NodeResult {
        node,
        how,
        diags,
        bytes: None,
    }
}

fn not_found(alloc: Global) -> Result<List<Diag>, NoMemory> {
    let mut diags = List::new(alloc);
    diags.push(diag_of(alloc, 2, 8, 10, b"module Z not found")?)?;
    diags.push(diag_of(alloc, 13, 1, 7, b"B is imported twice")?)?;
    Ok(diags)
}

fn not_in_scope(alloc: Global) -> Result<List<Diag>, NoMemory> {
    let mut diags = List::new(alloc);
    diags.push(diag_of(alloc, 12, 5, 121, b"not in scope: f")?)?;
    Ok(diags)
}

// A node of each standing; the boot node was checked and has a diagnostic, and D needs B.
fn build_of_five(alloc: Global) -> Result<BuildResult, NoMemory>
    ensures { IfOk result (λ build. AreNamed build.nodes) }
{
    let new = checked(alloc, Reason::NoInterface, b"")?;
    let a = sound(alloc, node_of(alloc, b"A", false)?, new);
    let b = failed(node_of(alloc, b"B", false)?, How::Graph, not_found(alloc)?);
    let changed = checked(alloc, Reason::Source { was: WAS, now: NOW }, b"")?;
    let c = failed(node_of(alloc, b"A.C", true)?, changed, not_in_scope(alloc)?);
    let d = failed(
        node_of(alloc, b"D", false)?,
        How::Blocked(NodeId(1)),
        List::new(alloc),
    );
    let e = sound(alloc, node_of(alloc, b"E", false)?, How::Current);
    let nodes = Vec::from_array(alloc, [a, b, c, d, e])?;
    Ok(BuildResult {
        nodes: List::from_vec(nodes),
    })
}

fn build_of_one(alloc: Global, reason: Reason, subject: &[u8]) -> Result<BuildResult, NoMemory>
    ensures { IfOk result (λ build. AreNamed build.nodes) }
{
    let how = checked(alloc, reason, subject)?;
    let entry = sound(alloc, node_of(alloc, b"A", false)?, how);
    let nodes = Vec::from_array(alloc, [entry])?;
    Ok(BuildResult {
        nodes: List::from_vec(nodes),
    })
}

#[test]
fn builds_are_reported(rt: HostRuntime) -> Result<(), Fail> {
    let empty = BuildResult {
        nodes: List::new(rt.alloc()),
    };
    let text = report_text(rt.alloc(), &empty)?;
    assert_eq!(rt;
        text.as_slice(),
        b"build: 0 ok, 0 checked, 0 failed, 0 blocked\n".as_slice()
    );
    let text = report_text(rt.alloc(), &build_of_five(rt.alloc())?)?;
    let want = "A: checked: no interface\n\
        B: failed\n\
        B.hs:2:8: error E10: module Z not found\n\
        B.hs:13:1: error E07: B is imported twice\n\
        A.C[boot]: checked: source: was 000102030405060708090a0b0c0d0e0f now 4c6f72656d00ff10deadbeef8001027f\n\
        A/C.hs-boot:12:5: error E121: not in scope: f\n\
        D: blocked by B\n\
        E: current\n\
        build: 2 ok, 2 checked, 2 failed, 1 blocked\n";
    assert_eq!(rt; text.as_slice(), want.as_bytes());
    Ok(())
}

#[test]
fn reasons_are_told(rt: HostRuntime) -> Result<(), Fail> {
    let (was, now) = (WAS, NOW);
    let kept = WAS;
    let found = NOW;
    for (reason, want) in [
        (Reason::Malformed, "malformed interface"),
        (Reason::Old { found: 1 }, "old interface"),
        (
            Reason::Damaged { kept, found },
            "damaged interface: kept 000102030405060708090a0b0c0d0e0f found 4c6f72656d00ff10deadbeef8001027f",
        ),
        (Reason::Other, "other interface"),
        (
            Reason::Flags { was, now },
            "flags: was 000102030405060708090a0b0c0d0e0f now 4c6f72656d00ff10deadbeef8001027f",
        ),
        (
            Reason::Usage {
                at: 2,
                was: Some(was),
                now: None,
            },
            "usage B.f: was 000102030405060708090a0b0c0d0e0f now none",
        ),
    ] {
        let build = build_of_one(rt.alloc(), reason, b"usage B.f")?;
        let text = report_text(rt.alloc(), &build)?;
        let want = format!(in rt.alloc();
            "A: checked: {want}\nbuild: 1 ok, 1 checked, 0 failed, 0 blocked\n"
        )?;
        assert_eq!(rt; text.as_slice(), want.as_bytes());
    }
    Ok(())
}
