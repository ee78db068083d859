//! That results are told apart and copied.
use crate::samples::{check_plain, node, one, text};
use bytes::Bytes;
use face_model::result::{BuildResult, How, NodeResult, Reason};
use mk_base::diag::Diag;
use mk_base::fingerprint::Fingerprint;
use mk_base::list::List;
use mk_base::place::{NodeId, Pos};
use std::alloc::AllocGlobal;
use std::process::Abort;

fn usage(at: u32) -> Reason {
    Reason::Usage {
        at,
        was: Some(Fingerprint([7; 16])),
        now: None,
    }
}

fn checked(rt: &(impl Abort + AllocGlobal), subject: &[u8]) -> How {
    How::Checked {
        reason: usage(2),
        subject: text(rt, subject),
    }
}

fn sound(rt: &(impl Abort + AllocGlobal), bytes: &'static [u8]) -> NodeResult {
    NodeResult {
        node: node(rt, b"Data.Bag"),
        how: checked(rt, b"usage Data.List"),
        diags: List::new(rt.alloc()),
        bytes: Some(Bytes::from_static(bytes)),
    }
}

fn failed(rt: &(impl Abort + AllocGlobal), line: u32) -> NodeResult {
    let diag = Diag {
        at: Pos { line, col: 1 },
        code: 21,
        text: text(rt, b"no such name"),
    };
    NodeResult {
        node: node(rt, b"Data.Bag"),
        how: How::Graph,
        diags: one(rt, diag),
        bytes: None,
    }
}

fn build(rt: &(impl Abort + AllocGlobal), bytes: &'static [u8]) -> BuildResult {
    BuildResult {
        nodes: one(rt, sound(rt, bytes)),
    }
}

fn check_hows(rt: &(impl Abort + AllocGlobal)) {
    check_plain(rt, How::Current, How::Graph);
    check_plain(rt, checked(rt, b"one"), checked(rt, b"two"));
    check_plain(rt, How::Graph, How::Blocked(NodeId(0)));
    check_plain(rt, How::Blocked(NodeId(0)), How::Blocked(NodeId(1)));
}

#[test]
fn results_are_plain(rt: HostRuntime) {
    check_plain(&rt, usage(2), usage(3));
    check_hows(&rt);
    check_plain(&rt, sound(&rt, b"one"), sound(&rt, b"two"));
    check_plain(&rt, failed(&rt, 1), failed(&rt, 2));
    check_plain(&rt, build(&rt, b"one"), build(&rt, b"two"));
}
