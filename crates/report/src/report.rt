//! The report of a build, line by line.
ghost use Rattle.std.specs.Prelude.{◌≡◌, ◌++◌, ◌∷◌, [], IfOk, OnOk, codes};
ghost use Rattle.std.specs.List.{flat_map};
ghost use Rattle.std.specs.Fmt.{decimal};
ghost use Rattle.report.specs.Report.{AreNamed, IsNamed, code_text, diag_line, last_line, report_of, row_lines, row_of, rows_of, standing_of, standing_text};

use crate::counts::{count_blocked, count_checked, count_failed, count_sound};
use crate::names::{push_node, push_path};
use crate::reasons::push_reason;
use face_model::result::{BuildResult, How, NodeResult};
use mk_base::diag::Diag;
use mk_base::list::List;
use mk_base::memory::NoMemory;
use mk_base::name::Node;
use mk_base::place::Pos;
use mk_base::text::Text;
use std::alloc::Global;

/// The report of a build: for each node in order a line and a line for each of its diagnostics, then a line for the
/// whole build, each ended by a line feed.
pub fn report_text(alloc: Global, build: &BuildResult) -> Result<Text, NoMemory>
    requires { AreNamed build.now.nodes }
    ensures { IfOk result (λ text. text ≡ report_of (rows_of build.now.nodes)) }
{
    let nodes = build.nodes.as_slice();
    let mut out = List::new(alloc);
    push_rows(&mut out, nodes)?;
    push_last_line(&mut out, nodes)?;
    Ok(Text::from_vec(out.into_vec()))
}

// The lines of all the nodes.
fn push_rows(out: &mut List<u8>, nodes: &[NodeResult]) -> Result<(), NoMemory>
    requires { AreNamed nodes.now }
    ensures { OnOk result (out.new ≡ out.old ++ flat_map row_lines (rows_of nodes.now)) }
{
    for entry in nodes {
        push_row(out, nodes, entry)?;
    }
    Ok(())
}

// A node's line, and the lines of its diagnostics.
fn push_row(out: &mut List<u8>, nodes: &[NodeResult], entry: &NodeResult) -> Result<(), NoMemory>
    requires { IsNamed nodes.now entry.now.how }
    ensures { OnOk result (out.new ≡ out.old ++ row_lines (row_of nodes.now entry.now)) }
{
    push_node(out, &entry.node)?;
    push_standing(out, nodes, entry)?;
    out.push(b'\n')?;
    push_diags(out, &entry.node, entry.diags.as_slice())
}

// What there is to say of a node, behind its name.
fn push_standing(
    out: &mut List<u8>,
    nodes: &[NodeResult],
    entry: &NodeResult,
) -> Result<(), NoMemory>
    requires { IsNamed nodes.now entry.now.how }
    ensures { OnOk result (out.new ≡ out.old ++ standing_text (standing_of nodes.now entry.now.how)) }
{
    match &entry.how {
        How::Current => out.extend(b": current"),
        How::Checked { reason, subject } => {
            out.extend(b": checked: ")?;
            push_reason(out, reason, subject.as_slice())
        }
        How::Graph => out.extend(b": failed"),
        How::Blocked(need) => {
            out.extend(b": blocked by ")?;
            push_node(out, &nodes[need.0 as usize].node)
        }
    }
}

// The lines of a node's diagnostics.
fn push_diags(out: &mut List<u8>, node: &Node, diags: &[Diag]) -> Result<(), NoMemory>
    ensures { OnOk result (out.new ≡ out.old ++ flat_map (diag_line node.now) diags.now) }
{
    for diag in diags {
        push_diag(out, node, diag)?;
        out.push(b'\n')?;
    }
    Ok(())
}

// `PATH:LINE:COLUMN: error CODE: TEXT`, which with a line feed is the diagnostic's line.
fn push_diag(out: &mut List<u8>, node: &Node, diag: &Diag) -> Result<(), NoMemory>
    ensures { OnOk result (out.new ++ 10 ∷ [] ≡ out.old ++ diag_line node.now diag.now) }
{
    push_path(out, node)?;
    push_place(out, diag.at)?;
    push_error(out, diag)
}

// `:LINE:COLUMN`.
fn push_place(out: &mut List<u8>, at: Pos) -> Result<(), NoMemory>
    ensures { OnOk result (out.new ≡ out.old ++ 58 ∷ decimal at.line ++ 58 ∷ decimal at.col) }
{
    out.push(b':')?;
    out.push_number(u64::from(at.line))?;
    out.push(b':')?;
    out.push_number(u64::from(at.col))
}

// `: error CODE: TEXT`.
fn push_error(out: &mut List<u8>, diag: &Diag) -> Result<(), NoMemory>
    ensures { OnOk result (out.new ≡ out.old ++ codes ": error " ++ code_text diag.now.code ++ codes ": " ++ diag.now.text) }
{
    out.extend(b": error ")?;
    push_code(out, diag.code)?;
    out.extend(b": ")?;
    out.extend(diag.text.as_slice())
}

// `E` and at least two digits.
fn push_code(out: &mut List<u8>, code: u8) -> Result<(), NoMemory>
    ensures { OnOk result (out.new ≡ out.old ++ code_text code) }
{
    out.push(b'E')?;
    if code < 10 {
        out.push(b'0')?;
    }
    out.push_number(u64::from(code))
}

// The line for the whole build.
fn push_last_line(out: &mut List<u8>, nodes: &[NodeResult]) -> Result<(), NoMemory>
    requires { AreNamed nodes.now }
    ensures { OnOk result (out.new ≡ out.old ++ last_line (rows_of nodes.now)) }
{
    out.extend(b"build: ")?;
    push_count(out, count_sound(nodes), b" ok, ")?;
    push_count(out, count_checked(nodes), b" checked, ")?;
    push_count(out, count_failed(nodes), b" failed, ")?;
    push_count(out, count_blocked(nodes), b" blocked\n")
}

// The number, and what there are so many of.
fn push_count(out: &mut List<u8>, count: usize, what: &[u8]) -> Result<(), NoMemory>
    ensures { OnOk result (out.new ≡ out.old ++ decimal count ++ what.now) }
{
    out.push_number(count as u64)?;
    out.extend(what)
}
