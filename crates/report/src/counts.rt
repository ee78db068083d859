//! How many nodes there are of each kind.
ghost use Rattle.std.specs.Prelude.{List, ◌≡◌};
ghost use Rattle.face_model.specs.declared.result.NodeResult.{NodeResult as Entry};
ghost use Rattle.report.specs.Report.{AreNamed, IsNamed, blocked_count, checked_count, count_of, failed_count, rows_of, standing_of};
ghost use Rattle.report.specs.Report as report;

use face_model::result::{How, NodeResult};

// The sound nodes.
pub fn count_sound(nodes: &[NodeResult]) -> usize
    ensures { result ≡ count_of (λ r. r.sound) (rows_of nodes.now) }
{
    let mut count = 0;
    for entry in nodes {
        if entry.bytes.is_some() {
            count += 1;
        }
    }
    count
}

// The nodes that were checked.
pub fn count_checked(nodes: &[NodeResult]) -> usize
    requires { AreNamed nodes.now }
    ensures { result ≡ checked_count (rows_of nodes.now) }
{
    let mut count = 0;
    for entry in nodes {
        if was_checked(&entry.how) {
            count += 1;
        }
    }
    count
}

// The nodes with errors of their own, in the graph of imports or found when they were checked.
pub fn count_failed(nodes: &[NodeResult]) -> usize
    requires { AreNamed nodes.now }
    ensures { result ≡ failed_count (rows_of nodes.now) }
{
    let mut count = 0;
    for entry in nodes {
        if has_failed(&entry.how, entry.bytes.is_some()) {
            count += 1;
        }
    }
    count
}

// The nodes that weren't checked because of a node that they need.
pub fn count_blocked(nodes: &[NodeResult]) -> usize
    requires { AreNamed nodes.now }
    ensures { result ≡ blocked_count (rows_of nodes.now) }
{
    let mut count = 0;
    for entry in nodes {
        if is_blocked(&entry.how) {
            count += 1;
        }
    }
    count
}

fn was_checked(how: &How) -> bool
    ensures { (rs : List Entry) → IsNamed rs how.now → result ≡ report.is_checked (standing_of rs how.now) }
{
    matches!(
        how,
        How::Checked {
            reason: _,
            subject: _,
        }
    )
}

fn has_failed(how: &How, sound: bool) -> bool
    ensures { (rs : List Entry) → IsNamed rs how.now → result ≡ report.is_failed (standing_of rs how.now) sound }
{
    match how {
        How::Graph => true,
        How::Checked {
            reason: _,
            subject: _,
        } => !sound,
        How::Current | How::Blocked(_) => false,
    }
}

fn is_blocked(how: &How) -> bool
    ensures { (rs : List Entry) → IsNamed rs how.now → result ≡ report.is_blocked (standing_of rs how.now) }
{
    matches!(how, How::Blocked(_))
}
