//! Whole sessions with their outputs, worked out by hand.
use crate::tests::{Streams, answer, play};
use mk_base::status::Status;
use std::test::Fail;

const TWO_MODULES: &str =
    "flags NoImplicitPrelude\nput A.hs 26\nmodule A where\ndata T = C\n\nput B.hs 37\nmodule B where\nimport A\ndata U = D T\n\nbuild 1\nquit\n";

const TWO_REPORTS: &str =
    "A: checked: no interface\nB: checked: no interface\nbuild: 2 ok, 2 checked, 0 failed, 0 blocked\n";

/// A second build checks all modules again.
#[test]
fn nothing_is_kept_from_a_build(rt: HostRuntime) -> Result<(), Fail> {
    let script =
        b"flags NoImplicitPrelude\nput A.hs 26\nmodule A where\ndata T = C\n\nbuild 1\nbuild 1\nquit\n";
    let report =
        b"A: checked: no interface\nbuild: 1 ok, 1 checked, 0 failed, 0 blocked\nA: checked: no interface\nbuild: 1 ok, 1 checked, 0 failed, 0 blocked\n";
    let (status, written) = answer(&rt, rt.alloc(), script, 1000, &[], &[])?;
    assert_eq!(rt; status, Status::Done);
    assert_eq!(rt; written.as_slice(), report.as_slice());
    Ok(())
}

/// Bad scripts with their outputs.
#[test]
fn bad_scripts_have_these_outputs(rt: HostRuntime) -> Result<(), Fail> {
    let rows: [(&str, &str, &str); 7] = [
        (
            "no command",
            "build 1\nfoo\n",
            "build: 0 ok, 0 checked, 0 failed, 0 blocked\nbad script at byte 8\n",
        ),
        (
            "an early end in a file",
            "put A.hs 3\nab",
            "bad script at byte 0\n",
        ),
        (
            "an early end behind a build",
            "build 1\n",
            "build: 0 ok, 0 checked, 0 failed, 0 blocked\nbad script at byte 8\n",
        ),
        ("nothing", "", "bad script at byte 0\n"),
        (
            "a file whose line feed is missing",
            "put A.hs 1\nabc\n",
            "bad script at byte 0\n",
        ),
        ("two jobs", "build 2\nquit\n", "bad script at byte 0\n"),
        (
            "a path with a control",
            "flags NoImplicitPrelude\nput A\t.hs 0\n\nquit\n",
            "bad script at byte 24\n",
        ),
    ];
    for (name, script, output) in rows {
        let (status, written) = answer(&rt, rt.alloc(), script.as_bytes(), 2, &[], &[])?;
        assert_eq!(rt; status, Status::BadScript, "{name}");
        assert_eq!(rt; written.as_slice(), output.as_bytes(), "{name}");
    }
    Ok(())
}

/// Whichever read fails, what was written is a front of the output.
#[test]
fn each_read_fails_in_turn(rt: HostRuntime) -> Result<(), Fail> {
    for piece in [1usize, 2, 1000] {
        for call in 0..200u64 {
            let (status, written) = answer(
                &rt,
                rt.alloc(),
                TWO_MODULES.as_bytes(),
                piece,
                &[call],
                &[],
            )?;
            assert!(rt;
                TWO_REPORTS.as_bytes().starts_with(written.as_slice()),
                "read {call}"
            );
            if status == Status::Done {
                assert_eq!(rt; written.as_slice(), TWO_REPORTS.as_bytes(), "read {call}");
            } else {
                assert_eq!(rt; status, Status::ReadFault, "read {call}");
                assert!(rt; call < 160, "read {call}");
            }
        }
    }
    Ok(())
}

/// Whichever write fails, what was written is a front of the output.
#[test]
fn each_write_fails_in_turn(rt: HostRuntime) -> Result<(), Fail> {
    for call in 0..4u64 {
        let (status, written) = answer(
            &rt,
            rt.alloc(),
            TWO_MODULES.as_bytes(),
            1000,
            &[],
            &[call],
        )?;
        assert!(rt;
            TWO_REPORTS.as_bytes().starts_with(written.as_slice()),
            "write {call}"
        );
        if status == Status::Done {
            assert_eq!(rt; written.as_slice(), TWO_REPORTS.as_bytes(), "write {call}");
            assert!(rt; call > 0, "write {call}");
        } else {
            assert_eq!(rt; status, Status::WriteFault, "write {call}");
        }
    }
    Ok(())
}

// Two builds of one module, of which the first command ends behind byte 60 and the second behind byte 68.
const TWO_BUILDS: &[u8] =
    b"flags NoImplicitPrelude\nput A.hs 15\nmodule A where\n\nbuild 1\nbuild 1\nquit\n";

// One build of that module, and then a word that is no command, of which two bytes tell so.
const BAD_BEHIND_A_BUILD: &[u8] =
    b"flags NoImplicitPrelude\nput A.hs 15\nmodule A where\n\nbuild 1\nfoo\n";

// The reports of the two builds, 69 bytes each.
const ALIKE_REPORTS: &[u8] =
    b"A: checked: no interface\nbuild: 1 ok, 1 checked, 0 failed, 0 blocked\nA: checked: no interface\nbuild: 1 ok, 1 checked, 0 failed, 0 blocked\n";

/// Where a read fails, the commands that were read whole before it are carried out, counted and answered, and no more.
#[test]
fn a_read_fails_behind_builds(rt: HostRuntime) -> Result<(), Fail> {
    // the most bytes of a read, the read that fails, and then the bytes written, the checks and the bytes left
    let rows: [(usize, u64, usize, u64, usize); 6] = [
        (1, 59, 0, 0, 14),
        (1, 60, 69, 1, 13),
        (1, 67, 69, 1, 6),
        (1, 68, 138, 2, 5),
        (10, 6, 69, 1, 13),
        (10, 7, 138, 2, 3),
    ];
    for (read_piece, call, written, checks, left) in rows {
        let reads = [call];
        let streams = Streams {
            read_piece,
            reads: &reads,
            write_piece: 1000,
            writes: &[],
        };
        let outcome = play(&rt, rt.alloc(), TWO_BUILDS, streams)?;
        assert_eq!(rt; outcome.status, Status::ReadFault, "read {call}");
        assert_eq!(rt;
            outcome.written.as_slice(),
            &ALIKE_REPORTS[..written],
            "read {call}"
        );
        assert_eq!(rt; outcome.checks, checks, "read {call}");
        assert_eq!(rt; outcome.read_faults, 1, "read {call}");
        assert_eq!(rt; outcome.write_faults, 0, "read {call}");
        assert_eq!(rt; outcome.left, left, "read {call}");
    }
    Ok(())
}

/// Where a write fails within the reply to a build, that build is counted and no later one.
#[test]
fn a_write_fails_within_a_reply(rt: HostRuntime) -> Result<(), Fail> {
    // the write that fails, of at most ten bytes, and then the bytes written, the checks and the bytes left
    let rows: [(u64, usize, u64, usize); 4] = [
        (0, 0, 1, 13),
        (3, 30, 1, 13),
        (7, 69, 2, 5),
        (9, 89, 2, 5),
    ];
    for (call, written, checks, left) in rows {
        let writes = [call];
        let streams = Streams {
            read_piece: 1,
            reads: &[],
            write_piece: 10,
            writes: &writes,
        };
        let outcome = play(&rt, rt.alloc(), TWO_BUILDS, streams)?;
        assert_eq!(rt; outcome.status, Status::WriteFault, "write {call}");
        assert_eq!(rt;
            outcome.written.as_slice(),
            &ALIKE_REPORTS[..written],
            "write {call}"
        );
        assert_eq!(rt; outcome.checks, checks, "write {call}");
        assert_eq!(rt; outcome.read_faults, 0, "write {call}");
        assert_eq!(rt; outcome.write_faults, 1, "write {call}");
        assert_eq!(rt; outcome.left, left, "write {call}");
    }
    Ok(())
}

/// The same in the last line of a bad script.
#[test]
fn a_write_fails_within_the_last_line(rt: HostRuntime) -> Result<(), Fail> {
    let streams = Streams {
        read_piece: 1,
        reads: &[],
        write_piece: 10,
        writes: &[8],
    };
    let outcome = play(&rt, rt.alloc(), BAD_BEHIND_A_BUILD, streams)?;
    assert_eq!(rt; outcome.status, Status::WriteFault);
    assert_eq!(rt; outcome.written.len(), 79);
    assert!(rt;
        outcome
            .written
            .as_slice()
            .ends_with(b"0 blocked\nbad script")
    );
    assert_eq!(rt; outcome.checks, 1);
    assert_eq!(rt; outcome.write_faults, 1);
    assert_eq!(rt; outcome.left, 2);
    Ok(())
}

/// No more than the read that brought `quit` goes past it.
#[test]
fn bytes_behind_quit_stay_unread(rt: HostRuntime) -> Result<(), Fail> {
    let mut script = Vec::from_slice(rt.alloc(), b"build 1\nquit\n")?;
    script.extend_from_slice(&[b'x'; 9000])?;
    for (read_piece, left) in [(1usize, 9000usize), (10, 8993), (13, 9000), (100_000, 821)] {
        let streams = Streams {
            read_piece,
            reads: &[],
            write_piece: 1000,
            writes: &[],
        };
        let outcome = play(&rt, rt.alloc(), &script, streams)?;
        assert_eq!(rt; outcome.status, Status::Done, "{read_piece}");
        assert_eq!(rt; outcome.left, left, "{read_piece}");
    }
    Ok(())
}
