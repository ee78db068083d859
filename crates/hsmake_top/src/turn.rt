//! One turn of a session: a command is read and carried out, and its reply written.
ghost use Rattle.std.specs.Prelude.{◌≡◌, ◌⊎◌, ◌||◌, ◌<◌, ◌≤◌, ◌+◌, ◌^◌, List, ℕ, true, false, length, IfOk, OnOk, OnErr, IfSome, IfNone, IsTrue, Some};
ghost use Rattle.std.specs.declared.option.Option.{Option};
ghost use Rattle.std.specs.Io.KnownBytes.{Appends};
ghost use Rattle.mk_io.specs.Outside.{AppendsFront, HasIoCause, IsFailed, Rose};
ghost use Rattle.session_lang.specs.Meant.{said, AreSpansOf};
ghost use Rattle.session_lang.specs.Spelling.{IsCommand, Quit};
ghost use Rattle.hsmake_top.specs.Session.{after, bad_line, checks, fails, reply_of};
ghost use Rattle.hsmake_top.specs.Ahead.{place};
ghost use Rattle.hsmake_top.specs.Kept.{IsKept, state_of};
ghost use Rattle.hsmake_top.specs.Turn.{HasDone, IsEnd, IsProgress, IsWhole};

use crate::script::{Next, Script};
use crate::session::Session;
use mk_base::memory::NoMemory;
use mk_base::status::Status;
use mk_base::steps::{Ledger, Steps};
use mk_io::outside::{IoErr, Sink, Source};
use mk_io::write::write_all;
use session_lang::command::Command;
use std::alloc::{AllocError, Global};

/// How far a session is: its script, its tree and flags, and whether a build failed.
#[derive(Drop)]
pub struct Progress {
    script: Script,
    session: Session,
    failed: bool,
}

impl Progress {
    /// A session before its first command.
    pub fn new(alloc: Global) -> Result<Progress, NoMemory>
        ensures progress { IfOk result IsProgress }
        ensures done { IfOk result (λ p. (left taken : Option (List ℕ)) (checks : ℕ) → HasDone left left taken taken checks checks p) }
    {
        let session = Session::new(alloc)?;
        Ok(Progress {
            script: Script::new(alloc),
            session,
            failed: false,
        })
    }
}

fn bad_line_text(alloc: Global, at: usize) -> Result<Vec<u8>, AllocError>
    ensures { IfOk result (λ v. v.items ≡ bad_line at) }
{
    let mut text = format!(in alloc; "bad script at byte {at}")?.into_bytes();
    text.push(b'\n')?;
    Ok(text)
}

/// Ends a bad script by the line that names the bad place.
fn end_bad<K: Sink>(alloc: Global, output: &mut K, at: usize) -> Status
    ensures bad { result ≡ Status.BadScript → Appends (K.taken output.old) (K.taken output.new) (bad_line at) }
    ensures front { AppendsFront (K.taken output.old) (K.taken output.new) (bad_line at) }
    ensures write { result ≡ Status.WriteFault → Rose (K.faults output.old) (K.faults output.new) }
    ensures none { result ≡ Status.BadScript → K.faults output.new ≡ K.faults output.old }
    ensures answer { (result ≡ Status.BadScript) ⊎ ((result ≡ Status.WriteFault) ⊎ (result ≡ Status.NoMemory)) }
{
    let Ok(text) = bad_line_text(alloc, at) else {
        return Status::NoMemory;
    };
    match write_all(output, &text) {
        Ok(()) => Status::BadScript,
        Err(IoErr::Failed) => Status::WriteFault,
        Err(IoErr::NoMemory) => Status::NoMemory,
    }
}

fn is_quit(command: Command) -> bool
    ensures yes { IsTrue result → (bytes : List ℕ) → said bytes command ≡ Quit }
    ensures no { result ≡ false → (bytes : List ℕ) → said bytes command ≡ Quit → ⊥ }
{
    match command {
        Command::Quit => true,
        Command::Put { path: _, body: _ } => false,
        Command::Flags(_) => false,
        Command::Build(_) => false,
        Command::Del(_) => false,
    }
}

fn either(first: bool, second: bool) -> bool
    ensures { result ≡ (first || second) }
{
    first || second
}

/// How a good script ends.
fn good_end(failed: bool) -> Status
    ensures done { result ≡ Status.Done → failed ≡ false }
    ensures failed { result ≡ Status.Failed → failed ≡ true }
    ensures answer { (result ≡ Status.Done) ⊎ (result ≡ Status.Failed) }
{
    if failed { Status::Failed } else { Status::Done }
}

/// Carries out a command and writes its reply. Whether it was a build that failed.
fn reply<K: Sink, L: Ledger>(
    alloc: Global,
    session: &mut Session,
    bytes: &[u8],
    command: Command,
    output: &mut K,
    steps: &mut Steps<L>,
) -> Result<bool, IoErr>
    requires kept { IsKept session.old }
    requires few { length session.old.input.files < 2 ^ 31 }
    requires command { IsCommand (said bytes.now command) }
    requires spans { AreSpansOf (length bytes.now) command }
    ensures kept { OnOk result (IsKept session.new) }
    ensures state { OnOk result (state_of session.new ≡ after (state_of session.old) (said bytes.now command)) }
    ensures few { OnOk result (length session.new.input.files ≤ length session.old.input.files + 1) }
    ensures failed { IfOk result (λ f. f ≡ fails (state_of session.old) (said bytes.now command)) }
    ensures checks { OnOk result (steps.new ≡ steps.old + checks (state_of session.old) (said bytes.now command)) }
    ensures counted { IsFailed result → steps.new ≡ steps.old + checks (state_of session.old) (said bytes.now command) }
    ensures whole { OnOk result (Appends (K.taken output.old) (K.taken output.new) (reply_of (state_of session.old) (said bytes.now command))) }
    ensures front { OnErr result (AppendsFront (K.taken output.old) (K.taken output.new) (reply_of (state_of session.old) (said bytes.now command))) }
    ensures cause { HasIoCause (K.faults output.old) (K.faults output.new) result }
{
    let reply = session.execute(alloc, bytes, command, steps)?;
    write_all(output, reply.text.as_slice())?;
    Ok(reply.failed)
}

/// Takes a turn. Some answer ends the session.
pub fn turn<S: Source, K: Sink, L: Ledger>(
    alloc: Global,
    progress: &mut Progress,
    input: &mut S,
    output: &mut K,
    steps: &mut Steps<L>,
) -> Option<Status>
    requires { IsProgress progress.old }
    ensures progress { IfNone result (IsProgress progress.new) }
    ensures further { IfNone result (place progress.old.script < place progress.new.script) }
    ensures goes { IfNone result ((left taken : Option (List ℕ)) (checks : ℕ) → HasDone left (S.left input.old) taken (K.taken output.old) checks steps.old progress.old → HasDone left (S.left input.new) taken (K.taken output.new) checks steps.new progress.new) }
    ensures faults { IfNone result ((S.faults input.new ≡ S.faults input.old) × (K.faults output.new ≡ K.faults output.old)) }
    ensures ends { IfSome result (λ answer. (left taken : Option (List ℕ)) (checks : ℕ) → HasDone left (S.left input.old) taken (K.taken output.old) checks steps.old progress.old → IsEnd left (S.left input.new) taken (K.taken output.new) checks steps.new answer) }
    ensures read { result ≡ Some Status.ReadFault → Rose (S.faults input.old) (S.faults input.new) }
    ensures write { result ≡ Some Status.WriteFault → Rose (K.faults output.old) (K.faults output.new) }
    ensures read_alone { result ≡ Some Status.ReadFault → K.faults output.new ≡ K.faults output.old }
    ensures write_alone { result ≡ Some Status.WriteFault → S.faults input.new ≡ S.faults input.old }
    ensures whole { IfSome result (λ answer. IsWhole answer → (S.faults input.new ≡ S.faults input.old) × (K.faults output.new ≡ K.faults output.old)) }
    ensures others { IfSome result (λ answer. (answer ≡ Status.Usage → ⊥) × (answer ≡ Status.StoreFault → ⊥)) }
{
    let next = match progress.script.next(input) {
        Ok(next) => next,
        Err(IoErr::Failed) => return Some(Status::ReadFault),
        Err(IoErr::NoMemory) => return Some(Status::NoMemory),
    };
    match next {
        Next::Bad(at) => Some(end_bad(alloc, output, at)),
        Next::Whole { command, used } => {
            if is_quit(command) {
                return Some(good_end(progress.failed));
            }
            let bytes = progress.script.ahead();
            match reply(alloc, &mut progress.session, bytes, command, output, steps) {
                Ok(failed) => {
                    progress.failed = either(progress.failed, failed);
                    progress.script.advance(used);
                    None
                }
                Err(IoErr::Failed) => Some(Status::WriteFault),
                Err(IoErr::NoMemory) => Some(Status::NoMemory),
            }
        }
    }
}
