//! The top call.
ghost use Rattle.std.specs.Prelude.{◌≡◌, ◌⊎◌, ◌↔◌, List, ℕ, map, true, false, string_bytes, IfSome, IsTrue};
ghost use Rattle.std.specs.Io.KnownBytes.{Appends};
ghost use Rattle.mk_io.specs.Outside.{AppendsFront, Rose};
ghost use Rattle.hsmake_top.specs.Session.{Ended, EndedBad, HasText, HasWritten, IsSession};
ghost use Rattle.hsmake_top.specs.Stopped.{HasConsumed, StoppedReading, StoppedWriting};
ghost use Rattle.hsmake_top.specs.Turn.{HasDone, IsEnd, IsProgress, IsWhole};
ghost use Rattle.std.specs.declared.option.Option.{Option};
ghost use Rattle.hsmake_top.specs.Usage.{usage_line};

use crate::turn::{Progress, turn};
use mk_base::status::Status;
use mk_base::steps::{Ledger, Steps};
use mk_io::outside::{IoErr, Sink, Source};
use mk_io::write::write_all;
use std::alloc::Global;

/// What is printed for a faulty command line.
const USAGE: &[u8] =
    b"usage: hsmake session | make [--jobs N] [--unit NAME] [--prelude] [EXT ...] | show FILE\n";

/// Whether the words are the one word `session`.
fn is_session(words: &[String]) -> bool
    ensures { IsTrue result ↔ IsSession (map string_bytes words.now) }
{
    words.len() == 1 && words[0].as_bytes() == b"session".as_slice()
}

/// Answers a faulty command line.
fn end_usage<K: Sink>(output: &mut K) -> Status
    ensures answer { (result ≡ Status.Usage) ⊎ (result ≡ Status.NoMemory) }
    ensures front { AppendsFront (K.taken output.old) (K.taken output.new) usage_line }
    ensures whole { result ≡ Status.Usage → (Rose (K.faults output.old) (K.faults output.new) → ⊥) → Appends (K.taken output.old) (K.taken output.new) usage_line }
{
    match write_all(output, USAGE) {
        Ok(()) => Status::Usage,
        Err(IoErr::Failed) => Status::Usage,
        Err(IoErr::NoMemory) => Status::NoMemory,
    }
}

/// Reads commands and writes the replies, up to `quit`.
fn go_on<S: Source, K: Sink, L: Ledger>(
    alloc: Global,
    progress: &mut Progress,
    input: &mut S,
    output: &mut K,
    steps: &mut Steps<L>,
) -> Status
    requires { IsProgress progress.old }
    ensures ends { (left taken : Option (List ℕ)) (checks : ℕ) → HasDone left (S.left input.old) taken (K.taken output.old) checks steps.old progress.old → IsEnd left (S.left input.new) taken (K.taken output.new) checks steps.new result }
    ensures read { result ≡ Status.ReadFault → Rose (S.faults input.old) (S.faults input.new) }
    ensures write { result ≡ Status.WriteFault → Rose (K.faults output.old) (K.faults output.new) }
    ensures read_alone { result ≡ Status.ReadFault → K.faults output.new ≡ K.faults output.old }
    ensures write_alone { result ≡ Status.WriteFault → S.faults input.new ≡ S.faults input.old }
    ensures none { IsWhole result → (S.faults input.new ≡ S.faults input.old) × (K.faults output.new ≡ K.faults output.old) }
    ensures others { (result ≡ Status.Usage → ⊥) × (result ≡ Status.StoreFault → ⊥) }
{
    loop {
        if let Some(status) = turn(alloc, progress, input, output, steps) {
            return status;
        }
    }
}

/// Carries out a session.
fn run_session<S: Source, K: Sink, L: Ledger>(
    alloc: Global,
    input: &mut S,
    output: &mut K,
    steps: &mut Steps<L>,
) -> Status
    ensures ends { IsEnd (S.left input.old) (S.left input.new) (K.taken output.old) (K.taken output.new) steps.old steps.new result }
    ensures read { result ≡ Status.ReadFault → Rose (S.faults input.old) (S.faults input.new) }
    ensures write { result ≡ Status.WriteFault → Rose (K.faults output.old) (K.faults output.new) }
    ensures read_alone { result ≡ Status.ReadFault → K.faults output.new ≡ K.faults output.old }
    ensures write_alone { result ≡ Status.WriteFault → S.faults input.new ≡ S.faults input.old }
    ensures none { IsWhole result → (S.faults input.new ≡ S.faults input.old) × (K.faults output.new ≡ K.faults output.old) }
    ensures others { (result ≡ Status.Usage → ⊥) × (result ≡ Status.StoreFault → ⊥) }
{
    let Ok(mut progress) = Progress::new(alloc) else {
        return Status::NoMemory;
    };
    go_on(alloc, &mut progress, input, output, steps)
}

/// Carries out a command line, without threads.
pub fn run_alone<S: Source, K: Sink, L: Ledger>(
    alloc: Global,
    words: &[String],
    input: &mut S,
    output: &mut K,
    steps: &mut Steps<L>,
) -> Status
    // Done and Failed: the input is a script up to `quit`, the output took its replies, and Failed says that a build failed.
    ensures done { result ≡ Status.Done → IfSome (S.left input.old) (λ bytes. (text : List ℕ) × Ended bytes false steps.old steps.new text × Appends (K.taken output.old) (K.taken output.new) text) }
    ensures failed { result ≡ Status.Failed → IfSome (S.left input.old) (λ bytes. (text : List ℕ) × Ended bytes true steps.old steps.new text × Appends (K.taken output.old) (K.taken output.new) text) }
    // BadScript: the input is a bad script, and the output took the replies before the bad place and the line that names it.
    ensures bad { result ≡ Status.BadScript → IfSome (S.left input.old) (λ bytes. (text : List ℕ) × EndedBad bytes steps.old steps.new text × Appends (K.taken output.old) (K.taken output.new) text) }
    // Whatever the answer, the input begins with some commands, and the output took a front of their replies, or of these
    // and the last line where the script is bad behind them; so it took a front of the text of the input.
    ensures begun { IsSession (map string_bytes words.now) → IfSome (S.left input.old) (λ bytes. HasWritten bytes (K.taken output.old) (K.taken output.new)) }
    ensures front { IsSession (map string_bytes words.now) → IfSome (S.left input.old) (λ bytes. (text : List ℕ) → HasText bytes text → AppendsFront (K.taken output.old) (K.taken output.new) text) }
    // Other words are answered by the usage line, and the input isn't looked at.
    ensures usage { result ≡ Status.Usage → IsSession (map string_bytes words.now) → ⊥ }
    ensures usage_front { (IsSession (map string_bytes words.now) → ⊥) → ((result ≡ Status.Usage) ⊎ (result ≡ Status.NoMemory)) × AppendsFront (K.taken output.old) (K.taken output.new) usage_line × (input.new ≡ input.old) × (steps.new ≡ steps.old) }
    ensures usage_whole { result ≡ Status.Usage → (Rose (K.faults output.old) (K.faults output.new) → ⊥) → Appends (K.taken output.old) (K.taken output.new) usage_line }
    // A fault is answered only where the count of its stream rose, and Done, Failed and BadScript only where no count rose.
    ensures read { result ≡ Status.ReadFault → Rose (S.faults input.old) (S.faults input.new) }
    ensures write { result ≡ Status.WriteFault → Rose (K.faults output.old) (K.faults output.new) }
    ensures none { (result ≡ Status.Done) ⊎ ((result ≡ Status.Failed) ⊎ (result ≡ Status.BadScript)) → (S.faults input.new ≡ S.faults input.old) × (K.faults output.new ≡ K.faults output.old) }
    ensures store { result ≡ Status.StoreFault → ⊥ }
    // At a fault of one stream the count of the other stays.
    ensures read_alone { result ≡ Status.ReadFault → K.faults output.new ≡ K.faults output.old }
    ensures write_alone { result ≡ Status.WriteFault → S.faults input.new ≡ S.faults input.old }
    // ReadFault: some commands were carried out, and what was read behind them is a proper beginning of one more; the
    // output took their replies, and their checks are counted.
    ensures read_counted { result ≡ Status.ReadFault → IfSome (S.left input.old) (λ bytes. StoppedReading bytes (S.left input.new) steps.old steps.new (K.taken output.old) (K.taken output.new)) }
    // WriteFault: the output took the replies to some commands and a front of the next reply, whose checks are counted
    // too, or, where the script is bad behind these, a front of the line that names the bad place.
    ensures write_counted { result ≡ Status.WriteFault → IfSome (S.left input.old) (λ bytes. StoppedWriting bytes steps.old steps.new (K.taken output.old) (K.taken output.new)) }
    // Whatever the answer, what had been read before the last read was commands other than `quit` and a proper
    // beginning of one more; so no more than one read goes past a `quit` or a bad place.
    ensures consumed { IfSome (S.left input.old) (λ bytes. IfSome (S.left input.new) (λ rest. HasConsumed bytes rest)) }
{
    if is_session(words) {
        run_session(alloc, input, output, steps)
    } else {
        end_usage(output)
    }
}
