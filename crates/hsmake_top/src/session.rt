//! The tree and the flags of a session, and what each command does to them.
ghost use Rattle.std.specs.Prelude.{◌≡◌, ◌≤◌, ◌<◌, ◌+◌, ◌^◌, [], false, IfOk, OnOk, length, not, is_some, set};
ghost use Rattle.std.specs.List.{list_any, remove};
ghost use Rattle.face_model.specs.declared.result.NodeResult.{NodeResult as ResultOfNode};
ghost use Rattle.session_lang.specs.Meant.{said, AreSpansOf};
ghost use Rattle.session_lang.specs.Spelling.{IsCommand, Build, Del, Flags};
ghost use Rattle.hsmake_top.specs.Session.{after, build_report, checks, fails, flag_by, flag_of, has_file, no_file_line, opening, put_file, reply_of, without_file};
ghost use Rattle.hsmake_top.specs.Kept.{IsKept, state_of};

use face_model::result::NodeResult;
use indexmap::IndexSet;
use mk_base::list::List;
use mk_base::memory::NoMemory;
use mk_base::name::Unit;
use mk_base::steps::{Ledger, Steps};
use mk_base::text::Text;
use mk_io::file::File;
use plain_build::build::{PlainBuild, build_plain};
use report::report::report_text;
use session_lang::command::Command;
use std::alloc::Global;
use std::mem;

/// The tree and the flags of a session, and the names of the files in their order.
#[derive(Drop)]
pub struct Session {
    input: PlainBuild,
    places: IndexSet<Text>,
}

/// What a command prints, and whether it was a build that failed.
#[derive(Drop)]
pub struct Reply {
    pub text: Text,
    pub failed: bool,
}

/// Puts a file in place of the one that stands at `at`, counted from 0.
fn replace_file(alloc: Global, files: &mut List<File>, at: usize, file: File)
    requires { at < length files.old }
    ensures { files.new ≡ set files.old at file }
{
    let mut all = mem::replace(files, List::new(alloc)).into_vec();
    all[at] = file;
    *files = List::from_vec(all);
}

/// Takes out the file that stands at `at`, counted from 0.
fn remove_file(alloc: Global, files: &mut List<File>, at: usize)
    requires { at < length files.old }
    ensures { files.new ≡ remove files.old at }
{
    let mut all = mem::replace(files, List::new(alloc)).into_vec();
    all.remove(at);
    *files = List::from_vec(all);
}

/// The line that says that no file has this name.
fn no_file_text(alloc: Global, path: &[u8]) -> Result<Text, NoMemory>
    ensures { IfOk result (λ t. t ≡ no_file_line path.now) }
{
    let mut text = Text::from_slice(alloc, b"del: no file ")?;
    text.push_slice(path)?;
    text.push_slice(b"\n")?;
    Ok(text)
}

/// What a word makes of a flag that `on` sets and `off` clears.
fn flag_by(on: &[u8], off: &[u8], flag: bool, word: &[u8]) -> bool
    ensures { result ≡ flag_by on.now off.now flag word.now }
{
    if word == on {
        true
    } else if word == off {
        false
    } else {
        flag
    }
}

/// Whether the flag that `on` sets and `off` clears is set behind the words, as it is before the first.
fn flag_of(words: &[u8], on: &[u8], off: &[u8]) -> bool
    ensures { result ≡ flag_of on.now off.now words.now }
{
    words
        .split(|byte| *byte == b' ')
        .fold(true, |flag, word| flag_by(on, off, flag, word))
}

/// Whether some node has no interface.
fn any_unsound(nodes: &[NodeResult]) -> bool
    ensures { result ≡ list_any (λ (r : ResultOfNode). not (is_some r.bytes)) nodes.now }
{
    nodes.iter().any(|node| node.bytes.is_none())
}

impl Session {
    /// A session with no file and both flags set.
    pub fn new(alloc: Global) -> Result<Session, NoMemory>
        ensures { IfOk result (λ s. IsKept s × (state_of s ≡ opening)) }
    {
        let input = PlainBuild {
            unit: Unit {
                text: Text::from_slice(alloc, b"main")?,
            },
            prelude: true,
            restrict: true,
            files: List::new(alloc),
            store: List::new(alloc),
        };
        Ok(Session {
            input,
            places: IndexSet::new(alloc),
        })
    }

    /// Puts a file where one of that name stands, or at the end.
    fn put(&mut self, alloc: Global, path: &[u8], body: &[u8]) -> Result<(), NoMemory>
        requires kept { IsKept self.old }
        requires path { length path.now < 2 ^ 32 }
        ensures kept { OnOk result (IsKept self.new) }
        ensures files { OnOk result (self.new.input.files ≡ put_file path.now body.now self.old.input.files) }
        ensures prelude { OnOk result (self.new.input.prelude ≡ self.old.input.prelude) }
        ensures restrict { OnOk result (self.new.input.restrict ≡ self.old.input.restrict) }
        ensures few { OnOk result (length self.new.input.files ≤ length self.old.input.files + 1) }
    {
        let name = Text::from_slice(alloc, path)?;
        let bytes = List::from_vec(Vec::from_slice(alloc, body)?);
        let (at, is_new) = self.places.insert_full(name.copy(alloc)?)?;
        let file = File { name, bytes };
        if is_new {
            self.input.files.push(file)?;
        } else {
            replace_file(alloc, &mut self.input.files, at, file);
        }
        Ok(())
    }

    /// Takes away the file of that name. Whether there was one.
    fn take_away(&mut self, alloc: Global, path: &[u8]) -> Result<bool, NoMemory>
        requires { IsKept self.old }
        ensures kept { OnOk result (IsKept self.new) }
        ensures found { IfOk result (λ found. found ≡ has_file path.now self.old.input.files) }
        ensures files { OnOk result (self.new.input.files ≡ without_file path.now self.old.input.files) }
        ensures prelude { OnOk result (self.new.input.prelude ≡ self.old.input.prelude) }
        ensures restrict { OnOk result (self.new.input.restrict ≡ self.old.input.restrict) }
        ensures few { OnOk result (length self.new.input.files ≤ length self.old.input.files) }
    {
        let name = Text::from_slice(alloc, path)?;
        let Some((at, _name)) = self.places.shift_remove_full(&name) else {
            return Ok(false);
        };
        remove_file(alloc, &mut self.input.files, at);
        Ok(true)
    }

    /// Takes away the file of that name, or says that there is none.
    fn delete(&mut self, alloc: Global, path: &[u8]) -> Result<Reply, NoMemory>
        requires { IsKept self.old }
        ensures kept { OnOk result (IsKept self.new) }
        ensures state { OnOk result (state_of self.new ≡ after (state_of self.old) (Del path.now)) }
        ensures few { OnOk result (length self.new.input.files ≤ length self.old.input.files) }
        ensures text { IfOk result (λ r. r.text ≡ reply_of (state_of self.old) (Del path.now)) }
        ensures failed { IfOk result (λ r. r.failed ≡ false) }
    {
        let found = self.take_away(alloc, path)?;
        let text = if found {
            Text::new(alloc)
        } else {
            no_file_text(alloc, path)?
        };
        Ok(Reply {
            text,
            failed: false,
        })
    }

    /// Sets both flags by the words, each with a space before it.
    fn set_flags(&mut self, words: &[u8])
        requires { IsKept self.old }
        ensures kept { IsKept self.new }
        ensures state { state_of self.new ≡ after (state_of self.old) (Flags words.now) }
    {
        self.input.prelude = flag_of(words, b"ImplicitPrelude", b"NoImplicitPrelude");
        self.input.restrict = flag_of(
            words,
            b"MonomorphismRestriction",
            b"NoMonomorphismRestriction",
        );
    }

    /// Builds the tree, and makes the report.
    fn build<L: Ledger>(&self, alloc: Global, steps: &mut Steps<L>) -> Result<Reply, NoMemory>
        requires kept { IsKept self.now }
        requires few { length self.now.input.files < 2 ^ 32 }
        ensures text { IfOk result (λ r. r.text ≡ build_report (state_of self.now)) }
        ensures failed { IfOk result (λ r. r.failed ≡ fails (state_of self.now) (Build 1)) }
        ensures checks { OnOk result (steps.new ≡ steps.old + checks (state_of self.now) (Build 1)) }
    {
        let built = build_plain(alloc, &self.input, steps)?;
        let text = report_text(alloc, &built)?;
        let failed = any_unsound(built.nodes.as_slice());
        Ok(Reply { text, failed })
    }

    /// Carries out a command whose spans lie in `bytes`.
    pub fn execute<L: Ledger>(
        &mut self,
        alloc: Global,
        bytes: &[u8],
        command: Command,
        steps: &mut Steps<L>,
    ) -> Result<Reply, NoMemory>
        requires kept { IsKept self.old }
        requires few { length self.old.input.files < 2 ^ 31 }
        requires command { IsCommand (said bytes.now command) }
        requires spans { AreSpansOf (length bytes.now) command }
        ensures kept { OnOk result (IsKept self.new) }
        ensures state { OnOk result (state_of self.new ≡ after (state_of self.old) (said bytes.now command)) }
        ensures few { OnOk result (length self.new.input.files ≤ length self.old.input.files + 1) }
        ensures text { IfOk result (λ r. r.text ≡ reply_of (state_of self.old) (said bytes.now command)) }
        ensures failed { IfOk result (λ r. r.failed ≡ fails (state_of self.old) (said bytes.now command)) }
        ensures checks { OnOk result (steps.new ≡ steps.old + checks (state_of self.old) (said bytes.now command)) }
    {
        match command {
            Command::Put { path, body } => {
                self.put(
                    alloc,
                    &bytes[path.start..path.end],
                    &bytes[body.start..body.end],
                )?;
            }
            Command::Flags(words) => self.set_flags(&bytes[words.start..words.end]),
            Command::Build(_) => return self.build(alloc, steps),
            Command::Quit => {}
            Command::Del(path) => return self.delete(alloc, &bytes[path.start..path.end]),
        }
        Ok(Reply {
            text: Text::new(alloc),
            failed: false,
        })
    }
}
