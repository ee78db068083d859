//! One step of a reading.
ghost use Rattle.std.specs.Prelude.{◌≡◌, IfOk, false};
ghost use Rattle.plain_form.specs.Form as spec;
ghost use Rattle.plain_form.specs.Steps.{reading};
ghost use Rattle.plain_form.specs.declared.state.Stage.TheVariants as stage;

use crate::form::{DataItem, Reading, Word, Written};
use crate::state::{Stage, State};
use crate::token::{is_closing, is_import, is_module, is_name, is_next, is_text, opened, word_of};
use hs_syntax::token::Token;
use mk_base::list::List;
use mk_base::memory::NoMemory;
use mk_base::place::Pos;
use std::alloc::Global;

/// The state before the first token.
pub fn start(alloc: Global) -> State
    ensures { result ≡ spec.start }
{
    State {
        stage: Stage::Start,
        put: false,
        written: Written {
            datas: List::new(alloc),
        },
    }
}

/// The state behind a token that is no pragma; None where the token leaves the form.
pub fn step(alloc: Global, state: State, token: &Token) -> Result<Option<State>, NoMemory>
    ensures { IfOk result (λ next. next ≡ spec.step state token.now) }
{
    let State {
        stage,
        put,
        written,
    } = state;
    match stage {
        Stage::Start => Ok(at_text(token, b"module", Stage::Name, put, written)),
        Stage::Name => Ok(on(is_module(token), Stage::Where, put, written)),
        Stage::Where => Ok(at_text(token, b"where", Stage::Open, put, written)),
        Stage::Open => Ok(at_open(written, token)),
        Stage::Body => Ok(at_part(put, written, token)),
        Stage::Import(at) => Ok(on(is_import(token), Stage::Imported(at), put, written)),
        Stage::Imported(_) => Ok(behind_part(put, written, Stage::Body, token)),
        Stage::Datas => Ok(at_data(put, written, Stage::Datas, token)),
        Stage::DataType => at_type(alloc, put, written, token),
        Stage::DataEquals(ty) => Ok(at_text(token, b"=", Stage::DataCon(ty), put, written)),
        Stage::DataCon(ty) => at_con(alloc, put, written, ty, token),
        Stage::Fields(item) => at_field(alloc, put, written, item, token),
        Stage::End => Ok(None),
    }
}

/// The place that is told of a token that leaves the form at this stage.
pub fn told(stage: &Stage, token: &Token) -> Pos
    ensures { result ≡ spec.told stage.now token.now }
{
    match stage {
        Stage::Start => Pos { line: 1, col: 1 },
        Stage::Import(at) => *at,
        Stage::Imported(at) => *at,
        _ => token.at,
    }
}

/// The reading of a source that ends in this state, behind a token at this place.
pub fn ended(state: State, last: Pos) -> Reading
    ensures { result ≡ spec.ended state state.stage last }
{
    match state.stage {
        Stage::End => Reading::Form(state.written),
        _ => Reading::Leaves(last),
    }
}

/// The next state, where a test of the token holds.
fn on(holds: bool, stage: Stage, put: bool, written: Written) -> Option<State>
    ensures { result ≡ spec.on holds (spec.at_stage (reading put written) stage) }
{
    if holds {
        Some(State {
            stage,
            put,
            written,
        })
    } else {
        None
    }
}

/// The next state, where the token is this lexeme.
fn at_text(token: &Token, text: &[u8], stage: Stage, put: bool, written: Written) -> Option<State>
    ensures { result ≡ spec.on (spec.is_text text.now token.now) (spec.at_stage (reading put written) stage) }
{
    on(is_text(token, text), stage, put, written)
}

/// Behind `where`: an opening brace.
fn at_open(written: Written, token: &Token) -> Option<State>
    ensures { result ≡ spec.at_open (reading false written) (spec.opened token.now.put token.now.kind token.now.text) }
{
    match opened(token) {
        Some(put) => Some(State {
            stage: Stage::Body,
            put,
            written,
        }),
        None => None,
    }
}

/// Where any part may begin: an import, a data type or nothing.
fn at_part(put: bool, written: Written, token: &Token) -> Option<State>
    ensures { result ≡ spec.at_part (reading put written) token.now }
{
    if is_text(token, b"import") {
        Some(State {
            stage: Stage::Import(token.at),
            put,
            written,
        })
    } else {
        at_data(put, written, Stage::Body, token)
    }
}

/// Where a part may begin that is no import: a data type or nothing.
fn at_data(put: bool, written: Written, next: Stage, token: &Token) -> Option<State>
    ensures { result ≡ spec.at_data (reading put written) next token.now }
{
    if is_text(token, b"data") {
        Some(State {
            stage: Stage::DataType,
            put,
            written,
        })
    } else {
        behind_part(put, written, next, token)
    }
}

/// Behind a whole part: a semicolon, or the closing brace.
fn behind_part(put: bool, written: Written, next: Stage, token: &Token) -> Option<State>
    ensures { result ≡ spec.behind_part (reading put written) next token.now }
{
    if is_next(token) {
        Some(State {
            stage: next,
            put,
            written,
        })
    } else {
        on(is_closing(put, token), Stage::End, put, written)
    }
}

/// Behind `data`: the name of the type.
fn at_type(
    alloc: Global,
    put: bool,
    written: Written,
    token: &Token,
) -> Result<Option<State>, NoMemory>
    ensures { IfOk result (λ next. next ≡ spec.step_at (reading put written) stage.DataType token.now) }
{
    if !is_name(token) {
        return Ok(None);
    }
    let ty = word_of(alloc, token)?;
    Ok(Some(State {
        stage: Stage::DataEquals(ty),
        put,
        written,
    }))
}

/// Behind the `=` of a data type: the name of its constructor.
fn at_con(
    alloc: Global,
    put: bool,
    written: Written,
    ty: Word,
    token: &Token,
) -> Result<Option<State>, NoMemory>
    ensures { IfOk result (λ next. next ≡ spec.step_at (reading put written) (stage.DataCon ty) token.now) }
{
    if !is_name(token) {
        return Ok(None);
    }
    let con = word_of(alloc, token)?;
    let item = DataItem {
        ty,
        con,
        fields: List::new(alloc),
    };
    Ok(Some(State {
        stage: Stage::Fields(item),
        put,
        written,
    }))
}

/// Behind a constructor: a field, or what is behind the data type.
fn at_field(
    alloc: Global,
    put: bool,
    mut written: Written,
    mut item: DataItem,
    token: &Token,
) -> Result<Option<State>, NoMemory>
    ensures { IfOk result (λ next. next ≡ spec.step_at (reading put written) (stage.Fields item) token.now) }
{
    if !is_name(token) {
        written.datas.push(item)?;
        return Ok(behind_part(put, written, Stage::Datas, token));
    }
    let field = word_of(alloc, token)?;
    item.fields.push(field)?;
    Ok(Some(State {
        stage: Stage::Fields(item),
        put,
        written,
    }))
}
