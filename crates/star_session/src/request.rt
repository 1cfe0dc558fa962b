//! A request: changes of files, and a question about the files after them.

ghost use Rattle.std.specs.Prelude.{◌≡◌, ◌≢◌, ◌≤◌, ◌⊎◌, ◌++◌, [], false, Err, IfErr, IfOk, None, Ok, OnOk, Some, map, option_map, string_bytes};
ghost use Rattle.serde_json.specs.View.{items_view, members_view, view};
ghost use Rattle.star_bundle.specs.Bundle.{json_of};
ghost use Rattle.star_label.specs.View.{text_of};
ghost use Rattle.star_session.specs.Changes.{change_of};
ghost use Rattle.star_session.specs.Requests as spec;
ghost use Rattle.star_session.specs.Requests.{IsIdText, IsWhy, asked_by, there_or};
ghost use Rattle.star_session.specs.declared.request.RequestError.TheVariants.{Memory};
ghost use Rattle.star_words.specs.Words.{label_of_path};

use crate::question::Question;
use serde_json::{Map, Value};
use star_bundle::bundle::{into_members, json_in, normal_label};
use star_dialect::{Dialect, Language, Mode, Recorded};
use star_label::label::Label;
use star_report::wanted::Wanted;
use star_words::words::label_of;
use std::alloc::{AllocError, AllocFailed, Global};

/// Where the files come from.
#[derive(Clone, Copy, Debug, PartialEq, Eq)]
pub enum Origin {
    /// Requests send them: `files`.
    Sent,
    /// A folder has them: `changed` says which are read again.
    Folder,
}

/// The defaults of a request, for members that it lacks.
#[derive(Debug, Drop)]
pub struct Defaults {
    /// Where the files come from.
    pub origin: Origin,
    /// The label of the prelude.
    pub prelude: Option<String>,
    /// The mode in which files run: a file may take from 1 to 100,000,000 steps.
    pub mode: Mode,
    /// The further members of each module that are wanted.
    pub wanted: Wanted,
}

/// A request.
#[derive(Drop)]
pub struct Request {
    /// The labels of the files that change, in their order: each with its new text, or with none if the file goes.
    pub changes: Vec<(Label, Option<String>)>,
    /// The question about the files after these changes.
    pub question: Question,
}

/// Why a line is not a request.
#[derive(Debug, Drop)]
pub enum RequestError {
    /// The line is not a JSON object.
    NotObject,
    /// There is no member `roots`.
    NoRoots,
    /// `roots` is not an array of texts.
    BadRoots,
    /// A request has no such member.
    NoMember { name: String },
    /// `files` is not an object, or a member of it is neither a text nor null.
    BadFiles,
    /// A folder has the files, so none are sent.
    NoFiles,
    /// `changed` is not an array of texts.
    BadChanged,
    /// A name in `files` is not a label in normal form.
    BadLabel { label: String },
    /// `prelude` is neither a text nor null.
    BadPrelude,
    /// `steps` is not a number from 1 to 100,000,000.
    BadSteps,
    /// `language` is not one of its words.
    BadLanguage,
    /// `record` is not an array of texts.
    BadNames,
    /// There are names in `record`, and the language is the core.
    NoRecord,
    /// `with` is not an array of its words.
    BadWith,
    /// A growth was refused.
    Memory,
}

impl RequestError {
    /// Whether a growth was refused.
    pub fn is_memory(&self) -> bool
        ensures { result ≡ false → self.now ≢ RequestError.Memory }
    {
        match self {
            RequestError::Memory => true,
            RequestError::NotObject => false,
            RequestError::NoRoots => false,
            RequestError::BadRoots => false,
            RequestError::NoMember { .. } => false,
            RequestError::BadFiles => false,
            RequestError::NoFiles => false,
            RequestError::BadChanged => false,
            RequestError::BadLabel { .. } => false,
            RequestError::BadPrelude => false,
            RequestError::BadSteps => false,
            RequestError::BadLanguage => false,
            RequestError::BadNames => false,
            RequestError::NoRecord => false,
            RequestError::BadWith => false,
        }
    }

    /// The text of the refusal.
    pub fn text(&self, alloc: Global) -> Result<String, AllocError>
        ensures { IfOk result (λ text. string_bytes text ≡ spec.text_of self.now) }
    {
        let text = match self {
            RequestError::NotObject => "not a JSON object",
            RequestError::NoRoots => "`roots` is missing",
            RequestError::BadRoots => "`roots` must be an array of labels",
            RequestError::NoMember { name } => {
                return format!(in alloc; "no such member: {name}");
            }
            RequestError::BadFiles => "`files` must be an object from labels to texts or nulls",
            RequestError::NoFiles => "`files` does not go with `--repo`",
            RequestError::BadChanged => "`changed` must be an array of paths",
            RequestError::BadLabel { label } => {
                return format!(in alloc; "bad label in `files`: {label}");
            }
            RequestError::BadPrelude => "`prelude` must be a label or null",
            RequestError::BadSteps => "`steps` must be a number from 1 to 100000000",
            RequestError::BadLanguage => "`language` must be core or extended",
            RequestError::BadNames => "`record` must be an array of names",
            RequestError::NoRecord => "`record` needs the extended language",
            RequestError::BadWith => {
                "`with` must be an array of some of values, loads, steps, only-roots"
            }
            RequestError::Memory => "out of memory",
        };
        String::from_str(alloc, text)
    }
}

impl From<AllocError> for RequestError {
    ghost from_gives = { λ _ e. e ≡ Memory };

    fn from(_error: AllocError) -> RequestError {
        RequestError::Memory
    }
}

impl<T: Drop> From<AllocFailed<T>> for RequestError {
    ghost from_gives = { λ _ e. e ≡ Memory };

    fn from(_error: AllocFailed<T>) -> RequestError {
        RequestError::Memory
    }
}

/// The value that a line is: `NotObject` if it is not JSON.
pub fn value_in(alloc: Global, line: &[u8]) -> Result<Value, RequestError>
    ensures ok { IfOk result (λ v. json_of line.now ≡ Some (view v)) }
    ensures refused { IfErr result (λ e. IsWhy e (there_or spec.not_object (json_of line.now))) }
{
    match json_in(alloc, line)? {
        Some(value) => Ok(value),
        None => Err(RequestError::NotObject),
    }
}

/// A text, or none for null.
fn text_or_null(value: Value) -> Option<Option<String>>
    ensures { option_map (option_map string_bytes) result ≡ spec.text_or_null (view value) }
{
    match value {
        Value::String(text) => Some(Some(text)),
        Value::Null => Some(None),
        _ => None,
    }
}

/// The changes that `files` names.
fn changes_of(
    alloc: Global,
    mut members: Map<String, Value>,
) -> Result<Vec<(Label, Option<String>)>, RequestError>
    ensures ok { IfOk result (λ cs. spec.changes_of (members_view members.entries) ≡ Ok (map change_of cs.items)) }
    ensures refused { IfErr result (λ e. IsWhy e (spec.changes_of (members_view members.entries))) }
{
    let mut changes = Vec::new(alloc);
    while let Some((name, value)) = members.pop_first() {
        let Some(text) = text_or_null(value) else {
            return Err(RequestError::BadFiles);
        };
        let Some(label) = normal_label(alloc, name.as_str())? else {
            return Err(RequestError::BadLabel { label: name });
        };
        changes.push((label, text))?;
    }
    Ok(changes)
}

/// The texts of an array: none if an item is not a text.
fn texts_of(alloc: Global, items: &[Value]) -> Result<Option<Vec<String>>, AllocError>
    ensures { IfOk result (λ o. there_or spec.bad_roots (option_map (λ ts. map string_bytes ts.items) o)
        ≡ spec.texts_in (items_view items.now)) }
{
    let mut texts = Vec::new(alloc);
    for item in items {
        let Some(text) = item.as_str() else {
            return Ok(None);
        };
        texts.push(String::from_str(alloc, text)?)?;
    }
    Ok(Some(texts))
}

/// The roots that a request names.
fn roots_in(alloc: Global, value: &Value) -> Result<Vec<String>, RequestError>
    ensures ok { IfOk result (λ ts. spec.roots_in (view value.now) ≡ Ok (map string_bytes ts.items)) }
    ensures refused { IfErr result (λ e. IsWhy e (spec.roots_in (view value.now))) }
{
    let Some(roots) = value.get("roots") else {
        return Err(RequestError::NoRoots);
    };
    let texts = match roots.as_array() {
        Some(items) => texts_of(alloc, items.as_slice())?,
        None => None,
    };
    match texts {
        Some(roots) => Ok(roots),
        None => Err(RequestError::BadRoots),
    }
}

/// The wanted members, with the one that a word of `with` names.
#[tactic(auto, unfolding(crate::specs::Requests::with_word))]
fn with_word(wanted: Wanted, word: &str) -> Option<Wanted>
    ensures { there_or spec.bad_with result ≡ spec.with_word wanted word.now }
{
    let mut wanted = wanted;
    match word {
        "values" => wanted.values = true,
        "loads" => wanted.loads = true,
        "steps" => wanted.steps = true,
        "only-roots" => wanted.only_roots = true,
        _ => return None,
    }
    Some(wanted)
}

/// The members that the words of `with` name.
fn with_words(items: &[Value]) -> Option<Wanted>
    ensures { there_or spec.bad_with result ≡ spec.with_words spec.nothing_more (items_view items.now) }
{
    let mut wanted = Wanted::NOTHING;
    for item in items {
        let Some(word) = item.as_str() else {
            return None;
        };
        let Some(more) = with_word(wanted, word) else {
            return None;
        };
        wanted = more;
    }
    Some(wanted)
}

/// The changes of a request that sends files.
fn files_in(
    alloc: Global,
    origin: Origin,
    value: Value,
) -> Result<Vec<(Label, Option<String>)>, RequestError>
    ensures ok { IfOk result (λ cs. spec.files_in origin (view value) ≡ Ok (map change_of cs.items)) }
    ensures refused { IfErr result (λ e. IsWhy e (spec.files_in origin (view value))) }
{
    if origin == Origin::Folder {
        return Err(RequestError::NoFiles);
    }
    match into_members(value) {
        Some(members) => changes_of(alloc, members),
        None => Err(RequestError::BadFiles),
    }
}

/// The file that a path leads to is taken away, if a label names it.
fn push_gone(
    alloc: Global,
    changes: &mut Vec<(Label, Option<String>)>,
    path: &str,
) -> Result<(), AllocError>
    ensures { OnOk result (map change_of changes.new.items
        ≡ map change_of changes.old.items ++ spec.gone_at (label_of_path [] path.now)) }
{
    match label_of(alloc, "", path) {
        Ok(Some(label)) => {
            changes.push((label, None))?;
            Ok(())
        }
        Ok(None) => Ok(()),
        Err(_) => Err(AllocError),
    }
}

/// The files that paths lead to are taken away.
fn gone_in(alloc: Global, items: &[Value]) -> Result<Vec<(Label, Option<String>)>, RequestError>
    ensures ok { IfOk result (λ cs. spec.gone_in (items_view items.now) ≡ Ok (map change_of cs.items)) }
    ensures refused { IfErr result (λ e. IsWhy e (spec.gone_in (items_view items.now))) }
{
    let mut changes = Vec::new(alloc);
    for item in items {
        let Some(path) = item.as_str() else {
            return Err(RequestError::BadChanged);
        };
        push_gone(alloc, &mut changes, path)?;
    }
    Ok(changes)
}

/// The changes of a request that names files of a folder.
fn changed_in(
    alloc: Global,
    origin: Origin,
    value: &Value,
) -> Result<Vec<(Label, Option<String>)>, RequestError>
    requires { origin ≡ Origin.Folder }
    ensures ok { IfOk result (λ cs. spec.changed_in origin (view value.now) ≡ Ok (map change_of cs.items)) }
    ensures refused { IfErr result (λ e. IsWhy e (spec.changed_in origin (view value.now))) }
{
    match value.as_array() {
        Some(items) => gone_in(alloc, items.as_slice()),
        None => Err(RequestError::BadChanged),
    }
}

/// The prelude of a request.
fn prelude_in(value: Value) -> Result<Option<String>, RequestError>
    ensures ok { IfOk result (λ p. spec.prelude_in (view value) ≡ Ok (option_map string_bytes p)) }
    ensures refused { IfErr result (λ e. IsWhy e (spec.prelude_in (view value))) }
{
    match text_or_null(value) {
        Some(prelude) => Ok(prelude),
        None => Err(RequestError::BadPrelude),
    }
}

/// The steps of a request.
fn steps_in(value: &Value) -> Result<u32, RequestError>
    ensures ok { IfOk result (λ n. spec.steps_in (view value.now) ≡ Ok n) }
    ensures range { IfOk result (λ n. (1 ≤ n) × (n ≤ 100000000)) }
    ensures refused { IfErr result (λ e. IsWhy e (spec.steps_in (view value.now))) }
{
    match value.as_u64() {
        Some(steps) if 1 <= steps && steps <= 100_000_000 => Ok(steps as u32),
        _ => Err(RequestError::BadSteps),
    }
}

/// The language of a request.
fn language_in(value: &Value) -> Result<Dialect, RequestError>
    ensures ok { IfOk result (λ d. spec.language_in (view value.now) ≡ Ok d) }
    ensures refused { IfErr result (λ e. IsWhy e (spec.language_in (view value.now))) }
{
    let Some(word) = value.as_str() else {
        return Err(RequestError::BadLanguage);
    };
    match Dialect::named(word) {
        Some(dialect) => Ok(dialect),
        None => Err(RequestError::BadLanguage),
    }
}

/// The names that items are, each once.
fn names_in(alloc: Global, items: &[Value]) -> Result<Recorded, RequestError>
    ensures ok { IfOk result (λ names. spec.names_in [] (items_view items.now) ≡ Ok names) }
    ensures refused { IfErr result (λ e. IsWhy e (spec.names_in [] (items_view items.now))) }
{
    let mut recorded = Recorded::none(alloc);
    for item in items {
        let Some(name) = item.as_str() else {
            return Err(RequestError::BadNames);
        };
        recorded.add(alloc, name)?;
    }
    Ok(recorded)
}

/// The names whose calls a request wants to be recorded.
fn recorded_in(alloc: Global, value: &Value) -> Result<Recorded, RequestError>
    ensures ok { IfOk result (λ names. spec.recorded_in (view value.now) ≡ Ok names) }
    ensures refused { IfErr result (λ e. IsWhy e (spec.recorded_in (view value.now))) }
{
    match value.as_array() {
        Some(items) => names_in(alloc, items.as_slice()),
        None => Err(RequestError::BadNames),
    }
}

/// The further members of each module that a request wants.
fn wanted_in(value: &Value) -> Result<Wanted, RequestError>
    ensures ok { IfOk result (λ w. spec.wanted_in (view value.now) ≡ Ok w) }
    ensures refused { IfErr result (λ e. IsWhy e (spec.wanted_in (view value.now))) }
{
    let wanted = match value.as_array() {
        Some(items) => with_words(items.as_slice()),
        None => None,
    };
    match wanted {
        Some(wanted) => Ok(wanted),
        None => Err(RequestError::BadWith),
    }
}

/// Takes a member into a request. Its `id` and its roots are looked up separately.
#[tactic(auto, unfolding(crate::specs::Requests::with_member))]
fn take_member(
    alloc: Global,
    origin: Origin,
    request: &mut Request,
    name: String,
    value: Value,
) -> Result<(), RequestError>
    ensures ok { OnOk result (spec.with_member origin (asked_by request.old) (string_bytes name) (view value)
        ≡ Ok (asked_by request.new)) }
    ensures steps { spec.AreSteps request.old.question.mode.steps → spec.AreSteps request.new.question.mode.steps }
    ensures refused { IfErr result (λ e.
        IsWhy e (spec.with_member origin (asked_by request.old) (string_bytes name) (view value))) }
{
    match name.as_str() {
        "id" | "roots" => {}
        "files" => request.changes = files_in(alloc, origin, value)?,
        "changed" if origin == Origin::Folder => {
            request.changes = changed_in(alloc, origin, &value)?;
        }
        "prelude" => request.question.prelude = prelude_in(value)?,
        "steps" => request.question.mode.steps = steps_in(&value)?,
        "language" => request.question.mode.language.dialect = language_in(&value)?,
        "record" => request.question.mode.language.recorded = recorded_in(alloc, &value)?,
        "with" => request.question.wanted = wanted_in(&value)?,
        _ => return Err(RequestError::NoMember { name }),
    }
    Ok(())
}

/// A request that has these roots, and asks for nothing else than the defaults do.
fn plain(alloc: Global, roots: Vec<String>, defaults: &Defaults) -> Result<Request, AllocError>
    requires { (1 ≤ defaults.now.mode.steps) × (defaults.now.mode.steps ≤ 100000000) }
    ensures { IfOk result (λ request. asked_by request ≡ spec.plain defaults.now (map string_bytes roots.items)) }
{
    let prelude = match &defaults.prelude {
        Some(label) => Some(String::from_str(alloc, label.as_str())?),
        None => None,
    };
    let question = Question {
        roots,
        prelude,
        mode: defaults.mode.share(alloc)?,
        wanted: defaults.wanted,
    };
    Ok(Request {
        changes: Vec::new(alloc),
        question,
    })
}

/// A request with further members taken into it.
fn with_members(
    alloc: Global,
    origin: Origin,
    mut request: Request,
    mut members: Map<String, Value>,
) -> Result<Request, RequestError>
    requires { (1 ≤ request.question.mode.steps) × (request.question.mode.steps ≤ 100000000) }
    ensures ok { IfOk result (λ made. spec.with_members origin (asked_by request) (members_view members.entries)
        ≡ Ok (asked_by made)) }
    ensures steps { IfOk result (λ made. (1 ≤ made.question.mode.steps) × (made.question.mode.steps ≤ 100000000)) }
    ensures refused { IfErr result (λ e.
        IsWhy e (spec.with_members origin (asked_by request) (members_view members.entries))) }
{
    while let Some((name, value)) = members.pop_first() {
        match take_member(alloc, origin, &mut request, name, value) {
            Ok(()) => {}
            Err(error) => return Err(error),
        }
    }
    Ok(request)
}

/// Whether there are names.
fn has_names(recorded: &Recorded) -> bool
    ensures { result ≡ spec.has_names recorded.now }
{
    match recorded.names() {
        [_first, _rest @ ..] => true,
        [] => false,
    }
}

/// Whether calls are to be recorded in the core language, which has none.
fn needs_extended(language: &Language) -> bool
    ensures { result ≡ spec.needs_extended language.now.dialect language.now.recorded }
{
    match language.dialect {
        Dialect::Core => has_names(&language.recorded),
        Dialect::Extended => false,
    }
}

/// A request that wants the calls of each module, if any are recorded. `NoRecord` if some are, in the core language.
fn with_calls(request: Request) -> Result<Request, RequestError>
    ensures ok { IfOk result (λ made. spec.with_calls (asked_by request) ≡ Ok (asked_by made)) }
    ensures steps { IfOk result (λ made. made.question.mode.steps ≡ request.question.mode.steps) }
    ensures refused { IfErr result (λ e. IsWhy e (spec.with_calls (asked_by request))) }
{
    let mut request = request;
    if needs_extended(&request.question.mode.language) {
        return Err(RequestError::NoRecord);
    }
    request.question.wanted.calls = has_names(&request.question.mode.language.recorded);
    Ok(request)
}

/// The request that a value is. The error is about the first thing that is not as it must be.
#[tactic(auto, unfolding(crate::specs::Requests::asking_in))]
pub fn request_in(alloc: Global, value: Value, defaults: &Defaults) -> Result<Request, RequestError>
    requires { (1 ≤ defaults.now.mode.steps) × (defaults.now.mode.steps ≤ 100000000) }
    ensures ok { IfOk result (λ request. spec.asking_in defaults.now (view value) ≡ Ok (asked_by request)) }
    ensures steps { IfOk result (λ request. (1 ≤ request.question.mode.steps) × (request.question.mode.steps ≤ 100000000)) }
    ensures refused { IfErr result (λ e. IsWhy e (spec.asking_in defaults.now (view value))) }
{
    if value.as_object().is_none() {
        return Err(RequestError::NotObject);
    }
    let roots = roots_in(alloc, &value)?;
    let request = plain(alloc, roots, defaults)?;
    match into_members(value) {
        Some(members) => {
            let request = with_members(alloc, defaults.origin, request, members)?;
            with_calls(request)
        }
        None => Err(RequestError::NotObject),
    }
}

/// The JSON of the `id` of a value: null if it has none.
pub fn id_text(alloc: Global, value: &Value) -> Result<String, AllocError>
    ensures { IfOk result (λ s. IsIdText (spec.id_in (view value.now)) (string_bytes s)) }
{
    match value.get("id") {
        Some(id) => id.to_string(alloc),
        None => Value::Null.to_string(alloc),
    }
}
