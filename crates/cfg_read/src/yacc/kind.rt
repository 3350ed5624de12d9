//! Kinds of grammars, and the values of a section that mean them.

ghost use Rattle.std.specs.Prelude.{◌≡◌, Ok, IfOk, IfErr, option_map};
ghost use lib.Chars.{codes};
ghost use Rattle.std.specs.String.{string_bytes};
ghost use Rattle.cfg_sections.specs.HeaderTexts.{word_text, path_text, setting_text, value_text};
ghost use Rattle.cfg_sections.specs.HeaderMaps.{map_word, map_path, map_setting, map_value};
ghost use Rattle.cfg_read.specs.declared.yacc.YaccKind.TheVariants.{Original};
ghost use Rattle.cfg_read.specs.Kinds.{is_word, Meaning, means, unfit, within, or_misfit, kind_named, action_named, argument_meaning, alone_meaning, applied_meaning, meaning_of, found_meaning, RefusesKind, IsKindError, LocationText, location_text, kind_word, kind_path, kind_setting, action_name, value_of};

use crate::yacc::{YaccKind, YaccOriginalActionKind};
use cfg_base::span::Location;
use cfg_sections::header::{HeaderError, HeaderErrorKind, Namespaced, Setting, Value};
use std::alloc::{AllocError, Global};
use std::error::Error;
use std::fmt;
use std::fmt::{Debug, Display, Formatter, Write};

/// Why a value gives no kind.
#[derive(Debug, Drop)]
pub enum KindError<T> {
    /// The request for memory that was refused.
    Memory(AllocError),
    /// The value means no kind. The one location is that of the first word from the left that doesn't fit, else
    /// that of the value.
    Invalid(HeaderError<T>),
}

impl<T> Display for KindError<T> {
    ghost use Rattle.std.specs.Prelude.{Some};
    ghost use Rattle.cfg_read.specs.ErrorTexts.{kind_error_text};

    ghost output = { λ e. Some (kind_error_text e) };

    fn fmt<W: Write>(&self, f: &mut Formatter<W>) -> fmt::Result {
        match self {
            KindError::Memory(_) => write!(f, "Memory"),
            KindError::Invalid(_) => write!(f, "Invalid"),
        }
    }
}

impl<T: Debug + Drop> Error for KindError<T> {}

/// Why a value means no kind, and the location that shows it.
#[derive(Drop)]
struct Misfit<'a, T> {
    why: &'static str,
    location: &'a T,
}

#[tactic(auto, unfolding(crate::specs::Kinds::is_word))]
fn is_word(text: &String, word: &str) -> bool
    ensures { result ≡ is_word (string_bytes text.now) word.now }
{
    text.as_str().eq_ignore_ascii_case(word)
}

/// Returns the namespace of a path, where it isn't this one.
fn find_misfit<'a, T>(path: &'a Namespaced<T>, namespace: &str) -> Option<Misfit<'a, T>>
    ensures { (m : Meaning T) → or_misfit result m ≡ within (path_text path.now).namespace namespace.now m }
{
    let Some(word) = &path.namespace else {
        return None;
    };
    if is_word(&word.0, namespace) {
        return None;
    }
    let why = "Unknown namespace";
    Some(Misfit {
        why,
        location: &word.1,
    })
}

#[tactic(auto, unfolding(crate::specs::Kinds::kind_named))]
fn kind_named(text: &String) -> Option<YaccKind>
    ensures { result ≡ kind_named (string_bytes text.now) }
{
    if is_word(text, "Grmtools") {
        Some(YaccKind::Grmtools)
    } else if is_word(text, "Eco") {
        Some(YaccKind::Eco)
    } else {
        None
    }
}

#[tactic(auto, unfolding(crate::specs::Kinds::action_named))]
fn action_named(text: &String) -> Option<YaccOriginalActionKind>
    ensures { result ≡ action_named (string_bytes text.now) }
{
    if is_word(text, "UserAction") {
        Some(YaccOriginalActionKind::UserAction)
    } else if is_word(text, "GenericParseTree") {
        Some(YaccOriginalActionKind::GenericParseTree)
    } else if is_word(text, "NoAction") {
        Some(YaccOriginalActionKind::NoAction)
    } else {
        None
    }
}

fn unknown_variant<'a, T>(path: &'a Namespaced<T>) -> Misfit<'a, T>
    ensures why { result.why.now ≡ codes "Unknown variant" }
    ensures location { result.location.now ≡ (path_text path.now).member.at }
{
    let why = "Unknown variant";
    Misfit {
        why,
        location: &path.member.1,
    }
}

/// Returns the kind of a path without an argument.
fn kind_alone<'a, T>(path: &'a Namespaced<T>) -> Result<YaccKind, Misfit<'a, T>>
    ensures { found_meaning result ≡ alone_meaning (path_text path.now) }
{
    if let Some(misfit) = find_misfit(path, "YaccKind") {
        return Err(misfit);
    }
    match kind_named(&path.member.0) {
        Some(kind) => Ok(kind),
        None => Err(unknown_variant(path)),
    }
}

/// Returns the kind of `Original` with this argument.
fn kind_of_argument<'a, T>(path: &'a Namespaced<T>) -> Result<YaccKind, Misfit<'a, T>>
    ensures { found_meaning result ≡ argument_meaning (path_text path.now) }
{
    if let Some(misfit) = find_misfit(path, "YaccOriginalActionKind") {
        return Err(misfit);
    }
    match action_named(&path.member.0) {
        Some(action) => Ok(YaccKind::Original(action)),
        None => Err(unknown_variant(path)),
    }
}

/// Returns the kind of a path with an argument.
fn kind_with<'a, T>(
    path: &'a Namespaced<T>,
    argument: &'a Namespaced<T>,
) -> Result<YaccKind, Misfit<'a, T>>
    ensures { found_meaning result ≡ applied_meaning (path_text path.now) (path_text argument.now) }
{
    if let Some(misfit) = find_misfit(path, "YaccKind") {
        return Err(misfit);
    }
    if is_word(&path.member.0, "Original") {
        kind_of_argument(argument)
    } else {
        Err(unknown_variant(path))
    }
}

fn find_kind<'a, T>(value: &'a Value<T>) -> Result<YaccKind, Misfit<'a, T>>
    ensures { found_meaning result ≡ meaning_of (value_text value.now) }
{
    match value {
        Value::Setting(Setting::Unitary(path)) => kind_alone(path),
        Value::Setting(Setting::Constructor { ctor, arg }) => kind_with(ctor, arg),
        _ => {
            let why = "Cannot convert to YaccKind";
            let location = value.primary_location();
            Err(Misfit { why, location })
        }
    }
}

/// Returns the error of a value that means no kind.
fn misfit_error<T: Clone>(
    alloc: Global,
    why: &'static str,
    location: &T,
) -> Result<HeaderError<T>, AllocError>
    ensures { IfOk result (λ e. RefusesKind T.is_clone (unfit why.now location.now) e) }
{
    let mut locations = Vec::new(alloc);
    locations.push(location.clone()?)?;
    let kind = HeaderErrorKind::ConversionError("YaccKind", why);
    Ok(HeaderError { kind, locations })
}

impl YaccKind {
    /// Returns the kind that a value means: `Grmtools`, `Eco`, or `Original` with `UserAction`,
    /// `GenericParseTree` or `NoAction`, in any case. The outer word is alone or in the namespace `YaccKind`, the
    /// inner one alone or in `YaccOriginalActionKind`.
    ///
    /// # Errors
    ///
    /// - `Invalid` with a `ConversionError` to `YaccKind`: `Unknown namespace` or `Unknown variant` at the first
    ///   word from the left that doesn't fit, which is the outer one where an argument is missing or one too
    ///   many; `Cannot convert to YaccKind` for a setting that is no path.
    /// - `Memory` where memory is refused.
    pub fn try_from_value<T: Clone>(
        alloc: Global,
        value: &Value<T>,
    ) -> Result<YaccKind, KindError<T>>
        ensures ok { IfOk result (λ k. meaning_of (value_text value.now) ≡ means k) }
        ensures fits { (k : YaccKind) → meaning_of (value_text value.now) ≡ means k → result ≡ Ok k }
        ensures err { IfErr result (λ e. IsKindError T.is_clone (meaning_of (value_text value.now)) e) }
    {
        match find_kind(value) {
            Ok(kind) => Ok(kind),
            Err(misfit) => match misfit_error(alloc, misfit.why, misfit.location) {
                Ok(e) => Err(KindError::Invalid(e)),
                Err(e) => Err(KindError::Memory(e)),
            },
        }
    }

    /// Returns the value that means a kind, each word in its namespace, all at `Other("YaccKind")`.
    pub fn try_to_value(self, alloc: Global) -> Result<Value<Location>, AllocError>
        ensures { IfOk result (λ v. map_value location_text (value_text v) ≡ value_of self) }
    {
        let setting = match self {
            YaccKind::Grmtools => Setting::Unitary(kind_path(alloc, "YaccKind", "Grmtools")?),
            YaccKind::Eco => Setting::Unitary(kind_path(alloc, "YaccKind", "Eco")?),
            YaccKind::Original(action) => original(alloc, action)?,
        };
        Ok(Value::Setting(setting))
    }
}

fn kind_word(alloc: Global, word: &str) -> Result<(String, Location), AllocError>
    ensures { IfOk result (λ w. map_word location_text (word_text w) ≡ kind_word word.now) }
{
    let text = String::from_str(alloc, word)?;
    let location = Location::Other(String::from_str(alloc, "YaccKind")?);
    Ok((text, location))
}

fn kind_path(alloc: Global, namespace: &str, word: &str) -> Result<Namespaced<Location>, AllocError>
    ensures { IfOk result (λ p. map_path location_text (path_text p) ≡ kind_path namespace.now word.now) }
{
    let namespace = Some(kind_word(alloc, namespace)?);
    let member = kind_word(alloc, word)?;
    Ok(Namespaced { namespace, member })
}

fn action_name(action: YaccOriginalActionKind) -> &'static str
    ensures { result.now ≡ action_name action }
{
    match action {
        YaccOriginalActionKind::UserAction => "UserAction",
        YaccOriginalActionKind::GenericParseTree => "GenericParseTree",
        YaccOriginalActionKind::NoAction => "NoAction",
    }
}

fn original(alloc: Global, action: YaccOriginalActionKind) -> Result<Setting<Location>, AllocError>
    ensures { IfOk result (λ s. map_setting location_text (setting_text s) ≡ kind_setting (Original action)) }
{
    let ctor = kind_path(alloc, "YaccKind", "Original")?;
    let arg = kind_path(alloc, "YaccOriginalActionKind", action_name(action))?;
    Ok(Setting::Constructor { ctor, arg })
}

/// Proves that the value made from a kind means that kind.
pub fn kind_comes_back()
    ensures { (v : Value Location) (k : YaccKind) → map_value location_text (value_text v) ≡ value_of k → meaning_of (value_text v) ≡ means k }
{}
