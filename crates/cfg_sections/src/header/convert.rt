//! Copies settings, values and header values, with locations for their spans.

ghost use Rattle.std.specs.Prelude.{◌≡◌, IfOk, OnOk, option_map};
ghost use Rattle.cfg_base.specs.declared.span.Location.TheVariants.{Span as InText};
ghost use Rattle.cfg_sections.specs.HeaderTexts.{word_text, path_text, setting_text, value_text};
ghost use Rattle.cfg_sections.specs.HeaderMaps.{map_word, map_path, map_setting, map_value, MapsHeader, PutsMapped};

use crate::header::section::Header;
use crate::header::value::{HeaderValue, Namespaced, Setting, Value};
use crate::markmap::MarkMap;
use cfg_base::span::{Location, Span};
use std::alloc::{AllocError, Global};

/// Copies a word, with its span as a location.
fn locate_word(alloc: Global, word: &(String, Span)) -> Result<(String, Location), AllocError>
    ensures { IfOk result (λ w. word_text w ≡ map_word InText (word_text word.now)) }
{
    let text = String::from_str(alloc, word.0.as_str())?;
    Ok((text, Location::Span(word.1)))
}

/// Copies a word, if there is one, with its span as a location.
fn namespace(
    alloc: Global,
    word: &Option<(String, Span)>,
) -> Result<Option<(String, Location)>, AllocError>
    ensures { IfOk result (λ w. option_map word_text w ≡ option_map (map_word InText) (option_map word_text word.now)) }
{
    match word {
        Some(word) => Ok(Some(locate_word(alloc, word)?)),
        None => Ok(None),
    }
}

impl Namespaced<Location> {
    /// Copies a path, with its spans as locations.
    pub fn try_from_namespaced(
        alloc: Global,
        path: &Namespaced<Span>,
    ) -> Result<Namespaced<Location>, AllocError>
        ensures { IfOk result (λ p. path_text p ≡ map_path InText (path_text path.now)) }
    {
        let namespace = namespace(alloc, &path.namespace)?;
        let member = locate_word(alloc, &path.member)?;
        Ok(Namespaced { namespace, member })
    }
}

impl Setting<Location> {
    /// Copies a setting, with its spans as locations.
    pub fn try_from_setting(
        alloc: Global,
        setting: &Setting<Span>,
    ) -> Result<Setting<Location>, AllocError>
        ensures { IfOk result (λ s. setting_text s ≡ map_setting InText (setting_text setting.now)) }
    {
        match setting {
            Setting::Unitary(path) => {
                let path = Namespaced::try_from_namespaced(alloc, path)?;
                Ok(Setting::Unitary(path))
            }
            Setting::Constructor { ctor, arg } => {
                let ctor = Namespaced::try_from_namespaced(alloc, ctor)?;
                let arg = Namespaced::try_from_namespaced(alloc, arg)?;
                Ok(Setting::Constructor { ctor, arg })
            }
            Setting::Num(number, span) => Ok(Setting::Num(*number, Location::Span(*span))),
            Setting::String(text, span) => {
                let text = String::from_str(alloc, text.as_str())?;
                Ok(Setting::String(text, Location::Span(*span)))
            }
            Setting::Array(items, open, close) => {
                let mut located = Vec::new(alloc);
                'items: for item in items {
                    located.push(Setting::try_from_setting(alloc, item)?)?;
                }
                let (open, close) = (Location::Span(*open), Location::Span(*close));
                Ok(Setting::Array(located, open, close))
            }
        }
    }
}

impl Value<Location> {
    /// Copies a value, with its spans as locations.
    pub fn try_from_value(alloc: Global, value: &Value<Span>) -> Result<Value<Location>, AllocError>
        ensures { IfOk result (λ v. value_text v ≡ map_value InText (value_text value.now)) }
    {
        match value {
            Value::Flag(flag, span) => Ok(Value::Flag(*flag, Location::Span(*span))),
            Value::Setting(setting) => {
                let setting = Setting::try_from_setting(alloc, setting)?;
                Ok(Value::Setting(setting))
            }
        }
    }
}

impl HeaderValue<Location> {
    /// Copies the value of a key, with its spans as locations.
    pub fn try_from_header_value(
        alloc: Global,
        value: &HeaderValue<Span>,
    ) -> Result<HeaderValue<Location>, AllocError>
        ensures key { IfOk result (λ v. v.0 ≡ InText value.now.0) }
        ensures value { IfOk result (λ v. value_text v.1 ≡ map_value InText (value_text value.now.1)) }
    {
        let HeaderValue(span, value) = value;
        let value = Value::try_from_value(alloc, value)?;
        Ok(HeaderValue(Location::Span(*span), value))
    }
}

/// Gives a key its value, with the spans as locations.
fn put_located(
    alloc: Global,
    located: &mut Header<Location>,
    key: &String,
    value: &HeaderValue<Span>,
) -> Result<(), AllocError>
    ensures { OnOk result (PutsMapped InText located.old located.new key.now value.now) }
{
    let text = String::from_str(alloc, key.as_str())?;
    let value = HeaderValue::try_from_header_value(alloc, value)?;
    drop(located.insert(text, value)?);
    Ok(())
}

/// Copies the values of all keys, with their spans as locations, but no marks.
pub fn try_from_header(alloc: Global, header: &Header<Span>) -> Result<Header<Location>, AllocError>
    ensures { IfOk result (λ h. MapsHeader InText header.now h) }
{
    let mut located = MarkMap::new(alloc);
    let mut keys = header.keys();
    'keys: while let Some(key) = keys.next() {
        if let Some(value) = header.get(key) {
            put_located(alloc, &mut located, key, value)?;
        }
    }
    Ok(located)
}
