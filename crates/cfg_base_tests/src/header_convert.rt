//! Tests of values converted from spans to locations: by themselves, and compared. What whole sections become are rows of
//! `read_rows`.

use crate::same::{debug_text_of, same};
use cfg_base::span::{Location, Span};
use cfg_sections::header::{
    GrmtoolsSectionParser, Header, HeaderValue, Namespaced, SectionError, Setting, Value,
};
use std::alloc::{AllocError, Global};

/// Returns the form of a setting, and of its path where it is one.
fn forms(alloc: Global, setting: &Setting<Span>) -> Result<String, AllocError> {
    let mut forms = debug_text_of(alloc, Setting::try_from_setting(alloc, setting)?)?;
    forms.push_str("; ")?;
    if let Setting::Unitary(path) = setting {
        let form = debug_text_of(alloc, Namespaced::try_from_namespaced(alloc, path)?)?;
        forms.push_str(form.as_str())?;
    }
    Ok(forms)
}

const FORMS: &str =
    "Unitary(Namespaced { namespace: None, member: (\"d\", Span(Span { start: 3, end: 6 })) }); Namespaced { namespace: None, member: (\"d\", Span(Span { start: 3, end: 6 })) }";

#[test]
fn parts_of_values_are_converted(rt: HostRuntime) -> Result<(), AllocError> {
    let alloc = rt.alloc();
    let member = (String::from_str(alloc, "d")?, Span::new(3, 6));
    let namespace = None;
    let setting = Setting::Unitary(Namespaced { namespace, member });
    let found = forms(alloc, &setting);
    drop(setting);
    same(&rt, "setting", found?.as_str(), FORMS);
    let flag = Value::Flag(false, Span::new(0, 2));
    let converted = Value::try_from_value(alloc, &flag);
    drop(flag);
    let wanted = "Flag(false, Span(Span { start: 0, end: 2 }))";
    same(
        &rt,
        "flag",
        debug_text_of(alloc, converted?)?.as_str(),
        wanted,
    );
    Ok(())
}

/// Returns the value of `a` at locations, if there is one.
fn value_at_locations(
    alloc: Global,
    header: &Header<Span>,
) -> Result<Option<HeaderValue<Location>>, AllocError> {
    let key = String::from_str(alloc, "a")?;
    match header.get(&key) {
        Some(value) => match HeaderValue::try_from_header_value(alloc, value) {
            Ok(value) => Ok(Some(value)),
            Err(e) => Err(e),
        },
        None => Ok(None),
    }
}

/// Returns what a text's section says of `a`, at locations.
fn value_in(alloc: Global, text: &str) -> Result<Option<HeaderValue<Location>>, AllocError> {
    match GrmtoolsSectionParser::new(text, true).parse(alloc) {
        Ok((header, _end)) => {
            let value = value_at_locations(alloc, &header);
            drop(header);
            value
        }
        Err(SectionError::Memory(e)) => Err(e),
        Err(SectionError::Invalid(errors)) => {
            drop(errors);
            Ok(None)
        }
    }
}

/// Returns whether a text's section says this of `a`.
fn says(
    alloc: Global,
    text: &str,
    value: &Option<HeaderValue<Location>>,
) -> Result<bool, AllocError> {
    let found = value_in(alloc, text)?;
    let is_said = found == *value;
    drop(found);
    Ok(is_said)
}

const SECTION: &str = "%grmtools{a: [b::c(d), 1, \"x\"], !e}";

const OTHER_KEYS: &str = "%grmtools{a: [b::c(d), 1, \"x\"], c}";

const OTHER_TEXT: &str = "%grmtools{a: [b::c(d), 1, \"y\"], !e}";

type Compared = (bool, bool, bool, bool);

/// Returns whether there is a value, and which sections have the same.
fn comparison(
    alloc: Global,
    value: &Option<HeaderValue<Location>>,
) -> Result<Compared, AllocError> {
    let itself = says(alloc, SECTION, value)?;
    let other_keys = says(alloc, OTHER_KEYS, value)?;
    let other_text = says(alloc, OTHER_TEXT, value)?;
    Ok((value.is_some(), itself, other_keys, other_text))
}

#[test]
fn converted_values_are_compared(rt: HostRuntime) -> Result<(), AllocError> {
    let value = value_in(rt.alloc(), SECTION)?;
    let found = comparison(rt.alloc(), &value);
    drop(value);
    same(&rt, "values", found?, (true, true, true, false));
    Ok(())
}
