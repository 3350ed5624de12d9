//! Texts as parts of a page.

ghost use Rattle.std.specs.Prelude.{◌≡◌, ◌++◌, OnOk, string_bytes};
ghost use Rattle.report_forms.specs.PageTexts.{between, escaped};

use std::alloc::AllocError;

/// Adds a text with the characters of HTML written out.
pub(crate) fn push_text(page: &mut String, text: &str) -> Result<(), AllocError>
    ensures { OnOk result (string_bytes page.new ≡ string_bytes page.old ++ escaped text.now) }
{
    'characters: for c in text.chars() {
        match c {
            '&' => page.push_str("&amp;")?,
            '<' => page.push_str("&lt;")?,
            '>' => page.push_str("&gt;")?,
            '"' => page.push_str("&quot;")?,
            _ => page.push(c)?,
        }
    }
    Ok(())
}

/// Adds a text between two others.
pub(crate) fn push_between(
    page: &mut String,
    before: &str,
    text: &str,
    after: &str,
) -> Result<(), AllocError>
    ensures { OnOk result (string_bytes page.new ≡ string_bytes page.old ++ between before.now text.now after.now) }
{
    page.push_str(before)?;
    push_text(page, text)?;
    page.push_str(after)
}
