//! The answer to `initialize`, as JSON.

ghost use Rattle.std.specs.Prelude.{OnOk, codes};
ghost use Rattle.serde.specs.Event.{Sends, text};
ghost use Rattle.language_server.specs.Texts.{Member, WritesBasis, WritesBegun, WritesLetter, WritesOffers, encoding_text};

use crate::answers::Offers;
use crate::places::Encoding;
use crate::texts::write_member;
use serde::{Case, Serializer};

/// Writes the member with the protocol's name for an encoding.
fn write_encoding<S: Serializer>(encoding: Encoding, out: &mut S) -> Result<(), S::Error>
    ensures { OnOk result (Member (codes "positionEncoding") (Sends (text (encoding_text encoding))) (S.written out.old) (S.written out.new)) }
{
    match encoding {
        Encoding::Utf8 => write_member("positionEncoding", &"utf-8", out),
        Encoding::Utf16 => write_member("positionEncoding", &"utf-16", out),
    }
}

/// Writes what is offered of each document.
fn write_basis<S: Serializer>(encoding: Encoding, out: &mut S) -> Result<(), S::Error>
    ensures { OnOk result (WritesBasis encoding (S.written out.old) (S.written out.new)) }
{
    write_encoding(encoding, out)?;
    out.key_cased("textDocumentSync", Case::AsIs)?;
    out.begin_map(None)?;
    write_member("openClose", &true, out)?;
    write_member("change", &2u8, out)?;
    out.end_map()?;
    write_member("documentSymbolProvider", &true, out)
}

/// Writes what is offered of grammar files.
fn write_grammars<S: Serializer>(out: &mut S) -> Result<(), S::Error>
    ensures { OnOk result (WritesOffers Offers.Grammars (S.written out.old) (S.written out.new)) }
{
    write_member("foldingRangeProvider", &true, out)?;
    write_member("definitionProvider", &true, out)?;
    write_member("referencesProvider", &true, out)?;
    write_member("documentHighlightProvider", &true, out)?;
    out.key_cased("renameProvider", Case::AsIs)?;
    out.begin_map(None)?;
    write_member("prepareProvider", &true, out)?;
    out.end_map()?;
    write_completion(out)?;
    write_member("hoverProvider", &true, out)
}

/// Writes the member with the letter that asks for completions of grammar files.
fn write_completion<S: Serializer>(out: &mut S) -> Result<(), S::Error>
    ensures { OnOk result (Member (codes "completionProvider") (WritesLetter (codes "%")) (S.written out.old) (S.written out.new)) }
{
    out.key_cased("completionProvider", Case::AsIs)?;
    out.begin_map(None)?;
    out.key_cased("triggerCharacters", Case::AsIs)?;
    out.begin_seq(Some(1))?;
    out.str("%")?;
    out.end_seq()?;
    out.end_map()
}

/// Writes what is offered of texts of a language.
fn write_texts<S: Serializer>(out: &mut S) -> Result<(), S::Error>
    ensures { OnOk result (WritesOffers Offers.Texts (S.written out.old) (S.written out.new)) }
{
    out.key_cased("completionProvider", Case::AsIs)?;
    out.begin_map(None)?;
    write_member("resolveProvider", &false, out)?;
    out.end_map()
}

/// Writes what else is offered.
fn write_offers<S: Serializer>(offers: Offers, out: &mut S) -> Result<(), S::Error>
    ensures { OnOk result (WritesOffers offers (S.written out.old) (S.written out.new)) }
{
    match offers {
        Offers::Grammars => write_grammars(out),
        Offers::Texts => write_texts(out),
    }
}

/// Writes the member with what the server can do and its name.
pub(crate) fn write_begun<S: Serializer>(
    offers: Offers,
    encoding: Encoding,
    out: &mut S,
) -> Result<(), S::Error>
    ensures { OnOk result (Member (codes "result") (WritesBegun offers encoding) (S.written out.old) (S.written out.new)) }
{
    out.key_cased("result", Case::AsIs)?;
    out.begin_map(None)?;
    out.key_cased("capabilities", Case::AsIs)?;
    out.begin_map(None)?;
    write_basis(encoding, out)?;
    write_offers(offers, out)?;
    out.end_map()?;
    out.key_cased("serverInfo", Case::AsIs)?;
    out.begin_map(None)?;
    write_member("name", &"lrkit-lsp", out)?;
    out.end_map()?;
    out.end_map()
}
