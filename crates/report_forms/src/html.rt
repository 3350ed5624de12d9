//! The report as a page that needs nothing from elsewhere.

ghost use Rattle.std.specs.Prelude.{◌≡◌, IfOk, string_bytes};
ghost use Rattle.report_forms.specs.PageTexts.{IsPage, page_head};

use crate::escapes::{push_between, push_text};
use crate::railroads::push_railroad;
use crate::values::{Conflict, Counts, Edge, Findings, Name, Range, Rule, Said, State};
use std::alloc::{AllocError, Global};

const HEAD: &str = "\
<!DOCTYPE html>
<html lang=\"en\">
<head>
<meta charset=\"utf-8\">
<meta name=\"viewport\" content=\"width=device-width, initial-scale=1\">
<style>
body { font: 16px/1.5 sans-serif; margin: 0 auto; max-width: 60em; padding: 0 1em; color: #222 }
h1 { overflow-wrap: anywhere }
h2 { border-bottom: 1px solid #bbb }
pre, code, svg text { font: 13px/1.4 monospace }
pre, .wide { overflow-x: auto }
section { margin-bottom: 1.5em }
.error, .red { color: #b00020 }
svg path { stroke: #555; fill: none }
svg rect { stroke: #555; fill: #fff }
svg rect.token { fill: #eef6e8 }
svg text { text-anchor: middle }
</style>
";

/// Adds the places of a message, if it has one.
fn push_place(alloc: Global, page: &mut String, range: Option<Range>) -> Result<(), AllocError> {
    let Some(range) = range else {
        return Ok(());
    };
    let (line, column) = (range.start.line, range.start.column);
    let place = format!(in alloc; "{line}:{column}: ")?;
    page.push_str(place.as_str())
}

/// Adds a text that may be missing between two others.
fn push_between_if(
    page: &mut String,
    before: &str,
    text: &Option<String>,
    after: &str,
) -> Result<(), AllocError> {
    match text {
        Some(text) => push_between(page, before, text.as_str(), after),
        None => Ok(()),
    }
}

/// Adds messages.
fn push_messages(alloc: Global, page: &mut String, messages: &[Said]) -> Result<(), AllocError> {
    'messages: for said in messages {
        push_between(page, "<p class=\"", said.severity, "\">")?;
        push_place(alloc, page, said.range)?;
        push_between(page, "", said.severity, ": ")?;
        push_text(page, said.message.as_str())?;
        push_between_if(page, "<br>help: ", &said.help, "")?;
        push_between_if(page, "<pre>", &said.example, "</pre>")?;
        page.push_str("\n")?;
    }
    Ok(())
}

/// Adds the counts.
fn push_counts(alloc: Global, page: &mut String, counts: &Counts) -> Result<(), AllocError> {
    let (rules, tokens, productions) = (counts.rules, counts.tokens, counts.productions);
    let (states, shifts, pairs) = (counts.states, counts.shift_reduce, counts.reduce_reduce);
    let line = format!(in alloc;
        "<p>{rules} rules, {tokens} tokens, {productions} productions, <a href=\"#states\">{states} states</a>, <a href=\"#conflicts\">{shifts} shift/reduce and {pairs} reduce/reduce conflicts</a>\n"
    )?;
    page.push_str(line.as_str())
}

/// Adds a production: its symbols, each rule as a link.
fn push_production(alloc: Global, page: &mut String, names: &[Name]) -> Result<(), AllocError> {
    if names.is_empty() {
        return page.push_str(" %empty");
    }
    'names: for name in names {
        match name.rule {
            Some(rule) => {
                let link = format!(in alloc; " <a href=\"#rule-{rule}\">")?;
                push_between(page, link.as_str(), name.name.as_str(), "</a>")?;
            }
            None => push_between(page, " ", name.name.as_str(), "")?,
        }
    }
    Ok(())
}

/// Adds a rule, with its productions and its picture.
fn push_rule(
    alloc: Global,
    page: &mut String,
    number: usize,
    rule: &Rule,
) -> Result<(), AllocError> {
    let head = format!(in alloc; "<section id=\"rule-{number}\"><h3>")?;
    push_between(page, head.as_str(), rule.name.as_str(), "</h3>\n<pre>")?;
    'productions: for index in 0..rule.productions.len() {
        page.push_str(if index == 0 { ":" } else { "\n|" })?;
        push_production(alloc, page, rule.productions[index].as_slice())?;
    }
    page.push_str("</pre>\n")?;
    push_railroad(alloc, page, rule)?;
    page.push_str("</section>\n")
}

/// Adds the grammar. The rule that is added for the start has no section.
fn push_grammar(alloc: Global, page: &mut String, rules: &[Rule]) -> Result<(), AllocError> {
    page.push_str("<h2>Grammar</h2>\n")?;
    'rules: for number in 1..rules.len() {
        push_rule(alloc, page, number, &rules[number])?;
    }
    Ok(())
}

/// Adds links to states.
fn push_state_links(alloc: Global, page: &mut String, states: &[u32]) -> Result<(), AllocError> {
    'states: for state in states {
        let number = *state;
        let link = format!(in alloc; " <a href=\"#state-{number}\">{number}</a>")?;
        page.push_str(link.as_str())?;
    }
    Ok(())
}

/// Adds names, each behind a space.
fn push_names(page: &mut String, names: &[String]) -> Result<(), AllocError> {
    'names: for name in names {
        push_between(page, " ", name.as_str(), "")?;
    }
    Ok(())
}

/// Adds a block of conflicts.
fn push_conflict(alloc: Global, page: &mut String, block: &Conflict) -> Result<(), AllocError> {
    push_between(page, "<section><h3>", block.kind, " conflict</h3>\n<p>")?;
    'productions: for production in &block.productions {
        page.push_str("reduce <code>")?;
        push_text(page, production.production.as_str())?;
        page.push_str("</code>, ")?;
    }
    page.push_str("before<code>")?;
    push_names(page, block.tokens.as_slice())?;
    page.push_str("</code>, in state")?;
    push_state_links(alloc, page, block.states.as_slice())?;
    match &block.example {
        Some(example) => {
            push_between(
                page,
                "\n<pre>",
                example.lines.as_str(),
                "</pre></section>\n",
            )
        }
        None => page.push_str("\n<p>No example was found.</section>\n"),
    }
}

/// Adds the conflicts.
fn push_conflicts(
    alloc: Global,
    page: &mut String,
    conflicts: &[Conflict],
) -> Result<(), AllocError> {
    page.push_str("<h2 id=\"conflicts\">Conflicts</h2>\n")?;
    if conflicts.is_empty() {
        page.push_str("<p>None\n")?;
    }
    'blocks: for block in conflicts {
        push_conflict(alloc, page, block)?;
    }
    Ok(())
}

/// Adds the edges of a state, as links to states.
fn push_edges(alloc: Global, page: &mut String, edges: &[Edge]) -> Result<(), AllocError> {
    'edges: for edge in edges {
        let target = edge.target;
        push_between(page, "\n", edge.symbol.as_str(), "")?;
        let link = format!(in alloc; " → <a href=\"#state-{target}\">state {target}</a>")?;
        page.push_str(link.as_str())?;
    }
    Ok(())
}

/// Adds a state.
fn push_state(alloc: Global, page: &mut String, state: &State) -> Result<(), AllocError> {
    let number = state.number;
    let head = format!(in alloc; "<section id=\"state-{number}\"><h3>State {number}</h3>\n<pre>")?;
    page.push_str(head.as_str())?;
    'items: for item in &state.items {
        push_between(page, "", item.as_str(), "\n")?;
    }
    if !state.contested.is_empty() {
        page.push_str("<span class=\"red\">conflict before")?;
        push_names(page, state.contested.as_slice())?;
        page.push_str("</span>\n")?;
    }
    push_edges(alloc, page, state.edges.as_slice())?;
    page.push_str("</pre></section>\n")
}

/// Adds the states.
fn push_states(alloc: Global, page: &mut String, states: &[State]) -> Result<(), AllocError> {
    page.push_str("<h2 id=\"states\">States</h2>\n")?;
    'states: for state in states {
        push_state(alloc, page, state)?;
    }
    Ok(())
}

/// Adds what a page has below its title: counts, messages, the grammar, conflicts and states.
fn push_body(alloc: Global, page: &mut String, findings: &Findings) -> Result<(), AllocError> {
    let object = &findings.object;
    push_messages(alloc, page, object.notes.as_slice())?;
    push_messages(alloc, page, object.errors.as_slice())?;
    push_messages(alloc, page, object.warnings.as_slice())?;
    let Some(counts) = &object.counts else {
        return Ok(());
    };
    push_counts(alloc, page, counts)?;
    push_grammar(alloc, page, findings.rules.as_slice())?;
    push_conflicts(alloc, page, object.conflicts.as_slice())?;
    push_states(alloc, page, findings.states.as_slice())
}

/// Returns what a page begins with, for a title.
fn head_of(alloc: Global, title: &str) -> Result<String, AllocError>
    ensures { IfOk result (λ head. string_bytes head ≡ page_head HEAD.now title.now) }
{
    let mut page = String::from_str(alloc, HEAD)?;
    push_between(&mut page, "<title>", title, "</title>\n</head>\n<body>\n")?;
    push_between(&mut page, "<h1>", title, "</h1>\n")?;
    Ok(page)
}

/// Returns the report as a page, with a title: counts, messages, the grammar with a picture of each rule, conflicts and states.
pub fn html_text(alloc: Global, findings: &Findings, title: &str) -> Result<String, AllocError>
    ensures { IfOk result (λ page. IsPage HEAD.now title.now (string_bytes page)) }
{
    let mut body = String::new(alloc);
    push_body(alloc, &mut body, findings)?;
    let mut page = head_of(alloc, title)?;
    page.push_str(body.as_str())?;
    page.push_str("</body>\n</html>\n")?;
    Ok(page)
}
