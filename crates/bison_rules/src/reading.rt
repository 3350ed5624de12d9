//! What the tokens of a file say.

ghost use Rattle.std.specs.Prelude.{◌≡◌, ◌++◌, ◌∷◌, [], Some, take, false, OnOk, IfOk, map, option_map};
ghost use Rattle.bison_rules.specs.Rules as spec;
ghost use Rattle.bison_rules.specs.Pieces.{tokens_from};
ghost use Rattle.bison_rules.specs.Models.{bytes_of, symbol_of, token_of, tokens_of, body_of, rule_of, level_of, alias_pair, file_of};

use crate::pieces::{Symbol, Token};
use crate::sizes::behind;
use crate::tokens::{is_whole, push_tokens};
use std::alloc::{AllocError, Global};

/// An alternative of a rule.
#[derive(Drop)]
pub struct Body {
    /// The symbols.
    pub symbols: Vec<Vec<u8>>,
    /// The token of `%prec`.
    pub prec: Option<Vec<u8>>,
}

/// A heading with its alternatives.
#[derive(Drop)]
pub struct Rule {
    /// The name before the colon.
    pub head: Vec<u8>,
    /// The alternatives, in order.
    pub bodies: Vec<Body>,
}

/// A precedence level.
#[derive(Drop)]
pub struct Level {
    /// Its directive, with the `%`.
    pub word: Vec<u8>,
    /// Its tokens, in order.
    pub symbols: Vec<Vec<u8>>,
}

/// A string that stands for a token.
#[derive(Drop)]
pub struct Alias {
    /// The string, with its quotes.
    pub string: Vec<u8>,
    /// The token before it in its declaration.
    pub token: Vec<u8>,
}

/// What a file says.
#[derive(Drop)]
pub struct BisonFile {
    /// The rules, in order, with their symbols as the file has them, and behind them those of actions in the middle.
    pub rules: Vec<Rule>,
    /// The strings that stand for tokens.
    pub aliases: Vec<Alias>,
    /// The symbols of `%start`.
    pub starts: Vec<Vec<u8>>,
    /// The precedence levels, lowest first.
    pub levels: Vec<Level>,
}

/// Returns a copy of bytes.
fn copy_of(alloc: Global, bytes: &[u8]) -> Result<Vec<u8>, AllocError>
    ensures { IfOk result (λ v. v.items ≡ bytes.now) }
{
    Vec::from_slice(alloc, bytes)
}

/// Returns a string with its quotes.
fn with_quotes(alloc: Global, inner: &[u8]) -> Result<Vec<u8>, AllocError>
    ensures { IfOk result (λ v. v.items ≡ 34 ∷ inner.now ++ 34 ∷ []) }
{
    let mut text = Vec::new(alloc);
    text.push(b'"')?;
    text.extend_from_slice(inner)?;
    text.push(b'"')?;
    Ok(text)
}

/// Returns the text of a symbol.
fn text_of(alloc: Global, symbol: Symbol<'_>) -> Result<Vec<u8>, AllocError>
    ensures { IfOk result (λ v. v.items ≡ symbol_of symbol.entry) }
{
    match symbol {
        Symbol::Name(name) => copy_of(alloc, name),
        Symbol::Quoted(inner) => with_quotes(alloc, inner),
        Symbol::Character(code) => copy_of(alloc, &[b'\'', code]),
        Symbol::Action(number) => action_name(alloc, number),
    }
}

/// Returns whether a colon comes first.
fn has_colon(tokens: &[Token<'_>]) -> bool
    ensures { result ≡ spec.has_colon (tokens_of tokens.now) }
{
    match tokens {
        [] => false,
        [token, ..] => token.is(b":"),
    }
}

/// Adds a token, as a head where it is a name before a colon; a colon is left out.
fn push_headed<'a>(
    out: &mut Vec<Token<'a>>,
    token: Token<'a>,
    before_colon: bool,
) -> Result<(), AllocError>
    ensures { OnOk result (tokens_of out.new.items ≡ tokens_of out.old.items ++ spec.headed (token_of token.entry) before_colon) }
{
    if let Token::Word(symbol) = token
        && before_colon
    {
        out.push(Token::Head(symbol))?;
        return Ok(());
    }
    if !token.is(b":") {
        out.push(token)?;
    }
    Ok(())
}

/// Adds tokens, with heads.
fn push_heads<'a>(out: &mut Vec<Token<'a>>, tokens: &[Token<'a>]) -> Result<(), AllocError>
    ensures { OnOk result (tokens_of out.new.items ≡ tokens_of out.old.items ++ spec.with_heads (tokens_of tokens.now)) }
{
    'tokens: for (i, token) in tokens.iter().enumerate() {
        push_headed(out, *token, has_colon(behind(tokens, i + 1)))?;
    }
    Ok(())
}

/// Returns whether a mark is `%prec`.
fn is_prec(mark: &[u8]) -> bool
    ensures { result ≡ spec.is_prec mark.now }
{
    mark == b"%prec".as_slice()
}

/// Returns whether a symbol or an action comes in the same alternative.
fn goes_on(tokens: &[Token<'_>]) -> bool
    ensures { result ≡ spec.goes_on false (tokens_of tokens.now) }
{
    let mut after_prec = false;
    'tokens: for token in tokens {
        match token {
            Token::Head(_) => return false,
            Token::Mark(mark) => {
                if !is_prec(mark) {
                    return false;
                }
                after_prec = true;
            }
            _ => {
                if !after_prec {
                    return true;
                }
                after_prec = false;
            }
        }
    }
    false
}

/// Returns whether what comes behind a token is part of an alternative.
fn in_rule(before: bool, token: &Token<'_>) -> bool
    ensures { result ≡ spec.in_rule before (token_of token.now) }
{
    match token {
        Token::Head(_) => true,
        Token::Mark(mark) => *mark == b"|".as_slice() || (before && is_prec(mark)),
        _ => before,
    }
}

/// Returns the name of an action in the middle of a rule.
pub fn action_name(alloc: Global, number: usize) -> Result<Vec<u8>, AllocError>
    ensures { IfOk result (λ v. v.items ≡ spec.action_name number) }
{
    let name = format!(in alloc; "$@{number}")?;
    Ok(name.into_bytes())
}

/// Adds a rule for each action in the middle.
fn push_action_rules(out: &mut Vec<Token<'_>>, count: usize) -> Result<(), AllocError>
    ensures { OnOk result (tokens_of out.new.items ≡ tokens_of out.old.items ++ spec.action_rules count) }
{
    'actions: for before in 0..count {
        let number = before + 1;
        out.push(Token::Head(Symbol::Action(number)))?;
    }
    Ok(())
}

/// Adds tokens, with names for actions in the middle of alternatives, and with the rules of these.
fn push_actions<'a>(out: &mut Vec<Token<'a>>, tokens: &[Token<'a>]) -> Result<(), AllocError>
    ensures { OnOk result (tokens_of out.new.items ≡ tokens_of out.old.items ++ spec.with_actions false 0 (tokens_of tokens.now)) }
{
    let mut is_rule = false;
    let mut count: usize = 0;
    'tokens: for (i, token) in tokens.iter().enumerate() {
        if let Token::Code = token {
            if is_rule && goes_on(behind(tokens, i + 1)) {
                count += 1;
                out.push(Token::Word(Symbol::Action(count)))?;
            }
            continue;
        }
        is_rule = in_rule(is_rule, token);
        out.push(*token)?;
    }
    push_action_rules(out, count)
}

/// Returns the symbols up to the next alternative or declaration.
fn symbols_of(alloc: Global, tokens: &[Token<'_>]) -> Result<Vec<Vec<u8>>, AllocError>
    ensures { IfOk result (λ v. map bytes_of v.items ≡ spec.symbols false (tokens_of tokens.now)) }
{
    let mut out = Vec::new(alloc);
    let mut after_prec = false;
    'tokens: for token in tokens {
        match token {
            Token::Word(symbol) => {
                if !after_prec {
                    out.push(text_of(alloc, *symbol)?)?;
                }
                after_prec = false;
            }
            Token::Mark(mark) => {
                if !is_prec(mark) {
                    return Ok(out);
                }
                after_prec = true;
            }
            _ => return Ok(out),
        }
    }
    Ok(out)
}

/// Returns the token of the `%prec` up to the next alternative or declaration.
fn prec_of(alloc: Global, tokens: &[Token<'_>]) -> Result<Option<Vec<u8>>, AllocError>
    ensures { IfOk result (λ v. option_map bytes_of v ≡ spec.prec false (tokens_of tokens.now)) }
{
    let mut after_prec = false;
    'tokens: for token in tokens {
        match token {
            Token::Word(symbol) => {
                if after_prec {
                    return Ok(Some(text_of(alloc, *symbol)?));
                }
            }
            Token::Mark(mark) => {
                if !is_prec(mark) {
                    return Ok(None);
                }
                after_prec = true;
            }
            _ => return Ok(None),
        }
    }
    Ok(None)
}

/// Returns the alternative that begins with these tokens.
fn body_at(alloc: Global, tokens: &[Token<'_>]) -> Result<Body, AllocError>
    ensures { IfOk result (λ b. body_of b ≡ spec.body (tokens_of tokens.now)) }
{
    let prec = prec_of(alloc, tokens)?;
    let symbols = symbols_of(alloc, tokens)?;
    Ok(Body { symbols, prec })
}

/// Adds the alternatives behind the first of a rule, up to the next rule.
fn push_bodies(
    alloc: Global,
    bodies: &mut Vec<Body>,
    tokens: &[Token<'_>],
) -> Result<(), AllocError>
    ensures { OnOk result (map body_of bodies.new.items ≡ map body_of bodies.old.items ++ spec.more_bodies (tokens_of tokens.now)) }
{
    'tokens: for (i, token) in tokens.iter().enumerate() {
        if let Token::Head(_) = token {
            return Ok(());
        }
        if token.is(b"|") {
            bodies.push(body_at(alloc, behind(tokens, i + 1))?)?;
        }
    }
    Ok(())
}

/// Returns the rule of a head.
fn rule_at(alloc: Global, head: Symbol<'_>, tokens: &[Token<'_>]) -> Result<Rule, AllocError>
    ensures { IfOk result (λ r. rule_of r ≡ record { head = symbol_of head.entry; bodies = spec.body (tokens_of tokens.now) ∷ spec.more_bodies (tokens_of tokens.now) }) }
{
    let head = text_of(alloc, head)?;
    let mut bodies = Vec::new(alloc);
    bodies.push(body_at(alloc, tokens)?)?;
    push_bodies(alloc, &mut bodies, tokens)?;
    Ok(Rule { head, bodies })
}

/// Adds the rules of tokens.
fn push_rules(alloc: Global, rules: &mut Vec<Rule>, tokens: &[Token<'_>]) -> Result<(), AllocError>
    ensures { OnOk result (map rule_of rules.new.items ≡ map rule_of rules.old.items ++ spec.rules (tokens_of tokens.now)) }
{
    'tokens: for (i, token) in tokens.iter().enumerate() {
        if let Token::Head(head) = token {
            rules.push(rule_at(alloc, *head, behind(tokens, i + 1))?)?;
        }
    }
    Ok(())
}

/// Returns whether a symbol is a string.
fn is_string(symbol: &[u8]) -> bool
    ensures { result ≡ spec.is_string symbol.now }
{
    match symbol {
        [] => false,
        [b, ..] => *b == b'"',
    }
}

/// Adds each string with the symbol before it.
fn push_pairs(
    alloc: Global,
    aliases: &mut Vec<Alias>,
    symbols: &[Vec<u8>],
) -> Result<(), AllocError>
    ensures { OnOk result (map alias_pair aliases.new.items ≡ map alias_pair aliases.old.items ++ spec.pairs (map bytes_of symbols.now)) }
{
    'symbols: for (i, symbol) in symbols.iter().enumerate() {
        if let [next, ..] = behind(symbols, i + 1)
            && is_string(next.as_slice())
        {
            let string = copy_of(alloc, next.as_slice())?;
            let token = copy_of(alloc, symbol.as_slice())?;
            aliases.push(Alias { string, token })?;
        }
    }
    Ok(())
}

/// Returns whether the strings behind a directive are aliases.
fn declares_tokens(word: &[u8]) -> bool
    ensures { result ≡ spec.declares_tokens word.now }
{
    word == b"%token".as_slice() || word == b"%term".as_slice() || word == b"%nterm".as_slice()
}

/// Adds the aliases of declarations.
fn push_aliases(
    alloc: Global,
    aliases: &mut Vec<Alias>,
    tokens: &[Token<'_>],
) -> Result<(), AllocError>
    ensures { OnOk result (map alias_pair aliases.new.items ≡ map alias_pair aliases.old.items ++ spec.aliases (tokens_of tokens.now)) }
{
    'tokens: for (i, token) in tokens.iter().enumerate() {
        if let Token::Mark(mark) = token
            && declares_tokens(mark)
        {
            let symbols = symbols_of(alloc, behind(tokens, i + 1))?;
            push_pairs(alloc, aliases, symbols.as_slice())?;
        }
    }
    Ok(())
}

/// Adds the first of symbols, if there is one.
fn push_first(
    alloc: Global,
    starts: &mut Vec<Vec<u8>>,
    symbols: &[Vec<u8>],
) -> Result<(), AllocError>
    ensures { OnOk result (map bytes_of starts.new.items ≡ map bytes_of starts.old.items ++ take 1 (map bytes_of symbols.now)) }
{
    if let [first, ..] = symbols {
        starts.push(copy_of(alloc, first.as_slice())?)?;
    }
    Ok(())
}

/// Adds the start rules of declarations.
fn push_starts(
    alloc: Global,
    starts: &mut Vec<Vec<u8>>,
    tokens: &[Token<'_>],
) -> Result<(), AllocError>
    ensures { OnOk result (map bytes_of starts.new.items ≡ map bytes_of starts.old.items ++ spec.starts (tokens_of tokens.now)) }
{
    'tokens: for (i, token) in tokens.iter().enumerate() {
        if let Token::Mark(mark) = token
            && *mark == b"%start".as_slice()
        {
            let symbols = symbols_of(alloc, behind(tokens, i + 1))?;
            push_first(alloc, starts, symbols.as_slice())?;
        }
    }
    Ok(())
}

/// Returns whether a directive declares a precedence level.
fn is_level(word: &[u8]) -> bool
    ensures { result ≡ spec.is_level word.now }
{
    word == b"%left".as_slice()
        || word == b"%right".as_slice()
        || word == b"%nonassoc".as_slice()
        || word == b"%binary".as_slice()
        || word == b"%precedence".as_slice()
}

/// Adds the precedence levels of declarations.
fn push_levels(
    alloc: Global,
    levels: &mut Vec<Level>,
    tokens: &[Token<'_>],
) -> Result<(), AllocError>
    ensures { OnOk result (map level_of levels.new.items ≡ map level_of levels.old.items ++ spec.levels (tokens_of tokens.now)) }
{
    'tokens: for (i, token) in tokens.iter().enumerate() {
        if let Token::Mark(mark) = token
            && is_level(mark)
        {
            let word = copy_of(alloc, mark)?;
            let symbols = symbols_of(alloc, behind(tokens, i + 1))?;
            levels.push(Level { word, symbols })?;
        }
    }
    Ok(())
}

impl BisonFile {
    /// Returns a file that says nothing.
    fn new(alloc: Global) -> BisonFile
        ensures { file_of result ≡ record { rules = []; aliases = []; starts = []; levels = [] } }
    {
        BisonFile {
            rules: Vec::new(alloc),
            aliases: Vec::new(alloc),
            starts: Vec::new(alloc),
            levels: Vec::new(alloc),
        }
    }

    /// Adds what tokens say.
    fn fill(&mut self, alloc: Global, tokens: &[Token<'_>]) -> Result<(), AllocError>
        requires { file_of self.old ≡ record { rules = []; aliases = []; starts = []; levels = [] } }
        ensures { OnOk result (file_of self.new ≡ spec.text_of (tokens_of tokens.now)) }
    {
        push_rules(alloc, &mut self.rules, tokens)?;
        push_aliases(alloc, &mut self.aliases, tokens)?;
        push_starts(alloc, &mut self.starts, tokens)?;
        push_levels(alloc, &mut self.levels, tokens)
    }
}

/// Returns what tokens say.
fn file_with(alloc: Global, tokens: &[Token<'_>]) -> Result<BisonFile, AllocError>
    ensures { IfOk result (λ file. file_of file ≡ spec.text_of (tokens_of tokens.now)) }
{
    let mut file = BisonFile::new(alloc);
    match file.fill(alloc, tokens) {
        Ok(()) => Ok(file),
        Err(e) => {
            drop(file);
            Err(e)
        }
    }
}

/// Returns what the tokens of a text say.
fn file_with_actions(alloc: Global, tokens: &[Token<'_>]) -> Result<BisonFile, AllocError>
    ensures { IfOk result (λ file. file_of file ≡ spec.text_of (spec.with_actions false 0 (spec.with_heads (tokens_of tokens.now)))) }
{
    let mut headed = Vec::with_capacity(alloc, tokens.len())?;
    push_heads(&mut headed, tokens)?;
    let mut named = Vec::with_capacity(alloc, headed.len())?;
    push_actions(&mut named, headed.as_slice())?;
    drop(headed);
    file_with(alloc, named.as_slice())
}

/// Returns what a text says, whose last line ends with a line feed.
fn file_of_lines(alloc: Global, text: &[u8]) -> Result<Option<BisonFile>, AllocError>
    ensures { IfOk result (λ file. option_map file_of file ≡ spec.file_by (tokens_from 0 false text.now)) }
{
    let mut tokens = Vec::new(alloc);
    push_tokens(&mut tokens, text)?;
    if !is_whole(tokens.as_slice()) {
        return Ok(None);
    }
    let file = file_with_actions(alloc, tokens.as_slice())?;
    Ok(Some(file))
}

/// Reads what a file says; none where it has no rules, or ends within one of its tokens.
pub fn read_rules(alloc: Global, text: &[u8]) -> Result<Option<BisonFile>, AllocError>
    ensures { IfOk result (λ file. option_map file_of file ≡ spec.file_in text.now) }
{
    let mut lines = Vec::from_slice(alloc, text)?;
    lines.push(b'\n')?;
    file_of_lines(alloc, lines.as_slice())
}
