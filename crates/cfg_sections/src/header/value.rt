//! The values of a section's keys.

ghost use Rattle.std.specs.Prelude.{◌≡◌};
ghost use Rattle.cfg_sections.specs.HeaderTexts.{value_text, primary_of, setting_text, setting_primary};

/// A word, or one word within another, each with its location.
#[derive(Debug, PartialEq, Eq, Drop)]
pub struct Namespaced<T> {
    /// The word before `::`, with its location; `None` for one word alone.
    pub namespace: Option<(String, T)>,
    /// The word itself, or the one behind `::`, with its location.
    pub member: (String, T),
}

/// The value behind the `:` of a key. Words, numbers and texts have their locations, texts with the quotes; an array
/// has those of its two brackets.
#[derive(Debug, PartialEq, Eq, Drop)]
pub enum Setting<T> {
    /// A path: `word` or `word::word`.
    Unitary(Namespaced<T>),
    /// A path with another one in parentheses.
    Constructor {
        /// The path before the parenthesis.
        ctor: Namespaced<T>,
        /// The path within the parentheses.
        arg: Namespaced<T>,
    },
    /// A decimal number, and the location of its digits.
    Num(u64, T),
    /// The text between two `"`, and the location with the quotes.
    String(String, T),
    /// The items of an array, the location of its `[`, and that of its `]`.
    Array(Vec<Setting<T>>, T, T),
}

/// The value of a key.
#[derive(Debug, PartialEq, Eq, Drop)]
pub enum Value<T> {
    /// `key`, located at the key, or `!key`, located from the `!` on.
    Flag(bool, T),
    /// A key with a setting behind its `:`.
    Setting(Setting<T>),
}

/// The location of a key, and its value. The key is without the `!`.
#[derive(Debug, PartialEq, Eq, Drop)]
pub struct HeaderValue<T>(pub T, pub Value<T>);

impl<T> Setting<T> {
    /// Returns the location at which a message about this setting points: that of its number, text or first
    /// bracket, or of a path's outer word.
    fn primary_location(&self) -> &T
        ensures { result.now ≡ setting_primary (setting_text self.now) }
    {
        match self {
            Setting::Unitary(path) => &path.member.1,
            Setting::Constructor { ctor, arg: _ } => &ctor.member.1,
            Setting::Num(_, location) => location,
            Setting::String(_, location) => location,
            Setting::Array(_, open, _) => open,
        }
    }
}

impl<T> Value<T> {
    /// Returns the location at which a message about this value points: that of its flag, number, text or first
    /// bracket, or of a path's outer word.
    pub fn primary_location(&self) -> &T
        ensures { result.now ≡ primary_of (value_text self.now) }
    {
        match self {
            Value::Flag(_, location) => location,
            Value::Setting(setting) => setting.primary_location(),
        }
    }
}
