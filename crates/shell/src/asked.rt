//! What words ask for: of each option of a table its value, and the CALLs.

ghost use Rattle.std.specs.Prelude.{◌≡◌, ℕ, List, Option, option_map};
ghost use Rattle.shell.specs.Asked.{givens_of, is_set, number_for, text_for, value_for, value_of};

/// How a word that is no option is read.
pub trait ReadsCall: Copy {
    /// What a word asks for, where it isn't refused.
    ghost call_of: { List ℕ → Option Self };

    /// What this word asks for.
    fn read_call(word: &str) -> Option<Self>
        ensures { result ≡ call_of word.now };
}

/// The CALLs of a program that has none.
#[derive(Clone, Copy, Debug, PartialEq, Eq)]
pub struct NoCall;

impl ReadsCall for NoCall {
    ghost use Rattle.shell.specs.Asked.{no_call};

    ghost call_of = { λ word. no_call word };

    fn read_call(_word: &str) -> Option<NoCall> {
        None
    }
}

/// The value of an option.
#[derive(Clone, Copy, Debug, PartialEq, Eq)]
pub enum Value<'a> {
    /// The flag is there.
    Set,
    /// The number that is given, or the default.
    Number(u32),
    /// The text that is given.
    Text(&'a str),
}

/// What is given of an option: nothing, where it isn't among the words and has no default.
#[derive(Clone, Copy, Debug)]
pub struct Given<'a> {
    pub name: &'static str,
    pub value: Option<Value<'a>>,
}

/// What words ask for.
#[derive(Debug, Drop)]
pub struct Asked<'a, C> {
    /// Each option of the table, in its order.
    pub givens: Vec<Given<'a>>,
    /// The CALLs in word order.
    pub calls: Vec<C>,
}

impl<'a, C> Asked<'a, C> {
    /// The value of the option with this name.
    pub fn value(&self, name: &str) -> Option<Value<'a>>
        ensures { option_map value_of result ≡ value_for name.now (givens_of self.now.givens.items) }
    {
        for given in &self.givens {
            if given.name == name {
                return given.value;
            }
        }
        None
    }

    /// Whether the flag with this name is there.
    pub fn is_set(&self, name: &str) -> bool
        ensures { result ≡ is_set name.now (givens_of self.now.givens.items) }
    {
        match self.value(name) {
            Some(Value::Set) => true,
            _ => false,
        }
    }

    /// The number of the option with this name, given or by default.
    pub fn number(&self, name: &str) -> Option<u32>
        ensures { result ≡ number_for name.now (givens_of self.now.givens.items) }
    {
        match self.value(name) {
            Some(Value::Number(number)) => Some(number),
            _ => None,
        }
    }

    /// The text of the option with this name.
    pub fn text(&self, name: &str) -> Option<&'a str>
        ensures { option_map (λ t. t.now) result ≡ text_for name.now (givens_of self.now.givens.items) }
    {
        match self.value(name) {
            Some(Value::Text(text)) => Some(text),
            _ => None,
        }
    }
}
