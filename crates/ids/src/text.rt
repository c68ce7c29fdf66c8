//! A text, seen by contracts as its bytes.
ghost use Rattle.std.specs.Prelude.{◌≡◌, ◌==◌, ◌++◌, [], length, IfOk, OnOk, OnErr, IsUtf8, string_bytes};

use std::alloc::{AllocError, Global};
use std::marker::Model;

/// A text over a `String`. Contracts see it as the list of its bytes, which are UTF-8.
#[derive(Debug, Drop)]
pub struct Text {
    inner: String,
}

impl Model for Text {
    ghost use Rattle.std.specs.Prelude.{List, ℕ, string_bytes};

    ghost Value = { List ℕ };

    ghost view = { λ a. string_bytes a.inner };
}

impl Text {
    /// The empty text. It takes no memory.
    pub fn new(alloc: Global) -> Self
        ensures value { result ≡ [] }
    {
        Text {
            inner: String::new(alloc),
        }
    }

    /// A copy of the text.
    pub fn copy(alloc: Global, source: &str) -> Result<Self, AllocError>
        ensures value { IfOk result (λ copied. copied ≡ source.now) }
    {
        let inner = String::from_str(alloc, source)?;
        Ok(Text { inner })
    }

    /// The text of a string, which is moved and not copied.
    pub fn from_string(inner: String) -> Self
        ensures value { result ≡ string_bytes inner }
    {
        Text { inner }
    }

    /// The text.
    pub fn slice(&self) -> &str
        ensures value { result.now ≡ self.now }
        ensures utf8 { IsUtf8 self.now }
    {
        self.inner.as_str()
    }

    /// The bytes of the text.
    pub fn as_bytes(&self) -> &[u8]
        ensures value { result.now ≡ self.now }
        ensures utf8 { IsUtf8 self.now }
    {
        self.inner.as_str().as_bytes()
    }

    /// The number of bytes.
    pub fn len(&self) -> usize
        ensures value { result ≡ length self.now }
    {
        self.inner.len()
    }

    /// Whether there is no byte.
    pub fn is_empty(&self) -> bool
        ensures value { result ≡ (length self.now == 0) }
    {
        self.inner.is_empty()
    }

    /// Appends a text. After an error the text is as it was.
    pub fn push_str(&mut self, more: &str) -> Result<(), AllocError>
        ensures ok { OnOk result (self.new ≡ self.old ++ more.now) }
        ensures err { OnErr result (self.new ≡ self.old) }
    {
        self.inner.push_str(more)
    }
}
