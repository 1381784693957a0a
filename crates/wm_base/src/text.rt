//! Short texts: names, marks and properties, of at most 1,024 bytes.
ghost use Rattle.std.specs.Prelude.{◌≡◌, ◌<◌, ◌≤◌, length, Err, IfOk, IfErr};
ghost use Rattle.wm_base.specs.declared.text.TextRefusal.TheVariants.{TooLong, NoMemory};

use std::alloc::{AllocError, Global};
use std::marker::Model;
use std::sync::ArcStr;

/// How many bytes a text has at most.
pub const MAX_TEXT: usize = 1024;

/// A text in UTF-8 of at most 1,024 bytes, which is never changed in place. A clone shares its bytes.
#[derive(Debug, Drop)]
pub struct Text {
    text: ArcStr,
}

impl Model for Text {
    ghost use Rattle.std.specs.Prelude.{List, ℕ, ◌≤◌, length};
    ghost use Rattle.std.specs.Arc.{arc_str_bytes};

    ghost Value = { List ℕ };

    ghost view = { λ t. arc_str_bytes t.text };

    ghost invariant = { λ t. length (arc_str_bytes t.text) ≤ 1024 };
}

/// Why a text was refused.
#[derive(Clone, Copy, Debug, PartialEq, Eq, Hash)]
pub enum TextRefusal {
    /// It has this many bytes, which are more than 1,024.
    TooLong { len: usize },
    NoMemory,
}

impl From<AllocError> for TextRefusal {
    ghost from_gives = { λ _ e. e ≡ NoMemory };

    fn from(_error: AllocError) -> TextRefusal {
        TextRefusal::NoMemory
    }
}

impl Text {
    /// The text with these bytes. It is too long exactly where it has more than 1,024.
    pub fn new(alloc: Global, s: &str) -> Result<Text, TextRefusal>
        ensures ok { IfOk result (λ text. text ≡ s.now) }
        ensures short { IfOk result (λ _. length s.now ≤ 1024) }
        ensures too_long { 1024 < length s.now → result ≡ Err (TooLong (length s.now)) }
        ensures only_too_long { IfErr result (λ e. (e ≡ NoMemory → ⊥) → 1024 < length s.now) }
    {
        if s.len() > MAX_TEXT {
            return Err(TextRefusal::TooLong { len: s.len() });
        }
        let text = ArcStr::from_str(alloc, s)?;
        Ok(Text { text })
    }

    /// The text.
    pub fn as_str(&self) -> &str
        ensures value { result.now ≡ self.now }
        ensures short { length result.now ≤ 1024 }
    {
        self.text.as_str()
    }
}

impl Clone for Text {
    ghost is_clone = { λ text copy. copy ≡ text };

    fn clone(&self) -> Result<Text, AllocError> {
        let text = self.text.clone()?;
        Ok(Text { text })
    }
}
