//! The first words of commands.
ghost use Rattle.std.specs.Prelude.{◌≡◌};
ghost use Rattle.wm_words.specs.Forms.{verb_of, tree_verbs, window_verbs, desk_verbs};
ghost use Rattle.wm_words.specs.Pieces.{choice};

use crate::words::is_word;

/// The first word of a command. Those that are read and not done are one.
#[derive(Clone, Copy)]
pub enum Verb {
    Split,
    Layout,
    Focus,
    Move,
    Swap,
    Resize,
    Floating,
    Fullscreen,
    Border,
    Gaps,
    Sticky,
    Mark,
    Unmark,
    Workspace,
    Rename,
    Scratchpad,
    Mode,
    AppendLayout,
    TitleFormat,
    Kill,
    Nop,
    Idle,
    Exit,
}

/// What stands beside the word in a table of names in any case, as an `Option`.
#[macro_export]
macro_rules! choice {
    ($word:expr; $($name:literal => $value:expr),+ $(,)?) => {{
        let word = $word;
        $(
            if $crate::is_word(word, $name) {
                return Some($value);
            }
        )+
        None
    }};
}

/// The verb of a word.
#[tactic(auto, unfolding(crate::specs::Forms::verb_of))]
pub fn verb_of(word: &[u8]) -> Option<Verb>
    ensures { result ≡ verb_of word.now }
{
    if let Some(verb) = tree_verb(word) {
        return Some(verb);
    }
    if let Some(verb) = window_verb(word) {
        return Some(verb);
    }
    desk_verb(word)
}

fn tree_verb(word: &[u8]) -> Option<Verb>
    ensures { result ≡ choice tree_verbs word.now }
{
    choice!(word;
        b"split" => Verb::Split,
        b"layout" => Verb::Layout,
        b"focus" => Verb::Focus,
        b"move" => Verb::Move,
        b"swap" => Verb::Swap,
        b"resize" => Verb::Resize,
        b"kill" => Verb::Kill,
        b"mark" => Verb::Mark,
        b"unmark" => Verb::Unmark,
    )
}

fn window_verb(word: &[u8]) -> Option<Verb>
    ensures { result ≡ choice window_verbs word.now }
{
    choice!(word;
        b"floating" => Verb::Floating,
        b"fullscreen" => Verb::Fullscreen,
        b"border" => Verb::Border,
        b"gaps" => Verb::Gaps,
        b"sticky" => Verb::Sticky,
        b"title_format" => Verb::TitleFormat,
        b"scratchpad" => Verb::Scratchpad,
    )
}

fn desk_verb(word: &[u8]) -> Option<Verb>
    ensures { result ≡ choice desk_verbs word.now }
{
    choice!(word;
        b"workspace" => Verb::Workspace,
        b"rename" => Verb::Rename,
        b"mode" => Verb::Mode,
        b"append_layout" => Verb::AppendLayout,
        b"nop" => Verb::Nop,
        b"exec" => Verb::Idle,
        b"open" => Verb::Idle,
        b"reload" => Verb::Idle,
        b"restart" => Verb::Idle,
        b"exit" => Verb::Exit,
    )
}
