//! The words of arguments that are keywords.
ghost use Rattle.std.specs.Prelude.{◌≡◌};
ghost use Rattle.wm_words.specs.Forms.{dir_words, split_words, layout_words, cycle_words, switch_words, kind_words, op_words, gap_words, scope_words, target_words, sent_words, side_of, output_of};
ghost use Rattle.wm_words.specs.Pieces.{choice};

use crate::choice;
use wm_base::Dir;
use wm_language::{Cycle, GapOp, Kind, LayoutArg, OnOff, OutArg, Side, SplitArg, Target};

pub fn dir_of(word: &[u8]) -> Option<Dir>
    ensures { result ≡ choice dir_words word.now }
{
    choice!(word; b"left" => Dir::Left, b"right" => Dir::Right, b"up" => Dir::Up, b"down" => Dir::Down)
}

pub fn split_arg(word: &[u8]) -> Option<SplitArg>
    ensures { result ≡ choice split_words word.now }
{
    choice!(word;
        b"h" => SplitArg::H,
        b"horizontal" => SplitArg::H,
        b"v" => SplitArg::V,
        b"vertical" => SplitArg::V,
        b"t" => SplitArg::Toggle,
        b"toggle" => SplitArg::Toggle,
    )
}

pub fn layout_arg(word: &[u8]) -> Option<LayoutArg>
    ensures { result ≡ choice layout_words word.now }
{
    choice!(word;
        b"default" => LayoutArg::Default,
        b"splith" => LayoutArg::SplitH,
        b"splitv" => LayoutArg::SplitV,
        b"tabbed" => LayoutArg::Tabbed,
        b"stacking" => LayoutArg::Stacked,
        b"stacked" => LayoutArg::Stacked,
    )
}

pub fn cycle_of(word: &[u8]) -> Option<Cycle>
    ensures { result ≡ choice cycle_words word.now }
{
    choice!(word; b"split" => Cycle::Split, b"all" => Cycle::All)
}

pub fn on_off(word: &[u8]) -> Option<OnOff>
    ensures { result ≡ choice switch_words word.now }
{
    choice!(word; b"enable" => OnOff::Enable, b"disable" => OnOff::Disable, b"toggle" => OnOff::Toggle)
}

pub fn kind_of(word: &[u8]) -> Option<Kind>
    ensures { result ≡ choice kind_words word.now }
{
    choice!(word; b"floating" => Kind::Floating, b"tiling" => Kind::Tiling, b"mode_toggle" => Kind::Toggle)
}

pub fn gap_op(word: &[u8]) -> Option<GapOp>
    ensures { result ≡ choice op_words word.now }
{
    choice!(word; b"set" => GapOp::Set, b"plus" => GapOp::Plus, b"minus" => GapOp::Minus)
}

/// Which gaps: true is the outer ones.
pub fn is_outer(word: &[u8]) -> Option<bool>
    ensures { result ≡ choice gap_words word.now }
{
    choice!(word; b"inner" => false, b"outer" => true)
}

/// Of which workspaces: true is all.
pub fn is_all(word: &[u8]) -> Option<bool>
    ensures { result ≡ choice scope_words word.now }
{
    choice!(word; b"current" => false, b"all" => true)
}

pub fn side_of(word: &[u8]) -> Option<Side>
    ensures { result ≡ side_of word.now }
{
    if crate::words::is_word(word, b"width") {
        return Some(Side::Width);
    }
    if crate::words::is_word(word, b"height") {
        return Some(Side::Height);
    }
    dir_of(word).map(Side::At)
}

/// The output of a keyword.
pub fn output_of(word: &[u8]) -> Option<OutArg>
    ensures { result ≡ output_of word.now }
{
    if crate::words::is_word(word, b"current") {
        return Some(OutArg::Current);
    }
    if crate::words::is_word(word, b"primary") {
        return Some(OutArg::Primary);
    }
    if crate::words::is_word(word, b"next") {
        return Some(OutArg::Next);
    }
    dir_of(word).map(OutArg::At)
}

/// The workspace of a keyword.
pub fn target_of(word: &[u8]) -> Option<Target>
    ensures { result ≡ choice target_words word.now }
{
    choice!(word;
        b"next" => Target::Next,
        b"prev" => Target::Prev,
        b"next_on_output" => Target::NextOnOutput,
        b"prev_on_output" => Target::PrevOnOutput,
        b"back_and_forth" => Target::BackAndForth,
    )
}

/// The workspace of a keyword to which containers are moved.
pub fn sent_of(word: &[u8]) -> Option<Target>
    ensures { result ≡ choice sent_words word.now }
{
    if crate::words::is_word(word, b"current") {
        return Some(Target::Current);
    }
    target_of(word)
}
