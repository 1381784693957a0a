//! Arrangements and areas as lines.
ghost use Rattle.std.specs.Prelude.{◌≡◌, ◌<◌, ◌≤◌, true, All, length};
ghost use Rattle.cases_tree.specs.Desk.{Holds};
ghost use Rattle.wm_tree.specs.Sound.{IsSound};

use crate::desk::Desk;
use crate::telling::push_rect;
use case_data::{Fault, Words};
use std::alloc::{AllocError, Global};
use wm_arrange::{Arrangement, Placed, PlacedPart, area_of, arrange, cut};
use wm_base::{ConId, Size};

/// Why an arrangement is not asked for: a change of the tree is not known to keep it sound.
pub const UNKNOWN: &str = "not asked";

/// Appends the parts of the arrangement of the tree, and keeps it.
pub fn place(desk: &mut Desk, words: &Words<'_>, out: &mut String) -> Result<(), Fault>
    requires { Holds desk.old }
    ensures { Holds desk.new }
{
    if desk.sound {
        let arrangement = arrange(words.alloc, &desk.tree)?;
        push_parts(out, &arrangement)?;
        desk.held = Some(arrangement);
        Ok(())
    } else {
        Ok(writeln!(out, "{UNKNOWN}")?)
    }
}

/// Says whether the arrangement of the tree is the one that was kept.
pub fn compare(desk: &Desk, words: &Words<'_>, out: &mut String) -> Result<(), Fault>
    requires { Holds desk.now }
{
    if desk.sound {
        let same = is_same(words.alloc, desk)?;
        Ok(writeln!(out, "same {same}")?)
    } else {
        Ok(writeln!(out, "{UNKNOWN}")?)
    }
}

fn is_same(alloc: Global, desk: &Desk) -> Result<bool, Fault>
    requires { IsSound desk.now.tree }
{
    let arrangement = arrange(alloc, &desk.tree)?;
    Ok(is_held(desk, &arrangement))
}

fn is_held(desk: &Desk, arrangement: &Arrangement) -> bool {
    match &desk.held {
        Some(held) => held.same(arrangement),
        None => false,
    }
}

/// `area 6`: the area of a workspace or container.
pub fn area(desk: &Desk, words: &mut Words<'_>, out: &mut String) -> Result<(), Fault>
    requires { Holds desk.now }
{
    let con = words.con()?;
    if desk.sound {
        push_rect(out, area_of(&desk.tree, con))?;
    } else {
        out.push_str(UNKNOWN)?;
    }
    Ok(out.push('\n')?)
}

/// `size 6`: the size of a window's content in the arrangement that was kept.
pub fn size(desk: &Desk, words: &mut Words<'_>, out: &mut String) -> Result<(), Fault> {
    let con = words.con()?;
    match held_size(desk, con) {
        Some(size) => Ok(writeln!(out, "{}x{}", size.w, size.h)?),
        None => Ok(writeln!(out, "none")?),
    }
}

fn held_size(desk: &Desk, con: ConId) -> Option<Size> {
    match &desk.held {
        Some(held) => held.size(con),
        None => None,
    }
}

/// Appends a line for each part.
pub fn push_parts(out: &mut String, arrangement: &Arrangement) -> Result<(), AllocError> {
    for placed in arrangement.parts.items() {
        push_placed(out, placed)?;
    }
    Ok(())
}

fn push_placed(out: &mut String, placed: &Placed) -> Result<(), AllocError> {
    write!(out, "{} {} ", part_word(&placed.part), placed.con.0)?;
    push_rect(out, placed.rect)?;
    push_look(out, &placed.part)?;
    out.push('\n')
}

/// The ink of a part and the text of a title.
fn push_look(out: &mut String, part: &PlacedPart) -> Result<(), AllocError> {
    match part {
        PlacedPart::Title { ink, text } => write!(out, " {:06x} \"{}\"", ink.0, text.as_str()),
        PlacedPart::Border { ink } => write!(out, " {:06x}", ink.0),
        PlacedPart::Back | PlacedPart::Area | PlacedPart::Content => Ok(()),
    }
}

fn part_word(part: &PlacedPart) -> &'static str {
    match part {
        PlacedPart::Back => "back",
        PlacedPart::Area => "area",
        PlacedPart::Title { .. } => "title",
        PlacedPart::Border { .. } => "border",
        PlacedPart::Content => "content",
    }
}

/// `cut 1000 333 333 334`: the start and the length of each child.
pub fn cut_all(words: &mut Words<'_>, out: &mut String) -> Result<(), Fault> {
    let width = words.number()?;
    let shares = shares(words)?;
    for index in 0..shares.len() {
        push_cut(out, width, &shares, index)?;
    }
    Ok(())
}

fn shares(words: &mut Words<'_>) -> Result<Vec<u32>, Fault> {
    let mut shares = Vec::new(words.alloc);
    for _ in 0..300 {
        if words.is_done() {
            break;
        }
        shares.push(words.number()?)?;
    }
    Ok(shares)
}

fn push_cut(out: &mut String, width: u32, shares: &[u32], index: usize) -> Result<(), AllocError> {
    if !is_fit(width, shares, index) {
        return writeln!(out, "{UNKNOWN}");
    }
    let (start, length) = cut(width, shares, index);
    writeln!(out, "{start}+{length}")
}

/// Whether a child's cut may be asked for.
fn is_fit(width: u32, shares: &[u32], index: usize) -> bool
    ensures index { result ≡ true → index < length shares.now }
    ensures few { result ≡ true → length shares.now ≤ 256 }
    ensures some { result ≡ true → All (λ share. 1 ≤ share) shares.now }
    ensures small { result ≡ true → All (λ share. share ≤ 1048576) shares.now }
    ensures short { result ≡ true → width ≤ 16384 }
{
    width <= 16_384
        && index < shares.len()
        && shares.len() <= 256
        && shares.iter().all(|share| 1 <= *share)
        && shares.iter().all(|share| *share <= 1_048_576)
}
