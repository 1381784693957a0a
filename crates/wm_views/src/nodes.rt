//! The nodes of a tree as replies and events show them.
ghost use Rattle.std.specs.Prelude.{◌≡◌, IfOk};
ghost use Rattle.wm_json.specs.declared.views.NodeView.TheViews.{roll-NodeView};
ghost use Rattle.wm_views.specs.Nodes.{border_word, border_width, laid, layout_word, orientation_word, outlined, plain, type_word};

use crate::setting::{set_layout, set_outline};
use std::alloc::Global;
use wm_base::{Border, Layout, List, NOWHERE, NoMemory, Str, Text};
use wm_json::NodeView;

/// A copy of a text.
pub fn word(alloc: Global, text: &str) -> Result<Str, NoMemory>
    ensures { IfOk result (λ word. word ≡ text.now) }
{
    let mut word = String::new(alloc);
    word.push_str(text)?;
    Ok(Str::of(word))
}

/// The four words that a view has, if no more is said of its node.
#[derive(Drop)]
struct Words {
    border: Str,
    layout: Str,
    orientation: Str,
    kind: Str,
}

fn words_of(
    alloc: Global,
    border: &str,
    layout: &str,
    orientation: &str,
    kind: &str,
) -> Result<Words, NoMemory>
    ensures border { IfOk result (λ words. words.border ≡ border.now) }
    ensures layout { IfOk result (λ words. words.layout ≡ layout.now) }
    ensures orientation { IfOk result (λ words. words.orientation ≡ orientation.now) }
    ensures kind { IfOk result (λ words. words.kind ≡ kind.now) }
{
    let border = word(alloc, border)?;
    let layout = word(alloc, layout)?;
    let orientation = word(alloc, orientation)?;
    let kind = word(alloc, kind)?;
    Ok(Words {
        border,
        layout,
        orientation,
        kind,
    })
}

/// The view of a node that has nothing but an id, a name and a type.
pub fn plain(alloc: Global, id: u32, name: Text, kind: &str) -> Result<NodeView, NoMemory>
    ensures { IfOk result (λ view. view ≡ roll-NodeView (plain id name kind.now)) }
{
    match words_of(alloc, "none", "splith", "none", kind) {
        Ok(words) => Ok(plain_view(alloc, id, name, words)),
        Err(error) => Err(error),
    }
}

fn plain_view(alloc: Global, id: u32, name: Text, words: Words) -> NodeView
    ensures { result ≡ roll-NodeView (record (plain id name words.kind) { border = words.border; layout = words.layout; orientation = words.orientation }) }
{
    NodeView {
        border: words.border,
        current_border_width: 0,
        deco_rect: NOWHERE,
        floating_nodes: List::of(Vec::new(alloc)),
        focus: List::of(Vec::new(alloc)),
        focused: false,
        fullscreen_mode: 0,
        geometry: NOWHERE,
        id,
        layout: words.layout,
        marks: List::of(Vec::new(alloc)),
        name,
        nodes: List::of(Vec::new(alloc)),
        orientation: words.orientation,
        rect: NOWHERE,
        share: 0,
        share_sum: 0,
        sticky: false,
        kind: words.kind,
        urgent: false,
        window: None,
        window_properties: None,
        window_rect: NOWHERE,
        window_type: None,
        num: None,
        output: None,
        visible: None,
        active: None,
        current_workspace: None,
        primary: None,
    }
}

/// A border's word.
pub fn border_word(border: Border) -> &'static str
    ensures { result.now ≡ border_word border }
{
    match border {
        Border::Normal(_) => "normal",
        Border::Pixel(_) => "pixel",
        Border::Bare => "none",
    }
}

/// The width of a border in pixels.
pub fn border_width(border: Border) -> u32
    ensures { result ≡ border_width border }
{
    match border {
        Border::Normal(width) | Border::Pixel(width) => width,
        Border::Bare => 0,
    }
}

/// A layout's word.
pub fn layout_word(layout: Layout) -> &'static str
    ensures { result.now ≡ layout_word layout }
{
    match layout {
        Layout::SplitH => "splith",
        Layout::SplitV => "splitv",
        Layout::Tabbed => "tabbed",
        Layout::Stacked => "stacked",
    }
}

/// The word of the direction in which a layout's children stand, or their titles.
pub fn orientation_word(layout: Layout) -> &'static str
    ensures { result.now ≡ orientation_word layout }
{
    match layout {
        Layout::SplitH | Layout::Tabbed => "horizontal",
        Layout::SplitV | Layout::Stacked => "vertical",
    }
}

/// The type of a container: that of floating windows and of those in the scratchpad, or that of others.
pub fn type_word(floating: bool) -> &'static str
    ensures { result.now ≡ type_word floating }
{
    if floating { "floating_con" } else { "con" }
}

/// A layout's word, and the word of its direction.
#[derive(Drop)]
pub struct LayoutWords {
    pub layout: Str,
    pub orientation: Str,
}

/// A layout's word with that of its direction.
pub fn layout_words(alloc: Global, layout: Layout) -> Result<LayoutWords, NoMemory>
    ensures layout { IfOk result (λ words. words.layout ≡ layout_word layout) }
    ensures orientation { IfOk result (λ words. words.orientation ≡ orientation_word layout) }
{
    let orientation = word(alloc, orientation_word(layout))?;
    let layout = word(alloc, layout_word(layout))?;
    Ok(LayoutWords {
        layout,
        orientation,
    })
}

/// The view of a node that has nothing but an id, a name, a type and a layout.
pub fn laid(
    alloc: Global,
    id: u32,
    name: Text,
    kind: &str,
    layout: Layout,
) -> Result<NodeView, NoMemory>
    ensures { IfOk result (λ view. view ≡ roll-NodeView (laid layout (plain id name kind.now))) }
{
    let words = layout_words(alloc, layout)?;
    let mut view = plain(alloc, id, name, kind)?;
    set_layout(&mut view, words);
    Ok(view)
}

/// The view of an output that has nothing but an id, a name and the name of the workspace that it shows.
pub fn outlined(alloc: Global, id: u32, name: Text, shown: Text) -> Result<NodeView, NoMemory>
    ensures { IfOk result (λ view. view ≡ roll-NodeView (outlined id name shown)) }
{
    let layout = word(alloc, "output")?;
    let mut view = plain(alloc, id, name, "output")?;
    set_outline(&mut view, layout, shown);
    Ok(view)
}
