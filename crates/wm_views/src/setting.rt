//! What is said of a node's view after its texts: places, rows, and what containers, windows and workspaces have.
ghost use Rattle.std.specs.Prelude.{◌≡◌, ◌-ℤ◌, Some};
ghost use Rattle.wm_json.specs.declared.views.NodeView.TheViews.{out-NodeView, roll-NodeView};
ghost use Rattle.wm_views.specs.Nodes.{counted_from, within};

use crate::nodes::LayoutWords;
use wm_base::{List, Props, Rect, Str, Text};
use wm_json::NodeView;

/// The rows below a node: their views, and the ids of them by recency.
#[derive(Drop)]
pub struct Rows {
    pub nodes: List<NodeView>,
    pub floating: List<NodeView>,
    pub focus: List<u32>,
}

/// Says of a view what is below its node.
pub fn set_rows(view: &mut NodeView, rows: Rows)
    ensures { view.new ≡ roll-NodeView (record (out-NodeView view.old) { nodes = rows.nodes; floating_nodes = rows.floating; focus = rows.focus }) }
{
    view.nodes = rows.nodes;
    view.floating_nodes = rows.floating;
    view.focus = rows.focus;
}

/// Says of a view the layout of its node.
pub fn set_layout(view: &mut NodeView, words: LayoutWords)
    ensures { view.new ≡ roll-NodeView (record (out-NodeView view.old) { layout = words.layout; orientation = words.orientation }) }
{
    view.layout = words.layout;
    view.orientation = words.orientation;
}

/// Says of a view where its node stands, and whether it is focused and an urgent window is in it.
pub fn set_place(view: &mut NodeView, rect: Rect, focused: bool, urgent: bool)
    ensures { view.new ≡ roll-NodeView (record (out-NodeView view.old) { rect = rect; focused = focused; urgent = urgent }) }
{
    view.rect = rect;
    view.focused = focused;
    view.urgent = urgent;
}

/// Says of a container's view its title's rectangle, its marks, its share among its siblings' shares, and whether it
/// is sticky.
pub fn set_con(
    view: &mut NodeView,
    deco_rect: Rect,
    marks: List<Text>,
    share: u32,
    share_sum: u32,
    sticky: bool,
)
    ensures { view.new ≡ roll-NodeView (record (out-NodeView view.old) { deco_rect = deco_rect; marks = marks; share = share; share_sum = share_sum; sticky = sticky }) }
{
    view.deco_rect = deco_rect;
    view.marks = marks;
    view.share = share;
    view.share_sum = share_sum;
    view.sticky = sticky;
}

/// The texts of a window's view.
#[derive(Drop)]
pub struct WindowTexts {
    pub border: Str,
    pub props: Props,
    pub kind: Text,
}

/// Says of a window's view its id and its texts.
pub fn set_window(view: &mut NodeView, id: u32, texts: WindowTexts)
    ensures { view.new ≡ roll-NodeView (record (out-NodeView view.old) { border = texts.border; window = Some id; window_properties = Some texts.props; window_type = Some texts.kind }) }
{
    view.border = texts.border;
    view.window = Some(id);
    view.window_properties = Some(texts.props);
    view.window_type = Some(texts.kind);
}

/// Says of a window's view its content, its natural size, the width of its border, and whether it is fullscreen.
pub fn set_content(view: &mut NodeView, content: Rect, natural: Rect, border: u32, fullscreen: u32)
    ensures { view.new ≡ roll-NodeView (record (out-NodeView view.old) { window_rect = content; geometry = natural; current_border_width = border; fullscreen_mode = fullscreen }) }
{
    view.window_rect = content;
    view.geometry = natural;
    view.current_border_width = border;
    view.fullscreen_mode = fullscreen;
}

/// Says of a workspace's view its number, its output, and whether it is shown there.
pub fn set_space(view: &mut NodeView, num: i32, output: Text, visible: bool)
    ensures { view.new ≡ roll-NodeView (record (out-NodeView view.old) { num = Some num; output = Some output; visible = Some visible }) }
{
    view.num = Some(num);
    view.output = Some(output);
    view.visible = Some(visible);
}

/// Says of an output's view its layout and the name of the workspace that it shows.
pub fn set_outline(view: &mut NodeView, layout: Str, shown: Text)
    ensures { view.new ≡ roll-NodeView (record (out-NodeView view.old) { layout = layout; current_workspace = Some shown }) }
{
    view.layout = layout;
    view.current_workspace = Some(shown);
}

/// Says of an output's view whether it is there for windows, and whether it is the first.
pub fn set_output(view: &mut NodeView, active: bool, primary: bool)
    ensures { view.new ≡ roll-NodeView (record (out-NodeView view.old) { active = Some active; primary = Some primary }) }
{
    view.active = Some(active);
    view.primary = Some(primary);
}

/// A rectangle, its place counted from that of another. All is 0 where there is none.
pub fn counted_from(from: Rect, rect: Option<Rect>) -> Rect
    ensures { result ≡ counted_from from rect }
{
    match rect {
        None => Rect {
            x: 0,
            y: 0,
            w: 0,
            h: 0,
        },
        Some(rect) => Rect {
            x: counted(rect.x, from.x),
            y: counted(rect.y, from.y),
            w: rect.w,
            h: rect.h,
        },
    }
}

fn counted(place: i32, from: i32) -> i32
    ensures { result ≡ within (place -ℤ from) }
{
    let apart = i64::from(place) - i64::from(from);
    if apart < -2_147_483_648 {
        i32::MIN
    } else if apart > 2_147_483_647 {
        i32::MAX
    } else {
        apart as i32
    }
}
