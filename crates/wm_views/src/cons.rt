//! The views of containers and workspaces, without what is in their rows.
ghost use Rattle.std.specs.Prelude.{◌≡◌, ◌≤◌, if◌then◌else◌, pos, IfOk};
ghost use Rattle.wm_forest.specs.Counts.{row_length};
ghost use Rattle.wm_json.specs.declared.views.NodeView.TheViews.{out-NodeView, roll-NodeView};
ghost use Rattle.wm_views.specs.Nodes.{any_con, border_width, border_word, con_node, counted_from, laid, space_node, window_node};
ghost use Rattle.wm_arrange.specs.TitleText.{title_text};
ghost use Rattle.wm_views.specs.Maps.{area, rect_at};
ghost use Rattle.wm_views.specs.declared.maps.Wanted.TheVariants.{Contents};
ghost use Rattle.wm_views.specs.Sight.{IsSight};

use crate::nodes::{border_width, border_word, laid, layout_words, plain, type_word, word};
use crate::numbers::number;
use crate::setting::{
    WindowTexts, counted_from, set_con, set_content, set_layout, set_place, set_space, set_window,
};
use crate::sight::Sight;
use crate::spaces::has_urgent;
use std::alloc::Global;
use wm_arrange::title_text;
use wm_base::{Border, Layout, NoMemory, Props, Rect, Size, Text};
use wm_json::{NodeView, copy_texts};
use wm_tree::{ConKind, ConPart, Cursor, OutputPart, Part, SpacePart, copy_props};

/// What stands above a container: the rectangle of its parent, the sum of the shares in its row (0 where it is not
/// tiled), and whether it is a floating window or one of the scratchpad.
#[derive(Clone, Copy, Debug)]
pub struct Above {
    pub rect: Rect,
    pub shares: u32,
    pub floating: bool,
}

/// A container, without its children's views.
pub fn con_view(
    alloc: Global,
    sight: &Sight<'_>,
    above: &Above,
    part: &Part,
    con: &ConPart,
    kids: &Cursor<'_>,
) -> Result<NodeView, NoMemory>
    requires sight { IsSight sight.now }
    requires few { row_length kids.now ≤ 256 }
    ensures { IfOk result (λ view. view ≡ roll-NodeView (con_node sight.now.tree.now sight.now.arrangement.now.parts above.now part.now con.now con.now.kind kids.now)) }
{
    match &con.kind {
        ConKind::Split { layout, .. } => {
            split_view(alloc, sight, above, part, con, *layout, kids)
        }
        ConKind::Window { props, natural, .. } => {
            let view = named_con(alloc, sight, above, part, con, &props.title, kids)?;
            window_view(alloc, sight, part, con, props, *natural, view)
        }
        ConKind::Placeholder { props, .. } => {
            named_con(alloc, sight, above, part, con, &props.title, kids)
        }
    }
}

/// What the view of every container has.
fn any_con(
    alloc: Global,
    sight: &Sight<'_>,
    above: &Above,
    part: &Part,
    con: &ConPart,
    name: Text,
    kids: &Cursor<'_>,
) -> Result<NodeView, NoMemory>
    requires { IsSight sight.now }
    ensures { IfOk result (λ view. view ≡ roll-NodeView (any_con sight.now.tree.now sight.now.arrangement.now.parts above.now part.now con.now name kids.now)) }
{
    let marks = copy_texts(alloc, part.marks.items())?;
    let mut view = plain(alloc, part.id.0, name, type_word(above.floating))?;
    let deco_rect = counted_from(above.rect, sight.title(part.id));
    let sticky = con.state.sticky;
    set_con(&mut view, deco_rect, marks, con.share, above.shares, sticky);
    let focused = sight.is_focused(part.id);
    let urgent = sight.is_urgent(part.id) || has_urgent(sight, kids);
    set_place(&mut view, sight.area(part.id), focused, urgent);
    Ok(view)
}

/// What the view of every container has, with a copy of its name.
fn named_con(
    alloc: Global,
    sight: &Sight<'_>,
    above: &Above,
    part: &Part,
    con: &ConPart,
    name: &Text,
    kids: &Cursor<'_>,
) -> Result<NodeView, NoMemory>
    requires { IsSight sight.now }
    ensures { IfOk result (λ view. view ≡ roll-NodeView (any_con sight.now.tree.now sight.now.arrangement.now.parts above.now part.now con.now name.now kids.now)) }
{
    let name = name.clone()?;
    any_con(alloc, sight, above, part, con, name, kids)
}

fn split_view(
    alloc: Global,
    sight: &Sight<'_>,
    above: &Above,
    part: &Part,
    con: &ConPart,
    layout: Layout,
    kids: &Cursor<'_>,
) -> Result<NodeView, NoMemory>
    requires sight { IsSight sight.now }
    requires few { row_length kids.now ≤ 256 }
    ensures { IfOk result (λ view. view ≡ roll-NodeView (laid layout (any_con sight.now.tree.now sight.now.arrangement.now.parts above.now part.now con.now (title_text part.now kids.now) kids.now))) }
{
    let words = layout_words(alloc, layout)?;
    let name = title_text(alloc, part, kids)?;
    let mut view = any_con(alloc, sight, above, part, con, name, kids)?;
    set_layout(&mut view, words);
    Ok(view)
}

/// The view of a window from what every container's has.
fn window_view(
    alloc: Global,
    sight: &Sight<'_>,
    part: &Part,
    con: &ConPart,
    props: &Props,
    natural: Size,
    view: NodeView,
) -> Result<NodeView, NoMemory>
    requires { IsSight sight.now }
    ensures { IfOk result (λ window. window ≡ roll-NodeView (window_node sight.now.arrangement.now.parts part.now con.now props.now natural (out-NodeView view))) }
{
    let mut view = view;
    match window_texts(alloc, con.state.border, props) {
        Ok(texts) => {
            set_window(&mut view, part.id.0, texts);
            set_sizes(&mut view, sight, part, con, natural);
            Ok(view)
        }
        Err(error) => {
            drop(view);
            Err(error)
        }
    }
}

fn window_texts(alloc: Global, border: Border, props: &Props) -> Result<WindowTexts, NoMemory>
    ensures border { IfOk result (λ texts. texts.border ≡ border_word border) }
    ensures props { IfOk result (λ texts. texts.props ≡ props.now) }
    ensures kind { IfOk result (λ texts. texts.kind ≡ props.now.kind) }
{
    let border = word(alloc, border_word(border))?;
    let kind = props.kind.clone()?;
    let props = copy_props(props)?;
    Ok(WindowTexts {
        border,
        props,
        kind,
    })
}

/// Says of a window's view its content, its natural size, its border, and whether it is fullscreen.
fn set_sizes(view: &mut NodeView, sight: &Sight<'_>, part: &Part, con: &ConPart, natural: Size)
    requires { IsSight sight.now }
    ensures { view.new ≡ roll-NodeView (record (out-NodeView view.old) {
      current_border_width = border_width con.now.state.border;
      fullscreen_mode = if con.now.state.fullscreen then 1 else 0;
      geometry = record { x = pos 0; y = pos 0; w = natural.w; h = natural.h };
      window_rect = counted_from (area sight.now.arrangement.now.parts part.now.id) (rect_at Contents part.now.id sight.now.arrangement.now.parts);
    }) }
{
    let content = counted_from(sight.area(part.id), sight.content(part.id));
    let natural = Rect {
        x: 0,
        y: 0,
        w: natural.w,
        h: natural.h,
    };
    let fullscreen = if con.state.fullscreen { 1 } else { 0 };
    set_content(
        view,
        content,
        natural,
        border_width(con.state.border),
        fullscreen,
    );
}

/// A workspace on an output, without its children's and floating windows' views.
pub fn space_view(
    alloc: Global,
    sight: &Sight<'_>,
    output: &OutputPart,
    part: &Part,
    space: &SpacePart,
    kids: &Cursor<'_>,
    floats: &Cursor<'_>,
) -> Result<NodeView, NoMemory>
    requires { IsSight sight.now }
    ensures { IfOk result (λ view. view ≡ roll-NodeView (space_node sight.now.tree.now sight.now.arrangement.now.parts output.now part.now space.now kids.now floats.now)) }
{
    let on = output.name.clone()?;
    let name = space.name.clone()?;
    let mut view = laid(alloc, part.id.0, name, "workspace", space.layout)?;
    let visible = part.id == output.shown;
    set_space(&mut view, number(space.name.as_str()), on, visible);
    let focused = sight.is_focused(part.id);
    let urgent = has_urgent(sight, kids) || has_urgent(sight, floats);
    set_place(&mut view, sight.area(part.id), focused, urgent);
    Ok(view)
}
