//! A node with its subtree in it.
ghost use Rattle.std.specs.Prelude.{◌≡◌, Some, IfOk, OnOk};
ghost use Rattle.wm_json.specs.Nodes.{border_fields, focus_fields, last_fields, middle_fields, name_fields, node_data, node_text, nodes_data, place_fields, properties_data, properties_fields, share_fields, window_fields};
ghost use Rattle.wm_json.specs.Objects.{or_null};
ghost use Rattle.wm_json.specs.declared.views.NodeView.TheViews.{out-NodeView};
ghost use Rattle.wm_written.specs.Sent.{Sends, sent, sent_fields, sent_if};

use crate::fields::{
    put_flag, put_flag_if, put_integer_if, put_null, put_number, put_number_or_null, put_numbers,
    put_rect, put_text, put_text_if, put_text_or_null, put_texts,
};
use crate::tokens::{close_array, close_object, name, open_array, open_object};
use json::Writer;
use std::alloc::{AllocError, Global};
use wm_base::{NoMemory, Props};
use wm_json::NodeView;

/// How many bytes have room at first. A tree of a few windows has as many.
const ROOM: usize = 8192;

/// The JSON of a node, with its subtree in it.
pub fn node_json(alloc: Global, node: &NodeView) -> Result<Vec<u8>, NoMemory>
    ensures { IfOk result (λ bytes. bytes.items ≡ node_text node.now) }
{
    let mut out = Writer::new(Vec::with_capacity(alloc, ROOM)?);
    put_node(&mut out, node)?;
    Ok(out.into_inner())
}

/// Writes the fields from `active` to `deco_rect`.
fn put_border(out: &mut Writer, n: &NodeView) -> Result<(), AllocError>
    ensures { OnOk result (Sends out.old out.new (sent_fields (border_fields (out-NodeView n.now)))) }
{
    put_flag_if(out, "active", n.active)?;
    put_text(out, "border", n.border.as_str())?;
    put_number(out, "current_border_width", n.current_border_width)?;
    put_text_if(out, "current_workspace", &n.current_workspace)?;
    put_rect(out, "deco_rect", &n.deco_rect)
}

/// Writes the fields from `focus` to `id`.
fn put_focus(out: &mut Writer, n: &NodeView) -> Result<(), AllocError>
    ensures { OnOk result (Sends out.old out.new (sent_fields (focus_fields (out-NodeView n.now)))) }
{
    put_numbers(out, "focus", n.focus.items())?;
    put_flag(out, "focused", n.focused)?;
    put_number(out, "fullscreen_mode", n.fullscreen_mode)?;
    put_rect(out, "geometry", &n.geometry)?;
    put_number(out, "id", n.id)
}

/// Writes the fields from `layout` to `name`.
fn put_name(out: &mut Writer, n: &NodeView) -> Result<(), AllocError>
    ensures { OnOk result (Sends out.old out.new (sent_fields (name_fields (out-NodeView n.now)))) }
{
    put_text(out, "layout", n.layout.as_str())?;
    put_texts(out, "marks", n.marks.items())?;
    put_text(out, "name", n.name.as_str())
}

/// Writes the fields from `num` to `rect`.
fn put_place(out: &mut Writer, n: &NodeView) -> Result<(), AllocError>
    ensures { OnOk result (Sends out.old out.new (sent_fields (place_fields (out-NodeView n.now)))) }
{
    put_integer_if(out, "num", &n.num)?;
    put_text(out, "orientation", n.orientation.as_str())?;
    put_text_if(out, "output", &n.output)?;
    put_flag_if(out, "primary", n.primary)?;
    put_rect(out, "rect", &n.rect)
}

/// Writes the fields from `share` to `urgent`.
fn put_share(out: &mut Writer, n: &NodeView) -> Result<(), AllocError>
    ensures { OnOk result (Sends out.old out.new (sent_fields (share_fields (out-NodeView n.now)))) }
{
    put_number(out, "share", n.share)?;
    put_number(out, "share_sum", n.share_sum)?;
    put_flag(out, "sticky", n.sticky)?;
    put_text(out, "type", n.kind.as_str())?;
    put_flag(out, "urgent", n.urgent)
}

/// Writes what a client says of its window.
fn put_words(out: &mut Writer, p: &Props) -> Result<(), AllocError>
    ensures { OnOk result (Sends out.old out.new (sent_fields (properties_fields p.now))) }
{
    put_text(out, "class", p.class.as_str())?;
    put_text(out, "instance", p.instance.as_str())?;
    put_text(out, "machine", p.machine.as_str())?;
    put_text(out, "title", p.title.as_str())?;
    put_text(out, "window_role", p.role.as_str())
}

/// Writes the field of a window's properties.
fn put_props(out: &mut Writer, field: &str, p: &Props) -> Result<(), AllocError>
    ensures { OnOk result (Sends out.old out.new (sent_if field.now (Some (properties_data p.now)))) }
{
    name(out, field)?;
    open_object(out)?;
    put_words(out, p)?;
    close_object(out)
}

/// Writes the field of a window's properties, null where there are none.
fn put_props_or_null(out: &mut Writer, field: &str, p: &Option<Props>) -> Result<(), AllocError>
    ensures { OnOk result (Sends out.old out.new (sent_if field.now (Some (or_null properties_data p.now)))) }
{
    match p {
        Some(p) => put_props(out, field, p),
        None => put_null(out, field),
    }
}

/// Writes the fields from `visible` to `window_type`.
fn put_window(out: &mut Writer, n: &NodeView) -> Result<(), AllocError>
    ensures { OnOk result (Sends out.old out.new (sent_fields (window_fields (out-NodeView n.now)))) }
{
    put_flag_if(out, "visible", n.visible)?;
    put_number_or_null(out, "window", n.window)?;
    put_props_or_null(out, "window_properties", &n.window_properties)?;
    put_rect(out, "window_rect", &n.window_rect)?;
    put_text_or_null(out, "window_type", &n.window_type)
}

/// Writes the fields from `focus` to `name`.
fn put_middle(out: &mut Writer, n: &NodeView) -> Result<(), AllocError>
    ensures { OnOk result (Sends out.old out.new (sent_fields (middle_fields (out-NodeView n.now)))) }
{
    put_focus(out, n)?;
    put_name(out, n)
}

/// Writes the fields from `num` to `window_type`.
fn put_last(out: &mut Writer, n: &NodeView) -> Result<(), AllocError>
    ensures { OnOk result (Sends out.old out.new (sent_fields (last_fields (out-NodeView n.now)))) }
{
    put_place(out, n)?;
    put_share(out, n)?;
    put_window(out, n)
}

/// Writes the object of a node, with those of its children in it.
#[cycle(node)]
fn put_node(out: &mut Writer, n: &NodeView) -> Result<(), AllocError>
    ensures { OnOk result (Sends out.old out.new (sent (node_data n.now))) }
{
    open_object(out)?;
    put_border(out, n)?;
    put_nodes(out, "floating_nodes", n.floating_nodes.items())?;
    put_middle(out, n)?;
    put_nodes(out, "nodes", n.nodes.items())?;
    put_last(out, n)?;
    close_object(out)
}

/// Writes a field that is an array of nodes.
#[cycle(node)]
fn put_nodes(out: &mut Writer, field: &str, nodes: &[NodeView]) -> Result<(), AllocError>
    ensures { OnOk result (Sends out.old out.new (sent_if field.now (Some (nodes_data nodes.now)))) }
{
    name(out, field)?;
    open_array(out)?;
    for node in nodes {
        put_node(out, node)?;
    }
    close_array(out)
}
