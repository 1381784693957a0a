//! The object of a node, with its subtree in it.
ghost use Rattle.std.specs.Prelude.{◌≡◌, [], codes, false, IfOk, OnOk};
ghost use Rattle.serde_json.specs.Data.{object, put as with_member};
ghost use Rattle.serde_json.specs.View.{members_view, view};
ghost use Rattle.serde_json.specs.Written.{has_float, compact_text};
ghost use Rattle.wm_json.specs.Arrays.{texts_data};
ghost use Rattle.wm_json.specs.Nodes.{border_fields, focus_fields, last_fields, middle_fields, name_fields, node_data, node_text, nodes_data, place_fields, properties_data, share_fields, window_fields};
ghost use Rattle.wm_json.specs.Objects.{array_with, or_null, put_fields, whole_number};
ghost use Rattle.wm_json.specs.declared.views.NodeView.TheViews.{out-NodeView};

use crate::fields::{
    put_flag, put_flag_if, put_integer_if, put_number, put_number_or_null, put_rect, put_text,
    put_text_if, put_text_or_null,
};
use crate::values::texts_value;
use crate::views::NodeView;
use serde_json::{Map, Value, put};
use std::alloc::{AllocError, Global};
use wm_base::{NoMemory, Props};

/// Adds the fields from `active` to `deco_rect`, the last first.
fn put_border(
    alloc: Global,
    n: &NodeView,
    members: &mut Map<String, Value>,
) -> Result<(), AllocError>
    ensures { OnOk result (members_view members.new.entries
        ≡ put_fields (border_fields (out-NodeView n.now)) (members_view members.old.entries)) }
{
    put_rect(alloc, members, "deco_rect", &n.deco_rect)?;
    put_text_if(alloc, members, "current_workspace", &n.current_workspace)?;
    put_number(
        alloc,
        members,
        "current_border_width",
        n.current_border_width.into(),
    )?;
    put_text(alloc, members, "border", n.border.as_str())?;
    put_flag_if(alloc, members, "active", n.active)
}

/// The array of these numbers.
fn numbers_value(alloc: Global, numbers: &[u32]) -> Result<Value, AllocError>
    ensures { IfOk result (λ v. view v ≡ array_with whole_number numbers.now) }
{
    let mut values = Vec::with_capacity(alloc, numbers.len())?;
    for number in numbers {
        values.push(Value::from(*number))?;
    }
    Ok(Value::Array(values))
}

/// Adds the fields from `focus` to `id`, the last first.
fn put_focus(
    alloc: Global,
    n: &NodeView,
    members: &mut Map<String, Value>,
) -> Result<(), AllocError>
    ensures { OnOk result (members_view members.new.entries
        ≡ put_fields (focus_fields (out-NodeView n.now)) (members_view members.old.entries)) }
{
    put_number(alloc, members, "id", n.id.into())?;
    put_rect(alloc, members, "geometry", &n.geometry)?;
    put_number(alloc, members, "fullscreen_mode", n.fullscreen_mode.into())?;
    put_flag(alloc, members, "focused", n.focused)?;
    put(
        members,
        alloc,
        "focus",
        numbers_value(alloc, n.focus.items())?,
    )
}

/// Adds the fields from `layout` to `name`, the last first.
fn put_name(alloc: Global, n: &NodeView, members: &mut Map<String, Value>) -> Result<(), NoMemory>
    ensures { OnOk result (members_view members.new.entries
        ≡ put_fields (name_fields (out-NodeView n.now)) (members_view members.old.entries)) }
{
    put_text(alloc, members, "name", n.name.as_str())?;
    let marks = texts_value(alloc, n.marks.items())?;
    put(members, alloc, "marks", marks)?;
    Ok(put_text(alloc, members, "layout", n.layout.as_str())?)
}

/// Adds the fields from `num` to `rect`, the last first.
fn put_place(
    alloc: Global,
    n: &NodeView,
    members: &mut Map<String, Value>,
) -> Result<(), AllocError>
    ensures { OnOk result (members_view members.new.entries
        ≡ put_fields (place_fields (out-NodeView n.now)) (members_view members.old.entries)) }
{
    put_rect(alloc, members, "rect", &n.rect)?;
    put_flag_if(alloc, members, "primary", n.primary)?;
    put_text_if(alloc, members, "output", &n.output)?;
    put_text(alloc, members, "orientation", n.orientation.as_str())?;
    put_integer_if(alloc, members, "num", n.num)
}

/// Adds the fields from `share` to `urgent`, the last first.
fn put_share(
    alloc: Global,
    n: &NodeView,
    members: &mut Map<String, Value>,
) -> Result<(), AllocError>
    ensures { OnOk result (members_view members.new.entries
        ≡ put_fields (share_fields (out-NodeView n.now)) (members_view members.old.entries)) }
{
    put_flag(alloc, members, "urgent", n.urgent)?;
    put_text(alloc, members, "type", n.kind.as_str())?;
    put_flag(alloc, members, "sticky", n.sticky)?;
    put_number(alloc, members, "share_sum", n.share_sum.into())?;
    put_number(alloc, members, "share", n.share.into())
}

/// Adds the fields of a window's properties to no members.
fn put_props(alloc: Global, p: &Props, members: &mut Map<String, Value>) -> Result<(), AllocError>
    requires { members.old.entries ≡ [] }
    ensures { OnOk result (object (members_view members.new.entries) ≡ properties_data p.now) }
{
    put_text(alloc, members, "class", p.class.as_str())?;
    put_text(alloc, members, "instance", p.instance.as_str())?;
    put_text(alloc, members, "machine", p.machine.as_str())?;
    put_text(alloc, members, "title", p.title.as_str())?;
    put_text(alloc, members, "window_role", p.role.as_str())
}

/// The object of a window's properties.
fn properties_value(alloc: Global, p: &Props) -> Result<Value, AllocError>
    ensures { IfOk result (λ v. view v ≡ properties_data p.now) }
{
    let mut members = Map::new(alloc);
    put_props(alloc, p, &mut members)?;
    Ok(Value::Object(members))
}

/// Adds the field `window_properties`, null where there are none.
fn put_properties(
    alloc: Global,
    members: &mut Map<String, Value>,
    properties: &Option<Props>,
) -> Result<(), AllocError>
    ensures { OnOk result (members_view members.new.entries
        ≡ with_member (codes "window_properties") (or_null properties_data properties.now)
        (members_view members.old.entries)) }
{
    match properties {
        Some(p) => put(
            members,
            alloc,
            "window_properties",
            properties_value(alloc, p)?,
        ),
        None => put(members, alloc, "window_properties", Value::Null),
    }
}

/// Adds the fields from `visible` to `window_type`, the last first.
fn put_window(
    alloc: Global,
    n: &NodeView,
    members: &mut Map<String, Value>,
) -> Result<(), AllocError>
    ensures { OnOk result (members_view members.new.entries
        ≡ put_fields (window_fields (out-NodeView n.now)) (members_view members.old.entries)) }
{
    put_text_or_null(alloc, members, "window_type", &n.window_type)?;
    put_rect(alloc, members, "window_rect", &n.window_rect)?;
    put_properties(alloc, members, &n.window_properties)?;
    put_number_or_null(alloc, members, "window", n.window)?;
    put_flag_if(alloc, members, "visible", n.visible)
}

/// Adds the fields from `num` to `window_type`, the last first.
fn put_last(alloc: Global, n: &NodeView, members: &mut Map<String, Value>) -> Result<(), AllocError>
    ensures { OnOk result (members_view members.new.entries
        ≡ put_fields (last_fields (out-NodeView n.now)) (members_view members.old.entries)) }
{
    put_window(alloc, n, members)?;
    put_share(alloc, n, members)?;
    put_place(alloc, n, members)
}

/// Adds the fields from `focus` to `name`, the last first.
fn put_middle(alloc: Global, n: &NodeView, members: &mut Map<String, Value>) -> Result<(), NoMemory>
    ensures { OnOk result (members_view members.new.entries
        ≡ put_fields (middle_fields (out-NodeView n.now)) (members_view members.old.entries)) }
{
    put_name(alloc, n, members)?;
    Ok(put_focus(alloc, n, members)?)
}

/// The object of a node, with those of its children in it.
#[cycle(node)]
pub fn node_value(alloc: Global, n: &NodeView) -> Result<Value, NoMemory>
    ensures value { IfOk result (λ v. view v ≡ node_data n.now) }
    ensures text { IfOk result (λ v. compact_text (view v) ≡ node_text n.now) }
    ensures whole { IfOk result (λ v. has_float (view v) ≡ false) }
{
    let mut members = Map::new(alloc);
    put_node(alloc, n, &mut members)?;
    Ok(Value::Object(members))
}

/// Adds the fields of a node to no members, the last first.
#[cycle(node)]
fn put_node(alloc: Global, n: &NodeView, members: &mut Map<String, Value>) -> Result<(), NoMemory>
    requires { members.old.entries ≡ [] }
    ensures { OnOk result (object (members_view members.new.entries) ≡ node_data n.now) }
{
    put_last(alloc, n, members)?;
    put_nodes(alloc, n.nodes.items(), "nodes", members)?;
    put_middle(alloc, n, members)?;
    put_nodes(alloc, n.floating_nodes.items(), "floating_nodes", members)?;
    Ok(put_border(alloc, n, members)?)
}

/// Adds a field that is an array of nodes.
#[cycle(node)]
fn put_nodes(
    alloc: Global,
    nodes: &[NodeView],
    key: &str,
    members: &mut Map<String, Value>,
) -> Result<(), NoMemory>
    ensures { OnOk result (members_view members.new.entries
        ≡ with_member key.now (nodes_data nodes.now) (members_view members.old.entries)) }
{
    let mut values = Vec::with_capacity(alloc, nodes.len())?;
    for node in nodes {
        values.push(node_value(alloc, node)?)?;
    }
    Ok(put(members, alloc, key, Value::Array(values))?)
}
