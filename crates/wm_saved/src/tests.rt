//! A layout that is read and copied, first faults at their paths, and limits that a layout passes alone.
use crate::{LayoutRefusal, SavedKind, SavedLayout, read_layout};
use serde_json::Value;
use std::alloc::Global;
use std::test::Fail;
use wm_base::{Border, Layout};
use wm_forest::SwallowKey;

/// What this refusal tells.
fn told_refusal(alloc: Global, refusal: &LayoutRefusal) -> Result<String, Fail> {
    match refusal {
        LayoutRefusal::BadField { path } => Ok(format!(in alloc; "bad {}", path.as_str())?),
        LayoutRefusal::PatternRefused { path } => {
            Ok(format!(in alloc; "pattern {}", path.as_str())?)
        }
        LayoutRefusal::Full { limit } => Ok(format!(in alloc; "full {}", limit.word())?),
        LayoutRefusal::NoMemory => Ok(String::from_str(alloc, "no memory")?),
    }
}

/// What reading this value tells.
fn told_value(alloc: Global, value: &Value) -> Result<String, Fail> {
    match read_layout(alloc, value) {
        Ok(_layout) => Ok(String::from_str(alloc, "ok")?),
        Err(refusal) => told_refusal(alloc, &refusal),
    }
}

/// What reading this text tells.
fn told(alloc: Global, text: &str) -> Result<String, Fail> {
    let value = Value::from_str(alloc, text)?;
    told_value(alloc, &value)
}

/// An object three deep in a layout, and what the reader says of the layout.
const FAULTS: [(&str, &str); 16] = [
    (
        "{\"type\":\"con\",\"percent\":0.5,\"nodes\":[],\"id\":7}",
        "ok",
    ),
    ("{\"border\":\"thick\"}", "bad 0.nodes.1.nodes.0.border"),
    (
        "{\"current_border_width\":65}",
        "bad 0.nodes.1.nodes.0.current_border_width",
    ),
    (
        "{\"current_border_width\":2.0}",
        "bad 0.nodes.1.nodes.0.current_border_width",
    ),
    ("{\"layout\":\"default\"}", "bad 0.nodes.1.nodes.0.layout"),
    ("{\"marks\":\"m\"}", "bad 0.nodes.1.nodes.0.marks"),
    ("{\"marks\":[\"m\",\"\"]}", "bad 0.nodes.1.nodes.0.marks.1"),
    ("{\"name\":null}", "bad 0.nodes.1.nodes.0.name"),
    ("{\"nodes\":{}}", "bad 0.nodes.1.nodes.0.nodes"),
    ("{\"nodes\":[{},[]]}", "bad 0.nodes.1.nodes.0.nodes.1"),
    ("{\"swallows\":{}}", "bad 0.nodes.1.nodes.0.swallows"),
    (
        "{\"swallows\":[{\"id\":7}]}",
        "bad 0.nodes.1.nodes.0.swallows.0",
    ),
    (
        "{\"swallows\":[{\"class\":7}]}",
        "bad 0.nodes.1.nodes.0.swallows.0.class",
    ),
    (
        "{\"swallows\":[{\"title\":\"a.*\"}]}",
        "pattern 0.nodes.1.nodes.0.swallows.0.title",
    ),
    ("{\"type\":\"floating_con\"}", "bad 0.nodes.1.nodes.0.type"),
    (
        "{\"type\":7,\"nodes\":[7],\"swallows\":7}",
        "bad 0.nodes.1.nodes.0.nodes.0",
    ),
];

#[test]
fn the_first_fault_is_told_by_its_path(rt: HostRuntime) -> Result<(), Fail> {
    let alloc = rt.alloc();
    for (object, wanted) in FAULTS {
        let text = format!(in alloc; "[{{\"nodes\":[{{}},{{\"nodes\":[{object}]}}]}}]")?;
        assert_eq!(rt; told(alloc, text.as_str())?.as_str(), wanted, "{object}");
    }
    Ok(())
}

/// This many times the text, with `open` before them and `close` behind.
fn times(alloc: Global, open: &str, text: &str, count: u32, close: &str) -> Result<String, Fail> {
    let mut all = String::from_str(alloc, open)?;
    for _ in 0..count {
        all.push_str(text)?;
    }
    all.push_str(close)?;
    Ok(all)
}

#[test]
fn a_limit_is_told_where_a_layout_passes_it_alone(rt: HostRuntime) -> Result<(), Fail> {
    let alloc = rt.alloc();
    for (part, count, close, wanted) in [
        ("{},", 255, "{}]", "ok"),
        ("{},", 256, "{}]", "full children"),
        ("{},", 4096, "{}]", "full containers"),
        ("{\"marks\":[\"a\",\"a\"]},", 40, "{}]", "ok"),
    ] {
        let text = times(alloc, "[", part, count, close)?;
        assert_eq!(rt;
            told(alloc, text.as_str())?.as_str(),
            wanted,
            "{count} times {part}"
        );
    }
    for (levels, wanted) in [(31, "ok"), (32, "full depth")] {
        let inner = times(alloc, "[", "{\"nodes\":[", levels, "{}")?;
        let text = times(alloc, inner.as_str(), "]}", levels, "]")?;
        assert_eq!(rt;
            told(alloc, text.as_str())?.as_str(),
            wanted,
            "{levels} levels"
        );
    }
    Ok(())
}

/// The layout that the text describes, by way of a copy.
fn read(alloc: Global, text: &str) -> Result<SavedLayout, Fail> {
    match read_layout(alloc, &Value::from_str(alloc, text)?) {
        Ok(layout) => Ok(layout.copy(alloc)?),
        Err(error) => Err(error.into()),
    }
}

#[test]
fn a_layout_is_read(rt: HostRuntime) -> Result<(), Fail> {
    let text =
        "[{\"type\":\"con\",\"layout\":\"tabbed\",\"marks\":[\"web\"],\"nodes\":[{\"type\":\"con\",\
        \"border\":\"pixel\",\"current_border_width\":3,\"name\":\"w\",\"swallows\":[{\"title\":\"a$\",\"class\":\"^w$\"}]}]}]";
    let layout = read(rt.alloc(), text)?;
    assert!(rt; layout.is_fit());
    let [tree] = layout.trees.items() else {
        return Err("one tree".into());
    };
    assert_eq!(rt; tree.border, Border::Normal(2));
    let SavedKind::Split { layout, nodes } = &tree.kind else {
        return Err("a split".into());
    };
    assert_eq!(rt; *layout, Layout::Tabbed);
    let [leaf] = nodes.items() else {
        return Err("one node".into());
    };
    assert_eq!(rt; leaf.border, Border::Pixel(3));
    let SavedKind::Placeholder { name, swallows } = &leaf.kind else {
        return Err("a placeholder".into());
    };
    assert_eq!(rt; name.as_str(), "w");
    let [swallow] = swallows.items() else {
        return Err("one swallow".into());
    };
    let [(first, class), (second, title)] = swallow.keys.items() else {
        return Err("two keys".into());
    };
    assert_eq!(rt; (*first, class.as_str()), (SwallowKey::Class, "^w$"));
    assert_eq!(rt; (*second, title.as_str()), (SwallowKey::Title, "a$"));
    Ok(())
}
