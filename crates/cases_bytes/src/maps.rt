//! Cases of maps by id: operations one after another.
use case_data::{Fault, Words};
use wm_ids::IdMap;

/// Operations with `, ` between them on a map that is empty at first.
pub fn tell_map(words: &mut Words<'_>, out: &mut String) -> Result<(), Fault> {
    let mut map = IdMap::new(words.alloc);
    let answer = operate_all(&mut map, words, out);
    drop(map);
    answer
}

fn operate_all(map: &mut IdMap<u32>, words: &mut Words<'_>, out: &mut String) -> Result<(), Fault> {
    for part in words.rest().split(", ") {
        operate(map, &mut Words::of(words.alloc, part), out)?;
    }
    Ok(())
}

/// One operation: `insert ID VALUE`, `set ID VALUE`, `get ID`, `remove ID`, or `churn N`.
fn operate(map: &mut IdMap<u32>, words: &mut Words<'_>, out: &mut String) -> Result<(), Fault> {
    let word = words.word();
    let id = words.number()?;
    match word {
        "insert" => insert(map, id, words),
        "set" => set(map, id, words),
        "remove" => {
            map.remove(id);
            Ok(())
        }
        "get" => push_value(out, id, map.get(id).copied()),
        "churn" => churn(map, id),
        _ => Err(Fault::BadLine),
    }
}

fn insert(map: &mut IdMap<u32>, id: u32, words: &mut Words<'_>) -> Result<(), Fault> {
    let value = words.number()?;
    Ok(map.insert(id, value)?)
}

fn set(map: &mut IdMap<u32>, id: u32, words: &mut Words<'_>) -> Result<(), Fault> {
    let value = words.number()?;
    map.set(id, value);
    Ok(())
}

fn push_value(out: &mut String, id: u32, value: Option<u32>) -> Result<(), Fault> {
    match value {
        Some(value) => Ok(write!(out, "  {id} has {value}\n")?),
        None => Ok(write!(out, "  {id} has none\n")?),
    }
}

/// Gives each id from 1 to before this one the value id + 7 and then twice the id, and takes the id before away.
fn churn(map: &mut IdMap<u32>, end: u32) -> Result<(), Fault> {
    for id in 1..end.min(100_000) {
        map.insert(id, id + 7)?;
        map.set(id, id * 2);
        map.remove(id - 1);
    }
    Ok(())
}
