//! The names of modes, each once.
ghost use Rattle.std.specs.Prelude.{◌≡◌, [], OnOk};
ghost use Rattle.std.specs.List.{list_any};
ghost use Rattle.std.specs.Str.{bytes_eq};
ghost use Rattle.wm_binds.specs.Blocks.{with_name};
ghost use Rattle.wm_binds.specs.Table.{IsNamed};

use indexmap::IndexSet;
use std::alloc::Global;
use std::marker::Model;
use wm_base::{List, NoMemory, Text};

/// Names in order, each once. A name is found in the same time however many there are.
#[derive(Drop)]
pub struct ModeTable {
    names: Vec<Text>,
    /// The bytes of each name, at its place.
    keys: IndexSet<String>,
}

impl Model for ModeTable {
    ghost use Rattle.std.specs.Prelude.{ℕ, List};
    ghost use Rattle.std.specs.Coded.{coded_list, coded_ℕ};
    ghost use Rattle.wm_binds.specs.Table.{AreNames};

    ghost Value = { List (List ℕ) };

    ghost coded = { coded_list (coded_list coded_ℕ) };

    ghost view = { λ t. t.names.items };

    ghost invariant = { λ t. AreNames t.keys.keys t.names.items };
}

impl ModeTable {
    /// No names.
    pub fn new(alloc: Global) -> ModeTable
        ensures { result ≡ [] }
    {
        ModeTable {
            names: Vec::new(alloc),
            keys: IndexSet::new(alloc),
        }
    }

    /// Whether the name is there.
    pub fn has(&self, name: &Text) -> bool
        ensures { result ≡ list_any (bytes_eq name.now) self.now }
    {
        self.keys.contains(name.as_str())
    }

    /// One more name, unless it is there.
    pub fn put(&mut self, alloc: Global, name: &Text) -> Result<(), NoMemory>
        ensures { OnOk result (self.new ≡ with_name name.now self.old) }
    {
        if self.has(name) {
            return Ok(());
        }
        let key = String::from_str(alloc, name.as_str())?;
        let name = name.clone()?;
        self.put_keyed(key, name)
    }

    /// The same of a name with its bytes.
    fn put_keyed(&mut self, key: String, name: Text) -> Result<(), NoMemory>
        requires { IsNamed key name }
        ensures { OnOk result (self.new ≡ with_name name self.old) }
    {
        if self.names.reserve(1).is_err() {
            return Err(NoMemory);
        }
        match self.keys.insert(key) {
            Ok(true) => self.names.push_reserved(name),
            Ok(false) => {}
            Err(refused) => {
                drop(refused);
                return Err(NoMemory);
            }
        }
        Ok(())
    }

    /// The names in order.
    pub fn into_list(self) -> List<Text>
        ensures { result ≡ self }
    {
        let ModeTable { names, keys } = self;
        drop(keys);
        List::of(names)
    }
}
